//! Whole reads and writes over sources and sinks that are slow, short or broken.
use crate::{
    MemorySink, MemorySource, ReadAllFault, ReaderSource, SteadySink, SteadySource, WriteFault,
    WriterSink, read_all, write_all,
};
use std::io;
use std::io::{Cursor, ErrorKind, Read, Write};
use std::test::Fail;

const TEXT: &[u8] = b"twenty bytes of text";

// `calls` is the number of reads that a whole run makes, the one that finds the end included.
#[test]
fn each_read_fails_in_turn(rt: HostRuntime) -> Result<(), Fail> {
    for (piece, calls) in [(1usize, 21u64), (7, 4), (4096, 2)] {
        for call in 1..=calls {
            let bytes = TEXT.to_vec(rt.alloc())?;
            let mut source = MemorySource::new(bytes, piece, vec![in rt.alloc(); call]?);
            let fault = read_all(rt.alloc(), &mut source, 20);
            assert_eq!(rt;
                fault,
                Err(ReadAllFault::ReadFault),
                "call {call} of {piece}"
            );

            // What the failed run did not take is still there.
            let rest = read_all(rt.alloc(), &mut source, 20)?;
            let taken = (call as usize - 1).saturating_mul(piece).min(20);
            assert_eq!(rt;
                rest.as_slice(),
                &TEXT[taken..],
                "after call {call} of {piece}"
            );
        }
        let bytes = TEXT.to_vec(rt.alloc())?;
        let mut source = MemorySource::new(bytes, piece, vec![in rt.alloc(); calls + 1]?);
        let read = read_all(rt.alloc(), &mut source, 20)?;
        assert_eq!(rt; read.as_slice(), TEXT, "no call of {piece}");
    }
    Ok(())
}

// `calls` is the number of writes that a whole run makes.
#[test]
fn each_write_fails_in_turn(rt: HostRuntime) -> Result<(), Fail> {
    for (piece, calls) in [(1usize, 20u64), (7, 3), (4096, 1)] {
        for call in 1..=calls {
            let mut sink = MemorySink::new(rt.alloc(), 20, piece, vec![in rt.alloc(); call]?)?;
            assert_eq!(rt;
                write_all(&mut sink, TEXT),
                Err(WriteFault),
                "call {call} of {piece}"
            );
            let taken = (call as usize - 1).saturating_mul(piece).min(20);
            assert_eq!(rt; sink.sent(), &TEXT[..taken], "call {call} of {piece}");
        }
        let mut sink = MemorySink::new(rt.alloc(), 20, piece, vec![in rt.alloc(); calls + 1]?)?;
        assert_eq!(rt; write_all(&mut sink, TEXT), Ok(()), "no call of {piece}");
        assert_eq!(rt; sink.sent(), TEXT, "no call of {piece}");
    }
    Ok(())
}

#[test]
fn a_full_sink_keeps_what_fits(rt: HostRuntime) -> Result<(), Fail> {
    let mut sink = MemorySink::new(rt.alloc(), 13, 7, vec![in rt.alloc()]?)?;
    assert_eq!(rt; write_all(&mut sink, TEXT), Err(WriteFault));
    assert_eq!(rt; sink.sent(), b"twenty bytes ".as_slice());
    Ok(())
}

#[test]
fn the_limit_is_the_last_byte_allowed(rt: HostRuntime) -> Result<(), Fail> {
    let table = [
        (0, 0, true),
        (1, 0, false),
        (5, 5, true),
        (6, 5, false),
        (5, usize::MAX, true),
        (65536, 65536, true),
        (65537, 65536, false),
        (200_000, 200_000, true),
        (200_001, 200_000, false),
    ];
    for (length, limit, fits) in table {
        let bytes = vec![in rt.alloc(); b'x'; length]?;
        let read = read_all(rt.alloc(), &mut SteadySource::new(bytes), limit);
        match read {
            Ok(bytes) => {
                assert!(rt; fits, "{length} bytes within {limit}");
                assert_eq!(rt; bytes.len(), length);
                assert!(rt; bytes.iter().all(|byte| *byte == b'x'), "{length} bytes");
            }
            Err(fault) => {
                assert!(rt; !fits, "{length} bytes within {limit}");
                assert_eq!(rt; fault, ReadAllFault::TooLong);
            }
        }
    }
    assert_eq!(rt; write_all(&mut SteadySink::new(), TEXT), Ok(()));
    Ok(())
}

/// A device that refuses every read and takes no byte.
#[derive(Drop)]
struct Broken;

impl Read for Broken {
    fn read(&mut self, _buf: &mut [u8]) -> io::Result<usize> {
        Err(ErrorKind::Other.into())
    }
}

impl Write for Broken {
    fn write(&mut self, _buf: &[u8]) -> io::Result<usize> {
        Ok(0)
    }

    fn flush(&mut self) -> io::Result<()> {
        Ok(())
    }
}

#[test]
fn readers_and_writers_are_sources_and_sinks(rt: HostRuntime) -> Result<(), Fail> {
    let mut source = ReaderSource::new(TEXT);
    let read = read_all(rt.alloc(), &mut source, 20)?;
    assert_eq!(rt; read.as_slice(), TEXT);
    let broken = read_all(rt.alloc(), &mut ReaderSource::new(Broken), 20);
    assert_eq!(rt; broken, Err(ReadAllFault::ReadFault));

    let mut held = [b'.'; 22];
    let mut sink = WriterSink::new(held.as_mut_slice());
    assert_eq!(rt; write_all(&mut sink, TEXT), Ok(()));
    // Two more bytes fit, and then the writer takes none.
    assert_eq!(rt; write_all(&mut sink, b"abc"), Err(WriteFault));
    drop(sink);
    assert_eq!(rt; held.as_slice(), b"twenty bytes of textab".as_slice());
    assert_eq!(rt;
        write_all(&mut WriterSink::new(Broken), TEXT),
        Err(WriteFault)
    );
    Ok(())
}
