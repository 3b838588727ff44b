//! std's readers and writers as sources and sinks: the edge to the system.
ghost use Rattle.std.specs.Prelude.{◌≡◌, ◌<◌, ◌≤◌, length, take, IfOk, OnErr, is_ok, if◌then◌else◌};
ghost use Rattle.tv_io.specs.Rising.{HasRisen, one_more};
ghost use Rattle.tv_io.specs.ReadOf.{IsReadOf, IsNoneAtEnd};
ghost use Rattle.tv_io.specs.SentOf.{IsSentOf};
ghost use Rattle.tv_io.specs.Kept.{IsKept};
ghost use Rattle.tv_io.specs.Adapted.{source_reader, source_faults, sink_writer, sink_faults};

use crate::faults::Failed;
use crate::sink::Sink;
use crate::source::Source;
use std::io::{Read, Write};

/// A reader as a source.
///
/// It tells the bytes that are left where the reader says what remains, as one over memory does;
/// standard input doesn't. Each error of the reader is counted as a fault, an interruption too.
#[derive(Drop)]
pub struct ReaderSource<R> {
    reader: R,
    faults: u64,
}

impl<R: Read> ReaderSource<R> {
    /// A source that reads from `reader`. It takes no memory.
    pub fn new(reader: R) -> ReaderSource<R>
        ensures reader { source_reader result ≡ reader }
        ensures faults { source_faults result ≡ 0 }
    {
        ReaderSource { reader, faults: 0 }
    }
}

impl<R: Read> Source for ReaderSource<R> {
    ghost left = { λ s. R.remaining (source_reader s) };

    ghost faults = { source_faults };

    /// One read of the reader.
    fn read(&mut self, into: &mut [u8]) -> Result<usize, Failed>
        ensures bound { IfOk result (λ count. count ≤ length into.old) }
        ensures ok { IfOk result (λ count. IsReadOf (R.remaining (source_reader self.old))
            (R.remaining (source_reader self.new)) (take count into.new)) }
        ensures end { IfOk result (λ count. 0 < length into.old
            → IsNoneAtEnd (R.remaining (source_reader self.old)) count) }
        ensures failed { OnErr result (IsKept (R.remaining (source_reader self.old))
            (R.remaining (source_reader self.new))) }
        ensures counted { OnErr result (HasRisen (source_faults self.old)
            (source_faults self.new)) }
        ensures never_falls { source_faults self.old ≤ source_faults self.new }

        ensures faults { source_faults self.new ≡ (if is_ok result then source_faults self.old
            else one_more (source_faults self.old)) }
    {
        match self.reader.read(into) {
            Ok(count) => Ok(count),
            Err(_) => {
                self.faults = self.faults.saturating_add(1);
                Err(Failed)
            }
        }
    }
}

/// A writer as a sink.
///
/// It tells the bytes taken where the writer says what it holds, as one over memory does; standard
/// output doesn't. Each error of the writer is counted as a fault, and so is a write that takes nothing
/// of a piece that isn't empty. Nothing is flushed: the writer has to hold no byte back once a line feed
/// was written after it.
#[derive(Drop)]
pub struct WriterSink<W> {
    writer: W,
    faults: u64,
}

impl<W: Write> WriterSink<W> {
    /// A sink that writes to `writer`. It takes no memory.
    pub fn new(writer: W) -> WriterSink<W>
        ensures writer { sink_writer result ≡ writer }
        ensures faults { sink_faults result ≡ 0 }
    {
        WriterSink { writer, faults: 0 }
    }
}

impl<W: Write> Sink for WriterSink<W> {
    ghost sent = { λ s. W.contents (sink_writer s) };

    ghost faults = { sink_faults };

    /// One write of the writer.
    fn write(&mut self, bytes: &[u8]) -> Result<usize, Failed>
        ensures bound { IfOk result (λ count. count ≤ length bytes.now) }
        ensures ok { IfOk result (λ count. IsSentOf (W.contents (sink_writer self.old))
            (W.contents (sink_writer self.new)) (take count bytes.now)) }
        ensures moves { IfOk result (λ count. 0 < length bytes.now → 0 < count) }
        ensures failed { OnErr result (IsKept (W.contents (sink_writer self.old))
            (W.contents (sink_writer self.new))) }
        ensures counted { OnErr result (HasRisen (sink_faults self.old) (sink_faults self.new)) }
        ensures never_falls { sink_faults self.old ≤ sink_faults self.new }

        ensures faults { sink_faults self.new ≡ (if is_ok result then sink_faults self.old
            else one_more (sink_faults self.old)) }
    {
        match self.writer.write(bytes) {
            Ok(count) if 0 < count || bytes.is_empty() => Ok(count),
            _ => {
                self.faults = self.faults.saturating_add(1);
                Err(Failed)
            }
        }
    }
}
