//! Reads and writes that fail, and want of memory.
ghost use Rattle.std.specs.Prelude.{◌<◌};

use crate::runs::{ONE_TEXT, ONE_TEXT_LINE, Streams, USAGE, alone, by_gate};
use std::alloc::Global;
use std::process::Abort;
use std::sync::Wait;
use std::test::Fail;
use std::thread::Threads;
use tv_gate::{Asker, Outcome};
use tv_local::LocalServices;
use tv_top::Status;
use tv_value::{Items, NoMemory};

/// Which stream fails: at each of its calls in turn.
#[derive(Clone, Copy, PartialEq, Eq)]
enum Failing {
    Source,
    Out,
    Err,
}

/// How many calls it takes to serve so many bytes.
fn calls_of(bytes: usize, piece: usize) -> u64
    requires { 0 < piece }
{
    bytes.div_ceil(piece) as u64
}

/// The first bytes of a text, as many as the calls before this one took.
fn beginning(text: &str, call: u64, piece: usize) -> &[u8] {
    let bytes = text.as_bytes();
    let taken = piece
        .saturating_mul(call.saturating_sub(1) as usize)
        .min(bytes.len());
    &bytes[..taken]
}

fn streams_of(failing: Failing, call: u64, piece: usize) -> Streams
    requires { 0 < piece }
{
    Streams {
        piece,
        source_fails: if failing == Failing::Source { call } else { 0 },
        out_fails: if failing == Failing::Out { call } else { 0 },
        err_fails: if failing == Failing::Err { call } else { 0 },
    }
}

/// How a run ends of which a call fails, of so many calls that it makes: the beginning that was taken stands.
fn due(
    failing: Failing,
    call: u64,
    calls: u64,
    piece: usize,
) -> (Status, &'static [u8], &'static [u8]) {
    match failing {
        Failing::Source if call <= calls => (Status::ReadFault, b"", b"taverna: read fault\n"),
        Failing::Out if call <= calls => (
            Status::WriteFault,
            beginning(ONE_TEXT_LINE, call, piece),
            b"taverna: write fault\n",
        ),
        Failing::Err => (Status::Usage, b"", beginning(USAGE, call, piece)),
        _ => (Status::Done, ONE_TEXT_LINE.as_bytes(), b""),
    }
}

/// Runs it, and compares how it ended.
fn ends<R: Abort + Threads + Wait + Sync>(
    rt: &R,
    alloc: Global,
    words: &str,
    document: &str,
    streams: Streams,
    due: (Status, &[u8], &[u8]),
) -> Result<(), Fail> {
    let ran = by_gate(rt, alloc, words, document.as_bytes(), streams)?;
    assert!(rt; ran.is(due.0, due.1, due.2), "{streams:?}");
    Ok(())
}

/// Each call of a run fails in turn, and then none.
fn each_call_fails<R: Abort + Threads + Wait + Sync>(
    rt: &R,
    alloc: Global,
    failing: Failing,
    piece: usize,
    calls: u64,
) -> Result<(), Fail>
    requires { 0 < piece }
{
    let words = if failing == Failing::Err { "" } else { "run" };
    for call in 1..=calls.saturating_add(1) {
        let streams = streams_of(failing, call, piece);
        let due = due(failing, call, calls, piece);
        ends(rt, alloc, words, ONE_TEXT, streams, due)?;
    }
    Ok(())
}

// One read more finds the end.
#[test]
fn each_read_fails_in_turn(rt: HostRuntime) -> Result<(), Fail> {
    for piece in [1, 7, 10, 4096] {
        let calls = calls_of(ONE_TEXT.len(), piece).saturating_add(1);
        each_call_fails(&rt, rt.alloc(), Failing::Source, piece, calls)?;
    }
    Ok(())
}

#[test]
fn each_write_fails_in_turn(rt: HostRuntime) -> Result<(), Fail> {
    for piece in [1, 7, 10, 4096] {
        let calls = calls_of(ONE_TEXT_LINE.len(), piece);
        each_call_fails(&rt, rt.alloc(), Failing::Out, piece, calls)?;
    }
    Ok(())
}

#[test]
fn each_write_of_a_line_fails_in_turn(rt: HostRuntime) -> Result<(), Fail> {
    for piece in [1, 7, 10, 4096] {
        let calls = calls_of(USAGE.len(), piece);
        each_call_fails(&rt, rt.alloc(), Failing::Err, piece, calls)?;
    }
    Ok(())
}

// The lines of a form fault and of a write fault, cut short.
#[test]
fn lines_of_faults_fail(rt: HostRuntime) -> Result<(), Fail> {
    let streams = Streams {
        piece: 10,
        source_fails: 0,
        out_fails: 2,
        err_fails: 2,
    };
    let due = (Status::Form, b"".as_slice(), b"taverna: f".as_slice());
    ends(&rt, rt.alloc(), "run", "{}", streams, due)?;
    let due = (
        Status::WriteFault,
        b"{\"outputs\"".as_slice(),
        b"taverna: w".as_slice(),
    );
    ends(&rt, rt.alloc(), "run", ONE_TEXT, streams, due)
}

/// An asker that finds no memory.
#[derive(Drop)]
struct Wanting;

impl Asker for Wanting {
    type Services = LocalServices;

    ghost use Rattle.std.specs.Prelude.{None};

    ghost calls = { λ _. None };

    ghost reaches = { λ _ _. Unit {0} };

    ghost stays = { λ _. tt };

    ghost goes_on = { λ _ _ _ _ _. tt };

    fn call(
        &mut self,
        _alloc: Global,
        _service: &str,
        _inputs: &Items,
        _attempt: u32,
    ) -> Result<Outcome, NoMemory> {
        Err(NoMemory)
    }
}

#[test]
fn want_of_memory_is_told(rt: HostRuntime) -> Result<(), Fail> {
    let streams = streams_of(Failing::Source, 0, 4096);
    let document = ONE_TEXT.as_bytes();
    let ran = alone(rt.alloc(), "run", document, streams, &mut Wanting)?;
    assert!(rt; ran.is(Status::NoMemory, b"", b"taverna: want of memory\n"));
    Ok(())
}
