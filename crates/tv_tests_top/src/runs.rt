//! Runs of the two top calls over memory.
ghost use Rattle.std.specs.Prelude.{◌<◌};

use std::alloc::{AllocError, Global};
use std::sync::Wait;
use std::test::Fail;
use std::thread::Threads;
use tv_gate::{Asker, Gate, GateAsker};
use tv_io::{MemorySink, MemorySource};
use tv_local::{LocalGate, LocalServices};
use tv_top::{Status, taverna, taverna_alone};

/// The document of one text.
pub(crate) const ONE_TEXT: &str =
    r#"{"taverna":1,"main":"m","flows":{"m":{"inputs":{"x":0},"steps":{"u":{"inputs":{"a":{"depth":0,"from":{"input":"x"}}},"outputs":{"o":0},"activities":[{"service":"upper"}]}},"outputs":{"out":{"step":"u","port":"o"}}}},"inputs":{"x":"a"}}"#;

pub(crate) const ONE_TEXT_LINE: &str =
    "{\"outputs\":{\"out\":\"A\"},\"totals\":{\"attempts\":1,\"bounced\":0,\"failed\":0,\"jobs\":1}}\n";

pub(crate) const USAGE: &str =
    "taverna: usage: taverna run [--workers N] | check | trace | lineage --of PORT[PLACE] | forward --of PORT[PLACE] | gen N [--workers W] | upgrade\n";

/// How the three streams of a run behave: the most bytes of one call, and the number of the call that fails, 0 for none.
#[derive(Clone, Copy, Debug)]
pub(crate) struct Streams {
    pub(crate) piece: usize,
    pub(crate) source_fails: u64,
    pub(crate) out_fails: u64,
    pub(crate) err_fails: u64,
    ghost some: { 0 < piece },
}

/// Streams that serve all at once and never fail.
pub(crate) const SOUND: Streams = Streams {
    piece: 65536,
    source_fails: 0,
    out_fails: 0,
    err_fails: 0,
};

/// What a run left.
#[derive(Drop)]
pub(crate) struct Ran {
    pub(crate) status: Status,
    pub(crate) out: MemorySink,
    pub(crate) err: MemorySink,
}

impl Ran {
    /// Whether the run ended so: its status, and all the bytes of its two streams.
    pub(crate) fn is(&self, status: Status, out: &[u8], err: &[u8]) -> bool {
        self.status == status && self.out.sent() == out && self.err.sent() == err
    }
}

/// Words with a space between each two.
fn words_of(alloc: Global, line: &str) -> Result<Vec<String>, AllocError> {
    let mut words = Vec::new(alloc);
    for word in line.split_whitespace() {
        words.push(String::from_str(alloc, word)?)?;
    }
    Ok(words)
}

fn sink_of(alloc: Global, piece: usize, fails: u64) -> Result<MemorySink, Fail>
    requires { 0 < piece }
{
    Ok(MemorySink::new(alloc, 4096, piece, vec![in alloc; fails]?)?)
}

fn source_of(alloc: Global, document: &[u8], piece: usize, fails: u64) -> Result<MemorySource, Fail>
    requires { 0 < piece }
{
    let bytes = document.to_vec(alloc)?;
    Ok(MemorySource::new(bytes, piece, vec![in alloc; fails]?))
}

/// A run of `taverna_alone`.
pub(crate) fn alone<A: Asker<Services = LocalServices>>(
    alloc: Global,
    words: &str,
    document: &[u8],
    streams: Streams,
    asker: &mut A,
) -> Result<Ran, Fail> {
    let words = words_of(alloc, words)?;
    let mut source = source_of(alloc, document, streams.piece, streams.source_fails)?;
    let mut out = sink_of(alloc, streams.piece, streams.out_fails)?;
    let mut err = sink_of(alloc, streams.piece, streams.err_fails)?;
    let status = taverna_alone(alloc, &words, &mut source, &mut out, &mut err, asker);
    Ok(Ran { status, out, err })
}

/// A run of `taverna`.
pub(crate) fn by<
    R: Threads + Wait + Sync,
    G: Gate<Services = LocalServices>,
    A: Asker<Services = LocalServices>,
>(
    rt: &R,
    alloc: Global,
    words: &str,
    document: &[u8],
    streams: Streams,
    gate: &G,
    asker: &mut A,
) -> Result<Ran, Fail> {
    let words = words_of(alloc, words)?;
    let mut source = source_of(alloc, document, streams.piece, streams.source_fails)?;
    let mut out = sink_of(alloc, streams.piece, streams.out_fails)?;
    let mut err = sink_of(alloc, streams.piece, streams.err_fails)?;
    let status = taverna(
        rt,
        alloc,
        &words,
        &mut source,
        &mut out,
        &mut err,
        gate,
        asker,
    );
    Ok(Ran { status, out, err })
}

/// A run of `taverna` with the local services.
pub(crate) fn by_gate<R: Threads + Wait + Sync>(
    rt: &R,
    alloc: Global,
    words: &str,
    document: &[u8],
    streams: Streams,
) -> Result<Ran, Fail> {
    let gate = LocalGate::new();
    by(
        rt,
        alloc,
        words,
        document,
        streams,
        &gate,
        &mut GateAsker::new(&gate),
    )
}
