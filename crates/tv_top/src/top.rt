//! The top calls.
ghost use Rattle.std.specs.Prelude.{◌+◌, ◌≡◌, ◌≢◌, ◌≤◌, ◌↔◌, Some, None, IfOk, IsUtf8, OnErr, OnOk};
ghost use Rattle.tv_io.specs.ReadOf.{TakesAtMost};
ghost use Rattle.tv_top.specs.Words.{IsForMany, IsForOne, ReadsNothing, gen};
ghost use Rattle.tv_top.specs.CommandViews.{IsBounded, command_view, reading_view};
ghost use Rattle.tv_top.specs.Answers.{answer_of, byte_limit, generated_reading, reading_of};
ghost use Rattle.tv_top.specs.Asked.{GivesRun, asked_for, refusal_status, refusal_line, ended, texts_of};
ghost use Rattle.tv_top.specs.Asking.{asks_of, IsAsked, IsAskedFor};
ghost use Rattle.tv_top.specs.Headline.{IsAnswered, IsRead, IsReported, Source as ASource, left_by, read_whole, source_told, sink_told, unread};
ghost use Rattle.tv_top.specs.Promised.{IsFinished, IsPromised, OfSource};

use crate::answering::{answer, summary};
use crate::many::{generated_and_run, read_and_run};
use crate::reading::{checked_run, run_of_document};
use crate::refusal::Refusal;
use crate::status::Status;
use crate::words::{Command, Reading, Request, request_of};
use std::alloc::Global;
use std::sync::Wait;
use std::thread::Threads;
use tv_check::CheckedRun;
use tv_gate::{Asker, Gate, Services};
use tv_generator::generated;
use tv_io::{ReadAllFault, Sink, Source, read_all, write_all};
use tv_value::Text;

/// The most bytes that a document has.
const BYTE_LIMIT: usize = 1 << 24;

/// Does what the words ask for with one worker, whatever `--workers` says: reads the source to its end, writes the answer to `out`,
/// and, unless the status is `Done`, the status's line to `err`. It always returns.
///
/// The answer is a function of the words and the bytes, for the services of the asker's type. Nothing is written to
/// `out` before all of it is made. `check` takes near linear time in the document. A run goes over a board (`tv_board`):
/// beside what the services take, its time grows in proportion to its jobs, to the size of the values, and to the combinations of a
/// cross inside a dot or a prefix node, which are made before they are paired, with a look at each step of the main flow for each try
/// and each thing that is settled. `lineage` and `forward` work out after the run what each of
/// its jobs used, in near linear time.
pub fn taverna_alone<S: Source, K: Sink, E: Sink, A: Asker>(
    alloc: Global,
    words: &[String],
    source: &mut S,
    out: &mut K,
    err: &mut E,
    asker: &mut A,
) -> Status
    ensures promised { IsPromised ⟦<S as Source>⟧ ⟦<K as Sink>⟧ ⟦<E as Sink>⟧
        A.Services.gives A.Services.knows (asked_for words.now)
        source.old source.new out.old out.new err.old err.new result }
    // What the services were asked, where the asker tells its calls: all that the answer takes, in the order of one worker, and
    // no more, whether or not it was written, or an element of an output wasn't there; nothing for another refusal; a beginning of it
    // where memory was wanting.
    ensures asked { IsAsked (asks_of A.Services.gives A.Services.knows (asked_for words.now))
        (source_told ⟦<S as Source>⟧ source.old source.new)
        (A.calls asker.old) (A.calls asker.new) result }
{
    let answer = answered(alloc, words, source, asker);
    finished(answer, out, err)
}

/// Does what the words ask for: `run` and `gen` with more than one worker by as many threads, each of which asks the gate, and all
/// else as `taverna_alone` does, with the asker.
///
/// What is written is the same for every number of workers and in whatever order they come to their turn. With more than one the
/// asker is left as it was, and a service may be asked again for a try whose worker found no memory. If it returns, it keeps its
/// promise; that threads get their turn, and so that it returns, is not promised.
pub fn taverna<
    R: Threads + Wait + Sync,
    S: Source,
    K: Sink,
    E: Sink,
    G: Gate,
    A: Asker<Services = G::Services>,
>(
    rt: &R,
    alloc: Global,
    words: &[String],
    source: &mut S,
    out: &mut K,
    err: &mut E,
    gate: &G,
    asker: &mut A,
) -> Status
    ensures promised { IsPromised ⟦<S as Source>⟧ ⟦<K as Sink>⟧ ⟦<E as Sink>⟧
        G.Services.gives G.Services.knows (asked_for words.now)
        source.old source.new out.old out.new err.old err.new result }
    ensures asked { IsForOne (texts_of words.now)
        → IsAsked (asks_of G.Services.gives G.Services.knows (asked_for words.now))
        (source_told ⟦<S as Source>⟧ source.old source.new)
        (A.calls asker.old) (A.calls asker.new) result }
    ensures unasked { IsForMany (texts_of words.now) → asker.new ≡ asker.old }
{
    let reply = answered_by_workers(rt, alloc, words, source, gate, asker);
    finished(reply, out, err)
}

/// Writes the text, where there is one, and else the line of the refusal, and gives the status.
fn finished<K: Sink, E: Sink>(answer: Result<Text, Refusal>, out: &mut K, err: &mut E) -> Status
    ensures finished { IsFinished answer (sink_told ⟦<K as Sink>⟧ out.old out.new)
        (sink_told ⟦<E as Sink>⟧ err.old err.new) result }
    ensures silent { OnErr answer (out.new ≡ out.old) }
    ensures unsaid { OnOk answer (result ≡ Status.Done → err.new ≡ err.old) }
    ensures utf8 { IfOk answer (λ text. IsUtf8 text) }
{
    match answer {
        Ok(text) => match write_all(out, text.as_str().as_bytes()) {
            Ok(()) => Status::Done,
            Err(_) => told(&Refusal::Plain(Status::WriteFault), err),
        },
        Err(refusal) => told(&refusal, err),
    }
}

/// Writes the line of a refusal, and gives its status.
fn told<E: Sink>(refusal: &Refusal, err: &mut E) -> Status
    ensures status { result ≡ refusal_status refusal.now }
    ensures said { IsReported (sink_told ⟦<E as Sink>⟧ err.old err.new) (refusal_line refusal.now) }
{
    match write_all(err, refusal.line().as_bytes()) {
        Ok(()) => {}
        Err(_) => {}
    }
    refusal.status()
}

/// The text to print, or the refusal, by one worker.
fn answered<S: Source, A: Asker>(
    alloc: Global,
    words: &[String],
    source: &mut S,
    asker: &mut A,
) -> Result<Text, Refusal>
    ensures answer { OfSource (asked_for words.now)
        (source_told ⟦<S as Source>⟧ source.old source.new)
        (λ s. IsAnswered (left_by (asked_for words.now))
        (answer_of A.Services.gives A.Services.knows (asked_for words.now)) s result) }
    ensures usage { ended result ≢ Status.NoMemory
        → ((ended result ≡ Status.Usage) ↔ (asked_for words.now ≡ None)) }
    ensures taken { TakesAtMost (byte_limit + 1) (S.left source.old) (S.left source.new) }
    ensures unread { ReadsNothing (asked_for words.now) → source.new ≡ source.old }
    ensures asked { IsAskedFor (asks_of A.Services.gives A.Services.knows (asked_for words.now))
        (source_told ⟦<S as Source>⟧ source.old source.new)
        (A.calls asker.old) (A.calls asker.new) result }
{
    match request_of(alloc, words)? {
        Some(request) => carried_out(alloc, request.alone(), source, asker),
        None => Err(Refusal::Plain(Status::Usage)),
    }
}

/// The text to print, or the refusal, by as many workers as the words ask for.
fn answered_by_workers<
    R: Threads + Wait + Sync,
    S: Source,
    G: Gate,
    A: Asker<Services = G::Services>,
>(
    rt: &R,
    alloc: Global,
    words: &[String],
    source: &mut S,
    gate: &G,
    asker: &mut A,
) -> Result<Text, Refusal>
    ensures answer { OfSource (asked_for words.now)
        (source_told ⟦<S as Source>⟧ source.old source.new)
        (λ s. IsAnswered (left_by (asked_for words.now))
        (answer_of G.Services.gives G.Services.knows (asked_for words.now)) s result) }
    ensures usage { ended result ≢ Status.NoMemory
        → ((ended result ≡ Status.Usage) ↔ (asked_for words.now ≡ None)) }
    ensures taken { TakesAtMost (byte_limit + 1) (S.left source.old) (S.left source.new) }
    ensures unread { ReadsNothing (asked_for words.now) → source.new ≡ source.old }
    ensures asked { IsForOne (texts_of words.now)
        → IsAskedFor (asks_of G.Services.gives G.Services.knows (asked_for words.now))
        (source_told ⟦<S as Source>⟧ source.old source.new)
        (A.calls asker.old) (A.calls asker.new) result }
    ensures unasked { IsForMany (texts_of words.now) → asker.new ≡ asker.old }
{
    match request_of(alloc, words)? {
        Some(Request::One(command)) => carried_out(alloc, command, source, asker),
        Some(Request::Run { workers }) => read_and_run(rt, alloc, source, gate, workers),
        Some(Request::Gen { number, workers }) => generated_and_run(
            rt, alloc, number, gate, workers,
        ),
        None => Err(Refusal::Plain(Status::Usage)),
    }
}

/// The text to print for a command, or the refusal, by one worker.
fn carried_out<S: Source, A: Asker>(
    alloc: Global,
    command: Command,
    source: &mut S,
    asker: &mut A,
) -> Result<Text, Refusal>
    requires { IsBounded command }
    ensures answer { OfSource (Some (command_view command))
        (source_told ⟦<S as Source>⟧ source.old source.new)
        (λ s. IsAnswered (left_by (Some (command_view command)))
        (answer_of A.Services.gives A.Services.knows (Some (command_view command))) s result) }
    ensures command { ended result ≢ Status.Usage }
    ensures taken { TakesAtMost (byte_limit + 1) (S.left source.old) (S.left source.new) }
    ensures unread { ReadsNothing (Some (command_view command)) → source.new ≡ source.old }
    ensures asked { IsAskedFor
        (asks_of A.Services.gives A.Services.knows (Some (command_view command)))
        (source_told ⟦<S as Source>⟧ source.old source.new)
        (A.calls asker.old) (A.calls asker.new) result }
{
    match command {
        Command::Of(reading) => read_and_answered(alloc, reading, source, asker),
        Command::Gen { number } => generated_and_answered(alloc, number, asker),
    }
}

/// The document is read and checked before the first service is asked.
fn read_and_answered<S: Source, A: Asker>(
    alloc: Global,
    command: Reading,
    source: &mut S,
    asker: &mut A,
) -> Result<Text, Refusal>
    ensures answer { IsAnswered read_whole
        (answer_of A.Services.gives A.Services.knows (Some (reading_view command)))
        (source_told ⟦<S as Source>⟧ source.old source.new) result }
    ensures taken { TakesAtMost (byte_limit + 1) (S.left source.old) (S.left source.new) }
    ensures command { ended result ≢ Status.Usage }
    ensures asked { IsAskedFor
        (asks_of A.Services.gives A.Services.knows (Some (reading_view command)))
        (source_told ⟦<S as Source>⟧ source.old source.new) (A.calls asker.old)
        (A.calls asker.new) result }
{
    let run = run_read::<S, A::Services>(alloc, source)?;
    answer(alloc, command, run, asker)
}

/// The generated document is checked before the first service is asked. Nothing is read.
fn generated_and_answered<A: Asker>(
    alloc: Global,
    number: u32,
    asker: &mut A,
) -> Result<Text, Refusal>
    requires some { 1 ≤ number }
    requires most { number ≤ 200 }
    ensures answer { (s : ASource) → s.left_after ≡ s.left
        → IsAnswered unread (answer_of A.Services.gives A.Services.knows (Some (gen number))) s
        result }
    ensures command { ended result ≢ Status.Usage }
    ensures asked { (s : ASource)
        → IsAskedFor (asks_of A.Services.gives A.Services.knows (Some (gen number))) s
        (A.calls asker.old) (A.calls asker.new) result }
{
    let run = run_generated::<A::Services>(alloc, number)?;
    summary(alloc, number, run, asker)
}

/// Makes the document of a number, and checks it.
pub(crate) fn run_generated<V: Services>(alloc: Global, number: u32) -> Result<CheckedRun, Refusal>
    requires some { 1 ≤ number }
    requires most { number ≤ 200 }
    ensures run { GivesRun result (generated_reading V.knows number) }
    ensures command { ended result ≢ Status.Usage }
    ensures element { ended result ≢ Status.NoSuchElement }
{
    let document = generated(alloc, number)?;
    run_of_document::<V>(alloc, document)
}

/// Reads a document to its end, and checks it.
pub(crate) fn run_read<S: Source, V: Services>(
    alloc: Global,
    source: &mut S,
) -> Result<CheckedRun, Refusal>
    ensures read { IsRead read_whole (reading_of V.knows)
        (source_told ⟦<S as Source>⟧ source.old source.new) result }
    ensures taken { TakesAtMost (byte_limit + 1) (S.left source.old) (S.left source.new) }
    ensures command { ended result ≢ Status.Usage }
    ensures element { ended result ≢ Status.NoSuchElement }
{
    match read_all(alloc, source, BYTE_LIMIT) {
        Ok(bytes) => checked_run::<V>(alloc, bytes),
        Err(ReadAllFault::ReadFault) => Err(Refusal::Plain(Status::ReadFault)),
        Err(ReadAllFault::TooLong) => Err(Refusal::Plain(Status::TooLong)),
        Err(ReadAllFault::NoMemory) => Err(Refusal::Plain(Status::NoMemory)),
    }
}
