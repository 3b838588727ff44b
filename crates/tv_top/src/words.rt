//! Words and commands.
ghost use Rattle.std.specs.Prelude.{◌≡◌, IfOk, IfSome, Some, nat_lt, option_map};
ghost use Rattle.tv_words.specs.CommandViews.{command_view as told_view};
ghost use Rattle.tv_words.specs.Commands as line;
ghost use Rattle.tv_words.specs.Stated as stated;
ghost use Rattle.tv_top.specs.Words.{carried_out, command_of, is_for_many, workers_of};
ghost use Rattle.tv_top.specs.Asked.{texts_of};
ghost use Rattle.tv_top.specs.CommandViews.{IsBoundedRequest, command_view, is_many, request_view};

use std::alloc::Global;
use tv_value::{Name, NoMemory, Place};
use tv_words::{Command as Told, read_words};

/// What the words ask for, by who carries it out where there are threads.
#[derive(Drop)]
pub(crate) enum Request {
    /// One worker.
    One(Command),
    /// So many workers, 2 to 64: read a document, run it, and write the result line.
    Run { workers: u32 },
    /// So many workers, 2 to 64: run the generated document of this number, 1 to 200, and write the summary.
    Gen { number: u32, workers: u32 },
}

/// What one worker does.
#[derive(Drop)]
pub(crate) enum Command {
    /// Something of a document that is read.
    Of(Reading),
    /// Run the generated document of this number, 1 to 200, and write the summary.
    Gen { number: u32 },
}

/// What is asked for of a document that is read.
#[derive(Drop)]
pub(crate) enum Reading {
    /// Read a document, run it, and write the result line.
    Run,
    /// Read a document, check it, and write the depths.
    Check,
    /// Read a document, run it, and write which jobs asked how often.
    Trace,
    /// Read a document, check it, and write the same document in format 2.
    Upgrade,
    /// Read a document, run it, and write which elements of the inputs made this element of an output.
    Lineage { port: Name, place: Place },
    /// Read a document, run it, and write which leaves of the outputs used this element of an input.
    Forward { port: Name, place: Place },
}

impl Request {
    /// The same for one worker.
    pub(crate) fn alone(self) -> Command
        ensures { command_view result ≡ request_view self }
    {
        match self {
            Request::One(command) => command,
            Request::Run { .. } => Command::Of(Reading::Run),
            Request::Gen { number, .. } => Command::Gen { number },
        }
    }
}

/// What the words ask for, or `None` where they give no command.
pub(crate) fn request_of(alloc: Global, words: &[String]) -> Result<Option<Request>, NoMemory>
    ensures command { IfOk result (λ request. option_map request_view request
        ≡ command_of (texts_of words.now)) }
    ensures many { IfOk result (λ request. is_many request
        ≡ is_for_many (line.command_of (texts_of words.now))) }
    ensures bounded { IfOk result (λ request. IfSome request IsBoundedRequest) }
{
    match read_words(alloc, words)? {
        Some(told) => Ok(Some(requested(told))),
        None => Ok(None),
    }
}

fn requested(told: Told) -> Request
    requires { stated.IsBounded (told_view told) }
    ensures command { request_view result ≡ carried_out (told_view told) }
    ensures many { is_many (Some result) ≡ nat_lt 1 (workers_of (told_view told)) }
    ensures bounded { IsBoundedRequest result }
{
    match told {
        Told::Run { workers } => if workers > 1 {
            Request::Run { workers }
        } else {
            Request::One(Command::Of(Reading::Run))
        },
        Told::Check => Request::One(Command::Of(Reading::Check)),
        Told::Trace => Request::One(Command::Of(Reading::Trace)),
        Told::Lineage { port, place } => Request::One(Command::Of(Reading::Lineage {
            port,
            place,
        })),
        Told::Forward { port, place } => Request::One(Command::Of(Reading::Forward {
            port,
            place,
        })),
        Told::Upgrade => Request::One(Command::Of(Reading::Upgrade)),
        Told::Gen { number, workers } => if workers > 1 {
            Request::Gen { number, workers }
        } else {
            Request::One(Command::Gen { number })
        },
    }
}
