// What `clap` finds in the words.
ghost use Rattle.std.specs.Prelude.{◌≡◌, ◌≢◌, IfOk, None, map, option_map, string_bytes};
ghost use Rattle.clap.specs.Words.{app_of, found_of, rows_of};
ghost use Rattle.tv_words.specs.Reading.{command_line, found_in, reading_of};

use clap::error::ErrorKind;
use clap::{Arg, ArgMatches, Command};
use std::alloc::{AllocError, Global};
use tv_value::NoMemory;

/// What `clap` finds in the words, or `None` where it refuses them; help that is asked for is refused too.
/// Linear in the words.
pub(crate) fn matches_of<'a>(
    alloc: Global,
    words: &'a [String],
) -> Result<Option<ArgMatches<'a>>, NoMemory>
    ensures { IfOk result (λ matches. option_map (λ m. found_in (rows_of (found_of m))) matches
        ≡ reading_of (map (λ w. string_bytes w) words.entry.now)) }
{
    let command = command_line(alloc)?;
    match command.try_get_matches_from(words) {
        Ok(matches) => Ok(Some(matches)),
        Err(error) => refused(error.kind()),
    }
}

// Nothing is found, where it isn't memory that was wanting.
fn refused<'a>(kind: ErrorKind) -> Result<Option<ArgMatches<'a>>, NoMemory>
    ensures { IfOk result (λ matches. (matches ≡ None) × (kind ≢ ErrorKind.OutOfMemory)) }
{
    if kind == ErrorKind::OutOfMemory {
        Err(NoMemory)
    } else {
        Ok(None)
    }
}

// The command line as it is described to `clap`.
fn command_line<'a>(alloc: Global) -> Result<Command<'a>, AllocError>
    ensures { IfOk result (λ c. app_of c ≡ command_line) }
{
    let words = Arg::new(alloc, "words").required(true).num_args(1..=2);
    let workers = Arg::new(alloc, "workers").long("workers");
    let of = Arg::new(alloc, "of").long("of");
    let bare = Command::new(alloc, "taverna").no_binary_name(true);
    bare.arg(words)?.arg(workers)?.arg(of)
}
