// From the words to the command.
ghost use Rattle.std.specs.Prelude.{◌≡◌, IfOk, map, option_map, string_bytes};
ghost use Rattle.tv_words.specs.Commands.{command_in, command_of, plain_command, element_command, numbered_command, workers_of};
ghost use Rattle.tv_words.specs.CommandViews.{command_view};

use crate::command::Command;
use crate::number::{count_of, number_of};
use crate::read_element;
use crate::reading::matches_of;
use std::alloc::Global;
use tv_value::{Name, NoMemory, Place};

/// The command that the words after the program's name give, or `None` where they give none. Linear in the words.
pub fn read_words(alloc: Global, words: &[String]) -> Result<Option<Command>, NoMemory>
    ensures { IfOk result (λ command. option_map command_view command
        ≡ command_of (map (λ w. string_bytes w) words.now)) }
{
    let Some(matches) = matches_of(alloc, words)? else {
        return Ok(None);
    };
    let found = matches.get_strs("words").unwrap_or(&[]);
    command_in(
        alloc,
        found,
        matches.get_str("workers"),
        matches.get_str("of"),
    )
}

// The command by the words that belong to no option, and the values of the options.
fn command_in(
    alloc: Global,
    words: &[&str],
    workers: Option<&str>,
    of: Option<&str>,
) -> Result<Option<Command>, NoMemory>
    ensures { IfOk result (λ command. option_map command_view command
        ≡ command_in (map (λ w. w.now) words.now) (option_map (λ t. t.now) workers.entry)
        (option_map (λ t. t.now) of.entry)) }
{
    match (words, workers, of) {
        ([word], _, None) => Ok(plain_command(word, workers)),
        ([word], None, Some(element)) => {
            let Some((port, place)) = read_element(alloc, element)? else {
                return Ok(None);
            };
            Ok(element_command(word, port, place))
        }
        ([word, number], _, None) => Ok(numbered_command(word, number, workers)),
        _ => Ok(None),
    }
}

fn plain_command(word: &str, workers: Option<&str>) -> Option<Command>
    ensures { option_map command_view result
        ≡ plain_command word.now (option_map (λ t. t.now) workers.entry) }
{
    if word == "run" {
        return Some(Command::Run {
            workers: workers_of(workers)?,
        });
    }
    if workers.is_some() {
        return None;
    }
    if word == "check" {
        Some(Command::Check)
    } else if word == "trace" {
        Some(Command::Trace)
    } else if word == "upgrade" {
        Some(Command::Upgrade)
    } else {
        None
    }
}

fn element_command(word: &str, port: Name, place: Place) -> Option<Command>
    ensures { option_map command_view result ≡ element_command word.now (port, place) }
{
    if word == "lineage" {
        Some(Command::Lineage { port, place })
    } else if word == "forward" {
        Some(Command::Forward { port, place })
    } else {
        None
    }
}

fn numbered_command(word: &str, number: &str, workers: Option<&str>) -> Option<Command>
    ensures { option_map command_view result ≡ numbered_command word.now number.now
        (option_map (λ t. t.now) workers.entry) }
{
    if word != "gen" {
        return None;
    }
    let number = number_of(number)?;
    let workers = workers_of(workers)?;
    Some(Command::Gen { number, workers })
}

// The workers of an option that may be absent: then one.
fn workers_of(workers: Option<&str>) -> Option<u32>
    ensures { result ≡ workers_of (option_map (λ t. t.now) workers.entry) }
{
    match workers {
        Some(text) => count_of(text),
        None => Some(1),
    }
}
