//! The command line: which command the words after the program's name give.
//!
//! `clap` reads the words as one simple command: one positional argument of one or two values, and the options
//! `--workers` and `--of` with one value each. A table says which command that reading is (`specs/Commands.antt`), and
//! whatever isn't in it is no command. `read_words` gives exactly the command of the definition; only want of memory
//! keeps it from an answer.
//!
//! - `command`: the commands
//! - `reading`: what `clap` finds in the words
//! - `number`: the numbers among the words
//! - `words`: from what was found to the command
//! - `elements` (`specs/elements/`): the elements of inputs and outputs as words and lines
//! - `laws`: what holds of the definitions alone, and the definitions computed on worked words
#![tactic(auto)]

mod command;
pub mod elements;
pub mod laws;
mod number;
mod reading;
mod words;

pub use command::Command;
pub use elements::{label_lines, read_element};
pub use words::read_words;
