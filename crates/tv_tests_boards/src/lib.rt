//! Boards call by call: tests that play scripts over boards of worked documents, in which outcomes come in any order.
//!
//! - `play`: a board that is played by a script, how scripts are written, and what they say
//! - `cases`: the scripts, and what each says
//! - `elsewhere`: answers that were made for another board
#![tactic(auto)]

#[cfg(test)]
mod cases;
#[cfg(test)]
mod elsewhere;
#[cfg(test)]
mod play;
