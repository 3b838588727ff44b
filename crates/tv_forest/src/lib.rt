//! The instances of a run together: those that are open, each with its seats and with what its frame was told, and those that
//! have ended. Definitions and laws, of which the program runs nothing.
//!
//! - `specs/Forest.antt`: the instances by their numbers, and how they stand after a history
//! - `specs/Entries.antt`: what each entry changes of them
//!
//! What leads there from one frame stands in folders of `specs/` and `proofs/`, each with a module of `laws` that says what it
//! is about:
//! - `views`: what the view of a frame says of the run that it is in
//! - `runs`: how it goes on with each entry of the run, and where it starts
//! - `tries`: the tries of one job, by the numbers of activity and attempt
//! - `seats`: the seats of an instance's known jobs go on with each entry
//! - `stands`: what is read off the seats of one instance
//! - `firsts`: which job of all instances comes first, when a flow may be opened, when nothing is left to settle
//!
//! - `laws`: each law as the clause of a function that does nothing
#![tactic(auto)]

pub mod laws;
