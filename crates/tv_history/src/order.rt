//! What job order tells of a run: the walk to the first job that goes on, how many instances are open, what is on offer and held.
//!
//! Definitions and laws alone: the program runs nothing of them. They are what an engine may rest on that holds jobs
//! instance by instance: the order of its jobs by step and place is that of the meaning, the first ask of the whole run
//! is found by walking down from the main instance, and few instances are entered on the way. Job order itself is a
//! definition of the model (`tv_model`, `specs/JobOrder.antt`). All laws hold for every document, all services and every legal
//! history.
//!
//! - `specs/FirstIn.antt`: the walk, over what is held of each instance
//! - `specs/Chains.antt`: what one worker appends, and instances within each other
//! - `specs/Parts.antt`: an instance inside a meaning
//! - `specs/Moments.antt`: a run after a history, the words in which the laws speak
//! - `specs/OrderLaws.antt`, `specs/WalkLaws.antt`, `specs/OpenLaws.antt`, `specs/PartLaws.antt`: the laws
//! - `specs/Closings.antt`: a history without its closings, which the meaning's offers don't read
//! - `specs/offers/`: what is on offer in a run, and how each entry changes where its jobs stand (`laws::offers`)
//! - `specs/Rows.antt`, `specs/RowsOfRoom.antt`: worked documents and histories

pub mod laws;
