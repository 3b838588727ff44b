//! That a board never knows more than is so, nor less than is known, and accepts each try at most once: laws, of which the program runs
//! nothing.
//!
//! A board (`tv_board`) is a run, which has a frame for each open instance (`tv_run`, `tv_frame`). What the frame knows so far of
//! the outputs of steps, of what has come to their ports and of its flow's outputs are partial trees (`tv_parts`, `tv_frame_laws`).
//! At every moment, whatever was accepted in which order, these are below the values that the document means in that instance by
//! the services of the board's type. So what a job binds, and what could be shown of a run that goes on, stands. And they show
//! exactly the nodes that are known after the board's history: those given from the start, those of settled jobs, and those of lists
//! that were closed and faults that were passed.
//!
//! What a whole tree below a value is, is the value (`tv_parts`, `WholeIsValue`).
//!
//! No two accepted entries of a legal history are of one job, activity and attempt. So it is in every board's history, whoever
//! worked on it: the contracts that end with a board say that it is legal.
//!
//! - `specs/Meant.antt`: what a run is meant to have in an instance
//! - `specs/Frames.antt`: which frame is an open instance's
//! - `specs/Stated.antt`: the laws of what a board knows
//! - `specs/Once.antt`: that each try is accepted at most once, and its laws
//! - `specs/Worked.antt`: worked examples of what is meant, and of what is accepted once
//! - `laws`: each law as the clause of a function that does nothing
#![tactic(auto)]

pub mod laws;
