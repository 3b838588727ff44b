//! That a frame never knows more than is so, nor less than is known: laws, of which the program
//! runs nothing.
//!
//! A frame (`tv_frame`) has a tree for each output of its flow's steps, of what it was told so far.
//! What it knows of what feeds a port, or an output of the flow, follows from that: the tree of an
//! output, the value of an input or a constant, the list of what is known of a merge's links. A
//! port that takes more levels than are delivered has it in one-item lists.
//!
//! Whatever the frame isn't told yet, the value will agree with what it knows: that is below the
//! value in every instance that has what was told. So what a job binds, and what is put out early,
//! stands. And what the frame knows is all that is known then: once a value is known whole, it has
//! the value.
//!
//! - `specs/Parts.antt`: what is known of a feed and of a port, by what is of inputs and outputs
//! - `specs/Known.antt`: and so by what a frame has
//! - `specs/Stated.antt`: that it is below the values
//! - `specs/Exact.antt`: that it is all that is known
//! - `specs/Worked.antt`: worked examples
//! - `laws`: the functions whose clauses these are

pub mod laws;
