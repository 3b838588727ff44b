//! The start of a frame, in theory: what the matchers of an open instance's steps are told before anything happens.
//! Definitions and laws, of which the program runs nothing.
//!
//! At the start the flow's inputs and constants are known, and so are the lists that merges make; of outputs of steps nothing
//! is. `specs/starts/Starts.antt` says what follows for a port, by its feed and by the levels that it walks. The laws of
//! `specs/starts/Stated.antt` promise that
//! - with these tellings each port was told exactly what is known of its walk, whatever the instance's jobs will give;
//! - a matcher can be told them one after the other, port by port;
//! - a view of which nothing was told is a frame;
//! - by the numbers of inputs and the leaves of strategies, as code has them (`specs/starts/Numbers.antt`), the same is told.
ghost use Rattle.tv_framing.specs.starts.Stated.{InputsAreInOrder, NumbersStartAlike, StartCanBeTold, StartIsFrame, StartIsTold};

/// What ports are told at the start.
pub fn starts()
    ensures told { StartIsTold }
    ensures can_be { StartCanBeTold }
{}

/// The same as code has it, by numbers and leaves.
pub fn numbers()
    ensures ports { NumbersStartAlike }
    ensures inputs { InputsAreInOrder }
{}

/// A frame before any event.
pub fn frames()
    ensures { StartIsFrame }
{}
