//! The two top calls: words and a document in, text and a status out.
//!
//! `taverna_alone` does what the words ask for with one worker and always returns; `taverna` has a gate and threads besides, and does
//! a run by as many workers as the words ask for. Their contracts are the headline (`specs/Promised.antt`): what is written is a
//! function of the words and the document's bytes (`specs/Answers.antt`), for every number of workers, each status has its cause and
//! its line (`specs/Headline.antt`), and a document that is accepted is refused for want of memory, a fault of a stream or a loop, which
//! no run goes round yet (`specs/Built.antt`), alone. What one worker asks of the services is such a function too (`specs/Asking.antt`). `gen` runs a document that is generated
//! (`tv_generator`), and reads nothing. A run goes over a board (`tv_board`), which one worker (`run_whole` of `tv_work`) or many
//! (`run_whole_with_workers`) work off.
//!
//! - `words`, `status`, `refusal`: what goes in and comes out besides bytes
//! - `reading`: from bytes to a JSON tree
//! - `answering`: from there to the text to print, or the refusal, by one worker
//! - `built`: what a run isn't built for yet
//! - `following`: the lineage of an element of an output, and the forward use of an element of an input
//! - `many`: a run by many workers
//! - `top`: the top calls
//! - `laws`: laws of the definitions, and the definitions computed on worked examples
//!
//! `Board` and `run_alone`, which works a board off, are passed on from `tv_board` and `tv_work`.
#![tactic(auto)]

mod answering;
mod built;
mod following;
pub mod laws;
mod many;
mod reading;
mod refusal;
mod status;
mod top;
mod words;

pub use status::Status;
pub use top::{taverna, taverna_alone};
pub use tv_work::{Board, run_alone};
