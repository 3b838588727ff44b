//! An event of a step, spread to the steps that it feeds.
//!
//! What a step's matcher is told with an event of another step goes along the wires between them, and to the ports that have
//! their whole values with it (`specs/Arounds.antt`). `Spread` works an event in two halves. `hold` has the matcher of each step
//! that is told something work it ahead, and takes all room that showing it needs; it may be refused, and then nothing but
//! what is held and the rooms are other than before. `show` makes what is held: the new jobs are known, get their numbers and
//! are idle. It takes no memory (`specs/Spreads.antt`).
//!
//! An event looks at the wires from its step into ports that walk some levels. Only the one that
//! makes its step whole looks at all wires from it, and at the links of the ports of the steps that
//! they feed. Wires are sorted by the step that they feed: each step that they feed is looked at
//! once, and no other.
//!
//! - `around`: what ports are looked up in, and the ports that have their whole values
//! - `wires`: the wires along which an event is told, and those of them into one step
//! - `adding`: new jobs become idle
//! - `spread`: the calls
//! - `laws`: what holds of the definitions
#![tactic(auto)]

mod adding;
mod around;
pub mod laws;
mod spread;
mod wires;

pub use adding::add_known;
pub use around::Around;
pub use spread::Spread;
pub use wires::walked_wires;
