//! Services as the engine meets them: what they give, who answers for them, and who asks.
//!
//! What a service gives is a function of its name, its inputs and the number of the attempt, and the function belongs
//! to a type (`Services`), so that every worker and every proof means the same one. A `Gate` is asked by many threads,
//! an `Asker` by one, and both are bound to answer that function or to want memory.
//!
//! - `call`, `outcome`: a call, and what it gives
//! - `services`: the traits
//! - `askers`: an asker over a gate
//! - `logged`: an asker over a gate that tells its calls
//! - `script`: a gate that answers by a function of a type
//! - `held`: a gate that holds calls back until another was answered
//! - `short`: a gate that finds no memory at some calls
//! - `laws`: what holds of the definitions alone
#![tactic(auto)]

mod askers;
mod call;
mod held;
pub mod laws;
mod logged;
mod outcome;
mod script;
mod services;
mod short;

pub use askers::GateAsker;
pub use call::Call;
pub use held::{HeldGate, Spot2};
pub use logged::LoggedGate;
pub use outcome::Outcome;
pub use script::{Script, ScriptedGate};
pub use services::{Asker, Gate, Services};
pub use short::ShortGate;
