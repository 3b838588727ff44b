//! Partial trees: what is known so far of a value whose parts arrive in any order.
//!
//! A partial tree (`specs/Partials.antt`) has at each place nothing yet, an item, a list that grows, or a closed list, whose
//! length is known. An item arrives at a place, and a list is closed with its length (`specs/Changes.antt`, which also says
//! where neither can be). The tree is below a value where all that is known is so in the value (`specs/Below.antt`).
//!
//! There is no running code here. The crate promises, for all trees, places and values (`specs/Stated.antt`), that
//! - a tree below a value stays below it when what arrives is the value's, and what was known stays;
//! - a whole tree below a value is the value;
//! - a closed list is whole exactly where its counter of whole parts has reached its length, the counter rises by one where
//!   a part becomes whole, and a change is never inside something whole;
//! - a tree that shows the known nodes of a value is whole exactly where all of them are known.
//!
//! `tv_stream` keeps such trees in the memory of a pool.
//!
//! - `laws`: these laws, and worked examples
#![tactic(auto)]

pub mod laws;
