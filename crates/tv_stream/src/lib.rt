//! Partial trees in a pool: what is known so far of a nested list whose parts arrive in any order.
//!
//! A `Partial` is a tree of a stated depth. An item arrives at a place, and a list is closed with its length, in any order; the
//! tree tells what is known at a place, whether all is, and whether a marked item (a fault, say) stands there or inside.
//!
//! **What it promises.** A contract sees of a tree and its pool a partial tree of `tv_parts` (`specs/Trees.antt`, `tree_of`).
//! `arrive` and `close` make of it exactly `arrive` and `close_at` of that crate, and `kind_at`, `item_at`, `part_at`,
//! `whole_at` and `marked_at` answer exactly what is known there. A refusal comes exactly by the tree, in the order in which
//! the types of refusals list them (`specs/Answers.antt`); it changes nothing, and gives the item back. Neither call is
//! refused for want of memory where the pool's `spare` is greater than the depth. Each call answers the least prefix of its
//! place that is whole after it, and `whole_by_arrival` and `whole_by_close` answer the same before the call.
//!
//! **What follows** (`laws`, stated in `specs/Mapped.antt`). What was known stays (`KnownStays`). No prefix of the place was
//! whole before a call that isn't refused, so what it answers became whole by it (`NoneWasWhole`). Where items stand for
//! values, by any function, a tree below a value stays below it when an item that stands for the value's part arrives, or a
//! list is closed with its length there, and a whole one shows the value (`ItemsBuildValue`). `tv_parts` says so of trees
//! whose items are values; with other items a tree changes alike, and the same of it is known, whole and possible
//! (`ChangesAlike`, `IsAlike`, `CanChangeAlike`).
//!
//! **Other trees.** A tree stands on slots of its own, and goes on to stand on them and on slots in which nothing lay
//! (`KeepsTrees` in `specs/Stands.antt`); what lies in all other slots of the region stays, and so do all other regions. So a
//! tree stays what it is while others start and grow, and while other regions are released (`laws`).
//!
//! **How it is laid out.** Each part is a node (`nodes`). A list counts its whole parts, so each list becomes whole once,
//! and nothing is walked from scratch. `proofs/Steps.antt` shows that a change of a part, once it is counted, is that change of
//! the list.
//!
//! - `partial`: the tree and its calls
//! - `changes`: what changes a tree, from a node on
//! - `held`: what a node holds, and its counts
//! - `levels`: where marks are on the way to a place
//! - `look`: a look at a tree, from part to part
//! - `refusals`: why a call is refused
//! - `laws`: what stays of other trees, and what holds of all trees that change
//!
//! **Nodes** (`nodes`, `specs/nodes/`): trees of nodes in a region of a pool, where each node has numbered parts.
//!
//! A node holds a body of the caller's. Its parts have numbers below 2^32, with gaps or without, and are put in any order. A
//! part is found in logarithmic time whatever the order: the parts of one node are a digital search tree of base 4 over their
//! numbers, one pool node a part, and no node moves.
//!
//! A contract sees which part of a node lies in which slot, and what a node holds (`part_in` and `body_in`,
//! `specs/nodes/Nodes.antt`). `hang` adds one part of one node, `set_body` exchanges one body, and nothing else changes, in this
//! region or in any other (`specs/nodes/Calls.antt`). Trees stand on slots of their own: `AreNodes` (`specs/nodes/Stands.antt`) gives each
//! slot the place of its node, so that a caller tells nodes of one tree from each other, and from those of another.
//!
//! A node has five links: to the first of its own parts, and by the next digit of their numbers to four
//! others of the list that it is in. A search ends after 17 nodes at most, since two numbers of 16 equal digits are one.
#![tactic(auto)]

mod changes;
mod held;
pub mod laws;
mod levels;
mod look;
mod nodes;
mod partial;
mod refusals;

pub use held::{Held, PartKind};
pub use look::Look;
pub use nodes::{Entry, Gap, Stop, body, hang, plant, seek, set_body};
pub use partial::{Partial, Slot};
pub use refusals::{ArriveRefused, CloseRefused};
