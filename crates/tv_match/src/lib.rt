//! Incremental cross, dot and prefix node: a matcher is told what a step's ports have, in any order, and gives out each job, list and
//! passed fault as soon as all that it waits for was told.
//!
//! **What it promises.** A contract sees of a matcher a `Matching` (`tv_matching`, `specs/Matchers.antt`): what it was told,
//! for which tellings it holds room, and what has come out. For all delivered values of which what was told is true, what has
//! come out are ends, lists and passed faults of their iteration whose sources were told, each once, and nothing follows
//! exactly where all of these have come out (`laws::what_has_come_out`, stated in `specs/Stated.antt`). What a telling adds
//! comes out behind all that followed before it, and nothing else is new (`laws::what_a_telling_adds`). A refused telling, or
//! a refused reservation, changes nothing (a refused `hold` has let go what was held, and after a refused `restart` a matcher
//! can only be restarted); after `reserve` the listed tellings are not refused, and its number is exact; a telling other than the next held one
//! lets go what was held. Want of memory is the one refusal. Each job says whether some value that it binds was told to hold a fault, also before a held telling is made.
//!
//! **How it is laid out.** For each cross, dot and prefix node a `Store` keeps what is needed of its two children, the first ones taken
//! together before the later ones. A telling goes to its leaf, and what is new at a child is joined with what is kept of the
//! other. `reserve` works its tellings ahead: each item has the number of the telling that brought it, a telling that is held
//! is made by counting on, and what is held is taken back by cutting the lists at a number (`specs/Working.antt`).
//!
//! - `kinds`, `told`: what the calls speak of
//! - `bags`: lists of items, their places in one list of indices; `found`: bags that are searched by place, by a tree of their items;
//!   `grouped`: bags that are searched by first indices, by `chains` of the items that have the same
//! - `joins`, `rests`, `stores`: what is new in a node, and what is kept of a strategy; `building` makes it
//! - `steps`, `listing`: one telling, or several, worked and taken back; `places`: places that are made beforehand
//! - `matchers`: the calls; `matchers/ahead`: what the held tellings will bring, and all of them made
//! - `laws`: what holds of every matcher
#![tactic(auto)]

mod bags;
mod building;
mod chains;
mod found;
mod grouped;
mod joins;
mod kinds;
pub mod laws;
mod listing;
mod matchers;
mod places;
mod rests;
mod steps;
mod stores;
mod told;

pub use kinds::Kind;
pub use matchers::{Matcher, what_is_ahead};
pub use told::{Matched, Told, Tolds};
