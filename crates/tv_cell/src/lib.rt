//! Values that never change and are shared: cells, and pieces that are made of them.
//!
//! An engine hands the same values to many jobs, in any threads, and takes them apart and together again. Here a value
//! is put once into a `Cell`; what stands for it, for a part of it, or for a list of such parts is a `Piece`, which copies
//! no value, and keeps places small (`path`). A contract sees a cell as the very value that was put, and a piece as a
//! tree of such values and of places in them. `specs/PieceValues.antt` says which value a piece stands for, and
//! `specs/Soundness.antt` when it points at something throughout.
//!
//! The crate promises that a cell reads as the value that was put, wherever it was shared; that a copy of a piece is equal
//! to it; that the part of a piece stands for the part of its value; that `same` tells exactly whether two pieces stand
//! for one value, `stands_for` and `part_stands_for` whether a piece, or a part of it, stands for a value that is given; and that
//! `assemble` makes exactly the value that a piece stands for. Want of memory is the one refusal.
//! Cells and pieces may be sent to other threads and shared by them (`threads`).
//!
//! - `looking`: what stands at a place of a value
//! - `cell`: a value that never changes
//! - `row`: lists that may hold the type that holds them (`specs/formers/row/Row.antt` says how they hold their things)
//! - `piece`: a value as a tree of cells, its copies and parts
//! - `assembly`: the value that a piece stands for
//! - `same`: whether two pieces are the same
//! - `threads`: both may cross threads
//!
//! **Places kept small.** A place in a value is a list of indices. `tv_value::Place` holds 32 of them
//! in itself, so that work on places isn't refused, and has 144 bytes. Pieces of values are kept
//! by the thousand and moved often, their places have an index or two, and copies of them may be
//! refused for memory anyway. So a piece keeps its place as a `Path`, of 40 bytes.
//!
//! A contract sees a path as the list of its indices. The crate promises that paths are made,
//! joined and copied exactly, and that no path of at most five indices is refused.
//!
//! - `path`: the paths
#![tactic(auto)]

mod assembly;
mod cell;
mod looking;
mod path;
mod piece;
mod row;
mod same;
mod threads;

pub use assembly::assemble;
pub use cell::Cell;
pub use path::Path;
pub use piece::{Piece, Pieces};
pub use row::Row;
pub use same::value_is_at;
pub use threads::SentAndShared;
pub use tv_value::same_value;
