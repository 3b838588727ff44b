// Cells and pieces cross threads.
use crate::cell::Cell;
use crate::piece::{Piece, Pieces};
use std::marker::{Send, Sync};

/// What may be sent to other threads and shared by them.
pub trait SentAndShared: Send + Sync {}

impl SentAndShared for Cell {}

impl SentAndShared for Piece {}

impl SentAndShared for Pieces {}
