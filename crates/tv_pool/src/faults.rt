//! Why a pool refuses a call.

use thiserror::Error;

/// There was no memory for the call.
#[derive(Clone, Copy, Debug, PartialEq, Eq, Error)]
#[error("out of memory")]
pub struct NoMemory;

/// There was no memory for the item, which is given back.
#[derive(Debug, Drop, Error)]
#[error("out of memory")]
pub struct PutRefused<T> {
    /// The item that wasn't put.
    pub item: T,
}
