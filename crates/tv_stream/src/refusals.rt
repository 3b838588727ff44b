//! Why a partial tree refuses a call.
ghost use Rattle.std.specs.Prelude.{◌≡◌};
ghost use Rattle.tv_stream.specs.Inside.{with_item};

use thiserror::Error;

/// Why an item can't arrive. Each has the item, which is given back.
#[derive(Debug, Drop, Error)]
pub enum ArriveRefused<T> {
    /// The place is longer than the depth, lies past a closed length, or below an item.
    #[error("no such place")]
    NoSuchPlace(T),
    /// An item or a list stands there.
    #[error("occupied")]
    Occupied(T),
    /// There was no memory for the nodes.
    #[error("out of memory")]
    NoMemory(T),
}

/// The same without the item.
#[derive(Clone, Copy, Debug)]
pub(crate) enum NoArrival {
    NoSuchPlace,
    Occupied,
    NoMemory,
}

impl NoArrival {
    /// With the item, which is given back.
    pub(crate) fn with<T>(self, item: T) -> ArriveRefused<T>
        ensures { result ≡ with_item item self }
    {
        match self {
            NoArrival::NoSuchPlace => ArriveRefused::NoSuchPlace(item),
            NoArrival::Occupied => ArriveRefused::Occupied(item),
            NoArrival::NoMemory => ArriveRefused::NoMemory(item),
        }
    }
}

/// Why a list can't be closed.
#[derive(Clone, Copy, Debug, PartialEq, Eq, Error)]
pub enum CloseRefused {
    /// The place has the full depth, lies past a closed length, below an item, or holds an item.
    #[error("no such place")]
    NoSuchPlace,
    /// The list is closed.
    #[error("already closed")]
    AlreadyClosed,
    /// Something stands at an index of at least the asked length; the greatest such index plus 1 is needed.
    #[error("length {asked} for a list of {needed}")]
    WrongLength { asked: u32, needed: u64 },
    /// There was no memory for the nodes.
    #[error("out of memory")]
    NoMemory,
}
