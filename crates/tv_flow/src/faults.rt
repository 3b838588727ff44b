//! Faults of form, and the paths at which they were met.
ghost use Rattle.std.specs.Prelude.{◌≡◌};

use std::alloc::{AllocError, AllocFailed};
use thiserror::Error;
use tv_value::{NoMemory, Sequence, Text};

/// What is wrong with the form of a document.
#[derive(Clone, Copy, Debug, PartialEq, Eq, Drop)]
pub enum FormKind {
    /// A field that must be there isn't.
    Missing = 1,
    /// A key that is no field of the form.
    Unknown = 2,
    /// No object, array, string or number where one must stand.
    WrongKind = 3,
    /// A text that is no name.
    BadName = 4,
    /// A number, or a number of entries, that is too small or too great.
    OutOfRange = 5,
    /// Fewer entries than there must be.
    Empty = 6,
    /// No text where one must stand in a value.
    NotText = 7,
    /// A list whose items have no depth in common.
    Ragged = 8,
}

/// A step of a path.
#[derive(Debug, Drop)]
pub enum Part {
    /// The member of an object at a key.
    Key(Text),
    /// The item of an array, counted from 0.
    Index(u32),
}

/// The keys and indices that lead to a place of the document, the outermost first.
pub type Path = Sequence<Part>;

/// Why a document wasn't read.
#[derive(Debug, Drop, Error)]
pub enum FormFault {
    /// The first thing wrong with its form, and where.
    #[error("the document's form is wrong: {kind:?}")]
    Form {
        /// What is wrong.
        kind: FormKind,
        /// Where it was met.
        path: Path,
    },
    /// Want of memory.
    #[error("want of memory")]
    NoMemory,
}

impl From<NoMemory> for FormFault {
    ghost use Rattle.tv_flow.specs.declared.faults.FormFault.TheVariants.{NoMemory};

    ghost from_gives = { λ _ f. f ≡ NoMemory };

    fn from(_error: tv_value::NoMemory) -> FormFault {
        FormFault::NoMemory
    }
}

impl From<AllocError> for FormFault {
    ghost use Rattle.tv_flow.specs.declared.faults.FormFault.TheVariants.{NoMemory};

    ghost from_gives = { λ _ f. f ≡ NoMemory };

    fn from(_error: AllocError) -> FormFault {
        FormFault::NoMemory
    }
}

impl<T: Drop> From<AllocFailed<T>> for FormFault {
    ghost use Rattle.tv_flow.specs.declared.faults.FormFault.TheVariants.{NoMemory};

    ghost from_gives = { λ _ f. f ≡ NoMemory };

    fn from(_failed: AllocFailed<T>) -> FormFault {
        FormFault::NoMemory
    }
}
