//! Where in the document the reading stands.
ghost use Rattle.std.specs.Prelude.{◌≡◌, ◌++◌, OnOk, IfOk};
ghost use Rattle.tv_flow.specs.Complaints.{place};
ghost use Rattle.tv_flow.specs.PathViews.{at_view};
ghost use Rattle.tv_flow.specs.Answers.{said};

use crate::faults::{FormFault, FormKind, Part, Path};
use std::alloc::Global;
use tv_value::{NoMemory, Place, Sequence, Text};

/// A place in the document: the whole, or a key or index of a place around it. Takes no memory.
#[derive(Clone, Copy)]
pub(crate) enum At<'a> {
    Top,
    Key(&'a At<'a>, &'a str),
    Index(&'a At<'a>, u32),
}

impl At<'_> {
    /// A fault of that kind here, or want of memory for its path.
    pub(crate) fn fault(&self, alloc: Global, kind: FormKind) -> FormFault
        ensures { said result (record { kind = kind; path = at_view self.now })
            ≡ record { kind = kind; path = at_view self.now } }
    {
        match self.path(alloc) {
            Ok(path) => FormFault::Form { kind, path },
            Err(NoMemory) => FormFault::NoMemory,
        }
    }

    /// A fault of that kind at a place of the value that stands here, or want of memory for its path.
    pub(crate) fn fault_at(&self, alloc: Global, kind: FormKind, inside: &Place) -> FormFault
        ensures { said result (record { kind = kind; path = place (at_view self.now) inside.now })
            ≡ record { kind = kind; path = place (at_view self.now) inside.now } }
    {
        match self.path_at(alloc, inside) {
            Ok(path) => FormFault::Form { kind, path },
            Err(NoMemory) => FormFault::NoMemory,
        }
    }

    /// The path that leads to a place of the value that stands here.
    fn path_at(&self, alloc: Global, inside: &Place) -> Result<Path, NoMemory>
        ensures { IfOk result (λ p. p ≡ place (at_view self.now) inside.now) }
    {
        let mut parts = Vec::new(alloc);
        self.push_onto(alloc, &mut parts)?;
        for index in inside.as_slice() {
            parts.push(Part::Index(*index))?;
        }
        Ok(Sequence::of(parts))
    }

    /// The path that leads here.
    fn path(&self, alloc: Global) -> Result<Path, NoMemory>
        ensures { IfOk result (λ p. p ≡ at_view self.now) }
    {
        let mut parts = Vec::new(alloc);
        self.push_onto(alloc, &mut parts)?;
        Ok(Sequence::of(parts))
    }

    fn push_onto(&self, alloc: Global, parts: &mut Vec<Part>) -> Result<(), NoMemory>
        ensures { OnOk result (parts.new.items ≡ parts.old.items ++ at_view self.now) }
    {
        match self {
            At::Top => {}
            At::Key(outer, key) => {
                outer.push_onto(alloc, parts)?;
                parts.push(Part::Key(Text::from_str(alloc, key)?))?;
            }
            At::Index(outer, index) => {
                outer.push_onto(alloc, parts)?;
                parts.push(Part::Index(*index))?;
            }
        }
        Ok(())
    }
}
