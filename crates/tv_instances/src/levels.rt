//! The lists that were closed and the faults that were passed, as they are kept.
ghost use Rattle.std.specs.Prelude.{◌≡◌, ◌++◌, ◌∷◌, [], None, OnOk, Some, map};
ghost use Rattle.tv_frame.specs.Levels.{Level as ALevel};
ghost use Rattle.tv_frame.specs.Views.{level_view};

use std::alloc::Global;
use std::marker::Model;
use tv_frame::Level;
use tv_value::NoMemory;

/// What was settled of an instance, and what is settled next.
#[derive(Drop)]
pub(crate) struct Levels {
    settled: Vec<Level>,
    next: Option<Level>,
}

impl Model for Levels {
    ghost use Rattle.tv_instances.specs.Levels.{Kept};

    ghost Value = { Kept };

    ghost use Rattle.std.specs.Option.{is_some, option_map};
    ghost use Rattle.std.specs.Prelude.{◌≡◌, ◌<◌, map, true, vec_capacity, vec_len};
    ghost use Rattle.tv_frame.specs.Views.{level_view};

    ghost view = { λ k. record {
      settled = map level_view k.settled.items;
      next = option_map level_view k.next;
    } };

    // There is room for the next.
    ghost invariant = { λ k. is_some k.next ≡ true → vec_len k.settled < vec_capacity k.settled };
}

impl Levels {
    /// Nothing was settled. Takes no memory.
    pub(crate) fn new(alloc: Global) -> Levels
        ensures settled { result.settled ≡ [] }
        ensures next { result.next ≡ None }
    {
        Levels {
            settled: Vec::new(alloc),
            next: None,
        }
    }

    /// This is settled next. Takes the room for it.
    pub(crate) fn set_next(&mut self, level: Level) -> Result<(), NoMemory>
        ensures settled { self.new.settled ≡ self.old.settled }
        ensures next { OnOk result (self.new.next ≡ Some (level_view level)) }
    {
        self.next = None;
        self.settled.reserve(1)?;
        self.next = Some(level);
        Ok(())
    }

    /// What is next is settled. Takes no memory.
    pub(crate) fn settle(&mut self)
        ensures { (l : ALevel) → self.old.next ≡ Some l
            → self.new.settled ≡ self.old.settled ++ l ∷ [] }
    {
        if let Some(level) = self.next.take() {
            self.settled.push_reserved(level);
        }
    }

    /// What was settled so far. Takes no memory.
    pub(crate) fn settled(&self) -> &[Level]
        ensures { map level_view result.now ≡ self.now.settled }
    {
        self.settled.as_slice()
    }

    /// What was settled. Takes no memory.
    pub(crate) fn finish(self) -> Vec<Level>
        ensures { map level_view result.items ≡ self.settled }
    {
        self.settled
    }
}
