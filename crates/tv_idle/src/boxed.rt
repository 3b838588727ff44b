//! The queues of one step, moved in one word.
ghost use Rattle.std.specs.Prelude.{◌≡◌, ◌+◌, ◌<◌, not, length, true, IfOk, OnOk};
ghost use Rattle.tv_idle.specs.Kept.{IsEmpty, IsGrown, IsSame, IsTrimmed, are_below, is_gone};

use crate::queues::Queues;
use std::alloc::Global;
use std::marker::Model;
use tv_value::NoMemory;

/// Queues in a box. A contract sees the queues.
#[derive(Debug, Drop)]
pub struct Boxed {
    inside: Box<Queues>,
}

impl Model for Boxed {
    ghost use Rattle.tv_idle.specs.declared.queues.Queues.{Queues as Held};

    ghost Value = { Held };

    ghost view = { λ b. b.inside.value };
}

impl Boxed {
    ghost use Rattle.tv_idle.specs.Kept.{queue_for};

    /// No jobs, with places of so many indices.
    pub(crate) fn new(alloc: Global, levels: usize) -> Result<Boxed, NoMemory>
        ensures good { IfOk result (λ q. IsEmpty levels q.good) }
        ensures faulty { IfOk result (λ q. IsEmpty levels q.faulty) }
    {
        let inside = Box::new(alloc, Queues::new(alloc, levels))?;
        Ok(Boxed { inside })
    }

    /// The queues.
    pub(crate) fn read(&self) -> &Queues
        ensures { result.now ≡ self.now }
    {
        &*self.inside
    }

    /// As `Queues::restart`.
    pub(crate) fn restart(&mut self, levels: usize)
        ensures good { IsEmpty levels self.new.good }
        ensures faulty { IsEmpty levels self.new.faulty }
    {
        self.inside.restart(levels);
    }

    /// As `Queues::reserve`.
    pub(crate) fn reserve(&mut self, good: usize, faulty: usize) -> Result<(), NoMemory>
        ensures same_good { IsSame self.old.good self.new.good }
        ensures same_faulty { IsSame self.old.faulty self.new.faulty }
        ensures good { OnOk result (self.new.good.room ≡ good) }
        ensures faulty { OnOk result (self.new.faulty.room ≡ faulty) }
    {
        self.inside.reserve(good, faulty)
    }

    /// As `Queues::put`.
    pub(crate) fn put(&mut self, number: u32, place: &[u32], faulty: bool)
        requires room { 0 < (queue_for faulty self.old).room }
        requires levels { length place.now ≡ (queue_for faulty self.old).levels }
        ensures grown { IsGrown (number, place.now) (queue_for faulty self.old)
            (queue_for faulty self.new) }
        ensures other { queue_for (not faulty) self.new ≡ queue_for (not faulty) self.old }
    {
        self.inside.put(number, place, faulty);
    }

    /// As `Queues::trim`.
    pub(crate) fn trim(&mut self, gone: &[bool]) -> usize
        requires good { are_below (length gone.now) self.old.good.jobs ≡ true }
        requires faulty { are_below (length gone.now) self.old.faulty.jobs ≡ true }
        ensures good { IsTrimmed (is_gone gone.now) self.old.good self.new.good }
        ensures faulty { IsTrimmed (is_gone gone.now) self.old.faulty self.new.faulty }
        ensures dropped { result + length self.new.faulty.jobs ≡ length self.old.faulty.jobs }
    {
        self.inside.trim(gone)
    }
}
