//! The queues of one step.
ghost use Rattle.std.specs.Prelude.{◌≡◌, ◌+◌, ◌<◌, ◌==◌, ◌||◌, not, length, true, OnOk};
ghost use Rattle.tv_idle.specs.Idles.{first_number, first_of, is_before};
ghost use Rattle.tv_idle.specs.Kept.{IsEmpty, IsGrown, IsSame, IsTrimmed, are_below, is_gone, starts_gone};
ghost use Rattle.tv_idle.specs.Sought.{sought};

use crate::Ready;
use std::alloc::Global;
use std::cmp::Ordering;
use tv_value::NoMemory;

/// The known jobs of one step, those that bind no fault and those that bind one. Some may have gone.
#[derive(Debug, Drop)]
pub struct Queues {
    good: Ready,
    faulty: Ready,
}

impl Queues {
    ghost use Rattle.tv_idle.specs.Kept.{queue_for};

    /// No jobs, with places of so many indices. Takes no memory.
    pub(crate) fn new(alloc: Global, levels: usize) -> Queues
        ensures good { IsEmpty levels result.good }
        ensures faulty { IsEmpty levels result.faulty }
    {
        Queues {
            good: Ready::new(alloc, levels),
            faulty: Ready::new(alloc, levels),
        }
    }

    /// No jobs from now on, with places of so many indices, in the same memory. Takes no memory.
    pub(crate) fn restart(&mut self, levels: usize)
        ensures good { IsEmpty levels self.new.good }
        ensures faulty { IsEmpty levels self.new.faulty }
    {
        self.good.restart(levels);
        self.faulty.restart(levels);
    }

    /// Takes the room for so many more of each.
    pub(crate) fn reserve(&mut self, good: usize, faulty: usize) -> Result<(), NoMemory>
        ensures same_good { IsSame self.old.good self.new.good }
        ensures same_faulty { IsSame self.old.faulty self.new.faulty }
        ensures good { OnOk result (self.new.good.room ≡ good) }
        ensures faulty { OnOk result (self.new.faulty.room ≡ faulty) }
    {
        self.good.reserve(good)?;
        self.faulty.reserve(faulty)
    }

    /// One more job. Takes no memory.
    pub(crate) fn put(&mut self, number: u32, place: &[u32], faulty: bool)
        requires room { 0 < (queue_for faulty self.old).room }
        requires levels { length place.now ≡ (queue_for faulty self.old).levels }
        ensures grown { IsGrown (number, place.now) (queue_for faulty self.old)
            (queue_for faulty self.new) }
        ensures other { queue_for (not faulty) self.new ≡ queue_for (not faulty) self.old }
    {
        if faulty {
            self.faulty.put(number, place);
        } else {
            self.good.put(number, place);
        }
    }

    /// Drops the jobs at both fronts that have gone, and tells how many of them bind a fault. Takes no memory. Logarithmic for each
    /// that is dropped.
    pub(crate) fn trim(&mut self, gone: &[bool]) -> usize
        requires good { are_below (length gone.now) self.old.good.jobs ≡ true }
        requires faulty { are_below (length gone.now) self.old.faulty.jobs ≡ true }
        ensures good { IsTrimmed (is_gone gone.now) self.old.good self.new.good }
        ensures faulty { IsTrimmed (is_gone gone.now) self.old.faulty self.new.faulty }
        ensures dropped { result + length self.new.faulty.jobs ≡ length self.old.faulty.jobs }
    {
        let before = self.faulty.len();
        trim(&mut self.good, gone);
        trim(&mut self.faulty, gone);
        before - self.faulty.len()
    }

    /// Whether there is one.
    pub(crate) fn has_some(&self) -> bool
        ensures { result ≡ (not (length self.now.good.jobs == 0) || not (length self.now.faulty.jobs
            == 0)) }
    {
        !self.good.is_empty() || !self.faulty.is_empty()
    }

    /// The first job of both queues.
    pub(crate) fn first(&self) -> Option<u32>
        ensures { result ≡ first_of self.now.good.jobs self.now.faulty.jobs }
    {
        let Some(good) = self.good.first() else {
            return self.faulty.first();
        };
        let Some(faulty) = self.faulty.first() else {
            return Some(good);
        };
        if is_before(
            faulty,
            self.faulty.first_place(),
            good,
            self.good.first_place(),
        ) {
            Some(faulty)
        } else {
            Some(good)
        }
    }

    /// The first job of both queues after a place, of those that haven't gone. Takes no memory. Logarithmic, and linear in those
    /// that came late, and in those that have gone and stand between the place and the answer.
    pub(crate) fn first_after(&self, place: &[u32], gone: &[bool]) -> Option<u32>
        ensures { result ≡ first_of (sought place.now gone.now self.now.good.jobs)
            (sought place.now gone.now self.now.faulty.jobs) }
    {
        let good = self.good.first_after(place, gone);
        let faulty = self.faulty.first_after(place, gone);
        match (good, faulty) {
            (None, None) => None,
            (Some((good, _)), None) => Some(good),
            (None, Some((faulty, _))) => Some(faulty),
            (Some((good, good_place)), Some((faulty, faulty_place))) => {
                if is_before(faulty, faulty_place, good, good_place) {
                    Some(faulty)
                } else {
                    Some(good)
                }
            }
        }
    }

    /// The first job that binds no fault.
    pub(crate) fn first_good(&self) -> Option<u32>
        ensures { result ≡ first_number self.now.good.jobs }
    {
        self.good.first()
    }

    /// The first job that binds a fault.
    pub(crate) fn first_faulty(&self) -> Option<u32>
        ensures { result ≡ first_number self.now.faulty.jobs }
    {
        self.faulty.first()
    }
}

/// Drops the jobs at the front of a queue that have gone. Takes no memory. Logarithmic for each that is dropped.
fn trim(queue: &mut Ready, gone: &[bool])
    requires { are_below (length gone.now) queue.old.jobs ≡ true }
    ensures { IsTrimmed (is_gone gone.now) queue.old queue.new }
{
    while starts_gone(queue, gone) {
        let _ = queue.take_first();
    }
}

/// Whether the first job of a queue has gone.
fn starts_gone(queue: &Ready, gone: &[bool]) -> bool
    requires { are_below (length gone.now) queue.now.jobs ≡ true }
    ensures { result ≡ starts_gone (is_gone gone.now) queue.now.jobs }
{
    match queue.first() {
        Some(number) => gone[number as usize],
        None => false,
    }
}

/// Whether one job stands before another: by their places, and, where these are the same, by their numbers.
fn is_before(first: u32, first_place: &[u32], second: u32, second_place: &[u32]) -> bool
    ensures { result ≡ is_before (first, first_place.now) (second, second_place.now) }
{
    match first_place.cmp(second_place) {
        Ordering::Less => true,
        Ordering::Equal => first < second,
        Ordering::Greater => false,
    }
}
