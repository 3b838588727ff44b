//! The idle jobs of an instance.
ghost use Rattle.std.specs.Prelude.{◌≡◌, ◌^◌, ◌+◌, ◌-◌, ◌<◌, ◌++◌, ◌∷◌, [], cond, false, length, true, slice_set, ℕ, IfOk, OnErr, OnOk, Some};
ghost use Rattle.tv_idle.specs.Kept.{IsEmpty};
ghost use Rattle.tv_idle.specs.Idles.{first_after, first_number, first_of, has_some, is_idle, is_idle_at, none_idle, of_step, room_for, with_idle, with_rooms_of, without};

use crate::boxed::Boxed;
use std::alloc::Global;
use std::marker::Model;
use std::mem;
use tv_value::NoMemory;

/// The known jobs of an instance that neither run nor have a result. The steps are told by their numbers, and so are the jobs.
///
/// A contract sees for each step the list of its idle jobs that bind no fault, and the list of those that bind one, in order of
/// place; how many jobs are known; and the rooms.
#[derive(Debug, Drop)]
pub struct Idle {
    // By step.
    queues: Vec<Boxed>,
    // By number: whether the job has gone.
    gone: Vec<bool>,
    // How many more numbers can be given out.
    room: usize,
    // How many jobs that bind a fault stand in the queues.
    faulty: usize,
    // Queues whose memory steps that are added take.
    spare: Vec<Boxed>,
}

impl Model for Idle {
    ghost use Rattle.tv_idle.specs.Idles.{Idles};

    ghost Value = { Idles };

    ghost use Rattle.std.specs.Prelude.{map, length, vec_capacity};
    ghost use Rattle.tv_idle.specs.Kept.{is_gone, queues_view, IsLaid};

    ghost view = { λ i. record {
      steps = map (queues_view (is_gone i.gone.items)) i.queues.items;
      known =
          length i.gone.items;
      room = i.room;
    } };

    ghost invariant = { λ i. IsLaid i.queues.items i.gone.items (vec_capacity i.gone)
        i.room i.faulty };
}

/// Queues with no jobs, in the memory of others where there are some.
fn empty_queues(alloc: Global, spare: Option<Boxed>, levels: usize) -> Result<Boxed, NoMemory>
    ensures good { IfOk result (λ q. IsEmpty levels q.good) }
    ensures faulty { IfOk result (λ q. IsEmpty levels q.faulty) }
{
    match spare {
        Some(queues) => {
            let mut queues = queues;
            queues.restart(levels);
            Ok(queues)
        }
        None => Boxed::new(alloc, levels),
    }
}

impl Idle {
    /// Of no step, with no job. Takes no memory.
    pub fn new(alloc: Global) -> Idle
        ensures steps { result.steps ≡ [] }
        ensures known { result.known ≡ 0 }
        ensures room { result.room ≡ 0 }
    {
        Idle {
            queues: Vec::new(alloc),
            gone: Vec::new(alloc),
            room: 0,
            faulty: 0,
            spare: Vec::new(alloc),
        }
    }

    /// Of no step from now on, with no job, in the same memory: the steps that are added take that of those before. Takes no
    /// memory.
    pub fn clear(&mut self)
        ensures steps { self.new.steps ≡ [] }
        ensures known { self.new.known ≡ 0 }
        ensures room { self.new.room ≡ 0 }
    {
        self.gone.clear();
        self.room = 0;
        self.faulty = 0;
        self.spare.clear();
        mem::swap(&mut self.queues, &mut self.spare);
    }

    /// Adds a step, with no job, whose places have so many indices.
    pub fn add_step(&mut self, alloc: Global, levels: usize) -> Result<(), NoMemory>
        ensures refused { OnErr result (self.new ≡ self.old) }
        ensures steps { OnOk result (self.new.steps ≡ self.old.steps ++ none_idle levels ∷ []) }
        ensures known { self.new.known ≡ self.old.known }
        ensures room { self.new.room ≡ self.old.room }
    {
        self.queues.reserve(1)?;
        let queues = empty_queues(alloc, self.spare.pop(), levels)?;
        self.queues.push_reserved(queues);
        Ok(())
    }

    /// How many jobs are known. Each of their numbers is below that, and there are fewer than 2^32.
    pub fn known(&self) -> usize
        ensures known { result ≡ self.now.known }
        ensures few { result < 2 ^ 32 }
    {
        self.gone.len()
    }

    /// Takes the room of a step for so many more jobs that bind no fault, and so many that bind one. Where it is refused, one of
    /// the two may have been taken.
    pub fn reserve(&mut self, step: u32, good: usize, faulty: usize) -> Result<(), NoMemory>
        requires step { step < length self.old.steps }
        ensures good { OnOk result ((of_step self.new.steps step).good_room ≡ good) }
        ensures faulty { OnOk result ((of_step self.new.steps step).faulty_room ≡ faulty) }
        ensures steps { self.new.steps
            ≡ slice_set self.old.steps step
            (with_rooms_of (of_step self.new.steps step) (of_step self.old.steps step)) }
        ensures known { self.new.known ≡ self.old.known }
        ensures room { self.new.room ≡ self.old.room }
    {
        self.queues[step as usize].reserve(good, faulty)
    }

    /// Takes the room for the numbers of so many more jobs, of all steps together. Answers want of memory where the last would
    /// be no number of 32 bits.
    pub fn reserve_numbers(&mut self, count: usize) -> Result<(), NoMemory>
        ensures ok { OnOk result (self.new.room ≡ count) }
        ensures refused { OnErr result (self.new ≡ self.old) }
        ensures steps { self.new.steps ≡ self.old.steps }
        ensures known { self.new.known ≡ self.old.known }
    {
        let Some(all) = self.gone.len().checked_add(count) else {
            return Err(NoMemory);
        };
        if all > u32::MAX as usize {
            return Err(NoMemory);
        }
        self.gone.reserve(count)?;
        self.room = count;
        Ok(())
    }

    /// One more job is known, of this step, at this place; it binds a fault or none. Answers its number. Takes no memory.
    /// Constant where it stands after all jobs of its kind that came in order, else logarithmic in those that came late.
    pub fn add(&mut self, step: u32, place: &[u32], faulty: bool) -> u32
        requires step { step < length self.old.steps }
        requires levels { length place.now ≡ (of_step self.old.steps step).levels }
        requires step_room { 0 < room_for faulty (of_step self.old.steps step) }
        requires room { 0 < self.old.room }
        ensures number { result ≡ self.old.known }
        ensures steps { self.new.steps
            ≡ slice_set self.old.steps step
            (with_idle faulty (self.old.known, place.now) (of_step self.old.steps step)) }
        ensures known { self.new.known ≡ self.old.known + 1 }
        ensures room { self.new.room ≡ self.old.room - 1 }
    {
        let number = self.gone.len() as u32;
        self.queues[step as usize].put(number, place, faulty);
        self.gone.push_reserved(false);
        self.room -= 1;
        self.faulty += one_if(faulty);
        number
    }

    /// A job of this step, which is idle, is so no more: it was taken, or given a result. Takes no memory.
    ///
    /// Drops the jobs that have gone and stand at the front of their queue now, each in the logarithm of those that came late. As
    /// a job is dropped once, that is a logarithm for each call, spread over all of them.
    pub fn remove(&mut self, step: u32, number: u32)
        requires { is_idle_at number (of_step self.old.steps step) ≡ true }
        ensures steps { self.new.steps
            ≡ slice_set self.old.steps step (without number (of_step self.old.steps step)) }
        ensures known { self.new.known ≡ self.old.known }
        ensures room { self.new.room ≡ self.old.room }
    {
        self.gone[number as usize] = true;
        let dropped = self.queues[step as usize].trim(self.gone.as_slice());
        self.faulty -= dropped;
    }

    /// Whether a known job is idle.
    pub fn is_idle(&self, number: u32) -> bool
        requires { number < self.now.known }
        ensures { result ≡ is_idle self.now.steps number }
    {
        !self.gone[number as usize]
    }

    /// Whether a step has an idle job.
    pub fn has_idle(&self, step: u32) -> bool
        requires { step < length self.now.steps }
        ensures { result ≡ has_some (of_step self.now.steps step) }
    {
        self.queues[step as usize].read().has_some()
    }

    /// Whether any step has an idle job that binds a fault. Constant.
    pub fn has_faulty(&self) -> bool
        ensures none { result ≡ false → (step : ℕ) → (of_step self.now.steps step).faulty ≡ [] }
        ensures some { result ≡ true → (step : ℕ) × (number : ℕ)
            × (first_number (of_step self.now.steps step).faulty ≡ Some number) }
    {
        self.faulty != 0
    }

    /// The number of a step's first idle job in order of place, whether or not it binds a fault; of two at one place, that of the
    /// one that was known first.
    pub fn first(&self, step: u32) -> Option<u32>
        requires { step < length self.now.steps }
        ensures { result ≡ first_of (of_step self.now.steps step).good
            (of_step self.now.steps step).faulty }
    {
        self.queues[step as usize].read().first()
    }

    /// The number of a step's first idle job that stands after a place, whether or not it binds a fault. Places compare index by
    /// index, and one that begins another stands before it; the place may have any number of indices. Takes no memory.
    ///
    /// Logarithmic in the step's known jobs, and linear in those that came late, and in those that are idle no more and stand
    /// between the place and the answer.
    pub fn first_after(&self, step: u32, place: &[u32]) -> Option<u32>
        requires { step < length self.now.steps }
        ensures { result ≡ first_after place.now (of_step self.now.steps step) }
    {
        self.queues[step as usize]
            .read()
            .first_after(place, self.gone.as_slice())
    }

    /// The number of a step's first idle job that binds no fault.
    pub fn first_good(&self, step: u32) -> Option<u32>
        requires { step < length self.now.steps }
        ensures { result ≡ first_number (of_step self.now.steps step).good }
    {
        self.queues[step as usize].read().first_good()
    }

    /// The number of a step's first idle job that binds a fault.
    pub fn first_faulty(&self, step: u32) -> Option<u32>
        requires { step < length self.now.steps }
        ensures { result ≡ first_number (of_step self.now.steps step).faulty }
    {
        self.queues[step as usize].read().first_faulty()
    }
}

fn one_if(so: bool) -> usize
    ensures { result ≡ cond so 1 0 }
{
    if so { 1 } else { 0 }
}
