ghost use Rattle.std.specs.Prelude.{◌≡◌, ◌∷◌, ◌++◌, ◌+◌, ◌-◌, ℕ, ◌<◌, ◌^◌, ◌≤◌, [], not, count_by, All, IfOk, IfSome, IsNone, OnErr, OnOk, Some, length, map, slice_get, sum_by, take, vec_capacity, vec_len};
ghost use Rattle.tv_strategy.specs.Conditions.{Suits, number_of};
ghost use Rattle.tv_strategy.specs.Measures.{DotsAgree, leaf_names, strategy_depth};
ghost use Rattle.tv_matching.specs.Matchers.{CanTell, Matching};
ghost use Rattle.tv_match.specs.Seen.{is_faulty};

use crate::boxed::Boxed;
use crate::found::Found;
use crate::sorting::{count_each, count_jobs, put, sort_from};
use std::alloc::Global;
use std::mem;
use tv_match::{Kind, Tolds};
use tv_value::{Depths, NoMemory, Tree};

/// The matchers of an instance's steps, with what they have matched.
#[derive(Drop)]
pub struct Intakes {
    matchers: Vec<Boxed>,
    // By their numbers.
    jobs: Vec<Found>,
    // Lists and passed faults that aren't settled.
    waiting: Vec<Found>,
    // Matchers whose memory steps that are added take.
    spare: Vec<Boxed>,
}

impl Intakes {
    ghost use Rattle.tv_value.specs.Views.{strategy_view};
    ghost use Rattle.tv_match.specs.Seen.{IsSound, bound_telling, matching, outcome_kind};
    ghost use Rattle.tv_matching.specs.Matchers.{Starts};
    ghost use Rattle.tv_match.specs.Ahead.{in_order_ahead};
    ghost use Rattle.tv_match.specs.Seen.{in_order};
    ghost use Rattle.tv_intake.specs.Sorting.{job_places, jobs_among, others_among};
    ghost use Rattle.tv_intake.specs.Intaken.{AreIntaken, CanHold, CanShow, HasRoom, HoldsNone, HoldsThese, IsFaultyAt, IsMadeAt, IsSame, IsStartedAt, IsToldAt, OthersStay, brought_at, faulty_ahead_at, followed_at, known_jobs, matcher_at, waiting_things};

    /// Of no step. Takes no memory.
    pub fn new(alloc: Global) -> Intakes
        ensures steps { result.matchers.items ≡ [] }
        ensures jobs { result.jobs.items ≡ [] }
        ensures waiting { result.waiting.items ≡ [] }
        ensures sound { AreIntaken result }
    {
        Intakes {
            matchers: Vec::new(alloc),
            jobs: Vec::new(alloc),
            waiting: Vec::new(alloc),
            spare: Vec::new(alloc),
        }
    }

    /// Of no step from now on, in the same memory: the steps that are added take that of those before. Takes no memory.
    pub fn clear(&mut self)
        ensures steps { self.new.matchers.items ≡ [] }
        ensures jobs { self.new.jobs.items ≡ [] }
        ensures waiting { self.new.waiting.items ≡ [] }
        ensures sound { AreIntaken self.new }
    {
        self.jobs.clear();
        self.waiting.clear();
        self.spare.clear();
        mem::swap(&mut self.matchers, &mut self.spare);
        // The first step takes the last of them: its own, where the flow is the same.
        self.spare.as_mut_slice().reverse();
    }

    /// Adds a step, which was told nothing, with its strategy and the levels that its ports walk. Where the strategy has no leaf
    /// its one job is known. Takes the strategy's depth. Linear in the strategy.
    pub fn add(
        &mut self,
        alloc: Global,
        tree: &Tree,
        mismatch: &Depths,
        depth: u32,
    ) -> Result<(), NoMemory>
        requires sound { AreIntaken self.old }
        requires suits { Suits mismatch.now (strategy_view tree.now) }
        requires agree { DotsAgree (number_of mismatch.now) (strategy_view tree.now) }
        requires deep { depth ≡ strategy_depth (number_of mismatch.now) (strategy_view tree.now) }
        ensures refused { OnErr result (IsSame self.old self.new) }
        ensures started { OnOk result (IsStartedAt (strategy_view tree.now) mismatch.now
            (matcher_at self.new (length self.old.matchers.items))) }
        ensures others { OthersStay (length self.old.matchers.items) self.old self.new }
        ensures jobs { OnOk result (known_jobs self.new ≡ known_jobs self.old
            ++ map (λ q. (length self.old.matchers.items, q))
            (job_places (followed_at self.new (length self.old.matchers.items)))) }
        ensures waiting { OnOk result (waiting_things self.new ≡ waiting_things self.old
            ++ map (λ o. (length self.old.matchers.items, o))
            (others_among (followed_at self.new (length self.old.matchers.items)))) }
        ensures sound { AreIntaken self.new }
    {
        let mut matcher = match self.spare.pop() {
            Some(spare) => spare,
            None => Boxed::unused(alloc)?,
        };
        matcher.restart(tree, mismatch, depth)?;
        self.take_in(matcher)
    }

    /// As `add`, and then the leaf of that number has its whole value, which is said to hold a fault or none: what follows of that
    /// is known too, and waits.
    pub fn add_bound(
        &mut self,
        alloc: Global,
        tree: &Tree,
        mismatch: &Depths,
        depth: u32,
        leaf: u32,
        faulty: bool,
    ) -> Result<(), NoMemory>
        requires sound { AreIntaken self.old }
        requires suits { Suits mismatch.now (strategy_view tree.now) }
        requires agree { DotsAgree (number_of mismatch.now) (strategy_view tree.now) }
        requires deep { depth ≡ strategy_depth (number_of mismatch.now) (strategy_view tree.now) }
        requires leaf { leaf < length (leaf_names (strategy_view tree.now)) }
        requires new { (m : Matching) → Starts (strategy_view tree.now) mismatch.now m
            → CanTell m (bound_telling (strategy_view tree.now) leaf faulty) }
        ensures refused { OnErr result (IsSame self.old self.new) }
        ensures told { OnOk result (IsToldAt (strategy_view tree.now) mismatch.now
            (bound_telling (strategy_view tree.now) leaf faulty ∷ [])
            (matcher_at self.new (length self.old.matchers.items))) }
        ensures others { OthersStay (length self.old.matchers.items) self.old self.new }
        ensures jobs { OnOk result (known_jobs self.new ≡ known_jobs self.old
            ++ map (λ q. (length self.old.matchers.items, q))
            (job_places (followed_at self.new (length self.old.matchers.items)))) }
        ensures waiting { OnOk result (waiting_things self.new ≡ waiting_things self.old
            ++ map (λ o. (length self.old.matchers.items, o))
            (others_among (followed_at self.new (length self.old.matchers.items)))) }
        ensures sound { AreIntaken self.new }
    {
        let mut matcher = match self.spare.pop() {
            Some(spare) => spare,
            None => Boxed::unused(alloc)?,
        };
        matcher.restart(tree, mismatch, depth)?;
        matcher.tell_bound(leaf, faulty)?;
        self.take_in(matcher)
    }

    /// Adds a step with its matcher, which holds no tellings.
    fn take_in(&mut self, matcher: Boxed) -> Result<(), NoMemory>
        requires sound { AreIntaken self.old }
        requires own { IsSound matcher }
        requires none { (matching matcher).held ≡ [] }
        ensures refused { OnErr result (IsSame self.old self.new) }
        ensures there { OnOk result (matcher_at self.new (length self.old.matchers.items)
            ≡ Some matcher) }
        ensures others { OthersStay (length self.old.matchers.items) self.old self.new }
        ensures jobs { OnOk result (known_jobs self.new ≡ known_jobs self.old
            ++ map (λ q. (length self.old.matchers.items, q)) (job_places (in_order matcher))) }
        ensures waiting { OnOk result (waiting_things self.new ≡ waiting_things self.old
            ++ map (λ o. (length self.old.matchers.items, o)) (others_among (in_order matcher))) }
        ensures sound { AreIntaken self.new }
    {
        let step = self.room_for_step(matcher.read().ahead())?;
        sort_from(matcher.read(), step, 0, &mut self.jobs, &mut self.waiting);
        put(&mut self.matchers, matcher);
        Ok(())
    }

    /// Takes room for one step more, of which so many things follow, and answers its number.
    fn room_for_step(&mut self, count: usize) -> Result<u32, NoMemory>
        ensures number { IfOk result (λ n. n ≡ length self.old.matchers.items) }
        ensures room { OnOk result (HasRoom count self.new) }
        ensures step { OnOk result (vec_len self.new.matchers < vec_capacity self.new.matchers) }
        ensures same { IsSame self.old self.new }
    {
        let step = index_of(self.matchers.len())?;
        self.matchers.reserve(1)?;
        self.reserve(count)?;
        Ok(step)
    }

    /// Has the matcher of a step work these tellings ahead, and answers how many jobs, lists and faults they will bring. What it
    /// held before is let go.
    pub fn hold(&mut self, step: u32, told: &Tolds) -> Result<u64, NoMemory>
        requires sound { AreIntaken self.old }
        requires can { CanHold (matcher_at self.old step) told.now }
        ensures ok { OnOk result (HoldsThese told.now (matcher_at self.old step)
            (matcher_at self.new step)) }
        ensures refused { OnErr result (HoldsNone (matcher_at self.old step)
            (matcher_at self.new step)) }
        ensures count { IfOk result (λ n. n ≡ length (brought_at self.new step)) }
        ensures others { OthersStay step self.old self.new }
        ensures jobs { known_jobs self.new ≡ known_jobs self.old }
        ensures waiting { waiting_things self.new ≡ waiting_things self.old }
        ensures sound { AreIntaken self.new }
    {
        self.matchers[step as usize].hold(told)
    }

    /// Takes the room that showing all that these steps hold will need, and answers how many jobs become known with it.
    ///
    /// Linear in what is held.
    pub fn make_room(&mut self, steps: &[u32]) -> Result<u64, NoMemory>
        requires sound { AreIntaken self.old }
        requires steps { All (λ s. s < vec_len self.old.matchers) steps.now }
        ensures room { OnOk result (HasRoom (sum_by (λ s. length (brought_at self.old s)) steps.now)
            self.new) }
        ensures count { IfOk result (λ n. n ≡ sum_by (λ s. jobs_among (brought_at self.old s))
            steps.now) }
        ensures same { IsSame self.old self.new }
    {
        let mut all = 0;
        let mut jobs = 0;
        for step in steps {
            let (things, of_them) = self.brings(*step);
            let Some(more) = things.checked_add(all) else {
                return Err(NoMemory);
            };
            all = more;
            jobs += of_them;
        }
        self.reserve(all)?;
        Ok(jobs as u64)
    }

    /// How many things the held tellings of a step bring, and how many of them are jobs.
    fn brings(&self, step: u32) -> (usize, usize)
        requires sound { AreIntaken self.now }
        requires step { step < vec_len self.now.matchers }
        ensures all { result.0 ≡ length (brought_at self.now step) }
        ensures jobs { result.1 ≡ jobs_among (brought_at self.now step) }
        ensures within { result.1 ≤ result.0 }
    {
        let matcher = self.matchers[step as usize].read();
        let shown = matcher.shown();
        (matcher.ahead() - shown, count_jobs(matcher, shown))
    }

    /// How many jobs the held tellings of a step bring that bind no fault, and how many that bind one. Takes no memory. Linear in
    /// what is held.
    pub fn new_jobs(&self, step: u32) -> (usize, usize)
        requires sound { AreIntaken self.now }
        requires can { CanShow (matcher_at self.now step) }
        ensures good { result.0 ≡ count_by (λ q. not (faulty_ahead_at (matcher_at self.now step) q))
            (job_places (brought_at self.now step)) }
        ensures faulty { result.1 ≡ count_by (faulty_ahead_at (matcher_at self.now step))
            (job_places (brought_at self.now step)) }
    {
        let matcher = self.matchers[step as usize].read();
        count_each(matcher, matcher.shown())
    }

    /// Takes room for so many known jobs and waiting things.
    fn reserve(&mut self, count: usize) -> Result<(), NoMemory>
        ensures room { OnOk result (HasRoom count self.new) }
        ensures matchers { self.new.matchers ≡ self.old.matchers }
        ensures same { IsSame self.old self.new }
    {
        self.jobs.reserve(count)?;
        self.waiting.reserve(count)?;
        Ok(())
    }

    /// Makes the held tellings of a step. What follows of them is a known job, or waits. Takes no memory.
    pub fn show(&mut self, step: u32)
        requires sound { AreIntaken self.old }
        requires can { CanShow (matcher_at self.old step) }
        requires room { HasRoom (length (brought_at self.old step)) self.old }
        ensures made { IsMadeAt (matcher_at self.old step) (matcher_at self.new step) }
        ensures others { OthersStay step self.old self.new }
        ensures jobs { known_jobs self.new ≡ known_jobs self.old
            ++ map (λ q. (step, q)) (job_places (brought_at self.old step)) }
        ensures waiting { waiting_things self.new ≡ waiting_things self.old
            ++ map (λ o. (step, o)) (others_among (brought_at self.old step)) }
        ensures room { (n : ℕ) → HasRoom (length (brought_at self.old step) + n) self.old
            → HasRoom n self.new }
        ensures sound { AreIntaken self.new }
    {
        let matcher = &mut self.matchers[step as usize];
        let shown = matcher.read().shown();
        matcher.tell_held();
        let matcher = self.matchers[step as usize].read();
        sort_from(matcher, step, shown, &mut self.jobs, &mut self.waiting);
    }

    /// How many jobs are known. Takes no memory.
    pub fn known(&self) -> usize
        ensures { result ≡ length (known_jobs self.now) }
    {
        self.jobs.len()
    }

    /// A known job by its number: the number of its step, its place, and whether a value that it binds was told to hold a fault.
    /// Takes no memory.
    pub fn job(&self, number: usize) -> (u32, &[u32], bool)
        requires sound { AreIntaken self.now }
        requires number { number < length (known_jobs self.now) }
        ensures job { slice_get (known_jobs self.now) number ≡ Some (result.0, result.1.now) }
        ensures faulty { IsFaultyAt (matcher_at self.now result.0) result.1.now result.2 }
    {
        let found = self.jobs[number];
        let (place, kind) = self.matchers[found.step as usize].read().item(found.at);
        (found.step, place, binds_fault(kind))
    }

    /// How many lists and passed faults wait to be settled. Takes no memory.
    pub fn waiting(&self) -> usize
        ensures { result ≡ length (waiting_things self.now) }
    {
        self.waiting.len()
    }

    /// A list or passed fault that waits, by its position: the number of its step, its place, and what it is. Takes no memory.
    pub fn waiting_at(&self, at: usize) -> (u32, &[u32], Kind)
        requires sound { AreIntaken self.now }
        requires at { at < length (waiting_things self.now) }
        ensures { slice_get (waiting_things self.now) at
            ≡ Some (result.0, outcome_kind result.1.now result.2) }
    {
        let found = self.waiting[at];
        let (place, kind) = self.matchers[found.step as usize].read().item(found.at);
        (found.step, place, kind)
    }

    /// The last thing that waits is settled. Takes no memory.
    pub fn settle_last(&mut self)
        requires { AreIntaken self.old }
        ensures waiting { waiting_things self.new ≡ take (length (waiting_things self.old) - 1)
            (waiting_things self.old) }
        ensures matchers { self.new.matchers.items ≡ self.old.matchers.items }
        ensures jobs { self.new.jobs.items ≡ self.old.jobs.items }
        ensures room { (n : ℕ) → HasRoom n self.old → HasRoom n self.new }
        ensures sound { AreIntaken self.new }
    {
        let _ = self.waiting.pop();
    }
}

/// A count as the number of a step. Answers want of memory where it is no number of 32 bits.
fn index_of(count: usize) -> Result<u32, NoMemory>
    ensures { IfOk result (λ n. n ≡ count) }
{
    if count > u32::MAX as usize {
        return Err(NoMemory);
    }
    Ok(count as u32)
}

/// Whether that is a job that binds a value with a fault.
fn binds_fault(kind: Kind) -> bool
    ensures { result ≡ is_faulty kind }
{
    match kind {
        Kind::Job { faulty } => faulty,
        Kind::Closed(_) => false,
        Kind::Passed(_) => false,
    }
}
