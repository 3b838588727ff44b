//! Which steps are whole, and which have ended.
ghost use Rattle.std.specs.Prelude.{◌≡◌, ◌<◌, ◌≤◌, ◌-◌, ◌&&◌, ◌||◌, ◌==◌, ◌++◌, ◌∷◌, [], ℕ, List, Bool, not, cond, true, false, length, replicate, slice_set, slice_index, IfOk, OnOk, vec_len, vec_capacity};
ghost use Rattle.std.specs.List.{list_all};
ghost use Rattle.tv_telling.specs.endings.Ends.{after_of, is_whole, has_ended, have_ended, ended_now, AreTurned, IsSound};
ghost use Rattle.tv_telling.specs.endings.Counting.{Counts, IsCounting};

use std::alloc::Global;
use tv_check::{Numbers, Rows, Wiring};
use tv_value::NoMemory;

/// Which steps of an instance are whole, and which have ended. The steps are told by their numbers.
#[derive(Debug, Drop)]
pub struct Endings {
    // For each step how many of the steps that it runs after haven't ended.
    left: Vec<usize>,
    whole: Vec<bool>,
    ended: Vec<bool>,
    // How many steps aren't whole.
    growing: usize,
    // The steps that ended with the last call.
    fresh: Vec<u32>,
}

/// So many marks, of which none is set, in place of what stood there.
fn unmark(marks: &mut Vec<bool>, count: usize) -> Result<(), NoMemory>
    ensures { OnOk result (marks.new.items ≡ replicate count false) }
{
    marks.clear();
    marks.resize(count, false)?;
    Ok(())
}

impl Endings {
    /// Of no step. Takes no memory.
    pub fn new(alloc: Global) -> Endings {
        Endings {
            left: Vec::new(alloc),
            whole: Vec::new(alloc),
            ended: Vec::new(alloc),
            growing: 0,
            fresh: Vec::new(alloc),
        }
    }

    /// No step is whole, so none has ended. Takes for each step the steps that it runs after. Linear in the steps.
    pub fn start(alloc: Global, after: &[Numbers]) -> Result<Endings, NoMemory>
        ensures sound { IfOk result (λ e. IsSound after.now e) }
        ensures whole { IfOk result (λ e. e.whole.items ≡ replicate (length after.now) false) }
    {
        let mut endings = Endings::new(alloc);
        endings.restart(after)?;
        Ok(endings)
    }

    /// The same in place of what stood here, and in its memory.
    pub fn restart(&mut self, after: &[Numbers]) -> Result<(), NoMemory>
        ensures sound { OnOk result (IsSound after.now self.new) }
        ensures whole { OnOk result (self.new.whole.items ≡ replicate (length after.now) false) }
    {
        let count = after.len();
        self.left.clear();
        self.left.reserve(count)?;
        for numbers in after {
            self.left.push(numbers.as_slice().len())?;
        }
        unmark(&mut self.whole, count)?;
        unmark(&mut self.ended, count)?;
        self.growing = count;
        self.fresh.truncate(0);
        self.fresh.reserve(count)?;
        Ok(())
    }

    /// How many steps there are.
    pub fn len(&self) -> usize
        ensures { result ≡ length self.now.whole.items }
    {
        self.whole.len()
    }

    /// Whether a step is whole: all of its iteration is known.
    pub fn is_whole(&self, step: u32) -> bool
        requires { step < length self.now.whole.items }
        ensures { result ≡ is_whole self.now step }
    {
        self.whole[step as usize]
    }

    /// Whether a step's jobs may settle: the steps that it runs after have ended.
    pub fn may_settle(&self, wiring: &Wiring, step: u32) -> bool
        requires sound { IsSound wiring.now.after self.now }
        requires step { step < length wiring.now.after }
        ensures { result ≡ have_ended self.now (after_of wiring.now.after step) }
    {
        self.left[step as usize] == 0
    }

    /// Whether all steps are whole. Where no step runs after itself, all have ended then.
    pub fn are_whole(&self, wiring: &Wiring) -> bool
        requires { IsSound wiring.now.after self.now }
        ensures { result ≡ list_all (λ b. b) self.now.whole.items }
    {
        self.growing == 0
    }

    /// Whether all steps are whole but this one, so that all would end if it became whole.
    pub fn is_last(&self, wiring: &Wiring, step: u32) -> bool
        requires sound { IsSound wiring.now.after self.now }
        requires step { step < length wiring.now.after }
        requires growing { is_whole self.now step ≡ false }
        ensures { result ≡ list_all (λ b. b) (slice_set self.now.whole.items step true) }
    {
        self.growing == 1
    }

    /// The steps that ended with the last call of `set_whole`, each after those of these that it runs after.
    pub fn ended_now(&self) -> &[u32]
        ensures { result.now ≡ self.now.fresh.items }
    {
        self.fresh.as_slice()
    }

    /// All of a step's iteration is known from now on. It ends where those that it runs after have ended; then others may end,
    /// each where the last of those that it runs after has ended. Takes no memory. Linear in the steps that end, and those that
    /// run after them.
    pub fn set_whole(&mut self, wiring: &Wiring, step: u32)
        requires sound { IsSound wiring.now.after self.old }
        requires turned { AreTurned wiring.now.after wiring.now.dependents }
        requires step { step < length wiring.now.after }
        requires growing { is_whole self.old step ≡ false }
        ensures sound { IsSound wiring.now.after self.new }
        ensures whole { self.new.whole.items ≡ slice_set self.old.whole.items step true }
        ensures ended { (s : ℕ) → ended_now self.new s
            ≡ (has_ended self.new s && not (has_ended self.old s)) }
        ensures kept { (s : ℕ) → has_ended self.old s ≡ true → has_ended self.new s ≡ true }
    {
        self.fresh.clear();
        self.mark(step);
        let mut done = 0;
        while done < self.fresh.len() {
            let ended = self.fresh[done];
            self.lower_all(wiring.dependents.row(ended));
            done += 1;
        }
    }

    /// A step is whole from now on, and ends where nothing is left that it runs after.
    fn mark(&mut self, step: u32)
        requires whole { step < length self.old.whole.items }
        requires left { step < length self.old.left.items }
        requires ended { step < length self.old.ended.items }
        requires growing { 0 < self.old.growing }
        requires room { vec_len self.old.fresh < vec_capacity self.old.fresh }
        ensures whole { self.new.whole.items ≡ slice_set self.old.whole.items step true }
        ensures growing { self.new.growing ≡ self.old.growing - 1 }
        ensures left { self.new.left ≡ self.old.left }
        ensures ended { self.new.ended.items ≡ cond (slice_index self.old.left.items step == 0)
            (slice_set self.old.ended.items step true) self.old.ended.items }
        ensures fresh { self.new.fresh.items ≡ cond (slice_index self.old.left.items step == 0)
            (self.old.fresh.items ++ step ∷ []) self.old.fresh.items }
        ensures room { vec_capacity self.old.fresh ≤ vec_capacity self.new.fresh }
    {
        self.whole[step as usize] = true;
        self.growing -= 1;
        if self.left[step as usize] == 0 {
            self.end(step);
        }
    }

    /// A step ends.
    fn end(&mut self, step: u32)
        requires ended { step < length self.old.ended.items }
        requires room { vec_len self.old.fresh < vec_capacity self.old.fresh }
        ensures ended { self.new.ended.items ≡ slice_set self.old.ended.items step true }
        ensures fresh { self.new.fresh.items ≡ self.old.fresh.items ++ step ∷ [] }
        ensures room { vec_capacity self.old.fresh ≤ vec_capacity self.new.fresh }
        ensures left { self.new.left ≡ self.old.left }
        ensures whole { self.new.whole ≡ self.old.whole }
        ensures growing { self.new.growing ≡ self.old.growing }
    {
        self.ended[step as usize] = true;
        self.fresh.push_reserved(step);
    }

    /// One of the steps that each of these runs after has ended.
    fn lower_all(&mut self, steps: &[u32])
        requires { Counts self.old steps.now }
        ensures counting { (after dependents : List (List ℕ)) (was : ℕ → Bool) (k : ℕ)
            → IsCounting after dependents was self.old steps.now k → IsCounting after dependents was
            self.new [] k }
        ensures whole { self.new.whole ≡ self.old.whole }
    {
        for step in steps {
            self.lower(*step);
        }
    }

    /// One of the steps that a step runs after has ended. The step ends where it was the last, and the step is whole.
    fn lower(&mut self, step: u32)
        requires left { step < length self.old.left.items }
        requires whole { step < length self.old.whole.items }
        requires ended { step < length self.old.ended.items }
        requires some { 0 < slice_index self.old.left.items step }
        requires room { vec_len self.old.fresh < vec_capacity self.old.fresh }
        ensures left { self.new.left.items ≡ slice_set self.old.left.items step
            (slice_index self.old.left.items step - 1) }
        ensures ended { self.new.ended.items ≡ cond (is_whole self.old step
            && slice_index self.old.left.items step == 1) (slice_set self.old.ended.items step true)
            self.old.ended.items }
        ensures fresh { self.new.fresh.items ≡ cond (is_whole self.old step
            && slice_index self.old.left.items step == 1) (self.old.fresh.items ++ step ∷ [])
            self.old.fresh.items }
        ensures room { vec_capacity self.old.fresh ≤ vec_capacity self.new.fresh }
        ensures whole { self.new.whole ≡ self.old.whole }
        ensures growing { self.new.growing ≡ self.old.growing }
    {
        self.left[step as usize] -= 1;
        if self.whole[step as usize] && self.left[step as usize] == 0 {
            self.end(step);
        }
    }
}
