//! What some parts lead to.
ghost use Rattle.std.specs.Prelude.{◌≡◌, ◌++◌, ◌∷◌, [], ℕ, suc, ◌≤◌, length, map, IfOk, IfSome, OnOk, None, Some, MatchOption, false};
ghost use Rattle.std.specs.BTreeMap.{get};
ghost use Rattle.tv_value.specs.Orders.{job_name_cmp};
ghost use Rattle.tv_lineage.specs.Kept as kept;
ghost use Rattle.tv_lineage.specs.Reaching.{AreInside, Begins, Numbers, Sees};
ghost use Rattle.tv_lineage.specs.Views.{mark_part, part_view};
ghost use Rattle.tv_lineage.specs.SearchViews.{search_view};

use crate::mark::{Labels, Mark, Part};
use std::alloc::Global;
use std::collections::{BTreeMap, BTreeSet};
use tv_value::{Copied, JobName, Name, NoMemory, Place, Sequence};

/// A search on its way.
#[derive(Drop)]
pub(crate) struct Search {
    // For each group, whether it was met.
    met: Vec<bool>,
    // The groups that were met and are still to be looked at.
    pending: Vec<usize>,
    // The elements that were found.
    found: BTreeSet<(Name, Place)>,
}

impl Search {
    /// Nothing was met of so many groups.
    pub(crate) fn start(alloc: Global, groups: usize) -> Result<Search, NoMemory>
        ensures { IfOk result (λ s. Begins groups (search_view s)) }
    {
        let met = vec![in alloc; false; groups]?;
        Ok(Search {
            met,
            pending: Vec::new(alloc),
            found: BTreeSet::new(alloc),
        })
    }

    /// Takes out the group that was met last.
    pub(crate) fn next(&mut self) -> Option<usize>
        ensures none { result ≡ None → (search_view self.old).pending ≡ [] }
        ensures some { IfSome result (λ i. (search_view self.old).pending
            ≡ (search_view self.new).pending ++ i ∷ []) }
        ensures others { search_view self.new
            ≡ record (search_view self.old) { pending = (search_view self.new).pending } }
    {
        self.pending.pop()
    }

    /// Sees a group: if it was not met before, it is to be looked at.
    fn see_group(&mut self, number: usize) -> Result<(), NoMemory>
        requires inside { suc number ≤ length (search_view self.old).met }
        ensures { OnOk result ((ns : Numbers) → Sees ns (kept.group number ∷ [])
            (search_view self.old) (search_view self.new)) }
    {
        if !self.met[number] {
            self.pending.push(number)?;
            self.met[number] = true;
        }
        Ok(())
    }

    /// Sees an element.
    fn see_element(&mut self, alloc: Global, port: &Name, place: &Place) -> Result<(), NoMemory>
        ensures { OnOk result ((ns : Numbers) → Sees ns (kept.element port.now place.now ∷ [])
            (search_view self.old) (search_view self.new)) }
    {
        let port = port.copy(alloc)?;
        let place = place.copy(alloc)?;
        self.found.insert((port, place))?;
        Ok(())
    }

    /// Sees what a mark stands for, which costs a look-up.
    fn see_mark(
        &mut self,
        alloc: Global,
        numbers: &BTreeMap<JobName, usize>,
        mark: &Mark,
    ) -> Result<(), NoMemory>
        requires inside { AreInside (get job_name_cmp numbers.now)
            (length (search_view self.old).met) (mark_part mark.now ∷ []) }
        ensures { OnOk result (Sees (get job_name_cmp numbers.now) (mark_part mark.now ∷ [])
            (search_view self.old) (search_view self.new)) }
    {
        match mark {
            Mark::Given(port, place) => self.see_element(alloc, port, place),
            Mark::Made(name) => match numbers.get(name) {
                Some(number) => self.see_group(*number),
                None => Ok(()),
            },
        }
    }

    /// Sees what a part stands for.
    fn see_part(
        &mut self,
        alloc: Global,
        numbers: &BTreeMap<JobName, usize>,
        part: &Part,
    ) -> Result<(), NoMemory>
        requires inside { AreInside (get job_name_cmp numbers.now)
            (length (search_view self.old).met) (part_view part.now ∷ []) }
        ensures { OnOk result (Sees (get job_name_cmp numbers.now) (part_view part.now ∷ [])
            (search_view self.old) (search_view self.new)) }
    {
        match part {
            Part::Single(mark) => self.see_mark(alloc, numbers, mark),
            Part::Group(number) => self.see_group(*number),
        }
    }

    /// Sees what these marks stand for.
    pub(crate) fn see_marks(
        &mut self,
        alloc: Global,
        numbers: &BTreeMap<JobName, usize>,
        marks: &[Mark],
    ) -> Result<(), NoMemory>
        requires inside { AreInside (get job_name_cmp numbers.now)
            (length (search_view self.old).met) (map mark_part marks.now) }
        ensures { OnOk result (Sees (get job_name_cmp numbers.now) (map mark_part marks.now)
            (search_view self.old) (search_view self.new)) }
    {
        for mark in marks {
            self.see_mark(alloc, numbers, mark)?;
        }
        Ok(())
    }

    /// Sees what these parts stand for.
    pub(crate) fn see_parts(
        &mut self,
        alloc: Global,
        numbers: &BTreeMap<JobName, usize>,
        parts: &[Part],
    ) -> Result<(), NoMemory>
        requires inside { AreInside (get job_name_cmp numbers.now)
            (length (search_view self.old).met) (map part_view parts.now) }
        ensures { OnOk result (Sees (get job_name_cmp numbers.now) (map part_view parts.now)
            (search_view self.old) (search_view self.new)) }
    {
        for part in parts {
            self.see_part(alloc, numbers, part)?;
        }
        Ok(())
    }

    /// The elements that were found, by port and place.
    pub(crate) fn into_labels(self, alloc: Global) -> Result<Labels, NoMemory>
        ensures { IfOk result (λ ls. ls ≡ (search_view self).found) }
    {
        let mut found = self.found;
        let mut labels = Vec::with_capacity(alloc, found.len())?;
        while let Some(label) = found.pop_first() {
            labels.push(label)?;
        }
        Ok(Sequence::of(labels))
    }
}
