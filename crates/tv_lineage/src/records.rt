//! What is kept of settled jobs.
ghost use Rattle.std.specs.Prelude.{◌≡◌, ◌++◌, ◌∷◌, [], false, length, map, IfOk, OnOk, OnErr};
ghost use Rattle.tv_lemmas.specs.Members.{Each};
ghost use Rattle.tv_lineage.specs.Kept.{IsBefore, all_marks, is_noted, marks_of, records_of};
ghost use Rattle.tv_lineage.specs.Lineages.{backward, by_step, forward};
ghost use Rattle.tv_lineage.specs.Views.{leaf_view, mark_part, mark_view, none_kept, part_view, with_group, with_job};

use crate::mark::{Labels, Leaves, Marks, OutPlaces, Part, Parts};
use crate::search::Search;
use crate::{steps, table};
use std::alloc::Global;
use std::collections::BTreeMap;
use std::marker::Model;
use tv_value::{Copied, JobName, JobNames, Name, NoMemory, Place, Sequence};

/// A group of parts: what a job used, or what was shared.
#[derive(Drop)]
pub(crate) struct Entry {
    pub(crate) job: Option<JobName>,
    pub(crate) parts: Parts,
}

/// The records of settled jobs.
#[derive(Drop)]
pub struct Records {
    // All groups, in the order in which they were made.
    entries: Vec<Entry>,
    // Where the group of each noted job stands among them.
    numbers: BTreeMap<JobName, usize>,
}

impl Model for Records {
    ghost use Rattle.std.specs.BTreeMap.{get};
    ghost use Rattle.tv_value.specs.Orders.{job_name_cmp};
    ghost use Rattle.tv_lineage.specs.Kept.{Kept};
    ghost use Rattle.tv_lineage.specs.Views.{IsKept, kept_of};

    ghost Value = { Kept };

    ghost view = { λ r. kept_of r.entries.items };

    ghost invariant = { λ r. IsKept (get job_name_cmp r.numbers) (kept_of r.entries.items) };
}

impl Records {
    /// No records. Takes no memory yet.
    pub fn start(alloc: Global) -> Result<Records, NoMemory>
        ensures { IfOk result (λ r. r ≡ none_kept) }
    {
        Ok(Records {
            entries: Vec::new(alloc),
            numbers: BTreeMap::new(alloc),
        })
    }

    /// Whether the job was noted. It costs a look-up.
    pub fn has(&self, job: &JobName) -> bool
        ensures { result ≡ is_noted job.now self.now }
    {
        self.numbers.contains_key(job)
    }

    /// Notes what a settled job used. Linear in the marks, and a look-up.
    pub fn note(&mut self, alloc: Global, job: JobName, used: Marks) -> Result<(), NoMemory>
        requires new { is_noted job self.old ≡ false }
        ensures ok { OnOk result (self.new ≡ with_job job (map mark_part used) self.old) }
        ensures records { OnOk result (records_of self.new
            ≡ records_of self.old ++ record { job = job; used = map mark_view used } ∷ []) }
        ensures refused { OnErr result (self.new ≡ self.old) }
    {
        let parts = parts_of(alloc, used)?;
        self.note_parts(alloc, job, parts)
    }

    /// The same, by parts. It costs a look-up, whatever the parts.
    pub fn note_parts(&mut self, alloc: Global, job: JobName, used: Parts) -> Result<(), NoMemory>
        requires new { is_noted job self.old ≡ false }
        requires before { Each (IsBefore (length self.old.groups)) (map part_view used) }
        ensures ok { OnOk result (self.new ≡ with_job job (map part_view used) self.old) }
        ensures records { OnOk result (records_of self.new
            ≡ records_of self.old
            ++ record { job = job; used = all_marks self.old.groups (map part_view used) } ∷ []) }
        ensures refused { OnErr result (self.new ≡ self.old) }
    {
        let number = self.entries.len();
        let key = job.copy(alloc)?;
        self.entries.push(Entry {
            job: Some(job),
            parts: used,
        })?;
        if self.numbers.insert(key, number).is_err() {
            self.entries.truncate(number);
            return Err(NoMemory);
        }
        Ok(())
    }

    /// One part that stands for all of these from now on. Its cost is constant.
    pub fn share(&mut self, parts: Parts) -> Result<Part, NoMemory>
        requires before { Each (IsBefore (length self.old.groups)) (map part_view parts) }
        ensures part { IfOk result (λ p. marks_of self.new.groups (part_view p)
            ≡ all_marks self.old.groups (map part_view parts)) }
        ensures number { IfOk result (λ p. IsBefore (length self.new.groups) (part_view p)) }
        ensures ok { OnOk result (self.new ≡ with_group (map part_view parts) self.old) }
        ensures records { records_of self.new ≡ records_of self.old }
        ensures refused { OnErr result (self.new ≡ self.old) }
    {
        let number = self.entries.len();
        self.entries.push(Entry { job: None, parts })?;
        Ok(Part::Group(number))
    }

    /// The elements that these marks lead to, by port and place, each once.
    ///
    /// It looks once at each group that they lead to, so it costs at most the parts that are kept, each with a look-up.
    pub fn backward(&self, alloc: Global, used: &Marks) -> Result<Labels, NoMemory>
        ensures { IfOk result (λ ls. ls ≡ backward (records_of self.now) (map mark_view used.now)) }
    {
        let mut search = Search::start(alloc, self.entries.len())?;
        search.see_marks(alloc, &self.numbers, used.as_slice())?;
        while let Some(number) = search.next() {
            let entry = &self.entries[number];
            search.see_parts(alloc, &self.numbers, entry.parts.as_slice())?;
        }
        search.into_labels(alloc)
    }

    /// The leaves that were made from the element, or from one that it lies in or that lies in it, in their order.
    ///
    /// Where each job was noted after those that it used, it looks twice at the parts that are kept, each with a look-up,
    /// and once at the leaves. Else it looks again, as long as one look finds more.
    pub fn forward(
        &self,
        alloc: Global,
        leaves: &Leaves,
        port: &Name,
        place: &Place,
    ) -> Result<OutPlaces, NoMemory>
        ensures { IfOk result (λ ls. ls ≡ forward (records_of self.now) (map leaf_view leaves.now)
            port.now place.now) }
    {
        let entries = self.entries.as_slice();
        let made = table::of_element(alloc, entries, &self.numbers, port, place)?;
        let mut labels = Vec::new(alloc);
        for leaf in leaves.as_slice() {
            let marks = leaf.used.as_slice();
            if table::has_any_mark(&self.numbers, port, place, made.as_slice(), marks) {
                labels.push((leaf.port.copy(alloc)?, leaf.place.copy(alloc)?))?;
            }
        }
        Ok(Sequence::of(labels))
    }

    /// The main flow's jobs of that step, in order of place. Takes n log n steps for n jobs.
    pub fn by_step(&self, alloc: Global, step: &Name) -> Result<JobNames, NoMemory>
        ensures { IfOk result (λ ns. ns ≡ by_step (records_of self.now) step.now) }
    {
        let places = steps::places_of(alloc, self.entries.as_slice(), step)?;
        steps::names_at(alloc, step, places)
    }
}

/// A part for each mark. Linear in the marks.
fn parts_of(alloc: Global, marks: Marks) -> Result<Parts, NoMemory>
    ensures { IfOk result (λ ps. map part_view ps ≡ map mark_part marks) }
{
    let marks = marks.into_vec();
    let mut parts = Vec::with_capacity(alloc, marks.len())?;
    for mark in marks {
        parts.push(Part::Single(mark))?;
    }
    Ok(Sequence::of(parts))
}
