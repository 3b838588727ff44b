//! Copies of marks and parts, and the marks of elements and jobs.
ghost use Rattle.std.specs.Prelude.{◌≡◌, ◌++◌, ◌∷◌, [], IfOk};
ghost use Rattle.tv_lineage.specs.Touching as touching;
ghost use Rattle.tv_lineage.specs.Views.{mark_view, part_view};
ghost use Rattle.tv_traces.specs.Feeds.{job_at};

use std::alloc::Global;
use tv_lineage::{Mark, Part};
use tv_value::{Copied, JobName, Name, NoMemory, Place, Sequence};

/// The mark of an element of an input.
pub(crate) fn element_mark(alloc: Global, port: &Name, place: &[u32]) -> Result<Mark, NoMemory>
    ensures { IfOk result (λ m. mark_view m ≡ touching.given port.now place.now) }
{
    let place = Place::of(alloc, place)?;
    Ok(Mark::Given(port.copy(alloc)?, place))
}

/// The name of a job of the main flow.
pub(crate) fn job_name(alloc: Global, step: &Name, place: &[u32]) -> Result<JobName, NoMemory>
    ensures { IfOk result (λ n. n ≡ job_at step.now place.now) }
{
    let place = Place::of(alloc, place)?;
    let name = step.copy(alloc)?;
    let levels = vec![in alloc; (name, place)]?;
    Ok(Sequence::of(levels))
}

/// The place of an item of the list at a place.
pub(crate) fn item_place(alloc: Global, place: &[u32], index: u32) -> Result<Place, NoMemory>
    ensures { IfOk result (λ p. p ≡ place.now ++ index ∷ []) }
{
    let mut inner = Place::of(alloc, place)?;
    let last = Place::of(alloc, &[index])?;
    inner.append(&last)?;
    Ok(inner)
}

/// The mark of a job of the main flow.
pub(crate) fn job_mark(alloc: Global, step: &Name, place: &[u32]) -> Result<Mark, NoMemory>
    ensures { IfOk result (λ m. mark_view m ≡ touching.made (job_at step.now place.now)) }
{
    Ok(Mark::Made(job_name(alloc, step, place)?))
}

/// An equal mark.
pub(crate) fn mark_copy(alloc: Global, mark: &Mark) -> Result<Mark, NoMemory>
    ensures { IfOk result (λ m. mark_view m ≡ mark_view mark.now) }
{
    match mark {
        Mark::Given(port, place) => Ok(Mark::Given(port.copy(alloc)?, place.copy(alloc)?)),
        Mark::Made(job) => Ok(Mark::Made(job.copy(alloc)?)),
    }
}

/// An equal part.
pub(crate) fn part_copy(alloc: Global, part: &Part) -> Result<Part, NoMemory>
    ensures { IfOk result (λ p. part_view p ≡ part_view part.now) }
{
    match part {
        Part::Single(mark) => Ok(Part::Single(mark_copy(alloc, mark)?)),
        Part::Group(number) => Ok(Part::Group(*number)),
    }
}
