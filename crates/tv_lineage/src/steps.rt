//! The jobs of a step.
ghost use Rattle.std.specs.Prelude.{◌≡◌, map, filter_map, IfOk, option_map, option_and_then};
ghost use Rattle.tv_value.specs.Orders.{in_order, place_cmp};
ghost use Rattle.tv_lineage.specs.Lineages as spec;
ghost use Rattle.tv_lineage.specs.Views as views;

use crate::records::Entry;
use std::alloc::Global;
use std::collections::BTreeSet;
use tv_value::{Copied, JobName, JobNames, Name, NoMemory, Place, Sequence};

/// The place of a job of the main flow's step.
fn place_at<'a>(step: &Name, name: &'a JobName) -> Option<&'a Place>
    ensures { option_map (λ q. q.now) result ≡ spec.place_at step.now name.now }
{
    match name.as_slice() {
        [level] if *step == level.0 => Some(&level.1),
        _ => None,
    }
}

/// The place of an entry, if it is a job of the main flow's step.
fn place_in<'a>(step: &Name, entry: &'a Entry) -> Option<&'a Place>
    ensures { option_map (λ q. q.now) result ≡ views.place_in step.now entry.now }
{
    match &entry.job {
        Some(name) => place_at(step, name),
        None => None,
    }
}

/// The places of the main flow's jobs of the step.
pub(crate) fn places_of(
    alloc: Global,
    entries: &[Entry],
    step: &Name,
) -> Result<BTreeSet<Place>, NoMemory>
    ensures { IfOk result (λ qs. qs.keys
        ≡ in_order place_cmp (filter_map (views.place_in step.now) entries.now)) }
{
    let mut places = BTreeSet::new(alloc);
    for entry in entries {
        if let Some(place) = place_in(step, entry) {
            places.insert(place.copy(alloc)?)?;
        }
    }
    Ok(places)
}

/// The main flow's jobs of the step at these places.
pub(crate) fn names_at(
    alloc: Global,
    step: &Name,
    places: BTreeSet<Place>,
) -> Result<JobNames, NoMemory>
    ensures { IfOk result (λ ns. ns ≡ map (spec.job_at step.now) places.keys) }
{
    let mut places = places;
    let mut names = Vec::with_capacity(alloc, places.len())?;
    while let Some(place) = places.pop_first() {
        let mut levels = Vec::with_capacity(alloc, 1)?;
        levels.push((step.copy(alloc)?, place))?;
        names.push(Sequence::of(levels))?;
    }
    Ok(Sequence::of(names))
}
