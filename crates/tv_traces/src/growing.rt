//! The lists that still grow: they aren't closed, but something below them is known.
ghost use Rattle.std.specs.BTreeMap.{get};
ghost use Rattle.std.specs.Prelude.{◌≡◌, ◌++◌, ◌∷◌, ℕ, [], IfOk, List, OnOk, map};
ghost use Rattle.tv_value.specs.Nested.{Place as APlace};
ghost use Rattle.tv_value.specs.Orders.{place_cmp};
ghost use Rattle.tv_frame.specs.Views.{level_view};
ghost use Rattle.tv_traces.specs.Seen.{Spot};
ghost use Rattle.tv_traces.specs.Tables.{AreGrown};
ghost use Rattle.tv_traces.specs.Growing.{AreGrownBy, IsAroundOne, WithAround, WithItem, at_least};
ghost use Rattle.tv_traces.specs.Sights.{grown_in, job_view, level_spot};

use crate::settled::SettledJob;
use crate::table::key_of;
use std::alloc::Global;
use std::collections::BTreeMap;
use tv_frame::Level;
use tv_value::{NoMemory, Place};

/// What is known of an item of the list at a place tells that the list is longer than the item's index. An index of 2^32 - 1 is of a
/// list that is longer than any that closes.
fn grow(
    alloc: Global,
    grown: &mut BTreeMap<Place, u32>,
    step: u32,
    place: &[u32],
    index: u32,
) -> Result<(), NoMemory>
    ensures { OnOk result ((js : List Spot) (whole : APlace) (depth : ℕ)
        → AreGrownBy (WithAround (IsAroundOne js) step whole depth) (get place_cmp grown.old)
        → AreGrownBy (WithItem (WithAround (IsAroundOne js) step whole depth) step place.now index)
        (get place_cmp grown.new)) }
{
    let Some(count) = index.checked_add(1) else {
        return Err(NoMemory);
    };
    let key = key_of(alloc, step, place)?;
    if is_long(grown, &key, count) {
        return Ok(());
    }
    grown.insert(key, count)?;
    Ok(())
}

/// Whether so many items are told of a list, or more.
fn is_long(grown: &BTreeMap<Place, u32>, key: &Place, count: u32) -> bool
    ensures { result ≡ at_least count (get place_cmp grown.now key.now) }
{
    match grown.get(key) {
        Some(least) => *least >= count,
        None => false,
    }
}

/// The same of all lists around what is known at a place. Linear in the square of the place, with a look-up for each index.
fn grow_around(
    alloc: Global,
    grown: &mut BTreeMap<Place, u32>,
    step: u32,
    place: &[u32],
) -> Result<(), NoMemory>
    ensures { OnOk result ((js : List Spot) → AreGrownBy (IsAroundOne js) (get place_cmp grown.old)
        → AreGrownBy (IsAroundOne (js ++ (step, place.now) ∷ [])) (get place_cmp grown.new)) }
{
    for (depth, index) in place.iter().enumerate() {
        grow(alloc, grown, step, &place[..depth], *index)?;
    }
    Ok(())
}

/// All lists around these.
fn grow_by_levels(
    alloc: Global,
    grown: &mut BTreeMap<Place, u32>,
    levels: &[Level],
) -> Result<(), NoMemory>
    ensures { OnOk result ((js : List Spot) → AreGrownBy (IsAroundOne js) (get place_cmp grown.old)
        → AreGrownBy (IsAroundOne (js ++ map level_spot levels.now)) (get place_cmp grown.new)) }
{
    for level in levels {
        grow_around(alloc, grown, level.step, level.place.as_slice())?;
    }
    Ok(())
}

/// All lists around these jobs.
fn grow_by_jobs(
    alloc: Global,
    grown: &mut BTreeMap<Place, u32>,
    jobs: &[SettledJob],
) -> Result<(), NoMemory>
    ensures { OnOk result ((js : List Spot) → AreGrownBy (IsAroundOne js) (get place_cmp grown.old)
        → AreGrownBy (IsAroundOne (js ++ map job_view jobs.now)) (get place_cmp grown.new)) }
{
    for job in jobs {
        grow_around(alloc, grown, job.step, job.place.as_slice())?;
    }
    Ok(())
}

/// How many items of each list are told of by what is known below it: of all lists around these, by the number of the step and
/// then the place.
pub(crate) fn grown_of(
    alloc: Global,
    levels: &[Level],
    jobs: &[SettledJob],
) -> Result<BTreeMap<Place, u32>, NoMemory>
    ensures { IfOk result (λ g. AreGrown (map level_view levels.now) (map job_view jobs.now)
        (grown_in (get place_cmp g))) }
{
    let mut grown = BTreeMap::new(alloc);
    grow_by_levels(alloc, &mut grown, levels)?;
    grow_by_jobs(alloc, &mut grown, jobs)?;
    Ok(grown)
}

/// How many items what is known below the list at a place tells of, `None` where nothing is. A look-up.
pub(crate) fn grown_at(
    alloc: Global,
    grown: &BTreeMap<Place, u32>,
    step: u32,
    place: &[u32],
) -> Result<Option<u32>, NoMemory>
    ensures { IfOk result (λ n. n ≡ get place_cmp grown.now (step ∷ place.now)) }
{
    let key = key_of(alloc, step, place)?;
    match grown.get(&key) {
        Some(count) => Ok(Some(*count)),
        None => Ok(None),
    }
}
