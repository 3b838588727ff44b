//! The records of the jobs of a step without outputs, row by row: the items of the lists of one row are the next.
//!
//! No output has to hold what such a step makes, so its jobs may stand some hundred levels deep. These are loops, which take no more
//! stack for that. No feed leads from the step, so nothing is kept of the shape of its iteration.
ghost use Rattle.std.specs.Prelude.{◌≡◌, ◌++◌, IfOk, OnOk, flat_map};
ghost use Rattle.tv_traces.specs.Building.{AreGrouped, telling};
ghost use Rattle.tv_traces.specs.OfNodes.{AreNoted};
ghost use Rattle.tv_traces.specs.Rows.{count_of, items_at, row};
ghost use Rattle.tv_traces.specs.Sights.{what_in};

use crate::building::{Walk, note_job};
use std::alloc::Global;
use tv_cell::Path;
use tv_frame::What;
use tv_lineage::Records;
use tv_value::NoMemory;

/// How many items of the list at a place are told of: none where no list is. Two look-ups at the most.
fn count_at(alloc: Global, walk: &Walk<'_>, place: &[u32]) -> Result<u32, NoMemory>
    ensures { IfOk result (λ n. n ≡ count_of (what_in walk.now.sight.now walk.now.step place.now)) }
{
    match walk.sight.seen_at(alloc, walk.step, place)? {
        Some(What::Closed(count)) => Ok(count),
        Some(What::Passed(_)) => Ok(0),
        None => Ok(0),
    }
}

/// Pushes the places of these items.
fn push_items(
    alloc: Global,
    walk: &Walk<'_>,
    place: &Path,
    inner: &mut Vec<Path>,
) -> Result<(), NoMemory>
    ensures { OnOk result (inner.new.items ≡ inner.old.items
        ++ items_at (what_in walk.now.sight.now walk.now.step) place.now) }
{
    let count = count_at(alloc, walk, place.as_slice())?;
    for index in 0..count {
        inner.push(place.joined(alloc, &[index])?)?;
    }
    Ok(())
}

/// The places of the items of all lists of a row.
fn row_below(alloc: Global, walk: &Walk<'_>, places: &[Path]) -> Result<Vec<Path>, NoMemory>
    ensures { IfOk result (λ qs. qs.items
        ≡ flat_map (items_at (what_in walk.now.sight.now walk.now.step)) places.now) }
{
    let mut inner = Vec::new(alloc);
    for place in places {
        push_items(alloc, walk, place, &mut inner)?;
    }
    Ok(inner)
}

/// The places below so many levels.
fn row_at(alloc: Global, walk: &Walk<'_>, levels: u32) -> Result<Vec<Path>, NoMemory>
    ensures { IfOk result (λ qs. qs.items
        ≡ row (what_in walk.now.sight.now walk.now.step) levels) }
{
    let mut places = vec![in alloc; Path::top(alloc)]?;
    for level in 0..levels {
        let _level = level;
        places = row_below(alloc, walk, places.as_slice())?;
    }
    Ok(places)
}

/// Notes what the settled jobs below so many levels used. Linear in these jobs, in the lists around them and in what the jobs bind, with
/// look-ups for each list and job. Holds the places of a row and the next one.
pub(crate) fn note_jobs(
    alloc: Global,
    walk: &Walk<'_>,
    records: &mut Records,
    levels: u32,
) -> Result<(), NoMemory>
    requires { AreGrouped records.old.groups walk.now }
    ensures { OnOk result (AreNoted (telling walk.now)
        (row (what_in walk.now.sight.now walk.now.step) levels) records.old records.new) }
{
    let places = row_at(alloc, walk, levels)?;
    for place in places.as_slice() {
        note_job(alloc, walk, records, place.as_slice())?;
    }
    Ok(())
}
