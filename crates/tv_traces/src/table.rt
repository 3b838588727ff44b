//! The levels of an instance by step and place.
ghost use Rattle.std.specs.BTreeMap.{get};
ghost use Rattle.std.specs.Prelude.{◌≡◌, ◌∷◌, IfOk, map, option_map};
ghost use Rattle.tv_value.specs.Orders.{place_cmp};
ghost use Rattle.tv_frame.specs.Views.{level_view, what_view};
ghost use Rattle.tv_traces.specs.Tables.{IsTableOf};
ghost use Rattle.tv_traces.specs.Tabled.{told_in};

use std::alloc::Global;
use std::collections::BTreeMap;
use tv_frame::{Level, What};
use tv_value::{NoMemory, Place};

/// The levels, by the number of their step and then their place. A look-up for each.
pub(crate) fn table_of(alloc: Global, levels: &[Level]) -> Result<BTreeMap<Place, What>, NoMemory>
    ensures { IfOk result (λ t. IsTableOf (map level_view levels.now) (told_in (get place_cmp t))) }
{
    let mut table = BTreeMap::new(alloc);
    for level in levels {
        let key = key_of(alloc, level.step, level.place.as_slice())?;
        table.insert(key, level.what)?;
    }
    Ok(table)
}

/// What is told of a place of a step's iteration. A look-up.
pub(crate) fn told_at(
    alloc: Global,
    table: &BTreeMap<Place, What>,
    step: u32,
    place: &[u32],
) -> Result<Option<What>, NoMemory>
    ensures { IfOk result (λ w. option_map what_view w
        ≡ told_in (get place_cmp table.now) step place.now) }
{
    let key = key_of(alloc, step, place)?;
    match table.get(&key) {
        Some(what) => Ok(Some(*what)),
        None => Ok(None),
    }
}

pub(crate) fn key_of(alloc: Global, step: u32, place: &[u32]) -> Result<Place, NoMemory>
    ensures { IfOk result (λ k. k ≡ step ∷ place.now) }
{
    Place::of(alloc, place)?.below(step)
}
