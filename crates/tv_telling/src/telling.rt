ghost use Rattle.std.specs.Prelude.{◌≡◌, ◌∷◌, [], IfOk, OnOk, true};
ghost use Rattle.tv_matching.specs.Matchers.{leaf_name};
ghost use Rattle.tv_matching.specs.Told.{arrival, close};
ghost use Rattle.tv_telling.specs.ValueTellings.{bound_told};
ghost use Rattle.tv_telling.specs.Views.{AddsTellings};

use std::alloc::Global;
use tv_match::Told;
use tv_value::{NoMemory, Place};

/// A value is bound, which may hold a fault.
pub(crate) fn tell_bound(
    alloc: Global,
    leaf: u32,
    place: &[u32],
    faulty: bool,
    tellings: &mut Vec<Told>,
) -> Result<(), NoMemory>
    ensures { OnOk result (AddsTellings tellings.old.items tellings.new.items
        (λ s. bound_told (leaf_name s leaf) place.now faulty ∷ [])) }
{
    let place = Place::of(alloc, place)?;
    if faulty {
        tellings.push(Told::Faulty { leaf, place })?;
        return Ok(());
    }
    tellings.push(Told::Arrival {
        leaf,
        place,
        fault: false,
    })?;
    Ok(())
}

/// A fault is on the way to a value.
pub(crate) fn tell_fault(
    alloc: Global,
    leaf: u32,
    place: &[u32],
    tellings: &mut Vec<Told>,
) -> Result<(), NoMemory>
    ensures { OnOk result (AddsTellings tellings.old.items tellings.new.items
        (λ s. arrival (leaf_name s leaf) place.now true ∷ [])) }
{
    let place = Place::of(alloc, place)?;
    tellings.push(Told::Arrival {
        leaf,
        place,
        fault: true,
    })?;
    Ok(())
}

/// A list has so many items. Answers want of memory where that is no number of 32 bits.
pub(crate) fn tell_list(
    alloc: Global,
    leaf: u32,
    place: &[u32],
    count: usize,
    tellings: &mut Vec<Told>,
) -> Result<(), NoMemory>
    ensures { OnOk result (AddsTellings tellings.old.items tellings.new.items
        (λ s. close (leaf_name s leaf) place.now count ∷ [])) }
{
    let place = Place::of(alloc, place)?;
    let length = index_of(count)?;
    tellings.push(Told::Close {
        leaf,
        place,
        length,
    })?;
    Ok(())
}

/// A position as an index of a place. Answers want of memory where it is no number of 32 bits, as no value has.
pub(crate) fn index_of(position: usize) -> Result<u32, NoMemory>
    ensures { IfOk result (λ i. i ≡ position) }
{
    if position > u32::MAX as usize {
        return Err(NoMemory);
    }
    Ok(position as u32)
}
