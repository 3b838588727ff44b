//! What was made from an element: a bit for each group.
ghost use Rattle.std.specs.Prelude.{◌≡◌, length, map, IfOk};
ghost use Rattle.std.specs.List.{list_any};
ghost use Rattle.std.specs.BTreeMap.{get};
ghost use Rattle.tv_value.specs.Orders.{job_name_cmp};
ghost use Rattle.tv_lineage.specs.Tables.{IsPass, IsWhole, in_table};
ghost use Rattle.tv_lineage.specs.Reaching.{is_met};
ghost use Rattle.tv_lineage.specs.Touching as spec;
ghost use Rattle.tv_lineage.specs.Views.{IsKept, kept_of, mark_part, part_view};

use crate::mark::{Mark, Part};
use crate::records::Entry;
use std::alloc::Global;
use std::collections::BTreeMap;
use tv_value::{JobName, Name, NoMemory, Place};

/// Whether the one element is the other, lies in it or has it in itself.
fn is_touched(port: &Name, place: &Place, other_port: &Name, other_place: &Place) -> bool
    ensures { result ≡ spec.touches port.now place.now (other_port.now, other_place.now) }
{
    port == other_port && (place.prefix_of(other_place) || other_place.prefix_of(place))
}

/// Whether that mark was made from the element. It costs a look-up.
fn has_mark(
    numbers: &BTreeMap<JobName, usize>,
    port: &Name,
    place: &Place,
    made: &[bool],
    mark: &Mark,
) -> bool
    ensures { result ≡ in_table (get job_name_cmp numbers.now) port.now place.now made.now
        (mark_part mark.now) }
{
    match mark {
        Mark::Given(other_port, other_place) => is_touched(port, place, other_port, other_place),
        Mark::Made(name) => match numbers.get(name) {
            Some(number) => has_group(made, *number),
            None => false,
        },
    }
}

/// Whether that group has a bit.
fn has_group(made: &[bool], number: usize) -> bool
    ensures { result ≡ is_met made.now number }
{
    number < made.len() && made[number]
}

/// Whether that part was made from the element.
fn has_part(
    numbers: &BTreeMap<JobName, usize>,
    port: &Name,
    place: &Place,
    made: &[bool],
    part: &Part,
) -> bool
    ensures { result ≡ in_table (get job_name_cmp numbers.now) port.now place.now made.now
        (part_view part.now) }
{
    match part {
        Part::Single(mark) => has_mark(numbers, port, place, made, mark),
        Part::Group(number) => has_group(made, *number),
    }
}

/// Whether one of these marks was made from the element.
pub(crate) fn has_any_mark(
    numbers: &BTreeMap<JobName, usize>,
    port: &Name,
    place: &Place,
    made: &[bool],
    marks: &[Mark],
) -> bool
    ensures { result ≡ list_any (in_table (get job_name_cmp numbers.now) port.now place.now
        made.now) (map mark_part marks.now) }
{
    for mark in marks {
        if has_mark(numbers, port, place, made, mark) {
            return true;
        }
    }
    false
}

/// Whether one of these parts was made from the element.
fn has_any_part(
    numbers: &BTreeMap<JobName, usize>,
    port: &Name,
    place: &Place,
    made: &[bool],
    parts: &[Part],
) -> bool
    ensures { result ≡ list_any (in_table (get job_name_cmp numbers.now) port.now place.now
        made.now) (map part_view parts.now) }
{
    for part in parts {
        if has_part(numbers, port, place, made, part) {
            return true;
        }
    }
    false
}

/// Gives a bit to each group that leads on to one with a bit or to the element, and tells whether there was such a group.
/// Linear in the parts, each with a look-up.
fn pass(
    entries: &[Entry],
    numbers: &BTreeMap<JobName, usize>,
    port: &Name,
    place: &Place,
    made: &mut Vec<bool>,
) -> bool
    requires kept { IsKept (get job_name_cmp numbers.now) (kept_of entries.now) }
    requires size { length made.old.items ≡ length entries.now }
    ensures { IsPass (get job_name_cmp numbers.now) (kept_of entries.now) port.now place.now
        (length entries.now) made.old.items made.new.items result }
{
    let mut added = false;
    for (number, entry) in entries.iter().enumerate() {
        if !made[number]
            && has_any_part(
                numbers,
                port,
                place,
                made.as_slice(),
                entry.parts.as_slice(),
            )
        {
            made[number] = true;
            added = true;
        }
    }
    added
}

/// A bit for each group, which says whether it was made from the element.
pub(crate) fn of_element(
    alloc: Global,
    entries: &[Entry],
    numbers: &BTreeMap<JobName, usize>,
    port: &Name,
    place: &Place,
) -> Result<Vec<bool>, NoMemory>
    requires kept { IsKept (get job_name_cmp numbers.now) (kept_of entries.now) }
    ensures { IfOk result (λ bs. IsWhole (get job_name_cmp numbers.now) (kept_of entries.now)
        port.now place.now bs.items) }
{
    let mut made = vec![in alloc; false; entries.len()]?;
    let mut added = true;
    while added {
        added = pass(entries, numbers, port, place, &mut made);
    }
    Ok(made)
}
