//! Arrays, and objects whose keys are names.
ghost use Rattle.std.specs.Prelude.{◌≡◌, ◌<◌, ◌≤◌, ◌^◌, ◌&&◌, IfOk, OnOk, true, map, length, [], List, ℕ};
ghost use Rattle.std.specs.List.{list_all};
ghost use Rattle.std.specs.List.Sorted.{IsStrictlySortedBy};
ghost use Rattle.std.specs.BTreeMap.{keys};
ghost use Rattle.std.specs.String.{string_cmp};
ghost use Rattle.serde_json.specs.View.{view as json_view, items_view as json_items, members_view};
ghost use Rattle.tv_value.specs.Readings.{item_count};
ghost use Rattle.tv_flow.specs.PathViews.{at_view};
ghost use Rattle.tv_flow.specs.Views.{each};
ghost use Rattle.tv_flow.specs.Answers.{IsForm};
ghost use Rattle.tv_flow.specs.Formed.{is_between, are_named, are_listed};
ghost use Rattle.tv_flow.specs.Forms.{is_name, counted, named_form, entries_form, array_form, items_form, member_count};

use crate::at::At;
use crate::faults::{FormFault, FormKind};
use crate::formed::Formed;
use crate::scalars::name_or_not;
use serde_json::{Map, Value as Json};
use std::alloc::Global;
use tv_value::{Name, Sequence};

/// An object whose keys are names, with so many members.
pub(crate) fn named<T: Formed>(
    alloc: Global,
    at: &At<'_>,
    json: &Json,
    least: usize,
    most: usize,
    format: u32,
) -> Result<Sequence<(Name, T)>, FormFault>
    ensures read { IsForm (each T.seen) result (named_form (T.form format) least most (at_view at.now)
        (json_view json.now)) }
    ensures kept { IfOk result (λ es. are_named T.keeps least most (each T.seen es) ≡ true) }
    ensures fits { IfOk result (λ es. list_all (λ e. T.fits format e.1) (each T.seen es) ≡ true) }
{
    match json.as_object() {
        Some(members) => {
            counted(alloc, at, member_count(members), least, most)?;
            let entries = entries(alloc, at, members, format)?;
            Ok(Sequence::of(entries))
        }
        None => Err(at.fault(alloc, FormKind::WrongKind)),
    }
}

/// The number of an object's members.
fn member_count(members: &Map<String, Json>) -> usize
    ensures count { result ≡ member_count (members_view members.now.entries) }
    ensures ordered { IsStrictlySortedBy string_cmp (keys members.now) }
{
    members.len()
}

/// The number of an array's items.
pub(crate) fn item_count(items: &Vec<Json>) -> usize
    ensures { result ≡ item_count (json_items items.now.items) }
{
    items.len()
}

/// As many entries as there may be.
pub(crate) fn counted(
    alloc: Global,
    at: &At<'_>,
    count: usize,
    least: usize,
    most: usize,
) -> Result<(), FormFault>
    ensures read { IsForm (λ u. tt) result (counted least most (at_view at.now) count) }
    ensures kept { OnOk result (is_between least most count ≡ true) }
    ensures small { OnOk result (count ≤ most) }
{
    if count < least {
        Err(at.fault(alloc, FormKind::Empty))
    } else if most < count {
        Err(at.fault(alloc, FormKind::OutOfRange))
    } else {
        Ok(())
    }
}

/// The members in byte order, each key before its value.
fn entries<'a, T: Formed>(
    alloc: Global,
    at: &'a At<'a>,
    members: &'a Map<String, Json>,
    format: u32,
) -> Result<Vec<(Name, T)>, FormFault>
    ensures read { IsForm (λ v. each T.seen v.items) result (entries_form (T.form format) (at_view at.now)
        (members_view members.now.entries)) }
    ensures kept { IfOk result (λ v. list_all (λ e. is_name e.0 && T.keeps e.1)
        (each T.seen v.items) ≡ true) }
    ensures fits { IfOk result (λ v. list_all (λ e. T.fits format e.1) (each T.seen v.items) ≡ true) }
{
    let mut things = Vec::new(alloc);
    for (key, value) in members {
        let there = At::Key(at, key.as_str());
        let name = name_or_not(alloc, &there, key.as_str())?;
        let thing = T::formed(alloc, &there, value, format)?;
        things.push((name, thing))?;
    }
    Ok(things)
}

/// An array with so many items.
pub(crate) fn array<T: Formed>(
    alloc: Global,
    at: &At<'_>,
    json: &Json,
    least: usize,
    most: usize,
    format: u32,
) -> Result<Sequence<T>, FormFault>
    requires { most < 2 ^ 32 }
    ensures read { IsForm (map T.seen) result (array_form (T.form format) least most (at_view at.now)
        (json_view json.now)) }
    ensures kept { IfOk result (λ xs. are_listed T.keeps least most (map T.seen xs) ≡ true) }
{
    match json.as_array() {
        Some(items) => {
            counted(alloc, at, item_count(items), least, most)?;
            let things = things(alloc, at, items.as_slice(), format)?;
            Ok(Sequence::of(things))
        }
        None => Err(at.fault(alloc, FormKind::WrongKind)),
    }
}

fn things<T: Formed>(
    alloc: Global,
    at: &At<'_>,
    items: &[Json],
    format: u32,
) -> Result<Vec<T>, FormFault>
    requires { length items.now < 2 ^ 32 }
    ensures read { IsForm (λ v. map T.seen v.items) result (items_form (T.form format) (at_view at.now) 0
        (json_items items.now)) }
    ensures kept { IfOk result (λ v. list_all T.keeps (map T.seen v.items) ≡ true) }
{
    let mut things = Vec::new(alloc);
    for index in 0..items.len() {
        let there = At::Index(&*at, index as u32);
        let thing = T::formed(alloc, &there, &items[index], format)?;
        things.push(thing)?;
    }
    Ok(things)
}
