//! Objects with stated fields.
ghost use Rattle.std.specs.Prelude.{◌≡◌, ◌<◌, ◌^◌, [], IfOk, true, List, ℕ, map, option_map, string_bytes, not};
ghost use Rattle.std.specs.List.{list_all, list_any, find};
ghost use Rattle.std.specs.BTreeMap.{keys};
ghost use Rattle.serde_json.specs.View.{view as json_view, members_view};
ghost use Rattle.tv_value.specs.Orders.{same_name};
ghost use Rattle.tv_flow.specs.Complaints.{key};
ghost use Rattle.tv_flow.specs.PathViews.{at_view};
ghost use Rattle.tv_flow.specs.Answers.{IsForm};
ghost use Rattle.tv_flow.specs.Formed.{is_between, are_named, are_listed};
ghost use Rattle.tv_flow.specs.Views.{each};
ghost use Rattle.tv_flow.specs.Forms.{fields_form, unknown_key, required, optional, text_form, number_form, named_form, array_form, has};

use crate::at::At;
use crate::faults::{FormFault, FormKind};
use crate::formed::Formed;
use crate::lists::{array, named};
use crate::scalars::{number, text};
use serde_json::{Map, Value as Json};
use std::alloc::Global;
use tv_value::{Name, Sequence, Text};

/// Whether it is an object that has a key.
pub(crate) fn has(json: &Json, key: &str) -> bool
    ensures { result ≡ has key.now (json_view json.now) }
{
    json.get(key).is_some()
}

/// An object that has these fields and no others.
pub(crate) fn fields(
    alloc: Global,
    at: &At<'_>,
    json: &Json,
    fields: &[&str],
) -> Result<(), FormFault>
    ensures { IsForm (λ u. tt) result (fields_form (map (λ f. f.now) fields.now) (at_view at.now)
        (json_view json.now)) }
{
    match json.as_object() {
        Some(members) => match unknown_key(members, fields) {
            Some(key) => Err(At::Key(at, key).fault(alloc, FormKind::Unknown)),
            None => Ok(()),
        },
        None => Err(at.fault(alloc, FormKind::WrongKind)),
    }
}

/// The first key in byte order that isn't among the fields.
fn unknown_key<'a>(members: &'a Map<String, Json>, fields: &[&str]) -> Option<&'a str>
    ensures { option_map (λ k. k.now) result ≡ unknown_key (map (λ f. f.now) fields.now)
        (members_view members.now.entries) }
{
    match first_unknown(members, fields) {
        Some(key) => Some(key.as_str()),
        None => None,
    }
}

fn first_unknown<'a>(members: &'a Map<String, Json>, fields: &[&str]) -> Option<&'a String>
    ensures { option_map (λ k. k.now) result
        ≡ find (λ k. not (list_any (λ f. same_name (string_bytes k) f.now) fields.now))
        (keys members.now) }
{
    members.keys().find(|key| !is_among(fields, key.as_str()))
}

fn is_among(fields: &[&str], key: &str) -> bool
    ensures { result ≡ list_any (λ f. same_name key.now f.now) fields.now }
{
    fields.iter().any(|field| key == *field)
}

/// A field that must be there.
pub(crate) fn required<T: Formed>(
    alloc: Global,
    at: &At<'_>,
    json: &Json,
    key: &str,
    format: u32,
) -> Result<T, FormFault>
    ensures read { IsForm T.seen result (required (T.form format) key.now (at_view at.now)
        (json_view json.now)) }
    ensures kept { IfOk result (λ x. T.keeps (T.seen x) ≡ true) }
{
    let there = At::Key(at, key);
    match json.get(key) {
        Some(json) => T::formed(alloc, &there, json, format),
        None => Err(there.fault(alloc, FormKind::Missing)),
    }
}

/// A text that must be there.
pub(crate) fn required_text(
    alloc: Global,
    at: &At<'_>,
    json: &Json,
    key: &str,
) -> Result<Text, FormFault>
    ensures { IsForm (λ t. t) result (required text_form key.now (at_view at.now)
        (json_view json.now)) }
{
    let there = At::Key(at, key);
    match json.get(key) {
        Some(json) => text(alloc, &there, json),
        None => Err(there.fault(alloc, FormKind::Missing)),
    }
}

/// A number that must be there.
pub(crate) fn required_number(
    alloc: Global,
    at: &At<'_>,
    json: &Json,
    key: &str,
    low: u32,
    high: u32,
) -> Result<u32, FormFault>
    ensures read { IsForm (λ n. n) result (required (number_form low high) key.now (at_view at.now)
        (json_view json.now)) }
    ensures kept { IfOk result (λ n. is_between low high n ≡ true) }
{
    let there = At::Key(at, key);
    match json.get(key) {
        Some(json) => number(alloc, &there, json, low, high),
        None => Err(there.fault(alloc, FormKind::Missing)),
    }
}

/// A number that may be left out, and is then `otherwise`.
pub(crate) fn optional_number(
    alloc: Global,
    at: &At<'_>,
    json: &Json,
    key: &str,
    low: u32,
    high: u32,
    otherwise: u32,
) -> Result<u32, FormFault>
    requires { is_between low high otherwise ≡ true }
    ensures read { IsForm (λ n. n) result (optional otherwise (number_form low high) key.now
        (at_view at.now) (json_view json.now)) }
    ensures kept { IfOk result (λ n. is_between low high n ≡ true) }
{
    match json.get(key) {
        Some(json) => number(alloc, &At::Key(at, key), json, low, high),
        None => Ok(otherwise),
    }
}

/// A named object that must be there.
pub(crate) fn required_named<T: Formed>(
    alloc: Global,
    at: &At<'_>,
    json: &Json,
    key: &str,
    least: usize,
    most: usize,
    format: u32,
) -> Result<Sequence<(Name, T)>, FormFault>
    ensures read { IsForm (each T.seen) result (required (named_form (T.form format) least most) key.now
        (at_view at.now) (json_view json.now)) }
    ensures kept { IfOk result (λ es. are_named T.keeps least most (each T.seen es) ≡ true) }
    ensures fits { IfOk result (λ es. list_all (λ e. T.fits format e.1) (each T.seen es) ≡ true) }
{
    let there = At::Key(at, key);
    match json.get(key) {
        Some(json) => named(alloc, &there, json, least, most, format),
        None => Err(there.fault(alloc, FormKind::Missing)),
    }
}

/// A named object that may be left out, and is then empty.
pub(crate) fn optional_named<T: Formed>(
    alloc: Global,
    at: &At<'_>,
    json: &Json,
    key: &str,
    most: usize,
    format: u32,
) -> Result<Sequence<(Name, T)>, FormFault>
    ensures read { IsForm (each T.seen) result (optional [] (named_form (T.form format) 0 most) key.now
        (at_view at.now) (json_view json.now)) }
    ensures kept { IfOk result (λ es. are_named T.keeps 0 most (each T.seen es) ≡ true) }
    ensures fits { IfOk result (λ es. list_all (λ e. T.fits format e.1) (each T.seen es) ≡ true) }
{
    match json.get(key) {
        Some(json) => named(alloc, &At::Key(at, key), json, 0, most, format),
        None => Ok(Sequence::empty(alloc)),
    }
}

/// An array that must be there.
pub(crate) fn required_array<T: Formed>(
    alloc: Global,
    at: &At<'_>,
    json: &Json,
    key: &str,
    least: usize,
    most: usize,
    format: u32,
) -> Result<Sequence<T>, FormFault>
    requires { most < 2 ^ 32 }
    ensures read { IsForm (map T.seen) result (required (array_form (T.form format) least most) key.now
        (at_view at.now) (json_view json.now)) }
    ensures kept { IfOk result (λ xs. are_listed T.keeps least most (map T.seen xs) ≡ true) }
{
    let there = At::Key(at, key);
    match json.get(key) {
        Some(json) => array(alloc, &there, json, least, most, format),
        None => Err(there.fault(alloc, FormKind::Missing)),
    }
}
