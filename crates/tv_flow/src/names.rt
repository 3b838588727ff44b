//! Lists of names in byte order.
ghost use Rattle.std.specs.Prelude.{◌≡◌, IfOk, OnOk, true};
ghost use Rattle.serde_json.specs.View.{view as json_view};
ghost use Rattle.tv_value.specs.Orders.{in_order, put_in_order, name_cmp};
ghost use Rattle.tv_flow.specs.PathViews.{at_view};
ghost use Rattle.tv_flow.specs.Answers.{IsForm};
ghost use Rattle.tv_flow.specs.Formed.{are_names};
ghost use Rattle.tv_flow.specs.Forms.{names_form};

use crate::at::At;
use crate::faults::FormFault;
use crate::lists::array;
use serde_json::Value as Json;
use std::alloc::Global;
use std::cmp::Ordering;
use tv_value::{Name, Names, NoMemory, Sequence};

/// The names of an array of at most 16, in byte order, each once.
pub(crate) fn names(
    alloc: Global,
    at: &At<'_>,
    json: &Json,
    format: u32,
) -> Result<Names, FormFault>
    ensures read { IsForm (λ ns. ns) result (names_form (at_view at.now) (json_view json.now)) }
    ensures kept { IfOk result (λ ns. are_names ns ≡ true) }
{
    let names = array(alloc, at, json, 0, 16, format)?;
    Ok(in_order(alloc, names)?)
}

/// The same names in byte order, each once. Quadratic in their number.
fn in_order(alloc: Global, names: Names) -> Result<Names, NoMemory>
    ensures { IfOk result (λ ns. ns ≡ in_order name_cmp names) }
{
    let mut names = names.into_vec();
    let mut ordered = Vec::new(alloc);
    while let Some(name) = names.pop() {
        put_in_order(&mut ordered, name)?;
    }
    Ok(Sequence::of(ordered))
}

/// Puts a name in its place, unless it is there.
fn put_in_order(names: &mut Vec<Name>, name: Name) -> Result<(), NoMemory>
    ensures { OnOk result (names.new.items ≡ put_in_order name_cmp name names.old.items) }
{
    for index in 0..names.len() {
        match name.as_str().cmp(names[index].as_str()) {
            Ordering::Less => {
                names.insert(index, name)?;
                return Ok(());
            }
            Ordering::Equal => return Ok(()),
            Ordering::Greater => {}
        }
    }
    names.push(name)?;
    Ok(())
}
