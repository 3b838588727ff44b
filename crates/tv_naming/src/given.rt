//! The pass on the values that the main flow is given.
ghost use Rattle.std.specs.Prelude.{◌≡◌, IfOk, true, map, option_map, flat_map, not, unwrap_or};
ghost use Rattle.tv_value.specs.DepthSets.{least_depth};
ghost use Rattle.tv_value.specs.Values.{has_depth};
ghost use Rattle.tv_value.specs.Views.{view as value_view};
ghost use Rattle.tv_flow.specs.DocumentViews.{document_view};
ghost use Rattle.tv_flow.specs.Formed.{is_ascending};
ghost use Rattle.tv_flow.specs.Views.{each};
ghost use Rattle.tv_naming.specs.Faulty.{input_depth, at_given, with_numbers, first_of};
ghost use Rattle.tv_naming.specs.FaultViews.{fault_view};
ghost use Rattle.tv_naming.specs.Naming.{complain_if, has_name};
ghost use Rattle.tv_naming.specs.Inputs.{given_complaints, given_against, missing_against, unknown_against, depth_against};

use crate::faults::{CheckFault, CheckKind};
use crate::spots::{at_given, plain_fault};
use crate::things::thing_of;
use std::alloc::Global;
use tv_flow::{Document, Inputs};
use tv_value::{Depths, Name, NoMemory, Value};

/// The first complaint about the values that a document gives its main flow: inputs without a value, values without an
/// input, values that haven't the declared depth, each in byte order. Linear in the values, of which the names are looked
/// up by binary search.
pub fn given_fault(alloc: Global, document: &Document) -> Result<Option<CheckFault>, NoMemory>
    ensures { IfOk result (λ f. option_map fault_view f
        ≡ first_of (given_complaints (document_view document.now))) }
{
    match thing_of(&document.flows, &document.main) {
        Some(flow) => against_fault(alloc, &flow.inputs, &document.inputs),
        None => against_fault(alloc, &Depths::empty(alloc), &document.inputs),
    }
}

fn against_fault(
    alloc: Global,
    inputs: &Depths,
    given: &Inputs,
) -> Result<Option<CheckFault>, NoMemory>
    requires { is_ascending (map (λ v. v.0) given.now) ≡ true }
    ensures { IfOk result (λ f. option_map fault_view f
        ≡ first_of (given_against inputs.now (each value_view given.now))) }
{
    if let Some(fault) = missing_fault(alloc, inputs, given)? {
        return Ok(Some(fault));
    }
    if let Some(fault) = unknown_fault(alloc, inputs, given)? {
        return Ok(Some(fault));
    }
    depth_fault(alloc, inputs, given)
}

fn missing_fault(
    alloc: Global,
    inputs: &Depths,
    given: &Inputs,
) -> Result<Option<CheckFault>, NoMemory>
    requires { is_ascending (map (λ v. v.0) given.now) ≡ true }
    ensures { IfOk result (λ f. option_map fault_view f
        ≡ first_of (flat_map (missing_against (each value_view given.now)) inputs.now)) }
{
    for (name, _) in inputs.as_slice() {
        if !is_given(given, name) {
            let spot = at_given(alloc, name)?;
            return Ok(Some(plain_fault(CheckKind::InputMissing, spot)));
        }
    }
    Ok(None)
}

fn unknown_fault(
    alloc: Global,
    inputs: &Depths,
    given: &Inputs,
) -> Result<Option<CheckFault>, NoMemory>
    ensures { IfOk result (λ f. option_map fault_view f
        ≡ first_of (flat_map (unknown_against inputs.now) (each value_view given.now))) }
{
    for (name, _) in given.as_slice() {
        if !is_declared(inputs, name) {
            let spot = at_given(alloc, name)?;
            return Ok(Some(plain_fault(CheckKind::InputUnknown, spot)));
        }
    }
    Ok(None)
}

fn depth_fault(
    alloc: Global,
    inputs: &Depths,
    given: &Inputs,
) -> Result<Option<CheckFault>, NoMemory>
    ensures { IfOk result (λ f. option_map fault_view f
        ≡ first_of (flat_map (depth_against inputs.now) (each value_view given.now))) }
{
    for (name, value) in given.as_slice() {
        if let Some(fault) = value_fault(alloc, inputs, name, value)? {
            return Ok(Some(fault));
        }
    }
    Ok(None)
}

fn value_fault(
    alloc: Global,
    inputs: &Depths,
    name: &Name,
    value: &Value,
) -> Result<Option<CheckFault>, NoMemory>
    ensures { IfOk result (λ f. option_map fault_view f
        ≡ first_of (depth_against inputs.now (name.now, value_view value.now))) }
{
    match inputs.named(name) {
        Some(depth) => declared_fault(alloc, *depth, name, value),
        None => Ok(None),
    }
}

fn declared_fault(
    alloc: Global,
    depth: u32,
    name: &Name,
    value: &Value,
) -> Result<Option<CheckFault>, NoMemory>
    ensures { IfOk result (λ f. option_map fault_view f
        ≡ first_of (complain_if (not (has_depth (value_view value.now) depth))
        (with_numbers input_depth (at_given name.now) depth
        (unwrap_or (least_depth (value_view value.now)) 0)))) }
{
    if value.has_depth(depth) {
        return Ok(None);
    }
    let spot = at_given(alloc, name)?;
    Ok(Some(CheckFault {
        kind: CheckKind::InputDepth,
        spot,
        first: depth,
        second: value.least_depth().unwrap_or(0),
    }))
}

/// Whether there is a value of this name. Logarithmic in the values.
fn is_given(given: &Inputs, name: &Name) -> bool
    requires { is_ascending (map (λ v. v.0) given.now) ≡ true }
    ensures { result ≡ has_name (each value_view given.now) name.now }
{
    thing_of(given, name).is_some()
}

/// Whether there is an input of this name.
fn is_declared(inputs: &Depths, name: &Name) -> bool
    ensures { result ≡ has_name inputs.now name.now }
{
    inputs.named(name).is_some()
}
