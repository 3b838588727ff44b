//! The pass on depths: flow by flow, and in a flow step by step.
ghost use Rattle.std.specs.Prelude.{◌≡◌, ◌≤◌, ◌+◌, ◌<◌, ◌^◌, true, map, flat_map, length, IfOk, OnOk, [], None, Some, replicate, slice_set, vec_len};
ghost use Rattle.tv_flow.specs.DocumentViews.{document_view};
ghost use Rattle.tv_flow.specs.Formed.{is_feed};
ghost use Rattle.tv_flow.specs.Views.{each, flow_view, step_view, feed_view};
ghost use Rattle.tv_strategy.specs.Measures.{strategy_depth};
ghost use Rattle.tv_model.specs.instance.Ranks.{ranked};
ghost use Rattle.tv_model.specs.instance.Steps.{strategy_of};
ghost use Rattle.tv_model.specs.instance.CheckedDepths.{port_depth, flow_depths, measured_outputs};
ghost use Rattle.tv_check.specs.Depthwise.{fed_complaints, step_complaints, steps_complaints, flow_complaints, depth_complaints};
ghost use Rattle.tv_naming.specs.Faulty.{at_flow_output};
ghost use Rattle.tv_check.specs.Tables.{known_steps, IsTable, IsSound, IsMeasured, Agree, AreAt, level_most, table_depth};
ghost use Rattle.tv_check.specs.Measured.{AreWorked, IsReady, IsPrepared, IsProgress, step_opens, nesting_told};
ghost use Rattle.tv_naming.specs.Told.{IsToldOf};

use crate::delivered::{fed, feed_depth};
use crate::levels::ports_level;
use crate::loops::rounds_fit;
use crate::measured::Measured;
use crate::nested::activities_fit;
use std::alloc::Global;
use tv_flow::{Document, Flow, Step};
use tv_naming::{At, CheckRefused};
use tv_value::{Copied, Depths, Name, NoMemory, Sequence};

/// What is said of the depths of a document's flows, which are taken by nesting, least first, else the depths of each. Near
/// linear in steps and links, with 8 passes over the flows.
///
/// The numbers of each flow's steps by rank are `orders`, and the flows' nestings `nestings`.
pub fn document_measured(
    alloc: Global,
    document: &Document,
    orders: &[Vec<u32>],
    nestings: &[u32],
) -> Result<Vec<Option<Measured>>, CheckRefused>
    requires { IsPrepared (document_view document.now) orders.now nestings.now }
    ensures told { IsToldOf (depth_complaints (document_view document.now)) result }
    ensures measured { IfOk result (λ ms. IsProgress (document_view document.now) ms.items 9 0) }
{
    let mut measured = none_measured(alloc, document.flows.as_slice().len())?;
    for nesting in 1..9 {
        nested_measured(alloc, document, orders, nestings, nesting, &mut measured)?;
    }
    Ok(measured)
}

fn none_measured(alloc: Global, count: usize) -> Result<Vec<Option<Measured>>, NoMemory>
    ensures { IfOk result (λ v. v.items ≡ replicate count None) }
{
    let mut measured = Vec::with_capacity(alloc, count)?;
    for _ in 0..count {
        measured.push(None)?;
    }
    Ok(measured)
}

/// What is said of the flows of a nesting, else their depths are put in.
fn nested_measured(
    alloc: Global,
    document: &Document,
    orders: &[Vec<u32>],
    nestings: &[u32],
    nesting: u32,
    measured: &mut Vec<Option<Measured>>,
) -> Result<(), CheckRefused>
    requires prepared { IsPrepared (document_view document.now) orders.now nestings.now }
    requires progress { IsProgress (document_view document.now) measured.old.items nesting 0 }
    ensures told { IsToldOf (nesting_told (document_view document.now) nesting) result }
    ensures progress { OnOk result (IsProgress (document_view document.now) measured.new.items
        (nesting + 1) 0) }
{
    for (number, entry) in document.flows.as_slice().iter().enumerate() {
        if nestings[number] != nesting {
            continue;
        }
        let order = orders[number].as_slice();
        let so_far = measured.as_slice();
        let work = flow_measured(alloc, document, so_far, &entry.0, &entry.1, order)?;
        put(measured, number, work);
    }
    Ok(())
}

fn put(measured: &mut Vec<Option<Measured>>, number: usize, work: Measured)
    requires { number < vec_len measured.old }
    ensures { measured.new.items ≡ slice_set measured.old.items number (Some work) }
{
    measured[number] = Some(work);
}

/// What is said of a flow, else its depths. Its steps are taken in this order. Near linear in its steps and links.
pub(crate) fn flow_measured(
    alloc: Global,
    document: &Document,
    measured: &[Option<Measured>],
    name: &Name,
    flow: &Flow,
    order: &[u32],
) -> Result<Measured, CheckRefused>
    requires worked { AreWorked (document_view document.now).flows measured.now }
    requires ready { IsReady (document_view document.now) measured.now (flow_view flow.now) }
    requires order { AreAt (flow_view flow.now).steps order.now
        (ranked (flow_view flow.now).steps) }
    ensures told { IsToldOf (flow_complaints (document_view document.now)
        (name.now, flow_view flow.now)) result }
    ensures measured { IfOk result (λ m. IsMeasured (flow_view flow.now) m.levels.items m.outputs) }
{
    let levels = steps_levels(alloc, document, measured, name, flow, order)?;
    let table = levels.as_slice();
    outputs_fed(alloc, name, flow, table)?;
    let outputs = output_depths(alloc, flow, table)?;
    Ok(Measured { levels, outputs })
}

/// What is said of the steps of a flow, else the depths of their strategies.
fn steps_levels(
    alloc: Global,
    document: &Document,
    measured: &[Option<Measured>],
    name: &Name,
    flow: &Flow,
    order: &[u32],
) -> Result<Vec<Option<u32>>, CheckRefused>
    requires worked { AreWorked (document_view document.now).flows measured.now }
    requires ready { IsReady (document_view document.now) measured.now (flow_view flow.now) }
    requires order { AreAt (flow_view flow.now).steps order.now
        (ranked (flow_view flow.now).steps) }
    ensures told { IsToldOf (steps_complaints (document_view document.now) name.now
        (flow_view flow.now).inputs [] (ranked (flow_view flow.now).steps)) result }
    ensures table { IfOk result (λ v. IsMeasured (flow_view flow.now) v.items
        (measured_outputs (flow_view flow.now))) }
{
    let steps = flow.steps.as_slice();
    let mut levels = no_levels(alloc, steps.len())?;
    for number in order {
        let step = &steps[*number as usize];
        let table = levels.as_slice();
        let level = step_level(alloc, document, measured, name, flow, table, step)?;
        levels[*number as usize] = Some(level);
    }
    Ok(levels)
}

fn no_levels(alloc: Global, count: usize) -> Result<Vec<Option<u32>>, NoMemory>
    ensures { IfOk result (λ v. v.items ≡ replicate count None) }
{
    let mut levels = Vec::with_capacity(alloc, count)?;
    for _ in 0..count {
        levels.push(None)?;
    }
    Ok(levels)
}

/// What is said of a step, else the depth of its strategy.
fn step_level(
    alloc: Global,
    document: &Document,
    measured: &[Option<Measured>],
    name: &Name,
    flow: &Flow,
    levels: &[Option<u32>],
    step: &(Name, Step),
) -> Result<u32, CheckRefused>
    requires worked { AreWorked (document_view document.now).flows measured.now }
    requires table { IsTable (flow_view flow.now) levels.now }
    requires step { IsSound (step_view step.now.1) }
    requires opened { step_opens (document_view document.now) measured.now (step_view step.now.1)
        ≡ true }
    ensures told { IsToldOf (step_complaints (document_view document.now) name.now
        (flow_view flow.now).inputs (known_steps (flow_view flow.now).steps levels.now)
        (step.now.0, step_view step.now.1)) result }
    ensures level { IfOk result (λ k. k
        ≡ strategy_depth (port_depth (flow_view flow.now).inputs
        (known_steps (flow_view flow.now).steps
        levels.now) (step_view step.now.1)) (strategy_of (step_view step.now.1))) }
    ensures small { IfOk result (λ k. k ≤ level_most) }
{
    let level = ports_level(alloc, name, flow, levels, &step.0, &step.1)?;
    activities_fit(alloc, document, measured, name, &step.0, &step.1)?;
    rounds_fit(alloc, name, &step.0, &step.1)?;
    Ok(level)
}

/// What is said of what feeds a flow's outputs.
fn outputs_fed(
    alloc: Global,
    name: &Name,
    flow: &Flow,
    levels: &[Option<u32>],
) -> Result<(), CheckRefused>
    requires { IsTable (flow_view flow.now) levels.now }
    ensures { IsToldOf (flat_map (λ o. fed_complaints (flow_view flow.now).inputs
        (known_steps (flow_view flow.now).steps levels.now) (at_flow_output name.now o.0) o.1)
        (flow_view flow.now).outputs) result }
{
    for (port, feed) in flow.outputs.as_slice() {
        fed(alloc, flow, levels, At::FlowOutput(name, port), feed)?;
    }
    Ok(())
}

/// The depths that a flow's outputs are delivered.
fn output_depths(alloc: Global, flow: &Flow, levels: &[Option<u32>]) -> Result<Depths, NoMemory>
    requires { IsTable (flow_view flow.now) levels.now }
    ensures { IfOk result (λ os. os ≡ each (table_depth (flow_view flow.now) levels.now)
        (flow_view flow.now).outputs) }
{
    let outputs = flow.outputs.as_slice();
    let mut depths = Vec::with_capacity(alloc, outputs.len())?;
    for (port, feed) in outputs {
        let port = port.copy(alloc)?;
        depths.push((port, feed_depth(flow, levels, feed)))?;
    }
    Ok(Sequence::of(depths))
}
