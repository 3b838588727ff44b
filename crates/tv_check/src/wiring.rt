//! The wiring of a flow.
ghost use Rattle.std.specs.Prelude.{◌≡◌, ◌<◌, ◌^◌, true, map, length, IfOk};
ghost use Rattle.tv_flow.specs.Formed.{is_ascending, is_flow};
ghost use Rattle.tv_flow.specs.Views.{each, flow_view, step_view};
ghost use Rattle.tv_naming.specs.Numbers.{position};
ghost use Rattle.tv_check.specs.Ports.{ports_of};
ghost use Rattle.tv_check.specs.Wirings.{wiring, after_of};

use crate::feeds::{NumberedFeeds, outputs_numbered, step_number};
use crate::ports::PortsBySteps;
use crate::rows::Rows;
use crate::wires::{Wire, dependents_of, wires_of};
use std::alloc::Global;
use tv_flow::{Flow, Steps};
use tv_value::{Names, NoMemory, Sequence};

/// Steps by number.
pub type Numbers = Sequence<u32>;

/// Steps for each step.
pub type NumbersBySteps = Sequence<Numbers>;

/// The wiring of a flow by numbers.
#[derive(Debug, Drop)]
pub struct Wiring {
    /// The input ports of each step.
    pub ports: PortsBySteps,
    /// What feeds each output of the flow.
    pub outputs: NumberedFeeds,
    /// The steps that each step runs after, in byte order of their names.
    pub after: NumbersBySteps,
    /// For each step the links that come from its outputs: by the step that they feed, then by its port, then by the order in
    /// which they are merged.
    pub wires: Rows<Wire>,
    /// For each step the steps that run after it, in byte order of their names.
    pub dependents: Rows<u32>,
}

/// The wiring of a flow, from the input ports of its steps. Takes a look-up for each link of the flow's outputs and for each
/// name to run after, and is linear in the links beside.
pub fn wiring_of(alloc: Global, flow: &Flow, ports: PortsBySteps) -> Result<Wiring, NoMemory>
    requires flow { is_flow (flow_view flow.now) ≡ true }
    requires ports { ports ≡ map (λ s. ports_of (flow_view flow.now) s.1)
        (flow_view flow.now).steps }
    ensures { IfOk result (λ w. w ≡ wiring (flow_view flow.now)) }
{
    let outputs = outputs_numbered(alloc, flow, &flow.outputs)?;
    let after = after_by_steps(alloc, &flow.steps)?;
    let wires = wires_of(alloc, ports.as_slice())?;
    let dependents = dependents_of(alloc, after.as_slice())?;
    Ok(Wiring {
        ports,
        outputs,
        after,
        wires,
        dependents,
    })
}

fn after_by_steps(alloc: Global, steps: &Steps) -> Result<NumbersBySteps, NoMemory>
    requires in_order { is_ascending (map (λ s. s.0) steps.now) ≡ true }
    requires few { length steps.now < 2 ^ 32 }
    ensures { IfOk result (λ ns. ns ≡ map (λ s. after_of (each step_view steps.now) s.1)
        (each step_view steps.now)) }
{
    let mut after = Vec::with_capacity(alloc, steps.as_slice().len())?;
    for step in steps.as_slice() {
        after.push(names_numbered(alloc, steps, &step.1.after)?)?;
    }
    Ok(Sequence::of(after))
}

/// The positions of names among the steps, the number of steps where one isn't there. Takes a look-up for each.
fn names_numbered(alloc: Global, steps: &Steps, names: &Names) -> Result<Numbers, NoMemory>
    requires in_order { is_ascending (map (λ s. s.0) steps.now) ≡ true }
    requires few { length steps.now < 2 ^ 32 }
    ensures { IfOk result (λ ns. ns ≡ map (λ n. position n steps.now) names.now) }
{
    let mut numbers = Vec::with_capacity(alloc, names.as_slice().len())?;
    for name in names.as_slice() {
        numbers.push(step_number(steps, name))?;
    }
    Ok(Sequence::of(numbers))
}
