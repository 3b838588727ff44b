//! The input ports of a step by numbers.
ghost use Rattle.std.specs.Prelude.{◌≡◌, ◌<◌, ◌^◌, true, map, length, IfOk};
ghost use Rattle.tv_value.specs.Views.{strategy_view};
ghost use Rattle.tv_flow.specs.Formed.{is_flow};
ghost use Rattle.tv_flow.specs.Views.{each, flow_view, step_view, step_input_view};
ghost use Rattle.tv_strategy.specs.Measures.{leaf_names};
ghost use Rattle.tv_model.specs.instance.Steps.{strategy_of};
ghost use Rattle.tv_check.specs.Ports.{levels_of, mismatches, port_among, ports_of};

use crate::feeds::{NumberedFeed, feed_numbered};
use crate::leaves::{leaf_number, push_leaves};
use std::alloc::Global;
use tv_flow::{Flow, Step, StepInput};
use tv_value::{Depths, Name, NoMemory, Sequence, Tree};

/// An input port of a step.
#[derive(Debug, Drop)]
pub struct Port {
    /// What feeds it.
    pub feed: NumberedFeed,
    /// The levels that it iterates; where there are none it takes all that feeds it at once.
    pub levels: u32,
    /// Which leaf of the step's strategy it is, from left to right.
    pub leaf: u32,
}

/// The input ports of a step, in byte order of their names.
pub type Ports = Sequence<Port>;

/// The input ports of each step, in byte order of the steps' names.
pub type PortsBySteps = Sequence<Ports>;

/// The input ports of a step, from its strategy with the default written out, and the levels that each port iterates. Takes a
/// look-up for each link, and each leaf once for each port, of which there are at most 16.
pub fn ports_of(
    alloc: Global,
    flow: &Flow,
    step: &Step,
    tree: &Tree,
    mismatch: &Depths,
) -> Result<Ports, NoMemory>
    requires flow { is_flow (flow_view flow.now) ≡ true }
    requires few { length (leaf_names (strategy_view tree.now)) < 2 ^ 32 }
    requires tree { strategy_view tree.now ≡ strategy_of (step_view step.now) }
    requires mismatch { mismatch.now ≡ mismatches (flow_view flow.now) (step_view step.now) }
    ensures { IfOk result (λ ps. ps ≡ ports_of (flow_view flow.now) (step_view step.now)) }
{
    let mut leaves = Vec::new(alloc);
    push_leaves(tree, &mut leaves)?;
    let inputs = step.inputs.as_slice();
    ports_among(alloc, flow, inputs, mismatch.as_slice(), leaves.as_slice())
}

fn ports_among(
    alloc: Global,
    flow: &Flow,
    inputs: &[(Name, StepInput)],
    mismatch: &[(Name, u32)],
    leaves: &[&Name],
) -> Result<Ports, NoMemory>
    requires flow { is_flow (flow_view flow.now) ≡ true }
    requires few { length leaves.now < 2 ^ 32 }
    requires mismatch { mismatch.now ≡ map (λ i. (i.0, levels_of (flow_view flow.now) i.1))
        (each step_input_view inputs.now) }
    ensures { IfOk result (λ ps. ps
        ≡ map (port_among (flow_view flow.now) (map (λ n. n.now) leaves.now))
        (each step_input_view inputs.now)) }
{
    let mut ports = Vec::with_capacity(alloc, inputs.len())?;
    for (number, input) in inputs.iter().enumerate() {
        ports.push(Port {
            feed: feed_numbered(alloc, flow, &input.1.from)?,
            levels: mismatch[number].1,
            leaf: leaf_number(leaves, &input.0),
        })?;
    }
    Ok(Sequence::of(ports))
}
