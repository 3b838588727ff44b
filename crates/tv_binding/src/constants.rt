//! The cells of a flow's constants.
ghost use Rattle.std.specs.Prelude.{◌≡◌, map, option_map, IfOk};
ghost use Rattle.tv_value.specs.Views.{view};
ghost use Rattle.tv_flow.specs.Views.{each, feed_view, step_input_view, step_view, flow_view};
ghost use Rattle.tv_binding.specs.Constants.{constant_in, port_constants, flow_constants, constants_view, constant_of_port, constant_of_output, cell_values, there};

use std::alloc::Global;
use tv_cell::Cell;
use tv_flow::{Feed, Flow, FlowOutputs, StepInputs, Steps};
use tv_value::{NoMemory, Sequence};

/// For each of some feeds its constant, where it is one.
type Cells = Sequence<Option<Cell>>;

/// The constants of a flow, each in a cell: those of its steps' ports, and those of its outputs.
#[derive(Drop)]
pub struct Constants {
    ports: Sequence<Cells>,
    outputs: Cells,
}

impl Constants {
    /// The constants of a flow. Linear in its steps, ports and outputs, and in the constants, each of which is copied once.
    pub fn start(alloc: Global, flow: &Flow) -> Result<Constants, NoMemory>
        ensures { IfOk result (λ k. constants_view k ≡ flow_constants (flow_view flow.now)) }
    {
        let ports = cells_of_steps(alloc, &flow.steps)?;
        let outputs = cells_of_outputs(alloc, &flow.outputs)?;
        Ok(Constants { ports, outputs })
    }

    /// The constant of a step's port, by the numbers of both, or `None` where the port is fed otherwise or isn't there. Takes no
    /// memory, and the cost is constant.
    pub fn of_port(&self, step: usize, port: usize) -> Option<&Cell>
        ensures { option_map (λ c. view c.now) result ≡ constant_of_port (constants_view self.now)
            step port }
    {
        match self.ports.as_slice().get(step) {
            Some(cells) => cell_at(cells.as_slice(), port),
            None => None,
        }
    }

    /// The constant of an output of the flow by its number, or `None` as with `of_port`. Takes no memory, and the cost is
    /// constant.
    pub fn of_output(&self, number: usize) -> Option<&Cell>
        ensures { option_map (λ c. view c.now) result ≡ constant_of_output (constants_view self.now)
            number }
    {
        cell_at(self.outputs.as_slice(), number)
    }
}

fn cell_at(cells: &[Option<Cell>], number: usize) -> Option<&Cell>
    ensures { option_map (λ c. view c.now) result ≡ there (cell_values cells.now) number }
{
    match cells.get(number) {
        Some(Some(cell)) => Some(cell),
        _ => None,
    }
}

fn cell_of(alloc: Global, feed: &Feed) -> Result<Option<Cell>, NoMemory>
    ensures { IfOk result (λ c. option_map view c ≡ constant_in (feed_view feed.now)) }
{
    match feed {
        Feed::Constant(value) => {
            let value = value.copy(alloc)?;
            Ok(Some(Cell::put(alloc, value)?))
        }
        _ => Ok(None),
    }
}

fn cells_of_ports(alloc: Global, inputs: &StepInputs) -> Result<Cells, NoMemory>
    ensures { IfOk result (λ cs. cell_values cs ≡ map (λ i. constant_in i.1.from)
        (each step_input_view inputs.now)) }
{
    let inputs = inputs.as_slice();
    let mut cells = Vec::with_capacity(alloc, inputs.len())?;
    for (_, input) in inputs {
        cells.push(cell_of(alloc, &input.from)?)?;
    }
    Ok(Sequence::of(cells))
}

fn cells_of_steps(alloc: Global, steps: &Steps) -> Result<Sequence<Cells>, NoMemory>
    ensures { IfOk result (λ rows. map cell_values rows
        ≡ map port_constants (each step_view steps.now)) }
{
    let steps = steps.as_slice();
    let mut rows = Vec::with_capacity(alloc, steps.len())?;
    for (_, step) in steps {
        rows.push(cells_of_ports(alloc, &step.inputs)?)?;
    }
    Ok(Sequence::of(rows))
}

fn cells_of_outputs(alloc: Global, outputs: &FlowOutputs) -> Result<Cells, NoMemory>
    ensures { IfOk result (λ cs. cell_values cs
        ≡ map (λ o. constant_in o.1) (each feed_view outputs.now)) }
{
    let outputs = outputs.as_slice();
    let mut cells = Vec::with_capacity(alloc, outputs.len())?;
    for (_, feed) in outputs {
        cells.push(cell_of(alloc, feed)?)?;
    }
    Ok(Sequence::of(cells))
}
