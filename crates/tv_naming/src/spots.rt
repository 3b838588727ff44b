//! Faults without numbers, and the spots of the passes on names and inputs. Each spot has names of its own.
ghost use Rattle.std.specs.Prelude.{◌≡◌, IfOk};
ghost use Rattle.tv_naming.specs.Faulty.{plainly, at_step, at_input, at_activity, at_after, at_loop, at_flow_output, at_given};
ghost use Rattle.tv_naming.specs.FaultViews.{kind_view, spot_view, fault_view};

use crate::faults::{CheckFault, CheckKind, Spot};
use std::alloc::Global;
use tv_value::{Copied, Name, NoMemory};

/// A fault of a kind without numbers. Takes no memory.
pub(crate) fn plain_fault(kind: CheckKind, spot: Spot) -> CheckFault
    ensures { fault_view result ≡ plainly (kind_view kind) (spot_view spot) }
{
    CheckFault {
        kind,
        spot,
        first: 0,
        second: 0,
    }
}

pub(crate) fn at_step(alloc: Global, flow: &Name, step: &Name) -> Result<Spot, NoMemory>
    ensures { IfOk result (λ s. spot_view s ≡ at_step flow.now step.now) }
{
    let flow = flow.copy(alloc)?;
    let step = step.copy(alloc)?;
    Ok(Spot::Step { flow, step })
}

pub(crate) fn at_input(
    alloc: Global,
    flow: &Name,
    step: &Name,
    port: &Name,
) -> Result<Spot, NoMemory>
    ensures { IfOk result (λ s. spot_view s ≡ at_input flow.now step.now port.now) }
{
    let flow = flow.copy(alloc)?;
    let step = step.copy(alloc)?;
    let port = port.copy(alloc)?;
    Ok(Spot::Input { flow, step, port })
}

pub(crate) fn at_activity(
    alloc: Global,
    flow: &Name,
    step: &Name,
    position: u32,
) -> Result<Spot, NoMemory>
    ensures { IfOk result (λ s. spot_view s ≡ at_activity flow.now step.now position) }
{
    let flow = flow.copy(alloc)?;
    let step = step.copy(alloc)?;
    Ok(Spot::Activity {
        flow,
        step,
        position,
    })
}

pub(crate) fn at_after(
    alloc: Global,
    flow: &Name,
    step: &Name,
    position: u32,
) -> Result<Spot, NoMemory>
    ensures { IfOk result (λ s. spot_view s ≡ at_after flow.now step.now position) }
{
    let flow = flow.copy(alloc)?;
    let step = step.copy(alloc)?;
    Ok(Spot::After {
        flow,
        step,
        position,
    })
}

pub(crate) fn at_loop(alloc: Global, flow: &Name, step: &Name) -> Result<Spot, NoMemory>
    ensures { IfOk result (λ s. spot_view s ≡ at_loop flow.now step.now) }
{
    let flow = flow.copy(alloc)?;
    let step = step.copy(alloc)?;
    Ok(Spot::Loop { flow, step })
}

pub(crate) fn at_flow_output(alloc: Global, flow: &Name, port: &Name) -> Result<Spot, NoMemory>
    ensures { IfOk result (λ s. spot_view s ≡ at_flow_output flow.now port.now) }
{
    let flow = flow.copy(alloc)?;
    let port = port.copy(alloc)?;
    Ok(Spot::FlowOutput { flow, port })
}

pub(crate) fn at_given(alloc: Global, port: &Name) -> Result<Spot, NoMemory>
    ensures { IfOk result (λ s. spot_view s ≡ at_given port.now) }
{
    let port = port.copy(alloc)?;
    Ok(Spot::Given { port })
}
