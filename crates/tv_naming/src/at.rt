//! Places in a document while it is checked.
ghost use Rattle.std.specs.Prelude.{◌≡◌, [], ◌∷◌, IfOk, Err};
ghost use Rattle.tv_naming.specs.Faulty.{with_numbers, CheckComplaint};
ghost use Rattle.tv_naming.specs.FaultViews.{kind_view, spot_view, fault_view};
ghost use Rattle.tv_naming.specs.AtViews.{at_view};
ghost use Rattle.tv_naming.specs.Told.{StopsAt};

use crate::faults::{CheckFault, CheckKind, CheckRefused, Spot};
use std::alloc::Global;
use tv_value::{Copied, Name, NoMemory};

/// A place of which a spot is made only for a fault: flow, step and port, or the position of an activity.
#[derive(Clone, Copy)]
pub enum At<'a> {
    Step(&'a Name, &'a Name),
    Input(&'a Name, &'a Name, &'a Name),
    Output(&'a Name, &'a Name, &'a Name),
    Activity(&'a Name, &'a Name, u32),
    Loop(&'a Name, &'a Name),
    FlowOutput(&'a Name, &'a Name),
}

impl At<'_> {
    /// The place with names of its own.
    fn spot(self, alloc: Global) -> Result<Spot, NoMemory>
        ensures { IfOk result (λ s. spot_view s ≡ at_view self.entry) }
    {
        match self {
            At::Step(flow, step) => Ok(Spot::Step {
                flow: flow.copy(alloc)?,
                step: step.copy(alloc)?,
            }),
            At::Input(flow, step, port) => Ok(Spot::Input {
                flow: flow.copy(alloc)?,
                step: step.copy(alloc)?,
                port: port.copy(alloc)?,
            }),
            At::Output(flow, step, port) => Ok(Spot::Output {
                flow: flow.copy(alloc)?,
                step: step.copy(alloc)?,
                port: port.copy(alloc)?,
            }),
            At::Activity(flow, step, position) => Ok(Spot::Activity {
                flow: flow.copy(alloc)?,
                step: step.copy(alloc)?,
                position,
            }),
            At::Loop(flow, step) => Ok(Spot::Loop {
                flow: flow.copy(alloc)?,
                step: step.copy(alloc)?,
            }),
            At::FlowOutput(flow, port) => Ok(Spot::FlowOutput {
                flow: flow.copy(alloc)?,
                port: port.copy(alloc)?,
            }),
        }
    }

    /// The fault of this kind here, with its two numbers.
    pub fn refused(self, alloc: Global, kind: CheckKind, first: u32, second: u32) -> CheckRefused
        ensures { StopsAt (with_numbers (kind_view kind) (at_view self.entry) first second ∷ [])
            result }
    {
        match self.spot(alloc) {
            Ok(spot) => CheckRefused::Check(CheckFault {
                kind,
                spot,
                first,
                second,
            }),
            Err(NoMemory) => CheckRefused::NoMemory,
        }
    }
}
