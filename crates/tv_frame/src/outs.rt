//! The flow's outputs as they will be once an event has happened.
ghost use Rattle.std.specs.Prelude.{◌≡◌, ◌≤◌, ℕ, List, [], length, IfOk};
ghost use Rattle.tv_value.specs.Values.{Name};
ghost use Rattle.tv_flow.specs.Flows.{Flow, Step};
ghost use Rattle.tv_cell.specs.PieceValues.{piece_values};
ghost use Rattle.tv_cell.specs.Soundness.{AreSound};
ghost use Rattle.tv_model.specs.instance.Events.{Event as TheEvent};
ghost use Rattle.tv_framing.specs.Answers.{AreOutputs};
ghost use Rattle.tv_framing.specs.Frames.{with_event};
ghost use Rattle.tv_framing.specs.Views.{View};
ghost use Rattle.tv_frame.specs.Kept.{Keeps};
ghost use Rattle.tv_frame.specs.Outs.{AllAreWhole, HasAsMany, IsBrought};
ghost use Rattle.tv_frame.specs.Prepared.{IsLaidOver};

use crate::frame::Frame;
use tv_binding::{Brought, Over as Coming, flow_outputs_over};
use tv_cell::{Piece, Pieces};
use tv_check::FlowPlan;
use tv_outputs::Nodes;
use tv_value::{NoMemory, Place};

/// What an event brings to the trees of its step.
#[derive(Clone, Copy)]
pub(crate) enum Change<'a> {
    /// These pieces arrive, one in each tree.
    Arrive(&'a [Piece]),
    /// The list is closed with this length.
    Close(u32),
}

/// An event of a step that isn't in the trees yet.
#[derive(Clone, Copy)]
pub(crate) struct Over<'a> {
    pub(crate) step: u32,
    pub(crate) place: &'a Place,
    pub(crate) change: Change<'a>,
}

impl Frame {
    /// The flow's outputs, where all steps are whole with the event. No tree is changed, and no value is copied. They stand in
    /// the memory of `room`, which is empty.
    pub(crate) fn outs_with(
        &self,
        plan: &FlowPlan,
        pool: &Nodes,
        over: &Over,
        room: Vec<Piece>,
    ) -> Result<Pieces, NoMemory>
        requires room { room.items ≡ [] }
        requires over { (flows : List (Name × Flow)) × (v : View) × (s : Name × Step)
            × (e : TheEvent)
            × (from : ℕ) × Keeps flows plan.now pool.now self.now v
            × IsLaidOver flows v s e over.now from × AllAreWhole (with_event v e []) }
        ensures sound { IfOk result AreSound }
        ensures outputs { IfOk result (λ ps. (flows : List (Name × Flow)) (v : View)
            (s : Name × Step) (e : TheEvent) (from : ℕ)
            → Keeps flows plan.now pool.now self.now v → IsLaidOver flows v s e over.now from
            → AllAreWhole (with_event v e []) → AreOutputs (with_event v e []) (piece_values ps)) }
    {
        let step = &plan.flow.steps.as_slice()[over.step as usize].1;
        let outputs = step.outputs.as_slice().len();
        let brought = brought_by(over.change, outputs);
        let coming = Coming {
            step: over.step,
            outputs: outputs as u32,
            place: over.place,
            brought,
        };
        flow_outputs_over(
            self.alloc,
            &self.sources(pool),
            self.tables.constants(),
            plan.wiring.outputs.as_slice(),
            &coming,
            room,
        )
    }
}

/// What is brought to so many outputs.
fn brought_by(change: Change, outputs: usize) -> Brought
    requires { HasAsMany change outputs }
    ensures { IsBrought change.entry outputs result }
{
    match change {
        Change::Arrive(pieces) => Brought::Arrived(&pieces[..outputs]),
        Change::Close(length) => Brought::Closed(length),
    }
}
