//! The list or passed fault that waits last, as it is kept.
ghost use Rattle.std.specs.Prelude.{ℕ, List, IfOk};
ghost use Rattle.tv_value.specs.Values.{Name};
ghost use Rattle.tv_flow.specs.Flows.{Flow, Step};
ghost use Rattle.tv_check.specs.declared.plans.FlowPlan.{FlowPlan};
ghost use Rattle.tv_outputs.specs.Known.{Nodes};
ghost use Rattle.tv_model.specs.instance.Events.{Event};
ghost use Rattle.tv_framing.specs.Views.{View};
ghost use Rattle.tv_frame.specs.Views.{level_view, what_view};
ghost use Rattle.tv_frame.specs.Calls.{IsReadyToSettle};
ghost use Rattle.tv_frame.specs.LastLevels.{IsLevelOf, IsListOrFault, IsWhat};

use crate::frame::Frame;
use crate::{Level, What};
use tv_cell::Path;
use tv_match::Kind;
use tv_value::NoMemory;

impl Frame {
    /// What `settle` is going to settle, as it is kept: the place with the length of the list, or
    /// with the leaf that the passed fault came from.
    pub fn last_level(&self) -> Result<Level, NoMemory>
        requires ready { (flows : List (Name × Flow)) × (plan : FlowPlan) × (pool : Nodes)
            × (v : View) × (n : ℕ) × (s : Name × Step) × (e : Event)
            × IsReadyToSettle flows plan pool self.now v n s e }
        ensures { IfOk result (λ l. (flows : List (Name × Flow)) (plan : FlowPlan) (pool : Nodes)
            (v : View) (n : ℕ) (s : Name × Step) (e : Event)
            → IsReadyToSettle flows plan pool self.now v n s e
            → IsLevelOf v n s e (level_view l)) }
    {
        let (step, place, kind) = self.intakes.waiting_at(self.intakes.waiting() - 1);
        let what = what_of(kind);
        let place = Path::of(self.alloc, place)?;
        Ok(Level { step, place, what })
    }
}

fn what_of(kind: Kind) -> What
    requires { IsListOrFault kind }
    ensures { IsWhat kind (what_view result) }
{
    match kind {
        Kind::Closed(length) => What::Closed(length),
        Kind::Passed(leaf) => What::Passed(leaf),
        Kind::Job { .. } => unreachable!(),
    }
}
