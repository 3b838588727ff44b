//! What the check works out for each step and flow.
ghost use Rattle.std.specs.Prelude.{map};
ghost use Rattle.tv_flow.specs.Views.{flow_view};
ghost use Rattle.tv_check.specs.PlanViews.{step_plan_view, IsFlowPlan, IsFlowPlan-prop};

use crate::Wiring;
use tv_flow::Flow;
use tv_value::{Depths, Sequence, Tree};

/// The plans of a document's flows, in the order of the flows.
pub type FlowPlans = Sequence<FlowPlan>;

/// The plans of a flow's steps, in the order of the steps.
pub type StepPlans = Sequence<StepPlan>;

/// What the check worked out for a step.
#[derive(Drop)]
pub struct StepPlan {
    /// The position of the step in the order in which steps are taken: again and again the least name of those whose
    /// feeding steps and steps to run after are all taken.
    pub rank: u32,
    /// Its strategy, with the default cross written out.
    pub tree: Tree,
    /// The depth of its strategy.
    pub depth: u32,
    /// The depth that each input port is delivered, before any wrapping.
    pub delivered: Depths,
    /// The levels that each input port iterates.
    pub mismatch: Depths,
}

/// What the check worked out for a flow: it is the plan of its flow, which stands in an accepted document.
#[derive(Drop)]
pub struct FlowPlan {
    /// The flow as the document has it.
    pub flow: Flow,
    /// A plan for each step.
    pub steps: StepPlans,
    /// The depth that each output is delivered.
    pub outputs: Depths,
    /// What feeds each port and each output, and which ports and steps wait for each step, by numbers.
    pub wiring: Wiring,
    pub ghost kept: { IsFlowPlan
        (record {
          flow = flow_view flow;
          steps = map step_plan_view steps;
          outputs = outputs;
          wiring = wiring;
        }) } by { IsFlowPlan-prop
            (record {
              flow = flow_view flow;
              steps = map step_plan_view steps;
              outputs = outputs;
              wiring = wiring;
            }) },
}
