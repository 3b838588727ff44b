//! What is looked up of the document: of each step of each flow the tries, and the flow that its
//! jobs open; of each flow the tables that its instances share.
ghost use Rattle.std.specs.Prelude.{◌≡◌, IfOk, Some, map};
ghost use Rattle.tv_flow.specs.Flows.{Document};
ghost use Rattle.tv_flow.specs.Views.{activity_view, flow_view, step_view};
ghost use Rattle.tv_check.specs.RunViews.{run_view};
ghost use Rattle.tv_dispatch.specs.Plans.{kind_of};
ghost use Rattle.tv_model.specs.Opening.{first_nested};
ghost use Rattle.tv_run.specs.Looks.{AreFlowsOf, AreLooks, AreStepLooks, IsLook, OpensNumber, tries_of};

use std::alloc::Global;
use tv_check::{CheckedRun, FlowPlan};
use tv_dispatch::{Kind, Kinds, Plan};
use tv_flow::{Activity, Flows, Step};
use tv_frame::FlowTables;
use tv_naming::number_of;
use tv_value::{Name, NoMemory, Sequence};

/// What a run looks up of a step.
#[derive(Drop)]
pub(crate) struct StepLook {
    pub(crate) tries: Plan,
    // The number of the flow that its jobs open: that of the first activity that is a flow.
    pub(crate) opens: Option<u32>,
}

/// What a run looks up of a flow: of its steps, and what its instances share.
#[derive(Drop)]
pub(crate) struct FlowLook {
    pub(crate) steps: Vec<StepLook>,
    pub(crate) tables: FlowTables,
}

fn kind_of(activity: &Activity) -> Kind
    ensures { result ≡ kind_of (activity_view activity.now) }
{
    match activity {
        Activity::Service(_) => Kind::Service,
        Activity::Nested(_) => Kind::Nested,
    }
}

fn kinds_of(alloc: Global, activities: &[Activity]) -> Result<Kinds, NoMemory>
    ensures { IfOk result (λ ks. ks ≡ map kind_of (map activity_view activities.now)) }
{
    let mut kinds = Vec::with_capacity(alloc, activities.len())?;
    for activity in activities {
        kinds.push(kind_of(activity))?;
    }
    Ok(Sequence::of(kinds))
}

/// The tries of a step: the kinds of its activities, and how often a service is tried again.
fn tries_of(alloc: Global, step: &Step) -> Result<Plan, NoMemory>
    ensures { IfOk result (λ p. p ≡ tries_of (step_view step.now)) }
{
    Ok(Plan {
        activities: kinds_of(alloc, step.activities.as_slice())?,
        retries: step.retries,
    })
}

/// The number of the flow that the first activity opens that is a flow.
fn opened_by(flows: &Flows, activities: &[Activity]) -> Option<u32>
    requires { (d : Document) × AreFlowsOf d flows.now }
    ensures { (d : Document) → AreFlowsOf d flows.now
        → OpensNumber d (first_nested (map activity_view activities.now)) result }
{
    for activity in activities {
        if let Activity::Nested(name) = activity {
            return flow_number(flows, name);
        }
    }
    None
}

fn flow_number(flows: &Flows, name: &Name) -> Option<u32>
    requires { (d : Document) × AreFlowsOf d flows.now }
    ensures { (d : Document) → AreFlowsOf d flows.now → OpensNumber d (Some name.now) result }
{
    match number_of(flows, name) {
        Some(number) => Some(number as u32),
        None => None,
    }
}

fn steps_of(alloc: Global, flows: &Flows, plan: &FlowPlan) -> Result<Vec<StepLook>, NoMemory>
    requires { (d : Document) × AreFlowsOf d flows.now }
    ensures { IfOk result (λ ls. (d : Document) → AreFlowsOf d flows.now
        → AreStepLooks d (flow_view plan.now.flow) ls.items) }
{
    let steps = plan.flow.steps.as_slice();
    let mut looks = Vec::with_capacity(alloc, steps.len())?;
    for step in steps {
        looks.push(StepLook {
            tries: tries_of(alloc, &step.1)?,
            opens: opened_by(flows, step.1.activities.as_slice()),
        })?;
    }
    Ok(looks)
}

fn look_of(alloc: Global, flows: &Flows, plan: &FlowPlan) -> Result<FlowLook, NoMemory>
    requires { (d : Document) × AreFlowsOf d flows.now }
    ensures { IfOk result (λ l. (d : Document) → AreFlowsOf d flows.now
        → IsLook d (flow_view plan.now.flow) l) }
{
    Ok(FlowLook {
        steps: steps_of(alloc, flows, plan)?,
        tables: FlowTables::start(alloc, plan)?,
    })
}

/// What is looked up of each flow, in the order of the flows. Linear in the flows, with a look-up
/// for each step that opens one, and one for each leaf of a strategy. The flows' constants are
/// copied.
pub(crate) fn looks_of(alloc: Global, run: &CheckedRun) -> Result<Vec<FlowLook>, NoMemory>
    ensures { IfOk result (λ ls. AreLooks (run_view run.now) ls.items) }
{
    let flows = &run.document().flows;
    let mut looks = Vec::with_capacity(alloc, run.flows() as usize)?;
    for number in 0..run.flows() {
        looks.push(look_of(alloc, flows, run.flow(number))?)?;
    }
    Ok(looks)
}
