//! Documents that passed the check, with their plans.
ghost use Rattle.std.specs.Prelude.{◌≡◌, ◌<◌, IfOk, true, map, length};
ghost use Rattle.tv_flow.specs.DocumentViews.{document_view};
ghost use Rattle.tv_flow.specs.Views.{flow_view};
ghost use Rattle.tv_check.specs.FlowPlanViews.{flow_plan_view};
ghost use Rattle.tv_naming.specs.Naming.{has_name};
ghost use Rattle.tv_check.specs.Plannable.{IsToPlan, IsPlannable};
ghost use Rattle.tv_check.specs.Plans.{flow_plan, flow_plans};
ghost use Rattle.tv_naming.specs.Numbers.{position};
ghost use Rattle.tv_check.specs.RunViews.{run_view};

use crate::Measured;
use crate::cycles::ranks;
use crate::planning::flow_plan;
use crate::plans::{FlowPlan, FlowPlans};
use crate::run::CheckedRun;
use std::alloc::Global;
use tv_flow::{Document, Flow};
use tv_naming::number_of;
use tv_value::{NoMemory, Sequence};

/// The document with its plans. Linear in it, with a look-up for each link.
pub(crate) fn checked_run(
    alloc: Global,
    document: Document,
    orders: &[Vec<u32>],
    measured: &[Option<Measured>],
) -> Result<CheckedRun, NoMemory>
    requires { IsPlannable (document_view document) orders.now measured.now }
    ensures { IfOk result (λ r. run_view r ≡ document_view document) }
{
    let plans = plans_of(alloc, &document, orders, measured)?;
    let main = main_number(&document);
    Ok(CheckedRun {
        document,
        main,
        plans,
    })
}

fn main_number(document: &Document) -> u32
    requires { has_name (document_view document.now).flows (document_view document.now).main
        ≡ true }
    ensures position { result
        ≡ position (document_view document.now).main (document_view document.now).flows }
    ensures below { result < length (document_view document.now).flows }
{
    match number_of(&document.flows, &document.main) {
        Some(number) => number as u32,
        None => unreachable!(),
    }
}

fn plans_of(
    alloc: Global,
    document: &Document,
    orders: &[Vec<u32>],
    measured: &[Option<Measured>],
) -> Result<FlowPlans, NoMemory>
    requires { IsPlannable (document_view document.now) orders.now measured.now }
    ensures { IfOk result (λ ps. map flow_plan_view ps ≡ flow_plans (document_view document.now)) }
{
    let flows = document.flows.as_slice();
    let mut plans = Vec::with_capacity(alloc, flows.len())?;
    for (number, entry) in flows.iter().enumerate() {
        let order = orders[number].as_slice();
        plans.push(plan_of(alloc, &entry.1, order, &measured[number])?)?;
    }
    Ok(Sequence::of(plans))
}

fn plan_of(
    alloc: Global,
    flow: &Flow,
    order: &[u32],
    measured: &Option<Measured>,
) -> Result<FlowPlan, NoMemory>
    requires { IsToPlan (flow_view flow.now) order.now measured.now }
    ensures { IfOk result (λ p. flow_plan_view p ≡ flow_plan (flow_view flow.now)) }
{
    match measured {
        Some(measured) => {
            let ranks = ranks(alloc, flow, order)?;
            flow_plan(alloc, flow, ranks.as_slice(), measured)
        }
        None => unreachable!(),
    }
}
