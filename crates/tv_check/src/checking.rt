//! The check of a document, pass after pass.
ghost use Rattle.std.specs.Prelude.{◌≡◌, ◌++◌, IfOk, List, [], option_map};
ghost use Rattle.tv_flow.specs.DocumentViews.{document_view};
ghost use Rattle.tv_check.specs.Answered.{IsCheckOf};
ghost use Rattle.tv_check.specs.Cycles.{nestings, cycle_complaints, nesting_complaints, link_cycle_complaints};
ghost use Rattle.tv_naming.specs.Faulty.{CheckComplaint, first_of};
ghost use Rattle.tv_naming.specs.FaultViews.{fault_view};
ghost use Rattle.tv_naming.specs.Naming.{naming_complaints};
ghost use Rattle.tv_check.specs.Passes.{checked};
ghost use Rattle.tv_naming.specs.Told.{IsToldOf};

use crate::accepted::checked_run;
use crate::cycles::{flow_cycle_fault, link_cycle_fault, nesting_fault, nestings};
use crate::document_measured;
use crate::orders::orders_of;
use crate::run::CheckedRun;
use std::alloc::Global;
use tv_flow::Document;
use tv_gate::Services;
use tv_naming::{CheckFault, CheckRefused, given_fault, naming_fault};

/// The document with the plans of its flows, or the first complaint of the check for the services of a type.
///
/// The cost of an accepted document is near linear in it, with a look-up for each name. A refused one costs the passes up
/// to the one that complains, in this order, and nothing of those after it:
///
/// - names: linear up to the complaint, with a look-up for each name;
/// - flows that nest in themselves, and then those that nest too deep: a look-up for each activity of the document, and
///   time near linear in flows and activities, wherever the flow stands that is complained of;
/// - steps that come before themselves, flow by flow: a look-up for each link, and time near linear in the steps and links
///   of each flow up to the one complained of;
/// - depths: the order of all flows' steps, near linear in steps and links, and then linear up to the complaint, with a
///   look-up for each link, and up to 8 passes over the list of flows;
/// - values given: linear in the values, with a look-up for each.
pub fn check<V: Services>(alloc: Global, document: Document) -> Result<CheckedRun, CheckRefused>
    ensures { IsCheckOf (checked V.knows (document_view document)) (document_view document) result }
{
    let levels = names_and_links::<V>(alloc, &document)?;
    let orders = orders_of(alloc, &document)?;
    let measured = document_measured(alloc, &document, orders.as_slice(), levels.as_slice())?;
    told(given_fault(alloc, &document)?)?;
    let run = checked_run(alloc, document, orders.as_slice(), measured.as_slice())?;
    Ok(run)
}

/// What is said of names, of flows that nest in themselves or too deep, and of steps that come before themselves, else the
/// nesting of each flow.
fn names_and_links<V: Services>(
    alloc: Global,
    document: &Document,
) -> Result<Vec<u32>, CheckRefused>
    ensures told { IsToldOf (naming_complaints V.knows (document_view document.now)
        ++ cycle_complaints (document_view document.now)
        ++ nesting_complaints (document_view document.now)
        ++ link_cycle_complaints (document_view document.now)) result }
    ensures levels { IfOk result (λ ns. ns.items ≡ nestings (document_view document.now)) }
{
    told(naming_fault::<V>(alloc, document)?)?;
    told(flow_cycle_fault(alloc, document)?)?;
    let levels = nestings(alloc, document)?;
    told(nesting_fault(alloc, document, levels.as_slice())?)?;
    told(link_cycle_fault(alloc, document)?)?;
    Ok(levels)
}

/// The refusal for a pass that found a fault.
fn told(fault: Option<CheckFault>) -> Result<(), CheckRefused>
    ensures { (cs : List CheckComplaint) → option_map fault_view fault ≡ first_of cs
        → IsToldOf cs result }
{
    match fault {
        Some(fault) => Err(CheckRefused::Check(fault)),
        None => Ok(()),
    }
}
