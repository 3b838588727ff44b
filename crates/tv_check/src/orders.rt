//! The order in which the steps of each flow are gone through.
ghost use Rattle.std.specs.Prelude.{◌≡◌, IfOk, true};
ghost use Rattle.std.specs.List.{list_all};
ghost use Rattle.tv_flow.specs.DocumentViews.{document_view};
ghost use Rattle.tv_check.specs.Plannable.{AreByRank};
ghost use Rattle.tv_check.specs.NamedGraphs.{links_inside};

use crate::cycles::steps_by_rank;
use std::alloc::Global;
use tv_flow::Document;
use tv_value::NoMemory;

/// For each flow the numbers of its steps, by rank. Near linear in steps and links.
pub(crate) fn orders_of(alloc: Global, document: &Document) -> Result<Vec<Vec<u32>>, NoMemory>
    requires { list_all (λ f. links_inside f.1) (document_view document.now).flows ≡ true }
    ensures { IfOk result (λ os. AreByRank (document_view document.now).flows os.items) }
{
    let flows = document.flows.as_slice();
    let mut orders = Vec::with_capacity(alloc, flows.len())?;
    for entry in flows {
        orders.push(steps_by_rank(alloc, &entry.1)?)?;
    }
    Ok(orders)
}
