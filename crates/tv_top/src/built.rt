//! What a run isn't built for yet: loops.
ghost use Rattle.std.specs.Prelude.{◌≡◌, not, is_some};
ghost use Rattle.std.specs.List.{list_all};
ghost use Rattle.tv_flow.specs.DocumentViews.{document_view};
ghost use Rattle.tv_flow.specs.Views.{flow_view};
ghost use Rattle.tv_top.specs.Built.{is_built, is_built_flow};

use tv_flow::{Document, Flow, Step};
use tv_value::Name;

/// Whether no step of a document has a loop. Linear in its steps. Takes no memory.
pub(crate) fn is_built(document: &Document) -> bool
    ensures { result ≡ is_built (document_view document.now) }
{
    are_built(document.flows.as_slice())
}

fn are_built(flows: &[(Name, Flow)]) -> bool
    ensures { result ≡ list_all (λ f. is_built_flow (flow_view f.1)) flows.now }
{
    flows.iter().all(|flow| is_built_flow(&flow.1))
}

fn is_built_flow(flow: &Flow) -> bool
    ensures { result ≡ is_built_flow (flow_view flow.now) }
{
    have_no_loop(flow.steps.as_slice())
}

fn have_no_loop(steps: &[(Name, Step)]) -> bool
    ensures { result ≡ list_all (λ s. not (is_some s.1.repeat)) steps.now }
{
    steps.iter().all(|step| step.1.repeat.is_none())
}
