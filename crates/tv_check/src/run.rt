//! Documents that were checked.
ghost use Rattle.std.specs.Prelude.{map};
ghost use Rattle.tv_flow.specs.DocumentViews.{document_view};
ghost use Rattle.tv_check.specs.FlowPlanViews.{flow_plan_view, IsChecked, IsChecked-prop};

use crate::plans::FlowPlans;
use tv_flow::Document;

/// A document that the check accepted, with the plans of its flows.
#[derive(Drop)]
pub struct CheckedRun {
    pub(crate) document: Document,
    pub(crate) main: u32,
    pub(crate) plans: FlowPlans,
    pub ghost kept: { IsChecked (document_view document) main
        (map flow_plan_view plans) } by { IsChecked-prop (document_view document) main
            (map flow_plan_view plans) },
}
