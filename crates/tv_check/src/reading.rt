//! What a checked document tells.
ghost use Rattle.std.specs.Prelude.{◌≡◌, ◌<◌, length, slice_get, Some};
ghost use Rattle.tv_flow.specs.DocumentViews.{document_view};
ghost use Rattle.tv_check.specs.Plans.{IsAccepted, flow_plans};
ghost use Rattle.tv_naming.specs.Numbers.{position};
ghost use Rattle.tv_check.specs.FlowPlanViews.{flow_plan_view};
ghost use Rattle.tv_check.specs.RunViews.{run_view};

use crate::plans::FlowPlan;
use crate::run::CheckedRun;
use tv_flow::Document;

impl CheckedRun {
    /// The document. Takes no memory.
    pub fn document(&self) -> &Document
        ensures view { document_view result.now ≡ run_view self.now }
        ensures accepted { IsAccepted (run_view self.now) }
    {
        &self.document
    }

    /// The number of flows. Takes no memory.
    pub fn flows(&self) -> u32
        ensures { result ≡ length (run_view self.now).flows }
    {
        self.plans.as_slice().len() as u32
    }

    /// The number of the main flow. Takes no memory.
    pub fn main(&self) -> u32
        ensures position { result ≡ position (run_view self.now).main (run_view self.now).flows }
        ensures below { result < length (run_view self.now).flows }
    {
        self.main
    }

    /// The plan of the flow of a number, in the order of the document. Takes no memory.
    pub fn flow(&self, number: u32) -> &FlowPlan
        requires { number < length (run_view self.now).flows }
        ensures { slice_get (flow_plans (run_view self.now)) number
            ≡ Some (flow_plan_view result.now) }
    {
        &self.plans.as_slice()[number as usize]
    }
}
