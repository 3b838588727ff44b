//! Flows.
ghost use Rattle.std.specs.Prelude.{◌≡◌, IfOk, true, [], None};
ghost use Rattle.serde_json.specs.View.{view as json_view};
ghost use Rattle.tv_flow.specs.Flows as spec;
ghost use Rattle.tv_flow.specs.PathViews.{at_view};
ghost use Rattle.tv_flow.specs.Views.{flow_view};
ghost use Rattle.tv_flow.specs.Answers.{IsForm};
ghost use Rattle.tv_flow.specs.Formed.{is_flow, flow_fits};
ghost use Rattle.tv_flow.specs.Forms.{flow_form};

use crate::at::At;
use crate::document::Flow;
use crate::faults::FormFault;
use crate::formed::Formed;
use crate::objects::{fields, optional_named, required_named};
use crate::steps::optional_depths;
use serde_json::Value as Json;
use std::alloc::Global;

impl Formed for Flow {
    ghost Seen = { spec.Flow };

    ghost seen = { flow_view };

    ghost form = { flow_form };

    ghost keeps = { is_flow };

    ghost fits = { flow_fits };

    fn formed(alloc: Global, at: &At<'_>, json: &Json, format: u32) -> Result<Flow, FormFault> {
        fields(alloc, at, json, &["inputs", "steps", "outputs"])?;
        let inputs = optional_depths(alloc, at, json, "inputs", format)?;
        let steps = optional_named(alloc, at, json, "steps", 1000, format)?;
        let outputs = required_named(alloc, at, json, "outputs", 0, 16, format)?;
        Ok(Flow {
            inputs,
            steps,
            outputs,
        })
    }
}
