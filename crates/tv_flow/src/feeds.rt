//! What feeds ports, and the input ports of steps.
ghost use Rattle.std.specs.Prelude.{◌≡◌, IfOk, true};
ghost use Rattle.serde_json.specs.View.{view as json_view};
ghost use Rattle.tv_flow.specs.Flows as spec;
ghost use Rattle.tv_flow.specs.PathViews.{at_view};
ghost use Rattle.tv_flow.specs.Views.{link_view, feed_view, step_input_view};
ghost use Rattle.tv_flow.specs.Answers.{IsForm};
ghost use Rattle.tv_flow.specs.Formed.{is_link, is_feed, is_step_input};
ghost use Rattle.tv_flow.specs.Forms.{input_link, output_link, link_form, link_feed, merge_feed, constant_feed, feed_form, step_input_form};

use crate::at::At;
use crate::document::{Feed, Link, StepInput};
use crate::faults::FormFault;
use crate::formed::Formed;
use crate::objects::{fields, has, required, required_array};
use serde_json::Value as Json;
use std::alloc::Global;

impl Formed for Link {
    ghost Seen = { spec.Link };

    ghost seen = { link_view };

    ghost form = { λ _. link_form };

    ghost keeps = { is_link };

    ghost fits = { λ _ _. true };

    fn formed(alloc: Global, at: &At<'_>, json: &Json, format: u32) -> Result<Link, FormFault> {
        if has(json, "input") {
            input_link(alloc, at, json, format)
        } else if has(json, "step") {
            output_link(alloc, at, json, format)
        } else {
            input_link(alloc, at, json, format)
        }
    }
}

fn input_link(alloc: Global, at: &At<'_>, json: &Json, format: u32) -> Result<Link, FormFault>
    ensures read { IsForm link_view result (input_link (at_view at.now) (json_view json.now)) }
    ensures kept { IfOk result (λ l. is_link (link_view l) ≡ true) }
{
    fields(alloc, at, json, &["input"])?;
    let input = required(alloc, at, json, "input", format)?;
    Ok(Link::Input(input))
}

fn output_link(alloc: Global, at: &At<'_>, json: &Json, format: u32) -> Result<Link, FormFault>
    ensures read { IsForm link_view result (output_link (at_view at.now) (json_view json.now)) }
    ensures kept { IfOk result (λ l. is_link (link_view l) ≡ true) }
{
    fields(alloc, at, json, &["step", "port"])?;
    let step = required(alloc, at, json, "step", format)?;
    let port = required(alloc, at, json, "port", format)?;
    Ok(Link::Output(step, port))
}

impl Formed for Feed {
    ghost Seen = { spec.Feed };

    ghost seen = { feed_view };

    ghost form = { λ _. feed_form };

    ghost keeps = { is_feed };

    ghost fits = { λ _ _. true };

    fn formed(alloc: Global, at: &At<'_>, json: &Json, format: u32) -> Result<Feed, FormFault> {
        if has(json, "input") || has(json, "step") {
            link_feed(alloc, at, json, format)
        } else if has(json, "merge") {
            merge_feed(alloc, at, json, format)
        } else if has(json, "constant") {
            constant_feed(alloc, at, json, format)
        } else {
            link_feed(alloc, at, json, format)
        }
    }
}

fn link_feed(alloc: Global, at: &At<'_>, json: &Json, format: u32) -> Result<Feed, FormFault>
    ensures read { IsForm feed_view result (link_feed (at_view at.now) (json_view json.now)) }
    ensures kept { IfOk result (λ f. is_feed (feed_view f) ≡ true) }
{
    let link = Link::formed(alloc, at, json, format)?;
    match link {
        Link::Input(input) => Ok(Feed::Input(input)),
        Link::Output(step, port) => Ok(Feed::Output(step, port)),
    }
}

fn merge_feed(alloc: Global, at: &At<'_>, json: &Json, format: u32) -> Result<Feed, FormFault>
    ensures read { IsForm feed_view result (merge_feed (at_view at.now) (json_view json.now)) }
    ensures kept { IfOk result (λ f. is_feed (feed_view f) ≡ true) }
{
    fields(alloc, at, json, &["merge"])?;
    let links = required_array(alloc, at, json, "merge", 1, 16, format)?;
    Ok(Feed::Merge(links))
}

fn constant_feed(alloc: Global, at: &At<'_>, json: &Json, format: u32) -> Result<Feed, FormFault>
    ensures read { IsForm feed_view result (constant_feed (at_view at.now) (json_view json.now)) }
    ensures kept { IfOk result (λ f. is_feed (feed_view f) ≡ true) }
{
    fields(alloc, at, json, &["constant"])?;
    let value = required(alloc, at, json, "constant", format)?;
    Ok(Feed::Constant(value))
}

impl Formed for StepInput {
    ghost Seen = { spec.StepInput };

    ghost seen = { step_input_view };

    ghost form = { λ _. step_input_form };

    ghost keeps = { is_step_input };

    ghost fits = { λ _ _. true };

    fn formed(
        alloc: Global,
        at: &At<'_>,
        json: &Json,
        format: u32,
    ) -> Result<StepInput, FormFault> {
        fields(alloc, at, json, &["depth", "from"])?;
        let depth = required(alloc, at, json, "depth", format)?;
        let from = required(alloc, at, json, "from", format)?;
        Ok(StepInput { depth, from })
    }
}
