//! Activities and steps.
ghost use Rattle.std.specs.Prelude.{◌≡◌, IfOk, true, [], None, option_map};
ghost use Rattle.serde_json.specs.View.{view as json_view};
ghost use Rattle.tv_value.specs.Activities as activities;
ghost use Rattle.tv_value.specs.Views.{strategy_view};
ghost use Rattle.tv_flow.specs.Flows as spec;
ghost use Rattle.tv_flow.specs.PathViews.{at_view};
ghost use Rattle.tv_flow.specs.Views.{activity_view, repeat_view, step_view};
ghost use Rattle.tv_flow.specs.Answers.{IsForm};
ghost use Rattle.tv_flow.specs.Formed.{is_activity, is_step, is_depth, is_given_tree, is_given_loop, is_repeat, given_tree_fits, loop_fits, step_fits, are_named, are_names};
ghost use Rattle.tv_flow.specs.Forms.{service_activity, nested_activity, activity_form, step_form, optional, named_form, depth_form, given_tree, names_form, is_second, given_loop, loop_form, repeat_form, fields_form, step_fields};

use crate::at::At;
use crate::document::{Activity, Repeat, Step};
use crate::faults::FormFault;
use crate::formed::Formed;
use crate::names::names;
use crate::objects::{
    fields, has, optional_named, optional_number, required, required_array, required_number,
    required_text,
};
use crate::trees::tree;
use serde_json::Value as Json;
use std::alloc::Global;
use tv_value::{Depths, Names, Sequence, Tree};

impl Formed for Activity {
    ghost Seen = { activities.Activity };

    ghost seen = { activity_view };

    ghost form = { λ _. activity_form };

    ghost keeps = { is_activity };

    ghost fits = { λ _ _. true };

    fn formed(alloc: Global, at: &At<'_>, json: &Json, format: u32) -> Result<Activity, FormFault> {
        if has(json, "service") {
            service_activity(alloc, at, json, format)
        } else if has(json, "flow") {
            nested_activity(alloc, at, json, format)
        } else {
            service_activity(alloc, at, json, format)
        }
    }
}

fn service_activity(
    alloc: Global,
    at: &At<'_>,
    json: &Json,
    format: u32,
) -> Result<Activity, FormFault>
    ensures read { IsForm activity_view result (service_activity (at_view at.now)
        (json_view json.now)) }
    ensures kept { IfOk result (λ a. is_activity (activity_view a) ≡ true) }
{
    fields(alloc, at, json, &["service"])?;
    let service = required(alloc, at, json, "service", format)?;
    Ok(Activity::Service(service))
}

fn nested_activity(
    alloc: Global,
    at: &At<'_>,
    json: &Json,
    format: u32,
) -> Result<Activity, FormFault>
    ensures read { IsForm activity_view result (nested_activity (at_view at.now)
        (json_view json.now)) }
    ensures kept { IfOk result (λ a. is_activity (activity_view a) ≡ true) }
{
    fields(alloc, at, json, &["flow"])?;
    let flow = required(alloc, at, json, "flow", format)?;
    Ok(Activity::Nested(flow))
}

impl Formed for Step {
    ghost Seen = { spec.Step };

    ghost seen = { step_view };

    ghost form = { step_form };

    ghost keeps = { is_step };

    ghost fits = { step_fits };

    fn formed(alloc: Global, at: &At<'_>, json: &Json, format: u32) -> Result<Step, FormFault> {
        step_fields(alloc, at, json, format)?;
        let inputs = optional_named(alloc, at, json, "inputs", 16, format)?;
        let outputs = optional_depths(alloc, at, json, "outputs", format)?;
        let strategy = optional_tree(alloc, at, json, "strategy", format)?;
        let activities = required_array(alloc, at, json, "activities", 1, 8, format)?;
        let retries = optional_number(alloc, at, json, "retries", 0, 100, 0)?;
        let jobs = optional_number(alloc, at, json, "jobs", 1, 64, 1)?;
        let after = optional_names(alloc, at, json, "after", format)?;
        let repeat = repeat(alloc, at, json, format)?;
        Ok(Step {
            inputs,
            outputs,
            strategy,
            activities,
            retries,
            jobs,
            after,
            repeat,
        })
    }
}

/// The fields of a step: the second format has `loop` besides.
fn step_fields(alloc: Global, at: &At<'_>, json: &Json, format: u32) -> Result<(), FormFault>
    ensures { IsForm (λ u. tt) result (fields_form (step_fields format) (at_view at.now)
        (json_view json.now)) }
{
    if format == 2 {
        fields(
            alloc,
            at,
            json,
            &[
                "inputs",
                "outputs",
                "strategy",
                "activities",
                "retries",
                "jobs",
                "after",
                "loop",
            ],
        )
    } else {
        fields(
            alloc,
            at,
            json,
            &[
                "inputs",
                "outputs",
                "strategy",
                "activities",
                "retries",
                "jobs",
                "after",
            ],
        )
    }
}

/// The loop of a step, which the second format alone has, and there may be left out.
fn repeat(alloc: Global, at: &At<'_>, json: &Json, format: u32) -> Result<Option<Repeat>, FormFault>
    ensures read { IsForm (option_map repeat_view) result (repeat_form format (at_view at.now)
        (json_view json.now)) }
    ensures kept { IfOk result (λ r. is_given_loop (option_map repeat_view r) ≡ true) }
    ensures fits { IfOk result (λ r. loop_fits format (option_map repeat_view r) ≡ true) }
{
    if format == 2 {
        optional_loop(alloc, at, json, "loop", format)
    } else {
        Ok(None)
    }
}

fn optional_loop(
    alloc: Global,
    at: &At<'_>,
    json: &Json,
    key: &str,
    format: u32,
) -> Result<Option<Repeat>, FormFault>
    requires { is_second format ≡ true }
    ensures read { IsForm (option_map repeat_view) result (optional None given_loop key.now
        (at_view at.now) (json_view json.now)) }
    ensures kept { IfOk result (λ r. is_given_loop (option_map repeat_view r) ≡ true) }
    ensures fits { IfOk result (λ r. loop_fits format (option_map repeat_view r) ≡ true) }
{
    match json.get(key) {
        Some(json) => Ok(Some(looped(alloc, &At::Key(at, key), json, format)?)),
        None => Ok(None),
    }
}

fn looped(alloc: Global, at: &At<'_>, json: &Json, format: u32) -> Result<Repeat, FormFault>
    ensures read { IsForm repeat_view result (loop_form (at_view at.now) (json_view json.now)) }
    ensures kept { IfOk result (λ r. is_repeat (repeat_view r) ≡ true) }
{
    fields(alloc, at, json, &["service", "until", "most"])?;
    let service = required(alloc, at, json, "service", format)?;
    let until = required_text(alloc, at, json, "until")?;
    let most = required_number(alloc, at, json, "most", 1, 100)?;
    Ok(Repeat {
        service,
        until,
        most,
    })
}

/// At most 16 names with depths, which may be left out.
pub(crate) fn optional_depths(
    alloc: Global,
    at: &At<'_>,
    json: &Json,
    key: &str,
    format: u32,
) -> Result<Depths, FormFault>
    ensures read { IsForm (λ ds. ds) result (optional [] (named_form depth_form 0 16) key.now
        (at_view at.now) (json_view json.now)) }
    ensures kept { IfOk result (λ ds. are_named is_depth 0 16 ds ≡ true) }
{
    optional_named(alloc, at, json, key, 16, format)
}

fn optional_tree(
    alloc: Global,
    at: &At<'_>,
    json: &Json,
    key: &str,
    format: u32,
) -> Result<Option<Tree>, FormFault>
    ensures read { IsForm (option_map strategy_view) result (optional None (given_tree format)
        key.now (at_view at.now) (json_view json.now)) }
    ensures kept { IfOk result (λ t. is_given_tree (option_map strategy_view t) ≡ true) }
    ensures fits { IfOk result (λ t. given_tree_fits format (option_map strategy_view t) ≡ true) }
{
    match json.get(key) {
        Some(json) => Ok(Some(tree(alloc, json, &At::Key(at, key), format)?)),
        None => Ok(None),
    }
}

fn optional_names(
    alloc: Global,
    at: &At<'_>,
    json: &Json,
    key: &str,
    format: u32,
) -> Result<Names, FormFault>
    ensures read { IsForm (λ ns. ns) result (optional [] names_form key.now (at_view at.now)
        (json_view json.now)) }
    ensures kept { IfOk result (λ ns. are_names ns ≡ true) }
{
    match json.get(key) {
        Some(json) => names(alloc, &At::Key(at, key), json, format),
        None => Ok(Sequence::empty(alloc)),
    }
}
