//! Documents as JSON.
ghost use Rattle.std.specs.Prelude.{◌≡◌, IfOk, [], ◌∷◌, ◌++◌, None, codes, map, option_map, Ok, length, ◌≤◌};
ghost use Rattle.serde_json.specs.Data.{Data, string, number, unsigned, object, array, item, no_items};
ghost use Rattle.serde_json.specs.View.{view as json_view, items_view as json_items, members_view};
ghost use Rattle.tv_value.specs.Activities as activities;
ghost use Rattle.tv_value.specs.Printed.{members};
ghost use Rattle.tv_value.specs.Views.{strategy_view, strategies_view};
ghost use Rattle.tv_flow.specs.Flows as spec;
ghost use Rattle.tv_flow.specs.Flows.{upgraded};
ghost use Rattle.tv_flow.specs.Forms.{form_of};
ghost use Rattle.tv_flow.specs.Views.{link_view, feed_view, step_input_view, activity_view, repeat_view, step_view, flow_view, each};
ghost use Rattle.tv_flow.specs.DocumentViews.{document_view};
ghost use Rattle.tv_json.specs.Documents.{link_json, feed_json, step_input_json, activity_json, tree_json, all_trees, step_json, flow_json, document_json, only, loop_json, early_members, late_members, array_json, named_json, number_json};

use crate::printed::{Printed, array, named};
use serde_json::{Map, Value as Json, json};
use std::alloc::{AllocError, Global};
use tv_flow::{Activity, Document, Feed, Flow, Link, Repeat, Step, StepInput};
use tv_value::{Depths, Names, NoMemory, Tree, Trees};

/// The JSON tree of a document: every field of the document form, defaults included, but an absent strategy
/// and an absent loop. It reads back as the same document, where that has at most 16 inputs. Linear in the document, and in the logarithm of the number of names in each object.
pub fn json_of_document(alloc: Global, document: &Document) -> Result<Json, NoMemory>
    ensures json { IfOk result (λ j. json_view j ≡ document_json (document_view document.now)) }
    ensures reads_back { IfOk result (λ j. length document.now.inputs ≤ 16 → form_of (json_view j)
        ≡ Ok (document_view document.now)) }
{
    let json = document_tree(alloc, document, document.format)?;
    Ok(json)
}

/// The JSON tree of the same document in format 2. Otherwise as `json_of_document`.
pub fn json_of_upgraded(alloc: Global, document: &Document) -> Result<Json, NoMemory>
    ensures json { IfOk result (λ j. json_view j
        ≡ document_json (upgraded (document_view document.now))) }
    ensures reads_back { IfOk result (λ j. length document.now.inputs ≤ 16 → form_of (json_view j)
        ≡ Ok (upgraded (document_view document.now))) }
{
    let json = document_tree(alloc, document, 2)?;
    Ok(json)
}

fn document_tree(alloc: Global, document: &Document, format: u32) -> Result<Json, NoMemory>
    ensures { IfOk result (λ j. json_view j
        ≡ document_json (record (document_view document.now) { format = format })) }
{
    let flows = named(alloc, document.flows.as_slice())?;
    let inputs = named(alloc, document.inputs.as_slice())?;
    Ok(document_object(alloc, flows, inputs, document.main.as_str(), format)?)
}

fn document_object(
    alloc: Global,
    flows: Json,
    inputs: Json,
    main: &str,
    format: u32,
) -> Result<Json, AllocError>
    ensures { IfOk result (λ j. json_view j
        ≡ object (members ((codes "flows", json_view flows) ∷ (codes "inputs", json_view inputs)
        ∷ (codes "main", string main.now) ∷ (codes "taverna", number (unsigned format)) ∷ []))) }
{
    json!(in alloc; {"flows": flows, "inputs": inputs, "main": main, "taverna": format})
}

/// An object of one member.
fn only(alloc: Global, key: &str, json: Json) -> Result<Json, AllocError>
    ensures { IfOk result (λ j. json_view j ≡ only key.now (json_view json)) }
{
    let mut members = Map::new(alloc);
    serde_json::put(&mut members, alloc, key, json)?;
    Ok(Json::Object(members))
}

impl Printed for Link {
    ghost Seen = { spec.Link };

    ghost seen = { link_view };

    ghost printed = { link_json };

    fn print(&self, alloc: Global) -> Result<Json, NoMemory> {
        match self {
            Link::Input(input) => Ok(only(alloc, "input", input.print(alloc)?)?),
            Link::Output(step, port) => Ok(output(alloc, step.as_str(), port.as_str())?),
        }
    }
}

fn output(alloc: Global, step: &str, port: &str) -> Result<Json, AllocError>
    ensures { IfOk result (λ j. json_view j
        ≡ object (members ((codes "port", string port.now) ∷ (codes "step", string step.now)
        ∷ []))) }
{
    json!(in alloc; {"port": port, "step": step})
}

impl Printed for Feed {
    ghost Seen = { spec.Feed };

    ghost seen = { feed_view };

    ghost printed = { feed_json };

    fn print(&self, alloc: Global) -> Result<Json, NoMemory> {
        match self {
            Feed::Input(input) => Ok(only(alloc, "input", input.print(alloc)?)?),
            Feed::Output(step, port) => Ok(output(alloc, step.as_str(), port.as_str())?),
            Feed::Merge(links) => Ok(only(alloc, "merge", array(alloc, links.as_slice())?)?),
            Feed::Constant(value) => Ok(only(alloc, "constant", value.print(alloc)?)?),
        }
    }
}

impl Printed for StepInput {
    ghost Seen = { spec.StepInput };

    ghost seen = { step_input_view };

    ghost printed = { step_input_json };

    fn print(&self, alloc: Global) -> Result<Json, NoMemory> {
        let from = self.from.print(alloc)?;
        Ok(json!(in alloc; {"depth": self.depth, "from": from})?)
    }
}

impl Printed for Activity {
    ghost Seen = { activities.Activity };

    ghost seen = { activity_view };

    ghost printed = { activity_json };

    fn print(&self, alloc: Global) -> Result<Json, NoMemory> {
        match self {
            Activity::Service(service) => Ok(only(alloc, "service", service.print(alloc)?)?),
            Activity::Nested(flow) => Ok(only(alloc, "flow", flow.print(alloc)?)?),
        }
    }
}

/// The JSON tree of a strategy.
#[cycle(trees)]
fn json_of_tree(alloc: Global, tree: &Tree) -> Result<Json, NoMemory>
    ensures { IfOk result (λ j. json_view j ≡ tree_json (strategy_view tree.now)) }
{
    match tree {
        Tree::Leaf(port) => Ok(Json::try_from_str(alloc, port.as_str())?),
        Tree::Cross(trees) => Ok(only(alloc, "cross", Json::Array(json_of_trees(alloc, trees)?))?),
        Tree::Dot(trees) => Ok(only(alloc, "dot", Json::Array(json_of_trees(alloc, trees)?))?),
        Tree::Prefix(left, right) => {
            let left = json_of_tree(alloc, left)?;
            let right = json_of_tree(alloc, right)?;
            let pair = two(alloc, left, right)?;
            Ok(only(alloc, "prefix", pair)?)
        }
    }
}

/// An array of two.
fn two(alloc: Global, first: Json, second: Json) -> Result<Json, NoMemory>
    ensures { IfOk result (λ j. json_view j
        ≡ array (item (json_view first) (item (json_view second) no_items))) }
{
    let mut items = Vec::with_capacity(alloc, 2)?;
    items.push(first)?;
    items.push(second)?;
    Ok(Json::Array(items))
}

#[cycle(trees)]
fn json_of_trees(alloc: Global, trees: &Trees) -> Result<Vec<Json>, NoMemory>
    ensures { IfOk result (λ js. json_items js.items ≡ all_trees (strategies_view trees.now)) }
{
    let mut children = Vec::with_capacity(alloc, trees.trees.len())?;
    for tree in &trees.trees {
        children.push(json_of_tree(alloc, tree)?)?;
    }
    Ok(children)
}

impl Printed for Step {
    ghost Seen = { spec.Step };

    ghost seen = { step_view };

    ghost printed = { step_json };

    fn print(&self, alloc: Global) -> Result<Json, NoMemory> {
        let mut members = plain_fields(alloc, self)?;
        match &self.repeat {
            Some(repeat) => {
                let repeat = repeat.print(alloc)?;
                serde_json::put(&mut members, alloc, "loop", repeat)?;
                Ok(Json::Object(members))
            }
            None => Ok(Json::Object(members)),
        }
    }
}

impl Printed for Repeat {
    ghost Seen = { activities.Repeat };

    ghost seen = { repeat_view };

    ghost printed = { loop_json };

    fn print(&self, alloc: Global) -> Result<Json, NoMemory> {
        let service = self.service.as_str();
        let until = self.until.as_str();
        Ok(json!(in alloc; {"most": self.most, "service": service, "until": until})?)
    }
}

/// All fields of a step but its loop.
fn plain_fields(alloc: Global, step: &Step) -> Result<Map<String, Json>, NoMemory>
    ensures { IfOk result (λ ms. members_view ms.entries
        ≡ members (early_members (step_view step.now) ++ late_members (step_view step.now))) }
{
    let mut members = required_fields(alloc, step)?;
    match &step.strategy {
        Some(tree) => {
            let tree = json_of_tree(alloc, tree)?;
            serde_json::put(&mut members, alloc, "strategy", tree)?;
            Ok(members)
        }
        None => Ok(members),
    }
}

/// All fields of a step but its strategy and its loop.
fn required_fields(alloc: Global, step: &Step) -> Result<Map<String, Json>, NoMemory>
    ensures { IfOk result (λ ms. members_view ms.entries
        ≡ members (early_members (step_view step.now)
        ++ late_members (record (step_view step.now) { strategy = None }))) }
{
    let activities = array(alloc, step.activities.as_slice())?;
    let after = json_of_names(alloc, &step.after)?;
    let inputs = named(alloc, step.inputs.as_slice())?;
    let outputs = json_of_depths(alloc, &step.outputs)?;
    Ok(step_fields(
        alloc,
        activities,
        after,
        inputs,
        step.jobs,
        outputs,
        step.retries,
    )?)
}

fn step_fields(
    alloc: Global,
    activities: Json,
    after: Json,
    inputs: Json,
    jobs: u32,
    outputs: Json,
    retries: u32,
) -> Result<Map<String, Json>, AllocError>
    ensures { IfOk result (λ ms. members_view ms.entries
        ≡ members ((codes "activities", json_view activities) ∷ (codes "after", json_view after)
        ∷ (codes "inputs", json_view inputs) ∷ (codes "jobs", number (unsigned jobs))
        ∷ (codes "outputs", json_view outputs) ∷ (codes "retries", number (unsigned retries))
        ∷ [])) }
{
    let mut members = Map::new(alloc);
    serde_json::put(&mut members, alloc, "activities", activities)?;
    serde_json::put(&mut members, alloc, "after", after)?;
    serde_json::put(&mut members, alloc, "inputs", inputs)?;
    serde_json::put(&mut members, alloc, "jobs", Json::from(jobs))?;
    serde_json::put(&mut members, alloc, "outputs", outputs)?;
    serde_json::put(&mut members, alloc, "retries", Json::from(retries))?;
    Ok(members)
}

fn json_of_depths(alloc: Global, depths: &Depths) -> Result<Json, NoMemory>
    ensures { IfOk result (λ j. json_view j ≡ named_json number_json depths.now) }
{
    named(alloc, depths.as_slice())
}

fn json_of_names(alloc: Global, names: &Names) -> Result<Json, NoMemory>
    ensures { IfOk result (λ j. json_view j ≡ array_json string names.now) }
{
    array(alloc, names.as_slice())
}

impl Printed for Flow {
    ghost Seen = { spec.Flow };

    ghost seen = { flow_view };

    ghost printed = { flow_json };

    fn print(&self, alloc: Global) -> Result<Json, NoMemory> {
        let inputs = json_of_depths(alloc, &self.inputs)?;
        let outputs = named(alloc, self.outputs.as_slice())?;
        let steps = named(alloc, self.steps.as_slice())?;
        Ok(flow_object(alloc, inputs, outputs, steps)?)
    }
}

fn flow_object(alloc: Global, inputs: Json, outputs: Json, steps: Json) -> Result<Json, AllocError>
    ensures { IfOk result (λ j. json_view j
        ≡ object (members ((codes "inputs", json_view inputs) ∷ (codes "outputs", json_view outputs)
        ∷ (codes "steps", json_view steps) ∷ []))) }
{
    json!(in alloc; {"inputs": inputs, "outputs": outputs, "steps": steps})
}
