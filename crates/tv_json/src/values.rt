//! The JSON trees of values, and their texts.
ghost use Rattle.std.specs.Prelude.{◌≡◌, ◌≤◌, IfOk, Some, string_bytes, map, false, codes, [], ◌∷◌};
ghost use Rattle.json.specs.Lex.{tokens};
ghost use Rattle.json.specs.Print.{print};
ghost use Rattle.serde_json.specs.Data.{string, object, number, unsigned, depth};
ghost use Rattle.serde_json.specs.Read.{read, max_depth};
ghost use Rattle.serde_json.specs.View.{view as json_view, items_view as json_items};
ghost use Rattle.serde_json.specs.Written.{compact_text, has_float, IsInOrder};
ghost use Rattle.tv_value.specs.Printed.{json, all_json, error_json, job_text, strings, members};
ghost use Rattle.tv_value.specs.Views.{view, items_view, error_view};

use crate::names::job_text;
use serde_json::{Value as Json, json};
use std::alloc::{AllocError, Global};
use tv_value::{ErrorDoc, Items, JobNames, NoMemory, Text, Value};

/// The JSON tree of a value: a text is a string, a list an array, an error document an object. Linear in the value.
#[cycle(printing)]
pub fn json_of_value(alloc: Global, value: &Value) -> Result<Json, NoMemory>
    ensures { IfOk result (λ j. json_view j ≡ json (view value.now)) }
{
    match value {
        Value::Text(text) => Ok(Json::String(String::from_str(alloc, text.as_str())?)),
        Value::List(items) => Ok(Json::Array(json_of_items(alloc, items)?)),
        Value::Fault(error) => json_of_error(alloc, error),
    }
}

#[cycle(printing)]
fn json_of_items(alloc: Global, items: &Items) -> Result<Vec<Json>, NoMemory>
    ensures { IfOk result (λ js. json_items js.items ≡ all_json (items_view items.now)) }
{
    let mut trees = Vec::with_capacity(alloc, items.values.len())?;
    for value in &items.values {
        trees.push(json_of_value(alloc, value)?)?;
    }
    Ok(trees)
}

fn json_of_error(alloc: Global, error: &ErrorDoc) -> Result<Json, NoMemory>
    ensures { IfOk result (λ j. json_view j ≡ error_json (error_view error.now)) }
{
    let at = job_text(alloc, &error.at)?;
    let from = Json::Array(strings_of_names(alloc, &error.from)?);
    Ok(error_object(alloc, at.as_str(), error.depth, &from, error.why.as_str())?)
}

fn error_object(
    alloc: Global,
    at: &str,
    depth: u32,
    from: &Json,
    why: &str,
) -> Result<Json, AllocError>
    ensures { IfOk result (λ j. json_view j
        ≡ object (members ((
          codes "error",
          object (members ((codes "at", string at.now)
              ∷ (codes "depth", number (unsigned depth)) ∷ (codes "from", json_view from.now)
              ∷ (codes "why", string why.now) ∷ [])),
        ) ∷ []))) }
{
    json!(in alloc; {"error": {"at": at, "depth": depth, "from": from, "why": why}})
}

/// The names as strings.
fn strings_of_names(alloc: Global, names: &JobNames) -> Result<Vec<Json>, NoMemory>
    ensures { IfOk result (λ js. json_items js.items ≡ strings (map job_text names.now)) }
{
    let mut texts = Vec::with_capacity(alloc, names.as_slice().len())?;
    for name in names.as_slice() {
        texts.push(Json::String(job_text(alloc, name)?))?;
    }
    Ok(texts)
}

/// The text of a JSON tree, as `serde_json` writes it with no space between its tokens.
///
/// The clauses give the very text of a tree with no float. That of every tree is its tokens with nothing between them,
/// it has the tree's items and members in order, and it reads back as the tree, if that is nested no deeper than reading
/// goes. Linear in the tree.
pub fn compact(alloc: Global, json: &Json) -> Result<Text, NoMemory>
    ensures text { IfOk result (λ t. has_float (json_view json.now) ≡ false → t
        ≡ compact_text (json_view json.now)) }
    ensures no_space { IfOk result (λ t. t ≡ print (tokens t)) }
    ensures order { IfOk result (λ t. IsInOrder t (json_view json.now)) }
    ensures reads_back { IfOk result (λ t. depth (json_view json.now) ≤ max_depth → read t
        ≡ Some (json_view json.now)) }
{
    Ok(Text::of(json.to_string(alloc)?))
}
