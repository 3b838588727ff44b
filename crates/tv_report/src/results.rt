//! The result line.
//!
//! It is written as it is walked, without a JSON tree of the values.
ghost use Rattle.std.specs.Prelude.{◌≡◌, ◌++◌, ◌∷◌, [], IfOk, OnOk, codes, flat_map, map, string_bytes};
ghost use Rattle.json.specs.Token.{Token as Spec};
ghost use Rattle.json.specs.Print.{print};
ghost use Rattle.serde_json.specs.Data.{array, object};
ghost use Rattle.tv_flow.specs.Views.{each};
ghost use Rattle.tv_model.specs.TotalsViews.{totals_view};
ghost use Rattle.tv_model.specs.Results.{totals_json};
ghost use Rattle.tv_value.specs.Printed.{json, all_json, error_json, job_text, strings, members};
ghost use Rattle.tv_value.specs.Views.{view, items_view, error_view};
ghost use Rattle.tv_report.specs.ResultLines.{line_of_result, result_json};
ghost use Rattle.tv_report.specs.Tokens.{Adds, tokens_of, tokens_of_items, tokens_of_members, text_member, number_member, value_member};

use json::Writer;
use std::alloc::Global;
use tv_json::job_text;
use tv_model::Totals;
use tv_value::{ErrorDoc, Items, JobName, JobNames, Name, NoMemory, Sequence, Text, Value};

/// Names with values, in byte order of the names.
pub type NamedValues = Sequence<(Name, Value)>;

/// The line of a run's outputs and totals: a compact JSON object, and a line feed. Linear in the values.
pub fn result_line(alloc: Global, outputs: &NamedValues, totals: &Totals) -> Result<Text, NoMemory>
    ensures { IfOk result (λ t. t
        ≡ line_of_result (each view outputs.now) (totals_view totals.now)) }
{
    let mut out = Writer::new(Vec::new(alloc));
    put_result(alloc, &mut out, outputs, totals)?;
    let mut line = text_of(out);
    line.push_str("\n")?;
    Ok(Text::of(line))
}

/// What was written.
fn text_of(out: Writer) -> String
    requires { out.before ≡ [] }
    ensures { string_bytes result ≡ print out.tokens }
{
    match String::from_utf8(out.into_inner()) {
        Ok(text) => text,
        Err(_) => unreachable!(),
    }
}

fn put_result(
    alloc: Global,
    out: &mut Writer,
    outputs: &NamedValues,
    totals: &Totals,
) -> Result<(), NoMemory>
    ensures { OnOk result
        (Adds out.old out.new
        (tokens_of (result_json (each view outputs.now) (totals_view totals.now)))) }
{
    begin_object(out)?;
    put_key(out, "outputs")?;
    put_outputs(alloc, out, outputs)?;
    put_key(out, "totals")?;
    put_totals(out, totals)?;
    end_object(out)?;
    Ok(())
}

fn put_key(out: &mut Writer, key: &str) -> Result<(), NoMemory>
    ensures { OnOk result (Adds out.old out.new (Spec.key key.now ∷ [])) }
{
    Ok(out.key(key)?)
}

fn begin_array(out: &mut Writer) -> Result<(), NoMemory>
    ensures { OnOk result (Adds out.old out.new (Spec.begin_array ∷ [])) }
{
    Ok(out.begin_array()?)
}

fn end_array(out: &mut Writer) -> Result<(), NoMemory>
    ensures { OnOk result (Adds out.old out.new (Spec.end_array ∷ [])) }
{
    Ok(out.end_array()?)
}

fn begin_object(out: &mut Writer) -> Result<(), NoMemory>
    ensures { OnOk result (Adds out.old out.new (Spec.begin_object ∷ [])) }
{
    Ok(out.begin_object()?)
}

fn end_object(out: &mut Writer) -> Result<(), NoMemory>
    ensures { OnOk result (Adds out.old out.new (Spec.end_object ∷ [])) }
{
    Ok(out.end_object()?)
}

fn put_outputs(alloc: Global, out: &mut Writer, outputs: &NamedValues) -> Result<(), NoMemory>
    ensures { OnOk result
        (Adds out.old out.new
        (tokens_of (object (members (map (λ o. (o.0, json o.1)) (each view outputs.now)))))) }
{
    begin_object(out)?;
    put_members(alloc, out, outputs.as_slice())?;
    end_object(out)?;
    Ok(())
}

fn put_members(alloc: Global, out: &mut Writer, outputs: &[(Name, Value)]) -> Result<(), NoMemory>
    ensures { OnOk result (Adds out.old out.new (flat_map (λ o. value_member (o.0, view o.1))
        outputs.now)) }
{
    for output in outputs {
        put_member(alloc, out, output)?;
    }
    Ok(())
}

fn put_member(alloc: Global, out: &mut Writer, output: &(Name, Value)) -> Result<(), NoMemory>
    ensures { OnOk result (Adds out.old out.new (value_member (output.now.0, view output.now.1))) }
{
    out.key(output.0.as_str())?;
    put_value(alloc, out, &output.1)
}

fn put_totals(out: &mut Writer, totals: &Totals) -> Result<(), NoMemory>
    ensures { OnOk result
        (Adds out.old out.new (tokens_of (totals_json (totals_view totals.now)))) }
{
    begin_object(out)?;
    put_number(out, "attempts", totals.attempts)?;
    put_number(out, "bounced", totals.bounced)?;
    put_number(out, "failed", totals.failed)?;
    put_number(out, "jobs", totals.jobs)?;
    end_object(out)?;
    Ok(())
}

fn put_number(out: &mut Writer, key: &str, number: u64) -> Result<(), NoMemory>
    ensures { OnOk result (Adds out.old out.new (number_member key.now number)) }
{
    out.key(key)?;
    out.u64(number)?;
    Ok(())
}

fn put_text(out: &mut Writer, key: &str, text: &str) -> Result<(), NoMemory>
    ensures { OnOk result (Adds out.old out.new (text_member key.now text.now)) }
{
    out.key(key)?;
    out.string(text)?;
    Ok(())
}

/// A text as a string, a list as an array, an error document as an object.
#[cycle(putting)]
fn put_value(alloc: Global, out: &mut Writer, value: &Value) -> Result<(), NoMemory>
    ensures { OnOk result (Adds out.old out.new (tokens_of (json (view value.now)))) }
{
    match value {
        Value::Text(text) => Ok(out.string(text.as_str())?),
        Value::List(items) => put_items(alloc, out, items),
        Value::Fault(error) => put_error(alloc, out, error),
    }
}

#[cycle(putting)]
fn put_items(alloc: Global, out: &mut Writer, items: &Items) -> Result<(), NoMemory>
    ensures { OnOk result
        (Adds out.old out.new (tokens_of (array (all_json (items_view items.now))))) }
{
    begin_array(out)?;
    put_values(alloc, out, &items.values)?;
    end_array(out)?;
    Ok(())
}

#[cycle(putting)]
fn put_values(alloc: Global, out: &mut Writer, values: &[Value]) -> Result<(), NoMemory>
    ensures { OnOk result (Adds out.old out.new (flat_map (λ v. tokens_of (json (view v)))
        values.now)) }
{
    for value in values {
        put_value(alloc, out, value)?;
    }
    Ok(())
}

fn put_error(alloc: Global, out: &mut Writer, error: &ErrorDoc) -> Result<(), NoMemory>
    ensures { OnOk result (Adds out.old out.new (tokens_of (error_json (error_view error.now)))) }
{
    begin_object(out)?;
    put_key(out, "error")?;
    begin_object(out)?;
    put_error_fields(alloc, out, error)?;
    end_object(out)?;
    end_object(out)?;
    Ok(())
}

fn put_error_fields(alloc: Global, out: &mut Writer, error: &ErrorDoc) -> Result<(), NoMemory>
    ensures { OnOk result (Adds out.old out.new (text_member (codes "at") (job_text error.now.at)
        ++ number_member (codes "depth") error.now.depth
        ++ Spec.key (codes "from") ∷ tokens_of (array (strings (map job_text error.now.from)))
        ++ text_member (codes "why") error.now.why)) }
{
    let at = job_text(alloc, &error.at)?;
    put_text(out, "at", at.as_str())?;
    put_number(out, "depth", u64::from(error.depth))?;
    put_key(out, "from")?;
    put_names(alloc, out, &error.from)?;
    put_text(out, "why", error.why.as_str())
}

fn put_names(alloc: Global, out: &mut Writer, names: &JobNames) -> Result<(), NoMemory>
    ensures { OnOk result
        (Adds out.old out.new (tokens_of (array (strings (map job_text names.now))))) }
{
    begin_array(out)?;
    put_each_name(alloc, out, names.as_slice())?;
    end_array(out)?;
    Ok(())
}

fn put_each_name(alloc: Global, out: &mut Writer, names: &[JobName]) -> Result<(), NoMemory>
    ensures { OnOk result (Adds out.old out.new (flat_map (λ n. Spec.string (job_text n) ∷ [])
        names.now)) }
{
    for name in names {
        put_name(alloc, out, name)?;
    }
    Ok(())
}

fn put_name(alloc: Global, out: &mut Writer, name: &JobName) -> Result<(), NoMemory>
    ensures { OnOk result (Adds out.old out.new (Spec.string (job_text name.now) ∷ [])) }
{
    let text = job_text(alloc, name)?;
    out.string(text.as_str())?;
    Ok(())
}
