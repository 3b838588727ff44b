//! The line of a form fault.
ghost use Rattle.std.specs.Prelude.{◌≡◌, ◌++◌, ◌∷◌, [], IfOk, OnOk, true, codes, decimal, string_bytes};
ghost use Rattle.serde_json.specs.View.{view as json_view};
ghost use Rattle.serde_json.specs.Written.{compact_text};
ghost use Rattle.tv_report.specs.FormLines.{is_form, line_of, form_text, kind_number, kind_words, part_json, path_json};

use serde_json::Value as Json;
use std::alloc::Global;
use std::fmt::Write;
use tv_flow::{FormFault, FormKind, Part, Path};
use tv_json::compact;
use tv_value::{NoMemory, Text};

/// The line `taverna: form fault N WORDS at PATH` with its line feed, the path as a compact JSON array.
pub fn form_line(alloc: Global, fault: &FormFault) -> Result<Text, NoMemory>
    requires { is_form fault.now ≡ true }
    ensures { IfOk result (λ t. t ≡ line_of fault.now) }
{
    match fault {
        FormFault::Form { kind, path } => line(alloc, *kind, path),
        FormFault::NoMemory => unreachable!(),
    }
}

fn line(alloc: Global, kind: FormKind, path: &Path) -> Result<Text, NoMemory>
    ensures { IfOk result (λ t. t ≡ form_text kind path.now) }
{
    let path = path_text(alloc, path)?;
    let mut text = String::new(alloc);
    text.push_str("taverna: form fault ")?;
    push_number(&mut text, kind_number(kind))?;
    text.push_str(" ")?;
    text.push_str(kind_words(kind))?;
    text.push_str(" at ")?;
    text.push_str(path.as_str())?;
    text.push_str("\n")?;
    Ok(Text::of(text))
}

/// Adds a number in decimal.
pub(crate) fn push_number(text: &mut String, number: u32) -> Result<(), NoMemory>
    ensures { OnOk result (string_bytes text.new ≡ string_bytes text.old ++ decimal number) }
{
    write!(text, "{number}")?;
    Ok(())
}

fn kind_number(kind: FormKind) -> u32
    ensures { result ≡ kind_number kind }
{
    match kind {
        FormKind::Missing => 1,
        FormKind::Unknown => 2,
        FormKind::WrongKind => 3,
        FormKind::BadName => 4,
        FormKind::OutOfRange => 5,
        FormKind::Empty => 6,
        FormKind::NotText => 7,
        FormKind::Ragged => 8,
    }
}

fn kind_words(kind: FormKind) -> &'static str
    ensures { result.now ≡ kind_words kind }
{
    match kind {
        FormKind::Missing => "missing",
        FormKind::Unknown => "unknown",
        FormKind::WrongKind => "wrong kind",
        FormKind::BadName => "bad name",
        FormKind::OutOfRange => "out of range",
        FormKind::Empty => "empty",
        FormKind::NotText => "not text",
        FormKind::Ragged => "ragged",
    }
}

fn path_text(alloc: Global, path: &Path) -> Result<Text, NoMemory>
    ensures { IfOk result (λ t. t ≡ compact_text (path_json path.now)) }
{
    let json = json_of_path(alloc, path)?;
    let text = compact(alloc, &json)?;
    Ok(text)
}

fn json_of_path(alloc: Global, path: &Path) -> Result<Json, NoMemory>
    ensures { IfOk result (λ j. json_view j ≡ path_json path.now) }
{
    let parts = path.as_slice();
    let mut items = Vec::with_capacity(alloc, parts.len())?;
    for part in parts {
        items.push(json_of_part(alloc, part)?)?;
    }
    Ok(Json::Array(items))
}

fn json_of_part(alloc: Global, part: &Part) -> Result<Json, NoMemory>
    ensures { IfOk result (λ j. json_view j ≡ part_json part.now) }
{
    match part {
        Part::Key(key) => Ok(Json::try_from_str(alloc, key.as_str())?),
        Part::Index(index) => Ok(Json::from(*index)),
    }
}
