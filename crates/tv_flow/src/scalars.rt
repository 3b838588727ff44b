//! Names and numbers.
ghost use Rattle.std.specs.Prelude.{◌≡◌, IfOk, true};
ghost use Rattle.std.specs.List.{list_all};
ghost use Rattle.serde_json.specs.View.{view as json_view, number_view};
ghost use Rattle.tv_flow.specs.PathViews.{at_view};
ghost use Rattle.tv_flow.specs.Answers.{IsForm};
ghost use Rattle.tv_flow.specs.Formed.{is_between};
ghost use Rattle.tv_flow.specs.Forms.{name_form, text_form, name_or_not, number_form, in_range, is_name, is_name_byte};

use crate::at::At;
use crate::faults::{FormFault, FormKind};
use serde_json::{Number, Value as Json};
use std::alloc::Global;
use tv_value::{Name, Text};

/// A string that is a name.
pub(crate) fn name(alloc: Global, at: &At<'_>, json: &Json) -> Result<Name, FormFault>
    ensures read { IsForm (λ n. n) result (name_form (at_view at.now) (json_view json.now)) }
    ensures kept { IfOk result (λ n. is_name n ≡ true) }
{
    match json.as_str() {
        Some(text) => name_or_not(alloc, at, text),
        None => Err(at.fault(alloc, FormKind::WrongKind)),
    }
}

/// A string, of any text.
pub(crate) fn text(alloc: Global, at: &At<'_>, json: &Json) -> Result<Text, FormFault>
    ensures { IsForm (λ t. t) result (text_form (at_view at.now) (json_view json.now)) }
{
    match json.as_str() {
        Some(text) => Ok(Text::from_str(alloc, text)?),
        None => Err(at.fault(alloc, FormKind::WrongKind)),
    }
}

/// A text that is a name.
pub(crate) fn name_or_not(alloc: Global, at: &At<'_>, text: &str) -> Result<Name, FormFault>
    ensures read { IsForm (λ n. n) result (name_or_not (at_view at.now) text.now) }
    ensures kept { IfOk result (λ n. is_name n ≡ true) }
{
    if is_name(text) {
        Ok(Text::from_str(alloc, text)?)
    } else {
        Err(at.fault(alloc, FormKind::BadName))
    }
}

/// Whether a text is 1 to 64 letters, digits and underscores of ASCII. Linear in such a text. Takes no memory.
pub fn is_name(text: &str) -> bool
    ensures { result ≡ is_name text.now }
{
    let length = text.len();
    1 <= length && length <= 64 && has_name_bytes(text)
}

fn has_name_bytes(text: &str) -> bool
    ensures { result ≡ list_all is_name_byte text.now }
{
    text.as_bytes().iter().all(|b| is_name_byte(*b))
}

fn is_name_byte(b: u8) -> bool
    ensures { result ≡ is_name_byte b }
{
    b.is_ascii_digit() || b.is_ascii_uppercase() || b == b'_' || b.is_ascii_lowercase()
}

/// A number in a range.
pub(crate) fn number(
    alloc: Global,
    at: &At<'_>,
    json: &Json,
    low: u32,
    high: u32,
) -> Result<u32, FormFault>
    ensures read { IsForm (λ n. n) result (number_form low high (at_view at.now)
        (json_view json.now)) }
    ensures kept { IfOk result (λ n. is_between low high n ≡ true) }
{
    match json.as_number() {
        Some(number) => in_range(alloc, at, number, low, high),
        None => Err(at.fault(alloc, FormKind::WrongKind)),
    }
}

fn in_range(
    alloc: Global,
    at: &At<'_>,
    number: &Number,
    low: u32,
    high: u32,
) -> Result<u32, FormFault>
    ensures read { IsForm (λ n. n) result (in_range low high (at_view at.now)
        (number_view number.now)) }
    ensures kept { IfOk result (λ n. is_between low high n ≡ true) }
{
    match number.as_u64() {
        Some(n) => {
            if u64::from(low) <= n && n <= u64::from(high) {
                Ok(n as u32)
            } else {
                Err(at.fault(alloc, FormKind::OutOfRange))
            }
        }
        None => {
            if number.as_i64().is_some() {
                Err(at.fault(alloc, FormKind::OutOfRange))
            } else {
                Err(at.fault(alloc, FormKind::WrongKind))
            }
        }
    }
}
