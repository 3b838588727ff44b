//! Words that tell elements.
ghost use Rattle.std.specs.Prelude.{◌≡◌, ◌&&◌, ◌==◌, IfOk, nat_lt, length, option_map, slice_index};
ghost use Rattle.std.specs.List.{slice_split};
ghost use Rattle.tv_words.specs.elements.Elements as spec;

use std::alloc::Global;
use tv_flow::is_name;
use tv_value::{Name, NoMemory, Place, Text};

/// The element that a text tells: a name, `[`, nothing or indices with a comma between each two, and `]`. An index is `0`
/// or a decimal text without sign and leading zero, below 2^32. `None` exactly where the text is no element. Linear in it.
pub fn read_element(alloc: Global, text: &str) -> Result<Option<(Name, Place)>, NoMemory>
    ensures { IfOk result (λ o. o ≡ spec.element_of text.now) }
{
    match bracketed(text) {
        Some((port, inside)) => at_place(alloc, port, inside),
        None => Ok(None),
    }
}

/// An element by its port and what stands in its brackets.
fn at_place(alloc: Global, port: &str, inside: &str) -> Result<Option<(Name, Place)>, NoMemory>
    ensures { IfOk result (λ o. o ≡ spec.at_place (port.now, inside.now)) }
{
    if !is_name(port) {
        return Ok(None);
    }
    match place_of(alloc, inside)? {
        Some(place) => Ok(Some((Text::from_str(alloc, port)?, place))),
        None => Ok(None),
    }
}

/// What stands before the first `[`, and between it and a `]` at the end.
fn bracketed(text: &str) -> Option<(&str, &str)>
    ensures { option_map (λ p. (p.0.now, p.1.now)) result ≡ spec.bracketed text.now }
{
    let (port, rest) = text.split_once('[')?;
    let inside = rest.strip_suffix(']')?;
    Some((port, inside))
}

/// The place that stands in brackets: nothing, or indices with a comma between each two.
fn place_of(alloc: Global, text: &str) -> Result<Option<Place>, NoMemory>
    ensures { IfOk result (λ o. o ≡ spec.place_of text.now) }
{
    if text.is_empty() {
        return Ok(Some(Place::top(alloc)));
    }
    indices_of(alloc, text)
}

/// Indices with a comma between each two.
fn indices_of(alloc: Global, text: &str) -> Result<Option<Place>, NoMemory>
    ensures { IfOk result (λ o. o ≡ spec.indices_of (slice_split (λ b. b == 44) text.now)) }
{
    let mut indices = Vec::new(alloc);
    let mut rest = text;
    while let Some((part, after)) = rest.split_once(',') {
        let Some(index) = index_of(part) else {
            return Ok(None);
        };
        indices.push(index)?;
        rest = after;
    }
    let Some(last) = index_of(rest) else {
        return Ok(None);
    };
    indices.push(last)?;
    Ok(Some(Place::of(alloc, indices.as_slice())?))
}

/// `0`, or digits of which the first isn't `0`, below 2^32.
fn index_of(text: &str) -> Option<u32>
    ensures { result ≡ spec.index_of text.now }
{
    if has_plus(text) || is_padded(text) {
        return None;
    }
    text.parse::<u32>().ok()
}

fn has_plus(text: &str) -> bool
    ensures { result ≡ (slice_index text.now 0 == 43) }
{
    text.starts_with('+')
}

/// Whether a `0` stands before something.
fn is_padded(text: &str) -> bool
    ensures { result ≡ (nat_lt 1 (length text.now) && slice_index text.now 0 == 48) }
{
    text.len() > 1 && text.starts_with('0')
}
