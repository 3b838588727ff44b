//! The texts of job names and of elements.
ghost use Rattle.std.specs.Prelude.{◌≡◌, ◌++◌, decimal, OnOk, IfOk, string_bytes};
ghost use Rattle.tv_value.specs.Printed.{element_text, job_text};
ghost use Rattle.tv_json.specs.Joined.{places_text, between};

use std::alloc::Global;
use std::fmt::Write;
use tv_value::{JobName, Name, NoMemory, Place, Text};

/// A name and a place in brackets, as `u[1,2]`.
pub fn element_text(alloc: Global, name: &Name, place: &Place) -> Result<Text, NoMemory>
    ensures { IfOk result (λ t. t ≡ element_text (name.now, place.now)) }
{
    let mut text = String::new(alloc);
    push_element(&mut text, name, place)?;
    Ok(Text::of(text))
}

/// The name of a job: its elements with a slash between each two, as `n[0]/u[]`.
pub fn job_text(alloc: Global, job: &JobName) -> Result<String, NoMemory>
    ensures { IfOk result (λ t. string_bytes t ≡ job_text job.now) }
{
    let mut text = String::new(alloc);
    let levels = job.as_slice();
    for index in 0..levels.len() {
        push_between(&mut text, index, "/")?;
        push_level(&mut text, &levels[index])?;
    }
    Ok(text)
}

fn push_level(text: &mut String, level: &(Name, Place)) -> Result<(), NoMemory>
    ensures { OnOk result (string_bytes text.new ≡ string_bytes text.old
        ++ element_text level.now) }
{
    push_element(text, &level.0, &level.1)
}

fn push_element(text: &mut String, name: &Name, place: &Place) -> Result<(), NoMemory>
    ensures { OnOk result (string_bytes text.new ≡ string_bytes text.old
        ++ element_text (name.now, place.now)) }
{
    text.push_str(name.as_str())?;
    text.push_str("[")?;
    push_indices(text, place.as_slice())?;
    text.push_str("]")?;
    Ok(())
}

fn push_indices(text: &mut String, indices: &[u32]) -> Result<(), NoMemory>
    ensures { OnOk result (string_bytes text.new ≡ string_bytes text.old
        ++ places_text indices.now) }
{
    for place in 0..indices.len() {
        push_between(text, place, ",")?;
        push_index(text, indices[place])?;
    }
    Ok(())
}

fn push_index(text: &mut String, index: u32) -> Result<(), NoMemory>
    ensures { OnOk result (string_bytes text.new ≡ string_bytes text.old ++ decimal index) }
{
    write!(text, "{index}")?;
    Ok(())
}

/// A separator, before all but the first of a list.
fn push_between(text: &mut String, index: usize, separator: &str) -> Result<(), NoMemory>
    ensures { OnOk result (string_bytes text.new ≡ string_bytes text.old
        ++ between index separator.now) }
{
    if index > 0 {
        text.push_str(separator)?;
    }
    Ok(())
}
