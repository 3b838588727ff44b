//! The lines of elements.
ghost use Rattle.std.specs.Prelude.{◌≡◌, ◌++◌, IfOk, OnOk, string_bytes};
ghost use Rattle.tv_words.specs.elements.Lines.{element_line, element_lines};

use std::alloc::Global;
use tv_json::element_text;
use tv_lineage::Labels;
use tv_value::{Name, NoMemory, Place, Text};

/// A line for each element, in the order of the list: the elements that lineage lists, or the leaves that forward use
/// does. Linear in them.
pub fn label_lines(alloc: Global, labels: &Labels) -> Result<Text, NoMemory>
    ensures { IfOk result (λ t. t ≡ element_lines labels.now) }
{
    let mut lines = String::new(alloc);
    for label in labels.as_slice() {
        push_line(alloc, &mut lines, label)?;
    }
    Ok(Text::of(lines))
}

fn push_line(alloc: Global, lines: &mut String, label: &(Name, Place)) -> Result<(), NoMemory>
    ensures { OnOk result (string_bytes lines.new ≡ string_bytes lines.old
        ++ element_line label.now) }
{
    let text = element_text(alloc, &label.0, &label.1)?;
    lines.push_str(text.as_str())?;
    lines.push_str("\n")?;
    Ok(())
}
