//! The line of `upgrade`.
ghost use Rattle.std.specs.Prelude.{◌≡◌, ◌++◌, ◌∷◌, [], IfOk};
ghost use Rattle.tv_flow.specs.DocumentViews.{document_view};
ghost use Rattle.tv_report.specs.UpgradeTexts.{upgraded_text};

use std::alloc::Global;
use tv_flow::Document;
use tv_json::{compact, json_of_upgraded};
use tv_value::{NoMemory, Text};

/// The line of a document in format 2: its compact JSON with every field but an absent strategy and an absent loop, and a line
/// feed. Linear in the document, and in the logarithm of the number of names in each object.
pub fn upgraded_line(alloc: Global, document: &Document) -> Result<Text, NoMemory>
    ensures { IfOk result (λ t. t ≡ upgraded_text (document_view document.now)) }
{
    let json = json_of_upgraded(alloc, document)?;
    let text = compact(alloc, &json)?;
    line_of(alloc, text.as_str())
}

/// A text with a line feed.
fn line_of(alloc: Global, text: &str) -> Result<Text, NoMemory>
    ensures { IfOk result (λ t. t ≡ text.now ++ 10 ∷ []) }
{
    let mut line = String::from_str(alloc, text)?;
    line.push_str("\n")?;
    Ok(Text::of(line))
}
