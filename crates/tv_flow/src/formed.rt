//! Things that are read from a JSON tree at a place in the document, each by the form that its format states.
ghost use Rattle.std.specs.Prelude.{◌≡◌, ℕ, Bool, true, Result, IfOk};
ghost use Rattle.serde_json.specs.Data.{Data};
ghost use Rattle.serde_json.specs.View.{view as json_view};
ghost use Rattle.tv_value.specs.Values as spec;
ghost use Rattle.tv_value.specs.Readings as reading;
ghost use Rattle.tv_value.specs.Views.{view as value_view};
ghost use Rattle.tv_flow.specs.Complaints.{Path, Complaint};
ghost use Rattle.tv_flow.specs.PathViews.{at_view};
ghost use Rattle.tv_flow.specs.Answers.{IsForm};
ghost use Rattle.tv_flow.specs.Forms.{name_form, is_name, depth_form, value_form};
ghost use Rattle.tv_flow.specs.Formed.{is_depth, is_value};

use crate::at::At;
use crate::faults::{FormFault, FormKind};
use crate::scalars::{name, number};
use serde_json::Value as Json;
use std::alloc::Global;
use tv_value::{Name, Value, ValueFault, value_of};

/// What has a form: a definition of what a JSON tree at a path stands for in a document of some format, and what all
/// such things keep.
pub(crate) trait Formed: Sized + Drop {
    ghost Seen: { Type 0 };

    ghost seen: { Self → Seen };

    ghost form: { ℕ → Path → Data → Result Seen Complaint };

    ghost keeps: { Seen → Bool };

    /// Whether it has nothing that the format hasn't.
    ghost fits: { ℕ → Seen → Bool };

    /// What the JSON tree at this place stands for, or the first fault. Linear in the tree.
    fn formed(alloc: Global, at: &At<'_>, json: &Json, format: u32) -> Result<Self, FormFault>
        ensures read { IsForm seen result (form format (at_view at.now) (json_view json.now)) }
        ensures kept { IfOk result (λ x. keeps (seen x) ≡ true) }
        ensures fits { IfOk result (λ x. fits format (seen x) ≡ true) };
}

/// A depth.
impl Formed for u32 {
    ghost Seen = { ℕ };

    ghost seen = { λ n. n };

    ghost form = { λ _. depth_form };

    ghost keeps = { is_depth };

    ghost fits = { λ _ _. true };

    fn formed(alloc: Global, at: &At<'_>, json: &Json, _format: u32) -> Result<u32, FormFault> {
        number(alloc, at, json, 0, 32)
    }
}

impl Formed for Name {
    ghost Seen = { spec.Name };

    ghost seen = { λ n. n };

    ghost form = { λ _. name_form };

    ghost keeps = { is_name };

    ghost fits = { λ _ _. true };

    fn formed(alloc: Global, at: &At<'_>, json: &Json, _format: u32) -> Result<Name, FormFault> {
        name(alloc, at, json)
    }
}

impl Formed for Value {
    ghost Seen = { spec.Value };

    ghost seen = { value_view };

    ghost form = { λ _. value_form };

    ghost keeps = { is_value };

    ghost fits = { λ _ _. true };

    fn formed(alloc: Global, at: &At<'_>, json: &Json, _format: u32) -> Result<Value, FormFault> {
        match value_of(alloc, json) {
            Ok(value) => Ok(value),
            Err(ValueFault::NotText(place)) => Err(at.fault_at(alloc, FormKind::NotText, &place)),
            Err(ValueFault::Ragged(place)) => Err(at.fault_at(alloc, FormKind::Ragged, &place)),
            Err(ValueFault::NoMemory) => Err(FormFault::NoMemory),
        }
    }
}
