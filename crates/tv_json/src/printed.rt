//! Things that have a JSON tree, and lists of them.
ghost use Rattle.std.specs.Prelude.{◌≡◌, ℕ, IfOk, map};
ghost use Rattle.serde_json.specs.Data.{Data, string};
ghost use Rattle.serde_json.specs.View.{view as json_view};
ghost use Rattle.tv_value.specs.Values as spec;
ghost use Rattle.tv_value.specs.Views.{view as value_view};
ghost use Rattle.tv_value.specs.Printed.{json};
ghost use Rattle.tv_flow.specs.Views.{each};
ghost use Rattle.tv_json.specs.Documents.{array_json, named_json, number_json};

use crate::values::json_of_value;
use serde_json::{Map, Number, Value as Json};
use std::alloc::Global;
use tv_value::{Name, NoMemory, Value};

/// What has a JSON tree.
pub(crate) trait Printed: Sized {
    ghost Seen: { Type 0 };

    ghost seen: { Self → Seen };

    ghost printed: { Seen → Data };

    /// Its JSON tree. Linear in its size.
    fn print(&self, alloc: Global) -> Result<Json, NoMemory>
        ensures { IfOk result (λ j. json_view j ≡ printed (seen self.now)) };
}

impl Printed for u32 {
    ghost Seen = { ℕ };

    ghost seen = { λ n. n };

    ghost printed = { number_json };

    fn print(&self, _alloc: Global) -> Result<Json, NoMemory> {
        Ok(Json::from(*self))
    }
}

impl Printed for Name {
    ghost Seen = { spec.Name };

    ghost seen = { λ n. n };

    ghost printed = { string };

    fn print(&self, alloc: Global) -> Result<Json, NoMemory> {
        Ok(Json::try_from_str(alloc, self.as_str())?)
    }
}

impl Printed for Value {
    ghost Seen = { spec.Value };

    ghost seen = { value_view };

    ghost printed = { json };

    fn print(&self, alloc: Global) -> Result<Json, NoMemory> {
        json_of_value(alloc, self)
    }
}

/// An array of the things.
pub(crate) fn array<T: Printed>(alloc: Global, things: &[T]) -> Result<Json, NoMemory>
    ensures { IfOk result (λ j. json_view j ≡ array_json T.printed (map T.seen things.now)) }
{
    let mut items = Vec::with_capacity(alloc, things.len())?;
    for thing in things {
        items.push(thing.print(alloc)?)?;
    }
    Ok(Json::Array(items))
}

/// An object with a member for each name.
pub(crate) fn named<T: Printed>(alloc: Global, things: &[(Name, T)]) -> Result<Json, NoMemory>
    ensures { IfOk result (λ j. json_view j ≡ named_json T.printed (each T.seen things.now)) }
{
    let mut members = Map::new(alloc);
    for index in 0..things.len() {
        let (name, thing) = &things[index];
        serde_json::put(&mut members, alloc, name.as_str(), thing.print(alloc)?)?;
    }
    Ok(Json::Object(members))
}
