ghost use Rattle.std.specs.Prelude.{◌≡◌, IfOk, IsTrue, is_some, option_map};
ghost use Rattle.tv_value.specs.Nested.{at};
ghost use Rattle.tv_value.specs.Values.{holds_fault};
ghost use Rattle.tv_value.specs.Views.{error_view, view};
ghost use Rattle.tv_cell.specs.Found.{document_of, found_value, is_document};

use crate::Path;
use crate::looking::value_at;
use std::alloc::Global;
use std::marker::Model;
use std::sync::Arc;
use tv_value::{ErrorDoc, NoMemory, Value};

/// A value, and whether it is an error document or contains one.
#[derive(Drop)]
struct Noted {
    value: Value,
    faulty: bool,
}

impl Model for Noted {
    ghost use Rattle.tv_value.specs.declared.value.Value.{Value as Held};
    ghost use Rattle.tv_value.specs.contracts.value.Value as held;
    ghost use Rattle.std.specs.Coded.{codes};

    ghost Value = { Held };

    ghost coded = { Prim.hlevel (codes, held.the_row.coded) };

    ghost view = { λ n. n.value };

    ghost use Rattle.std.specs.Prelude.{◌≡◌};
    ghost use Rattle.tv_value.specs.Values.{holds_fault};
    ghost use Rattle.tv_value.specs.Views as seen;

    ghost invariant = { λ n. n.faulty ≡ holds_fault (seen.view n.value) };
}

impl Noted {
    /// The value is looked through: linear in it at the most.
    fn of(value: Value) -> Noted
        ensures { result ≡ value }
    {
        let faulty = value.holds_fault();
        Noted { value, faulty }
    }

    fn read(&self) -> &Value
        ensures { result.now ≡ self.now }
    {
        &self.value
    }

    fn holds_fault(&self) -> bool
        ensures { result ≡ holds_fault (view self.now) }
    {
        self.faulty
    }
}

/// A value that never changes, with any number of owners in any threads. The last owner drops it. Whether it holds a fault is kept
/// beside it.
#[derive(Drop)]
pub struct Cell {
    inside: Arc<Noted, Global>,
}

impl Model for Cell {
    ghost use Rattle.tv_value.specs.declared.value.Value.{Value as Held};
    ghost use Rattle.tv_value.specs.contracts.value.Value as held;
    ghost use Rattle.std.specs.Coded.{codes};

    ghost Value = { Held };

    ghost coded = { Prim.hlevel (codes, held.the_row.coded) };

    ghost view = { λ c. c.inside.value };
}

impl Cell {
    /// A cell of that value, moved there as it is. Where memory is wanting the value is dropped. The value is looked through for
    /// faults, so that whoever takes the cell asks it instead: linear in it at the most.
    pub fn put(alloc: Global, value: Value) -> Result<Cell, NoMemory>
        ensures { IfOk result (λ c. c ≡ value) }
    {
        let inside = Arc::new(alloc, Noted::of(value))?;
        Ok(Cell { inside })
    }

    /// The value. Takes no memory, and the cost is constant.
    pub fn read(&self) -> &Value
        ensures { result.now ≡ self.now }
    {
        self.inside.read()
    }

    /// Whether the value is an error document or contains one. Takes no memory, and the cost is constant.
    pub fn holds_fault(&self) -> bool
        ensures { result ≡ holds_fault (view self.now) }
    {
        self.inside.holds_fault()
    }

    /// One more owner of the same value, which is not copied. Takes no memory, and the cost is constant. It may be refused,
    /// and no clause says when: the kit's `Arc` refuses where its count of owners is full.
    pub fn share(&self) -> Result<Cell, NoMemory>
        ensures { IfOk result (λ c. c ≡ self.now) }
    {
        let inside = Arc::try_clone(&self.inside)?;
        Ok(Cell { inside })
    }

    /// What stands at a place of the value, or `None` where nothing does. Linear in the place.
    /// Takes no memory.
    pub fn at(&self, place: &Path) -> Option<&Value>
        ensures { option_map (λ v. view v.now) result ≡ at (view self.now) place.now }
    {
        value_at(self.read(), place.as_slice())
    }

    /// What stands at a place of the value. Linear in the place.
    pub(crate) fn value_at(&self, place: &Path) -> &Value
        requires { IsTrue (is_some (at (view self.now) place.now)) }
        ensures { view result.now ≡ found_value (at (view self.now) place.now) }
    {
        match self.at(place) {
            Some(value) => value,
            None => unreachable!(),
        }
    }

    /// The error document that stands at a place of the value. Linear in the place.
    pub(crate) fn document_at(&self, place: &Path) -> &ErrorDoc
        requires { IsTrue (is_document (at (view self.now) place.now)) }
        ensures { error_view result.now ≡ document_of (found_value (at (view self.now) place.now)) }
    {
        match self.at(place) {
            Some(Value::Fault(error)) => error,
            _ => unreachable!(),
        }
    }
}
