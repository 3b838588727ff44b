//! Lists by number.
ghost use Rattle.std.specs.Prelude.{◌≡◌, ◌<◌, ◌^◌, [], length, replicate, slice_get, Some, IfOk, OnOk};
ghost use Rattle.tv_check.specs.Turned.{with_item};

use std::alloc::Global;
use std::marker::Model;
use tv_value::NoMemory;

/// A list for each number from 0 on. A contract sees the list of these lists.
#[derive(Debug, Drop)]
pub struct Rows<T> {
    rows: Vec<Vec<T>>,
}

impl<T> Model for Rows<T> {
    ghost use Rattle.std.specs.Prelude.{List, map};

    ghost Value = { List (List T) };

    ghost view = { λ r. map (λ xs. xs.items) r.rows.items };
}

impl<T> Rows<T> {
    /// How many lists there are. Takes no memory.
    pub fn len(&self) -> usize
        ensures { result ≡ length self.now }
    {
        self.rows.len()
    }

    /// The list of a number. Takes no memory.
    pub fn row(&self, number: u32) -> &[T]
        requires { number < length self.now }
        ensures { slice_get self.now number ≡ Some result.now }
    {
        self.rows[number as usize].as_slice()
    }
}

impl<T: Copy> Rows<T> {
    /// As many empty lists.
    pub(crate) fn new(alloc: Global, count: usize) -> Result<Self, NoMemory>
        ensures { IfOk result (λ r. r ≡ replicate count []) }
    {
        let mut rows = Vec::with_capacity(alloc, count)?;
        for _ in 0..count {
            rows.push(Vec::new(alloc))?;
        }
        Ok(Rows { rows })
    }

    /// Puts an item at the end of the list of a number, where there is one.
    pub(crate) fn push(&mut self, number: u32, item: T) -> Result<(), NoMemory>
        ensures { OnOk result (self.new ≡ with_item self.old (number, item)) }
    {
        if (number as usize) < self.rows.len() {
            if let Err(_full) = self.rows[number as usize].push(item) {
                return Err(NoMemory);
            }
        }
        Ok(())
    }
}
