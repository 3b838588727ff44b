ghost use Rattle.std.specs.Prelude.{◌≡◌, [], option_map};
ghost use Rattle.tv_value.specs.Orders.{named};

use crate::text::Name;
use std::alloc::Global;
use std::marker::Model;

/// A list of things in order. A contract sees the list.
#[derive(Debug, Drop)]
pub struct Sequence<T> {
    items: Vec<T>,
}

impl<T> Model for Sequence<T> {
    ghost use Rattle.std.specs.Prelude.{List};

    ghost Value = { List T };

    ghost view = { λ s. s.items.items };
}

impl<T> Sequence<T> {
    /// The things of a vector. Takes no memory.
    pub fn of(items: Vec<T>) -> Self
        ensures { result ≡ items.items }
    {
        Sequence { items }
    }

    /// An empty list. Takes no memory.
    pub fn empty(alloc: Global) -> Self
        ensures { result ≡ [] }
    {
        Sequence {
            items: Vec::new(alloc),
        }
    }

    /// The things as a vector. Takes no memory.
    pub fn into_vec(self) -> Vec<T>
        ensures { result.items ≡ self }
    {
        self.items
    }

    /// The things, in order.
    pub fn as_slice(&self) -> &[T]
        ensures { result.now ≡ self.now }
    {
        self.items.as_slice()
    }
}

impl<T> Sequence<(Name, T)> {
    /// The first thing of that name. Linear in the list.
    pub fn named(&self, name: &Name) -> Option<&T>
        ensures { option_map (λ x. x.now) result ≡ named name.now self.now }
    {
        for item in self.as_slice() {
            if name.as_str() == item.0.as_str() {
                return Some(&item.1);
            }
        }
        None
    }
}
