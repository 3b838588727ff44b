ghost use Rattle.std.specs.Prelude.{◌≡◌, ◌+◌, ◌≤◌, ◌<◌, [], ◌∷◌, ◌++◌, length, take, drop, IfOk, IsOk, OnOk, OnErr};
ghost use Rattle.tv_value.specs.Orders.{is_prefix};

use crate::copied::Copied;
use crate::memory::NoMemory;
use smallvec::SmallVec;
use std::alloc::Global;
use std::marker::Model;

/// A place in a value: an index for each level, the outermost first. The empty place is the whole value.
///
/// Up to 32 indices it holds with no allocation. No delivered depth is greater.
#[derive(Debug, Drop)]
pub struct Place {
    indices: SmallVec<u32, 32>,
}

impl Model for Place {
    ghost use Rattle.std.specs.Prelude.{List, ℕ, ◌≤◌};

    ghost Value = { List ℕ };

    ghost view = { λ p. p.indices.items };

    ghost invariant = { λ p. 32 ≤ p.indices.capacity };
}

impl Place {
    /// The whole value. Takes no memory.
    pub fn top(alloc: Global) -> Place
        ensures { result ≡ [] }
    {
        Place {
            indices: SmallVec::new(alloc),
        }
    }

    /// The place of these indices. Takes memory only for more than 32.
    pub fn of(alloc: Global, indices: &[u32]) -> Result<Place, NoMemory>
        ensures ok { IfOk result (λ p. p ≡ indices.now) }
        ensures short { length indices.now ≤ 32 → IsOk result }
    {
        let mut place = Place::top(alloc);
        match indices {
            [] => (),
            [index] => place.indices.push(*index)?,
            _ => place.indices.extend_from_slice(indices)?,
        }
        Ok(place)
    }

    /// The indices, the outermost first.
    pub fn as_slice(&self) -> &[u32]
        ensures { result.now ≡ self.now }
    {
        self.indices.as_slice()
    }

    /// The place as seen from a list that has it at an index. Linear in the place.
    pub fn below(self, index: u32) -> Result<Place, NoMemory>
        ensures ok { IfOk result (λ p. p ≡ index ∷ self) }
        ensures short { length self < 32 → IsOk result }
    {
        let mut indices = self.indices;
        indices.insert(0, index)?;
        Ok(Place { indices })
    }

    /// Whether this place is the first part of another, or all of it.
    pub fn prefix_of(&self, other: &Place) -> bool
        ensures { result ≡ is_prefix self.now other.now }
    {
        let all = other.indices.as_slice();
        let first = self.indices.as_slice();
        first.len() <= all.len() && first == &all[..first.len()]
    }

    /// This place, and then the other one inside it.
    pub fn join(&self, alloc: Global, tail: &Place) -> Result<Place, NoMemory>
        ensures ok { IfOk result (λ p. p ≡ self.now ++ tail.now) }
        ensures short { length self.now + length tail.now ≤ 32 → IsOk result }
    {
        let mut place = self.copy(alloc)?;
        place.indices.extend_from_slice(tail.indices.as_slice())?;
        Ok(place)
    }

    /// Puts the other place inside this one. Where memory is wanting this one stays as it was.
    pub fn append(&mut self, tail: &Place) -> Result<(), NoMemory>
        ensures ok { OnOk result (self.new ≡ self.old ++ tail.now) }
        ensures err { OnErr result (self.new ≡ self.old) }
        ensures short { length self.old + length tail.now ≤ 32 → IsOk result }
    {
        self.indices.extend_from_slice(tail.indices.as_slice())?;
        Ok(())
    }

    /// The first `at` indices, and the others.
    pub fn split(&self, alloc: Global, at: usize) -> Result<(Place, Place), NoMemory>
        requires { at ≤ length self.now }
        ensures ok { IfOk result (λ parts. (parts.0 ≡ take at self.now)
            × (parts.1 ≡ drop at self.now)) }
        ensures short { length self.now ≤ 32 → IsOk result }
    {
        let (front, back) = self.indices.as_slice().split_at(at);
        let front = Place::of(alloc, front)?;
        let back = Place::of(alloc, back)?;
        Ok((front, back))
    }
}

impl Copied for Place {
    fn copy(&self, alloc: Global) -> Result<Place, NoMemory>
        ensures ok { IfOk result (λ p. p ≡ self.now) }
        ensures short { length self.now ≤ 32 → IsOk result }
    {
        Place::of(alloc, self.indices.as_slice())
    }
}
