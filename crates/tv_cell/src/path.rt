ghost use Rattle.std.specs.Prelude.{◌≡◌, ◌+◌, ◌≤◌, [], ◌++◌, length, IfOk, IsOk};

use smallvec::SmallVec;
use std::alloc::Global;
use std::marker::Model;
use tv_value::{Copied, NoMemory};

/// A place in a value that is kept small: an index for each level, the outermost first. The empty
/// path is the whole value.
///
/// Up to five indices it holds with no allocation.
#[derive(Drop)]
pub struct Path {
    indices: SmallVec<u32, 5>,
}

impl Model for Path {
    ghost use Rattle.std.specs.Prelude.{List, ℕ, ◌≤◌};

    ghost Value = { List ℕ };

    ghost view = { λ p. p.indices.items };

    ghost invariant = { λ p. 5 ≤ p.indices.capacity };
}

impl Path {
    /// The whole value. Takes no memory.
    pub fn top(alloc: Global) -> Path
        ensures { result ≡ [] }
    {
        Path {
            indices: SmallVec::new(alloc),
        }
    }

    /// The path of these indices. Takes memory only for more than five.
    pub fn of(alloc: Global, indices: &[u32]) -> Result<Path, NoMemory>
        ensures ok { IfOk result (λ p. p ≡ indices.now) }
        ensures short { length indices.now ≤ 5 → IsOk result }
    {
        let mut path = Path::top(alloc);
        match indices {
            [] => (),
            [index] => path.indices.push(*index)?,
            _ => path.indices.extend_from_slice(indices)?,
        }
        Ok(path)
    }

    /// The indices, the outermost first.
    pub fn as_slice(&self) -> &[u32]
        ensures { result.now ≡ self.now }
    {
        self.indices.as_slice()
    }

    /// This path, and then the indices inside what it leads to. Takes memory only for more than
    /// five in all.
    pub fn joined(&self, alloc: Global, tail: &[u32]) -> Result<Path, NoMemory>
        ensures ok { IfOk result (λ p. p ≡ self.now ++ tail.now) }
        ensures short { length self.now + length tail.now ≤ 5 → IsOk result }
    {
        if self.indices.is_empty() {
            return Path::of(alloc, tail);
        }
        let mut path = self.copy(alloc)?;
        if !tail.is_empty() {
            path.indices.extend_from_slice(tail)?;
        }
        Ok(path)
    }
}

impl Copied for Path {
    /// An equal path of its own. Takes memory only for more than five indices.
    fn copy(&self, alloc: Global) -> Result<Path, NoMemory>
        ensures ok { IfOk result (λ p. p ≡ self.now) }
        ensures short { length self.now ≤ 5 → IsOk result }
    {
        Path::of(alloc, self.indices.as_slice())
    }
}
