ghost use Rattle.std.specs.Prelude.{◌≡◌, ◌++◌, ◌∷◌, [], ◌<◌, ◌≤◌, length, take, IfOk, OnOk, OnErr};
ghost use Rattle.tv_match.specs.Entries.{Entry, entry, entry_at, front};

use crate::kinds::Kind;
use std::alloc::Global;
use std::marker::Model;
use tv_value::NoMemory;

/// Where the place of an item stands in the list of all indices, and what stands there.
#[derive(Clone, Copy, Debug)]
pub struct Slot {
    start: usize,
    length: usize,
    kind: Kind,
    number: usize,
}

/// Items in order, each with its place, its kind and the number of the telling that brought it. A contract sees the list.
///
/// The indices of all places stand in one list.
#[derive(Debug, Drop)]
pub struct Bag {
    slots: Vec<Slot>,
    indices: Vec<u32>,
}

impl Model for Bag {
    ghost use Rattle.std.specs.Prelude.{List};
    ghost use Rattle.tv_match.specs.Entries.{Entry};

    ghost Value = { List Entry };

    ghost use Rattle.tv_match.specs.Slots.{bag_entries, AreLaid};
    ghost use Rattle.std.specs.Prelude.{length};

    ghost view = { λ b. bag_entries b.indices.items b.slots.items };

    ghost invariant = { λ b. AreLaid 0 b.slots.items (length b.indices.items) };
}

impl Bag {
    /// An empty bag. Takes no memory.
    pub fn new(alloc: Global) -> Bag
        ensures { result ≡ [] }
    {
        Bag {
            slots: Vec::new(alloc),
            indices: Vec::new(alloc),
        }
    }

    /// An equal bag.
    pub fn copy(&self, alloc: Global) -> Result<Bag, NoMemory>
        ensures { IfOk result (λ b. b ≡ self.now) }
    {
        Ok(Bag {
            slots: self.slots.as_slice().to_vec(alloc)?,
            indices: self.indices.as_slice().to_vec(alloc)?,
        })
    }

    /// How many items there are.
    pub fn len(&self) -> usize
        ensures { result ≡ length self.now }
    {
        self.slots.len()
    }

    /// The place of an item.
    pub fn place(&self, at: usize) -> &[u32]
        requires { at < length self.now }
        ensures { result.now ≡ (entry_at self.now at).place }
    {
        let slot = self.slots[at];
        let (_before, from) = self.indices.as_slice().split_at(slot.start);
        let (place, _after) = from.split_at(slot.length);
        place
    }

    /// The kind of an item.
    pub fn kind(&self, at: usize) -> Kind
        requires { at < length self.now }
        ensures { result ≡ (entry_at self.now at).kind }
    {
        self.slots[at].kind
    }

    /// The number of the telling that brought an item.
    pub fn number(&self, at: usize) -> usize
        requires { at < length self.now }
        ensures { result ≡ (entry_at self.now at).number }
    {
        self.slots[at].number
    }

    /// Puts an item at the end. Its place is that of `inside`, seen from outside the place `at`.
    pub fn push(
        &mut self,
        at: &[u32],
        inside: &[u32],
        kind: Kind,
        number: usize,
    ) -> Result<(), NoMemory>
        ensures ok { OnOk result (self.new ≡ self.old ++ entry number (at.now ++ inside.now) kind
            ∷ []) }
        ensures err { OnErr result (self.new ≡ self.old) }
    {
        let start = self.indices.len();
        put_both(&mut self.indices, at, inside)?;
        let slot = Slot {
            start,
            length: self.indices.len() - start,
            kind,
            number,
        };
        match self.slots.push(slot) {
            Ok(()) => Ok(()),
            Err(_full) => {
                self.indices.truncate(start);
                Err(NoMemory)
            }
        }
    }

    /// Keeps the first items alone. Takes no memory.
    pub fn truncate(&mut self, count: usize)
        ensures { self.new ≡ take count self.old }
    {
        if count < self.slots.len() {
            let start = self.slots[count].start;
            self.indices.truncate(start);
            self.slots.truncate(count);
        }
    }

    /// How many items stand before those at the end that a telling with a greater number brought.
    pub fn front_len(&self, number: usize) -> usize
        ensures within { result ≤ length self.now }
        ensures front { take result self.now ≡ front number self.now }
    {
        let mut count = self.slots.len();
        while count > 0 && self.slots[count - 1].number > number {
            count -= 1;
        }
        count
    }

    /// Takes away the items at the end that a telling with a greater number brought. Takes no memory.
    pub fn cut(&mut self, number: usize)
        ensures { self.new ≡ front number self.old }
    {
        let count = self.front_len(number);
        self.truncate(count);
    }
}

/// Puts indices at the end, and then others. Where memory is wanting the list stays as it was.
fn put_both(indices: &mut Vec<u32>, first: &[u32], second: &[u32]) -> Result<(), NoMemory>
    ensures ok { OnOk result (indices.new.items ≡ indices.old.items ++ (first.now ++ second.now)) }
    ensures err { OnErr result (indices.new.items ≡ indices.old.items) }
{
    let before = indices.len();
    put_all(indices, first)?;
    match put_all(indices, second) {
        Ok(()) => Ok(()),
        Err(error) => {
            indices.truncate(before);
            Err(error)
        }
    }
}

/// Puts indices at the end. Where memory is wanting the list stays as it was.
#[inline(always)]
fn put_all(indices: &mut Vec<u32>, more: &[u32]) -> Result<(), NoMemory>
    ensures ok { OnOk result (indices.new.items ≡ indices.old.items ++ more.now) }
    ensures err { OnErr result (indices.new.items ≡ indices.old.items) }
{
    if more.is_empty() {
        return Ok(());
    }
    put_some(indices, more)
}

/// The same where there may be some.
#[inline(never)]
fn put_some(indices: &mut Vec<u32>, more: &[u32]) -> Result<(), NoMemory>
    ensures ok { OnOk result (indices.new.items ≡ indices.old.items ++ more.now) }
    ensures err { OnErr result (indices.new.items ≡ indices.old.items) }
{
    match more {
        [index] => match indices.push(*index) {
            Ok(()) => Ok(()),
            Err(_full) => Err(NoMemory),
        },
        _ => match indices.extend_from_slice(more) {
            Ok(()) => Ok(()),
            Err(_error) => Err(NoMemory),
        },
    }
}
