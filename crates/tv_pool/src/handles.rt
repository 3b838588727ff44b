//! The handles that a pool gives out.
ghost use Rattle.std.specs.Prelude.{◌≡◌, ◌==◌};
ghost use Rattle.tv_pool.specs.Pool.{number_of, slot_of, lies_at, nowhere};

/// A region of a pool, which is filled by `Pool::put` and goes by `Pool::release`.
///
/// It is seen as its number, which no other region of the pool ever has. It is neither copied nor
/// cloned, so a region that was released can't be named again.
#[derive(Debug, Drop)]
pub struct Region {
    // How many regions the pool had begun before.
    pub(crate) number: u64,
    // Where the pool's table of regions has it.
    pub(crate) entry: usize,
}

impl Region {
    /// That of no pool: what stands in a region's place where there is none. Its number is the one that no region gets.
    pub fn none() -> Region
        ensures { number_of result ≡ u64.MAX }
    {
        Region {
            number: u64::MAX,
            entry: 0,
        }
    }
}

/// An item of a pool: its region's number and its position in that region's list.
#[derive(Clone, Copy, Debug, PartialEq, Eq)]
pub struct Node {
    // The number of the region.
    pub(crate) region: u64,
    // How many items the region had before.
    pub(crate) position: u64,
    // Where the pool's memory has the item.
    pub(crate) slot: usize,
}

impl Node {
    /// The short handle of the item.
    pub fn link(self) -> Link
        ensures { lies_at result ≡ slot_of self }
    {
        Link { slot: self.slot }
    }
}

/// A short handle of an item, for links among the items of one region: where the item lies, or nowhere.
///
/// It takes a third of a node's memory. It doesn't name its region, so it stands for an item only while this region is
/// live, and a caller keeps the links of each region apart.
#[derive(Clone, Copy, Debug, PartialEq, Eq)]
pub struct Link {
    // Where the pool's memory has the item, or the greatest number, where no item lies.
    pub(crate) slot: usize,
}

impl Link {
    /// The link to no item.
    pub fn none() -> Link
        ensures { lies_at result ≡ nowhere }
    {
        Link { slot: usize::MAX }
    }

    /// Whether it is the link to no item.
    pub fn is_none(self) -> bool
        ensures { result ≡ (lies_at self == nowhere) }
    {
        self.slot == usize::MAX
    }
}
