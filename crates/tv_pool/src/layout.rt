//! What a pool keeps in its memory.
ghost use Rattle.std.specs.Prelude.{◌≡◌};
ghost use Rattle.std.specs.Borrow.{sem};

/// An item of a region, whose slots are a chain from its last item to its first.
#[derive(Debug, Drop)]
pub(crate) struct Placed<T> {
    // The slot of the item before it, of any value where there is none.
    pub(crate) previous: usize,
    pub(crate) item: T,
}

/// The chain of a live region.
#[derive(Clone, Copy, Debug)]
pub(crate) struct Chain {
    // The number of the region.
    pub(crate) number: u64,
    // The slot of the last item, of any value where there is none.
    pub(crate) last: usize,
    // How many items the region has.
    pub(crate) count: u64,
}

impl<T> Placed<T> {
    ghost use Rattle.tv_pool.specs.Placed.{lends_item};

    pub(crate) fn item_mut(&mut self) -> &mut T
        ensures* lends { sem 𝓛 (lends_item T.row self.entry result) }
        ensures value { self.old.item ≡ result.now }
    {
        &mut self.item
    }
}
