//! What a node of a partial tree holds.
ghost use Rattle.std.specs.Prelude.{◌≡◌, ◌<◌, ◌^◌};
ghost use Rattle.tv_stream.specs.Inside.{counts_with, counts_ended, counts_whole, counts_in, held_whole, held_kind, has_place as has_place_at, nothing};

/// What a node of a partial tree holds, which only the tree reads.
#[derive(Debug, Drop)]
pub struct Held<T> {
    // Whether it is a marked item, or a list with one inside.
    pub(crate) marked: bool,
    pub(crate) part: Part<T>,
}

/// What is known of a part.
#[derive(Debug, Drop)]
pub(crate) enum Part<T> {
    Wanting,
    Item(T),
    Numbered(Counts),
}

/// What is counted of a list.
#[derive(Clone, Copy, Debug)]
pub(crate) struct Counts {
    // The greatest known index, plus 1.
    pub(crate) most: u64,
    // How many parts are whole.
    pub(crate) whole: u64,
    // The length, where the list is closed.
    pub(crate) length: Option<u32>,
}

/// What is known at a place.
#[derive(Clone, Copy, Debug, PartialEq, Eq)]
pub enum PartKind {
    /// Nothing.
    Wanting,
    /// A list whose length isn't known.
    Growing,
    /// A list of this length.
    Closed(u32),
    /// An item.
    Item,
}

impl<T> Held<T> {
    /// Nothing is known.
    pub(crate) fn wanting() -> Held<T>
        ensures { result ≡ nothing }
    {
        Held {
            marked: false,
            part: Part::Wanting,
        }
    }

    pub(crate) fn kind(&self) -> PartKind
        ensures { result ≡ held_kind self.now }
    {
        match &self.part {
            Part::Wanting => PartKind::Wanting,
            Part::Item(_) => PartKind::Item,
            Part::Numbered(counts) => match counts.length {
                None => PartKind::Growing,
                Some(length) => PartKind::Closed(length),
            },
        }
    }

    /// Whether all is known.
    pub(crate) fn is_whole(&self) -> bool
        ensures { result ≡ held_whole self.now }
    {
        match &self.part {
            Part::Wanting => false,
            Part::Item(_) => true,
            Part::Numbered(counts) => counts.is_whole(),
        }
    }

    /// Whether there can be a part at this index: no item stands here, nor a closed list that is too short.
    pub(crate) fn has_place(&self, index: u32) -> bool
        ensures { result ≡ has_place_at self.now index }
    {
        match &self.part {
            Part::Wanting => true,
            Part::Item(_) => false,
            Part::Numbered(counts) => match counts.length {
                None => true,
                Some(length) => index < length,
            },
        }
    }

    /// What is counted of the list that stands here, or may.
    pub(crate) fn counts(&self) -> Counts
        ensures { result ≡ counts_in self.now }
    {
        match &self.part {
            Part::Numbered(counts) => *counts,
            _ => Counts {
                most: 0,
                whole: 0,
                length: None,
            },
        }
    }
}

impl Counts {
    pub(crate) fn is_whole(self) -> bool
        ensures { result ≡ counts_whole self }
    {
        match self.length {
            None => false,
            Some(length) => self.whole == u64::from(length),
        }
    }

    /// With a part known at an index, which may have become whole by it.
    pub(crate) fn with(self, index: u32, whole: bool) -> Counts
        requires { self.whole < 2 ^ 63 }
        ensures { result ≡ counts_with self index whole }
    {
        Counts {
            most: self.most.max(u64::from(index) + 1),
            whole: self.whole + u64::from(whole),
            length: self.length,
        }
    }

    /// With the list closed.
    pub(crate) fn ended(self, length: u32) -> Counts
        ensures { result ≡ counts_ended self length }
    {
        Counts {
            most: self.most,
            whole: self.whole,
            length: Some(length),
        }
    }
}
