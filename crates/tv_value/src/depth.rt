ghost use Rattle.std.specs.Prelude.{◌≡◌};
ghost use Rattle.tv_value.specs.DepthSets.{common, one_deeper, least_of};
ghost use Rattle.tv_value.specs.DepthViews.{depth_set_view};

/// The depths that a value has.
#[derive(Clone, Copy)]
pub(crate) enum DepthSet {
    Exactly(u32),
    AtLeast(u32),
    NoDepth,
}

impl DepthSet {
    /// The depths in both.
    pub(crate) fn common(self, other: DepthSet) -> DepthSet
        ensures { depth_set_view result ≡ common (depth_set_view self) (depth_set_view other) }
    {
        match (self, other) {
            (DepthSet::Exactly(c), DepthSet::Exactly(d)) => if c == d {
                self
            } else {
                DepthSet::NoDepth
            },
            (DepthSet::Exactly(c), DepthSet::AtLeast(d)) => if d <= c {
                self
            } else {
                DepthSet::NoDepth
            },
            (DepthSet::AtLeast(c), DepthSet::Exactly(d)) => if c <= d {
                other
            } else {
                DepthSet::NoDepth
            },
            (DepthSet::AtLeast(c), DepthSet::AtLeast(d)) => DepthSet::AtLeast(if c < d {
                d
            } else {
                c
            }),
            _ => DepthSet::NoDepth,
        }
    }

    /// The depths of a list whose items have these in common.
    pub(crate) fn one_deeper(self) -> DepthSet
        ensures { depth_set_view result ≡ one_deeper (depth_set_view self) }
    {
        match self {
            DepthSet::Exactly(d) => if d < u32::MAX {
                DepthSet::Exactly(d + 1)
            } else {
                DepthSet::NoDepth
            },
            DepthSet::AtLeast(d) => if d < u32::MAX {
                DepthSet::AtLeast(d + 1)
            } else {
                DepthSet::NoDepth
            },
            DepthSet::NoDepth => DepthSet::NoDepth,
        }
    }

    /// The least of the depths.
    pub(crate) fn least(self) -> Option<u32>
        ensures { result ≡ least_of (depth_set_view self) }
    {
        match self {
            DepthSet::Exactly(d) | DepthSet::AtLeast(d) => Some(d),
            DepthSet::NoDepth => None,
        }
    }
}
