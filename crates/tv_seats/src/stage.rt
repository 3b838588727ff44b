//! Where a known job stands.
ghost use Rattle.std.specs.Prelude.{◌≡◌};
ghost use Rattle.tv_seats.specs.Stages.{is_nested, is_out};

/// Where a known job stands. Activities and attempts count from 0.
#[derive(Clone, Copy, Debug, PartialEq, Eq)]
pub enum Stage {
    /// It hasn't begun.
    Waiting,
    /// This try of it is out.
    Out { activity: u32, attempt: u32 },
    /// It runs, nothing of it is out, and this is its next try.
    Idle { activity: u32, attempt: u32 },
    /// It runs, nothing of it is out, and the flow of this activity comes next.
    Aside { activity: u32 },
    /// It runs, and this instance, which it opened, hasn't ended.
    Nested { instance: u64 },
    /// It is done.
    Settled,
}

impl Stage {
    /// Whether a try of it is out.
    pub(crate) fn is_out(self) -> bool
        ensures { result ≡ is_out self }
    {
        matches!(self, Stage::Out { .. })
    }

    /// Whether its flow is open.
    pub(crate) fn is_nested(self) -> bool
        ensures { result ≡ is_nested self }
    {
        matches!(self, Stage::Nested { .. })
    }
}
