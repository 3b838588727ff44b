ghost use Rattle.std.specs.Prelude.{◌≡◌, ◌<◌, ◌≤◌, ◌^◌, length, drop, Some, slice_get};
ghost use Rattle.tv_dispatch.specs.Plans.{first_next, next_after, next_try, turns};

use tv_value::Sequence;

/// What an activity is.
#[derive(Clone, Copy, Debug, PartialEq, Eq)]
pub enum Kind {
    /// A service, which is asked.
    Service,
    /// A flow, which is opened.
    Nested,
}

/// A list of kinds of activities.
pub type Kinds = Sequence<Kind>;

/// A step as its dispatch sees it.
#[derive(Drop)]
pub struct Plan {
    /// The activities, in order of preference.
    pub activities: Kinds,
    /// How often a service is tried again.
    pub retries: u32,
}

/// What a job does next.
#[derive(Clone, Copy, Debug, PartialEq, Eq)]
pub enum Next {
    /// Nothing: an input holds an error.
    Bounce,
    /// Ask the activity's service. Activities and attempts count from 0.
    Ask { activity: u32, attempt: u32 },
    /// Open the activity's flow.
    Nest { activity: u32 },
    /// Nothing: the outcome is right.
    Done,
    /// Nothing: no try is left.
    Failed,
}

/// What a job does first. Takes no memory.
pub fn begin(plan: &Plan, holds_error: bool) -> Next
    ensures { result ≡ first_next plan.now holds_error }
{
    if holds_error {
        Next::Bounce
    } else {
        start_of(plan, 0)
    }
}

/// What it does after an outcome of this attempt at this activity, which is right or not. Takes no memory.
pub fn after(plan: &Plan, activity: u32, attempt: u32, right: bool) -> Next
    requires few { length plan.now.activities < 2 ^ 32 }
    requires service { slice_get plan.now.activities activity ≡ Some Kind.Service }
    requires attempts { attempt ≤ plan.now.retries }
    ensures { result ≡ next_after plan.now activity attempt right }
{
    if right {
        Next::Done
    } else if attempt < plan.retries {
        Next::Ask {
            activity,
            attempt: attempt + 1,
        }
    } else {
        start_of(plan, activity + 1)
    }
}

/// The first try of the activities from this one on.
fn start_of(plan: &Plan, activity: u32) -> Next
    ensures { result
        ≡ next_try (turns plan.now.retries activity (drop activity plan.now.activities)) }
{
    match plan.activities.as_slice().get(activity as usize) {
        Some(Kind::Service) => Next::Ask {
            activity,
            attempt: 0,
        },
        Some(Kind::Nested) => Next::Nest { activity },
        None => Next::Failed,
    }
}
