//! What a run's history holds.
use tv_value::Place;

/// An event of a run. Jobs have the numbers under which their names stand. Instances are numbered in
/// the order in which they are opened; the main instance is 0. Steps are
/// numbered from 0 in byte order of their names, in their flow.
#[derive(Debug, Drop)]
pub enum Entry {
    /// A service try was handed out: the activity and the attempt count from 0.
    HandedOut {
        job: u64,
        activity: u32,
        attempt: u32,
    },
    /// Its outcome was accepted, and was right or not.
    Accepted {
        job: u64,
        activity: u32,
        attempt: u32,
        right: bool,
    },
    /// The job's inputs hold an error.
    Bounced {
        job: u64,
    },
    /// A list of a step's iteration is complete, with this length.
    Closed {
        instance: u64,
        step: u32,
        place: Box<Place>,
        length: u32,
    },
    /// A fault stands in the place of a list of a step's iteration.
    Passed {
        instance: u64,
        step: u32,
        place: Box<Place>,
    },
    /// The job's flow was opened, under this number.
    Opened {
        job: u64,
        instance: u64,
    },
    /// All steps of the instance have ended.
    Ended {
        instance: u64,
    },
    /// So many tries that were out are no longer.
    Recalled {
        count: u64,
    },
}
