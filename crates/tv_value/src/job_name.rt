use crate::place::Place;
use crate::sequence::Sequence;
use crate::text::Name;

/// The name of a job: a step and a place for each flow that it lies in, the main flow first.
pub type JobName = Sequence<(Name, Place)>;

/// A list of names of jobs.
pub type JobNames = Sequence<JobName>;
