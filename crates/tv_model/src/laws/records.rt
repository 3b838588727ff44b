//! The lineage of what a document means is what the records of its jobs lead to.
//!
//! `tv_model` says what lineage and forward use are, by a meaning's finished list of jobs;
//! `tv_lineage` has records of jobs that settled one by one, and searches them. The laws here join
//! the two, for every document and all services: with the records of all jobs, or of the main flow's
//! jobs alone, in any order, what `backward` and `forward` of `tv_lineage` say of an output element
//! and of an input element is the meaning's lineage and forward use; and with those of the main
//! flow's, `by_step` says which jobs of a step the meaning has. So whoever notes the jobs may use the
//! searches in place of the definitions. What was made from an element stands by port, then place.
//!
//! - `specs/records/Recorded.antt`: the records and leaves of a meaning
//! - `specs/records/Stated.antt`, `specs/records/Rows.antt`: the laws, and worked documents
ghost use Rattle.tv_model.specs.records.Rows.{CrossByRecords, FlowByRecords};
ghost use Rattle.tv_model.specs.records.Stated.{BackwardIsLineage, ByStepIsOfJobs, ForwardIsForward, ForwardRises, LineageIsReached};

/// What is noted of a meaning gives its lineage, backward and forward, and its jobs by step,
/// whatever the order; and so its lineage is what is reached. What was made from an element stands
/// in order.
pub fn meanings()
    ensures reached { LineageIsReached }
    ensures backward { BackwardIsLineage }
    ensures forward { ForwardIsForward }
    ensures in_order { ForwardRises }
    ensures by_step { ByStepIsOfJobs }
{}

/// Worked documents.
pub fn worked()
    ensures crossed { CrossByRecords }
    ensures opened { FlowByRecords }
{}
