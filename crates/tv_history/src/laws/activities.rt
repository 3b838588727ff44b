//! What the form of a document says of the activities of its steps, and of the tries of its jobs.
//!
//! Every step of a document that was read has an activity, and eight at the most (`specs/activities/Stated.antt`). So every job that
//! isn't bounced has a try or opens a flow, and every try is of one of the first eight activities; no two tries of a job have
//! one activity and attempt (`proofs/activities/Tried.antt`, `Few.antt`, `Distinct.antt`).
//!
//! Which activity comes after the tries of a job, `specs/activities/Activities.antt` says.
ghost use Rattle.tv_history.specs.activities.Stated.{ActivitiesAreFew, DocumentsHaveActivities};

/// Every document that was read has an activity at every step.
pub fn documents_have_activities()
    ensures { DocumentsHaveActivities }
{}

/// Every try in the run of a document that was read is of the first eight activities of its step.
pub fn activities_are_few()
    ensures { ActivitiesAreFew }
{}
