//! Accepted documents agree in their depths, and what they mean has the depths that the check's plan states.
//!
//! Definitions and laws alone: the program runs nothing of them. The check of `tv_check` speaks of declared depths, the
//! meaning of `tv_model` of values; here the two are brought together, for every accepted document and all services.
//!
//! - `specs/InstanceFlows.antt`: which flow an instance of a meaning is of, and which of its steps a name stands for
//! - `specs/PlannedDepths.antt`: when ports, jobs and outputs have the depths of the plan
//! - `specs/Stated.antt`, `specs/Rows.antt`: the laws, and a worked document

ghost use Rattle.tv_history.specs.agreement.Rows.{FlowsOfInstances, RowsAreAccepted};
ghost use Rattle.tv_history.specs.agreement.Stated.{AcceptedDocumentsAgree, MeaningsAreAsPlanned};

/// A document that was read and that the check accepts agrees in its depths.
pub fn accepted_documents_agree()
    ensures { AcceptedDocumentsAgree }
{}

/// In the meaning of every accepted document each value at a port has the delivered depth that the check's plan states
/// for this port of this step of this flow, and each job's values have the depths that its own step declares. A step or
/// job is held against the step of its name in the flow of its own instance: the main flow, or the flow that the job of
/// the instance's name opens.
pub fn meanings_are_as_planned()
    ensures { MeaningsAreAsPlanned }
{}

/// A worked document with a nested flow: the flow of each of its instances, and that it is accepted.
pub fn rows()
    ensures flows { FlowsOfInstances }
    ensures accepted { RowsAreAccepted }
{}
