//! The instances of a meaning, and of a history, are instances by the results of their jobs: laws, of which the program
//! runs nothing.
//!
//! `tv_model` defines an instance of a flow by what its jobs give and by the events that it was told. Here stands what
//! ties that to the meaning of a document and to its histories:
//! - the steps and jobs of every instance of a meaning are those that the results of its own jobs give
//!   (`specs/instances/OwnResults.antt`), whatever the services are;
//! - what a history says of one of its open instances, which jobs are ready, what can be settled and whether it can end,
//!   is told by the events that are the instance's part of it (`specs/instances/InHistory.antt`), and so is which list may be
//!   closed and which fault passed next; each entry is an event of one instance, or none;
//! - events alone tell which steps are whole and which have ended, since the levels of every step are known from the
//!   flow.
//!
//! All laws are stated in `specs/instances/Stated.antt`.
ghost use Rattle.tv_framing.specs.instances.Stated.{EndedIsByEvents, EntriesAreEvents, EventsRise, LegalEventsFit, NodesAreOwn, OpenInstancesAreToldByEvents, OthersStaySettled, OwnResultsAreOfDepth, RecalledIsNone, SettlementsAreLegal, StepsAreByOwnResults, StepsHaveTheirLevels, WholeIsByEvents};

/// The steps and jobs of every instance of a meaning are those by the results of its own jobs, which are of the declared
/// depths where its jobs give values of these.
pub fn instances_are_by_results()
    ensures steps { StepsAreByOwnResults }
    ensures depths { OwnResultsAreOfDepth }
{}

/// Every node of an instance is its own; and its steps have the levels, and its outputs the depths, that its flow tells.
pub fn steps_of_instances()
    ensures nodes { NodesAreOwn }
    ensures levels { StepsHaveTheirLevels }
{}

/// What events alone tell: what becomes known with one more, which steps are whole and which have ended.
pub fn events_tell()
    ensures rise { EventsRise }
    ensures fit { LegalEventsFit }
    ensures whole { WholeIsByEvents }
    ensures ended { EndedIsByEvents }
{}

/// What a history says of one of its open instances, by the instance's events: which jobs are ready, what can be settled and
/// whether it can end; and that settlements are legal in the one exactly where they are in the other.
pub fn open_instances()
    ensures told { OpenInstancesAreToldByEvents }
    ensures settlements { SettlementsAreLegal }
{}

/// Which entry of a history is which event of an instance, and which is none.
pub fn entries_are_events()
    ensures events { EntriesAreEvents }
    ensures recalled { RecalledIsNone }
    ensures others { OthersStaySettled }
{}
