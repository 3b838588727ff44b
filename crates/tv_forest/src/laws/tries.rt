//! The tries of one job by numbers: laws, of which the program runs nothing.
//!
//! In a meaning the asks of a job are a finished list, and a history takes one with each outcome that is accepted. An
//! engine keeps of each job only the activity and the attempt of its next try, and finds the one after it by its step's
//! plan (`first_next` and `next_after` of `tv_dispatch`). The laws of `specs/tries/Stated.antt` promise that
//! - what the plan says comes first is the job's first ask, or the flow that it opens at once;
//! - what the plan says comes after an outcome is the job's next ask, the flow that it opens then, or the end, with the
//!   result that the meaning has;
//! - the flow that a job opens is that of the activity after the last that it asks;
//! - every ask is an attempt of the plan at a service of the job's own step, on the job's inputs;
//! - a job with an error in its inputs, and no other, is bounced, asks nothing and opens nothing;
//! - entries that accept no outcome of a job keep its next ask.
//!
//! Each job has its own step in the flow of its instance, and may run as often at once as that step says.
//!
//! - `specs/tries/Steps.antt`: a job by its own step, the step's plan, and an ask by its numbers
//! - `specs/tries/NextTries.antt`: what a job does next, by the plan
ghost use Rattle.tv_forest.specs.tries.Stated.{ActivitiesAreFew, AsksAreOfPlan, AsksAreOfStep, BouncedAsksNone, BouncedByInputs, FirstTryIsFirst, FlowIsOfStep, FlowsComeAfterAsks, LimitIsOfStep, NextTryFollows, OthersKeepTries, OwnPartsAre, TotalsByTries};

/// What a job's plan says comes first, and after an outcome, is what the meaning and the history say of the job.
pub fn tries_follow()
    ensures first { FirstTryIsFirst }
    ensures next { NextTryFollows }
    ensures others { OthersKeepTries }
{}

/// The flow that a job opens is that of the activity after the last that it asks, by its plan and by its step.
pub fn flows_follow()
    ensures after { FlowsComeAfterAsks }
    ensures step { FlowIsOfStep }
{}

/// A job's next ask is an attempt at a service of its own step, one of the first eight, as the step's plan has it.
pub fn asks_are_of_steps()
    ensures step { AsksAreOfStep }
    ensures plan { AsksAreOfPlan }
    ensures few { ActivitiesAreFew }
{}

/// Which jobs are bounced, and that these ask nothing and give errors.
pub fn bounced_jobs()
    ensures none { BouncedAsksNone }
    ensures inputs { BouncedByInputs }
{}

/// Each job has its own step, whose limit is the job's, and what a history tells of a settled job's tries says whether
/// the job has failed.
pub fn jobs_are_of_steps()
    ensures parts { OwnPartsAre }
    ensures limit { LimitIsOfStep }
    ensures totals { TotalsByTries }
{}
