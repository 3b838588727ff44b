//! Worked examples: a step that walks a list of two texts, and one that takes what it makes as a whole. They compute.
//!
//! They stand in `specs/Worked.antt`. A wrong definition gives another value, which the check refuses.
ghost use Rattle.tv_model.specs.instance.Worked.{BindsWhatJobsGive, CountsWhatIsWhole, EndsAfterItsJobs, TellsInOrder};

/// What jobs give is bound by the jobs of the next step, counted as it comes, ends the instance, and comes in a legal order.
pub fn worked()
    ensures binds { BindsWhatJobsGive }
    ensures counts { CountsWhatIsWhole }
    ensures ends { EndsAfterItsJobs }
    ensures tells { TellsInOrder }
{}
