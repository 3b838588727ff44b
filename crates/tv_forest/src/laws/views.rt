//! What the view of a frame says of the run that the frame is in: laws, of which the program runs nothing.
//!
//! A frame is told events of one instance. Where these are the instance's part of a legal run of an accepted document
//! (`specs/views/InRun.antt`), the view tells which of the run's jobs are known, ready, running and settled, what they bind, which
//! lists and faults can be settled, whether the instance can end and what it gives.
ghost use Rattle.tv_forest.specs.views.Stated.{BegunIsKnown, InputsAreTold, InstancesEndAsTold, JobsAreSomewhere, KnownJobsAreThere, LevelsSettleAsTold, OutputsAreMeant, OutputsAreResults, PlacedJobsAreJobs, ReadyIsTold, TakenIsRunning};

/// The known jobs of a view are jobs of the run, all that were begun are known, and each job of the instance stands at
/// a step and place.
pub fn jobs_of_the_run()
    ensures known { KnownJobsAreThere }
    ensures begun { BegunIsKnown }
    ensures somewhere { JobsAreSomewhere }
{}

/// By the view it is told which of the run's jobs are ready, which were begun and which are settled.
pub fn going_of_jobs()
    ensures ready { ReadyIsTold }
    ensures taken { TakenIsRunning }
{}

/// What a job binds in all instances that have what was told it binds in the run, and it is bounced where that holds a fault.
pub fn inputs_of_jobs()
    ensures placed { PlacedJobsAreJobs }
    ensures inputs { InputsAreTold }
{}

/// By the view it is told whether the instance can end, which lists and faults can be settled, of the main instance what
/// the document means, and of each other what the job that opened it gives.
pub fn instance_in_the_run()
    ensures ends { InstancesEndAsTold }
    ensures settles { LevelsSettleAsTold }
    ensures outputs { OutputsAreMeant }
    ensures results { OutputsAreResults }
{}
