//! What is on offer in a run, and how each entry changes where its jobs stand.
//!
//! A worker needs no walk over the jobs of the meaning: it keeps of each job whether it waits, is out, is
//! idle, has its flow open or is settled, and the laws here say what may be appended then. A job is on offer
//! where it has an ask and is idle, or is ready with a free place of its step; and each entry but a recall
//! changes where one job stands at most. This is so of every legal history, however deep the instance of a
//! job.
//!
//! - `specs/offers/Offers.antt`: what is on offer, and what may be handed out
//! - `specs/offers/Ends.antt`: bounces
//! - `specs/offers/Stages.antt`, `specs/offers/Changes.antt`: where a job stands, and after an entry
ghost use Rattle.tv_history.specs.order.offers.Changes.{Accepting, Bouncing, EndingNow, HandingOut, OpeningNow, Recalling, Settling};
ghost use Rattle.tv_history.specs.order.offers.Ends.{BounceIsLegal, NoneBounces};
ghost use Rattle.tv_history.specs.order.offers.Offers.{CountedByNames, HandingOutIsLegal, NothingOffered, OfferedByStage, PlacesByStep};
ghost use Rattle.tv_history.specs.order.offers.Stages.{StagesOfJobs};

/// The first ask on offer may be handed out, and nothing may where nothing is on offer.
pub fn first_offered()
    ensures legal { HandingOutIsLegal }
    ensures nothing { NothingOffered }
{}

/// Whether a job is on offer is told by where it stands, and by how many of its step run in its instance.
pub fn offered_by_stage()
    ensures stage { OfferedByStage }
    ensures places { PlacesByStep }
    ensures counted { CountedByNames }
{}

/// When a job may bounce.
pub fn bounces()
    ensures bounce { BounceIsLegal }
    ensures none { NoneBounces }
{}

/// Where a job stands: settled, out, idle, with its flow open or none of these.
pub fn stages()
    ensures { StagesOfJobs }
{}

/// How each entry changes where jobs stand.
pub fn changes()
    ensures handed_out { HandingOut }
    ensures accepted { Accepting }
    ensures bounced { Bouncing }
    ensures opened { OpeningNow }
    ensures ended { EndingNow }
    ensures recalled { Recalling }
    ensures settled { Settling }
{}
