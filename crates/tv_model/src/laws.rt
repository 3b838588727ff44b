//! What holds of the definitions alone: each law is the clause of a function that does nothing.
ghost use Rattle.tv_model.specs.Stated.{NeedsAreEarlier, OrderHasAllAsks, TotalsAreSums};

pub mod records;

/// The needs of a job name only jobs of its own instance, of steps that were taken earlier.
pub fn needs_are_earlier()
    ensures { NeedsAreEarlier }
{}

/// The order of one worker has the asks of all jobs of the meaning and no others, each as often.
pub fn order_has_all_asks()
    ensures { OrderHasAllAsks }
{}

/// The totals are sums over the jobs.
pub fn totals_are_sums()
    ensures { TotalsAreSums }
{}
