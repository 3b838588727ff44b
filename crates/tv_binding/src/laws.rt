//! What holds of the definitions alone: each law is the clause of a function that does nothing.
ghost use Rattle.tv_binding.specs.Binding.{JobsBindWhatIsDelivered, OutputsAreDelivered};
ghost use Rattle.tv_binding.specs.Stated.{FindsWhatIsDelivered, FindsWhatIsKnown, FindsInside, WrappingKeeps};

/// What a feed is found to deliver is what it delivers, and it is found as soon as it is known; what is inside is found with
/// the whole; and wrapped values stand inside.
pub fn what_is_found()
    ensures delivered { FindsWhatIsDelivered }
    ensures known { FindsWhatIsKnown }
    ensures inside { FindsInside }
    ensures wrapped { WrappingKeeps }
{}

/// What a job is found to bind, and what a flow's outputs are found to be, is what is delivered there.
pub fn what_jobs_bind()
    ensures jobs { JobsBindWhatIsDelivered }
    ensures outputs { OutputsAreDelivered }
{}
