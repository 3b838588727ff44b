//! What holds of the definitions alone: each law is the clause of a function that does nothing.
ghost use Rattle.tv_lineage.specs.Kept.{Kept};
ghost use Rattle.tv_lineage.specs.Reaching.{Numbers};
ghost use Rattle.tv_lineage.specs.Stated.{BackwardIsClosure, BackwardIsOnlyOne, OrderIsOfNoAccount, ForwardInAnyOrder, ByStepInAnyOrder, MadeFromIsReached, ByStepHasJobs, ByStepInOrder, GroupIsItsParts, SearchBegins, SearchGoesOn, SearchFindsAll, TableMayGrow, TableIsWhole, TableTells};
ghost use Rattle.tv_lineage.specs.Worked.{FollowsRecords};

/// What goes backward has exactly the labels that are reached, in order, each once.
pub fn closures()
    ensures reached { BackwardIsClosure }
    ensures only { BackwardIsOnlyOne }
    ensures made_from { MadeFromIsReached }
{}

/// The sequence in which records were noted is of no account.
pub fn orders()
    ensures backward { OrderIsOfNoAccount }
    ensures forward { ForwardInAnyOrder }
    ensures by_step { ByStepInAnyOrder }
{}

/// The jobs of a step.
pub fn jobs_of_steps()
    ensures jobs { ByStepHasJobs }
    ensures order { ByStepInOrder }
{}

/// What is kept once though many jobs used it.
pub fn groups()
    ensures parts { GroupIsItsParts }
{}

/// Searches look at each group once, and find all.
pub fn searches()
    ensures begins { (ns : Numbers) (k : Kept) → SearchBegins ns k }
    ensures goes_on { (ns : Numbers) (k : Kept) → SearchGoesOn ns k }
    ensures finds { (ns : Numbers) (k : Kept) → SearchFindsAll ns k }
{}

/// Tables of what was made from an element.
pub fn tables()
    ensures grows { (ns : Numbers) (k : Kept) → TableMayGrow ns k }
    ensures whole { (ns : Numbers) (k : Kept) → TableIsWhole ns k }
    ensures tells { TableTells }
{}

/// Worked examples.
pub fn worked()
    ensures followed { FollowsRecords }
{}
