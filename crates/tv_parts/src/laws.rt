//! What holds of the definitions alone: each law is the clause of a function that does nothing.
ghost use Rattle.tv_parts.specs.Stated.{StayBelow, ShowMore, ChangeNoWhole, ChangeThere, WholeIsValue, WholeByCount, CounterRises, WholeWhereAllKnown};
ghost use Rattle.tv_parts.specs.Worked.{PartsInAnyOrder, PassesOver, ClosesFirst, KnowsPartsOfList, KnowsNothingElse};

/// What changes a tree keeps it below its value and keeps what was known; it can be where nothing is known yet, and so in
/// nothing that is whole.
pub fn trees_that_change()
    ensures stay { StayBelow }
    ensures show { ShowMore }
    ensures whole { ChangeNoWhole }
    ensures there { ChangeThere }
{}

/// A whole tree is its value. The counter of whole parts tells of it, and so does what is known of the value's nodes.
pub fn whole_trees()
    ensures value { WholeIsValue }
    ensures count { WholeByCount }
    ensures rises { CounterRises }
    ensures known { WholeWhereAllKnown }
{}

/// Worked examples.
pub fn worked()
    ensures order { PartsInAnyOrder }
    ensures over { PassesOver }
    ensures first { ClosesFirst }
    ensures known { KnowsPartsOfList }
    ensures nothing_else { KnowsNothingElse }
{}
