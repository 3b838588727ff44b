//! What holds of the definitions alone: each law is the clause of a function that does nothing.
ghost use Rattle.tv_stream.specs.Stands.{StaysWhereOneGrows, StaysWhereOneStarts, StaysElsewhere, StaysWhereAnotherIsReleased};
ghost use Rattle.tv_stream.specs.Mapped.{ChangesAlike, IsAlike, CanChangeAlike, KnownStays, NoneWasWhole, ChangesWhereOpen, ItemsBuildValue};
ghost use Rattle.tv_stream.specs.NodeCounts.{NodesAreAdded, AsManyNodes};

/// A tree stays while another one of its region starts or grows, and whatever is done to other regions, their release among it.
pub fn other_trees<T>()
    ensures grown { StaysWhereOneGrows T }
    ensures started { StaysWhereOneStarts T }
    ensures elsewhere { StaysElsewhere T }
    ensures released { StaysWhereAnotherIsReleased T }
{}

/// A tree with other items changes alike, the same of it is known and whole, and the same changes can be.
pub fn other_items<A, B>()
    ensures changes { ChangesAlike A B }
    ensures known { IsAlike A B }
    ensures can { CanChangeAlike A B }
{}

/// Whatever the items of a tree are: what was known stays; where a change can be, no prefix of its place was whole; and whether
/// one can be is told by what stands at the place.
pub fn changes_of_any<A>()
    ensures known { KnownStays A }
    ensures before { NoneWasWhole A }
    ensures there { ChangesWhereOpen A }
{}

/// Items that stand for values, by any function: a tree below a value stays below it, and a whole one shows the value.
pub fn trees_of_values<T>()
    ensures { ItemsBuildValue T }
{}

/// A change adds a node for each index of its place that led to nothing known, whatever the items are.
pub fn nodes_of_trees<A, B>()
    ensures added { NodesAreAdded A }
    ensures many { AsManyNodes A B }
{}
