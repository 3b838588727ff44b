//! What the definitions say together, and of small graphs: each is the clause of a function that does nothing.
ghost use Rattle.tv_naming.specs.graphs.Laws.{AllComeWithoutCycle, NoCycleWhereAllCome, EachComesAfter, EachComesOnce, EnoughEdges, HeightFromHeights, Worked};

/// All vertices come in `by_least` exactly where none comes before itself.
pub fn all_come()
    ensures without_cycle { AllComeWithoutCycle }
    ensures no_cycle { NoCycleWhereAllCome }
{}

/// In `by_least` each vertex comes once, after those before it.
pub fn in_order()
    ensures after { EachComesAfter }
    ensures once { EachComesOnce }
{}

/// The definitions look deep enough: into as many edges as there are vertices.
pub fn deep_enough()
    ensures edges { EnoughEdges }
    ensures heights { HeightFromHeights }
{}

/// Small graphs.
pub fn worked()
    ensures { Worked }
{}
