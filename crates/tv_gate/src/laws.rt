//! What holds of the definitions alone: each law is the clause of a function that does nothing.
ghost use Rattle.tv_gate.specs.Laws.{TestDecidesSameCall, TestDecidesSameOutcome, TestDecidesGiven};

/// The tests whether two calls or two outcomes are the same, and whether an outcome is the one that a service gives, decide equality.
pub fn sameness()
    ensures calls { TestDecidesSameCall }
    ensures outcomes { TestDecidesSameOutcome }
    ensures given { TestDecidesGiven }
{}
