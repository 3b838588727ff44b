//! What holds of the definitions alone: each law is the clause of a function that does nothing.
ghost use Rattle.tv_value.specs.Laws.{TestDecidesDepth, DepthsAreThose, LeastDepthIsLeast, RaggedHasNoDepth, TestDecidesSameness};
ghost use Rattle.tv_value.specs.Worked.{ReadsValues, TellsFirstComplaint, MeasuresDepths, LooksUp, ComparesPlaces, OrdersNames, PrintsNames, PrintsValues};

/// The test, the set of depths and the least depth of a value all speak of the depths that it has.
pub fn depths()
    ensures test { TestDecidesDepth }
    ensures those { DepthsAreThose }
    ensures least { LeastDepthIsLeast }
    ensures ragged { RaggedHasNoDepth }
{}

/// The test whether two values are the same decides whether they are equal.
pub fn sameness()
    ensures { TestDecidesSameness }
{}

/// Values from JSON, and the first complaint.
pub fn worked_readings()
    ensures values { ReadsValues }
    ensures complaints { TellsFirstComplaint }
{}

/// Depths, look-ups and orders.
pub fn worked_values()
    ensures measured { MeasuresDepths }
    ensures found { LooksUp }
    ensures places { ComparesPlaces }
    ensures names { OrdersNames }
{}

/// Texts of names and values.
pub fn worked_texts()
    ensures names { PrintsNames }
    ensures printed { PrintsValues }
{}
