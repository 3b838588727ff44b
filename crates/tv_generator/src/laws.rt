//! What holds of the definitions alone: each law is the clause of a function that does nothing.
ghost use Rattle.tv_generator.specs.Accepted.{AreAccepted};
ghost use Rattle.tv_generator.specs.Formulas.{HaveTheirTotals};
ghost use Rattle.tv_generator.specs.Stated.{AreFormed, SummaryOfTen, TextsOfTwelve};

/// Every generated document is of the form.
pub fn are_formed()
    ensures { AreFormed }
{}

/// The check finds nothing in a generated document, for services that know the four that it names.
pub fn are_accepted()
    ensures { AreAccepted }
{}

/// Its run by services that give what the local ones give, for those four, has the totals of the formulas.
pub fn have_their_totals()
    ensures { HaveTheirTotals }
{}

/// The first texts of both lists.
pub fn worked_texts()
    ensures { TextsOfTwelve }
{}

/// The line of the run of ten.
pub fn worked_summary()
    ensures { SummaryOfTen }
{}
