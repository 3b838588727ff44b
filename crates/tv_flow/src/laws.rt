//! What holds of the form alone: each law is the clause of a function that does nothing.
ghost use Rattle.tv_flow.specs.Listed.{FirstIsAnswered};

/// All complaints about a document's form, in their order, have the one that reading answers as their first; and there
/// are none exactly where the document is read.
pub fn first_complaint()
    ensures { FirstIsAnswered }
{}
