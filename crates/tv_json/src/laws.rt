//! Laws of the texts of documents: each is the clause of a function that does nothing.
ghost use Rattle.tv_json.specs.DocumentLines.{UpgradesReadBack};

/// What is written for a document in format 2 is that document, but for its format.
pub fn upgrades_read_back()
    ensures { UpgradesReadBack }
{}
