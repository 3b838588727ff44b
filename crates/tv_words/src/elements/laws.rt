//! What holds of the definitions alone: each law is the clause of a function that does nothing.
ghost use Rattle.tv_words.specs.elements.Stated.{ReadsPrinted};
ghost use Rattle.tv_words.specs.elements.Worked.{ElementsAreRead, OthersAreRefused, LinesAreWritten};

/// Exactly the texts that elements are printed as are read, each as its element.
pub fn reads_printed()
    ensures { ReadsPrinted }
{}

/// Elements and texts that are none, and lines.
pub fn worked()
    ensures read { ElementsAreRead }
    ensures refused { OthersAreRefused }
    ensures written { LinesAreWritten }
{}
