use tv_value::{Name, Place};

/// What the words ask for.
#[derive(Debug, Drop)]
pub enum Command {
    /// Read a document, run it with so many workers, 1 to 64, and write the result line.
    Run { workers: u32 },
    /// Read a document, check it, and write the depths.
    Check,
    /// Read a document, run it, and write which jobs asked how often.
    Trace,
    /// Read a document, run it, and write which elements of the inputs made this element of an output.
    Lineage { port: Name, place: Place },
    /// Read a document, run it, and write which leaves of the outputs used this element of an input.
    Forward { port: Name, place: Place },
    /// Read a document, check it, and write the same document in format 2.
    Upgrade,
    /// Run the generated document of this number, 1 to 200, with so many workers, 1 to 64, and write the summary.
    Gen { number: u32, workers: u32 },
}
