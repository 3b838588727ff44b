ghost use Rattle.std.specs.Prelude.{◌≡◌};
ghost use Rattle.tv_top.specs.Lines.{fault_line, code_of};

/// How a command ended. The program's exit code is `code`.
#[derive(Clone, Copy, Debug, PartialEq, Eq)]
pub enum Status {
    /// What the command writes was written whole.
    Done,
    /// The words give no command.
    Usage,
    /// A read of the source failed.
    ReadFault,
    /// More than 2^24 bytes came.
    TooLong,
    /// The bytes are no JSON text in UTF-8, or it is nested more than 127 deep.
    NotJson,
    /// The JSON text isn't a document, by its form.
    Form,
    /// The check complains of the document.
    Check,
    /// The document is to be run and has a loop, which isn't built yet.
    NotBuilt,
    /// The port that is asked of has no element at that place, or there is no such port.
    NoSuchElement,
    /// A write of the output failed.
    WriteFault,
    /// Memory was wanting.
    NoMemory,
}

impl Status {
    /// The exit code: 0, 2, 3, 4, 5, 6, 7, 11, 8, 9 and 10 in the order above.
    pub fn code(self) -> u8
        ensures { result ≡ code_of self }
    {
        match self {
            Status::Done => 0,
            Status::Usage => 2,
            Status::ReadFault => 3,
            Status::TooLong => 4,
            Status::NotJson => 5,
            Status::Form => 6,
            Status::Check => 7,
            Status::NoSuchElement => 8,
            Status::WriteFault => 9,
            Status::NoMemory => 10,
            Status::NotBuilt => 11,
        }
    }

    /// The line on standard error, with its line feed, where it is always the same: empty at `Done`, and at `Form`, `Check`
    /// and `NoSuchElement`, whose lines tell the fault or the element.
    pub fn line(self) -> &'static str
        ensures { result.now ≡ fault_line self }
    {
        match self {
            Status::Done => "",
            Status::Usage =>
                "taverna: usage: taverna run [--workers N] | check | trace | lineage --of PORT[PLACE] | forward --of PORT[PLACE] | gen N [--workers W] | upgrade\n",
            Status::ReadFault => "taverna: read fault\n",
            Status::TooLong => "taverna: input longer than 16777216 bytes\n",
            Status::NotJson => "taverna: not JSON\n",
            Status::Form => "",
            Status::Check => "",
            Status::NotBuilt => "taverna: not built\n",
            Status::NoSuchElement => "",
            Status::WriteFault => "taverna: write fault\n",
            Status::NoMemory => "taverna: want of memory\n",
        }
    }
}
