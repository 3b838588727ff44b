//! Why there is no text to print.
ghost use Rattle.std.specs.Prelude.{◌≡◌};
ghost use Rattle.tv_top.specs.Asked.{refusal_status, refusal_line};

use crate::status::Status;
use tv_value::Text;

/// Why a call came to an end without a text to print.
#[derive(Drop)]
pub(crate) enum Refusal {
    /// A status whose line is always the same.
    Plain(Status),
    /// The first fault of the document's form, by its line.
    Form(Text),
    /// The first fault of the check, by its line.
    Check(Text),
    /// An element that isn't there, by its line.
    NoSuchElement(Text),
}

impl From<tv_value::NoMemory> for Refusal {
    ghost use Rattle.tv_top.specs.declared.refusal.Refusal.TheVariants.{Plain};
    ghost use Rattle.tv_top.specs.declared.status.Status.TheVariants.{NoMemory};

    ghost from_gives = { λ _ r. r ≡ Plain NoMemory };

    fn from(_error: tv_value::NoMemory) -> Refusal {
        Refusal::Plain(Status::NoMemory)
    }
}

impl Refusal {
    /// The status that it ends a call with.
    pub(crate) fn status(&self) -> Status
        ensures { result ≡ refusal_status self.now }
    {
        match self {
            Refusal::Plain(status) => *status,
            Refusal::Form(_) => Status::Form,
            Refusal::Check(_) => Status::Check,
            Refusal::NoSuchElement(_) => Status::NoSuchElement,
        }
    }

    /// Its line, with the line feed.
    pub(crate) fn line(&self) -> &str
        ensures { result.now ≡ refusal_line self.now }
    {
        match self {
            Refusal::Plain(status) => status.line(),
            Refusal::Form(line) => line.as_str(),
            Refusal::Check(line) => line.as_str(),
            Refusal::NoSuchElement(line) => line.as_str(),
        }
    }
}
