ghost use Rattle.std.specs.Prelude.{◌≡◌, ◌≤◌, IfOk, IsOk, length, string_bytes};

use crate::copied::Copied;
use crate::memory::NoMemory;
use crate::sequence::Sequence;
use arrayvec::ArrayString;
use std::alloc::Global;
use std::marker::Model;

/// A text. A contract sees its bytes, in UTF-8.
///
/// Up to 16 bytes it holds with no allocation.
#[derive(Debug, Drop)]
pub struct Text {
    inside: Inside,
}

#[derive(Debug, Drop)]
enum Inside {
    Short(ArrayString<16>),
    Long(String),
}

/// A name of a flow, step, port or service.
pub type Name = Text;

/// A list of names.
pub type Names = Sequence<Name>;

impl Model for Text {
    ghost use Rattle.std.specs.Prelude.{List, ℕ};
    ghost use Rattle.tv_value.specs.Insides.{bytes_of};

    ghost Value = { List ℕ };

    ghost view = { λ t. bytes_of t.inside };
}

impl Text {
    /// The text of a string. Takes no memory, and a short text gives back that of the string.
    pub fn of(text: String) -> Text
        ensures { result ≡ string_bytes text }
    {
        match ArrayString::from(text.as_str()) {
            Ok(short) => Text {
                inside: Inside::Short(short),
            },
            Err(_) => Text {
                inside: Inside::Long(text),
            },
        }
    }

    /// A text of its own with the same bytes. Takes memory only for more than 16.
    pub fn from_str(alloc: Global, text: &str) -> Result<Text, NoMemory>
        ensures ok { IfOk result (λ t. t ≡ text.now) }
        ensures short { length text.now ≤ 16 → IsOk result }
    {
        match ArrayString::from(text) {
            Ok(short) => Ok(Text {
                inside: Inside::Short(short),
            }),
            Err(_) => {
                let inside = Inside::Long(String::from_str(alloc, text)?);
                Ok(Text { inside })
            }
        }
    }

    /// The text, to read.
    pub fn as_str(&self) -> &str
        ensures { result.now ≡ self.now }
    {
        match &self.inside {
            Inside::Short(short) => short.as_str(),
            Inside::Long(long) => long.as_str(),
        }
    }
}

impl Copied for Text {
    fn copy(&self, alloc: Global) -> Result<Text, NoMemory> {
        Text::from_str(alloc, self.as_str())
    }
}
