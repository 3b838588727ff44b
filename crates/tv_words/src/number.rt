// The numbers that stand among the words.
ghost use Rattle.std.specs.Prelude.{◌≡◌, ◌≤◌, ◌||◌, ◌==◌, ◌&&◌, nat_lt, length, slice_index};
ghost use Rattle.tv_words.specs.Numbers.{number_between, count_of, number_of};

/// A count of workers, 1 to 64. Linear in the text.
pub(crate) fn count_of(text: &str) -> Option<u32>
    ensures { result ≡ count_of text.now }
{
    number_between(text, 1, 64)
}

/// The number of a generated document, 1 to 200. Linear in the text.
pub(crate) fn number_of(text: &str) -> Option<u32>
    ensures { result ≡ number_of text.now }
{
    number_between(text, 1, 200)
}

/// The number from `least` to `most` of which this is the decimal text, without sign and leading zero.
pub(crate) fn number_between(text: &str, least: u32, most: u32) -> Option<u32>
    ensures { result ≡ number_between least most text.now }
{
    if has_sign_or_zero(text) {
        return None;
    }
    let number = text.parse::<u32>().ok()?;
    if least <= number && number <= most {
        Some(number)
    } else {
        None
    }
}

// A plus, or a zero before other digits, stands first.
fn has_sign_or_zero(text: &str) -> bool
    ensures { result ≡ (slice_index text.now 0 == 43 || (slice_index text.now 0 == 48
        && nat_lt 1 (length text.now))) }
{
    text.starts_with('+') || (text.starts_with('0') && 1 < text.len())
}
