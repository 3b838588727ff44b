// Number texts.
ghost use Rattle.std.specs.Prelude.{◌≡◌, ◌==◌, slice_index};
ghost use Rattle.tv_local.specs.Numbers.{read_number};

/// The number of a number text: an optional minus and one or more ASCII digits, in the range of i64. Linear in the text.
pub(crate) fn read_number(text: &str) -> Option<i64>
    ensures { result ≡ read_number text.now }
{
    if starts_with_plus(text) {
        return None;
    }
    text.parse::<i64>().ok()
}

fn starts_with_plus(text: &str) -> bool
    ensures { result ≡ (slice_index text.now 0 == 43) }
{
    text.starts_with('+')
}
