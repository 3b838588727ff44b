//! Names looked up in lists that are in byte order.
ghost use Rattle.std.specs.Prelude.{◌≡◌, ◌<◌, true, map, length, IfSome};
ghost use Rattle.tv_flow.specs.Formed.{is_ascending};
ghost use Rattle.tv_naming.specs.Numbers.{number_in};

use tv_value::{Name, Sequence};

/// The position of a name in a list that is in byte order of names, each once; `None` where it isn't there. By binary
/// search: logarithmic in the list.
pub fn number_of<T>(entries: &Sequence<(Name, T)>, name: &Name) -> Option<usize>
    requires { is_ascending (map (λ e. e.0) entries.now) ≡ true }
    ensures number { result ≡ number_in entries.now name.now }
    ensures below { IfSome result (λ k. k < length entries.now) }
{
    entries
        .as_slice()
        .binary_search_by(|entry| entry.0.cmp(name))
        .ok()
}
