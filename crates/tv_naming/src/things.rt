//! Things looked up by name in lists that are in byte order.
ghost use Rattle.std.specs.Prelude.{◌≡◌, true, map, option_map};
ghost use Rattle.tv_value.specs.Orders.{named};
ghost use Rattle.tv_flow.specs.Formed.{is_ascending};

use crate::lookup::number_of;
use tv_value::{Name, Sequence};

/// The thing of a name in a list that is in byte order of names, each once. By binary search: logarithmic in the list.
pub(crate) fn thing_of<'a, T>(entries: &'a Sequence<(Name, T)>, name: &Name) -> Option<&'a T>
    requires { is_ascending (map (λ e. e.0) entries.now) ≡ true }
    ensures { option_map (λ x. x.now) result ≡ named name.now entries.now }
{
    match number_of(entries, name) {
        Some(number) => Some(&entries.as_slice()[number].1),
        None => None,
    }
}
