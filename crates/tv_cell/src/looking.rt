//! What stands at a place of a value, by the indices of the place.
ghost use Rattle.std.specs.Prelude.{◌≡◌, option_map, slice_get};
ghost use Rattle.std.specs.Option.{option_copied};
ghost use Rattle.tv_value.specs.Nested.{at, children, item_at};
ghost use Rattle.tv_value.specs.Views.{view};

use tv_value::Value;

/// What stands at a place of a value, or `None` where nothing does. Linear in the place.
pub(crate) fn value_at<'a>(value: &'a Value, place: &[u32]) -> Option<&'a Value>
    ensures { option_map (λ v. view v.now) result ≡ at (view value.now) place.now }
{
    let mut part = value;
    for index in place {
        match item_of(part, *index) {
            Some(item) => part = item,
            None => return None,
        }
    }
    Some(part)
}

/// The item of a list.
fn item_of(value: &Value, index: u32) -> Option<&Value>
    ensures { option_map (λ v. view v.now) result ≡ item_at (children (view value.now)) index }
{
    match value {
        Value::List(items) => thing_at(items.as_slice(), index),
        _ => None,
    }
}

/// The thing of this index.
pub(crate) fn thing_at<T>(things: &[T], index: u32) -> Option<&T>
    ensures { option_copied result ≡ slice_get things.now index }
{
    things.get(index as usize)
}
