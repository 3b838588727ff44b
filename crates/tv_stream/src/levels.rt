//! Where marks are on the way to a place.
ghost use Rattle.std.specs.Prelude.{◌≡◌, ℕ, ◌+◌, ◌≤◌, length as count, nat_lt, take};
ghost use Rattle.tv_pool.specs.Pool.{item_in, lies_at};
ghost use Rattle.tv_parts.specs.Partials.{Partial as Tree, known_at, holds_some};
ghost use Rattle.tv_stream.specs.Trees.{Marked};
ghost use Rattle.tv_stream.specs.Stands.{is_marked};
ghost use Rattle.tv_stream.specs.Inside.{IsAt};

use crate::partial::Slot;
use crate::{Stop, body, seek};
use tv_pool::{Link, Pool};

/// At how many prefixes of a place, seen from a node, a marked item stands there or inside.
pub(crate) fn marked_in<T>(pool: &Pool<Slot<T>>, node: Link, place: &[u32]) -> usize
    requires { (number : ℕ) × ((r : Tree (Marked T)) × IsAt (item_in pool.now number) (lies_at node)
        r) }
    ensures levels { (number : ℕ) (r : Tree (Marked T)) → IsAt (item_in pool.now number)
        (lies_at node) r → (k : ℕ) → k ≤ count place.now → nat_lt k result
        ≡ holds_some is_marked (known_at (take k place.now) r) }
    ensures most { result ≤ count place.now + 1 }
{
    if !body(pool, node).marked {
        return 0;
    }
    let Some((&index, rest)) = place.split_first() else {
        return 1;
    };
    match seek(pool, node, index) {
        Stop::Found(part) => marked_in(pool, part, rest) + 1,
        Stop::Free(_) => 1,
    }
}
