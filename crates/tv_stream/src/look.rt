//! A look at a tree from one of its nodes, which goes on from part to part.
ghost use Rattle.std.specs.Prelude.{◌≡◌, None, Some, MatchOption};
ghost use Rattle.tv_parts.specs.Partials.{Partial as Tree, part_at, wanting};
ghost use Rattle.tv_stream.specs.Answers.{item_of, kind_of};
ghost use Rattle.tv_stream.specs.Looks.{Shows};
ghost use Rattle.tv_stream.specs.Trees.{Marked};

use crate::held::{Part, PartKind};
use crate::partial::Slot;
use crate::{Stop, body, seek};
use tv_pool::{Link, Pool};

/// What is known at a node of a tree, and inside. `Partial::look` begins at the top, and `part` goes on: so no place has to be
/// made for a node.
#[derive(Drop)]
pub struct Look<'a, T> {
    pub(crate) pool: &'a Pool<Slot<T>>,
    pub(crate) node: Link,
}

impl<'a, T> Look<'a, T> {
    /// What is known here. Takes no memory, and the cost is constant.
    pub fn kind(&self) -> PartKind
        requires { (r : Tree (Marked T)) × Shows self.now r }
        ensures { (r : Tree (Marked T)) → Shows self.now r → result ≡ kind_of r }
    {
        body(self.pool, self.node).kind()
    }

    /// The item here. Takes no memory, and the cost is constant.
    pub fn item(&self) -> Option<&'a T>
        requires { (r : Tree (Marked T)) × Shows self.now r }
        ensures { (r : Tree (Marked T)) → Shows self.now r → MatchOption result (item_of r ≡ None)
            (λ item. item_of r ≡ Some item.now) }
    {
        match &body(self.pool, self.node).part {
            Part::Item(item) => Some(item),
            _ => None,
        }
    }

    /// The part at an index, or `None` where nothing is known of it. Takes no memory. Logarithmic in the known parts.
    pub fn part(&self, index: u32) -> Option<Look<'a, T>>
        requires { (r : Tree (Marked T)) × Shows self.now r }
        ensures { (r : Tree (Marked T)) → Shows self.now r → MatchOption result (part_at r index
            ≡ wanting) (λ look. Shows look (part_at r index)) }
    {
        match seek(self.pool, self.node, index) {
            Stop::Found(node) => Some(Look {
                pool: self.pool,
                node,
            }),
            Stop::Free(_) => None,
        }
    }
}
