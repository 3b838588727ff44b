//! A change of one tree.
ghost use Rattle.std.specs.Prelude.{◌≡◌, ◌≤◌, ◌<◌, ◌+◌, length};
ghost use Rattle.tv_value.specs.Values.{holds_fault};
ghost use Rattle.tv_parts.specs.Changes.{arrive as arrived, close_at, CanArrive, CanClose};
ghost use Rattle.tv_pool.specs.Pool.{IsLive, number_of};
ghost use Rattle.tv_stream.specs.nodes.Calls.{KeepsRegions, count_in};
ghost use Rattle.tv_stream.specs.Trees.{tree_of};
ghost use Rattle.tv_stream.specs.Stands.{Stands, IsIn, KeepsTrees};
ghost use Rattle.tv_stream.specs.Answers.{marked_item};
ghost use Rattle.tv_stream.specs.NodeCounts.{new_nodes};
ghost use Rattle.tv_cell.specs.PieceValues.{piece_value};

use crate::outputs::Nodes;
use tv_cell::Piece;
use tv_pool::Region;
use tv_stream::Partial;
use tv_value::Place;

/// A piece arrives, marked where it is said to hold a fault. As `Partial::arrive`.
pub(crate) fn arrive_in(
    tree: &mut Partial<Piece>,
    pool: &mut Nodes,
    region: &Region,
    place: &Place,
    piece: Piece,
    faulty: bool,
)
    requires live { IsLive pool.old region.now }
    requires region { IsIn tree.old region.now }
    requires stands { Stands pool.old tree.old }
    requires short { length place.now ≤ tree.old.depth }
    requires can { CanArrive place.now (tree_of pool.old tree.old) }
    requires room { tree.old.depth < pool.old.spare }
    requires faulty { faulty ≡ holds_fault (piece_value piece) }
    ensures tree { tree_of pool.new tree.new
        ≡ arrived place.now (marked_item piece (holds_fault (piece_value piece)))
        (tree_of pool.old tree.old) }
    ensures same { tree.new ≡ tree.old }
    ensures trees { KeepsTrees pool.old pool.new tree.old }
    ensures nodes { count_in pool.new (number_of region.now)
        ≤ count_in pool.old (number_of region.now) + new_nodes place.now
        (tree_of pool.old tree.old) }
    ensures kept { KeepsRegions pool.old pool.new (number_of region.now) }
    ensures spare { pool.old.spare ≤ pool.new.spare + tree.old.depth }
{
    match tree.arrive_marked(pool, region, place, piece, faulty) {
        Ok(_least) => (),
        Err(_refused) => unreachable!(),
    }
}

/// A list is closed. As `Partial::close`.
pub(crate) fn close_in(
    tree: &mut Partial<Piece>,
    pool: &mut Nodes,
    region: &Region,
    place: &Place,
    length: u32,
)
    requires live { IsLive pool.old region.now }
    requires region { IsIn tree.old region.now }
    requires stands { Stands pool.old tree.old }
    requires short { Rattle.std.specs.Prelude.length place.now < tree.old.depth }
    requires can { CanClose place.now length (tree_of pool.old tree.old) }
    requires room { tree.old.depth < pool.old.spare }
    ensures tree { tree_of pool.new tree.new
        ≡ close_at place.now length (tree_of pool.old tree.old) }
    ensures same { tree.new ≡ tree.old }
    ensures trees { KeepsTrees pool.old pool.new tree.old }
    ensures nodes { count_in pool.new (number_of region.now)
        ≤ count_in pool.old (number_of region.now) + new_nodes place.now
        (tree_of pool.old tree.old) }
    ensures kept { KeepsRegions pool.old pool.new (number_of region.now) }
    ensures spare { pool.old.spare ≤ pool.new.spare + tree.old.depth }
{
    match tree.close(pool, region, place, length) {
        Ok(()) => (),
        Err(_refused) => unreachable!(),
    }
}
