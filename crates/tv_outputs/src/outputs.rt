//! The trees of all outputs, and their calls.
ghost use Rattle.std.specs.Prelude.{◌≡◌, ◌↔◌, ◌≤◌, ◌<◌, ◌+◌, ℕ, Some, is_some, true, length, map, slice_index_or, IsTrue, IfOk, OnOk};
ghost use Rattle.tv_value.specs.Values.{holds_fault};
ghost use Rattle.tv_value.specs.Views.{view};
ghost use Rattle.tv_parts.specs.Partials.{wanting, whole, holds_some, HoldsFaults};
ghost use Rattle.tv_parts.specs.Below.{value_in};
ghost use Rattle.tv_parts.specs.Changes.{arrive as arrived, close_at, CanArrive, CanClose};
ghost use Rattle.tv_pool.specs.Pool.{IsLive, number_of};
ghost use Rattle.tv_pool.specs.declared.handles.Region.{Region as InRegion};
ghost use Rattle.tv_stream.specs.nodes.Calls.{KeepsRegions, count_in};
ghost use Rattle.tv_stream.specs.Trees.{least_whole};
ghost use Rattle.tv_cell.specs.declared.piece.Piece.{Piece as APiece};
ghost use Rattle.tv_cell.specs.PieceValues.{piece_value, piece_values};
ghost use Rattle.tv_cell.specs.Soundness.{IsSound, AreSound};
ghost use Rattle.tv_outputs.specs.Known.{known, depths as depths_of, tree_in, depth_in, needed};
ghost use Rattle.tv_outputs.specs.Kept.{Stand, StandBeside};
ghost use Rattle.tv_outputs.specs.FoundIn.{found_in};
ghost use Rattle.tv_outputs.specs.Changes.{Arrive, Close, Turns, AllCanArrive, AllCanClose, AreMarked, least_or_past, Counted};

use crate::one::{arrive_in, close_in};
use crate::pieces::{found_piece, list_at, piece_around};
use crate::same::found_is;
use crate::values::found_value;
use smallvec::SmallVec;
use std::alloc::Global;
use tv_cell::{Piece, Pieces};
use tv_pool::{Pool, Region};
use tv_stream::{Partial, Slot};
use tv_value::{NoMemory, Place, Value};

/// The pool in which the trees stand.
pub type Nodes = Pool<Slot<Piece>>;

/// For each output of a step at how many prefixes of a place it holds a fault. Of up to four outputs
/// with no allocation.
pub type Faults = SmallVec<usize, 4>;

/// What is known so far of the outputs of an instance's steps: a partial tree of pieces for each, by their numbers. The trees
/// stand in one region of a pool, and go with it.
#[derive(Drop)]
pub struct Outputs {
    trees: Vec<Partial<Piece>>,
}

impl Outputs {
    /// Of no output. Takes no memory.
    pub fn new(alloc: Global) -> Outputs {
        Outputs {
            trees: Vec::new(alloc),
        }
    }

    /// A tree of each depth, of which nothing is known yet, in place of what stood here and in its memory. Takes one node for
    /// each. Where it is refused, nodes may lie in the region.
    pub fn start(
        &mut self,
        pool: &mut Nodes,
        region: &Region,
        depths: &[u32],
    ) -> Result<(), NoMemory>
        requires { IsLive pool.old region.now }
        ensures known { OnOk result (known pool.new self.new ≡ map (λ d. wanting) depths.now) }
        ensures depths { OnOk result (depths_of self.new ≡ depths.now) }
        ensures stand { OnOk result (StandBeside (count_in pool.old (number_of region.now))
            pool.new self.new region.now) }
        ensures kept { KeepsRegions pool.old pool.new (number_of region.now) }
        ensures spare { pool.old.spare ≤ pool.new.spare + length depths.now }
    {
        self.trees.clear();
        self.trees.reserve(depths.len())?;
        for depth in depths {
            match Partial::start(pool, region, *depth) {
                Ok(tree) => self.trees.push(tree)?,
                Err(_full) => return Err(NoMemory),
            }
        }
        Ok(())
    }

    /// Takes the room for one change, `arrive` or `close`, of so many trees from the first on. Linear in their number.
    pub fn reserve(&self, pool: &mut Nodes, first: usize, count: usize) -> Result<(), NoMemory>
        requires { first + count ≤ length (depths_of self.now) }
        ensures ok { OnOk result (needed (depths_of self.now) first count ≤ pool.new.spare) }
        ensures regions { pool.new.regions ≡ pool.old.regions }
        ensures known { known pool.new self.now ≡ known pool.old self.now }
        ensures stand { (region : InRegion) → Stand pool.old self.now region
            → Stand pool.new self.now region }
        ensures spare { pool.old.spare ≤ pool.new.spare }
    {
        let mut nodes: u64 = 0;
        for number in first..first + count {
            let Some(more) = nodes.checked_add(u64::from(self.trees[number].depth()) + 1) else {
                return Err(NoMemory);
            };
            nodes = more;
        }
        match pool.reserve(nodes) {
            Ok(()) => Ok(()),
            Err(_full) => Err(NoMemory),
        }
    }

    /// A piece arrives at the place in each of these trees: the first piece in the first tree, the next in the next one. `faults`
    /// is what `faults_by_arrival` counted for them, so that no piece is asked for faults again. It takes no memory beyond the room
    /// that `reserve` took. For each tree logarithmic in the known parts of each list on the way.
    pub fn arrive(
        &mut self,
        pool: &mut Nodes,
        region: &Region,
        first: usize,
        place: &Place,
        pieces: Pieces,
        faults: &[usize],
    )
        requires live { IsLive pool.old region.now }
        requires stand { Stand pool.old self.old region.now }
        requires can { AllCanArrive first (length pieces) place.now (depths_of self.old)
            (known pool.old self.old) }
        requires sound { AreSound pieces }
        requires marked { AreMarked place.now (piece_values pieces) faults.now }
        requires room { needed (depths_of self.old) first (length pieces) ≤ pool.old.spare }
        ensures known { Arrive first place.now (piece_values pieces) (known pool.old self.old)
            (known pool.new self.new) }
        ensures depths { depths_of self.new ≡ depths_of self.old }
        ensures stand { Stand pool.new self.new region.now }
        ensures kept { KeepsRegions pool.old pool.new (number_of region.now) }
        ensures spare { pool.old.spare ≤ pool.new.spare + needed (depths_of self.old) first
            (length pieces) }
    {
        let mut number = first;
        for piece in pieces.into_vec() {
            let faulty = place.as_slice().len() < faults[number - first];
            self.arrive_at(pool, region, number, place, piece, faulty);
            number += 1;
        }
    }

    /// The same in one tree, of a piece that is said to hold a fault or none.
    pub fn arrive_at(
        &mut self,
        pool: &mut Nodes,
        region: &Region,
        number: usize,
        place: &Place,
        piece: Piece,
        faulty: bool,
    )
        requires live { IsLive pool.old region.now }
        requires stand { Stand pool.old self.old region.now }
        requires there { number < length (known pool.old self.old) }
        requires short { length place.now ≤ depth_in (depths_of self.old) number }
        requires can { CanArrive place.now (tree_in (known pool.old self.old) number) }
        requires sound { IsSound piece }
        requires faulty { faulty ≡ holds_fault (piece_value piece) }
        requires room { depth_in (depths_of self.old) number < pool.old.spare }
        ensures turns { Turns number (arrived place.now (piece_value piece)
            (tree_in (known pool.old self.old) number)) (known pool.old self.old)
            (known pool.new self.new) }
        ensures same { self.new.trees.items ≡ self.old.trees.items }
        ensures stand { Stand pool.new self.new region.now }
        ensures kept { KeepsRegions pool.old pool.new (number_of region.now) }
        ensures spare { pool.old.spare ≤ pool.new.spare + depth_in (depths_of self.old) number }
    {
        arrive_in(&mut self.trees[number], pool, region, place, piece, faulty);
    }

    /// The list at the place is closed with this length in each of so many trees from the first on. It takes no memory beyond
    /// the room that `reserve` took. For each tree logarithmic in the known parts of each list on the way.
    pub fn close(
        &mut self,
        pool: &mut Nodes,
        region: &Region,
        first: usize,
        count: usize,
        place: &Place,
        length: u32,
    )
        requires live { IsLive pool.old region.now }
        requires stand { Stand pool.old self.old region.now }
        requires can { AllCanClose first count place.now length (depths_of self.old)
            (known pool.old self.old) }
        requires room { needed (depths_of self.old) first count ≤ pool.old.spare }
        ensures known { Close first count place.now length (known pool.old self.old)
            (known pool.new self.new) }
        ensures depths { depths_of self.new ≡ depths_of self.old }
        ensures stand { Stand pool.new self.new region.now }
        ensures kept { KeepsRegions pool.old pool.new (number_of region.now) }
        ensures spare { pool.old.spare ≤ pool.new.spare + needed (depths_of self.old) first count }
    {
        for number in first..first + count {
            self.close_one(pool, region, number, place, length);
        }
    }

    /// The same in one tree.
    fn close_one(
        &mut self,
        pool: &mut Nodes,
        region: &Region,
        number: usize,
        place: &Place,
        length: u32,
    )
        requires live { IsLive pool.old region.now }
        requires stand { Stand pool.old self.old region.now }
        requires there { number < Rattle.std.specs.Prelude.length (known pool.old self.old) }
        requires short { Rattle.std.specs.Prelude.length place.now
            < depth_in (depths_of self.old) number }
        requires can { CanClose place.now length (tree_in (known pool.old self.old) number) }
        requires room { depth_in (depths_of self.old) number < pool.old.spare }
        ensures turns { Turns number (close_at place.now length (tree_in (known pool.old self.old)
            number)) (known pool.old self.old) (known pool.new self.new) }
        ensures same { self.new.trees.items ≡ self.old.trees.items }
        ensures stand { Stand pool.new self.new region.now }
        ensures kept { KeepsRegions pool.old pool.new (number_of region.now) }
        ensures spare { pool.old.spare ≤ pool.new.spare + depth_in (depths_of self.old) number }
    {
        close_in(&mut self.trees[number], pool, region, place, length);
    }

    /// The least length of a prefix of the place at which all will be known in a tree once a piece has arrived there. Takes no
    /// memory. Logarithmic in the known parts of each list on the way.
    pub fn whole_by_arrival(&self, pool: &Nodes, number: usize, place: &Place) -> usize
        requires stand { (region : InRegion) × Stand pool.now self.now region }
        requires there { number < length (known pool.now self.now) }
        requires short { length place.now ≤ depth_in (depths_of self.now) number }
        requires can { CanArrive place.now (tree_in (known pool.now self.now) number) }
        ensures { (piece : APiece) → least_whole place.now (arrived place.now (piece_value piece)
            (tree_in (known pool.now self.now) number)) ≡ Some result }
    {
        self.trees[number].whole_by_arrival(pool, place) as usize
    }

    /// The least length of a prefix of the place at which all will be known in a tree once the list there is closed with this
    /// length, and one more than the place's length where parts of the list will still be wanting. Takes no memory.
    /// Logarithmic in the known parts of each list on the way.
    pub fn whole_by_close(&self, pool: &Nodes, number: usize, place: &Place, length: u32) -> usize
        requires stand { (region : InRegion) × Stand pool.now self.now region }
        requires there { number < Rattle.std.specs.Prelude.length (known pool.now self.now) }
        requires short { Rattle.std.specs.Prelude.length place.now
            < depth_in (depths_of self.now) number }
        requires can { CanClose place.now length (tree_in (known pool.now self.now) number) }
        ensures { result
            ≡ least_or_past place.now
            (least_whole place.now (close_at place.now length (tree_in (known pool.now self.now)
            number))) }
    {
        match self.trees[number].whole_by_close(pool, place, length) {
            Some(least) => least as usize,
            None => place.as_slice().len() + 1,
        }
    }

    /// At how many prefixes of the place, from the empty one on, each of these trees will hold a fault once the pieces have
    /// arrived there: pushes a number for each. For each tree linear in its piece at the most, and logarithmic in the known
    /// parts of each list on the way.
    pub fn faults_by_arrival(
        &self,
        pool: &Nodes,
        first: usize,
        place: &Place,
        pieces: &[Piece],
        faults: &mut Faults,
    ) -> Result<(), NoMemory>
        requires stand { (region : InRegion) × Stand pool.now self.now region }
        requires can { AllCanArrive first (length pieces.now) place.now (depths_of self.now)
            (known pool.now self.now) }
        ensures { OnOk result (Counted (length pieces.now) place.now faults.old.items
            faults.new.items (λ k. arrived place.now (slice_index_or (piece_values pieces.now) k
            Rattle.tv_outputs.specs.Changes.no_value) (tree_in (known pool.now self.now) (first
            + k)))) }
    {
        let mut number = first;
        for piece in pieces {
            faults.push(self.faults_with(pool, number, place, piece))?;
            number += 1;
        }
        Ok(())
    }

    /// The same for one tree.
    fn faults_with(&self, pool: &Nodes, number: usize, place: &Place, piece: &Piece) -> usize
        requires stand { (region : InRegion) × Stand pool.now self.now region }
        requires there { number < length (known pool.now self.now) }
        requires can { CanArrive place.now (tree_in (known pool.now self.now) number) }
        ensures { HoldsFaults place.now (arrived place.now (piece_value piece.now)
            (tree_in (known pool.now self.now) number)) result }
    {
        if piece.holds_fault() {
            return place.as_slice().len() + 1;
        }
        self.trees[number].marked_levels(pool, place)
    }

    /// At how many prefixes of the place, from the empty one on, each of so many trees will hold a fault once the list there is
    /// closed: pushes a number for each. For each tree logarithmic in the known parts of each list on the way.
    pub fn faults_by_close(
        &self,
        pool: &Nodes,
        first: usize,
        count: usize,
        place: &Place,
        faults: &mut Faults,
    ) -> Result<(), NoMemory>
        requires stand { (region : InRegion) × Stand pool.now self.now region }
        requires there { first + count ≤ length (known pool.now self.now) }
        ensures { OnOk result ((size : ℕ) → AllCanClose first count place.now size
            (depths_of self.now) (known pool.now self.now)
            → Counted count place.now faults.old.items faults.new.items
            (λ k. close_at place.now size (tree_in (known pool.now self.now) (first + k)))) }
    {
        for number in first..first + count {
            faults.push(self.trees[number].marked_levels(pool, place))?;
        }
        Ok(())
    }

    /// Whether all of a tree is known. Takes no memory, and the cost is constant.
    pub fn is_whole(&self, pool: &Nodes, number: usize) -> bool
        requires stand { (region : InRegion) × Stand pool.now self.now region }
        requires there { number < length (known pool.now self.now) }
        ensures { result ≡ whole (tree_in (known pool.now self.now) number) }
    {
        self.trees[number].is_whole(pool)
    }

    /// Whether a tree holds a fault. Takes no memory, and the cost is constant.
    pub fn holds_fault(&self, pool: &Nodes, number: usize) -> bool
        requires stand { (region : InRegion) × Stand pool.now self.now region }
        requires there { number < length (known pool.now self.now) }
        ensures { result ≡ holds_some holds_fault (tree_in (known pool.now self.now) number) }
    {
        self.trees[number].is_marked(pool)
    }

    /// The piece of what stands at a place in a tree, where all of it is known: at a node of the tree, or inside a piece that
    /// came. Linear in the place and in the parts of the lists there, with a look-up for each index and for each part, which is
    /// logarithmic in the known parts of the list, and as copies of the pieces that came; no value is copied.
    pub fn piece_at(
        &self,
        alloc: Global,
        pool: &Nodes,
        number: usize,
        place: &[u32],
    ) -> Result<Piece, NoMemory>
        requires stand { (region : InRegion) × Stand pool.now self.now region }
        requires there { number < length (known pool.now self.now) }
        requires found { IsTrue
            (is_some (found_in place.now (tree_in (known pool.now self.now) number))) }
        ensures value { IfOk result (λ p. found_in place.now (tree_in (known pool.now self.now)
            number) ≡ Some (piece_value p)) }
        ensures sound { IfOk result IsSound }
    {
        let tree = &self.trees[number];
        let look = tree.look(pool);
        let levels = tree.depth();
        found_piece(alloc, &look, levels, place)
    }

    /// The value that stands at a place in a tree, where all of it is known. A step for each index of
    /// the place, with a look-up, which is logarithmic in the known parts of the list, and linear in
    /// the value, which is copied.
    pub fn value_at(
        &self,
        alloc: Global,
        pool: &Nodes,
        number: usize,
        place: &[u32],
    ) -> Result<Value, NoMemory>
        requires stand { (region : InRegion) × Stand pool.now self.now region }
        requires there { number < length (known pool.now self.now) }
        requires found { IsTrue (is_some (found_in place.now
            (tree_in (known pool.now self.now) number))) }
        ensures { IfOk result (λ x. found_in place.now (tree_in (known pool.now self.now) number)
            ≡ Some (view x)) }
    {
        let tree = &self.trees[number];
        let look = tree.look(pool);
        let levels = tree.depth();
        found_value(alloc, &look, levels, place)
    }

    /// Whether the value is what stands at a place in a tree: not where some of that isn't known yet. Takes no memory. Linear in
    /// the place and in what the two have in common, with a look-up for each index and for each part of a list, which is
    /// logarithmic in the known parts of the list.
    pub fn stands_at(&self, pool: &Nodes, number: usize, place: &[u32], value: &Value) -> bool
        requires stand { (region : InRegion) × Stand pool.now self.now region }
        requires there { number < length (known pool.now self.now) }
        ensures { IsTrue result ↔ (found_in place.now (tree_in (known pool.now self.now) number)
            ≡ Some (view value.now)) }
    {
        found_is(&self.trees[number].look(pool), place, value)
    }

    /// The piece of a whole tree as it will be once a piece has arrived at the place. As `piece_at` of the whole.
    pub fn piece_with(
        &self,
        alloc: Global,
        pool: &Nodes,
        number: usize,
        place: &Place,
        piece: &Piece,
    ) -> Result<Piece, NoMemory>
        requires stand { (region : InRegion) × Stand pool.now self.now region }
        requires there { number < length (known pool.now self.now) }
        requires can { CanArrive place.now (tree_in (known pool.now self.now) number) }
        requires whole { whole (arrived place.now (piece_value piece.now)
            (tree_in (known pool.now self.now) number)) ≡ true }
        requires sound { IsSound piece.now }
        ensures value { IfOk result (λ p. piece_value p
            ≡ value_in (arrived place.now (piece_value piece.now) (tree_in (known pool.now self.now)
            number))) }
        ensures sound { IfOk result IsSound }
    {
        let tree = &self.trees[number];
        let look = tree.look(pool);
        let levels = tree.depth();
        let piece = piece.copy(alloc)?;
        piece_around(alloc, &look, levels, place.as_slice(), piece)
    }

    /// The piece of a whole tree as it will be once the list at the place is closed with this length. As `piece_at` of the
    /// whole.
    pub fn piece_closed(
        &self,
        alloc: Global,
        pool: &Nodes,
        number: usize,
        place: &Place,
        length: u32,
    ) -> Result<Piece, NoMemory>
        requires stand { (region : InRegion) × Stand pool.now self.now region }
        requires there { number < Rattle.std.specs.Prelude.length (known pool.now self.now) }
        requires can { CanClose place.now length (tree_in (known pool.now self.now) number) }
        requires whole { whole (close_at place.now length (tree_in (known pool.now self.now)
            number)) ≡ true }
        ensures value { IfOk result (λ p. piece_value p
            ≡ value_in (close_at place.now length (tree_in (known pool.now self.now) number))) }
        ensures sound { IfOk result IsSound }
    {
        let tree = &self.trees[number];
        let look = tree.look(pool);
        let levels = tree.depth();
        let inside = place.as_slice();
        let list = list_at(alloc, &look, levels, inside, length)?;
        piece_around(alloc, &look, levels, inside, list)
    }
}
