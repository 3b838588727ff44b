ghost use Rattle.std.specs.Prelude.{◌≡◌, ℕ, ◌+◌, ◌^◌, ◌<◌, ◌≤◌, ◌∷◌, [], length, map, take, get_or, IsPermutation, IfOk, OnOk, OnErr, IfSome, IsNone, IsOk, IsTrue, List};
ghost use Rattle.tv_strategy.specs.Measures.{DotsAgree, leaf_names, strategy_depth};
ghost use Rattle.tv_strategy.specs.Conditions.{Suits, number_of};
ghost use Rattle.tv_matching.specs.Told.{Told as Telling, arrival, faulty, close, faulty_at, count_of_added};
ghost use Rattle.tv_matching.specs.Matchers.{all_out, HasGivenAll, CanTell, CanTellAll, Starts, Holds, IsTold, Gives, IsFreed, leaf_name};
ghost use Rattle.tv_match.specs.Entries.{entry};
ghost use Rattle.tv_match.specs.Seen.{bound_telling, matched_view, outcome_kind};

mod ahead;
mod shells;

use crate::bags::Bag;
use crate::building::{build, rebuild};
use crate::kinds::Kind;
use crate::listing::work_all;
use crate::places::Places;
use crate::steps::{begin, take_back, work};
use crate::stores::{Store, copies_of_bags};
use crate::told::{Matched, Tolds};
pub use ahead::what_is_ahead;
use shells::{keep_depths, keep_tree};
use std::alloc::Global;
use tv_value::{Copied, Depths, NoMemory, Place, Sequence, Tree, Trees};

/// The iteration of a strategy, as far as its leaves were told.
#[derive(Drop)]
pub struct Matcher {
    // What makes the places that come out.
    alloc: Global,
    tree: Tree,
    mismatch: Depths,
    root: Store,
    // What was told and what is held, in order, each with the number of its leaf.
    log: Bag,
    // What follows of all that is listed, each with the number of the telling that brought it.
    out: Bag,
    // How many of the listed tellings were made.
    told: usize,
    // How many items have come out.
    given: usize,
    // The places of those that have not, for `next`.
    places: Places,
}

impl Matcher {
    ghost use Rattle.tv_value.specs.Views.{strategy_view};
    ghost use Rattle.tv_match.specs.Ahead.{in_order_ahead};
    ghost use Rattle.tv_match.specs.Held.{LetsGo, IsUnchanged};
    ghost use Rattle.tv_match.specs.Seen.{told_view, NameLeaves, next_place, matching, IsSound, IsProper, IsNext, HasMore, telling_of, next_out, is_faulty, in_order};

    /// A matcher that was told nothing. What follows from nothing, a job where the strategy has no leaf, is still to come out.
    ///
    /// Linear in the strategy and the numbers.
    pub fn start(alloc: Global, tree: &Tree, mismatch: &Depths) -> Result<Matcher, NoMemory>
        requires suits { Suits mismatch.now (strategy_view tree.now) }
        requires agree { DotsAgree (number_of mismatch.now) (strategy_view tree.now) }
        ensures ok { IfOk result (λ m. Starts (strategy_view tree.now) mismatch.now (matching m)) }
        ensures sound { IfOk result (λ m. IsSound m) }
    {
        let built = build(alloc, tree, mismatch, 0)?;
        let mut root = built.store;
        let mut out = Bag::new(alloc);
        begin(&mut root, &mut out)?;
        let mut places = Places::start(alloc, tree, mismatch);
        places.make(&out, 0)?;
        let own = tree.copy(alloc)?;
        let numbers = mismatch.copy(alloc)?;
        Ok(Matcher {
            alloc,
            tree: own,
            mismatch: numbers,
            root,
            log: Bag::new(alloc),
            out,
            told: 0,
            given: 0,
            places,
        })
    }

    /// Of no strategy, as memory in which one is started. Takes no memory.
    pub fn unused(alloc: Global) -> Matcher {
        Matcher {
            alloc,
            tree: Tree::Cross(Trees::of(Vec::new(alloc))),
            mismatch: Sequence::empty(alloc),
            root: Store::Leaf(None),
            log: Bag::new(alloc),
            out: Bag::new(alloc),
            told: 0,
            given: 0,
            places: Places::none(alloc),
        }
    }

    /// As `start`, in the place and the memory of this one, whatever it was told. Where that is of an equal strategy with equal
    /// numbers, it keeps its copies of them. Takes the strategy's depth, which is not measured again. After a refusal it can only be
    /// restarted: nothing else is promised of it, and every other call asks for a sound matcher.
    pub fn restart(&mut self, tree: &Tree, mismatch: &Depths, depth: u32) -> Result<(), NoMemory>
        requires suits { Suits mismatch.now (strategy_view tree.now) }
        requires agree { DotsAgree (number_of mismatch.now) (strategy_view tree.now) }
        requires deep { depth ≡ strategy_depth (number_of mismatch.now) (strategy_view tree.now) }
        ensures ok { OnOk result (Starts (strategy_view tree.now) mismatch.now
            (matching self.new)) }
        ensures sound { OnOk result (IsSound self.new) }
    {
        keep_tree(self.alloc, &mut self.tree, tree)?;
        keep_depths(self.alloc, &mut self.mismatch, mismatch)?;
        rebuild(self.alloc, &mut self.root, tree, mismatch)?;
        self.log.truncate(0);
        self.out.truncate(0);
        self.told = 0;
        self.given = 0;
        begin(&mut self.root, &mut self.out)?;
        self.places.restart(depth);
        self.places.make(&self.out, 0)?;
        Ok(())
    }

    /// Takes all the room that these tellings need, and answers how many things will come out for them.
    ///
    /// It works them ahead, at the cost of telling them, so that each is then made in constant time. Where others are held, it
    /// copies all that is kept before: memory may be wanting, and then these are still held.
    pub fn reserve(&mut self, told: &Tolds) -> Result<u64, NoMemory>
        requires sound { IsSound self.old }
        requires leaves { NameLeaves (matching self.old).strategy told.now }
        requires new { CanTellAll (matching self.old) (map (told_view (matching self.old).strategy)
            told.now) }
        ensures ok { OnOk result (Holds (map (told_view (matching self.old).strategy) told.now)
            (matching self.old) (matching self.new)) }
        ensures count { IfOk result (λ n. n ≡ count_of_added (matching self.old).strategy
            (matching self.old).told (map (told_view (matching self.old).strategy) told.now)) }
        ensures refused { OnErr result (IsUnchanged self.old self.new) }
        ensures order { take (length (in_order self.old)) (in_order self.new) ≡ in_order self.old }
        ensures same_order { in_order self.new ≡ in_order self.old }
        ensures ahead { IfOk result (λ n. length (in_order_ahead self.new)
            ≡ length (in_order self.old) + n) }
        ensures sound { IsSound self.new }
    {
        if self.told == self.log.len() {
            return self.hold(told);
        }
        let mut other = self.copy()?;
        let count = other.hold(told)?;
        *self = other;
        Ok(count)
    }

    /// As `reserve`, but lets go first what was held, and copies nothing: where memory is wanting, no room is held.
    pub fn hold(&mut self, told: &Tolds) -> Result<u64, NoMemory>
        requires sound { IsSound self.old }
        requires leaves { NameLeaves (matching self.old).strategy told.now }
        requires new { CanTellAll (matching self.old) (map (told_view (matching self.old).strategy)
            told.now) }
        ensures ok { OnOk result (Holds (map (told_view (matching self.old).strategy) told.now)
            (matching self.old) (matching self.new)) }
        ensures count { IfOk result (λ n. n ≡ count_of_added (matching self.old).strategy
            (matching self.old).told (map (told_view (matching self.old).strategy) told.now)) }
        ensures refused { OnErr result (IsFreed (matching self.old) (matching self.new)) }
        ensures order { take (length (in_order self.old)) (in_order self.new) ≡ in_order self.old }
        ensures same_order { in_order self.new ≡ in_order self.old }
        ensures ahead { IfOk result (λ n. length (in_order_ahead self.new)
            ≡ length (in_order self.old) + n) }
        ensures sound { IsSound self.new }
    {
        take_back(&mut self.root, &mut self.log, &mut self.out, self.told);
        let before = self.out.len();
        match work_all(
            &mut self.root,
            &mut self.log,
            &mut self.out,
            told.as_slice(),
        ) {
            Ok(()) => {}
            Err(error) => {
                take_back(&mut self.root, &mut self.log, &mut self.out, self.told);
                return Err(error);
            }
        }
        match self.places.make(&self.out, before) {
            Ok(()) => Ok((self.out.len() - before) as u64),
            Err(error) => {
                take_back(&mut self.root, &mut self.log, &mut self.out, self.told);
                Err(error)
            }
        }
    }

    /// A bound value of which nobody says that it holds a fault has arrived, or a fault on the way there.
    ///
    /// Linear in what is new at the nodes of the strategy, and in the strategy, with a logarithm for each item in a dot or
    /// prefix node. Constant for the next held telling. Where others are held, it copies all that is kept before.
    pub fn on_arrival(&mut self, leaf: u32, place: &Place, fault: bool) -> Result<(), NoMemory>
        requires sound { IsSound self.old }
        requires leaf { leaf < length (leaf_names (matching self.old).strategy) }
        requires new { CanTell (matching self.old)
            (arrival (leaf_name (matching self.old).strategy leaf) place.now fault) }
        ensures ok { OnOk result (IsTold (arrival (leaf_name (matching self.old).strategy leaf)
            place.now fault) (matching self.old) (matching self.new)) }
        ensures let_go { OnOk result (LetsGo (arrival (leaf_name (matching self.old).strategy leaf)
            place.now fault) (matching self.old) (matching self.new)) }
        ensures refused { OnErr result (IsUnchanged self.old self.new) }
        ensures held { (rest : List Telling) → (matching self.old).held
            ≡ arrival (leaf_name (matching self.old).strategy leaf) place.now fault ∷ rest
            → IsOk result × ((matching self.new).held ≡ rest) }
        ensures order { take (length (in_order self.old)) (in_order self.new) ≡ in_order self.old }
        ensures sound { IsSound self.new }
    {
        if fault {
            self.tell(leaf, place.as_slice(), Kind::Passed(leaf))
        } else {
            self.tell(leaf, place.as_slice(), Kind::Job { faulty: false })
        }
    }

    /// A bound value that holds a fault has arrived.
    ///
    /// Linear in what is new at the nodes of the strategy, and in the strategy, with a logarithm for each item in a dot or
    /// prefix node. Constant for the next held telling. Where others are held, it copies all that is kept before.
    pub fn on_faulty(&mut self, leaf: u32, place: &Place) -> Result<(), NoMemory>
        requires sound { IsSound self.old }
        requires leaf { leaf < length (leaf_names (matching self.old).strategy) }
        requires new { CanTell (matching self.old)
            (faulty (leaf_name (matching self.old).strategy leaf) place.now) }
        ensures ok { OnOk result (IsTold (faulty (leaf_name (matching self.old).strategy leaf)
            place.now) (matching self.old) (matching self.new)) }
        ensures let_go { OnOk result (LetsGo (faulty (leaf_name (matching self.old).strategy leaf)
            place.now) (matching self.old) (matching self.new)) }
        ensures refused { OnErr result (IsUnchanged self.old self.new) }
        ensures held { (rest : List Telling) → (matching self.old).held
            ≡ faulty (leaf_name (matching self.old).strategy leaf) place.now ∷ rest → IsOk result
            × ((matching self.new).held ≡ rest) }
        ensures order { take (length (in_order self.old)) (in_order self.new) ≡ in_order self.old }
        ensures sound { IsSound self.new }
    {
        self.tell(leaf, place.as_slice(), Kind::Job { faulty: true })
    }

    /// A list on the way is closed.
    ///
    /// Linear in what is new at the nodes of the strategy, and in the strategy, with a logarithm for each item in a dot or
    /// prefix node. Constant for the next held telling. Where others are held, it copies all that is kept before.
    pub fn on_close(&mut self, leaf: u32, place: &Place, length: u32) -> Result<(), NoMemory>
        requires sound { IsSound self.old }
        requires leaf { leaf < Rattle.std.specs.Prelude.length
            (leaf_names (matching self.old).strategy) }
        requires new { CanTell (matching self.old)
            (close (leaf_name (matching self.old).strategy leaf) place.now length) }
        ensures ok { OnOk result (IsTold (close (leaf_name (matching self.old).strategy leaf)
            place.now length) (matching self.old) (matching self.new)) }
        ensures let_go { OnOk result (LetsGo (close (leaf_name (matching self.old).strategy leaf)
            place.now length) (matching self.old) (matching self.new)) }
        ensures refused { OnErr result (IsUnchanged self.old self.new) }
        ensures held { (rest : List Telling) → (matching self.old).held
            ≡ close (leaf_name (matching self.old).strategy leaf) place.now length ∷ rest
            → IsOk result × ((matching self.new).held ≡ rest) }
        ensures order { take (Rattle.std.specs.Prelude.length (in_order self.old))
            (in_order self.new) ≡ in_order self.old }
        ensures sound { IsSound self.new }
    {
        self.tell(leaf, place.as_slice(), Kind::Closed(length))
    }

    /// A leaf has its whole value, which is said to hold a fault or none, where no telling is held.
    ///
    /// Linear in what is new at the nodes of the strategy, and in the strategy, with a logarithm for each item in a dot or
    /// prefix node.
    pub fn tell_bound(&mut self, leaf: u32, faulty: bool) -> Result<(), NoMemory>
        requires sound { IsSound self.old }
        requires leaf { leaf < length (leaf_names (matching self.old).strategy) }
        requires free { (matching self.old).held ≡ [] }
        requires new { CanTell (matching self.old) (bound_telling (matching self.old).strategy leaf
            faulty) }
        ensures ok { OnOk result (IsTold (bound_telling (matching self.old).strategy leaf faulty)
            (matching self.old) (matching self.new)) }
        ensures held { OnOk result ((matching self.new).held ≡ []) }
        ensures refused { OnErr result (IsUnchanged self.old self.new) }
        ensures sound { IsSound self.new }
    {
        let before = self.out.len();
        let kind = Kind::Job { faulty };
        match work(
            &mut self.root,
            &mut self.log,
            &mut self.out,
            leaf,
            &[],
            kind,
        ) {
            Ok(()) => {}
            Err(error) => {
                take_back(&mut self.root, &mut self.log, &mut self.out, self.told);
                return Err(error);
            }
        }
        match self.places.make(&self.out, before) {
            Ok(()) => {
                self.told = self.log.len();
                Ok(())
            }
            Err(error) => {
                take_back(&mut self.root, &mut self.log, &mut self.out, self.told);
                Err(error)
            }
        }
    }

    /// The next thing that has not come out yet. Takes no memory: places that are too long for that were made beforehand.
    pub fn next(&mut self) -> Option<Matched>
        requires { IsSound self.old }
        ensures some { IfSome result (λ x. Gives (matched_view x) (matching self.old)
            (matching self.new)) }
        ensures none { IsNone result → HasGivenAll (matching self.old)
            × (matching self.new ≡ matching self.old) }
        ensures order { take (length (in_order self.old)) (in_order self.new) ≡ in_order self.old }
        ensures sound { IsSound self.new }
    {
        let kind = match self.first() {
            Some((_place, kind)) => kind,
            None => return None,
        };
        let place = self.take_place();
        Some(matched(place, kind))
    }

    /// The place and the kind of what comes out next, if something has not come out yet. Takes no memory.
    pub fn first(&self) -> Option<(&[u32], Kind)>
        requires { IsSound self.now }
        ensures some { IfSome result (λ x. HasMore self.now
            × (next_out self.now ≡ outcome_kind x.0.now x.1)) }
        ensures place { IfSome result (λ x. x.0.now ≡ next_place self.now) }
        ensures faulty { IfSome result (λ x. is_faulty x.1 ≡ faulty_at (matching self.now).strategy
            (matching self.now).told x.0.now) }
        ensures none { IsNone result → HasGivenAll (matching self.now) }
    {
        if self.given < self.out.len() && self.out.number(self.given) <= self.told {
            Some((self.out.place(self.given), self.out.kind(self.given)))
        } else {
            None
        }
    }

    /// Takes out what comes out next, as `first` tells it. Takes no memory.
    pub fn pass(&mut self)
        requires sound { IsSound self.old }
        requires more { HasMore self.old }
        ensures gives { Gives (next_out self.old) (matching self.old) (matching self.new) }
        ensures order { take (length (in_order self.old)) (in_order self.new) ≡ in_order self.old }
        ensures sound { IsSound self.new }
    {
        if self.given < self.out.len() {
            self.given += 1;
        }
    }

    /// Takes out what comes out next, and its place. Takes no memory.
    fn take_place(&mut self) -> Place
        requires sound { IsSound self.old }
        requires more { HasMore self.old }
        ensures place { result ≡ next_place self.old }
        ensures gives { Gives (next_out self.old) (matching self.old) (matching self.new) }
        ensures order { take (length (in_order self.old)) (in_order self.new) ≡ in_order self.old }
        ensures sound { IsSound self.new }
    {
        let at = self.given;
        if at < self.out.len() {
            self.given = at + 1;
            self.places.take_out(at, self.out.place(at))
        } else {
            unreachable!()
        }
    }

    /// How many things follow from what was told so far: those that have come out, and those that are still to come.
    ///
    /// They have numbers in the order in which they come out. What a telling brings has those from what this answers before
    /// it to what it answers after it. Takes no memory. Linear in what the held tellings will bring, which it counts off the end.
    pub fn shown(&self) -> usize
        requires { IsSound self.now }
        ensures order { result ≡ length (in_order self.now) }
        ensures all { IsPermutation (in_order self.now) (all_out (matching self.now)) }
    {
        self.out.front_len(self.told)
    }

    /// How many of these have come out.
    pub fn given(&self) -> usize
        requires { IsSound self.now }
        ensures count { result ≡ length (matching self.now).given }
        ensures first { (matching self.now).given ≡ take result (in_order self.now) }
    {
        self.given
    }

    /// The place and the kind of the thing of that number. Takes no memory.
    pub fn item(&self, at: usize) -> (&[u32], Kind)
        requires sound { IsSound self.now }
        requires within { at < length (in_order self.now) }
        ensures item { get_or (in_order self.now) at (outcome_kind result.0.now result.1)
            ≡ outcome_kind result.0.now result.1 }
        ensures faulty { is_faulty result.1 ≡ faulty_at (matching self.now).strategy
            (matching self.now).told result.0.now }
    {
        (self.out.place(at), self.out.kind(at))
    }

    /// Whether the next held telling is this one.
    fn is_next(&self, leaf: u32, place: &[u32], kind: Kind) -> bool
        ensures yes { IsTrue result → IsNext self.now (entry leaf place.now kind) }
        ensures no { IsNext self.now (entry leaf place.now kind) → IsTrue result }
        ensures fits { IsTrue result → self.now.told + 1 < 2 ^ 64 }
    {
        self.told < self.log.len()
            && self.log.number(self.told) == leaf as usize
            && self.log.kind(self.told) == kind
            && self.log.place(self.told) == place
    }

    /// A matcher of which the same is seen. Linear in all that is kept.
    fn copy(&self) -> Result<Matcher, NoMemory>
        requires { IsSound self.now }
        ensures same { IfOk result (λ m. IsUnchanged self.now m) }
        ensures sound { IfOk result (λ m. IsSound m) }
    {
        let tree = self.tree.copy(self.alloc)?;
        let mismatch = self.mismatch.copy(self.alloc)?;
        let root = self.root.copy(self.alloc)?;
        let places = self.places.copy(&self.out)?;
        // The bags last: none is then dropped where another copy is refused.
        let bags = copies_of_bags(self.alloc, &self.log, &self.out)?;
        Ok(Matcher {
            alloc: self.alloc,
            tree,
            mismatch,
            root,
            log: bags.0,
            out: bags.1,
            told: self.told,
            given: self.given,
            places,
        })
    }

    /// Tells a leaf.
    fn tell(&mut self, leaf: u32, place: &[u32], kind: Kind) -> Result<(), NoMemory>
        requires sound { IsSound self.old }
        requires proper { IsProper (strategy_view self.old.tree) (entry leaf place.now kind) }
        requires new { CanTell (matching self.old) (telling_of (strategy_view self.old.tree)
            (entry leaf place.now kind)) }
        ensures ok { OnOk result
            (IsTold (telling_of (strategy_view self.old.tree) (entry leaf place.now kind))
            (matching self.old) (matching self.new)) }
        ensures let_go { OnOk result
            (LetsGo (telling_of (strategy_view self.old.tree) (entry leaf place.now kind))
            (matching self.old) (matching self.new)) }
        ensures refused { OnErr result (IsUnchanged self.old self.new) }
        ensures held { (rest : List Telling) → (matching self.old).held
            ≡ telling_of (strategy_view self.old.tree) (entry leaf place.now kind) ∷ rest
            → IsOk result × ((matching self.new).held ≡ rest) }
        ensures order { take (length (in_order self.old)) (in_order self.new) ≡ in_order self.old }
        ensures sound { IsSound self.new }
    {
        if self.is_next(leaf, place, kind) {
            self.told += 1;
            return Ok(());
        }
        if self.told == self.log.len() {
            return self.tell_other(leaf, place, kind);
        }
        let mut other = self.copy()?;
        other.tell_other(leaf, place, kind)?;
        *self = other;
        Ok(())
    }

    /// Tells a leaf something, and lets go first what was held.
    fn tell_other(&mut self, leaf: u32, place: &[u32], kind: Kind) -> Result<(), NoMemory>
        requires sound { IsSound self.old }
        requires proper { IsProper (strategy_view self.old.tree) (entry leaf place.now kind) }
        requires new { CanTell (matching self.old) (telling_of (strategy_view self.old.tree)
            (entry leaf place.now kind)) }
        ensures ok { OnOk result
            (IsTold (telling_of (strategy_view self.old.tree) (entry leaf place.now kind))
            (matching self.old) (matching self.new)) }
        ensures let_go { OnOk result ((matching self.new).held ≡ []) }
        ensures refused { OnErr result (IsFreed (matching self.old) (matching self.new)
            × (in_order self.new ≡ in_order self.old)) }
        ensures order { take (length (in_order self.old)) (in_order self.new) ≡ in_order self.old }
        ensures sound { IsSound self.new }
    {
        take_back(&mut self.root, &mut self.log, &mut self.out, self.told);
        let before = self.out.len();
        match work(
            &mut self.root,
            &mut self.log,
            &mut self.out,
            leaf,
            place,
            kind,
        ) {
            Ok(()) => {}
            Err(error) => {
                take_back(&mut self.root, &mut self.log, &mut self.out, self.told);
                return Err(error);
            }
        }
        match self.places.make(&self.out, before) {
            Ok(()) => {
                self.told = self.log.len();
                Ok(())
            }
            Err(error) => {
                take_back(&mut self.root, &mut self.log, &mut self.out, self.told);
                Err(error)
            }
        }
    }
}

/// What comes out at a place.
fn matched(place: Place, kind: Kind) -> Matched
    ensures { matched_view result ≡ outcome_kind place kind }
{
    match kind {
        Kind::Job { .. } => Matched::Job(place),
        Kind::Closed(length) => Matched::Closed(place, length),
        Kind::Passed(leaf) => Matched::Passed(place, leaf),
    }
}
