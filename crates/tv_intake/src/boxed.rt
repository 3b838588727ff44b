//! A matcher that is moved in one word.
ghost use Rattle.std.specs.Prelude.{◌≡◌, ◌<◌, ◌++◌, ◌+◌, [], length, map, take, IfOk, OnOk, OnErr};
ghost use Rattle.tv_strategy.specs.Conditions.{Suits, number_of};
ghost use Rattle.tv_strategy.specs.Measures.{DotsAgree, leaf_names, strategy_depth};
ghost use Rattle.tv_value.specs.Views.{strategy_view};
ghost use Rattle.tv_matching.specs.Told.{count_of_added};
ghost use Rattle.tv_matching.specs.Matchers.{CanTell, CanTellAll, Starts, Holds, IsFreed, IsTold};
ghost use Rattle.tv_match.specs.Ahead.{in_order_ahead};
ghost use Rattle.tv_match.specs.Seen.{IsSound, NameLeaves, bound_telling, in_order, matching, told_view};

use std::alloc::Global;
use std::marker::Model;
use tv_match::{Matcher, Tolds};
use tv_value::{Depths, NoMemory, Tree};

/// A matcher in a box. A contract sees the matcher.
#[derive(Drop)]
pub struct Boxed {
    inside: Box<Matcher>,
}

impl Model for Boxed {
    ghost use Rattle.tv_match.specs.declared.matchers.Matcher.{Matcher as Held};

    ghost Value = { Held };

    ghost use Rattle.tv_value.specs.contracts.tree.Tree as a_tree;
    ghost use Rattle.tv_match.specs.contracts.stores.Store as a_store;
    ghost use Rattle.std.specs.Coded.{codes};

    ghost coded = { Prim.hlevel (codes, a_tree.the_row.coded, a_store.the_row.coded) };

    ghost view = { λ b. b.inside.value };
}

impl Boxed {
    /// Of no strategy, as memory in which one is started.
    pub fn unused(alloc: Global) -> Result<Boxed, NoMemory> {
        let inside = Box::new(alloc, Matcher::unused(alloc))?;
        Ok(Boxed { inside })
    }

    /// The matcher.
    pub fn read(&self) -> &Matcher
        ensures { result.now ≡ self.now }
    {
        &*self.inside
    }

    /// As `Matcher::restart`.
    pub fn restart(&mut self, tree: &Tree, mismatch: &Depths, depth: u32) -> Result<(), NoMemory>
        requires suits { Suits mismatch.now (strategy_view tree.now) }
        requires agree { DotsAgree (number_of mismatch.now) (strategy_view tree.now) }
        requires deep { depth ≡ strategy_depth (number_of mismatch.now) (strategy_view tree.now) }
        ensures ok { OnOk result (Starts (strategy_view tree.now) mismatch.now
            (matching self.new)) }
        ensures sound { OnOk result (IsSound self.new) }
    {
        self.inside.restart(tree, mismatch, depth)
    }

    /// As `Matcher::tell_bound`.
    pub fn tell_bound(&mut self, leaf: u32, faulty: bool) -> Result<(), NoMemory>
        requires sound { IsSound self.old }
        requires leaf { leaf < length (leaf_names (matching self.old).strategy) }
        requires free { (matching self.old).held ≡ [] }
        requires new { CanTell (matching self.old) (bound_telling (matching self.old).strategy leaf
            faulty) }
        ensures ok { OnOk result (IsTold (bound_telling (matching self.old).strategy leaf faulty)
            (matching self.old) (matching self.new)) }
        ensures held { OnOk result ((matching self.new).held ≡ []) }
        ensures sound { OnOk result (IsSound self.new) }
    {
        self.inside.tell_bound(leaf, faulty)
    }

    /// As `Matcher::hold`.
    pub fn hold(&mut self, told: &Tolds) -> Result<u64, NoMemory>
        requires sound { IsSound self.old }
        requires leaves { NameLeaves (matching self.old).strategy told.now }
        requires new { CanTellAll (matching self.old) (map (told_view (matching self.old).strategy)
            told.now) }
        ensures ok { OnOk result (Holds (map (told_view (matching self.old).strategy) told.now)
            (matching self.old) (matching self.new)) }
        ensures refused { OnErr result (IsFreed (matching self.old) (matching self.new)) }
        ensures same_order { in_order self.new ≡ in_order self.old }
        ensures ahead { IfOk result (λ n. length (in_order_ahead self.new)
            ≡ length (in_order self.old) + n) }
        ensures sound { IsSound self.new }
    {
        self.inside.hold(told)
    }

    /// As `Matcher::tell_held`.
    pub fn tell_held(&mut self)
        requires sound { IsSound self.old }
        requires new { CanTellAll (matching self.old) (matching self.old).held }
        ensures told { (matching self.new).told ≡ (matching self.old).told
            ++ (matching self.old).held }
        ensures held { (matching self.new).held ≡ [] }
        ensures strategy { (matching self.new).strategy ≡ (matching self.old).strategy }
        ensures mismatch { (matching self.new).mismatch ≡ (matching self.old).mismatch }
        ensures order { in_order self.new ≡ in_order_ahead self.old }
        ensures ahead { in_order_ahead self.new ≡ in_order_ahead self.old }
        ensures sound { IsSound self.new }
    {
        self.inside.tell_held();
    }
}
