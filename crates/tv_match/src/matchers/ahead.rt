//! What the held tellings of a matcher will bring, lent by its position, and all of them made at once.
ghost use Rattle.std.specs.Prelude.{◌≡◌, ◌++◌, ◌<◌, [], Some, length, slice_get};
ghost use Rattle.tv_matching.specs.Told.{faulty_at};
ghost use Rattle.tv_matching.specs.Matchers.{CanTellAll};
ghost use Rattle.tv_match.specs.Ahead.{AheadIsMatched, NoneIsAhead, in_order_ahead};

use super::Matcher;
use crate::kinds::Kind;

impl Matcher {
    ghost use Rattle.tv_match.specs.Seen.{matching, IsSound, in_order, outcome_kind, is_faulty};

    /// How many things follow of what was told and of what is held. Takes no memory.
    pub fn ahead(&self) -> usize
        ensures { result ≡ length (in_order_ahead self.now) }
    {
        self.out.len()
    }

    /// The place and the kind of one of these, by its position among them. Takes no memory.
    pub fn item_ahead(&self, at: usize) -> (&[u32], Kind)
        requires { at < length (in_order_ahead self.now) }
        ensures item { slice_get (in_order_ahead self.now) at
            ≡ Some (outcome_kind result.0.now result.1) }
        ensures faulty { IsSound self.now → CanTellAll (matching self.now) (matching self.now).held
            → is_faulty result.1 ≡ faulty_at (matching self.now).strategy ((matching self.now).told
            ++ (matching self.now).held) result.0.now }
    {
        (self.out.place(at), self.out.kind(at))
    }

    /// Makes all tellings that are held, in their order. Takes no memory.
    pub fn tell_held(&mut self)
        requires sound { IsSound self.old }
        requires new { CanTellAll (matching self.old) (matching self.old).held }
        ensures told { (matching self.new).told ≡ (matching self.old).told
            ++ (matching self.old).held }
        ensures held { (matching self.new).held ≡ [] }
        ensures strategy { (matching self.new).strategy ≡ (matching self.old).strategy }
        ensures mismatch { (matching self.new).mismatch ≡ (matching self.old).mismatch }
        ensures given { (matching self.new).given ≡ (matching self.old).given }
        ensures order { in_order self.new ≡ in_order_ahead self.old }
        ensures ahead { in_order_ahead self.new ≡ in_order_ahead self.old }
        ensures sound { IsSound self.new }
    {
        self.told = self.log.len();
    }
}

/// What is ahead is what is matched.
pub fn what_is_ahead()
    ensures matched { AheadIsMatched }
    ensures none { NoneIsAhead }
{}
