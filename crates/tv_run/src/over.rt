//! What holds of every run that stands, and of one that is done.
ghost use Rattle.std.specs.Prelude.{◌≡◌, false, true};
ghost use Rattle.tv_gate.specs.Outcomes.{Giving};
ghost use Rattle.tv_flow.specs.Formed.{is_formed};
ghost use Rattle.tv_history.specs.Histories.{is_done};
ghost use Rattle.tv_history.specs.Runs.{IsLegalRun, past_of};
ghost use Rattle.tv_run.specs.Standing.{StandsOpen, StandsStill, run_of};
ghost use Rattle.tv_run.specs.Turns.{IsOver};

use crate::run::OpenRun;
use tv_history::Entry;

impl OpenRun {
    /// What was done, the oldest first. Constant.
    pub fn history(&self) -> &[Entry]
        ensures { result.now ≡ (run_of self.now).entries }
    {
        self.entries.as_slice()
    }

    /// Whether the main instance has ended. A run that has is over: nothing of it is out, and nothing more can be done. Constant.
    pub fn is_done(&self) -> bool
        ensures done { (gives : Giving) → StandsStill gives self.now
            → result ≡ is_done (past_of (run_of self.now)) }
        ensures still { result ≡ false → (gives : Giving) → StandsStill gives self.now
            → StandsOpen gives self.now }
        ensures over { result ≡ true → (gives : Giving) → StandsStill gives self.now
            → IsOver gives (run_of self.now) }
    {
        self.outs.is_some()
    }

    /// Every run that stands is of a document that was read, and has a legal history. The call does nothing.
    pub fn is_lawful(&self)
        ensures formed { (gives : Giving) → StandsStill gives self.now
            → is_formed (run_of self.now).document ≡ true }
        ensures legal { (gives : Giving) → StandsStill gives self.now
            → IsLegalRun gives (run_of self.now) }
    {}
}
