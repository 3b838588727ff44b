//! Which run a board under a lock is of.
use std::marker::Brand;
use std::sync::ledger::Ledger;

/// Stands for what is known of a board that is found under a lock: the run as it was when the workers began, with its document
/// and its history. Each call that starts workers picks it, and with it the ledger in which they count. It has no value.
pub trait Naming: Ledger {
    ghost use Rattle.tv_history.specs.Runs.{Run};

    ghost began: { Run };
}

impl Naming for Brand {
    ghost use Rattle.std.specs.Prelude.{[]};

    ghost began = { record {
      document = record { format = 0; main = []; flows = []; inputs = [] };
      names = [];
      entries = [];
    } };
}
