ghost use Rattle.std.specs.Prelude.{◌≡◌, ℕ, Bool, List, Option, IfOk, OnOk, OnErr};
ghost use Rattle.tv_value.specs.Views.{values_view};
ghost use Rattle.tv_gate.specs.Outcomes.{Giving};
ghost use Rattle.tv_gate.specs.Calls.{Call, IsCalled, IsSameCalls};
ghost use Rattle.tv_gate.specs.Views.{outcome_view};

use crate::outcome::Outcome;
use std::alloc::Global;
use tv_value::{Items, NoMemory};

/// A set of services: which there are, and what each gives. What holds things of such a type goes to other threads and is
/// shared by them.
pub trait Services: Send + Sync {
    /// What each service gives.
    ghost gives: { Giving };

    /// Which names are those of services.
    ghost knows: { List ℕ → Bool };

    /// Whether there is a service of this name.
    fn has(service: &str) -> bool
        ensures { result ≡ knows service.now };
}

/// What answers for services, to many threads at once.
pub trait Gate: Sync {
    type Services: Services;

    /// Answers what the service gives, or that it found no memory. Each attempt at the same inputs has a number, from 0.
    fn call(
        &self,
        alloc: Global,
        service: &str,
        inputs: &Items,
        attempt: u32,
    ) -> Result<Outcome, NoMemory>
        ensures { IfOk result
            (λ o. outcome_view o
            ≡ Self.Services.gives service.now (values_view inputs.now) attempt) };
}

/// What asks services, one call after another.
pub trait Asker {
    type Services: Services;

    /// The calls that were answered, in order, where the asker tells them.
    ghost calls: { Self → Option (List Call) };

    /// What calls may leave of an asker: for those who hold one type of askers, what stays so from call to call.
    ghost reaches: { Self → Self → Type 0 };

    /// Answers what the service gives, or that it found no memory.
    fn call(
        &mut self,
        alloc: Global,
        service: &str,
        inputs: &Items,
        attempt: u32,
    ) -> Result<Outcome, NoMemory>
        ensures answer { IfOk result (λ o. outcome_view o ≡ Self.Services.gives service.now
            (values_view inputs.now) attempt) }
        ensures told { OnOk result (IsCalled (calls self.old) (calls self.new)
            (record {
              service = service.now;
              inputs = values_view inputs.now;
              attempt = attempt;
            })) }
        ensures refused { OnErr result (IsSameCalls (calls self.old) (calls self.new)) }
        ensures reached { reaches self.old self.new };

    ghost stays: { (a : Self) → reaches a a };

    ghost goes_on: { (a b c : Self) → reaches a b → reaches b c → reaches a c };
}
