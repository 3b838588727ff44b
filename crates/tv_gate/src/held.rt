use crate::outcome::Outcome;
use crate::services::{Gate, Services};
use std::alloc::Global;
use std::sync::atomic::{AtomicBool, Ordering};
use std::thread;
use tv_value::{Items, Name, NoMemory, Text, Value};

/// Names calls: those of this service whose first input is this text.
#[derive(Drop)]
pub struct Spot2 {
    pub service: Name,
    pub first: Text,
}

impl Spot2 {
    /// Whether it names this call.
    fn names(&self, service: &str, inputs: &Items) -> bool {
        if self.service.as_str() != service {
            return false;
        }
        match inputs.as_slice().first() {
            Some(Value::Text(text)) => text.as_str() == self.first.as_str(),
            _ => false,
        }
    }
}

/// A gate that holds some calls back until another one was answered, and tells whether that was ever too late. It answers as the
/// gate inside.
#[derive(Drop)]
pub struct HeldGate<G: Gate> {
    gate: G,
    held: Spot2,
    until: Spot2,
    turns: u64,
    answered: AtomicBool,
    missed: AtomicBool,
}

impl<G: Gate> HeldGate<G> {
    /// A gate over this one. It holds each call that `held` names until a call that `until` names was answered, for at most so many
    /// turns, and then asks. Takes no memory.
    pub fn new(gate: G, held: Spot2, until: Spot2, turns: u64) -> HeldGate<G> {
        HeldGate {
            gate,
            held,
            until,
            turns,
            answered: AtomicBool::new(false),
            missed: AtomicBool::new(false),
        }
    }

    /// Whether the turns of a held call ran out.
    pub fn missed(&self) -> bool {
        self.missed.load(Ordering::SeqCst)
    }
}

impl<G: Gate> Gate for HeldGate<G> {
    type Services = G::Services;

    fn call(
        &self,
        alloc: Global,
        service: &str,
        inputs: &Items,
        attempt: u32,
    ) -> Result<Outcome, NoMemory> {
        if self.held.names(service, inputs) {
            wait_until(&self.answered, &self.missed, self.turns);
        }
        let outcome = self.gate.call(alloc, service, inputs, attempt)?;
        if self.until.names(service, inputs) {
            self.answered.store(true, Ordering::SeqCst);
        }
        Ok(outcome)
    }
}

/// Waits until the word was given, for at most so many turns, and notes where they ran out. It stands by itself, over the words
/// alone, since nothing is known of `G` in another thread.
fn wait_until(answered: &AtomicBool, missed: &AtomicBool, turns: u64) {
    for _turn in 0..turns {
        if answered.load(Ordering::SeqCst) {
            return;
        }
        thread::yield_now();
    }
    missed.store(true, Ordering::SeqCst);
}
