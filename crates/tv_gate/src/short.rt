use crate::outcome::Outcome;
use crate::services::{Gate, Services};
use std::alloc::Global;
use std::sync::atomic::{AtomicU64, Ordering};
use tv_value::{Items, NoMemory};

/// A gate that finds no memory at some calls. It answers the others as the gate inside. Calls are numbered from 1, over all
/// threads.
#[derive(Drop)]
pub struct ShortGate<G: Gate> {
    gate: G,
    refused: Vec<u64>,
    calls: AtomicU64,
}

impl<G: Gate> ShortGate<G> {
    /// A gate over this one, which refuses the calls of these numbers. Takes no memory.
    pub fn new(gate: G, refused: Vec<u64>) -> ShortGate<G> {
        ShortGate {
            gate,
            refused,
            calls: AtomicU64::new(1),
        }
    }
}

impl<G: Gate> Gate for ShortGate<G> {
    type Services = G::Services;

    fn call(
        &self,
        alloc: Global,
        service: &str,
        inputs: &Items,
        attempt: u32,
    ) -> Result<Outcome, NoMemory> {
        let number = self.calls.fetch_add(1, Ordering::SeqCst);
        if self.refused.contains(&number) {
            return Err(NoMemory);
        }
        self.gate.call(alloc, service, inputs, attempt)
    }
}
