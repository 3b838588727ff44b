//! A source and a sink that never fail.
ghost use Rattle.std.specs.Prelude.{◌≡◌, ◌<◌, ◌≤◌, length, take, min, Some, None, IsOk, IfOk, OnErr, Ok};
ghost use Rattle.tv_io.specs.Rising.{HasRisen};
ghost use Rattle.tv_io.specs.ReadOf.{IsReadOf, IsNoneAtEnd};
ghost use Rattle.tv_io.specs.SentOf.{IsSentOf};
ghost use Rattle.tv_io.specs.Kept.{IsKept};

use crate::faults::Failed;
use crate::sink::Sink;
use crate::source::Source;
use std::marker::Model;

/// A source over bytes in memory that never fails. Contracts see the bytes that are left.
#[derive(Debug, Drop)]
pub struct SteadySource {
    bytes: Vec<u8>,
    at: usize,
}

impl Model for SteadySource {
    ghost use Rattle.std.specs.Prelude.{List, ℕ, ◌≤◌, drop, vec_len};

    ghost Value = { List ℕ };

    ghost view = { λ s. drop s.at s.bytes.items };

    ghost invariant = { λ s. s.at ≤ vec_len s.bytes };
}

impl SteadySource {
    /// A source of `bytes`. It takes no memory.
    pub fn new(bytes: Vec<u8>) -> SteadySource
        ensures { result ≡ bytes.items }
    {
        SteadySource { bytes, at: 0 }
    }
}

impl Source for SteadySource {
    ghost left = { λ s. Some s };

    ghost faults = { λ _. 0 };

    /// Its cost is linear in the bytes served, as many as fit.
    fn read(&mut self, into: &mut [u8]) -> Result<usize, Failed>
        ensures infallible { IsOk result }
        ensures serves { IfOk result (λ count. count ≡ min (length into.old) (length self.old)) }
        ensures bound { IfOk result (λ count. count ≤ length into.old) }
        ensures ok { IfOk result (λ count. IsReadOf (Some self.old) (Some self.new)
            (take count into.new)) }
        ensures end { IfOk result (λ count. 0 < length into.old
            → IsNoneAtEnd (Some self.old) count) }
    {
        let left = &self.bytes[self.at..];
        let count = into.len().min(left.len());
        into[..count].copy_from_slice(&left[..count]);
        self.at += count;
        Ok(count)
    }
}

/// A sink that takes every byte of each piece and keeps none of them. It never fails, and doesn't tell
/// what was sent.
#[derive(Clone, Copy, Debug, Default)]
pub struct SteadySink;

impl SteadySink {
    /// A sink. It takes no memory.
    pub fn new() -> SteadySink {
        SteadySink
    }
}

impl Sink for SteadySink {
    ghost sent = { λ _. None };

    ghost faults = { λ _. 0 };

    /// It takes all of `bytes`, in constant time.
    fn write(&mut self, bytes: &[u8]) -> Result<usize, Failed>
        ensures { result ≡ Ok (length bytes.now) }
    {
        Ok(bytes.len())
    }
}
