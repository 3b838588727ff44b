//! A source and a sink in memory, which serve short pieces and fail where they are told to.
ghost use Rattle.std.specs.Prelude.{◌≡◌, ◌<◌, ◌≤◌, ◌↔◌, [], ◌⊎◌, ◌-◌, length, take, min, Some, IsErr, IfOk, OnErr, Contains, if◌then◌else◌, is_ok};
ghost use Rattle.tv_io.specs.Rising.{HasRisen, one_more};
ghost use Rattle.tv_io.specs.ReadOf.{IsReadOf, IsNoneAtEnd};
ghost use Rattle.tv_io.specs.SentOf.{IsSentOf};
ghost use Rattle.tv_io.specs.Kept.{IsKept};

use crate::faults::{Failed, NoMemory};
use crate::sink::Sink;
use crate::source::Source;
use std::alloc::Global;
use std::marker::Model;

/// A source over bytes in memory.
///
/// Contracts see the bytes that are `left`, the `piece` that a call serves at most, the numbers of the
/// `failing` calls, and how many `calls` were made and how many were `faults`, both up to the greatest
/// u64.
#[derive(Debug, Drop)]
pub struct MemorySource {
    bytes: Vec<u8>,
    at: usize,
    piece: usize,
    failing: Vec<u64>,
    calls: u64,
    faults: u64,
}

impl Model for MemorySource {
    ghost use Rattle.std.specs.Prelude.{◌<◌, ◌≤◌, ◌^◌, drop, vec_len};
    ghost use Rattle.tv_io.specs.InMemory.{SourceState};

    ghost Value = { SourceState };

    ghost view = { λ s. record {
      left = drop s.at s.bytes.items;
      piece = s.piece;
      failing =
          s.failing.items;
      calls = s.calls;
      faults = s.faults;
    } };

    ghost invariant = { λ s. (s.at ≤ vec_len s.bytes) × (0 < s.piece) };
}

impl MemorySource {
    /// A source of `bytes` that serves at most `piece` of them in a call and fails the calls whose
    /// numbers, from 1, are in `failing`. It takes no memory.
    pub fn new(bytes: Vec<u8>, piece: usize, failing: Vec<u64>) -> MemorySource
        requires { 0 < piece }
        ensures left { result.left ≡ bytes.items }
        ensures piece_size { result.piece ≡ piece }
        ensures failing_calls { result.failing ≡ failing.items }
        ensures calls { result.calls ≡ 0 }
        ensures faults { result.faults ≡ 0 }
    {
        MemorySource {
            bytes,
            at: 0,
            piece,
            failing,
            calls: 0,
            faults: 0,
        }
    }
}

impl Source for MemorySource {
    ghost left = { λ s. Some s.left };

    ghost faults = { λ s. s.faults };

    /// Its cost is linear in the bytes served and in the numbers of failing calls.
    fn read(&mut self, into: &mut [u8]) -> Result<usize, Failed>
        ensures bound { IfOk result (λ count. count ≤ length into.old) }
        ensures ok { IfOk result (λ count. IsReadOf (Some self.old.left) (Some self.new.left)
            (take count into.new)) }
        ensures end { IfOk result (λ count. 0 < length into.old → IsNoneAtEnd (Some self.old.left)
            count) }
        ensures failed { OnErr result (IsKept (Some self.old.left) (Some self.new.left)) }
        ensures counted { OnErr result (HasRisen self.old.faults self.new.faults) }
        ensures never_falls { self.old.faults ≤ self.new.faults }

        ensures fails_where_listed { IsErr result ↔ Contains self.old.failing self.new.calls }
        ensures serves { IfOk result (λ count. count
            ≡ min self.old.piece (min (length into.old) (length self.old.left))) }
        ensures call { self.new.calls ≡ one_more self.old.calls }
        ensures faults { self.new.faults ≡ (if is_ok result then self.old.faults
            else one_more self.old.faults) }
        ensures piece_stays { self.new.piece ≡ self.old.piece }
        ensures failing_stays { self.new.failing ≡ self.old.failing }
    {
        self.calls = self.calls.saturating_add(1);
        if self.failing.contains(&self.calls) {
            self.faults = self.faults.saturating_add(1);
            return Err(Failed);
        }
        let left = &self.bytes[self.at..];
        let count = self.piece.min(into.len()).min(left.len());
        into[..count].copy_from_slice(&left[..count]);
        self.at += count;
        Ok(count)
    }
}

/// A sink that keeps in memory what it takes.
///
/// Contracts see the bytes `sent`, how many it has `room` for in all, the `piece` that a call takes at
/// most, the numbers of the `failing` calls, and how many `calls` were made and how many were `faults`,
/// both up to the greatest u64.
#[derive(Debug, Drop)]
pub struct MemorySink {
    bytes: Vec<u8>,
    room: usize,
    piece: usize,
    failing: Vec<u64>,
    calls: u64,
    faults: u64,
}

impl Model for MemorySink {
    ghost use Rattle.std.specs.Prelude.{◌<◌, ◌≤◌, vec_len, vec_capacity};
    ghost use Rattle.tv_io.specs.InMemory.{SinkState};

    ghost Value = { SinkState };

    ghost view = { λ s. record {
      sent = s.bytes.items;
      room = s.room;
      piece = s.piece;
      failing =
          s.failing.items;
      calls = s.calls;
      faults = s.faults;
    } };

    ghost invariant = { λ s. (vec_len s.bytes ≤ s.room) × (s.room ≤ vec_capacity s.bytes)
        × (0 < s.piece) };
}

impl MemorySink {
    /// An empty sink with room for `room` bytes in all, which takes at most `piece` of them in a call
    /// and fails the calls whose numbers, from 1, are in `failing`. Its memory is taken here, and
    /// `NoMemory` says that there wasn't enough.
    pub fn new(
        alloc: Global,
        room: usize,
        piece: usize,
        failing: Vec<u64>,
    ) -> Result<MemorySink, NoMemory>
        requires { 0 < piece }
        ensures sent { IfOk result (λ sink. sink.sent ≡ []) }
        ensures room_size { IfOk result (λ sink. sink.room ≡ room) }
        ensures piece_size { IfOk result (λ sink. sink.piece ≡ piece) }
        ensures failing_calls { IfOk result (λ sink. sink.failing ≡ failing.items) }
        ensures calls { IfOk result (λ sink. sink.calls ≡ 0) }
        ensures faults { IfOk result (λ sink. sink.faults ≡ 0) }
    {
        Ok(MemorySink {
            bytes: Vec::with_capacity(alloc, room)?,
            room,
            piece,
            failing,
            calls: 0,
            faults: 0,
        })
    }

    /// The bytes taken so far, in order.
    pub fn sent(&self) -> &[u8]
        ensures { result.now ≡ self.now.sent }
    {
        &self.bytes
    }
}

impl Sink for MemorySink {
    ghost sent = { λ s. Some s.sent };

    ghost faults = { λ s. s.faults };

    /// Its cost is linear in the bytes taken and in the numbers of failing calls. It takes no memory.
    fn write(&mut self, bytes: &[u8]) -> Result<usize, Failed>
        ensures bound { IfOk result (λ count. count ≤ length bytes.now) }
        ensures ok { IfOk result (λ count. IsSentOf (Some self.old.sent) (Some self.new.sent)
            (take count bytes.now)) }
        ensures moves { IfOk result (λ count. 0 < length bytes.now → 0 < count) }
        ensures failed { OnErr result (IsKept (Some self.old.sent) (Some self.new.sent)) }
        ensures counted { OnErr result (HasRisen self.old.faults self.new.faults) }
        ensures never_falls { self.old.faults ≤ self.new.faults }

        ensures fails_where_listed_or_full { IsErr result
            ↔ (Contains self.old.failing self.new.calls ⊎ (length self.old.sent ≡ self.old.room)) }
        ensures takes { IfOk result (λ count. count
            ≡ min self.old.piece (min (length bytes.now) (self.old.room - length self.old.sent))) }
        ensures call { self.new.calls ≡ one_more self.old.calls }
        ensures faults { self.new.faults ≡ (if is_ok result then self.old.faults
            else one_more self.old.faults) }
        ensures room_stays { self.new.room ≡ self.old.room }
        ensures piece_stays { self.new.piece ≡ self.old.piece }
        ensures failing_stays { self.new.failing ≡ self.old.failing }
    {
        self.calls = self.calls.saturating_add(1);
        let room = self.room - self.bytes.len();
        if room == 0 || self.failing.contains(&self.calls) {
            self.faults = self.faults.saturating_add(1);
            return Err(Failed);
        }
        let count = self.piece.min(bytes.len()).min(room);
        self.bytes.extend_from_slice(&bytes[..count]).unwrap();
        Ok(count)
    }
}
