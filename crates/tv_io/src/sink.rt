//! Where bytes go, and writing all of a text to one.
ghost use Rattle.std.specs.Prelude.{◌≡◌, ℕ, ◌+◌, ◌<◌, ◌≤◌, List, length, take, Option, IfOk, OnOk, OnErr};
ghost use Rattle.tv_io.specs.Rising.{HasRisen};
ghost use Rattle.tv_io.specs.SentOf.{IsSentOf, IsCutShort};
ghost use Rattle.tv_io.specs.Kept.{IsKept};

use crate::faults::{Failed, WriteFault};

/// Where bytes go, in order.
///
/// Its clauses speak of `sent`, the bytes taken so far, where the sink tells them (a sink that tells
/// them goes on telling), and of `faults`, the number of writes that failed, which never falls and
/// stands still at the greatest u64.
pub trait Sink {
    ghost sent: { Self → Option (List ℕ) };

    ghost faults: { Self → ℕ };

    /// Takes the first bytes of `bytes`, at least one where there is one, and answers how many.
    fn write(&mut self, bytes: &[u8]) -> Result<usize, Failed>
        ensures bound { IfOk result (λ count. count ≤ length bytes.now) }
        ensures ok { IfOk result (λ count. IsSentOf (sent self.old) (sent self.new)
            (take count bytes.now)) }
        ensures moves { IfOk result (λ count. 0 < length bytes.now → 0 < count) }
        ensures failed { OnErr result (IsKept (sent self.old) (sent self.new)) }
        ensures counted { OnErr result (HasRisen (faults self.old) (faults self.new)) }
        ensures never_falls { faults self.old ≤ faults self.new };
}

/// Writes all of `bytes` to `sink`, in order and in as many writes as it takes; none where there is no
/// byte.
///
/// It stops at the first write that fails, and a beginning of the bytes was then taken. It takes no
/// memory, and makes at most one write for each byte.
pub fn write_all<K: Sink>(sink: &mut K, bytes: &[u8]) -> Result<(), WriteFault>
    ensures ok { OnOk result (IsSentOf (K.sent sink.old) (K.sent sink.new) bytes.now) }

    ensures prefix { OnErr result (IsCutShort (K.sent sink.old) (K.sent sink.new) bytes.now) }
    ensures fault { OnErr result (HasRisen (K.faults sink.old) (K.faults sink.new)) }

    ensures never_falls { K.faults sink.old ≤ K.faults sink.new }
{
    let mut sent = 0;
    while sent < bytes.len() {
        sent += sink.write(&bytes[sent..])?;
    }
    Ok(())
}
