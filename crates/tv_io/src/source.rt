//! Where bytes come from, and reading one to its end.
ghost use Rattle.std.specs.Prelude.{◌≡◌, ℕ, ◌+◌, ◌<◌, ◌≤◌, List, length, take, Option, IfOk, OnOk, OnErr, IsErrOf, vec_len, ◌-◌};
ghost use Rattle.tv_io.specs.Rising.{HasRisen};
ghost use Rattle.tv_io.specs.ReadOf.{IsReadOf, IsReadOnto, IsNoneAtEnd, IsReadWhole, TakesAtMost, IsLongerThan};
ghost use Rattle.tv_io.specs.Kept.{IsKept};

use crate::faults::{Failed, ReadAllFault};
use std::alloc::{AllocError, Global};

/// The most bytes that `read_all` asks for at once.
const PIECE: usize = 64 * 1024;

/// Where bytes come from, in order.
///
/// Its clauses speak of `left`, the bytes not yet read, where the source tells them (a source that
/// tells them goes on telling), and of `faults`, the number of reads that failed, which never falls
/// and stands still at the greatest u64.
pub trait Source {
    ghost left: { Self → Option (List ℕ) };

    ghost faults: { Self → ℕ };

    /// Reads the next bytes into the beginning of `into`, and answers how many. 0 for room that isn't
    /// empty is the end of input. What stands behind them in `into` afterwards isn't said.
    fn read(&mut self, into: &mut [u8]) -> Result<usize, Failed>
        ensures bound { IfOk result (λ count. count ≤ length into.old) }
        ensures ok { IfOk result (λ count. IsReadOf (left self.old) (left self.new)
            (take count into.new)) }
        ensures end { IfOk result (λ count. 0 < length into.old
            → IsNoneAtEnd (left self.old) count) }
        ensures failed { OnErr result (IsKept (left self.old) (left self.new)) }
        ensures counted { OnErr result (HasRisen (faults self.old) (faults self.new)) }
        ensures never_falls { faults self.old ≤ faults self.new };
}

/// Reads `source` to its end of input, of which at most `limit` bytes are wanted.
///
/// It stops at the first read that fails (`ReadFault`), at the first byte past the limit (`TooLong`),
/// or where memory runs out (`NoMemory`), and has then taken some bytes, at most `limit + 1`. Time and
/// memory are linear in the bytes that came, and a piece of 64 KiB is held besides.
pub fn read_all<S: Source>(
    alloc: Global,
    source: &mut S,
    limit: usize,
) -> Result<Vec<u8>, ReadAllFault>
    ensures ok { IfOk result (λ bytes. IsReadWhole (S.left source.old) (S.left source.new)
        bytes.items) }
    ensures within { IfOk result (λ bytes. vec_len bytes ≤ limit) }

    ensures too_long { IsErrOf result ReadAllFault.TooLong
        → IsLongerThan limit (S.left source.old) }
    ensures fault { IsErrOf result ReadAllFault.ReadFault → HasRisen (S.faults source.old)
        (S.faults source.new) }

    ensures taken { TakesAtMost (limit + 1) (S.left source.old) (S.left source.new) }
    ensures never_falls { S.faults source.old ≤ S.faults source.new }
{
    let mut piece = zeros(alloc, PIECE)?;
    let mut bytes = Vec::new(alloc);
    loop {
        if read_more(source, &mut piece, &mut bytes, limit)? == 0 {
            return Ok(bytes);
        }
    }
}

/// One read, through `piece`, of what still fits within `limit` bytes and of one more, put behind
/// `bytes`. It answers how many came.
fn read_more<S: Source>(
    source: &mut S,
    piece: &mut [u8],
    bytes: &mut Vec<u8>,
    limit: usize,
) -> Result<usize, ReadAllFault>
    requires some { 0 < length piece.old }
    requires within { vec_len bytes.old ≤ limit }

    ensures ok { OnOk result (IsReadOnto (S.left source.old) (S.left source.new) bytes.old.items
        bytes.new.items) }
    ensures grows { IfOk result (λ count. vec_len bytes.new ≡ vec_len bytes.old + count) }
    ensures fits { OnOk result (vec_len bytes.new ≤ limit) }
    ensures end { IfOk result (λ count. IsNoneAtEnd (S.left source.old) count) }

    ensures too_long { IsErrOf result ReadAllFault.TooLong
        → IsLongerThan (limit - vec_len bytes.old) (S.left source.old) }
    ensures fault { IsErrOf result ReadAllFault.ReadFault → HasRisen (S.faults source.old)
        (S.faults source.new) }

    ensures taken { TakesAtMost (limit - vec_len bytes.old + 1) (S.left source.old)
        (S.left source.new) }
    ensures never_falls { S.faults source.old ≤ S.faults source.new }
{
    let room = limit - bytes.len();
    let asked = piece.len().min(room.saturating_add(1));
    let count = source.read(&mut piece[..asked])?;
    if count > room {
        return Err(ReadAllFault::TooLong);
    }
    bytes.extend_from_slice(&piece[..count])?;
    Ok(count)
}

/// So many bytes 0.
fn zeros(alloc: Global, count: usize) -> Result<Vec<u8>, AllocError>
    ensures { IfOk result (λ bytes. vec_len bytes ≡ count) }
{
    vec![in alloc; 0; count]
}
