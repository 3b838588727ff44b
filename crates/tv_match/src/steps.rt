ghost use Rattle.std.specs.Prelude.{◌≡◌, ℕ, ◌+◌, ◌≤◌, ◌++◌, ◌∷◌, [], length, take, OnOk};
ghost use Rattle.tv_value.specs.Values.{Name};
ghost use Rattle.tv_value.specs.Strategies.{Strategy};
ghost use Rattle.tv_matching.specs.Stores.{gain, grown, told_by};
ghost use Rattle.tv_match.specs.Brief.{briefs, brief_store};
ghost use Rattle.tv_match.specs.Entries.{entry, front, kepts, Rise, AreMore};
ghost use Rattle.tv_match.specs.Filed.{Adds, filed, kept_store};
ghost use Rattle.tv_match.specs.Working.{IsWorked, IsDone, unit_news};

use crate::bags::Bag;
use crate::kinds::Kind;
use crate::stores::{News, Store};
use tv_value::NoMemory;

/// Works what follows from nothing. Where memory is wanting some of it is there.
pub fn begin(root: &mut Store, out: &mut Bag) -> Result<(), NoMemory>
    ensures store { OnOk result (kept_store kepts (filed root.new)
        ≡ brief_store (grown (told_by unit_news) (kept_store kepts (filed root.old)))) }
    ensures items { OnOk result (kepts out.new ≡ kepts out.old
        ++ briefs (gain (told_by unit_news) (kept_store kepts (filed root.old)))) }
    ensures more { AreMore 0 out.old out.new }
    ensures adds { Adds 0 (filed root.old) (filed root.new) }
{
    let news = News {
        leaf: None,
        place: &[],
        kind: Kind::Job { faulty: false },
        number: 0,
    };
    root.tell(&news, out)
}

/// Works one more telling of a leaf: it is listed, and what follows is put behind `out`.
///
/// Linear in what is new at the nodes of the strategy, and in the strategy. Where memory is wanting some of it is there,
/// and `take_back` undoes it.
pub fn work(
    root: &mut Store,
    log: &mut Bag,
    out: &mut Bag,
    leaf: u32,
    place: &[u32],
    kind: Kind,
) -> Result<(), NoMemory>
    ensures log { OnOk result (log.new ≡ log.old ++ entry leaf place.now kind ∷ []) }
    ensures done { OnOk result ((ports : Name → ℕ) (s : Strategy)
        → IsDone ports s (filed root.old) log.old out.old
        → IsDone ports s (filed root.new) log.new out.new) }
    ensures still { (ports : Name → ℕ) (s : Strategy) → IsDone ports s (filed root.old) log.old out.old
        → IsWorked ports s (length log.old) (filed root.new) log.new out.new × Rise out.new }
    ensures listed { take (length log.old) log.new ≡ log.old }
    ensures more { AreMore (length log.old + 1) out.old out.new }
{
    log.push(&[], place, kind, leaf as usize)?;
    let news = News {
        leaf: Some(leaf),
        place,
        kind,
        number: log.len(),
    };
    root.tell(&news, out)
}

/// Undoes all tellings but the first ones. Takes no memory. Linear in what it undoes, and in the strategy.
pub fn take_back(root: &mut Store, log: &mut Bag, out: &mut Bag, told: usize)
    ensures log { log.new ≡ take told log.old }
    ensures out { out.new ≡ front told out.old }
    ensures done { (ports : Name → ℕ) (s : Strategy) (m : ℕ) → told ≤ m → m ≤ length log.old
        → IsWorked ports s m (filed root.old) log.old out.old → Rise out.old
        → IsDone ports s (filed root.new) log.new out.new }
{
    root.cut(told);
    log.truncate(told);
    out.cut(told);
}
