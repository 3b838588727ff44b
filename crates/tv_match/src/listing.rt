ghost use Rattle.std.specs.Prelude.{◌≡◌, ℕ, ◌≤◌, ◌++◌, ◌∷◌, [], length, map, take, OnOk};
ghost use Rattle.tv_value.specs.Values.{Name};
ghost use Rattle.tv_value.specs.Strategies.{Strategy};
ghost use Rattle.tv_match.specs.Entries.{front, Rise};
ghost use Rattle.tv_match.specs.Filed.{filed};
ghost use Rattle.tv_match.specs.Seen.{entry_of};
ghost use Rattle.tv_match.specs.Working.{IsWorked, IsDone};

use crate::bags::Bag;
use crate::kinds::Kind;
use crate::steps::work;
use crate::stores::Store;
use crate::told::Told;
use tv_value::NoMemory;

/// Works a telling.
fn work_told(root: &mut Store, log: &mut Bag, out: &mut Bag, told: &Told) -> Result<(), NoMemory>
    ensures log { OnOk result (log.new ≡ log.old ++ entry_of told.now ∷ []) }
    ensures done { OnOk result ((ports : Name → ℕ) (s : Strategy)
        → IsDone ports s (filed root.old) log.old out.old
        → IsDone ports s (filed root.new) log.new out.new) }
    ensures still { (ports : Name → ℕ) (s : Strategy) → IsDone ports s (filed root.old) log.old out.old
        → IsWorked ports s (length log.old) (filed root.new) log.new out.new × Rise out.new }
    ensures listed { take (length log.old) log.new ≡ log.old }
    ensures front { (k : ℕ) → k ≤ length log.old → front k out.new ≡ front k out.old }
    ensures grows { length out.old ≤ length out.new }
{
    match told {
        Told::Arrival { leaf, place, fault } => {
            let kind = if *fault {
                Kind::Passed(*leaf)
            } else {
                Kind::Job { faulty: false }
            };
            work(root, log, out, *leaf, place.as_slice(), kind)
        }
        Told::Faulty { leaf, place } => {
            let kind = Kind::Job { faulty: true };
            work(root, log, out, *leaf, place.as_slice(), kind)
        }
        Told::Close {
            leaf,
            place,
            length,
        } => work(
            root,
            log,
            out,
            *leaf,
            place.as_slice(),
            Kind::Closed(*length),
        ),
    }
}

/// Works tellings, one after the other. Where memory is wanting some of them are worked.
pub fn work_all(
    root: &mut Store,
    log: &mut Bag,
    out: &mut Bag,
    tolds: &[Told],
) -> Result<(), NoMemory>
    ensures log { OnOk result (log.new ≡ log.old ++ map entry_of tolds.now) }
    ensures done { OnOk result ((ports : Name → ℕ) (s : Strategy)
        → IsDone ports s (filed root.old) log.old out.old
        → IsDone ports s (filed root.new) log.new out.new) }
    ensures still { (ports : Name → ℕ) (s : Strategy) → IsDone ports s (filed root.old) log.old out.old
        → IsWorked ports s (length log.old) (filed root.new) log.new out.new × Rise out.new }
    ensures listed { take (length log.old) log.new ≡ log.old }
    ensures front { (k : ℕ) → k ≤ length log.old → front k out.new ≡ front k out.old }
    ensures grows { length out.old ≤ length out.new }
{
    for told in tolds {
        work_told(root, log, out, told)?;
    }
    Ok(())
}
