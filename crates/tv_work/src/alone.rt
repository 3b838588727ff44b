//! One worker alone.
ghost use Rattle.std.specs.Prelude.{◌≡◌, ◌≤◌, IfOk, OnErr, OnOk, true};
ghost use Rattle.tv_history.specs.Calls.{out_now};
ghost use Rattle.tv_history.specs.Runs.{IsLegalRun};
ghost use Rattle.tv_work.specs.Asked.{AsksABeginning, AsksAtMostOneMore, AsksEach, AsksInOrder, accepted_tries};
ghost use Rattle.tv_work.specs.ByOne.{AppendsByOne};
ghost use Rattle.tv_work.specs.InOrder.{AcceptsABeginning, AcceptsInOrder, HasOnlySettled};
ghost use Rattle.tv_work.specs.Working.{GoesOn, IsFree, IsHanded, IsMoving, IsOnlyOut, IsTurn, IsWorkedOff};

use std::alloc::Global;
use tv_board::{Board, Moved, Ticket};
use tv_gate::{Asker, Services};
use tv_value::NoMemory;

/// Works off a board on which nothing is out: settles all that can be settled, asks for the first try on offer, accepts its
/// outcome, and so on until nothing is on offer. It ends with the run done. After `Err` one try may be out.
///
/// It makes one call of the asker for each try whose outcome it has accepted, in that order, so as many as tries are left; after
/// `Err` the answer to one more, which is still out, may be lost. Whoever worked on the board before, what is appended is one
/// worker's: a try is handed out only where nothing can be settled and none is out, and none is taken back. So where no job
/// runs when it begins, the open instances are one chain (`laws::one_worker_opens_one_chain`), and from a board that has only
/// settled things it asks, and accepts, in the order of one worker: the whole of it, or after `Err` a beginning. The cost is that
/// of the board's calls and of the asker's: of the former some for each job, list and passed fault,
/// each with a look at the steps of its instance and of those around it, less the first ones that
/// are passed (`tv_board`).
pub fn run_alone<V: Services, A: Asker<Services = V>>(
    alloc: Global,
    board: &mut Board<V>,
    asker: &mut A,
) -> Result<(), NoMemory>
    requires { out_now V.gives board.old ≡ 0 }
    ensures goes_on { GoesOn board.old board.new }
    ensures legal { IsLegalRun V.gives board.new }
    ensures worked_off { OnOk result (IsWorkedOff V.gives board.new) }
    ensures refused { OnErr result (out_now V.gives board.new ≤ 1) }
    ensures asked { OnOk result (AsksEach V.gives (A.calls asker.old)
        (A.calls asker.new) board.old board.new) }
    ensures lost { OnErr result (AsksAtMostOneMore V.gives (A.calls asker.old)
        (A.calls asker.new) board.old board.new) }
    ensures by_one { AppendsByOne V.gives board.old board.new }
    ensures in_order { OnOk result (HasOnlySettled board.old
        → AsksInOrder V.gives board.old.document (A.calls asker.old) (A.calls asker.new)) }
    ensures beginning { OnErr result (HasOnlySettled board.old
        → AsksABeginning V.gives board.old.document (A.calls asker.old) (A.calls asker.new)) }
    ensures accepted_in_order { OnOk result (HasOnlySettled board.old
        → AcceptsInOrder V.gives board.new) }
    ensures accepted_beginning { OnErr result (HasOnlySettled board.old
        → AcceptsABeginning V.gives board.new) }
    ensures reached { A.reaches asker.old asker.new }
{
    board.is_lawful();
    'turns: while turn(alloc, board, asker)? {}
    Ok(())
}

/// Settles what can be settled, and has one try asked for and accepted: `false` where none is on offer.
fn turn<V: Services, A: Asker<Services = V>>(
    alloc: Global,
    board: &mut Board<V>,
    asker: &mut A,
) -> Result<bool, NoMemory>
    requires { IsFree V.gives board.old }
    ensures goes_on { GoesOn board.old board.new }
    ensures legal { IsLegalRun V.gives board.new }
    ensures turned { IfOk result (λ more. IsTurn V.gives board.old board.new more) }
    ensures refused { OnErr result (out_now V.gives board.new ≤ 1) }
    ensures asked { OnOk result (AsksEach V.gives (A.calls asker.old)
        (A.calls asker.new) board.old board.new) }
    ensures lost { OnErr result (AsksAtMostOneMore V.gives (A.calls asker.old)
        (A.calls asker.new) board.old board.new) }
    ensures by_one { AppendsByOne V.gives board.old board.new }
    ensures reached { A.reaches asker.old asker.new }
{
    match settle_all(board)? {
        Some(ticket) => {
            ask_for(alloc, board, asker, &ticket)?;
            Ok(true)
        }
        None => Ok(false),
    }
}

/// Settles all that can be settled, and then hands out the first try on offer: `None` where none is.
fn settle_all<V: Services>(board: &mut Board<V>) -> Result<Option<Ticket>, NoMemory>
    requires { IsFree V.gives board.old }
    ensures goes_on { GoesOn board.old board.new }
    ensures legal { IsLegalRun V.gives board.new }
    ensures handed { IfOk result (IsHanded V.gives board.new) }
    ensures few { out_now V.gives board.new ≤ 1 }
    ensures none_accepted { accepted_tries board.new ≡ accepted_tries board.old }
    ensures by_one { AppendsByOne V.gives board.old board.new }
{
    let mut handed = None;
    'settling: while move_on(board, &mut handed)? {}
    Ok(handed)
}

/// Settles one thing, and tells whether there was one; where there was none, the first try on offer is handed out.
pub(crate) fn move_on<V: Services>(
    board: &mut Board<V>,
    handed: &mut Option<Ticket>,
) -> Result<bool, NoMemory>
    ensures moved { IfOk result (λ more. IsMoving V.gives board.old board.new handed.new more) }
    ensures refused { OnErr result (board.new ≡ board.old) }
    ensures legal { IsLegalRun V.gives board.new }
{
    match board.move_on()? {
        Moved::Settled => Ok(true),
        Moved::HandedOut(ticket) => {
            *handed = Some(ticket);
            Ok(false)
        }
        Moved::Nothing => {
            *handed = None;
            Ok(false)
        }
    }
}

/// Asks for a try that was just handed out, and has the outcome accepted. Want of memory is the one
/// refusal.
fn ask_for<V: Services, A: Asker<Services = V>>(
    alloc: Global,
    board: &mut Board<V>,
    asker: &mut A,
    ticket: &Ticket,
) -> Result<(), NoMemory>
    requires legal { IsLegalRun V.gives board.old }
    requires only { IsOnlyOut V.gives board.old ticket.now }
    ensures goes_on { GoesOn board.old board.new }
    ensures legal { IsLegalRun V.gives board.new }
    ensures turned { OnOk result (IsTurn V.gives board.old board.new true) }
    ensures refused { OnErr result (out_now V.gives board.new ≤ 1) }
    ensures asked { OnOk result (AsksEach V.gives (A.calls asker.old)
        (A.calls asker.new) board.old board.new) }
    ensures lost { OnErr result (AsksAtMostOneMore V.gives (A.calls asker.old)
        (A.calls asker.new) board.old board.new) }
    ensures by_one { AppendsByOne V.gives board.old board.new }
    ensures reached { A.reaches asker.old asker.new }
{
    match board.ask_and_accept(alloc, ticket, asker) {
        Ok(_accepted) => Ok(()),
        Err(refused) => Err(refused),
    }
}
