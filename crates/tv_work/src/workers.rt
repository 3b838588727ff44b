//! Many workers.
ghost use Rattle.std.specs.Prelude.{◌≡◌, ◌≤◌, IfOk, OnOk, vec_len};
ghost use Rattle.tv_history.specs.Calls.{out_now};
ghost use Rattle.tv_history.specs.Runs.{IsLegalRun};
ghost use Rattle.tv_check.specs.RunViews.{run_view};
ghost use Rattle.tv_work.specs.Ran.{IsRun};
ghost use Rattle.tv_work.specs.Working.{GoesOn, IsWorkedOff};

use crate::alone::run_alone;
use crate::locked::{Locked, Share};
use std::alloc::Global;
use std::marker::Brand;
use std::sync::ledger::Blank;
use std::sync::{Condvar, Mutex, MutexGuard, Wait, ledger};
use std::thread;
use std::thread::Threads;
use tv_board::{Board, Naming, Task, Ticket, ask, output_values};
use tv_check::CheckedRun;
use tv_gate::{Gate, GateAsker, Services};
use tv_model::Totals;
use tv_value::{Name, NoMemory, Sequence, Value};

/// How often a worker looks whether the lock is free before it sleeps.
const LOOKS: u32 = 24;

/// How often it lets others go on after the first look; twice as often after each further one, up to `MOST`.
const LEAST: u32 = 8;

/// How often it lets others go on after a look at most: some hundred microseconds in all looks where no other thread is to run.
const MOST: u32 = 64;

/// Works off a board on which nothing is out by so many workers, each in a thread of its own, and what they leave by one alone.
/// After success the run is done. It may not return: each worker ends once the run is done, one of them found no memory or an answer
/// wasn't accepted, but no clause says that one who waits is woken. The gate is asked by all at once, in no order and with nothing
/// held: once for each outcome that is accepted, and where a worker found no memory again for what was out.
///
/// Where a thread can't be made its worker goes in the thread of another, after that one: where none can be, one worker does all.
/// `Err` comes where there is no memory for the list of the workers or of their shares, for taking back what was out when they ended,
/// or for one worker alone who finishes; the board is gone then.
///
/// A thread has the stack that the C library gives by default: what `ulimit -s` says when the program starts, and 2 MiB where that
/// is unlimited.
///
/// The cost is that of `run_alone`; where several jobs have flows open, each turn also looks at the open instances in order of their
/// jobs. Inputs are assembled, the gate is called and outcomes are put into cells with the lock free, so at the same time; the calls of
/// the board, which copy and compare pieces, are made with the lock held, one after another.
pub fn run_with_workers<R: Threads + Wait + Sync, V: Services, G: Gate<Services = V>>(
    rt: &R,
    alloc: Global,
    board: Board<V>,
    gate: &G,
    workers: u32,
) -> Result<Board<V>, NoMemory>
    requires free { out_now V.gives board ≡ 0 }
    requires workers { (1 ≤ workers) × (workers ≤ 64) }
    ensures goes_on { IfOk result (λ b. GoesOn board b) }
    ensures legal { IfOk result (λ b. IsLegalRun V.gives b) }
    ensures worked_off { IfOk result (λ b. IsWorkedOff V.gives b) }
{
    let blank = Blank::new(u64::from(workers));
    let mut board = run_named::<Brand, R, V, G>(rt, alloc, board, gate, workers, blank)?;
    board.recall_all()?;
    let mut asker = GateAsker::new(gate);
    run_alone(alloc, &mut board, &mut asker)?;
    Ok(board)
}

/// The outputs and the totals of a document's meaning, by so many workers, if it returns: starts a board, works it off with
/// `run_with_workers`, and reads them off. The outputs come in the order of the flow's outputs. The cost is that of
/// `run_with_workers`.
pub fn run_whole_with_workers<R: Threads + Wait + Sync, V: Services, G: Gate<Services = V>>(
    rt: &R,
    alloc: Global,
    run: CheckedRun,
    gate: &G,
    workers: u32,
) -> Result<(Sequence<(Name, Value)>, Totals), NoMemory>
    requires workers { (1 ≤ workers) × (workers ≤ 64) }
    ensures run { IfOk result (λ r. IsRun V.gives (run_view run) r) }
{
    let begun = Board::start(alloc, run)?;
    let board = run_with_workers(rt, alloc, begun, gate, workers)?;
    let pieces = board.outputs()?;
    let outputs = output_values(alloc, pieces.as_slice())?;
    let totals = board.totals();
    Ok((outputs, totals))
}

/// What workers share: the board under its lock, and the word that there is something to do.
#[derive(Drop)]
struct Desk<V: Services, N: Naming> {
    shared: Mutex<Shared<V, N>>,
    called: Condvar,
}

/// What stands under the lock.
#[derive(Drop)]
struct Shared<V: Services, N: Naming> {
    locked: Locked<V, N>,
    /// A try that was handed out for whoever comes first.
    next: Option<Ticket>,
    /// How many workers wait and were not called, or more where one that was not called woke by itself.
    waiting: u32,
}

/// The workers alone, for the board that is named: what is out or left when they have ended stays so.
fn run_named<N: Naming + Send + Sync, R: Threads + Wait + Sync, V: Services, G: Gate<Services = V>>(
    rt: &R,
    alloc: Global,
    board: Board<V>,
    gate: &G,
    workers: u32,
    blank: Blank,
) -> Result<Board<V>, NoMemory>
    requires began { board ≡ N.began }
    requires name { blank.name ≡ N.name }
    requires parts { blank.parts ≡ N.parts }
    requires one_each { blank.parts ≡ workers }
    ensures goes_on { IfOk result (λ b. GoesOn N.began b) }
    ensures legal { IfOk result (λ b. IsLegalRun V.gives b) }
{
    let (accepted, mut rest) = blank.open::<N>();
    let shares = split(alloc, &mut rest, workers)?;
    let desk = Desk {
        shared: Mutex::new(Shared {
            locked: Locked::new(board, accepted),
            next: None,
            waiting: 0,
        }),
        called: Condvar::new(),
    };
    let shares = thread::map_vec(rt, shares, &|share| work(rt, alloc, &desk, gate, share))?;
    Ok(desk.shared.into_inner().locked.end(rest, shares))
}

/// An empty share for each worker, of one part of the ledger.
fn split<N: Naming>(
    alloc: Global,
    rest: &mut ledger::Share<N>,
    workers: u32,
) -> Result<Vec<Share<N>>, NoMemory>
    requires parts { rest.old.parts ≡ workers }
    requires none { rest.old.amount ≡ 0 }
    ensures each { IfOk result (λ v. vec_len v ≡ workers) }
    ensures parts { OnOk result (rest.new.parts ≡ 0) }
    ensures amount { OnOk result (rest.new.amount ≡ 0) }
{
    let mut shares = Vec::new(alloc);
    'shares: for _i in 0..workers {
        shares.push(Share::new(rest.split_off(1, 0)))?;
    }
    Ok(shares)
}

/// One worker: takes a task, asks with the lock free and gives the answer, until the run is over. Want of memory, and an answer
/// that isn't accepted, have all workers end.
fn work<R: Wait, N: Naming, V: Services, G: Gate<Services = V>>(
    rt: &R,
    alloc: Global,
    desk: &Desk<V, N>,
    gate: &G,
    share: Share<N>,
) -> Share<N> {
    let mut share = share;
    let mut held = locked(rt, &desk.shared);
    for _ in rt.forever() {
        let Some(task) = next_task(rt, held, &desk.called) else {
            break;
        };
        let answer = ask(alloc, task, gate);
        held = locked(rt, &desk.shared);
        let Ok(answer) = answer else {
            held.locked.stop();
            continue;
        };
        if !matches!(held.locked.take(answer, &mut share), Ok(true)) {
            held.locked.stop();
        }
    }
    share
}

/// The lock, when it is free. It is held for microseconds: so this worker looks at it some times before it sleeps. It pauses between,
/// so that whoever has had the lock last, and the board in its cache, often has it for several turns.
fn locked<'a, R: Wait, T>(rt: &R, lock: &'a Mutex<T>) -> MutexGuard<'a, T> {
    let mut pauses = LEAST;
    for _look in 0..LOOKS {
        if let Some(held) = lock.try_lock() {
            return held;
        }
        for _pause in 0..pauses {
            thread::yield_now();
        }
        pauses = pauses.saturating_mul(2).min(MOST);
    }
    lock.lock(rt)
}

/// The next task, as soon as there is one, with the lock free; `None` once the run is over, and then all who wait are called.
///
/// Where others wait and more is on offer, one of them is called. Who gives an answer looks itself before it waits. So while
/// something is on offer, one is about to look or none waits.
fn next_task<R: Wait, N: Naming, V: Services>(
    rt: &R,
    held: MutexGuard<'_, Shared<V, N>>,
    called: &Condvar,
) -> Option<Task> {
    let mut held = held;
    for _ in rt.forever() {
        if let Some(ticket) = held.next_ticket() {
            if let Ok(task) = held.locked.task(&ticket) {
                let calls = held.has_more();
                drop(held);
                if calls {
                    called.notify_one();
                }
                return Some(task);
            }
            held.locked.stop();
        }
        if held.locked.is_over() {
            drop(held);
            called.notify_all();
            return None;
        }
        held.waiting = held.waiting.saturating_add(1);
        held = called.wait(rt, held);
    }
    unreachable!()
}

impl<V: Services, N: Naming> Shared<V, N> {
    /// The try that was handed out for whoever comes first, or else the first on offer; `None` where none is, or the run is over.
    fn next_ticket(&mut self) -> Option<Ticket> {
        if self.locked.is_over() {
            return None;
        }
        match self.next.take() {
            Some(ticket) => Some(ticket),
            None => self.hand_out(),
        }
    }

    /// Whether one who waits is to be called, since something is to be done: then that one counts as called. Where nobody waits nothing
    /// is looked for; else, where nothing stands ready for whoever comes first, the next try is handed out for them.
    fn has_more(&mut self) -> bool {
        if self.waiting == 0 {
            return false;
        }
        if self.next.is_none() {
            self.next = self.hand_out();
        }
        let calls = self.next.is_some() || self.locked.is_over();
        if calls {
            self.waiting = self.waiting.saturating_sub(1);
        }
        calls
    }

    /// Settles, and hands out the first try on offer. Want of memory has all workers end.
    fn hand_out(&mut self) -> Option<Ticket> {
        match self.locked.turn() {
            Ok(handed) => handed,
            Err(_) => {
                self.locked.stop();
                None
            }
        }
    }
}
