//! What workers share: a board under a lock, and what each of them does to it there.
ghost use Rattle.std.specs.Prelude.{◌≡◌, ◌+◌, ◌||◌, IfErr, IfOk, OnErr, false, sum, true, vec_len};
ghost use Rattle.tv_board.specs.Refusals.{answered, outcome_for};
ghost use Rattle.tv_history.specs.Calls.{IsTask, IsTaskFault};
ghost use Rattle.tv_history.specs.Histories.{is_done};
ghost use Rattle.tv_history.specs.Runs.{IsLegalRun, past_of};
ghost use Rattle.tv_board.specs.Tasks.{asked};
ghost use Rattle.tv_work.specs.Locking.{IsSince, IsTaken, IsTurned, OnlySettles, acceptances};
ghost use Rattle.tv_work.specs.Working.{GoesOn};

use crate::alone::move_on;
use std::marker::Model;
use std::sync::ledger;
use std::sync::ledger::Book;
use tv_board::{Answer, Board, Naming, Refused, Task, TaskFault, Ticket};
use tv_gate::Services;
use tv_value::NoMemory;

/// How many outcomes one worker saw accepted: one part of the ledger of all workers. Contracts see it as that number.
#[derive(Drop)]
pub struct Share<N: Naming> {
    amount: u64,
    part: ledger::Share<N>,
}

impl<N: Naming> Model for Share<N> {
    ghost use Rattle.std.specs.Prelude.{ℕ, ◌≡◌};

    ghost Value = { ℕ };

    ghost view = { λ s. s.amount };

    ghost invariant = { λ s. (s.part.parts ≡ 1) × (s.part.amount ≡ s.amount) };
}

impl<N: Naming> Share<N> {
    /// A part of the ledger with nothing in it.
    pub fn new(part: ledger::Share<N>) -> Share<N>
        requires one { part.parts ≡ 1 }
        requires none { part.amount ≡ 0 }
        ensures { result ≡ 0 }
    {
        Share { amount: 0, part }
    }

    /// Its part of the ledger.
    pub fn into_part(self) -> ledger::Share<N>
        ensures one { result.parts ≡ 1 }
        ensures amount { result.amount ≡ self }
    {
        self.part
    }
}

/// A board under a lock. Whenever the lock is free, its board is of the run that is named, its history is legal and has the one
/// with which the workers began as its first part, and its book has as many outcomes as were accepted since then. Contracts see
/// it as its board, the number in its book and whether the workers are to end.
#[derive(Drop)]
pub struct Locked<V: Services, N: Naming> {
    board: Board<V>,
    accepted: Book<N>,
    stopped: bool,
}

impl<V: Services, N: Naming> Model for Locked<V, N> {
    ghost use Rattle.tv_history.specs.contracts.entry.Entry as entry_type;
    ghost use Rattle.tv_work.specs.LockCodes.{coded_held};
    ghost use Rattle.tv_work.specs.Locking.{Held, IsSince};

    ghost Value = { Held };

    ghost coded = { coded_held entry_type.the_row.coded };

    ghost view = { λ l. record {
      board = l.board;
      accepted = l.accepted.total;
      stopped = l.stopped;
    } };

    ghost invariant = { λ l. IsSince V.gives N.began (record {
      board = l.board;
      accepted = l.accepted.total;
      stopped = l.stopped;
    }) };
}

impl<V: Services, N: Naming> Locked<V, N> {
    /// The named board, with nothing in its book, and not stopped.
    pub fn new(board: Board<V>, accepted: Book<N>) -> Locked<V, N>
        requires began { board ≡ N.began }
        requires none { accepted.total ≡ 0 }
        ensures { result ≡ record { board = board; accepted = 0; stopped = false } }
    {
        board.is_lawful();
        Locked {
            board,
            accepted,
            stopped: false,
        }
    }

    /// Every board that is found under the lock is of the named run, has a legal history that goes on from that with which the
    /// workers began, and as many outcomes were accepted since as the book says. The call does nothing.
    pub fn is_lawful(&self)
        ensures { IsSince V.gives N.began self.now }
    {
        let _ = &self.board;
    }

    /// Settles until nothing can be settled, and then hands out the first try on offer, in job order: `None` where then none
    /// is. After want of memory it has only settled things. The cost is that of the board's `move_on`, once for each thing that
    /// is settled and once more.
    pub fn turn(&mut self) -> Result<Option<Ticket>, NoMemory>
        ensures turned { IfOk result (λ o. IsTurned V.gives self.old.board self.new.board o) }
        ensures settled { OnErr result (OnlySettles self.old.board self.new.board) }
        ensures accepted { self.new.accepted ≡ self.old.accepted }
        ensures stopped { self.new.stopped ≡ self.old.stopped }
    {
        settle_and_hand_out(&mut self.board)
    }

    /// Accepts an answer where its try is out and it is what the try asks: `false` where it isn't, and then nothing is changed
    /// and the answer is gone. Book and share rise by one where it is. After want of memory nothing is changed either, and the
    /// answer is gone. The cost is that of the board's `accept`.
    pub fn take(&mut self, answer: Answer<V>, share: &mut Share<N>) -> Result<bool, NoMemory>
        ensures taken { IfOk result (λ b. IsTaken V.gives self.old self.new share.old share.new
            (answered answer) (outcome_for V.gives (answered answer)) b) }
        ensures refused { OnErr result (self.new ≡ self.old) }
        ensures uncounted { OnErr result (share.new ≡ share.old) }
    {
        match self.board.accept(answer) {
            Ok(_) => {
                self.accepted.audit(&mut share.part);
                let _entries = self.board.history().len();
                self.accepted.add(&mut share.part, 1);
                share.amount += 1;
                Ok(true)
            }
            Err(Refused::NotOut { .. }) => Ok(false),
            Err(Refused::OtherInputs { .. }) => Ok(false),
            Err(Refused::NoMemory { .. }) => Err(NoMemory),
        }
    }

    /// What a ticket asks, where its try is out. The cost is that of the board's `task`.
    pub fn task(&self, ticket: &Ticket) -> Result<Task, TaskFault>
        ensures task { IfOk result (λ t. IsTask V.gives self.now.board (asked t.ticket t.service
            t.inputs t.outputs) × (t.ticket ≡ ticket.now)) }
        ensures fault { IfErr result (λ f. IsTaskFault V.gives self.now.board ticket.now f) }
    {
        self.board.task(ticket)
    }

    /// Whether the run is done, or a worker had the others end. Constant.
    pub fn is_over(&self) -> bool
        ensures { result ≡ (self.now.stopped || is_done (past_of self.now.board)) }
    {
        self.stopped || self.board.is_done()
    }

    /// Has the workers end.
    pub fn stop(&mut self)
        ensures board { self.new.board ≡ self.old.board }
        ensures accepted { self.new.accepted ≡ self.old.accepted }
        ensures stopped { self.new.stopped ≡ true }
    {
        self.stopped = true;
    }

    /// The board, once all workers have ended, and how many outcomes were accepted: what their shares sum to. Linear in the
    /// shares.
    pub fn end(self, rest: ledger::Share<N>, shares: Vec<Share<N>>) -> Board<V>
        requires all { rest.parts + vec_len shares ≡ N.parts }
        requires none { rest.amount ≡ 0 }
        ensures goes_on { GoesOn N.began result }
        ensures legal { IsLegalRun V.gives result }
        ensures sum { acceptances result ≡ acceptances N.began + sum shares.items }
    {
        let mut all = merged(rest, shares);
        let Locked {
            board,
            mut accepted,
            ..
        } = self;
        accepted.audit(&mut all);
        board
    }
}

/// The shares and the rest of the ledger in one.
fn merged<N: Naming>(rest: ledger::Share<N>, shares: Vec<Share<N>>) -> ledger::Share<N>
    ensures parts { result.parts ≡ rest.parts + vec_len shares }
    ensures amount { result.amount ≡ rest.amount + sum shares.items }
{
    let mut all = rest;
    let mut left = shares;
    'shares: while let Some(share) = left.pop() {
        all.merge(share.into_part());
    }
    all
}

/// Settles until nothing can be settled, and then hands out the first try on offer: `None` where then none is.
fn settle_and_hand_out<V: Services>(board: &mut Board<V>) -> Result<Option<Ticket>, NoMemory>
    ensures turned { IfOk result (λ o. IsTurned V.gives board.old board.new o) }
    ensures settled { OnErr result (OnlySettles board.old board.new) }
    ensures legal { IsLegalRun V.gives board.new }
{
    board.is_lawful();
    let mut handed = None;
    'settling: while move_on(board, &mut handed)? {}
    Ok(handed)
}
