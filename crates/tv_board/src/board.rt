//! The type of boards, and its calls.
ghost use Rattle.std.specs.Prelude.{◌≡◌, ◌≤◌, [], IfErr, IfOk, IsOk, MatchOption, OnErr, OnOk, Some, is_some, map, slice_get, true};
ghost use Rattle.tv_cell.specs.PieceValues.{piece_value};
ghost use Rattle.tv_flow.specs.Views.{each};
ghost use Rattle.tv_flow.specs.Formed.{is_formed};
ghost use Rattle.tv_strategy.specs.Origins.{plain};
ghost use Rattle.tv_check.specs.RunViews.{run_view};
ghost use Rattle.tv_lineage.specs.Kept.{records_of};
ghost use Rattle.tv_lineage.specs.Members.{HaveSame};
ghost use Rattle.tv_traces.specs.Settled.{settled_records};
ghost use Rattle.tv_model.specs.Totals as model;
ghost use Rattle.tv_model.specs.TotalsViews.{totals_view};
ghost use Rattle.tv_history.specs.Histories.{is_done, kept_results, node_room};
ghost use Rattle.tv_history.specs.Calls.{IsNothingOffered, IsTask, IsTaskFault, hands_out, out_now, totals_so_far, try_if_out};
ghost use Rattle.tv_history.specs.Declarations.{declared_for};
ghost use Rattle.tv_history.specs.Idle.{AreIdle};
ghost use Rattle.tv_board.specs.Asked.{AsksAndAccepts, AsksOnceAtMost};
ghost use Rattle.tv_board.specs.Refusals.{IsRefused, answered, outcome_for};
ghost use Rattle.tv_run.specs.Tasks.{AreSoundOutputs, asked};
ghost use Rattle.tv_history.specs.Refusals.{IsAccepting};
ghost use Rattle.tv_history.specs.Runs.{Appends, IsLegalRun, meant, past_of};
ghost use Rattle.tv_history.specs.Moves.{IsMove};
ghost use Rattle.tv_history.specs.Settlements.{IsSettling};
ghost use Rattle.tv_history.specs.Recalls.{IsRecalled};

use crate::answer::Answer;
use crate::refused::Refused;
use std::alloc::Global;
use std::marker::{Model, PhantomData};
use std::mem;
use tv_check::CheckedRun;
use tv_gate::{Asker, Services};
use tv_history::{Accepted, Entry, Moved, TaskFault, Tested, Ticket};
use tv_lineage::Records;
use tv_model::Totals;
use tv_run::{OpenRun, Outputs, Task};
use tv_value::{JobName, NoMemory, Value};

/// A run: a document with the history of what was done for it.
#[derive(Drop)]
pub struct Board<V: Services> {
    pub(crate) run: OpenRun,
    pub(crate) services: PhantomData<V>,
    // Empty: the memory that values for services stand in.
    pub(crate) room: Vec<Value>,
}

impl<V: Services> Model for Board<V> {
    ghost use Rattle.tv_history.specs.Runs.{Run};
    ghost use Rattle.tv_history.specs.RunCodes.{coded_run};
    ghost use Rattle.tv_history.specs.contracts.entry.Entry as entry_type;

    ghost Value = { Run };

    ghost coded = { coded_run entry_type.the_row.coded };

    ghost use Rattle.tv_run.specs.Standing.{StandsStill, run_of};

    ghost view = { λ b. run_of b.run };

    ghost invariant = { λ b. StandsStill V.gives b.run };
}

impl<V: Services> Board<V> {
    /// A run of which nothing is done. Linear in all flows with their constants, in the values given
    /// and in the jobs that are known then.
    pub fn start(alloc: Global, run: CheckedRun) -> Result<Board<V>, NoMemory>
        ensures document { IfOk result (λ b. b.document ≡ run_view run) }
        ensures empty { IfOk result (λ b. b.entries ≡ []) }
        ensures legal { IfOk result (λ b. IsLegalRun V.gives b) }
    {
        Ok(Board {
            run: OpenRun::start(alloc, run)?,
            services: PhantomData,
            room: Vec::new(alloc),
        })
    }

    /// What was done, the oldest first. Constant.
    pub fn history(&self) -> &[Entry]
        ensures history { result.now ≡ self.now.entries }
        ensures legal { IsLegalRun V.gives self.now }
    {
        self.run.history()
    }

    /// The name of a job; `None` where no job has that number. Linear in the name.
    pub fn name_of(&self, job: u64) -> Result<Option<JobName>, NoMemory>
        ensures { IfOk result (λ name. name ≡ slice_get self.now.names job) }
    {
        self.run.name_of(job)
    }

    /// Whether the run is done: the main instance has ended. Constant.
    pub fn is_done(&self) -> bool
        ensures { result ≡ is_done (past_of self.now) }
    {
        self.run.is_done()
    }

    /// Every board is of a document that was read, and has a legal history. The call does nothing.
    pub fn is_lawful(&self)
        ensures formed { is_formed self.now.document ≡ true }
        ensures legal { IsLegalRun V.gives self.now }
    {
        self.run.is_lawful();
    }

    /// Bounces a job that can be, or else closes a list or passes a fault that can be, or else ends
    /// an instance that can end, the main one's end being the run's; or else opens the flow of the
    /// first job that goes on, where it has one next; `false` where none of these can be.
    pub fn settle_one(&mut self) -> Result<bool, NoMemory>
        ensures settled { IfOk result (λ b. IsSettling V.gives self.old self.new b) }
        ensures refused { OnErr result (self.new ≡ self.old) }
        ensures legal { IsLegalRun V.gives self.new }
    {
        if self.run.is_done() {
            return Ok(false);
        }
        self.run.settle_one()
    }

    /// Hands out the first try on offer, in job order; `None` where none is. Takes no memory.
    pub fn hand_out(&mut self) -> Option<Ticket>
        ensures ticket { MatchOption result ((self.new ≡ self.old)
            × IsNothingOffered V.gives self.old) (λ t. Appends self.old self.new (hands_out t)) }
        ensures names { self.new.names ≡ self.old.names }
        ensures legal { IsLegalRun V.gives self.new }
    {
        if self.run.is_done() {
            return None;
        }
        self.run.hand_out()
    }

    /// Goes on by itself: settles one thing as `settle_one` does, or where nothing can be settled hands out the first try on offer, as
    /// `hand_out` does. It costs less than the two, since it looks for the first job that goes on once.
    pub fn move_on(&mut self) -> Result<Moved, NoMemory>
        ensures moved { IfOk result (λ m. IsMove V.gives self.old self.new m) }
        ensures refused { OnErr result (self.new ≡ self.old) }
        ensures legal { IsLegalRun V.gives self.new }
    {
        if self.run.is_done() {
            return Ok(Moved::Nothing);
        }
        self.run.move_on()
    }

    /// Takes back all tries that are out, and tells how many. They are on offer again. Takes no memory where none is out.
    pub fn recall_all(&mut self) -> Result<u64, NoMemory>
        ensures count { IfOk result (λ n. n ≡ out_now V.gives self.old) }
        ensures recalled { IfOk result (λ n. IsRecalled self.old self.new n) }
        ensures names { self.new.names ≡ self.old.names }
        ensures idle { OnOk result (AreIdle V.gives self.old self.new) }
        ensures none_out { OnOk result (out_now V.gives self.new ≡ 0) }
        ensures quiet { out_now V.gives self.old ≡ 0 → IsOk result }
        ensures refused { OnErr result (self.new ≡ self.old) }
        ensures legal { IsLegalRun V.gives self.new }
    {
        if self.run.is_done() {
            return Ok(0);
        }
        self.run.recall_all()
    }

    /// What a ticket asks, where its try is out. Linear in the ports and the outputs, and in the pieces of lists that are bound; no
    /// value is copied.
    pub fn task(&self, ticket: &Ticket) -> Result<Task, TaskFault>
        ensures task { IfOk result (λ t. IsTask V.gives self.now (asked t.ticket t.service
            t.inputs t.outputs) × (t.ticket ≡ ticket.now)) }
        ensures outputs { IfOk result (λ t. declared_for V.gives self.now t.ticket.job
            ≡ Some t.outputs) }
        ensures fault { IfErr result (λ f. IsTaskFault V.gives self.now ticket.now f) }
    {
        if !self.run.is_out(ticket) {
            return Err(TaskFault::NotOut(self.run.state_of(ticket.job)));
        }
        match self.run.task_of(*ticket) {
            Ok(task) => Ok(task),
            Err(_) => Err(TaskFault::NoMemory),
        }
    }

    /// Accepts an answer where its try is out and it is what the try asks, compared as values: the job goes on or is settled by the
    /// judgment of its outcome. Linear in the inputs, which are compared; no value of the outcome is copied.
    pub fn accept(&mut self, answer: Answer<V>) -> Result<Accepted, Refused<V>>
        ensures accepted { IfOk result (λ a. IsAccepting V.gives self.old self.new (answered answer)
            (outcome_for V.gives (answered answer)) a) }
        ensures refused { IfErr result (λ r. IsRefused V.gives self.old (answered answer)
            answer.judged r) }
        ensures unchanged { OnErr result (self.new ≡ self.old) }
        ensures legal { IsLegalRun V.gives self.new }
    {
        match self.run.tested(
            answer.ticket,
            &answer.service,
            &answer.inputs,
            &answer.outputs,
        ) {
            Tested::NotOut(state) => Err(Refused::NotOut { answer, state }),
            Tested::Other => Err(Refused::OtherInputs { answer }),
            Tested::Asked => {
                let Answer {
                    ticket,
                    service,
                    inputs,
                    outputs,
                    judged,
                    services,
                } = answer;
                match self.run.accept(ticket, judged) {
                    Ok(accepted) => Ok(accepted),
                    Err(failed) => Err(Refused::NoMemory {
                        answer: Answer {
                            ticket,
                            service,
                            inputs,
                            outputs,
                            judged: failed.value,
                            services,
                        },
                    }),
                }
            }
        }
    }

    /// Asks for a try that is out, by one call, and accepts the outcome, as `task`, `ask_alone` and
    /// `accept` do one after the other, but copies no names and no outcome and compares nothing. After
    /// `Err` the board is as it was, the asker was called once at the most, and its answer is gone.
    pub fn ask_and_accept<A: Asker<Services = V>>(
        &mut self,
        alloc: Global,
        ticket: &Ticket,
        asker: &mut A,
    ) -> Result<Accepted, NoMemory>
        requires { is_some (try_if_out V.gives self.old ticket.now) ≡ true }
        ensures accepted { IfOk result (λ a. AsksAndAccepts V.gives self.old self.new ticket.now
            (A.calls asker.old) (A.calls asker.new) a) }
        ensures refused { OnErr result (AsksOnceAtMost V.gives self.old ticket.now
            (A.calls asker.old) (A.calls asker.new)) }
        ensures unchanged { OnErr result (self.new ≡ self.old) }
        ensures legal { IsLegalRun V.gives self.new }
        ensures reached { A.reaches asker.old asker.new }
    {
        let mut room = mem::replace(&mut self.room, Vec::new(alloc));
        room.clear();
        let inputs = self.run.asked_inputs(*ticket, room)?;
        let service = self.run.asked_service(*ticket).as_str();
        let outcome = asker.call(alloc, service, &inputs, ticket.attempt)?;
        let mut values = inputs.into_vec();
        values.clear();
        self.room = values;
        self.run.accept_own(*ticket, outcome)
    }

    /// The outputs of a run that is done: those that the document means by the services, in the order of the flow's outputs, as
    /// pieces. Linear in their names, and in the pieces of lists; no value is copied.
    pub fn outputs(&self) -> Result<Outputs, NoMemory>
        requires { is_done (past_of self.now) ≡ true }
        ensures values { IfOk result (λ os. each piece_value os
            ≡ map (λ o. (o.0, plain o.1)) (meant V.gives self.now).outputs) }
        ensures sound { IfOk result AreSoundOutputs }
    {
        self.run.outputs()
    }

    /// What each settled job of the main flow used, as far as the run has come, and no other job: that is
    /// worked out at each call, from the lists and passed faults that were settled so far, and from the
    /// plans. Near linear in the jobs of the main flow that are known, in what their steps bind, and in
    /// those lists and faults.
    pub fn records(&self) -> Result<Records, NoMemory>
        ensures { IfOk result (λ rs. HaveSame (records_of rs)
            (settled_records (past_of self.now) (meant V.gives self.now))) }
    {
        self.run.records()
    }

    /// How many nodes the pool keeps for the open instances: at least one for each result that is kept, of
    /// each output of each settled job in an open instance, at most those of the values and iterations of the
    /// open instances, and none once the run is done. Constant. Takes no memory.
    pub fn live(&self) -> u64
        ensures kept { kept_results (meant V.gives self.now) (past_of self.now) ≤ result }
        ensures room { result ≤ node_room (meant V.gives self.now) (past_of self.now) }
        ensures done { is_done (past_of self.now) ≡ true → result ≡ 0 }
    {
        self.run.live()
    }

    /// The totals of the history so far: its accepted outcomes and bounced jobs, and of the settled jobs how many there are
    /// and how many of them have failed. Linear in the history and in the jobs that are known. Takes no memory.
    pub fn totals(&self) -> Totals
        ensures so_far { totals_view result ≡ totals_so_far V.gives self.now }
        ensures done { is_done (past_of self.now) ≡ true
            → totals_view result ≡ model.totals (meant V.gives self.now).jobs }
    {
        self.run.totals()
    }
}
