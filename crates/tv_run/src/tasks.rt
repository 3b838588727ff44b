//! Tasks of tickets.
ghost use Rattle.std.specs.Prelude.{◌≡◌, [], Some, IfOk, is_some, slice_get, true};
ghost use Rattle.tv_value.specs.Activities.{service};
ghost use Rattle.tv_value.specs.Views.{values_view};
ghost use Rattle.tv_dispatch.specs.Jobs.{Ask};
ghost use Rattle.tv_gate.specs.Outcomes.{Giving};
ghost use Rattle.tv_flow.specs.Views.{activity_view};
ghost use Rattle.tv_history.specs.Calls.{IsTask, try_if_out};
ghost use Rattle.tv_history.specs.Declarations.{declared_for};
ghost use Rattle.tv_cell.specs.PieceValues.{piece_values};
ghost use Rattle.tv_cell.specs.Soundness.{AreSound};
ghost use Rattle.tv_instances.specs.Answers.{AreInputs};
ghost use Rattle.tv_instances.specs.FramingViews.{View};
ghost use Rattle.tv_seats.specs.Seats.{Seat};
ghost use Rattle.tv_instances.specs.seats.Seated.{spot_of};
ghost use Rattle.tv_instances.specs.Forest.{Instance as AnInstance, Instances, IsAt};
ghost use Rattle.tv_run.specs.Jobs.{IsOfOpen, is_service};
ghost use Rattle.tv_run.specs.declared.instances.Numbered.{Numbered as TheNumbered};
ghost use Rattle.tv_run.specs.Standing.{Fits, StandsStill, run_of};
ghost use Rattle.tv_run.specs.Tasks.{asked};

use crate::Task;
use crate::instances::Numbered;
use crate::run::OpenRun;
use tv_cell::Pieces;
use tv_flow::Activity;
use tv_history::Ticket;
use tv_value::{Copied, Items, Name, NoMemory, Value};

/// The name of the service of an activity that is one.
fn service_of(activity: &Activity) -> &Name
    requires { is_service (activity_view activity.now) ≡ true }
    ensures { activity_view activity.now ≡ service result.now }
{
    match activity {
        Activity::Service(name) => name,
        Activity::Nested(_) => unreachable!(),
    }
}

impl OpenRun {
    /// The task of a ticket whose try is out. Linear in the ports and the outputs, and in the pieces of lists that are bound; no value
    /// is copied.
    pub fn task_of(&self, ticket: Ticket) -> Result<Task, NoMemory>
        requires { (gives : Giving) × StandsStill gives self.now
            × (is_some (try_if_out gives (run_of self.now) ticket) ≡ true) }
        ensures ticket { IfOk result (λ t. t.ticket ≡ ticket) }
        ensures task { IfOk result (λ t. (gives : Giving) → StandsStill gives self.now
            → is_some (try_if_out gives (run_of self.now) ticket) ≡ true
            → IsTask gives (run_of self.now) (asked t.ticket t.service t.inputs t.outputs)
            × (declared_for gives (run_of self.now) ticket.job ≡ Some t.outputs)) }
    {
        let service = self.asked_service(ticket).copy(self.alloc)?;
        let inputs = self.inputs_of(ticket.job)?;
        let outputs = self.step_at(ticket.job).outputs.copy(self.alloc)?;
        Ok(Task {
            ticket,
            service,
            inputs,
            outputs,
        })
    }

    /// The service that the try of a ticket asks, where that is out. Takes no memory.
    pub fn asked_service(&self, ticket: Ticket) -> &Name
        requires { (gives : Giving) × StandsStill gives self.now
            × (is_some (try_if_out gives (run_of self.now) ticket) ≡ true) }
        ensures { (gives : Giving) (a : Ask) → StandsStill gives self.now
            → try_if_out gives (run_of self.now) ticket ≡ Some a → result.now ≡ a.service }
    {
        let step = self.step_at(ticket.job);
        service_of(&step.activities.as_slice()[ticket.activity as usize])
    }

    /// The values that the try of a ticket gives to its service, where that is out. Linear in them. They
    /// stand in the memory of `room`, which is empty.
    pub fn asked_inputs(&self, ticket: Ticket, room: Vec<Value>) -> Result<Items, NoMemory>
        requires room { room.items ≡ [] }
        requires out { (gives : Giving) × StandsStill gives self.now
            × (is_some (try_if_out gives (run_of self.now) ticket) ≡ true) }
        ensures { IfOk result (λ vs. (gives : Giving) (a : Ask) → StandsStill gives self.now
            → try_if_out gives (run_of self.now) ticket ≡ Some a → values_view vs ≡ a.inputs) }
    {
        self.values_bound(ticket.job, room)
    }

    /// The values that a job of an open instance binds. Linear in them.
    fn values_bound(&self, job: u64, room: Vec<Value>) -> Result<Items, NoMemory>
        requires room { room.items ≡ [] }
        requires job { (xs : Instances) × Fits self.now xs × IsOfOpen self.now job }
        ensures { IfOk result (λ vs. (xs : Instances) (n : TheNumbered) (x : AnInstance) (v : View)
            (s : Seat)
            → Fits self.now xs → slice_get self.now.jobs.items job ≡ Some n
            → IsAt xs n.instance x → x.view ≡ Some v → slice_get x.seats n.number ≡ Some s
            → AreInputs v (spot_of x.flow.steps s) (values_view vs)) }
    {
        let Numbered { instance, number } = self.known(job);
        let plan = self.plan_of(instance);
        self.opened(instance)
            .values(self.alloc, plan, &self.pool, number, room)
    }

    /// What a job of an open instance binds.
    #[inline(always)]
    pub(crate) fn inputs_of(&self, job: u64) -> Result<Pieces, NoMemory>
        requires { (xs : Instances) × Fits self.now xs × IsOfOpen self.now job }
        ensures sound { IfOk result AreSound }
        ensures values { IfOk result (λ ps. (xs : Instances) (n : TheNumbered) (x : AnInstance)
            (v : View) (s : Seat)
            → Fits self.now xs → slice_get self.now.jobs.items job ≡ Some n → IsAt xs n.instance x
            → x.view ≡ Some v
            → slice_get x.seats n.number ≡ Some s
            → AreInputs v (spot_of x.flow.steps s) (piece_values ps)) }
    {
        let Numbered { instance, number } = self.known(job);
        let plan = self.plan_of(instance);
        self.opened(instance)
            .inputs(self.alloc, plan, &self.pool, number)
    }
}
