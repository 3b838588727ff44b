//! Runs: what they have, how they start, and the room that calls take.
ghost use Rattle.std.specs.Prelude.{◌≡◌, ◌+◌, ◌<◌, ◌≤◌, ◌++◌, ◌∷◌, [], IfOk, None, OnErr, OnOk, Some, length, map, slice_get, vec_capacity};
ghost use Rattle.tv_value.specs.Values.{JobName};
ghost use Rattle.tv_value.specs.Views.{view};
ghost use Rattle.tv_gate.specs.Outcomes.{Giving};
ghost use Rattle.tv_flow.specs.Flows.{Flow};
ghost use Rattle.tv_flow.specs.Views.{flow_view};
ghost use Rattle.tv_check.specs.RunViews.{run_view};
ghost use Rattle.tv_cell.specs.PieceValues.{piece_values};
ghost use Rattle.tv_cell.specs.Soundness.{AreSound};
ghost use Rattle.tv_instances.specs.Forest.{Instance as AnInstance, Instances, IsAt};
ghost use Rattle.tv_instances.specs.declared.open.Open.{Open as Held};
ghost use Rattle.tv_run.specs.Changes.{AddsTo, CanAdd, IsOpenedOn};
ghost use Rattle.tv_run.specs.Following.{AddsNumber, CanFollow, CanNumber, Enters, FollowsIn, IsEntering, LooksInto, Numbers};
ghost use Rattle.tv_run.specs.Rooms.{HasRoomBeside, HasRoomIn, IsAsBefore, IsNoted, IsSameButEntries, IsSameButRooms};
ghost use Rattle.tv_run.specs.Standing.{Fits, StandsOpen};

use crate::ended::Ended;
use crate::instances::{Instance, Numbered};
use crate::plans::{FlowLook, looks_of};
use crate::slots::{Leftover, leftover_with};
use crate::value_piece;
use std::alloc::Global;
use tv_cell::{Pieces, Row};
use tv_check::{CheckedRun, FlowPlan};
use tv_history::Entry;
use tv_instances::Open;
use tv_outputs::Nodes;
use tv_pool::Pool;
use tv_value::{Name, NoMemory, Value};

/// A run: its instances, its jobs by number, and what was done.
#[derive(Drop)]
pub struct OpenRun {
    pub(crate) alloc: Global,
    pub(crate) run: CheckedRun,
    // Of each flow.
    pub(crate) looks: Vec<FlowLook>,
    pub(crate) pool: Nodes,
    // By number, in the order in which they were opened.
    pub(crate) instances: Vec<Instance>,
    // All in which something may be settled, and perhaps others.
    pub(crate) busy: Vec<u64>,
    // The jobs by number, in the order in which they became known.
    pub(crate) jobs: Vec<Numbered>,
    pub(crate) entries: Vec<Entry>,
    // How many jobs may be handed out or open a flow: they wait, are idle, or were put aside.
    pub(crate) due: usize,
    // How many jobs have failed.
    pub(crate) failed: u64,
    // What the main instance gives, once it has ended.
    pub(crate) outs: Option<Ended>,
    // The memory of instances that have ended, for those that are opened.
    pub(crate) leftovers: Vec<Leftover>,
}

/// So many leftovers are kept.
const LEFTOVERS: usize = 16;

/// The values given, as pieces, in the order of the names.
fn input_pieces(alloc: Global, inputs: &[(Name, Value)]) -> Result<Pieces, NoMemory>
    ensures sound { IfOk result AreSound }
    ensures values { IfOk result (λ ps. piece_values ps ≡ map (λ i. view i.1) inputs.now) }
{
    let mut pieces = Vec::with_capacity(alloc, inputs.len())?;
    for input in inputs {
        pieces.push(value_piece(alloc, &input.1)?)?;
    }
    Ok(Row::of(pieces))
}

/// A run without an instance.
fn without_instances(alloc: Global, run: CheckedRun) -> Result<OpenRun, NoMemory>
    ensures run { IfOk result (λ r. r.run ≡ run) }
    ensures empty { IfOk result (λ r. r.entries.items ≡ []) }
    ensures fits { IfOk result (λ r. Fits r []) }
    ensures none { IfOk result (λ r. (r.failed ≡ 0) × (r.outs ≡ None)) }
{
    let looks = looks_of(alloc, &run)?;
    Ok(OpenRun {
        alloc,
        run,
        looks,
        pool: Pool::new(alloc),
        instances: Vec::new(alloc),
        busy: Vec::new(alloc),
        jobs: Vec::new(alloc),
        entries: Vec::new(alloc),
        due: 0,
        failed: 0,
        outs: None,
        leftovers: Vec::with_capacity(alloc, LEFTOVERS)?,
    })
}

impl OpenRun {
    /// A run of which nothing is done.
    pub fn start(alloc: Global, run: CheckedRun) -> Result<OpenRun, NoMemory>
        ensures run { IfOk result (λ r. run_view r.run ≡ run_view run) }
        ensures empty { IfOk result (λ r. r.entries.items ≡ []) }
        ensures stands { IfOk result (λ r. (gives : Giving) → StandsOpen gives r) }
    {
        let inputs = input_pieces(alloc, run.document().inputs.as_slice())?;
        let main = run.main();
        let mut started = without_instances(alloc, run)?;
        started.add_instance(main, None, inputs)?;
        Ok(started)
    }

    /// The plan of an instance's flow.
    pub(crate) fn plan_of(&self, instance: u64) -> &FlowPlan
        requires { (xs : Instances) × Fits self.now xs × (instance < length xs) }
        ensures { (xs : Instances) (x : AnInstance) → Fits self.now xs → IsAt xs instance x
            → flow_view result.now.flow ≡ x.flow }
    {
        self.run.flow(self.instances[instance as usize].flow)
    }

    /// An instance that is open.
    pub(crate) fn opened(&self, instance: u64) -> &Open
        requires { (c : _) × (o : _) × (slice_get self.now.instances.items instance ≡ Some c)
            × (c.open.items ≡ o ∷ []) }
        ensures { (c : _) → slice_get self.now.instances.items instance ≡ Some c → (os : _)
            × (c.open.items ≡ result.now ∷ os) }
    {
        &self.instances[instance as usize].open[0]
    }

    /// One more instance, with room for an entry. Where it is refused, the pool's regions are as they were.
    pub(crate) fn add_instance(
        &mut self,
        flow: u32,
        opener: Option<u64>,
        inputs: Pieces,
    ) -> Result<(), NoMemory>
        requires fits { (xs : Instances) × (f : Flow) × (name : JobName)
            × CanAdd self.old xs flow f opener name (piece_values inputs) }
        requires sound { AreSound inputs }
        ensures added { OnOk result ((xs : Instances) (f : Flow) (name : JobName)
            → CanAdd self.old xs flow f opener name (piece_values inputs)
            → (y : AnInstance) × IsOpenedOn (run_view self.old.run) f (piece_values inputs) name y
            × AddsTo self.old self.new (xs ++ y ∷ [])) }
        ensures room { OnOk result (length self.new.entries.items + self.new.due + 1
            ≤ vec_capacity self.new.entries) }
        ensures refused { OnErr result (IsAsBefore self.old self.new) }
    {
        self.instances.reserve(1)?;
        let plan = self.run.flow(flow);
        let tables = &self.looks[flow as usize].tables;
        let (pool, leftovers) = (&mut self.pool, &mut self.leftovers);
        let mut leftover = leftover_with(self.alloc, plan, tables, inputs, pool, leftovers)?;
        match self.reserve(&mut leftover.numbers, leftover.slot[0].known()) {
            Ok(()) => {
                self.enter(flow, opener, leftover);
                Ok(())
            }
            Err(error) => {
                leftover.slot[0].abandon(&mut self.pool);
                Err(error)
            }
        }
    }

    /// An instance is open from now on. Takes no memory.
    fn enter(&mut self, flow: u32, opener: Option<u64>, leftover: Leftover)
        requires { (o : Held) × IsEntering self.old leftover.numbers leftover.slot o }
        ensures { (o : Held) → leftover.slot.items ≡ o ∷ [] → Enters self.old self.new flow opener o }
    {
        let number = self.instances.len() as u64;
        let Leftover { slot, numbers } = leftover;
        self.instances.push_reserved(Instance {
            flow,
            opener,
            jobs: numbers,
            is_busy: false,
            open: slot,
            seats: None,
        });
        self.follow(number);
    }

    /// Takes room for so many more jobs of an instance, of which these are numbered, for an entry, and then for handing out every job.
    fn reserve(&mut self, jobs: &mut Vec<u64>, more: u64) -> Result<(), NoMemory>
        ensures same { IsSameButRooms self.old self.new }
        ensures instances { self.new.instances ≡ self.old.instances }
        ensures jobs { jobs.new.items ≡ jobs.old.items }
        ensures rooms { OnOk result (HasRoomBeside self.new more
            × (length jobs.new.items + more ≤ vec_capacity jobs.new)) }
    {
        jobs.reserve(more as usize)?;
        self.reserve_rest(more)
    }

    /// The same for an instance of that number.
    pub(crate) fn reserve_in(&mut self, instance: u64, more: u64) -> Result<(), NoMemory>
        requires { instance < length self.old.instances.items }
        ensures same { IsSameButRooms self.old self.new }
        ensures rooms { OnOk result (HasRoomIn self.new instance more) }
    {
        self.instances[instance as usize]
            .jobs
            .reserve(more as usize)?;
        self.reserve_rest(more)
    }

    fn reserve_rest(&mut self, more: u64) -> Result<(), NoMemory>
        ensures same { IsSameButRooms self.old self.new }
        ensures instances { self.new.instances ≡ self.old.instances }
        ensures rooms { OnOk result (HasRoomBeside self.new more) }
    {
        self.jobs.reserve(more as usize)?;
        self.busy.reserve(1)?;
        self.reserve_entries(more)
    }

    /// Takes room for an entry, and then for handing out every job, with so many more.
    pub(crate) fn reserve_entries(&mut self, more: u64) -> Result<(), NoMemory>
        ensures rest { IsSameButEntries self.old self.new }
        ensures entries { self.new.entries.items ≡ self.old.entries.items }
        ensures capacity { vec_capacity self.old.entries ≤ vec_capacity self.new.entries }
        ensures room { OnOk result (length self.new.entries.items + self.new.due + more + 1
            ≤ vec_capacity self.new.entries) }
    {
        let room = self.due.saturating_add(more as usize).saturating_add(1);
        self.entries.reserve(room)?;
        Ok(())
    }

    /// Puts an entry behind the others. Takes no memory.
    pub(crate) fn note(&mut self, entry: Entry)
        requires { length self.old.entries.items < vec_capacity self.old.entries }
        ensures { IsNoted self.old self.new entry }
    {
        self.entries.push_reserved(entry);
    }

    /// What follows of an event of an open instance, or of its opening: the jobs that became known have numbers, and something may be
    /// settled. Takes no memory.
    pub(crate) fn follow(&mut self, instance: u64)
        requires { CanFollow self.old instance }
        ensures { FollowsIn self.old self.new instance }
    {
        self.number_new(instance);
        self.look_into(instance);
    }

    /// The jobs that an open instance knows and that have no number get theirs.
    fn number_new(&mut self, instance: u64)
        requires { CanFollow self.old instance }
        ensures { Numbers self.old self.new instance }
    {
        let at = instance as usize;
        for number in self.instances[at].jobs.len() as u64..self.instances[at].open[0].known() {
            self.number(instance, number);
        }
    }

    fn number(&mut self, instance: u64, number: u64)
        requires { CanNumber self.old instance }
        ensures { AddsNumber self.old self.new instance number }
    {
        self.instances[instance as usize]
            .jobs
            .push_reserved(self.jobs.len() as u64);
        self.jobs.push_reserved(Numbered { instance, number });
        self.due += 1;
    }

    /// Something may be settled in an instance.
    fn look_into(&mut self, instance: u64)
        requires low { instance < length self.old.instances.items }
        requires room { length self.old.busy.items < vec_capacity self.old.busy }
        ensures { LooksInto self.old self.new instance }
    {
        if !self.instances[instance as usize].is_busy {
            self.instances[instance as usize].is_busy = true;
            self.busy.push_reserved(instance);
        }
    }
}
