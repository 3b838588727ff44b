//! The frame, its start and its end.
ghost use Rattle.std.specs.Prelude.{◌≡◌, ◌≢◌, ◌≤◌, ℕ, List, [], true, IfOk, OnErr, OnOk, Some, None, length, map, option_map};
ghost use Rattle.tv_value.specs.Values.{Name, holds_fault};
ghost use Rattle.tv_flow.specs.Flows.{Flow};
ghost use Rattle.tv_flow.specs.Views.{flow_view};
ghost use Rattle.tv_parts.specs.Partials.{wanting};
ghost use Rattle.tv_pool.specs.declared.handles.Region.{Region as TheRegion};
ghost use Rattle.tv_pool.specs.Pool.{IsLive, number_of, region_at, regions_with};
ghost use Rattle.tv_stream.specs.nodes.Calls.{KeepsRegions, count_in};
ghost use Rattle.tv_cell.specs.PieceValues.{piece_value, piece_values};
ghost use Rattle.tv_cell.specs.Soundness.{AreSound};
ghost use Rattle.tv_check.specs.declared.plans.FlowPlan.{FlowPlan as ThePlan};
ghost use Rattle.tv_outputs.specs.Known.{Nodes as TheNodes, depths, known};
ghost use Rattle.tv_outputs.specs.Kept.{Stand};
ghost use Rattle.tv_framing.specs.Answers.{AreOutputs, has_ended_now};
ghost use Rattle.tv_framing.specs.Views.{View};
ghost use Rattle.tv_framing.specs.turns.FirstReady.{by_falling_rank};
ghost use Rattle.tv_frame.specs.Kept.{AreOuts, Keeps};
ghost use Rattle.tv_frame.specs.Calls.{CanStart, SameRegions, Starts};
ghost use Rattle.tv_frame.specs.Started.{AreFirstOuts, AreParts};
ghost use Rattle.tv_frame.specs.Tables.{AreTables, levels_in, tree_depths};

use crate::starting::start_steps;
use crate::tables::{FlowTables, Tables};
use std::alloc::Global;
use std::mem;
use tv_binding::{Sources, flow_outputs};
use tv_cell::{Piece, Pieces, Row};
use tv_check::FlowPlan;
use tv_idle::Idle;
use tv_intake::Intakes;
use tv_match::Tolds;
use tv_outputs::{Faults, Nodes, Outputs};
use tv_pool::Region;
use tv_spread::Spread;
use tv_telling::Endings;
use tv_value::{NoMemory, Place};

/// One open instance of a flow.
#[derive(Drop)]
pub struct Frame {
    pub(crate) alloc: Global,
    pub(crate) region: Region,
    pub(crate) tables: FlowTables,
    pub(crate) inputs: Pieces,
    // For each input of the flow whether it holds a fault.
    pub(crate) faulty_inputs: Vec<bool>,
    pub(crate) outputs: Outputs,
    pub(crate) intakes: Intakes,
    pub(crate) idle: Idle,
    pub(crate) endings: Endings,
    pub(crate) spread: Spread,
    pub(crate) ahead: Ahead,
    // The flow's outputs, once the instance has ended.
    pub(crate) outs: Option<Pieces>,
    // The room of what a step is told at the start.
    pub(crate) told: Tolds,
    // Where the inputs stood of an instance that has ended, for the outputs of the next.
    pub(crate) spare: Vec<Piece>,
}

/// What the last room call found, for the call that follows it.
#[derive(Drop)]
pub(crate) struct Ahead {
    // The event's step turns whole with it.
    pub(crate) whole: bool,
    // The flow's outputs, where the instance ends with the event.
    pub(crate) outs: Option<Pieces>,
    // Where a list or fault is settled: its place, and the pieces of a fault.
    pub(crate) place: Option<Place>,
    pub(crate) pieces: Option<Pieces>,
    // At how many prefixes of the event's place the outputs of its step will hold a fault.
    pub(crate) faults: Faults,
}

impl Frame {
    /// Of no instance: memory in which one is started. Takes no memory.
    pub fn unused(alloc: Global, tables: FlowTables) -> Frame {
        Frame {
            alloc,
            region: Region::none(),
            tables,
            inputs: Row::empty(alloc),
            faulty_inputs: Vec::new(alloc),
            outputs: Outputs::new(alloc),
            intakes: Intakes::new(alloc),
            idle: Idle::new(alloc),
            endings: Endings::new(alloc),
            spread: Spread::new(alloc),
            ahead: Ahead {
                whole: false,
                outs: None,
                place: None,
                pieces: None,
                faults: Faults::new(alloc),
            },
            outs: None,
            told: Tolds::empty(alloc),
            spare: Vec::new(alloc),
        }
    }

    /// The instance of a flow on its inputs, told nothing yet, in the place and in the memory of one that has ended, or of none.
    /// Takes the flow's tables, which it shares. Known jobs are numbered from 0 in the order in which they become known. An
    /// instance of a flow without steps has ended at once.
    ///
    /// Its nodes stand in a region that is new in the pool. Linear in the flow, and in the inputs, each of which is asked whether it
    /// holds a fault, and those that do once more by each port that walks some of their levels.
    pub fn start(
        &mut self,
        plan: &FlowPlan,
        tables: &FlowTables,
        inputs: Pieces,
        pool: &mut Nodes,
    ) -> Result<(), NoMemory>
        requires can { (flows : List (Name × Flow))
            × CanStart flows plan.now (piece_values inputs) }
        requires sound { AreSound inputs }
        requires tables { AreTables (flow_view plan.now.flow) tables.now }
        ensures ok { OnOk result ((flows : List (Name × Flow))
            → CanStart flows plan.now (piece_values inputs)
            → Starts flows plan.now (piece_values inputs) pool.new self.new) }
        ensures own { OnOk result (number_of self.new.region ≡ length pool.old.regions) }
        ensures kept { OnOk result (KeepsRegions pool.old pool.new (number_of self.new.region)) }
        ensures refused { OnErr result (SameRegions pool.old pool.new) }
    {
        self.tables = tables.share()?;
        self.inputs = inputs;
        self.start_parts(plan)?;
        match pool.begin() {
            Ok(region) => self.region = region,
            Err(_full) => return Err(NoMemory),
        }
        match self.start_trees(plan, pool) {
            Ok(()) => Ok(()),
            Err(error) => {
                self.abandon(pool);
                Err(error)
            }
        }
    }

    /// What it has of its flow and inputs.
    fn start_parts(&mut self, plan: &FlowPlan) -> Result<(), NoMemory>
        requires can { (flows : List (Name × Flow))
            × CanStart flows plan.now (piece_values self.old.inputs) }
        requires tables { AreTables (flow_view plan.now.flow) self.old.tables }
        ensures parts { OnOk result (AreParts plan.now self.new) }
        ensures inputs { self.new.inputs ≡ self.old.inputs }
    {
        let inputs = self.inputs.as_slice();
        find_faults(inputs, &mut self.faulty_inputs)?;
        self.intakes.clear();
        self.idle.clear();
        let tables = self.tables.read();
        let faulty = self.faulty_inputs.as_slice();
        let (intakes, idle) = (&mut self.intakes, &mut self.idle);
        let before = mem::replace(&mut self.told, Tolds::empty(self.alloc));
        let told = start_steps(
            self.alloc, plan, tables, inputs, faulty, intakes, idle, before,
        )?;
        self.told = kept(self.alloc, told);
        self.endings.restart(plan.wiring.after.as_slice())?;
        Ok(())
    }

    /// Its trees, in its region, and its outputs where it has ended at once.
    fn start_trees(&mut self, plan: &FlowPlan, pool: &mut Nodes) -> Result<(), NoMemory>
        requires can { (flows : List (Name × Flow))
            × CanStart flows plan.now (piece_values self.old.inputs) }
        requires sound { AreSound self.old.inputs }
        requires parts { AreParts plan.now self.old }
        requires live { IsLive pool.old self.old.region }
        requires empty { count_in pool.old (number_of self.old.region) ≡ 0 }
        ensures ok { OnOk result ((flows : List (Name × Flow))
            → CanStart flows plan.now (piece_values self.old.inputs)
            → Starts flows plan.now (piece_values self.old.inputs) pool.new self.new) }
        ensures region { self.new.region ≡ self.old.region }
        ensures kept { KeepsRegions pool.old pool.new (number_of self.old.region) }
    {
        let tables = self.tables.read();
        self.outputs
            .start(pool, &self.region, tables.depths.as_slice())?;
        let inputs = self.inputs.as_slice();
        let outs = first_outs(self.alloc, plan, tables, inputs, &self.outputs, pool)?;
        self.outs = outs;
        Ok(())
    }

    /// Whether the instance has ended.
    pub fn ended(&self) -> bool
        ensures { (flows : List (Name × Flow)) (plan : ThePlan) (pool : TheNodes) (v : View)
            → Keeps flows plan pool self.now v → result ≡ has_ended_now (levels_in v.flow) v }
    {
        self.outs.is_some()
    }

    /// The steps of its flow by number, that of the greatest rank first.
    pub fn order(&self) -> &[u32]
        ensures { (flows : List (Name × Flow)) (plan : ThePlan) (pool : TheNodes) (v : View)
            → Keeps flows plan pool self.now v → result.now ≡ by_falling_rank v.flow }
    {
        self.tables.order()
    }

    /// The flow's outputs, once the instance has ended.
    pub fn outputs(&self) -> Option<&Pieces>
        ensures { (flows : List (Name × Flow)) (plan : ThePlan) (pool : TheNodes) (v : View)
            → Keeps flows plan pool self.now v
            → AreOuts v (has_ended_now (levels_in v.flow) v) (option_map (λ ps. ps.now) result) }
    {
        self.outs.as_ref()
    }

    /// Gives the outputs of an instance that has ended, and releases its region: from then on the frame is of no instance.
    /// Takes no memory.
    pub fn finish(&mut self, pool: &mut Nodes) -> Pieces
        requires ended { (flows : List (Name × Flow)) × (plan : ThePlan) × (v : View)
            × Keeps flows plan pool.old self.old v × (has_ended_now (levels_in v.flow) v ≡ true) }
        ensures outputs { (flows : List (Name × Flow)) (plan : ThePlan) (v : View)
            → Keeps flows plan pool.old self.old v
            → AreSound result × AreOutputs v (piece_values result) }
        ensures gone { pool.new.regions ≡ regions_with pool.old (number_of self.old.region) None }
        ensures spare { pool.old.spare ≤ pool.new.spare }
    {
        self.abandon(pool);
        match self.outs.take() {
            Some(outs) => outs,
            None => unreachable!(),
        }
    }

    /// Releases the region of an instance whose opening is refused: from then on the frame is of no instance. Takes no memory.
    pub fn abandon(&mut self, pool: &mut Nodes)
        requires { IsLive pool.old self.old.region }
        ensures gone { pool.new.regions ≡ regions_with pool.old (number_of self.old.region) None }
        ensures spare { pool.old.spare ≤ pool.new.spare }
        ensures outs { self.new.outs ≡ self.old.outs }
    {
        let region = mem::replace(&mut self.region, Region::none());
        pool.release(region);
        let inputs = mem::replace(&mut self.inputs, Row::empty(self.alloc));
        self.spare = inputs.into_vec();
        self.spare.clear();
    }
}

/// Tellings whose memory stays for those of a later start, or none where it has room for many.
fn kept(alloc: Global, told: Tolds) -> Tolds {
    let tellings = told.into_vec();
    if tellings.capacity() > 16 {
        return Tolds::empty(alloc);
    }
    Tolds::of(tellings)
}

/// Of each input whether it holds a fault, in place of what stood there.
fn find_faults(inputs: &[Piece], faults: &mut Vec<bool>) -> Result<(), NoMemory>
    ensures { OnOk result (faults.new.items ≡ map holds_fault (piece_values inputs.now)) }
{
    faults.clear();
    faults.reserve(inputs.len())?;
    for piece in inputs {
        faults.push(piece.holds_fault())?;
    }
    Ok(())
}

/// The flow's outputs, where the flow has no steps, so that its instances have ended from the start: they come from inputs and
/// constants.
fn first_outs(
    alloc: Global,
    plan: &FlowPlan,
    tables: &Tables,
    inputs: &[Piece],
    outputs: &Outputs,
    pool: &Nodes,
) -> Result<Option<Pieces>, NoMemory>
    requires can { (flows : List (Name × Flow))
        × CanStart flows plan.now (piece_values inputs.now) }
    requires sound { AreSound inputs.now }
    requires tables { AreTables (flow_view plan.now.flow) tables.now }
    requires stand { (region : TheRegion) × Stand pool.now outputs.now region }
    requires depths { depths outputs.now ≡ tree_depths (flow_view plan.now.flow) }
    ensures { IfOk result (λ outs. AreFirstOuts plan.now (piece_values inputs.now) outs) }
{
    if plan.steps.as_slice().len() != 0 {
        return Ok(None);
    }
    let sources = Sources {
        inputs,
        outputs,
        pool,
        firsts: tables.firsts.as_slice(),
    };
    let feeds = plan.wiring.outputs.as_slice();
    let outs = flow_outputs(alloc, &sources, &tables.constants, feeds)?;
    Ok(Some(outs))
}
