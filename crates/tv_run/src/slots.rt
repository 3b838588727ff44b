//! Where open instances stand: in lists of one, which are kept for others once they have ended, with the lists of their jobs' numbers.
ghost use Rattle.std.specs.Prelude.{◌≡◌, ◌∷◌, [], IfOk, OnErr, length};
ghost use Rattle.tv_flow.specs.Flows.{Document};
ghost use Rattle.tv_flow.specs.Views.{flow_view};
ghost use Rattle.tv_cell.specs.PieceValues.{piece_values};
ghost use Rattle.tv_cell.specs.Soundness.{AreSound};
ghost use Rattle.tv_frame.specs.Calls.{CanStart, SameRegions};
ghost use Rattle.tv_frame.specs.Tables.{AreTables};
ghost use Rattle.tv_run.specs.Slots.{HoldsStarted};

use std::alloc::Global;
use tv_cell::Pieces;
use tv_check::FlowPlan;
use tv_frame::FlowTables;
use tv_instances::Open;
use tv_outputs::Nodes;
use tv_value::NoMemory;

/// A list of one.
pub(crate) type Slot = Vec<Open>;

/// The memory of an instance: where it stands, and the list of its jobs' numbers in the run.
#[derive(Drop)]
pub(crate) struct Leftover {
    pub(crate) slot: Slot,
    pub(crate) numbers: Vec<u64>,
}

/// A list of one, which is of no instance, and a list of numbers: the last of those that are kept, or new ones.
fn leftover_of(
    alloc: Global,
    tables: &FlowTables,
    leftovers: &mut Vec<Leftover>,
) -> Result<Leftover, NoMemory>
    ensures { IfOk result (λ leftover. length leftover.slot.items ≡ 1) }
{
    if let Some(leftover) = leftovers.pop() {
        if leftover.slot.len() == 1 {
            return Ok(leftover);
        }
    }
    let mut slot = Vec::with_capacity(alloc, 1)?;
    slot.push(Open::unused(alloc, tables.share()?))?;
    Ok(Leftover {
        slot,
        numbers: Vec::new(alloc),
    })
}

/// The instance of a plan's flow on its inputs, as `Open::start`, in a list of one, with a list for the numbers of its jobs.
pub(crate) fn leftover_with(
    alloc: Global,
    plan: &FlowPlan,
    tables: &FlowTables,
    inputs: Pieces,
    pool: &mut Nodes,
    leftovers: &mut Vec<Leftover>,
) -> Result<Leftover, NoMemory>
    requires can { (d : Document) × CanStart d.flows plan.now (piece_values inputs) }
    requires sound { AreSound inputs }
    requires tables { AreTables (flow_view plan.now.flow) tables.now }
    ensures ok { IfOk result (λ leftover.
        HoldsStarted plan.now (piece_values inputs) pool.old pool.new leftover.slot) }
    ensures none { IfOk result (λ leftover. leftover.numbers.items ≡ []) }
    ensures refused { OnErr result (SameRegions pool.old pool.new) }
{
    let mut leftover = leftover_of(alloc, tables, leftovers)?;
    leftover.numbers.clear();
    leftover.slot[0].start(alloc, plan, tables, inputs, pool)?;
    Ok(leftover)
}

/// Keeps the memory of an instance that has ended, as long as that takes no more.
pub(crate) fn keep(leftovers: &mut Vec<Leftover>, leftover: Leftover) {
    if leftovers.len() < leftovers.capacity() {
        leftovers.push_reserved(leftover);
    }
}
