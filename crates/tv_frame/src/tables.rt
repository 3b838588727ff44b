//! What a frame looks up of its flow.
ghost use Rattle.std.specs.Prelude.{◌≡◌, ◌++◌, ◌<◌, IfOk, OnOk, Some, filter, length, map, replicate, slice_get, slice_index_or};
ghost use Rattle.std.specs.List.{range_with_len};
ghost use Rattle.tv_value.specs.Values.{Name};
ghost use Rattle.tv_flow.specs.Flows.{Step};
ghost use Rattle.tv_flow.specs.Views.{flow_view};
ghost use Rattle.tv_check.specs.Wirings.{wires_by_step};
ghost use Rattle.tv_telling.specs.Along.{is_walked};
ghost use Rattle.tv_framing.specs.turns.FirstReady.{by_falling_rank};
ghost use Rattle.tv_frame.specs.Tables.{AreTables, first_tree, levels_in, step_starts, tree_depths, trees_of};

use crate::leaf_starts;
use std::alloc::Global;
use std::marker::Model;
use std::sync::Arc;
use tv_binding::Constants;
use tv_check::{FlowPlan, Wire};
use tv_spread::walked_wires;
use tv_value::NoMemory;

/// What a frame looks up of its flow by numbers.
#[derive(Drop)]
pub struct Tables {
    /// For each step the number of the tree of its first output. A step without outputs has one tree, too.
    pub(crate) firsts: Vec<usize>,
    /// For each step, for each leaf of its strategy, where its part of a job's place begins.
    pub(crate) starts: Vec<Vec<u32>>,
    /// The steps, that of the greatest rank first.
    pub(crate) order: Vec<u32>,
    /// For each step the levels that its iteration has.
    pub(crate) levels: Vec<u32>,
    /// The depth of each tree.
    pub(crate) depths: Vec<u32>,
    /// For each step the wires from it into ports that walk some levels.
    pub(crate) walked: Vec<Vec<Wire>>,
    /// The flow's constants.
    pub(crate) constants: Constants,
}

/// The tables of a flow, which its frames share. A contract sees them as they stand there.
#[derive(Drop)]
pub struct FlowTables {
    inside: Arc<Tables, Global>,
}

impl Model for FlowTables {
    ghost use Rattle.tv_frame.specs.declared.tables.Tables.{Tables as Held};
    ghost use Rattle.tv_value.specs.contracts.value.Value as a_value;
    ghost use Rattle.std.specs.Coded.{codes};

    ghost Value = { Held };

    ghost coded = { Prim.hlevel (codes, a_value.the_row.coded) };

    ghost view = { λ t. t.inside.value };
}

impl FlowTables {
    /// The tables of a flow. Linear in the flow and its wires, in its strategies with a look-up for
    /// each leaf. The flow's constants are copied, each once.
    pub fn start(alloc: Global, plan: &FlowPlan) -> Result<FlowTables, NoMemory>
        ensures { IfOk result (λ t. AreTables (flow_view plan.now.flow) t) }
    {
        let tables = tables_of(alloc, plan)?;
        let inside = Arc::new(alloc, tables)?;
        Ok(FlowTables { inside })
    }

    /// One more owner of the same tables, which are not copied. Takes no memory, and the cost is
    /// constant. It may be refused, where the count of owners is full.
    pub fn share(&self) -> Result<FlowTables, NoMemory>
        ensures { IfOk result (λ t. t ≡ self.now) }
    {
        let inside = Arc::try_clone(&self.inside)?;
        Ok(FlowTables { inside })
    }

    /// The tables. The cost is constant, as with all that is read of them.
    pub(crate) fn read(&self) -> &Tables
        ensures { result.now ≡ self.now }
    {
        &*self.inside
    }

    /// For each step the number of the tree of its first output.
    pub(crate) fn firsts(&self) -> &[usize]
        ensures { result.now ≡ self.now.firsts.items }
    {
        self.read().firsts.as_slice()
    }

    /// The number of the tree of a step's first output.
    pub(crate) fn first_tree(&self, step: u32) -> usize
        requires { step < length self.now.firsts.items }
        ensures { result ≡ slice_index_or self.now.firsts.items step result }
    {
        self.firsts()[step as usize]
    }

    /// The steps, that of the greatest rank first.
    pub(crate) fn order(&self) -> &[u32]
        ensures { result.now ≡ self.now.order.items }
    {
        self.read().order.as_slice()
    }

    /// The levels that the iteration of each step has.
    pub fn levels(&self) -> &[u32]
        ensures { result.now ≡ self.now.levels.items }
    {
        self.read().levels.as_slice()
    }

    /// The depth of each tree.
    pub(crate) fn depths(&self) -> &[u32]
        ensures { result.now ≡ self.now.depths.items }
    {
        self.read().depths.as_slice()
    }

    /// For each step the wires from it into ports that walk some levels.
    pub(crate) fn walked(&self) -> &[Vec<Wire>]
        ensures { result.now ≡ self.now.walked.items }
    {
        self.read().walked.as_slice()
    }

    /// The flow's constants.
    pub(crate) fn constants(&self) -> &Constants
        ensures { result.now ≡ self.now.constants }
    {
        &self.read().constants
    }
}

fn tables_of(alloc: Global, plan: &FlowPlan) -> Result<Tables, NoMemory>
    ensures { IfOk result (λ t. AreTables (flow_view plan.now.flow) t) }
{
    let firsts = first_trees(alloc, plan)?;
    let starts = starts_of(alloc, plan)?;
    let order = order_of(alloc, plan)?;
    let levels = levels_of(alloc, plan)?;
    let depths = tree_depths(alloc, plan)?;
    let walked = walked_of(alloc, plan)?;
    let constants = Constants::start(alloc, &plan.flow)?;
    Ok(Tables {
        firsts,
        starts,
        order,
        levels,
        depths,
        walked,
        constants,
    })
}

/// For each step the wires from it into ports that walk some levels.
fn walked_of(alloc: Global, plan: &FlowPlan) -> Result<Vec<Vec<Wire>>, NoMemory>
    ensures { IfOk result (λ rows. map (λ row. row.items) rows.items
        ≡ map (filter is_walked) (wires_by_step (flow_view plan.now.flow))) }
{
    walked_wires(alloc, &plan.wiring)
}

/// The levels that the iteration of each step has.
fn levels_of(alloc: Global, plan: &FlowPlan) -> Result<Vec<u32>, NoMemory>
    ensures { IfOk result (λ ls. ls.items
        ≡ map (λ s. levels_in (flow_view plan.now.flow) s.0) (flow_view plan.now.flow).steps) }
{
    let steps = plan.steps.as_slice();
    let mut levels = Vec::with_capacity(alloc, steps.len())?;
    for step in steps {
        levels.push(step.depth)?;
    }
    Ok(levels)
}

/// How many outputs a step has.
pub(crate) fn outputs_of(plan: &FlowPlan, step: usize) -> usize
    requires { step < length plan.now.flow.steps }
    ensures { (s : Name × Step) → slice_get (flow_view plan.now.flow).steps step ≡ Some s
        → result ≡ length s.1.outputs }
{
    plan.flow.steps.as_slice()[step].1.outputs.as_slice().len()
}

/// How many trees a step has: one for each output, and one where it has none.
pub(crate) fn trees_of(plan: &FlowPlan, step: usize) -> usize
    requires { step < length plan.now.flow.steps }
    ensures { (s : Name × Step) → slice_get (flow_view plan.now.flow).steps step ≡ Some s
        → result ≡ trees_of s }
{
    let outputs = outputs_of(plan, step);
    if outputs == 0 { 1 } else { outputs }
}

/// Answers want of memory where there are more trees than a machine could hold.
fn first_trees(alloc: Global, plan: &FlowPlan) -> Result<Vec<usize>, NoMemory>
    ensures { IfOk result (λ ns. ns.items
        ≡ map (first_tree (flow_view plan.now.flow).steps)
        (range_with_len 0 (length (flow_view plan.now.flow).steps))) }
{
    let count = plan.flow.steps.as_slice().len();
    let mut firsts = Vec::with_capacity(alloc, count)?;
    let mut next: usize = 0;
    for step in 0..count {
        firsts.push(next)?;
        let Some(more) = next.checked_add(trees_of(plan, step)) else {
            return Err(NoMemory);
        };
        next = more;
    }
    Ok(firsts)
}

/// The depth of each tree: that of its step's iteration.
fn tree_depths(alloc: Global, plan: &FlowPlan) -> Result<Vec<u32>, NoMemory>
    ensures { IfOk result (λ ds. ds.items ≡ tree_depths (flow_view plan.now.flow)) }
{
    let mut depths = Vec::new(alloc);
    for (number, step) in plan.steps.as_slice().iter().enumerate() {
        push_times(step.depth, trees_of(plan, number), &mut depths)?;
    }
    Ok(depths)
}

/// Pushes a depth so many times.
fn push_times(depth: u32, count: usize, depths: &mut Vec<u32>) -> Result<(), NoMemory>
    ensures { OnOk result (depths.new.items ≡ depths.old.items ++ replicate count depth) }
{
    for _ in 0..count {
        depths.push(depth)?;
    }
    Ok(())
}

fn starts_of(alloc: Global, plan: &FlowPlan) -> Result<Vec<Vec<u32>>, NoMemory>
    ensures { IfOk result (λ rows. map (λ is. is.items) rows.items
        ≡ map (λ s. map (λ x. x.1) (step_starts (flow_view plan.now.flow) s))
        (flow_view plan.now.flow).steps) }
{
    let steps = plan.steps.as_slice();
    let mut starts = Vec::with_capacity(alloc, steps.len())?;
    for step in steps {
        starts.push(leaf_starts(alloc, &step.tree, &step.mismatch)?)?;
    }
    Ok(starts)
}

fn order_of(alloc: Global, plan: &FlowPlan) -> Result<Vec<u32>, NoMemory>
    ensures { IfOk result (λ ns. ns.items ≡ by_falling_rank (flow_view plan.now.flow)) }
{
    let steps = plan.steps.as_slice();
    let mut order = vec![in alloc; 0; steps.len()]?;
    for (number, step) in steps.iter().enumerate() {
        let at = steps.len() - 1 - step.rank as usize;
        order[at] = number as u32;
    }
    Ok(order)
}
