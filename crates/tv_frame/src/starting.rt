//! What the steps are told at the start: all that is known of inputs and constants.
ghost use Rattle.std.specs.Prelude.{◌≡◌, ◌<◌, ◌+◌, ◌∷◌, [], ℕ, List, Option, Some, IfOk, IfSome, OnOk, IsPermutation, length, map, slice_get};
ghost use Rattle.tv_value.specs.Strategies.{Strategy};
ghost use Rattle.tv_value.specs.Values.{Name, Value, holds_fault};
ghost use Rattle.tv_value.specs.Views.{strategy_view};
ghost use Rattle.tv_flow.specs.Flows.{Flow, Step};
ghost use Rattle.tv_flow.specs.Views.{flow_view};
ghost use Rattle.tv_strategy.specs.Conditions.{Suits, number_of};
ghost use Rattle.tv_strategy.specs.Measures.{DotsAgree, leaf_names, strategy_depth};
ghost use Rattle.tv_model.specs.instance.Steps.{strategy_of};
ghost use Rattle.tv_check.specs.Plans.{step_plan};
ghost use Rattle.tv_check.specs.PlanViews.{step_plan_view};
ghost use Rattle.tv_cell.specs.PieceValues.{piece_values};
ghost use Rattle.tv_matching.specs.Matchers.{CanTell, Matching, Starts};
ghost use Rattle.tv_matching.specs.Told.{Told as TheTold};
ghost use Rattle.tv_match.specs.Seen.{bound_telling, told_view};
ghost use Rattle.tv_telling.specs.Views.{AreTellings};
ghost use Rattle.tv_binding.specs.Constants.{constant_of_port, constants_view, flow_constants};
ghost use Rattle.tv_intake.specs.Intaken.{CanHold, matcher_at};
ghost use Rattle.tv_idle.specs.Idles.{of_step};
ghost use Rattle.tv_spread.specs.Spreads.{IsLevelled};
ghost use Rattle.tv_frame.specs.Calls.{CanStart};
ghost use Rattle.tv_frame.specs.FirstTellings.{AreFed, ports_start};
ghost use Rattle.tv_frame.specs.Started.{HaveBegun, at_start, but_at, given_values};

use crate::tables::Tables;
use std::alloc::Global;
use tv_binding::Constants;
use tv_cell::Piece;
use tv_check::{FlowPlan, NumberedFeed, NumberedLink, Port, StepPlan};
use tv_idle::Idle;
use tv_intake::Intakes;
use tv_match::Tolds;
use tv_spread::add_known;
use tv_telling::port_start;
use tv_value::NoMemory;

/// Adds a matcher for each step, tells it what is known of inputs, each of which is said to hold a fault or none, and of constants,
/// and takes in the jobs that are known with that. What was told before goes, and its memory is room for what is told, which is
/// answered.
pub(crate) fn start_steps(
    alloc: Global,
    plan: &FlowPlan,
    tables: &Tables,
    inputs: &[Piece],
    faulty: &[bool],
    intakes: &mut Intakes,
    idle: &mut Idle,
    before: Tolds,
) -> Result<Tolds, NoMemory>
    requires can { (flows : List (Name × Flow))
        × CanStart flows plan.now (piece_values inputs.now) }
    requires constants { constants_view tables.now.constants
        ≡ flow_constants (flow_view plan.now.flow) }
    requires faulty { faulty.now ≡ map holds_fault (piece_values inputs.now) }
    requires none { HaveBegun (flow_view plan.now.flow)
        (at_start (flow_view plan.now.flow) (given_values plan.now inputs.now)) 0 intakes.old
        idle.old }
    ensures { OnOk result (HaveBegun (flow_view plan.now.flow)
        (at_start (flow_view plan.now.flow) (given_values plan.now inputs.now))
        (length (flow_view plan.now.flow).steps) intakes.new idle.new) }
{
    let mut told = before;
    for (number, step) in plan.steps.as_slice().iter().enumerate() {
        let ports = plan.wiring.ports.as_slice()[number].as_slice();
        if let Some((leaf, fault)) = only_whole(ports, faulty) {
            start_whole(alloc, number as u32, step, leaf, fault, intakes, idle)?;
        } else {
            told = step_start(
                alloc,
                &tables.constants,
                inputs,
                faulty,
                number,
                ports,
                told,
            )?;
            start_step(alloc, number as u32, step, intakes, idle)?;
            tell(intakes, idle, number as u32, &told)?;
        }
    }
    Ok(told)
}

/// Adds the matcher of a step. Where the step has no ports, its one job is known.
fn start_step(
    alloc: Global,
    number: u32,
    step: &StepPlan,
    intakes: &mut Intakes,
    idle: &mut Idle,
) -> Result<(), NoMemory>
    requires begun { (f : Flow) × (tells : ℕ → Step → List TheTold)
        × HaveBegun f tells number intakes.old idle.old }
    requires suits { Suits step.now.mismatch (strategy_view step.now.tree) }
    requires agree { DotsAgree (number_of step.now.mismatch) (strategy_view step.now.tree) }
    requires deep { step.now.depth
        ≡ strategy_depth (number_of step.now.mismatch) (strategy_view step.now.tree) }
    ensures { OnOk result ((f : Flow) (tells : ℕ → Step → List TheTold) (s : Name × Step)
        → HaveBegun f tells number intakes.old idle.old → slice_get f.steps number ≡ Some s
        → step_plan_view step.now ≡ step_plan f s
        → HaveBegun f (but_at number tells) (number + 1) intakes.new idle.new) }
{
    let known = intakes.known();
    intakes.add(alloc, &step.tree, &step.mismatch, step.depth)?;
    idle.add_step(alloc, step.depth as usize)?;
    let jobs = intakes.known() - known;
    idle.reserve(number, jobs, jobs)?;
    idle.reserve_numbers(jobs)?;
    add_known(intakes, idle, number, known);
    Ok(())
}

/// The leaf of the only port, where it takes an input whole, and whether that holds a fault.
fn only_whole(ports: &[Port], faulty: &[bool]) -> Option<(u32, bool)>
    requires { (constants : ℕ → Option Value) × AreFed (length faulty.now) constants ports.now }
    ensures { IfSome result
        (λ x. (values : List Value) (constants : ℕ → Option Value) (s : Strategy)
        → faulty.now ≡ map holds_fault values
        → ports_start values constants s ports.now ≡ bound_telling s x.0 x.1 ∷ []) }
{
    match ports {
        [port] => match &port.feed {
            NumberedFeed::Link(NumberedLink::Input(input)) => {
                if port.levels == 0 {
                    Some((port.leaf, faulty[*input as usize]))
                } else {
                    None
                }
            }
            _ => None,
        },
        _ => None,
    }
}

/// Adds the matcher of a step whose only port has its whole value, which holds a fault or none.
fn start_whole(
    alloc: Global,
    number: u32,
    step: &StepPlan,
    leaf: u32,
    faulty: bool,
    intakes: &mut Intakes,
    idle: &mut Idle,
) -> Result<(), NoMemory>
    requires begun { (f : Flow) × (tells : ℕ → Step → List TheTold)
        × HaveBegun f tells number intakes.old idle.old }
    requires suits { Suits step.now.mismatch (strategy_view step.now.tree) }
    requires agree { DotsAgree (number_of step.now.mismatch) (strategy_view step.now.tree) }
    requires deep { step.now.depth
        ≡ strategy_depth (number_of step.now.mismatch) (strategy_view step.now.tree) }
    requires leaf { leaf < length (leaf_names (strategy_view step.now.tree)) }
    requires new { (m : Matching) → Starts (strategy_view step.now.tree) step.now.mismatch m
        → CanTell m (bound_telling (strategy_view step.now.tree) leaf faulty) }
    ensures { OnOk result ((f : Flow) (tells : ℕ → Step → List TheTold) (s : Name × Step)
        → HaveBegun f tells number intakes.old idle.old → slice_get f.steps number ≡ Some s
        → step_plan_view step.now ≡ step_plan f s
        → IsPermutation (bound_telling (strategy_of s.1) leaf faulty ∷ []) (tells number s.1)
        → HaveBegun f tells (number + 1) intakes.new idle.new) }
{
    let known = intakes.known();
    intakes.add_bound(alloc, &step.tree, &step.mismatch, step.depth, leaf, faulty)?;
    idle.add_step(alloc, step.depth as usize)?;
    let jobs = intakes.known() - known;
    idle.reserve(number, jobs, jobs)?;
    idle.reserve_numbers(jobs)?;
    add_known(intakes, idle, number, known);
    Ok(())
}

/// Makes these tellings of the last step, which was told nothing.
fn tell(intakes: &mut Intakes, idle: &mut Idle, step: u32, told: &Tolds) -> Result<(), NoMemory>
    requires begun { (f : Flow) × (tells : ℕ → Step → List TheTold) × (s : Name × Step)
        × HaveBegun f (but_at step tells) (step + 1) intakes.old idle.old
        × (slice_get f.steps step ≡ Some s)
        × IsLevelled (matcher_at intakes.old step) (of_step idle.old.steps step) }
    requires can { CanHold (matcher_at intakes.old step) told.now }
    ensures { OnOk result ((f : Flow) (tells : ℕ → Step → List TheTold) (s : Name × Step)
        → HaveBegun f (but_at step tells) (step + 1) intakes.old idle.old
        → slice_get f.steps step ≡ Some s
        → IsPermutation (map (told_view (strategy_of s.1)) told.now) (tells step s.1)
        → HaveBegun f tells (step + 1) intakes.new idle.new) }
{
    intakes.hold(step, told)?;
    let jobs = intakes.make_room([step].as_slice())?;
    let (good, faulty) = intakes.new_jobs(step);
    idle.reserve(step, good, faulty)?;
    idle.reserve_numbers(jobs as usize)?;
    let known = intakes.known();
    intakes.show(step);
    add_known(intakes, idle, step, known);
    Ok(())
}

/// What the ports of a step are told at the start, the last port first. What was told before goes, and its memory is room for
/// these.
fn step_start(
    alloc: Global,
    constants: &Constants,
    inputs: &[Piece],
    faulty: &[bool],
    step: usize,
    ports: &[Port],
    before: Tolds,
) -> Result<Tolds, NoMemory>
    requires faulty { faulty.now ≡ map holds_fault (piece_values inputs.now) }
    requires fed { AreFed (length inputs.now) (constant_of_port (constants_view constants.now) step)
        ports.now }
    ensures { IfOk result (λ ts. AreTellings ts (λ s. ports_start (piece_values inputs.now)
        (constant_of_port (constants_view constants.now) step) s ports.now)) }
{
    let mut tellings = before.into_vec();
    tellings.clear();
    let count = ports.len();
    for back in 0..count {
        let number = count - 1 - back;
        let fixed = constants.of_port(step, number);
        port_start(alloc, inputs, faulty, &ports[number], fixed, &mut tellings)?;
    }
    Ok(Tolds::of(tellings))
}
