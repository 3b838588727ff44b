//! The line of a fault of the check.
ghost use Rattle.std.specs.Prelude.{◌≡◌, ◌++◌, IfOk, OnOk, codes, decimal, string_bytes};
ghost use Rattle.tv_check.specs.FaultViews.{kind_view, spot_view, fault_view};
ghost use Rattle.tv_report.specs.CheckLines.{check_number, check_words, has_numbers, flow_text, step_text, spot_text, numbers_text, check_text};

use crate::forms::push_number;
use std::alloc::Global;
use tv_check::{CheckFault, CheckKind, Spot};
use tv_value::{Name, NoMemory, Text};

/// The line `taverna: check fault N WORDS at SPOT` with its line feed, before which `: FIRST and SECOND` stands for the
/// kinds that tell of depths.
pub fn check_line(alloc: Global, fault: &CheckFault) -> Result<Text, NoMemory>
    ensures { IfOk result (λ t. t ≡ check_text (fault_view fault.now)) }
{
    let kind = fault.kind;
    let mut text = String::new(alloc);
    text.push_str("taverna: check fault ")?;
    push_number(&mut text, check_number(kind))?;
    text.push_str(" ")?;
    text.push_str(check_words(kind))?;
    text.push_str(" at ")?;
    push_spot(&mut text, &fault.spot)?;
    push_numbers(&mut text, kind, fault.first, fault.second)?;
    text.push_str("\n")?;
    Ok(Text::of(text))
}

fn push_numbers(text: &mut String, kind: CheckKind, first: u32, second: u32) -> Result<(), NoMemory>
    ensures { OnOk result (string_bytes text.new ≡ string_bytes text.old
        ++ numbers_text (kind_view kind) first second) }
{
    if !has_numbers(kind) {
        return Ok(());
    }
    text.push_str(": ")?;
    push_number(text, first)?;
    text.push_str(" and ")?;
    push_number(text, second)?;
    Ok(())
}

fn push_spot(text: &mut String, spot: &Spot) -> Result<(), NoMemory>
    ensures { OnOk result (string_bytes text.new ≡ string_bytes text.old
        ++ spot_text (spot_view spot.now)) }
{
    match spot {
        Spot::Main => push_main(text),
        Spot::Flow { flow } => push_flow(text, flow),
        Spot::Step { flow, step } => push_step(text, flow, step),
        Spot::Input { flow, step, port } => push_of_step(text, flow, step, " input ", port),
        Spot::Output { flow, step, port } => push_of_step(text, flow, step, " output ", port),
        Spot::Activity {
            flow,
            step,
            position,
        } => push_position(text, flow, step, " activity ", *position),
        Spot::After {
            flow,
            step,
            position,
        } => push_position(text, flow, step, " after ", *position),
        Spot::Loop { flow, step } => push_loop(text, flow, step),
        Spot::FlowOutput { flow, port } => push_flow_output(text, flow, port),
        Spot::Given { port } => push_given(text, port),
    }
}

fn push_main(text: &mut String) -> Result<(), NoMemory>
    ensures { OnOk result (string_bytes text.new ≡ string_bytes text.old ++ codes "main") }
{
    text.push_str("main")?;
    Ok(())
}

fn push_flow(text: &mut String, flow: &Name) -> Result<(), NoMemory>
    ensures { OnOk result (string_bytes text.new ≡ string_bytes text.old ++ flow_text flow.now) }
{
    text.push_str("flow ")?;
    text.push_str(flow.as_str())?;
    Ok(())
}

fn push_step(text: &mut String, flow: &Name, step: &Name) -> Result<(), NoMemory>
    ensures { OnOk result (string_bytes text.new ≡ string_bytes text.old
        ++ step_text flow.now step.now) }
{
    push_flow(text, flow)?;
    text.push_str(" step ")?;
    text.push_str(step.as_str())?;
    Ok(())
}

/// A port of a step, after a word that says which.
fn push_of_step(
    text: &mut String,
    flow: &Name,
    step: &Name,
    word: &str,
    port: &Name,
) -> Result<(), NoMemory>
    ensures { OnOk result (string_bytes text.new ≡ string_bytes text.old
        ++ (step_text flow.now step.now ++ word.now ++ port.now)) }
{
    push_step(text, flow, step)?;
    text.push_str(word)?;
    text.push_str(port.as_str())?;
    Ok(())
}

/// A position in a step, after a word that says of what.
fn push_position(
    text: &mut String,
    flow: &Name,
    step: &Name,
    word: &str,
    position: u32,
) -> Result<(), NoMemory>
    ensures { OnOk result (string_bytes text.new ≡ string_bytes text.old
        ++ (step_text flow.now step.now ++ word.now ++ decimal position)) }
{
    push_step(text, flow, step)?;
    text.push_str(word)?;
    push_number(text, position)
}

fn push_loop(text: &mut String, flow: &Name, step: &Name) -> Result<(), NoMemory>
    ensures { OnOk result (string_bytes text.new ≡ string_bytes text.old
        ++ (step_text flow.now step.now ++ codes " loop")) }
{
    push_step(text, flow, step)?;
    text.push_str(" loop")?;
    Ok(())
}

fn push_flow_output(text: &mut String, flow: &Name, port: &Name) -> Result<(), NoMemory>
    ensures { OnOk result (string_bytes text.new ≡ string_bytes text.old
        ++ (flow_text flow.now ++ codes " output " ++ port.now)) }
{
    push_flow(text, flow)?;
    text.push_str(" output ")?;
    text.push_str(port.as_str())?;
    Ok(())
}

fn push_given(text: &mut String, port: &Name) -> Result<(), NoMemory>
    ensures { OnOk result (string_bytes text.new ≡ string_bytes text.old
        ++ (codes "input " ++ port.now)) }
{
    text.push_str("input ")?;
    text.push_str(port.as_str())?;
    Ok(())
}

fn has_numbers(kind: CheckKind) -> bool
    ensures { result ≡ has_numbers (kind_view kind) }
{
    match kind {
        CheckKind::DotDepths
        | CheckKind::MergeDepths
        | CheckKind::TooDeep
        | CheckKind::InputDepth
        | CheckKind::LoopDepths
        | CheckKind::PrefixDepths => true,
        _ => false,
    }
}

fn check_number(kind: CheckKind) -> u32
    ensures { result ≡ check_number (kind_view kind) }
{
    match kind {
        CheckKind::NoSuchPort => 1,
        CheckKind::NoSuchService => 2,
        CheckKind::NoSuchFlow => 3,
        CheckKind::FlowCycle => 4,
        CheckKind::LinkCycle => 5,
        CheckKind::StrategyPorts => 6,
        CheckKind::DotDepths => 7,
        CheckKind::MergeDepths => 8,
        CheckKind::NestedPorts => 9,
        CheckKind::TooDeep => 10,
        CheckKind::InputMissing => 11,
        CheckKind::InputUnknown => 12,
        CheckKind::InputDepth => 13,
        CheckKind::LoopNested => 14,
        CheckKind::LoopDepths => 15,
        CheckKind::PrefixDepths => 16,
    }
}

fn check_words(kind: CheckKind) -> &'static str
    ensures { result.now ≡ check_words (kind_view kind) }
{
    match kind {
        CheckKind::NoSuchPort => "no such port",
        CheckKind::NoSuchService => "no such service",
        CheckKind::NoSuchFlow => "no such flow",
        CheckKind::FlowCycle => "flow cycle",
        CheckKind::LinkCycle => "link cycle",
        CheckKind::StrategyPorts => "strategy ports",
        CheckKind::DotDepths => "dot depths",
        CheckKind::MergeDepths => "merge depths",
        CheckKind::NestedPorts => "nested ports",
        CheckKind::TooDeep => "too deep",
        CheckKind::InputMissing => "input missing",
        CheckKind::InputUnknown => "input unknown",
        CheckKind::InputDepth => "input depth",
        CheckKind::LoopNested => "loop nested",
        CheckKind::LoopDepths => "loop depths",
        CheckKind::PrefixDepths => "prefix depths",
    }
}
