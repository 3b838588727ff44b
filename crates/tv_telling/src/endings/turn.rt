//! The first ready job.
ghost use Rattle.std.specs.Prelude.{◌≡◌, ◌<◌, length, nat_lt, option_map, true};
ghost use Rattle.std.specs.List.{list_all};
ghost use Rattle.tv_telling.specs.endings.Ends.{IsSound};
ghost use Rattle.tv_telling.specs.endings.Turns.{first_in_turn, first_of_step, first_of_step_after, first_of_steps, first_of_steps_after, may_settle};

use crate::endings::Endings;
use tv_check::Wiring;
use tv_idle::Idle;

/// The number of the first ready job in job order; where a job is given by its step and place, the first of those that stand
/// after it. `order` has the steps of the flow by falling rank. Takes no memory.
///
/// Linear in the steps, and for a job that is given as `Idle::first_after` for its step.
pub fn first_ready(
    idle: &Idle,
    endings: &Endings,
    wiring: &Wiring,
    order: &[u32],
    after: Option<(u32, &[u32])>,
) -> Option<u32>
    requires sound { IsSound wiring.now.after endings.now }
    requires steps { length idle.now.steps ≡ length wiring.now.after }
    requires order { list_all (λ k. nat_lt k (length wiring.now.after)) order.now ≡ true }
    ensures { result ≡ first_in_turn (may_settle wiring.now endings.now) idle.now.steps order.now
        (option_map (λ a. (a.0, a.1.now)) after.entry) }
{
    match after {
        Some((step, place)) => first_of_steps_after(idle, endings, wiring, order, step, place),
        None => first_of_steps(idle, endings, wiring, order),
    }
}

/// The first of these steps' jobs after one of a step among them: of that step after the place, and then of those that follow.
fn first_of_steps_after(
    idle: &Idle,
    endings: &Endings,
    wiring: &Wiring,
    order: &[u32],
    step: u32,
    place: &[u32],
) -> Option<u32>
    requires sound { IsSound wiring.now.after endings.now }
    requires steps { length idle.now.steps ≡ length wiring.now.after }
    requires order { list_all (λ k. nat_lt k (length wiring.now.after)) order.now ≡ true }
    ensures { result ≡ first_of_steps_after (may_settle wiring.now endings.now) idle.now.steps step
        place.now order.now }
{
    for (at, other) in order.iter().enumerate() {
        if *other == step {
            let (_before, later) = order.split_at(at + 1);
            return match first_of_step_after(idle, endings, wiring, step, place) {
                Some(number) => Some(number),
                None => first_of_steps(idle, endings, wiring, later),
            };
        }
    }
    None
}

/// The first of these steps' jobs, taken in turn.
fn first_of_steps(idle: &Idle, endings: &Endings, wiring: &Wiring, steps: &[u32]) -> Option<u32>
    requires sound { IsSound wiring.now.after endings.now }
    requires steps { length idle.now.steps ≡ length wiring.now.after }
    requires order { list_all (λ k. nat_lt k (length wiring.now.after)) steps.now ≡ true }
    ensures { result ≡ first_of_steps (may_settle wiring.now endings.now) idle.now.steps steps.now }
{
    for step in steps {
        let first = first_of_step(idle, endings, wiring, *step);
        if first.is_some() {
            return first;
        }
    }
    None
}

/// A step's first idle job, where its jobs may settle.
fn first_of_step(idle: &Idle, endings: &Endings, wiring: &Wiring, step: u32) -> Option<u32>
    requires sound { IsSound wiring.now.after endings.now }
    requires steps { length idle.now.steps ≡ length wiring.now.after }
    requires step { step < length wiring.now.after }
    ensures { result ≡ first_of_step (may_settle wiring.now endings.now) idle.now.steps step }
{
    if endings.may_settle(wiring, step) {
        idle.first(step)
    } else {
        None
    }
}

/// A step's first idle job after a place, where its jobs may settle.
fn first_of_step_after(
    idle: &Idle,
    endings: &Endings,
    wiring: &Wiring,
    step: u32,
    place: &[u32],
) -> Option<u32>
    requires sound { IsSound wiring.now.after endings.now }
    requires steps { length idle.now.steps ≡ length wiring.now.after }
    requires step { step < length wiring.now.after }
    ensures { result ≡ first_of_step_after (may_settle wiring.now endings.now) idle.now.steps
        place.now step }
{
    if endings.may_settle(wiring, step) {
        idle.first_after(step, place)
    } else {
        None
    }
}
