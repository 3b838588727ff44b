ghost use Rattle.std.specs.Prelude.{◌≡◌, map, IfOk};
ghost use Rattle.tv_value.specs.Views.{view};
ghost use Rattle.tv_gate.specs.Views.{outcome_view};
ghost use Rattle.tv_local.specs.Table.{wants, with_one, with_two};
ghost use Rattle.tv_local.specs.Reading.{complaint};
ghost use Rattle.tv_local.specs.LocalGives.{by_rule, unless};

use crate::answer::refused;
use crate::arithmetic::{add, flaky, range, subtract};
use crate::input::complaint;
use crate::list::{count, distinct, echo, flatten, intersect, reverse, take};
use crate::row::{Local, find, wants};
use crate::text::{concat, fail_if, join, length, lower, split, upper};
use std::alloc::Global;
use tv_gate::{Gate, Outcome, Services};
use tv_value::{Items, NoMemory, Value};

/// The local services.
pub struct LocalServices;

impl Services for LocalServices {
    ghost use Rattle.tv_local.specs.LocalGives.{local_gives, local_knows};

    ghost gives = { local_gives };

    ghost knows = { local_knows };

    fn has(service: &str) -> bool {
        find(service).is_some()
    }
}

/// A gate that answers for the local services itself. It holds nothing.
#[derive(Clone, Copy, Debug)]
pub struct LocalGate;

impl LocalGate {
    /// A gate. Takes no memory.
    pub fn new() -> LocalGate {
        LocalGate
    }
}

impl Gate for LocalGate {
    type Services = LocalServices;

    /// A name that is none of the local services' is refused without text.
    fn call(
        &self,
        alloc: Global,
        service: &str,
        inputs: &Items,
        attempt: u32,
    ) -> Result<Outcome, NoMemory> {
        match find(service) {
            Some(local) => checked(alloc, service, local, inputs.as_slice(), attempt),
            None => refused(alloc, ""),
        }
    }
}

/// What a service gives: what is wrong with the inputs, or what its rule says.
fn checked(
    alloc: Global,
    name: &str,
    local: Local,
    inputs: &[Value],
    attempt: u32,
) -> Result<Outcome, NoMemory>
    ensures { IfOk result (λ o. outcome_view o
        ≡ unless (complaint name.now (wants local) (map view inputs.now))
        (by_rule local (map view inputs.now) attempt)) }
{
    if let Some(why) = complaint(alloc, name, wants(local), inputs)? {
        return Ok(Outcome::Bad(why));
    }
    by_rule(alloc, local, inputs, attempt)
}

fn by_rule(alloc: Global, local: Local, inputs: &[Value], attempt: u32) -> Result<Outcome, NoMemory>
    ensures { IfOk result (λ o. outcome_view o ≡ by_rule local (map view inputs.now) attempt) }
{
    if inputs.len() == 1 {
        with_one(alloc, local, &inputs[0])
    } else if inputs.len() == 2 {
        with_two(alloc, local, &inputs[0], &inputs[1], attempt)
    } else {
        refused(alloc, "")
    }
}

/// The services of one input.
fn with_one(alloc: Global, local: Local, input: &Value) -> Result<Outcome, NoMemory>
    ensures { IfOk result (λ o. outcome_view o ≡ with_one local (view input.now)) }
{
    match local {
        Local::Upper => upper(alloc, input),
        Local::Lower => lower(alloc, input),
        Local::Reverse => reverse(alloc, input),
        Local::Length => length(alloc, input),
        Local::Count => count(alloc, input),
        Local::Flatten => flatten(alloc, input),
        Local::Echo => echo(alloc, input),
        Local::Distinct => distinct(alloc, input),
        Local::FailIf => fail_if(alloc, input),
        _ => refused(alloc, ""),
    }
}

/// The services of two inputs.
fn with_two(
    alloc: Global,
    local: Local,
    first: &Value,
    second: &Value,
    attempt: u32,
) -> Result<Outcome, NoMemory>
    ensures { IfOk result (λ o. outcome_view o ≡ with_two local (view first.now) (view second.now)
        attempt) }
{
    match local {
        Local::Concat => concat(alloc, first, second),
        Local::Split => split(alloc, first, second),
        Local::Join => join(alloc, first, second),
        Local::Add => add(alloc, first, second),
        Local::Subtract => subtract(alloc, first, second),
        Local::Range => range(alloc, first, second),
        Local::Take => take(alloc, first, second),
        Local::Intersect => intersect(alloc, first, second),
        Local::Flaky => flaky(alloc, first, second, attempt),
        _ => refused(alloc, ""),
    }
}
