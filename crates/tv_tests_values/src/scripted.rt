//! A gate that answers by a script.
use std::alloc::Global;
use std::test::Fail;
use tv_gate::{Gate, Outcome, Script, ScriptedGate, Services};
use tv_value::{Items, NoMemory, Text};

/// Services of every name that refuse their inputs with their own name.
struct Refusing;

impl Services for Refusing {
    ghost use Rattle.std.specs.Prelude.{true};
    ghost use Rattle.tv_gate.specs.Outcomes.{bad};

    ghost gives = { λ s vs n. bad s };

    ghost knows = { λ s. true };

    fn has(_service: &str) -> bool {
        true
    }
}

impl Script for Refusing {
    fn answer(
        alloc: Global,
        service: &str,
        _inputs: &Items,
        _attempt: u32,
    ) -> Result<Outcome, NoMemory> {
        Ok(Outcome::Bad(Text::from_str(alloc, service)?))
    }
}

#[test]
fn a_script_is_asked(rt: HostRuntime) -> Result<(), Fail> {
    let alloc = rt.alloc();
    let inputs = Items::of(Vec::new(alloc));
    let outcome = ScriptedGate::<Refusing>::new().call(alloc, "upper", &inputs, 3)?;
    assert!(rt; matches!(&outcome, Outcome::Bad(why) if why.as_str() == "upper"));
    Ok(())
}
