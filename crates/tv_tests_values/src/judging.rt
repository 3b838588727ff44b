//! Outcomes against the outputs that are due.
//!
//! A case is what is told, the depths of the outputs, and the outcome: `!` and a text, or `=` and the values, with a bar between
//! each two.
use crate::values::{parted, values};
use std::alloc::Global;
use std::test::Fail;
use tv_dispatch::{Verdict, judge};
use tv_gate::Outcome;
use tv_value::{Depths, Name, Sequence, Text};

const CASES: &str = "right|0|=|a
outcome has 1 values|0,0|=|a
outcome value 1 lacks depth 1|1|=|a
outcome value 1 holds an error|0|=|#
outcome value 1 holds an error|1|=|#
right|1|=|[]
right|2|=|[]
outcome value 1 lacks depth 0|0|=|[]
outcome has 0 values|0|=
right||=
told to fail|0|!|told to fail";

/// Outputs of these depths.
fn outputs(alloc: Global, depths: &str) -> Result<Depths, Fail> {
    let mut outputs = Vec::new(alloc);
    for depth in depths.split(',') {
        if let Ok(depth) = depth.parse::<u32>() {
            outputs.push((Name::from_str(alloc, "o")?, depth))?;
        }
    }
    Ok(Sequence::of(outputs))
}

/// What is told, and what is due.
fn judged(alloc: Global, case: &'static str) -> Result<(Text, &'static str), Fail> {
    let (due, rest) = case.split_once('|').ok_or("no depths")?;
    let (depths, rest) = rest.split_once('|').ok_or("no outcome")?;
    let outputs = outputs(alloc, depths)?;
    let outcome = match parted(rest) {
        ("!", why) => Outcome::Bad(Text::from_str(alloc, why.unwrap_or(""))?),
        (_, written) => Outcome::Good(values(alloc, written)?),
    };
    match judge(alloc, &outputs, &outcome)? {
        Verdict::Right => Ok((Text::from_str(alloc, "right")?, due)),
        Verdict::Wrong(why) => Ok((why, due)),
    }
}

#[test]
fn each_outcome_is_judged(rt: HostRuntime) -> Result<(), Fail> {
    for case in CASES.split('\n') {
        let (told, due) = judged(rt.alloc(), case)?;
        assert_eq!(rt; told.as_str(), due, "in {case}");
    }
    Ok(())
}
