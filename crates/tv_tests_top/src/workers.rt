//! Runs by many workers, over gates that hold a call back until another was answered, or that find no memory.
use crate::calls::CHAIN;
use crate::runs::{Ran, SOUND, by};
use std::alloc::Global;
use std::sync::Wait;
use std::test::Fail;
use std::thread::Threads;
use tv_gate::{Gate, GateAsker, HeldGate, LoggedGate, ShortGate, Spot2};
use tv_local::{LocalGate, LocalServices};
use tv_value::Text;

/// Capitals of two texts, two at a time, and small letters of them.
const CHAIN_BY_TWO: &str =
    r#"{"taverna":1,"main":"m","flows":{"m":{"inputs":{"x":1},"steps":{"p":{"inputs":{"a":{"depth":0,"from":{"input":"x"}}},"outputs":{"o":0},"jobs":2,"activities":[{"service":"upper"}]},"q":{"inputs":{"a":{"depth":0,"from":{"step":"p","port":"o"}}},"outputs":{"o":0},"activities":[{"service":"lower"}]}},"outputs":{"out":{"step":"q","port":"o"}}}},"inputs":{"x":["a","b"]}}"#;

const LINE: &[u8] =
    b"{\"outputs\":{\"out\":[\"a\",\"b\"]},\"totals\":{\"attempts\":4,\"bounced\":0,\"failed\":0,\"jobs\":4}}\n";

/// How often a held call looks whether the other was answered.
const TURNS: u64 = 1_000_000_000;

fn run<R: Threads + Wait + Sync, G: Gate<Services = LocalServices>>(
    rt: &R,
    alloc: Global,
    words: &str,
    document: &str,
    gate: &G,
) -> Result<Ran, Fail> {
    by(
        rt,
        alloc,
        words,
        document.as_bytes(),
        SOUND,
        gate,
        &mut GateAsker::new(gate),
    )
}

fn spot(alloc: Global, service: &str, first: &str) -> Result<Spot2, Fail> {
    Ok(Spot2 {
        service: Text::from_str(alloc, service)?,
        first: Text::from_str(alloc, first)?,
    })
}

/// A run in which `upper` on the text `held` waits until `until` was answered: whether it wrote the line, and whether it missed.
fn held<R: Threads + Wait + Sync>(
    rt: &R,
    alloc: Global,
    words: &str,
    document: &str,
    held: &str,
    until: (&str, &str),
    turns: u64,
) -> Result<(bool, bool), Fail> {
    let held = spot(alloc, "upper", held)?;
    let until = spot(alloc, until.0, until.1)?;
    let gate = HeldGate::new(LocalGate::new(), held, until, turns);
    let ran = run(rt, alloc, words, document, &gate)?;
    Ok((ran.out.sent() == LINE, gate.missed()))
}

// The second text is held until the first went on to the next step; then each of two texts waits for the other's worker, which one
// worker misses.
#[test]
fn elements_flow_on_and_workers_run_at_once(rt: HostRuntime) -> Result<(), Fail> {
    let table = [
        ("run --workers 4", CHAIN, "b", ("lower", "A"), TURNS, false),
        (
            "run --workers 2",
            CHAIN_BY_TWO,
            "a",
            ("upper", "b"),
            TURNS,
            false,
        ),
        (
            "run --workers 3",
            CHAIN_BY_TWO,
            "a",
            ("upper", "b"),
            TURNS,
            false,
        ),
        (
            "run --workers 8",
            CHAIN_BY_TWO,
            "a",
            ("upper", "b"),
            TURNS,
            false,
        ),
        ("run", CHAIN_BY_TWO, "a", ("upper", "b"), 100, true),
    ];
    for (words, document, text, until, turns, misses) in table {
        let found = held(&rt, rt.alloc(), words, document, text, until, turns)?;
        assert_eq!(rt; found, (true, misses), "{words}");
    }
    Ok(())
}

/// The numbers of the first calls.
fn first_calls(alloc: Global, count: u64) -> Result<Vec<u64>, Fail> {
    let mut calls = Vec::new(alloc);
    for call in 1..=count {
        calls.push(call)?;
    }
    Ok(calls)
}

// The job whose worker found no memory is asked for again, by one worker.
#[test]
fn a_worker_that_finds_no_memory_is_made_up_for(rt: HostRuntime) -> Result<(), Fail> {
    let table = [
        ("run", 1, 10),
        ("run --workers 2", 1, 0),
        ("run --workers 2", 100, 10),
    ];
    for (words, refused, code) in table {
        let gate = ShortGate::new(LocalGate::new(), first_calls(rt.alloc(), refused)?);
        let ran = run(&rt, rt.alloc(), words, CHAIN, &gate)?;
        let out: &[u8] = if code == 0 { LINE } else { b"" };
        assert_eq!(rt; (ran.status.code(), ran.out.sent()), (code, out), "{words}");
    }
    Ok(())
}

#[test]
fn workers_ask_the_gate_alone(rt: HostRuntime) -> Result<(), Fail> {
    for (words, calls) in [("run", 4), ("run --workers 2", 0)] {
        let gate = LocalGate::new();
        let mut asker = LoggedGate::new(rt.alloc(), &gate);
        let document = CHAIN.as_bytes();
        let ran = by(&rt, rt.alloc(), words, document, SOUND, &gate, &mut asker)?;
        assert_eq!(rt;
            (ran.out.sent(), asker.calls().len()),
            (LINE, calls),
            "{words}"
        );
    }
    Ok(())
}

#[test]
fn a_generated_document_is_run_by_eight(rt: HostRuntime) -> Result<(), Fail> {
    for (one, many) in [
        ("gen 1", "gen 1 --workers 8"),
        ("gen 7", "gen 7 --workers 3"),
    ] {
        let gate = LocalGate::new();
        let alone = run(&rt, rt.alloc(), one, "", &gate)?;
        let by_many = run(&rt, rt.alloc(), many, "", &gate)?;
        assert_eq!(rt; by_many.out.sent(), alone.out.sent(), "{many}");
    }
    Ok(())
}
