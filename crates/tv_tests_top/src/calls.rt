//! What runs ask: the words, the document, the exit code, and the calls, each by its service, its texts and its attempt.
use crate::runs::{SOUND, alone, by};
use std::alloc::{AllocError, Global};
use std::fmt::Write;
use std::sync::atomic::{AtomicUsize, Ordering};
use std::test::Fail;
use tv_gate::{Call, Gate, GateAsker, LoggedGate, Outcome};
use tv_local::{LocalGate, LocalServices};
use tv_value::{Items, NoMemory, Value};

/// Capitals of two texts, and small letters of them.
pub(crate) const CHAIN: &str =
    r#"{"taverna":1,"main":"m","flows":{"m":{"inputs":{"x":1},"steps":{"p":{"inputs":{"a":{"depth":0,"from":{"input":"x"}}},"outputs":{"o":0},"activities":[{"service":"upper"}]},"q":{"inputs":{"a":{"depth":0,"from":{"step":"p","port":"o"}}},"outputs":{"o":0},"activities":[{"service":"lower"}]}},"outputs":{"out":{"step":"q","port":"o"}}}},"inputs":{"x":["a","b"]}}"#;

/// A text that fails twice before it comes through.
const FLAKY: &str =
    r#"{"taverna":1,"main":"m","flows":{"m":{"inputs":{"x":0},"steps":{"f":{"inputs":{"a":{"depth":0,"from":{"input":"x"}},"n":{"depth":0,"from":{"constant":"2"}}},"outputs":{"o":0},"retries":2,"activities":[{"service":"flaky"}]}},"outputs":{"out":{"step":"f","port":"o"}}}},"inputs":{"x":"t"}}"#;

/// The calls of the chain: each element goes on before its list is complete, and each is asked for once.
const ALL: &str = "upper a 0;lower A 0;upper b 0;lower B 0;";

const CASES: [(&str, &str, u8, &str); 9] = [
    ("run", CHAIN, 0, ALL),
    ("run", FLAKY, 0, "flaky t 2 0;flaky t 2 1;flaky t 2 2;"),
    ("run", "{}", 6, ""),
    ("check", CHAIN, 0, ""),
    ("lineage --of out[0]", CHAIN, 0, ALL),
    ("lineage --of out[2]", CHAIN, 8, ALL),
    ("forward --of x[0]", CHAIN, 0, ALL),
    ("forward --of x[2]", CHAIN, 8, ""),
    ("forward --of out[]", CHAIN, 8, ""),
];

fn push_calls(text: &mut String, calls: &[Call]) -> Result<(), AllocError> {
    for call in calls {
        write!(text, "{} ", call.service.as_str())?;
        for value in call.inputs.as_slice() {
            if let Value::Text(input) = value {
                write!(text, "{} ", input.as_str())?;
            }
        }
        write!(text, "{};", call.attempt)?;
    }
    Ok(())
}

/// The exit code of a run, and its calls.
fn asked(alloc: Global, words: &str, document: &str) -> Result<(u8, String), Fail> {
    let gate = LocalGate::new();
    let mut asker = LoggedGate::new(alloc, &gate);
    let ran = alone(alloc, words, document.as_bytes(), SOUND, &mut asker)?;
    let mut text = String::new(alloc);
    push_calls(&mut text, asker.calls())?;
    Ok((ran.status.code(), text))
}

#[test]
fn each_word_asks_what_it_must(rt: HostRuntime) -> Result<(), Fail> {
    for (words, document, code, calls) in CASES {
        let (found, text) = asked(rt.alloc(), words, document)?;
        assert_eq!(rt; (found, text.as_str()), (code, calls), "{words}");
    }
    Ok(())
}

/// A gate that counts its calls.
#[derive(Drop)]
struct CountingGate {
    gate: LocalGate,
    calls: AtomicUsize,
}

impl Gate for CountingGate {
    type Services = LocalServices;

    fn call(
        &self,
        alloc: Global,
        service: &str,
        inputs: &Items,
        attempt: u32,
    ) -> Result<Outcome, NoMemory> {
        self.calls.fetch_add(1, Ordering::SeqCst);
        self.gate.call(alloc, service, inputs, attempt)
    }
}

// The asker tells each call, and asks the gate once for each.
#[test]
fn each_try_is_asked_for_once(rt: HostRuntime) -> Result<(), Fail> {
    let table = [
        ("run", 4, 4),
        ("run --workers 1", 4, 4),
        ("trace", 4, 4),
        ("check", 0, 0),
    ];
    for (words, told, asked) in table {
        let gate = CountingGate {
            gate: LocalGate::new(),
            calls: AtomicUsize::new(0),
        };
        let mut asker = LoggedGate::new(rt.alloc(), &gate);
        by(
            &rt,
            rt.alloc(),
            words,
            CHAIN.as_bytes(),
            SOUND,
            &gate,
            &mut asker,
        )?;
        let found = (asker.calls().len(), gate.calls.load(Ordering::SeqCst));
        assert_eq!(rt; found, (told, asked), "{words}");
    }
    Ok(())
}

// The asker over a gate asks it once for each try, too.
#[test]
fn the_asker_over_a_gate_asks_it_once(rt: HostRuntime) -> Result<(), Fail> {
    let gate = CountingGate {
        gate: LocalGate::new(),
        calls: AtomicUsize::new(0),
    };
    let mut asker = GateAsker::new(&gate);
    by(
        &rt,
        rt.alloc(),
        "run",
        CHAIN.as_bytes(),
        SOUND,
        &gate,
        &mut asker,
    )?;
    assert_eq!(rt; gate.calls.load(Ordering::SeqCst), 4);
    Ok(())
}
