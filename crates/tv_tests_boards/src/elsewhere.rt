//! Answers that were made for another board: they are accepted exactly where the try is out and asks the same.
use crate::play::play;
use std::alloc::Global;
use std::test::Fail;

/// Capitals of two texts, and small letters of them.
const HERE: &str =
    r#"{"taverna":1,"main":"m","flows":{"m":{"inputs":{"x":1},"steps":{"p":{"inputs":{"a":{"depth":0,"from":{"input":"x"}}},"outputs":{"o":0},"activities":[{"service":"upper"}]},"q":{"inputs":{"a":{"depth":0,"from":{"step":"p","port":"o"}}},"outputs":{"o":0},"activities":[{"service":"lower"}]}},"outputs":{"out":{"step":"q","port":"o"}}}},"inputs":{"x":["a","b"]}}"#;

const LINE: &str =
    "{\"outputs\":{\"out\":[\"a\",\"b\"]},\"totals\":{\"attempts\":4,\"bounced\":0,\"failed\":0,\"jobs\":4}}\n";

const FIRST: &str = "hand ask:0/0/0";

const SECOND: &str = "hand ask:0/0/0 accept:0 hand ask:2/0/0";

const THIRD: &str = "hand ask:0/0/0 accept:0 hand ask:2/0/0 accept:1 hand ask:1/0/0";

/// The document of the other board, its script, the script here, and what both say before the line.
static CASES: [(&str, &str, &str, &str); 7] = [
    (
        HERE,
        FIRST,
        "hand accept:0 rest",
        "0/0/0 0/0/0 Settled { good: true } ",
    ),
    (
        r#"{"taverna":1,"main":"m","flows":{"m":{"inputs":{"x":1},"steps":{"p":{"inputs":{"a":{"depth":0,"from":{"input":"x"}}},"outputs":{"o":0},"activities":[{"service":"upper"}]},"q":{"inputs":{"a":{"depth":0,"from":{"step":"p","port":"o"}}},"outputs":{"o":0},"activities":[{"service":"lower"}]}},"outputs":{"out":{"step":"q","port":"o"}}}},"inputs":{"x":["a","c","d"]}}"#,
        FIRST,
        "hand accept:0 rest",
        "0/0/0 0/0/0 Settled { good: true } ",
    ),
    (
        r#"{"taverna":1,"main":"m","flows":{"m":{"inputs":{"x":1},"steps":{"p":{"inputs":{"a":{"depth":0,"from":{"input":"x"}}},"outputs":{"o":0},"activities":[{"service":"upper"}]},"q":{"inputs":{"a":{"depth":0,"from":{"step":"p","port":"o"}}},"outputs":{"o":0},"activities":[{"service":"lower"}]}},"outputs":{"out":{"step":"q","port":"o"}}}},"inputs":{"x":["b","b"]}}"#,
        FIRST,
        "hand accept:0 rest",
        "0/0/0 0/0/0 other ",
    ),
    (
        r#"{"taverna":1,"main":"m","flows":{"m":{"inputs":{"x":1},"steps":{"p":{"inputs":{"a":{"depth":0,"from":{"input":"x"}}},"outputs":{"o":0},"activities":[{"service":"lower"}]},"q":{"inputs":{"a":{"depth":0,"from":{"step":"p","port":"o"}}},"outputs":{"o":0},"activities":[{"service":"lower"}]}},"outputs":{"out":{"step":"q","port":"o"}}}},"inputs":{"x":["a","b"]}}"#,
        FIRST,
        "hand accept:0 rest",
        "0/0/0 0/0/0 other ",
    ),
    (
        r#"{"taverna":1,"main":"m","flows":{"m":{"inputs":{"x":1},"steps":{"p":{"inputs":{"a":{"depth":0,"from":{"input":"x"}}},"outputs":{"o":1},"activities":[{"service":"upper"}]},"q":{"inputs":{"a":{"depth":0,"from":{"step":"p","port":"o"}}},"outputs":{"o":0},"activities":[{"service":"lower"}]}},"outputs":{"out":{"step":"q","port":"o"}}}},"inputs":{"x":["a","b"]}}"#,
        FIRST,
        "hand accept:0 rest",
        "0/0/0 0/0/0 other ",
    ),
    (
        HERE,
        SECOND,
        "hand accept:1 rest",
        "0/0/0 Settled { good: true } 2/0/0 0/0/0 Unknown ",
    ),
    (
        HERE,
        THIRD,
        "hand accept:2 rest",
        "0/0/0 Settled { good: true } 2/0/0 Settled { good: true } 1/0/0 0/0/0 Ready ",
    ),
];

/// What both scripts say, the second one here with the answers that the first one brought.
fn played(alloc: Global, document: &str, script: &str, here: &str) -> Result<String, Fail> {
    let mut said = String::new(alloc);
    let mut answers = Vec::new(alloc);
    play(alloc, document, script, &mut answers, &mut said)?;
    play(alloc, HERE, here, &mut answers, &mut said)?;
    Ok(said)
}

#[test]
fn answers_of_other_boards(rt: HostRuntime) -> Result<(), Fail> {
    for (document, script, here, due) in CASES {
        let said = played(rt.alloc(), document, script, here)?;
        assert_eq!(rt; said.strip_suffix(LINE), Some(due), "{document}");
    }
    Ok(())
}
