//! Scripts over boards of worked documents, what is said of each act, and the line once the rest is worked off: the same one,
//! in whatever order outcomes came.
use crate::play::play;
use std::alloc::Global;
use std::process::Abort;
use std::test::Fail;

/// A document, and the line that it comes to.
struct Worked {
    document: &'static str,
    line: &'static str,
}

/// Capitals of one text.
const ONE: Worked = Worked {
    document: r#"{"taverna":1,"main":"m","flows":{"m":{"inputs":{"x":0},"steps":{"u":{"inputs":{"a":{"depth":0,"from":{"input":"x"}}},"outputs":{"o":0},"activities":[{"service":"upper"}]}},"outputs":{"out":{"step":"u","port":"o"}}}},"inputs":{"x":"a"}}"#,
    line: "{\"outputs\":{\"out\":\"A\"},\"totals\":{\"attempts\":1,\"bounced\":0,\"failed\":0,\"jobs\":1}}\n",
};

/// Capitals of two texts, and small letters of them.
const CHAIN: Worked = Worked {
    document: r#"{"taverna":1,"main":"m","flows":{"m":{"inputs":{"x":1},"steps":{"p":{"inputs":{"a":{"depth":0,"from":{"input":"x"}}},"outputs":{"o":0},"activities":[{"service":"upper"}]},"q":{"inputs":{"a":{"depth":0,"from":{"step":"p","port":"o"}}},"outputs":{"o":0},"activities":[{"service":"lower"}]}},"outputs":{"out":{"step":"q","port":"o"}}}},"inputs":{"x":["a","b"]}}"#,
    line: "{\"outputs\":{\"out\":[\"a\",\"b\"]},\"totals\":{\"attempts\":4,\"bounced\":0,\"failed\":0,\"jobs\":4}}\n",
};

/// The same, with two jobs of the first step at once.
const CHAIN_BY_TWO: Worked = Worked {
    document: r#"{"taverna":1,"main":"m","flows":{"m":{"inputs":{"x":1},"steps":{"p":{"inputs":{"a":{"depth":0,"from":{"input":"x"}}},"jobs":2,"outputs":{"o":0},"activities":[{"service":"upper"}]},"q":{"inputs":{"a":{"depth":0,"from":{"step":"p","port":"o"}}},"outputs":{"o":0},"activities":[{"service":"lower"}]}},"outputs":{"out":{"step":"q","port":"o"}}}},"inputs":{"x":["a","b"]}}"#,
    line: "{\"outputs\":{\"out\":[\"a\",\"b\"]},\"totals\":{\"attempts\":4,\"bounced\":0,\"failed\":0,\"jobs\":4}}\n",
};

/// Three texts, of which one fails, through a step that may have three tries out, and one that may have one.
const FAILURES_BY_THREE: Worked = Worked {
    document: r#"{"taverna":1,"main":"m","flows":{"m":{"inputs":{"x":1},"steps":{"f":{"inputs":{"a":{"depth":0,"from":{"input":"x"}}},"jobs":3,"outputs":{"o":0},"activities":[{"service":"fail_if"}]},"u":{"inputs":{"a":{"depth":0,"from":{"step":"f","port":"o"}}},"outputs":{"o":0},"activities":[{"service":"upper"}]}},"outputs":{"out":{"step":"u","port":"o"}}}},"inputs":{"x":["no","true","no"]}}"#,
    line: "{\"outputs\":{\"out\":[\"NO\",{\"error\":{\"at\":\"u[1]\",\"depth\":0,\"from\":[\"f[1]\"],\"why\":\"bounced\"}},\"NO\"]},\"totals\":{\"attempts\":5,\"bounced\":1,\"failed\":1,\"jobs\":6}}\n",
};

/// A text that fails twice before it comes through.
const FLAKY: Worked = Worked {
    document: r#"{"taverna":1,"main":"m","flows":{"m":{"inputs":{"x":0},"steps":{"f":{"inputs":{"a":{"depth":0,"from":{"input":"x"}},"n":{"depth":0,"from":{"constant":"2"}}},"outputs":{"o":0},"retries":2,"activities":[{"service":"flaky"}]}},"outputs":{"out":{"step":"f","port":"o"}}}},"inputs":{"x":"t"}}"#,
    line: "{\"outputs\":{\"out\":\"t\"},\"totals\":{\"attempts\":3,\"bounced\":0,\"failed\":0,\"jobs\":1}}\n",
};

/// A failure, tried twice, and an echo then.
const FAILOVER: Worked = Worked {
    document: r#"{"taverna":1,"main":"m","flows":{"m":{"inputs":{"x":0},"steps":{"e":{"inputs":{"a":{"depth":0,"from":{"input":"x"}}},"outputs":{"o":0},"retries":1,"activities":[{"service":"fail_if"},{"service":"echo"}]}},"outputs":{"out":{"step":"e","port":"o"}}}},"inputs":{"x":"true"}}"#,
    line: "{\"outputs\":{\"out\":\"true\"},\"totals\":{\"attempts\":3,\"bounced\":0,\"failed\":0,\"jobs\":1}}\n",
};

/// Two lists crossed, with four jobs at once.
const CROSS_BY_FOUR: Worked = Worked {
    document: r#"{"taverna":1,"main":"m","flows":{"m":{"inputs":{"x":1,"y":1},"steps":{"c":{"inputs":{"a":{"depth":0,"from":{"input":"x"}},"b":{"depth":0,"from":{"input":"y"}}},"jobs":4,"outputs":{"o":0},"activities":[{"service":"concat"}]}},"outputs":{"out":{"step":"c","port":"o"}}}},"inputs":{"x":["a","b"],"y":["1","2"]}}"#,
    line: "{\"outputs\":{\"out\":[[\"a1\",\"a2\"],[\"b1\",\"b2\"]]},\"totals\":{\"attempts\":4,\"bounced\":0,\"failed\":0,\"jobs\":4}}\n",
};

/// Two texts, of which the first fails, and capitals of the rest.
const FAILURES: Worked = Worked {
    document: r#"{"taverna":1,"main":"m","flows":{"m":{"inputs":{"x":1},"steps":{"f":{"inputs":{"a":{"depth":0,"from":{"input":"x"}}},"outputs":{"o":0},"activities":[{"service":"fail_if"}]},"u":{"inputs":{"a":{"depth":0,"from":{"step":"f","port":"o"}}},"outputs":{"o":0},"activities":[{"service":"upper"}]}},"outputs":{"out":{"step":"u","port":"o"}}}},"inputs":{"x":["true","no"]}}"#,
    line: "{\"outputs\":{\"out\":[{\"error\":{\"at\":\"u[0]\",\"depth\":0,\"from\":[\"f[0]\"],\"why\":\"bounced\"}},\"NO\"]},\"totals\":{\"attempts\":3,\"bounced\":1,\"failed\":1,\"jobs\":4}}\n",
};

/// Capitals of a fault that stands for a list.
const PASSED: Worked = Worked {
    document: r#"{"taverna":1,"main":"m","flows":{"m":{"inputs":{},"steps":{"r":{"inputs":{"a":{"depth":0,"from":{"constant":"z"}},"b":{"depth":0,"from":{"constant":"1"}}},"outputs":{"o":1},"activities":[{"service":"range"}]},"u":{"inputs":{"a":{"depth":0,"from":{"step":"r","port":"o"}}},"outputs":{"o":0},"activities":[{"service":"upper"}]}},"outputs":{"out":{"step":"u","port":"o"}}}},"inputs":{}}"#,
    line: "{\"outputs\":{\"out\":{\"error\":{\"at\":\"r[]\",\"depth\":1,\"from\":[],\"why\":\"range input 1 is no number\"}}},\"totals\":{\"attempts\":1,\"bounced\":0,\"failed\":1,\"jobs\":1}}\n",
};

/// Two texts, and all of a list of lists below each of them.
const PREFIXED: Worked = Worked {
    document: r#"{"taverna":2,"main":"m","flows":{"m":{"inputs":{"x":1,"y":2},"steps":{"p":{"inputs":{"a":{"depth":0,"from":{"input":"x"}}},"outputs":{"o":0},"jobs":2,"activities":[{"service":"echo"}]},"q":{"inputs":{"a":{"depth":0,"from":{"input":"y"}}},"outputs":{"o":0},"jobs":4,"activities":[{"service":"echo"}]},"c":{"inputs":{"a":{"depth":0,"from":{"step":"p","port":"o"}},"b":{"depth":0,"from":{"step":"q","port":"o"}}},"outputs":{"o":0},"strategy":{"prefix":["a","b"]},"activities":[{"service":"concat"}]}},"outputs":{"out":{"step":"c","port":"o"}}}},"inputs":{"x":["a","b"],"y":[["1","2"],["3"],["4"]]}}"#,
    line: "{\"outputs\":{\"out\":[[\"a1\",\"a2\"],[\"b3\"]]},\"totals\":{\"attempts\":9,\"bounced\":0,\"failed\":0,\"jobs\":9}}\n",
};

/// Two inputs as one list.
const MERGE: Worked = Worked {
    document: r#"{"taverna":1,"main":"m","flows":{"m":{"inputs":{"x":0,"y":0},"steps":{"e":{"inputs":{"a":{"depth":1,"from":{"merge":[{"input":"x"},{"input":"y"}]}}},"outputs":{"o":1},"activities":[{"service":"echo"}]}},"outputs":{"out":{"step":"e","port":"o"}}}},"inputs":{"x":"a","y":"b"}}"#,
    line: "{\"outputs\":{\"out\":[\"a\",\"b\"]},\"totals\":{\"attempts\":1,\"bounced\":0,\"failed\":0,\"jobs\":1}}\n",
};

/// A flow of one step for each of three texts, with two open at once.
const NESTED: Worked = Worked {
    document: r#"{"taverna":1,"main":"m","flows":{"s":{"inputs":{"a":0},"steps":{"u":{"inputs":{"a":{"depth":0,"from":{"input":"a"}}},"outputs":{"o":0},"activities":[{"service":"upper"}]}},"outputs":{"o":{"step":"u","port":"o"}}},"m":{"inputs":{"x":1},"steps":{"n":{"inputs":{"a":{"depth":0,"from":{"input":"x"}}},"outputs":{"o":0},"jobs":2,"activities":[{"flow":"s"}]}},"outputs":{"out":{"step":"n","port":"o"}}}},"inputs":{"x":["a","b","c"]}}"#,
    line: "{\"outputs\":{\"out\":[\"A\",\"B\",\"C\"]},\"totals\":{\"attempts\":3,\"bounced\":0,\"failed\":0,\"jobs\":6}}\n",
};

/// The same for two texts.
const NESTED_TWO: Worked = Worked {
    document: r#"{"taverna":1,"main":"m","flows":{"s":{"inputs":{"a":0},"steps":{"u":{"inputs":{"a":{"depth":0,"from":{"input":"a"}}},"outputs":{"o":0},"activities":[{"service":"upper"}]}},"outputs":{"o":{"step":"u","port":"o"}}},"m":{"inputs":{"x":1},"steps":{"n":{"inputs":{"a":{"depth":0,"from":{"input":"x"}}},"outputs":{"o":0},"jobs":2,"activities":[{"flow":"s"}]}},"outputs":{"out":{"step":"n","port":"o"}}}},"inputs":{"x":["a","b"]}}"#,
    line: "{\"outputs\":{\"out\":[\"A\",\"B\"]},\"totals\":{\"attempts\":2,\"bounced\":0,\"failed\":0,\"jobs\":4}}\n",
};

/// A service that fails where the text is true, tried twice, and the flow then.
const NESTED_FAILOVER: Worked = Worked {
    document: r#"{"taverna":1,"main":"m","flows":{"s":{"inputs":{"a":0},"steps":{"u":{"inputs":{"a":{"depth":0,"from":{"input":"a"}}},"outputs":{"o":0},"activities":[{"service":"upper"}]}},"outputs":{"o":{"step":"u","port":"o"}}},"m":{"inputs":{"x":1},"steps":{"n":{"inputs":{"a":{"depth":0,"from":{"input":"x"}}},"outputs":{"o":0},"retries":1,"activities":[{"service":"fail_if"},{"flow":"s"}]}},"outputs":{"out":{"step":"n","port":"o"}}}},"inputs":{"x":["true","no"]}}"#,
    line: "{\"outputs\":{\"out\":[\"TRUE\",\"no\"]},\"totals\":{\"attempts\":4,\"bounced\":0,\"failed\":0,\"jobs\":3}}\n",
};

/// The same tried once, with two jobs at once.
const NESTED_FAILOVER_BY_TWO: Worked = Worked {
    document: r#"{"taverna":1,"main":"m","flows":{"s":{"inputs":{"a":0},"steps":{"u":{"inputs":{"a":{"depth":0,"from":{"input":"a"}}},"outputs":{"o":0},"activities":[{"service":"upper"}]}},"outputs":{"o":{"step":"u","port":"o"}}},"m":{"inputs":{"x":1},"steps":{"n":{"inputs":{"a":{"depth":0,"from":{"input":"x"}}},"outputs":{"o":0},"jobs":2,"activities":[{"service":"fail_if"},{"flow":"s"}]}},"outputs":{"out":{"step":"n","port":"o"}}}},"inputs":{"x":["no","true"]}}"#,
    line: "{\"outputs\":{\"out\":[\"no\",\"TRUE\"]},\"totals\":{\"attempts\":3,\"bounced\":0,\"failed\":0,\"jobs\":3}}\n",
};

/// A flow that fails where the text is true, and capitals of what comes out.
const NESTED_FAILURE: Worked = Worked {
    document: r#"{"taverna":1,"main":"m","flows":{"s":{"inputs":{"a":0},"steps":{"f":{"inputs":{"a":{"depth":0,"from":{"input":"a"}}},"outputs":{"o":0},"activities":[{"service":"fail_if"}]}},"outputs":{"o":{"step":"f","port":"o"}}},"m":{"inputs":{"x":1},"steps":{"n":{"inputs":{"a":{"depth":0,"from":{"input":"x"}}},"outputs":{"o":0},"jobs":2,"activities":[{"flow":"s"}]},"q":{"inputs":{"a":{"depth":0,"from":{"step":"n","port":"o"}}},"outputs":{"o":0},"activities":[{"service":"upper"}]}},"outputs":{"out":{"step":"q","port":"o"}}}},"inputs":{"x":["true","no"]}}"#,
    line: "{\"outputs\":{\"out\":[{\"error\":{\"at\":\"q[0]\",\"depth\":0,\"from\":[\"n[0]/f[]\"],\"why\":\"bounced\"}},\"NO\"]},\"totals\":{\"attempts\":3,\"bounced\":1,\"failed\":1,\"jobs\":6}}\n",
};

/// Capitals of x, a flow over y then, and small letters of x at last.
const NESTED_AFTER: Worked = Worked {
    document: r#"{"taverna":1,"main":"m","flows":{"s":{"inputs":{"a":0},"steps":{"u":{"inputs":{"a":{"depth":0,"from":{"input":"a"}}},"outputs":{"o":0},"activities":[{"service":"upper"}]}},"outputs":{"o":{"step":"u","port":"o"}}},"m":{"inputs":{"x":0,"y":1},"steps":{"p":{"inputs":{"a":{"depth":0,"from":{"input":"x"}}},"outputs":{"o":0},"activities":[{"service":"upper"}]},"q":{"inputs":{"a":{"depth":0,"from":{"input":"y"}}},"outputs":{"o":0},"jobs":2,"after":["p"],"activities":[{"flow":"s"}]},"r":{"inputs":{"a":{"depth":0,"from":{"input":"x"}}},"outputs":{"o":0},"after":["q"],"activities":[{"service":"lower"}]}},"outputs":{"out":{"step":"q","port":"o"}}}},"inputs":{"x":"K","y":["a","b"]}}"#,
    line: "{\"outputs\":{\"out\":[\"A\",\"B\"]},\"totals\":{\"attempts\":4,\"bounced\":0,\"failed\":0,\"jobs\":6}}\n",
};

/// A text that fails once before it comes through, two flows deep.
const DEEP: Worked = Worked {
    document: r#"{"taverna":1,"main":"m","flows":{"s":{"inputs":{"a":0},"steps":{"n":{"inputs":{"a":{"depth":0,"from":{"input":"a"}}},"outputs":{"o":0},"activities":[{"flow":"t"}]}},"outputs":{"o":{"step":"n","port":"o"}}},"t":{"inputs":{"a":0},"steps":{"f":{"inputs":{"a":{"depth":0,"from":{"input":"a"}},"n":{"depth":0,"from":{"constant":"1"}}},"outputs":{"o":0},"retries":1,"activities":[{"service":"flaky"}]}},"outputs":{"o":{"step":"f","port":"o"}}},"m":{"inputs":{"x":1},"steps":{"k":{"inputs":{"a":{"depth":0,"from":{"input":"x"}}},"outputs":{"o":0},"activities":[{"flow":"s"}]}},"outputs":{"out":{"step":"k","port":"o"}}}},"inputs":{"x":["a","b"]}}"#,
    line: "{\"outputs\":{\"out\":[\"a\",\"b\"]},\"totals\":{\"attempts\":4,\"bounced\":0,\"failed\":0,\"jobs\":6}}\n",
};

/// Documents, scripts, and what each says before the line.
static ONE_JOB: [(Worked, &str, &str); 4] = [
    // One job: its answer is accepted once, and the run ends.
    (
        ONE,
        "history settle hand hand task:0/0/0 ask:0/0/0 alone:0/0/0 accept:0 accept:1 done settle settle done totals history rest",
        r#"false 0/0/0 none upper o:0 ["a"] Settled { good: true } Settled false true false true Totals { attempts: 1, bounced: 0, failed: 0, jobs: 1 } HandedOut { job: 0, activity: 0, attempt: 0 } Accepted { job: 0, activity: 0, attempt: 0, right: true } Ended { instance: 0 } "#,
    ),
    // A board that moves on settles as long as it can, hands out what is on offer, and rests.
    (
        ONE,
        "move move ask:0/0/0 move accept:0 move move done rest",
        "HandedOut(Ticket { job: 0, activity: 0, attempt: 0 }) Nothing Nothing Settled { good: true } Settled Nothing true ",
    ),
    // A try that was taken back isn't out, and its answer is accepted once it is out again.
    (
        CHAIN,
        "hand name:0 name:99 ask:0/0/0 recall accept:0 hand accept:0 recall history rest",
        "0/0/0 p[0] none 1 Idle { activity: 0, attempt: 0 } 0/0/0 Settled { good: true } 0 HandedOut { job: 0, activity: 0, attempt: 0 } Recalled { count: 1 } HandedOut { job: 0, activity: 0, attempt: 0 } Accepted { job: 0, activity: 0, attempt: 0, right: true } ",
    ),
    // Where jobs stand whose tries aren't out: there is none of that number, it hasn't begun, and another try of it is out.
    (
        CHAIN,
        "task:99/0/0 task:0/0/0 hand task:0/0/0 task:0/0/1 task:0/1/0 task:1/0/0 recall task:0/0/0 rest",
        r#"NotOut(Unknown) NotOut(Ready) 0/0/0 upper o:0 ["a"] NotOut(Out { activity: 0, attempt: 0 }) NotOut(Out { activity: 0, attempt: 0 }) NotOut(Ready) 1 NotOut(Idle { activity: 0, attempt: 0 }) "#,
    ),
];

static TWO_STEPS: [(Worked, &str, &str); 5] = [
    // Two texts through two steps, of which the first may have two tries out.
    (CHAIN_BY_TWO, "rest", ""),
    (
        CHAIN_BY_TWO,
        "hand ask:0/0/0 accept:0 hand ask:2/0/0 accept:1 hand ask:1/0/0 accept:2 rest",
        "0/0/0 Settled { good: true } 2/0/0 Settled { good: true } 1/0/0 Settled { good: true } ",
    ),
    (
        CHAIN_BY_TWO,
        "hand hand hand ask:0/0/0 ask:1/0/0 accept:1 accept:0 hand hand rest",
        "0/0/0 1/0/0 none Settled { good: true } Settled { good: true } 3/0/0 none ",
    ),
    (
        CHAIN_BY_TWO,
        "hand hand ask:1/0/0 accept:0 hand ask:0/0/0 ask:2/0/0 accept:2 accept:1 rest",
        "0/0/0 1/0/0 Settled { good: true } 2/0/0 Settled { good: true } Settled { good: true } ",
    ),
    (
        CHAIN_BY_TWO,
        "hand hand ask:0/0/0 ask:0/0/0 ask:1/0/0 accept:0 accept:1 accept:2 accept:1 rest",
        "0/0/0 1/0/0 Settled { good: true } Settled Settled { good: true } Settled ",
    ),
];

static IN_ANY_ORDER: [(Worked, &str, &str); 3] = [
    (
        CHAIN_BY_TWO,
        "hand hand ask:0/0/0 ask:1/0/0 recall accept:0 accept:1 hand accept:1 accept:0 hand hand accept:1 rest",
        "0/0/0 1/0/0 2 Idle { activity: 0, attempt: 0 } Idle { activity: 0, attempt: 0 } 0/0/0 Idle { activity: 0, attempt: 0 } Settled { good: true } 2/0/0 1/0/0 Settled { good: true } ",
    ),
    (
        CHAIN_BY_TWO,
        "recall hand ask:0/0/0 accept:0 recall settle settle settle recall rest",
        "0 0/0/0 Settled { good: true } 0 true true false 0 ",
    ),
    (
        CHAIN_BY_TWO,
        "settle settle settle hand hand ask:1/0/0 ask:0/0/0 accept:0 accept:1 settle hand ask:3/0/0 accept:2 hand ask:2/0/0 accept:3 settle settle settle hand rest",
        "true true false 0/0/0 1/0/0 Settled { good: true } Settled { good: true } false 3/0/0 Settled { good: true } 2/0/0 Settled { good: true } true false false none ",
    ),
];

static WITH_A_FAULT: [(Worked, &str, &str); 3] = [
    // Three texts, of which one fails.
    (
        FAILURES_BY_THREE,
        "hand hand hand ask:0/0/0 ask:1/0/0 ask:2/0/0 accept:2 accept:1 accept:0 settle settle settle settle history rest",
        "0/0/0 1/0/0 2/0/0 Settled { good: true } Settled { good: false } Settled { good: true } true true true false HandedOut { job: 0, activity: 0, attempt: 0 } HandedOut { job: 1, activity: 0, attempt: 0 } HandedOut { job: 2, activity: 0, attempt: 0 } Accepted { job: 2, activity: 0, attempt: 0, right: true } Accepted { job: 1, activity: 0, attempt: 0, right: false } Accepted { job: 0, activity: 0, attempt: 0, right: true } Bounced { job: 4 } Closed { instance: 0, step: 0, place: Place { indices: [] }, length: 3 } Closed { instance: 0, step: 1, place: Place { indices: [] }, length: 3 } ",
    ),
    (
        FAILURES_BY_THREE,
        "settle settle settle hand hand ask:1/0/0 ask:1/0/0 accept:0 settle settle settle hand accept:1 rest",
        "true true false 0/0/0 1/0/0 Settled { good: false } true false false 2/0/0 Settled ",
    ),
    (
        FAILURES_BY_THREE,
        "hand hand hand ask:1/0/0 ask:1/0/0 recall hand hand accept:1 accept:0 settle settle settle settle rest",
        "0/0/0 1/0/0 2/0/0 3 0/0/0 1/0/0 Settled { good: false } Settled true true true false ",
    ),
];

static TRIES: [(Worked, &str, &str); 3] = [
    // The tries of one job come one after another, and an answer is for its own try.
    (
        FLAKY,
        "hand hand ask:0/0/0 ask:0/0/0 accept:0 accept:1 settle hand accept:1 ask:0/0/1 accept:2 hand ask:0/0/2 accept:3 settle settle rest",
        "0/0/0 none Again Idle { activity: 0, attempt: 1 } false 0/0/1 Out { activity: 0, attempt: 1 } Again 0/0/2 Settled { good: true } true false ",
    ),
    // After the last try of one activity comes the first of the next.
    (
        FAILOVER,
        "hand ask:0/0/0 accept:0 hand ask:0/0/1 recall accept:1 hand accept:1 hand ask:0/1/0 recall hand accept:2 rest",
        "0/0/0 Again 0/0/1 1 Idle { activity: 0, attempt: 1 } 0/0/1 Again 0/1/0 1 0/1/0 Settled { good: true } ",
    ),
    // A second instance is opened once the first has no try on offer, and a third where a place is
    // free. Recalled tries are on offer again, and their instances stay open.
    (
        NESTED,
        "settle settle settle task:0/0/0 task:1/0/0 hand settle settle hand hand name:3 name:4 ask:3/0/0 ask:4/0/0 recall settle accept:0 hand accept:1 hand accept:1 settle settle settle accept:0 settle settle hand ask:5/0/0 accept:2 settle settle settle done totals history rest",
        "true true false NotOut(Nested) NotOut(Ready) 3/0/0 true false 4/0/0 none n[0]/u[] n[1]/u[] 2 false Idle { activity: 0, attempt: 0 } 3/0/0 Idle { activity: 0, attempt: 0 } 4/0/0 Settled { good: true } true true false Settled { good: true } true false 5/0/0 Settled { good: true } true true false true Totals { attempts: 3, bounced: 0, failed: 0, jobs: 6 } Closed { instance: 0, step: 0, place: Place { indices: [] }, length: 3 } Opened { job: 0, instance: 1 } HandedOut { job: 3, activity: 0, attempt: 0 } Opened { job: 1, instance: 2 } HandedOut { job: 4, activity: 0, attempt: 0 } Recalled { count: 2 } HandedOut { job: 3, activity: 0, attempt: 0 } HandedOut { job: 4, activity: 0, attempt: 0 } Accepted { job: 4, activity: 0, attempt: 0, right: true } Ended { instance: 2 } Opened { job: 2, instance: 3 } Accepted { job: 3, activity: 0, attempt: 0, right: true } Ended { instance: 1 } HandedOut { job: 5, activity: 0, attempt: 0 } Accepted { job: 5, activity: 0, attempt: 0, right: true } Ended { instance: 3 } Ended { instance: 0 } ",
    ),
];

static INSTANCES: [(Worked, &str, &str); 4] = [
    // A job whose services failed is idle until its instance is opened, with the place that it has; it
    // waits while a job before it has a try on offer.
    (
        NESTED_FAILOVER,
        "settle settle hand hand ask:0/0/0 accept:0 task:0/0/0 hand ask:0/0/1 accept:1 task:0/1/0 hand settle task:0/1/0 settle hand hand ask:2/0/0 accept:2 settle settle hand ask:1/0/0 accept:3 settle settle totals rest",
        "true false 0/0/0 none Again NotOut(Idle { activity: 0, attempt: 1 }) 0/0/1 Again NotOut(Idle { activity: 1, attempt: 0 }) none true NotOut(Nested) false 2/0/0 none Settled { good: true } true false 1/0/0 Settled { good: true } true false Totals { attempts: 4, bounced: 0, failed: 0, jobs: 3 } ",
    ),
    (
        NESTED_FAILOVER_BY_TWO,
        "settle settle hand hand ask:0/0/0 ask:1/0/0 accept:1 task:1/1/0 recall settle hand settle accept:0 settle hand ask:2/0/0 accept:2 settle settle settle done rest",
        "true false 0/0/0 1/0/0 Again NotOut(Idle { activity: 1, attempt: 0 }) 1 false 0/0/0 true Settled { good: true } false 2/0/0 Settled { good: true } true true false true ",
    ),
    // A fault of an instance stands in its job's place, and the job of the next step bounces; the
    // nested job itself is right.
    (
        NESTED_FAILURE,
        "settle settle settle settle hand settle settle hand ask:2/0/0 ask:3/0/0 accept:0 settle settle settle task:4/0/0 accept:1 settle settle hand ask:5/0/0 accept:2 settle settle totals history rest",
        "true true true false 2/0/0 true false 3/0/0 Settled { good: false } true true false NotOut(Settled) Settled { good: true } true false 5/0/0 Settled { good: true } true false Totals { attempts: 3, bounced: 1, failed: 1, jobs: 6 } Closed { instance: 0, step: 0, place: Place { indices: [] }, length: 2 } Closed { instance: 0, step: 1, place: Place { indices: [] }, length: 2 } Opened { job: 0, instance: 1 } HandedOut { job: 2, activity: 0, attempt: 0 } Opened { job: 1, instance: 2 } HandedOut { job: 3, activity: 0, attempt: 0 } Accepted { job: 2, activity: 0, attempt: 0, right: false } Ended { instance: 1 } Bounced { job: 4 } Accepted { job: 3, activity: 0, attempt: 0, right: true } Ended { instance: 2 } HandedOut { job: 5, activity: 0, attempt: 0 } Accepted { job: 5, activity: 0, attempt: 0, right: true } Ended { instance: 0 } ",
    ),
    // The same board, moved on: it opens flows and hands out in their order, and what is out doesn't hold it up.
    (
        NESTED_FAILURE,
        "move move move move move move move ask:2/0/0 ask:3/0/0 accept:0 move move move accept:1 rest",
        "Settled Settled Settled HandedOut(Ticket { job: 2, activity: 0, attempt: 0 }) Settled HandedOut(Ticket { job: 3, activity: 0, attempt: 0 }) Nothing Settled { good: false } Settled Settled Nothing Settled { good: true } ",
    ),
];

static INNER_FAULTS: [(Worked, &str, &str); 4] = [
    // A recall takes back what is out in an instance two flows deep, which stays open; a job's attempts
    // go on from there.
    (
        DEEP,
        "settle settle settle settle recall hand name:3 ask:3/0/0 recall task:3/0/0 task:2/0/0 settle accept:0 hand accept:0 recall hand ask:3/0/1 recall accept:1 hand accept:1 settle settle settle settle settle history rest",
        "true true true false 0 3/0/0 k[0]/n[]/f[] 1 NotOut(Idle { activity: 0, attempt: 0 }) NotOut(Nested) false Idle { activity: 0, attempt: 0 } 3/0/0 Again 0 3/0/1 1 Idle { activity: 0, attempt: 1 } 3/0/1 Settled { good: true } true true true true false Closed { instance: 0, step: 0, place: Place { indices: [] }, length: 2 } Opened { job: 0, instance: 1 } Opened { job: 2, instance: 2 } HandedOut { job: 3, activity: 0, attempt: 0 } Recalled { count: 1 } HandedOut { job: 3, activity: 0, attempt: 0 } Accepted { job: 3, activity: 0, attempt: 0, right: false } HandedOut { job: 3, activity: 0, attempt: 1 } Recalled { count: 1 } HandedOut { job: 3, activity: 0, attempt: 1 } Accepted { job: 3, activity: 0, attempt: 1, right: true } Ended { instance: 2 } Ended { instance: 1 } Opened { job: 1, instance: 3 } Opened { job: 4, instance: 4 } ",
    ),
    // A nested step waits for the step that it runs after, and a step that runs after it for all its
    // instances.
    (
        NESTED_AFTER,
        "settle settle name:0 name:1 name:2 name:3 task:1/0/0 hand hand settle ask:0/0/0 accept:0 task:1/0/0 settle settle task:1/0/0 hand settle hand hand ask:4/0/0 ask:5/0/0 accept:2 settle settle task:3/0/0 accept:1 task:3/0/0 settle task:3/0/0 settle hand ask:3/0/0 accept:3 settle settle done rest",
        "true false p[] q[0] q[1] r[] NotOut(Waiting) 0/0/0 none false Settled { good: true } NotOut(Ready) true false NotOut(Nested) 4/0/0 true 5/0/0 none Settled { good: true } true false NotOut(Waiting) Settled { good: true } NotOut(Waiting) true NotOut(Ready) false 3/0/0 Settled { good: true } true false true ",
    ),
    // Each job once it is settled, whatever the order of outcomes, and none before.
    (
        CROSS_BY_FOUR,
        "noted:c hand hand hand noted:c ask:1/0/0 accept:0 noted:c ask:0/0/0 accept:1 noted:c recall noted:c noted:x rest",
        "; 0/0/0 1/0/0 2/0/0 ; Settled { good: true } c[0,1] <x[0] <y[1] ; Settled { good: true } c[0,0] <x[0] <y[0] c[0,1] <x[0] <y[1] ; 1 c[0,0] <x[0] <y[0] c[0,1] <x[0] <y[1] ; ; ",
    ),
    // A job on an item of a list that isn't whole yet.
    (
        CHAIN,
        "hand ask:0/0/0 accept:0 noted:q settle settle settle hand noted:p hand name:2 ask:2/0/0 accept:1 noted:q noted:p rest",
        "0/0/0 Settled { good: true } ; true true false 2/0/0 p[0] <x[0] ; 1/0/0 q[0] Settled { good: true } q[0] <x[0] ; p[0] <x[0] ; ",
    ),
];

static NOTED: [(Worked, &str, &str); 3] = [
    // A job that has failed is noted, and one that bounced, which leads through it.
    (
        FAILURES,
        "hand ask:0/0/0 accept:0 noted:f noted:u settle settle settle settle noted:u hand name:1 rest",
        "0/0/0 Settled { good: false } f[0] <x[0] ; ; true true true false u[0] <x[0] ; 1/0/0 f[1] ",
    ),
    (
        PASSED,
        "hand ask:0/0/0 accept:0 noted:r noted:u settle settle settle noted:u done rest",
        "0/0/0 Settled { good: false } r[] ; ; true true false ; true ",
    ),
    // All that a merge takes in.
    (
        MERGE,
        "noted:e hand ask:0/0/0 accept:0 noted:e rest",
        "; 0/0/0 Settled { good: true } e[] <x[] <y[] ; ",
    ),
];

static PREFIX_NODES: [(Worked, &str, &str); 2] = [
    // A prefix node pairs a text with what stands below it, whichever came first, and lists come out once their lengths and the texts
    // above them are known: lists first, and jobs first.
    (
        PREFIXED,
        "settle settle settle settle settle settle settle hand hand hand hand hand hand ask:2/0/0 accept:0 name:6 ask:0/0/0 accept:1 name:6 name:7 settle settle ask:3/0/0 accept:2 name:7 ask:4/0/0 accept:3 ask:5/0/0 accept:4 name:8 ask:1/0/0 accept:5 name:8 name:9 settle settle rest",
        "true true true true true true false 2/0/0 3/0/0 4/0/0 5/0/0 0/0/0 1/0/0 Settled { good: true } none Settled { good: true } c[0,0] none true false Settled { good: true } c[0,1] Settled { good: true } Settled { good: true } none Settled { good: true } c[1,0] none true false ",
    ),
    (
        PREFIXED,
        "hand hand hand hand hand hand ask:2/0/0 accept:0 name:6 ask:0/0/0 accept:1 name:6 ask:3/0/0 accept:2 name:7 ask:4/0/0 accept:3 ask:5/0/0 accept:4 name:8 ask:1/0/0 accept:5 name:8 name:9 settle settle settle settle settle settle settle settle settle rest",
        "2/0/0 3/0/0 4/0/0 5/0/0 0/0/0 1/0/0 Settled { good: true } none Settled { good: true } c[0,0] Settled { good: true } c[0,1] Settled { good: true } Settled { good: true } none Settled { good: true } c[1,0] none true true true true true true true true false ",
    ),
];

static LISTS_AND_NODES: [(Worked, &str, &str); 2] = [
    // A nested job is noted once its instance has ended, and no job inside an instance is.
    (
        NESTED_TWO,
        "settle settle settle hand settle hand ask:2/0/0 ask:3/0/0 accept:1 noted:n noted:u settle settle noted:n noted:u accept:0 settle settle settle noted:n done rest",
        "true true false 2/0/0 true 3/0/0 Settled { good: true } ; ; true false n[1] <x[1] ; ; Settled { good: true } true true false n[0] <x[0] n[1] <x[1] ; true ",
    ),
    // A board keeps nodes while its run goes on, and none once that is done.
    (
        CROSS_BY_FOUR,
        "keeps hand hand hand hand ask:0/0/0 ask:1/0/0 ask:2/0/0 ask:3/0/0 accept:0 accept:1 accept:2 accept:3 settle settle settle settle settle keeps done rest",
        "true 0/0/0 1/0/0 2/0/0 3/0/0 Settled { good: true } Settled { good: true } Settled { good: true } Settled { good: true } true true true true false false true ",
    ),
];

/// What a script says on a board of a document.
fn played(alloc: Global, document: &str, script: &str) -> Result<String, Fail> {
    let mut said = String::new(alloc);
    play(alloc, document, script, &mut Vec::new(alloc), &mut said)?;
    Ok(said)
}

/// Holds what each script says, and then the line, against what is due.
fn say_what_is_due(
    rt: &impl Abort,
    alloc: Global,
    cases: &[(Worked, &str, &str)],
) -> Result<(), Fail> {
    for (worked, script, due) in cases {
        let said = played(alloc, worked.document, script)?;
        assert_eq!(rt; said.strip_suffix(worked.line), Some(*due), "{script}");
    }
    Ok(())
}

#[test]
fn one_job_as_due(rt: HostRuntime) -> Result<(), Fail> {
    say_what_is_due(&rt, rt.alloc(), &ONE_JOB)
}

#[test]
fn two_steps_as_due(rt: HostRuntime) -> Result<(), Fail> {
    say_what_is_due(&rt, rt.alloc(), &TWO_STEPS)
}

#[test]
fn in_any_order_as_due(rt: HostRuntime) -> Result<(), Fail> {
    say_what_is_due(&rt, rt.alloc(), &IN_ANY_ORDER)
}

#[test]
fn with_a_fault_as_due(rt: HostRuntime) -> Result<(), Fail> {
    say_what_is_due(&rt, rt.alloc(), &WITH_A_FAULT)
}

#[test]
fn tries_as_due(rt: HostRuntime) -> Result<(), Fail> {
    say_what_is_due(&rt, rt.alloc(), &TRIES)
}

#[test]
fn instances_as_due(rt: HostRuntime) -> Result<(), Fail> {
    say_what_is_due(&rt, rt.alloc(), &INSTANCES)
}

#[test]
fn inner_faults_as_due(rt: HostRuntime) -> Result<(), Fail> {
    say_what_is_due(&rt, rt.alloc(), &INNER_FAULTS)
}

#[test]
fn noted_as_due(rt: HostRuntime) -> Result<(), Fail> {
    say_what_is_due(&rt, rt.alloc(), &NOTED)
}

#[test]
fn prefix_nodes_as_due(rt: HostRuntime) -> Result<(), Fail> {
    say_what_is_due(&rt, rt.alloc(), &PREFIX_NODES)
}

#[test]
fn lists_and_nodes_as_due(rt: HostRuntime) -> Result<(), Fail> {
    say_what_is_due(&rt, rt.alloc(), &LISTS_AND_NODES)
}
