//! Generated documents against their texts.
ghost use Rattle.std.specs.Prelude.{◌≤◌};

use std::alloc::Global;
use std::test::Fail;
use tv_generator::generated;
use tv_json::{compact, json_of_document};
use tv_value::Text;

/// Numbers, and how the documents of them end: that of 1 whole, every field told, and that of 12 from the values on.
const ENDS: [(u32, &str); 2] = [
    (
        1,
        "{\"flows\":{\"main\":{\"inputs\":{\"x\":1,\"y\":1},\"outputs\":{\"out\":{\"port\":\"o\",\"step\":\"n\"}},\"steps\":{\"c\":{\"activities\":[{\"service\":\"concat\"}],\"after\":[],\"inputs\":{\"a\":{\"depth\":0,\"from\":{\"input\":\"x\"}},\"b\":{\"depth\":0,\"from\":{\"input\":\"y\"}}},\"jobs\":8,\"outputs\":{\"o\":0},\"retries\":0},\"f\":{\"activities\":[{\"service\":\"flaky\"}],\"after\":[],\"inputs\":{\"a\":{\"depth\":0,\"from\":{\"port\":\"o\",\"step\":\"c\"}},\"n\":{\"depth\":0,\"from\":{\"constant\":\"1\"}}},\"jobs\":8,\"outputs\":{\"o\":0},\"retries\":1},\"g\":{\"activities\":[{\"service\":\"fail_if\"}],\"after\":[],\"inputs\":{\"a\":{\"depth\":0,\"from\":{\"port\":\"o\",\"step\":\"f\"}}},\"jobs\":8,\"outputs\":{\"o\":0},\"retries\":0},\"n\":{\"activities\":[{\"flow\":\"sub\"}],\"after\":[],\"inputs\":{\"a\":{\"depth\":0,\"from\":{\"port\":\"o\",\"step\":\"g\"}}},\"jobs\":4,\"outputs\":{\"o\":0},\"retries\":0}}},\"sub\":{\"inputs\":{\"a\":0},\"outputs\":{\"o\":{\"port\":\"o\",\"step\":\"u\"}},\"steps\":{\"u\":{\"activities\":[{\"service\":\"upper\"}],\"after\":[],\"inputs\":{\"a\":{\"depth\":0,\"from\":{\"input\":\"a\"}}},\"jobs\":1,\"outputs\":{\"o\":0},\"retries\":0}}}},\"inputs\":{\"x\":[\"true\"],\"y\":[\"\"]},\"main\":\"main\",\"taverna\":1}",
    ),
    (
        12,
        "\"inputs\":{\"x\":[\"true\",\"x1\",\"x2\",\"x3\",\"x4\",\"x5\",\"x6\",\"x7\",\"x8\",\"x9\",\"true\",\"x11\"],\"y\":[\"\",\"1\",\"2\",\"3\",\"4\",\"5\",\"6\",\"7\",\"8\",\"9\",\"\",\"11\"]},\"main\":\"main\",\"taverna\":1}",
    ),
];

fn written(alloc: Global, number: u32) -> Result<Text, Fail>
    requires some { 1 ≤ number }
    requires most { number ≤ 200 }
{
    let json = json_of_document(alloc, &generated(alloc, number)?)?;
    Ok(compact(alloc, &json)?)
}

#[test]
fn generated_documents_end_so(rt: HostRuntime) -> Result<(), Fail> {
    for (number, end) in ENDS {
        assert!(rt; 1 <= number && number <= 200);
        let text = written(rt.alloc(), number)?;
        assert!(rt; text.as_str().ends_with(end), "of {number}");
    }
    Ok(())
}
