//! Floats, which no document has, and of which the clauses say only that they read back.
use serde_json::Value as Json;
use std::alloc::Global;
use std::test::Fail;
use tv_json::compact;
use tv_value::Text;

fn written(alloc: Global, text: &str) -> Result<Text, Fail> {
    let json = Json::from_str(alloc, text)?;
    Ok(compact(alloc, &json)?)
}

#[test]
fn floats_are_written_with_a_point_or_an_exponent(rt: HostRuntime) -> Result<(), Fail> {
    let text = "[ 1e0, -0, 0.50, 1E300, -1.5e-7, null, { \"a\": true } ]";
    let found = written(rt.alloc(), text)?;
    let due = "[1.0,-0.0,0.5,1e+300,-1.5e-7,null,{\"a\":true}]";
    assert_eq!(rt; found.as_str(), due);
    Ok(())
}
