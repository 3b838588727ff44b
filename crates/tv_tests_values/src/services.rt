//! The local services, case by case.
//!
//! A case is a service, the attempt, what it gives and its inputs, with a bar between each two. What it gives is `=` and a value
//! as JSON, or `!` and a text.
use crate::values::{parted, values};
use std::alloc::Global;
use std::test::Fail;
use tv_gate::{Gate, Outcome};
use tv_json::{compact, json_of_value};
use tv_local::LocalGate;
use tv_value::NoMemory;

const CASES: &str = r#"concat|0|="ab"|a|b
concat|0|=""||
concat|0|="éü"|é|ü
concat|0|!concat wants 2 inputs|a
concat|0|!concat wants 2 inputs|a|b|c
concat|0|!concat input 2 holds an error|a|#
concat|0|!concat input 1 wants depth 0|[a;]|#
split|0|=[""]||,
split|0|=["a","","b"]|a,,b|,
split|0|=["","",""]|aaaa|aa
split|0|=["","a"]|aaa|aa
split|0|=["abc",""]|abcabd|abd
split|0|=["a","b"]|aéb|é
split|0|=["ab"]|ab|x
split|0|!split wants a separator|ab|
split|0|!split input 1 wants depth 0|[]|,
join|0|="a, b, c"|[a;b;c;]|, 
join|0|=""|[]|,
join|0|="-"|[;;]|-
join|0|="é"|[é;]|-
join|0|!join input 1 wants depth 1|a|-
join|0|!join input 1 holds an error|[a;#;]|-
upper|0|="Aé1Z"|aé1z
upper|0|=""|
upper|0|!upper wants 1 inputs
upper|0|!upper wants 1 inputs|a|b
upper|0|!upper input 1 holds an error|#
lower|0|="aÉ1z"|AÉ1Z
lower|0|="a[`{"|a[`{
lower|0|!lower input 1 wants depth 0|[A;]
reverse|0|=["c","b","a"]|[a;b;c;]
reverse|0|=[]|[]
reverse|0|=["","é"]|[é;;]
reverse|0|!reverse input 1 wants depth 1|a
length|0|="1"|é
length|0|="0"|
length|0|="4"|aé€😀
length|0|!length input 1 wants depth 0|[]
add|0|="3"|1|2
add|0|="0"|-5|5
add|0|="7"|007|-0
add|0|!add out of range|9223372036854775807|1
add|0|!add out of range|-9223372036854775808|-1
add|0|="-1"|9223372036854775807|-9223372036854775808
add|0|!add input 1 is no number|9223372036854775808|1
add|0|!add input 2 is no number|1|-9223372036854775809
add|0|!add input 1 is no number|+1|1
add|0|!add input 1 is no number|-|1
add|0|!add input 2 is no number|1|
add|0|!add input 1 is no number|1 |2
add|0|!add input 2 wants depth 0|x|[y;]
add|0|!add input 1 is no number|x|y
subtract|0|="-1"|1|2
subtract|0|!subtract out of range|-9223372036854775808|1
subtract|0|!subtract out of range|0|-9223372036854775808
subtract|0|="9223372036854775807"|-1|-9223372036854775808
subtract|0|!subtract input 2 is no number|1|1.0
range|0|=[]|3|2
range|0|=["-1","0","1"]|-1|1
range|0|=["1"]|1|1
range|0|=["9223372036854775806","9223372036854775807"]|9223372036854775806|9223372036854775807
range|0|=[]|9223372036854775807|-9223372036854775808
range|0|!range too long|-9223372036854775808|9223372036854775807
range|0|!range too long|0|100000
range|0|!range input 1 is no number|z|1
count|0|="3"|[a;b;a;]
count|0|="0"|[]
count|0|!count input 1 wants depth 1|[(a,);]
count|0|!count wants 1 inputs
take|0|=["a","b"]|[a;b;]|5
take|0|=["a"]|[a;b;]|1
take|0|=[]|[a;b;]|0
take|0|=["a","b"]|[a;b;]|9223372036854775807
take|0|!take wants a count|[a;b;]|-1
take|0|!take input 2 is no number|[a;b;]|a
flatten|0|=["a","b","c"]|[(a,b,);();(c,);]
flatten|0|=[]|[]
flatten|0|=[]|[();();]
flatten|0|!flatten input 1 wants depth 2|[a;]
echo|0|="a"|a
echo|0|=[["a"]]|[(a,);]
echo|0|!echo input 1 holds an error|#
echo|0|!echo wants 1 inputs|a|b
distinct|0|=["b","a",""]|[b;a;b;;a;;]
distinct|0|=[]|[]
distinct|0|=["é","e"]|[é;e;é;]
distinct|0|!distinct input 1 wants depth 1|a
intersect|0|=["b","b"]|[b;a;b;]|[b;]
intersect|0|=[]|[a;b;]|[]
intersect|0|=["","a"]|[;a;]|[a;;c;]
intersect|0|!intersect input 2 wants depth 1|[a;]|a
fail_if|0|!told to fail|true
fail_if|0|="True"|True
fail_if|0|=""|
fail_if|0|!fail_if input 1 wants depth 0|[]
flaky|1|!flaky attempt 1|a|2
flaky|2|="a"|a|2
flaky|0|="a"|a|-3
flaky|4294967295|!flaky attempt 4294967295|a|4294967296
flaky|0|!flaky input 2 is no number|a|b"#;

fn told(alloc: Global, outcome: &Outcome) -> Result<String, NoMemory> {
    let mut text = String::new(alloc);
    match outcome {
        Outcome::Good(values) => for value in values.as_slice() {
            let json = json_of_value(alloc, value)?;
            text.push_str("=")?;
            text.push_str(compact(alloc, &json)?.as_str())?;
        },
        Outcome::Bad(why) => {
            text.push_str("!")?;
            text.push_str(why.as_str())?;
        }
    }
    Ok(text)
}

/// What the gate gives, and what is due.
fn given(alloc: Global, case: &'static str) -> Result<(String, &'static str), Fail> {
    let (service, rest) = case.split_once('|').ok_or("no attempt")?;
    let (attempt, rest) = rest.split_once('|').ok_or("no outcome")?;
    let attempt = attempt.parse::<u32>()?;
    let (due, written) = parted(rest);
    let inputs = values(alloc, written)?;
    let outcome = LocalGate::new().call(alloc, service, &inputs, attempt)?;
    Ok((told(alloc, &outcome)?, due))
}

#[test]
fn each_gives_what_is_due(rt: HostRuntime) -> Result<(), Fail> {
    for case in CASES.split('\n') {
        let (found, due) = given(rt.alloc(), case)?;
        assert_eq!(rt; found.as_str(), due, "in {case}");
    }
    Ok(())
}
