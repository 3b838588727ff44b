//! Values as tests write them: a text as it is, a list `[a;b;]`, a list inside it `(a,b,)`, and a fault of depth 0 `#`.
use std::alloc::Global;
use tv_value::{ErrorDoc, Items, NoMemory, Sequence, Text, Value};

fn fault(alloc: Global) -> Result<Value, NoMemory> {
    let why = Text::from_str(alloc, "bounced")?;
    let error = ErrorDoc {
        at: Sequence::empty(alloc),
        depth: 0,
        why,
        from: Sequence::empty(alloc),
    };
    Ok(Value::Fault(Box::new(alloc, error)?))
}

fn scalar(alloc: Global, written: &str) -> Result<Value, NoMemory> {
    if written == "#" {
        fault(alloc)
    } else {
        Ok(Value::Text(Text::from_str(alloc, written)?))
    }
}

fn inner(alloc: Global, written: &str) -> Result<Value, NoMemory> {
    let Some(rest) = written.strip_prefix('(') else {
        return scalar(alloc, written);
    };
    let mut values = Vec::new(alloc);
    for item in rest.split(',') {
        if item != ")" {
            values.push(scalar(alloc, item)?)?;
        }
    }
    Ok(Value::List(Items::of(values)))
}

fn value(alloc: Global, written: &str) -> Result<Value, NoMemory> {
    let Some(rest) = written.strip_prefix('[') else {
        return scalar(alloc, written);
    };
    let mut values = Vec::new(alloc);
    for item in rest.split(';') {
        if item != "]" {
            values.push(inner(alloc, item)?)?;
        }
    }
    Ok(Value::List(Items::of(values)))
}

/// Values with a bar between each two, or none.
pub(crate) fn values(alloc: Global, written: Option<&str>) -> Result<Items, NoMemory> {
    let mut values = Vec::new(alloc);
    if let Some(fields) = written {
        for field in fields.split('|') {
            values.push(value(alloc, field)?)?;
        }
    }
    Ok(Items::of(values))
}

/// What stands before the first bar, and what stands behind it.
pub(crate) fn parted(written: &str) -> (&str, Option<&str>) {
    match written.split_once('|') {
        Some((first, rest)) => (first, Some(rest)),
        None => (written, None),
    }
}
