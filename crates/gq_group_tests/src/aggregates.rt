//! Running aggregates.
use crate::spelled::spelled_value;
use gq_agg::{Agg, AggKind};
use gq_row::{Text, Value};
use std::alloc::{AllocError, Global};
use std::test::Fail;

/// The aggregate of some values, spelled out.
fn aggregate(alloc: Global, kind: AggKind, values: &[Value]) -> Result<String, AllocError> {
    let mut agg = Agg::start(alloc, kind);
    for value in values {
        if !agg.kind().takes(value) || agg.adds() >= 4_294_967_296 {
            return String::from_str(alloc, "not taken");
        }
        agg.add(value)?;
    }
    match agg.finish() {
        Ok(value) => spelled_value(alloc, &value),
        Err(_) => String::from_str(alloc, "out of range"),
    }
}

fn text(alloc: Global, chars: &str) -> Result<Value, AllocError> {
    Ok(Value::Text(Text::of(alloc, chars)?))
}

#[test]
fn over_texts(rt: HostRuntime) -> Result<(), Fail> {
    let alloc = rt.alloc();
    let values = vec![in alloc; text(alloc, "b")?, text(alloc, "a")?, Value::Null]?;
    for (kind, due) in [
        (AggKind::CountAll, "3"),
        (AggKind::Count, "2"),
        (AggKind::Min, "'a'"),
        (AggKind::Max, "'b'"),
        (AggKind::Sum, "not taken"),
    ] {
        let found = aggregate(alloc, kind, values.as_slice())?;
        assert_eq!(rt; found.as_str(), due);
    }
    Ok(())
}

#[test]
fn over_texts_without_case(rt: HostRuntime) -> Result<(), Fail> {
    let alloc = rt.alloc();
    let mut values = vec![in alloc; Value::Null]?;
    for chars in ["b", "a", "B", "A", "b"] {
        values.push(text(alloc, chars)?.without_case())?;
    }
    for (kind, due) in [
        (AggKind::CountAll, "6"),
        (AggKind::Count, "5"),
        (AggKind::Min, "~'A'"),
        (AggKind::Max, "~'b'"),
        (AggKind::Sum, "not taken"),
    ] {
        let found = aggregate(alloc, kind, values.as_slice())?;
        assert_eq!(rt; found.as_str(), due);
    }
    Ok(())
}

#[test]
fn over_nothing(rt: HostRuntime) -> Result<(), Fail> {
    let alloc = rt.alloc();
    let nulls = vec![in alloc; Value::Null, Value::Null]?;
    for (kind, due, of_nulls) in [
        (AggKind::CountAll, "0", "2"),
        (AggKind::Count, "0", "0"),
        (AggKind::Sum, "null", "null"),
        (AggKind::Min, "null", "null"),
        (AggKind::Max, "null", "null"),
    ] {
        let found = aggregate(alloc, kind, &[])?;
        assert_eq!(rt; found.as_str(), due);
        let found = aggregate(alloc, kind, nulls.as_slice())?;
        assert_eq!(rt; found.as_str(), of_nulls);
    }
    Ok(())
}

#[test]
fn sums_at_the_edge_of_64_bits(rt: HostRuntime) -> Result<(), Fail> {
    let alloc = rt.alloc();
    let most = i64::MAX;
    let least = i64::MIN;
    for (numbers, due) in [
        ([most, 0, 0], "9223372036854775807"),
        ([most, 1, 0], "out of range"),
        ([most, 1, -1], "9223372036854775807"),
        ([least, 0, 0], "-9223372036854775808"),
        ([least, -1, 0], "out of range"),
        ([least, -1, 1], "-9223372036854775808"),
        ([most, most, least], "9223372036854775806"),
    ] {
        let mut values = Vec::new(alloc);
        for number in numbers {
            values.push(Value::Int(number))?;
        }
        let found = aggregate(alloc, AggKind::Sum, values.as_slice())?;
        assert_eq!(rt; found.as_str(), due);
    }
    Ok(())
}
