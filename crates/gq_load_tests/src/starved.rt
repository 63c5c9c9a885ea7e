//! Loads while memory runs out: first with none left, then with a little more each time, so that each
//! allocation is the first to fail in some run.
use crate::tables::{Table, schema};
use gq_load::{LoadRefusal, load_rows};
use gq_row::{Limits, Row, Sequence, Value};
use starved_tests::{POOLS, Starved};
use std::test::Fail;

// By how many bytes the free memory grows with each step.
const STEP: usize = 16;

const PAYLOAD: &[u8] =
    b"city,id\nOslo,1\n\"a city of a name that takes a block of its own\",2\nRome,3\n,4\n\\N,5\nBern,6\n";

const FAULTY: &[u8] = b"city,id\nOslo,1\nBern,2\nRome,3.5\n";

fn is_city(row: &Row, id: i64, city: Option<&str>) -> bool {
    match row.cells() {
        [Value::Int(n), Value::Text(text)] => *n == id && city == Some(text.as_str()),
        [Value::Int(n), Value::Null] => *n == id && city.is_none(),
        _ => false,
    }
}

fn are_cities(rows: &Sequence<Row>) -> bool {
    match rows.as_slice() {
        [a, b, c, d, e, f] => {
            is_city(a, 1, Some("Oslo"))
                && is_city(b, 2, Some("a city of a name that takes a block of its own"))
                && is_city(c, 3, Some("Rome"))
                && is_city(d, 4, Some(""))
                && is_city(e, 5, None)
                && is_city(f, 6, Some("Bern"))
        }
        _ => false,
    }
}

#[test]
fn each_request_refused_in_turn(rt: HostRuntime) -> Result<(), Fail> {
    let alloc = rt.alloc();
    let Some(schema) = schema(alloc, Table::Cities) else {
        assert!(rt; false);
        return Ok(());
    };
    let limits = Limits::greatest();
    // Once with enough memory, so that the stack has grown as far as a load needs it.
    assert!(rt; load_rows(alloc, PAYLOAD, &schema, &limits).is_ok());
    let mut starved = Starved::new(alloc)?;
    assert!(rt;
        matches!(
            load_rows(alloc, PAYLOAD, &schema, &limits),
            Err(LoadRefusal::Memory)
        )
    );
    let mut refused = 0usize;
    let mut reported = 0usize;
    for step in 0..POOLS {
        let kept = starved.leave(alloc, STEP.saturating_mul(step))?;
        match load_rows(alloc, FAULTY, &schema, &limits) {
            Err(LoadRefusal::BadInt(3)) => reported = reported.saturating_add(1),
            Err(LoadRefusal::Memory) => {}
            _ => assert!(rt; false, "step {step}"),
        }
        let answer = load_rows(alloc, PAYLOAD, &schema, &limits);
        let is_whole = match &answer {
            Ok(rows) => {
                assert!(rt; are_cities(rows), "step {step}");
                true
            }
            Err(refusal) => {
                assert_eq!(rt; *refusal, LoadRefusal::Memory);
                false
            }
        };
        drop(answer);
        starved.end(alloc, kept);
        if is_whole {
            break;
        }
        refused = refused.saturating_add(1);
    }
    // The allocations grow from a few bytes to some hundred, so more than ten steps fail.
    assert!(rt; 10 < refused && refused < POOLS, "{refused} refused");
    assert!(rt; 0 < reported, "{refused} refused");
    Ok(())
}
