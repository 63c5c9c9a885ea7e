//! Groups of several aggregates, which are stored in one list for all groups: past each growth of the list, and
//! with each allocation failing in turn.
use crate::groups::{Answer, grouped_over, spec, text_of};
use gq_agg::AggKind;
use gq_group::Refusal;
use gq_row::{Key, Row, Text, Value};
use gq_spill::MemStore;
use starved_tests::{POOLS, Starved};
use std::alloc::{AllocError, Global};
use std::collections::VecDeque;
use std::process::Abort;
use std::test::Fail;
use sw_probe::{Constant, Fnv1a, KeyHash};

// By how many bytes the free memory grows with each step.
const STEP: usize = 64;

const ALL: &[(AggKind, usize)] = &[
    (AggKind::CountAll, 0),
    (AggKind::Sum, 1),
    (AggKind::Min, 2),
    (AggKind::Max, 2),
    (AggKind::Count, 1),
];

/// The order of the two rows of each key.
#[derive(Clone, Copy, Debug)]
enum Order {
    /// One after the other, so that the table grows as keys appear.
    InPairs,
    /// The first of each key before the second of any, so that room for all is made at once.
    InRounds,
}

/// The first or the second row of a key: the key, a number, and a name with the number that is allocated.
fn row_of(alloc: Global, key: u32, round: u32) -> Result<Row, AllocError> {
    let number = 10_000u32
        .saturating_add(round.saturating_mul(1_000))
        .saturating_add(key);
    let name = format!(in alloc; "a name that takes a block of its own, {number}")?;
    Ok(Row::new(vec![in alloc;
        Value::Int(i64::from(key)),
        Value::Int(i64::from(number)),
        Value::Text(Text::of(alloc, name.as_str())?),
    ]?))
}

/// Two rows for each of `keys` keys.
fn rows_in(alloc: Global, order: Order, keys: u32) -> Result<VecDeque<Row>, AllocError> {
    let mut rows = VecDeque::new(alloc);
    match order {
        Order::InPairs => {
            for key in 0..keys {
                rows.push_back(row_of(alloc, key, 0)?)?;
                rows.push_back(row_of(alloc, key, 1)?)?;
            }
        }
        Order::InRounds => {
            for round in 0..2 {
                for key in 0..keys {
                    rows.push_back(row_of(alloc, key, round)?)?;
                }
            }
        }
    }
    Ok(rows)
}

/// The expected groups of these rows.
fn due(alloc: Global, keys: u32) -> Result<String, AllocError> {
    let mut groups = Vec::new(alloc);
    for key in 0..keys {
        let first = 10_000u32.saturating_add(key);
        let second = 11_000u32.saturating_add(key);
        let sum = first.saturating_add(second);
        let name = "a name that takes a block of its own,";
        groups.push(format!(in alloc; "; {key}:2,{sum},'{name} {first}','{name} {second}',2")?)?;
    }
    groups.sort()?;
    let rows = keys.saturating_mul(2);
    let mut text = format!(in alloc; "{rows} rows, {keys} groups")?;
    for group in groups.as_slice() {
        text.push_str(group.as_str())?;
    }
    Ok(text)
}

/// The groups of two rows for each of `keys` keys.
fn groups_in<H: KeyHash<Key> + Copy>(
    alloc: Global,
    hasher: H,
    order: Order,
    keys: u32,
) -> Result<Answer, Refusal> {
    let (Ok(rows), Ok(spec)) = (rows_in(alloc, order, keys), spec(alloc, &[0], ALL)) else {
        return Err(Refusal::Memory);
    };
    let mut store = MemStore::new(alloc);
    grouped_over(alloc, hasher, &spec, rows, &mut store, 1_000)
}

#[test]
fn groups_past_each_growth(rt: HostRuntime) -> Result<(), Fail> {
    let alloc = rt.alloc();
    for keys in [0, 1, 2, 3, 4, 6, 7, 12, 13, 25, 26, 51, 52, 102, 103, 205] {
        let due = due(alloc, keys)?;
        for order in [Order::InPairs, Order::InRounds] {
            let spread = text_of(alloc, groups_in(alloc, Fnv1a { seed: 0 }, order, keys))?;
            assert_eq!(rt; spread.as_str(), due.as_str(), "{keys} keys");
            let alike = text_of(alloc, groups_in(alloc, Constant(0), order, keys))?;
            assert_eq!(rt; alike.as_str(), due.as_str(), "{keys} keys");
        }
    }
    Ok(())
}

/// Groups thirty keys with more and more memory until all groups are there, and returns how often that failed.
fn refused_in(
    rt: &impl Abort,
    alloc: Global,
    starved: &mut Starved,
    order: Order,
    due: &str,
) -> Result<usize, Fail> {
    let mut refused = 0usize;
    for step in 0..POOLS {
        let kept = starved.leave(alloc, STEP.saturating_mul(step))?;
        let answer = groups_in(alloc, Fnv1a { seed: 0 }, order, 30);
        let is_whole = answer.is_ok();
        if let Err(why) = &answer {
            assert_eq!(rt; *why, Refusal::Memory, "step {step}");
        }
        drop(kept);
        if is_whole {
            assert_eq!(rt; text_of(alloc, answer)?.as_str(), due);
        }
        starved.end(alloc, Vec::new(alloc));
        if is_whole {
            break;
        }
        refused = refused.saturating_add(1);
    }
    Ok(refused)
}

/// Asserts that each allocation of a grouping fails in some step, and that all groups are there in the end.
fn assert_starved(rt: &impl Abort, alloc: Global, order: Order) -> Result<(), Fail> {
    // Once with enough memory, so that the stack has grown as far as runs need it.
    assert!(rt; groups_in(alloc, Fnv1a { seed: 0 }, order, 30).is_ok());
    let due = due(alloc, 30)?;
    let mut starved = Starved::new(alloc)?;
    let refused = refused_in(rt, alloc, &mut starved, order, due.as_str())?;
    assert!(rt; 100 < refused && refused < POOLS, "{refused} refused");
    Ok(())
}

#[test]
fn requests_refused_as_the_table_grows(rt: HostRuntime) -> Result<(), Fail> {
    assert_starved(&rt, rt.alloc(), Order::InPairs)
}

#[test]
fn requests_refused_where_room_is_made_at_once(rt: HostRuntime) -> Result<(), Fail> {
    assert_starved(&rt, rt.alloc(), Order::InRounds)
}
