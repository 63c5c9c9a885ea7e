//! The distinct keys of rows.
ghost use Rattle.std.specs.Prelude.{◌≡◌};
ghost use Rattle.std.specs.List.{list_all};
ghost use Rattle.gq_group.specs.Groups.{has_columns as columns_there};

use crate::groups::{Answer, Rows, are_even, rows_of, text_of};
use crate::list_sink::ListSink;
use crate::list_source::ListSource;
use gq_group::{Budget, Refusal};
use gq_row::{Key, Row};
use gq_select::distinct;
use gq_spill::{MemStore, RunStore};
use std::alloc::{AllocError, Global};
use std::collections::VecDeque;
use std::process::Abort;
use std::test::Fail;
use sw_probe::{Constant, Fnv1a, KeyHash, LowBits};

fn has_columns(columns: &[usize], row: &Row) -> bool
    ensures { result ≡ columns_there columns.now row.now }
{
    columns.iter().all(|column| *column < row.len())
}

fn have_columns(columns: &[usize], rows: &VecDeque<Row>) -> bool
    ensures { result ≡ list_all (columns_there columns.now) rows.now.items }
{
    rows.iter().all(|row| has_columns(columns, row))
}

/// The distinct keys of rows within a budget of `entries` entries, spelled out and sorted.
fn keys<H: KeyHash<Key> + Copy>(
    alloc: Global,
    hasher: H,
    columns: &[usize],
    rows: VecDeque<Row>,
    entries: u32,
) -> Result<Answer, Refusal> {
    let mut store = MemStore::new(alloc);
    keys_over(alloc, hasher, columns, rows, &mut store, entries)
}

/// As `keys`, over a store.
pub(crate) fn keys_over<H: KeyHash<Key> + Copy, S: RunStore>(
    alloc: Global,
    hasher: H,
    columns: &[usize],
    rows: VecDeque<Row>,
    store: &mut S,
    entries: u32,
) -> Result<Answer, Refusal> {
    let Some(budget) = Budget::new(entries) else {
        return Err(Refusal::Memory);
    };
    let Ok(by) = Vec::from_slice(alloc, columns) else {
        return Err(Refusal::Memory);
    };
    let fits = have_columns(by.as_slice(), &rows) && are_even(&rows);
    if by.is_empty() || rows.len() > 1_000_000 || !fits {
        return Err(Refusal::Damaged);
    }
    let mut source = ListSource { rows };
    let mut sink = ListSink {
        alloc,
        groups: Vec::new(alloc),
    };
    let spent = distinct(alloc, hasher, by, &mut source, &mut sink, store, budget)?;
    let ListSink { mut groups, .. } = sink;
    if groups.sort().is_err() {
        return Err(Refusal::Memory);
    }
    Ok(Answer { spent, groups })
}

/// The keys under a hasher that spreads keys, one in between, and one with one hash for all, the last within a
/// budget of one, two and seven.
fn by_each_hasher(alloc: Global, columns: &[usize], rows: Rows) -> Result<Vec<String>, AllocError> {
    let spread = keys(alloc, Fnv1a { seed: 0 }, columns, rows_of(alloc, rows)?, 2);
    let between = keys(alloc, LowBits(7), columns, rows_of(alloc, rows)?, 2);
    let mut answers = Vec::new(alloc);
    answers.push(text_of(alloc, spread)?)?;
    answers.push(text_of(alloc, between)?)?;
    for entries in [1, 2, 7] {
        let alike = keys(alloc, Constant(0), columns, rows_of(alloc, rows)?, entries);
        answers.push(text_of(alloc, alike)?)?;
    }
    Ok(answers)
}

/// Rows, the columns of their keys, and the expected keys.
type Case<'a> = (Rows, &'a [usize], &'a str);

const CASES: [Case; 8] = [
    (Rows::Worked, &[0], "4 rows, 2 groups; 1:; 2:"),
    (Rows::Worked, &[1], "4 rows, 3 groups; 5:; 7:; null:"),
    (
        Rows::Worked,
        &[1, 0],
        "4 rows, 3 groups; 5,1:; 7,2:; null,1:",
    ),
    (
        Rows::NullsAndEmptyTexts,
        &[1],
        "5 rows, 2 groups; '':; null:",
    ),
    (
        Rows::Spellings,
        &[1],
        "7 rows, 4 groups; ~'oslo':; ~'rome':; ~'\u{c9}':; ~'\u{e9}':",
    ),
    (Rows::PastTheEdge, &[0], "2 rows, 1 groups; 1:"),
    (Rows::None, &[0], "0 rows, 0 groups"),
    (
        Rows::Tens,
        &[1],
        "30 rows, 10 groups; 0:; 1:; 2:; 3:; 4:; 5:; 6:; 7:; 8:; 9:",
    ),
];

/// Asserts that each case has the expected keys under each hasher and budget.
fn assert_cases(rt: &impl Abort, alloc: Global, cases: &[Case]) -> Result<(), Fail> {
    for (rows, columns, due) in cases {
        for found in by_each_hasher(alloc, columns, *rows)?.as_slice() {
            assert_eq!(rt; found.as_str(), *due);
        }
    }
    Ok(())
}

#[test]
fn worked_keys(rt: HostRuntime) -> Result<(), Fail> {
    assert_cases(&rt, rt.alloc(), &CASES)
}
