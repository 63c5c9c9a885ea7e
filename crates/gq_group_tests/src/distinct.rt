//! Counts of distinct values.
ghost use Rattle.std.specs.Prelude.{◌≡◌};
ghost use Rattle.gq_group.specs.Distinct.{all_have};
ghost use Rattle.gq_group.specs.Groups.{has_columns as columns_there};

use crate::groups::{Answer, Rows, are_even, rows_of, text_of};
use crate::list_sink::ListSink;
use crate::list_source::ListSource;
use gq_group::{Budget, Refusal, group_distinct};
use gq_row::{Key, Row};
use gq_spill::{MemStore, RunStore};
use std::alloc::{AllocError, Global};
use std::collections::VecDeque;
use std::process::Abort;
use std::test::Fail;
use sw_probe::{Constant, Fnv1a, KeyHash, LowBits};

fn has_columns(columns: &[usize], row: &Row) -> bool
    ensures { result ≡ columns_there columns.now row.now }
{
    columns.iter().all(|column| *column < row.len())
}

fn have_columns(columns: &[usize], rows: &VecDeque<Row>) -> bool
    ensures { result ≡ all_have columns.now rows.now.items }
{
    rows.iter().all(|row| has_columns(columns, row))
}

/// The columns of the keys, and the column whose distinct values are counted.
#[derive(Clone, Copy)]
pub(crate) struct CountedColumns<'a> {
    pub by: &'a [usize],
    pub counted: usize,
}

/// The counts of distinct values of a column within a budget of `entries` entries, spelled out and sorted.
fn counted<H: KeyHash<Key> + Copy>(
    alloc: Global,
    hasher: H,
    columns: CountedColumns<'_>,
    rows: VecDeque<Row>,
    entries: u32,
) -> Result<Answer, Refusal> {
    let mut store = MemStore::new(alloc);
    counted_over(alloc, hasher, columns, rows, &mut store, entries)
}

/// As `counted`, over a store.
pub(crate) fn counted_over<H: KeyHash<Key> + Copy, S: RunStore>(
    alloc: Global,
    hasher: H,
    columns: CountedColumns<'_>,
    rows: VecDeque<Row>,
    store: &mut S,
    entries: u32,
) -> Result<Answer, Refusal> {
    let CountedColumns { by, counted } = columns;
    let Some(budget) = Budget::new(entries) else {
        return Err(Refusal::Memory);
    };
    let Ok(mut read) = Vec::from_slice(alloc, by) else {
        return Err(Refusal::Memory);
    };
    let Ok(()) = read.push(counted) else {
        return Err(Refusal::Memory);
    };
    let fits = have_columns(read.as_slice(), &rows) && are_even(&rows);
    if rows.len() > 1_000_000 || !fits {
        return Err(Refusal::Damaged);
    }
    let mut source = ListSource { rows };
    let mut sink = ListSink {
        alloc,
        groups: Vec::new(alloc),
    };
    let spent = group_distinct(
        alloc,
        hasher,
        by,
        counted,
        &mut source,
        &mut sink,
        store,
        budget,
    )?;
    let ListSink { mut groups, .. } = sink;
    if groups.sort().is_err() {
        return Err(Refusal::Memory);
    }
    Ok(Answer { spent, groups })
}

/// The counts under a hasher that spreads keys, one in between, and one with one hash for all, the last within
/// a budget of one, two and seven.
fn by_each_hasher(
    alloc: Global,
    columns: CountedColumns<'_>,
    rows: Rows,
) -> Result<Vec<String>, AllocError> {
    let list = rows_of(alloc, rows)?;
    let spread = counted(alloc, Fnv1a { seed: 0 }, columns, list, 2);
    let between = counted(alloc, LowBits(7), columns, rows_of(alloc, rows)?, 2);
    let mut answers = Vec::new(alloc);
    answers.push(text_of(alloc, spread)?)?;
    answers.push(text_of(alloc, between)?)?;
    for entries in [1, 2, 7] {
        let list = rows_of(alloc, rows)?;
        let alike = counted(alloc, Constant(0), columns, list, entries);
        answers.push(text_of(alloc, alike)?)?;
    }
    Ok(answers)
}

/// Rows, the columns of their keys, the column whose values are counted, and the expected counts.
type Case<'a> = (Rows, &'a [usize], usize, &'a str);

const CASES: [Case; 19] = [
    (Rows::Worked, &[0], 1, "4 rows, 2 groups; 1:1; 2:1"),
    (Rows::Worked, &[], 1, "4 rows, 1 groups; :2"),
    (Rows::Worked, &[1], 1, "4 rows, 3 groups; 5:1; 7:1; null:0"),
    (
        Rows::Worked,
        &[1, 0],
        0,
        "4 rows, 3 groups; 5,1:1; 7,2:1; null,1:1",
    ),
    (Rows::Shared, &[0], 1, "4 rows, 2 groups; 1:1; 2:2"),
    (Rows::Shared, &[], 1, "4 rows, 1 groups; :2"),
    (Rows::Shared, &[1], 0, "4 rows, 2 groups; 5:2; 6:1"),
    (Rows::NullsAlone, &[0], 1, "3 rows, 2 groups; 1:0; 2:0"),
    (Rows::NullsAlone, &[], 1, "3 rows, 1 groups; :0"),
    (Rows::NullsAlone, &[1], 0, "3 rows, 1 groups; null:2"),
    (Rows::None, &[], 1, "0 rows, 1 groups; :0"),
    (Rows::None, &[0], 1, "0 rows, 0 groups"),
    (
        Rows::NullsAndEmptyTexts,
        &[1],
        0,
        "5 rows, 2 groups; '':2; null:3",
    ),
    (Rows::NullsAndEmptyTexts, &[], 1, "5 rows, 1 groups; :1"),
    (
        Rows::Spellings,
        &[1],
        0,
        "7 rows, 4 groups; ~'oslo':3; ~'rome':2; ~'\u{c9}':1; ~'\u{e9}':1",
    ),
    (Rows::Spellings, &[], 1, "7 rows, 1 groups; :4"),
    (Rows::Remainders, &[], 1, "500 rows, 1 groups; :50"),
    (Rows::Remainders, &[], 0, "500 rows, 1 groups; :500"),
    (
        Rows::Tens,
        &[1],
        0,
        "30 rows, 10 groups; 0:3; 1:3; 2:3; 3:3; 4:3; 5:3; 6:3; 7:3; 8:3; 9:3",
    ),
];

/// Asserts that each case has the expected counts under each hasher and budget.
fn assert_cases(rt: &impl Abort, alloc: Global, cases: &[Case]) -> Result<(), Fail> {
    for (rows, by, counted, due) in cases {
        let columns = CountedColumns {
            by,
            counted: *counted,
        };
        for found in by_each_hasher(alloc, columns, *rows)?.as_slice() {
            assert_eq!(rt; found.as_str(), *due);
        }
    }
    Ok(())
}

#[test]
fn worked_counts(rt: HostRuntime) -> Result<(), Fail> {
    assert_cases(&rt, rt.alloc(), &CASES)
}
