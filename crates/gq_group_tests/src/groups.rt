//! Groups of rows.
ghost use Rattle.std.specs.Prelude.{◌≡◌, ◌==◌, IsTrue, length};
ghost use Rattle.std.specs.List.{list_all};
ghost use Rattle.gq_group.specs.Groups.{all_fit, OneWidth};

use crate::list_sink::ListSink;
use crate::list_source::ListSource;
use gq_agg::AggKind;
use gq_group::{Budget, GroupSpec, Refusal, Spent, group};
use gq_row::{Key, Row, Text, Value};
use gq_spill::{MemStore, RunStore};
use std::alloc::{AllocError, Global};
use std::collections::VecDeque;
use std::process::Abort;
use std::test::Fail;
use sw_probe::{Constant, Fnv1a, KeyHash, LowBits};

/// The result of a grouping.
#[derive(Drop)]
pub(crate) struct Answer {
    pub(crate) spent: Spent,
    pub(crate) groups: Vec<String>,
}

fn fit(spec: &GroupSpec, rows: &VecDeque<Row>) -> bool
    ensures { result ≡ all_fit spec.now rows.now.items }
{
    rows.iter().all(|row| spec.fits(row))
}

// Whether all rows have this length.
fn are_long(columns: usize, rows: &VecDeque<Row>) -> bool
    ensures { result ≡ list_all (λ row. length row == columns) rows.now.items }
{
    rows.iter().all(|row| row.len() == columns)
}

/// Whether all rows are as long as the first.
#[tactic(auto, using(gq_group::proofs::Widths::width_told))]
pub(crate) fn are_even(rows: &VecDeque<Row>) -> bool
    ensures { IsTrue result → OneWidth rows.now.items }
{
    let columns = match rows.front() {
        Some(row) => row.len(),
        None => 0,
    };
    are_long(columns, rows)
}

/// The groups of rows within a budget of two, spelled out and sorted.
fn grouped<H: KeyHash<Key> + Copy>(
    alloc: Global,
    hasher: H,
    spec: &GroupSpec,
    rows: VecDeque<Row>,
) -> Result<Answer, Refusal> {
    let mut store = MemStore::new(alloc);
    grouped_over(alloc, hasher, spec, rows, &mut store, 2)
}

/// As `grouped`, over a store and within a budget of `entries` entries.
pub(crate) fn grouped_over<H: KeyHash<Key> + Copy, S: RunStore>(
    alloc: Global,
    hasher: H,
    spec: &GroupSpec,
    rows: VecDeque<Row>,
    store: &mut S,
    entries: u32,
) -> Result<Answer, Refusal> {
    let Some(budget) = Budget::new(entries) else {
        return Err(Refusal::Memory);
    };
    if rows.len() > 1_000_000 || !fit(spec, &rows) || !are_even(&rows) {
        return Err(Refusal::Damaged);
    }
    let mut source = ListSource { rows };
    let mut sink = ListSink {
        alloc,
        groups: Vec::new(alloc),
    };
    let spent = group(alloc, hasher, spec, &mut source, &mut sink, store, budget)?;
    let ListSink { mut groups, .. } = sink;
    if groups.sort().is_err() {
        return Err(Refusal::Memory);
    }
    Ok(Answer { spent, groups })
}

/// The result of a grouping as text: the numbers of rows and of groups, and then each group.
pub(crate) fn text_of(alloc: Global, found: Result<Answer, Refusal>) -> Result<String, AllocError> {
    let mut out = String::new(alloc);
    match found {
        Ok(answer) => {
            let Answer { spent, groups } = answer;
            let (rows, count) = (spent.rows_read, spent.groups);
            out.push_str(format!(in alloc; "{rows} rows, {count} groups")?.as_str())?;
            for group in groups.as_slice() {
                out.push_str("; ")?;
                out.push_str(group.as_str())?;
            }
        }
        Err(refusal) => out.push_str(format!(in alloc; "{refusal}")?.as_str())?,
    }
    Ok(out)
}

/// Some rows.
#[derive(Clone, Copy)]
pub(crate) enum Rows {
    None,
    Worked,
    Shared,
    NullsAlone,
    NullsAndEmptyTexts,
    Spellings,
    PastTheEdge,
    AtTheEdge,
    Remainders,
    Tens,
}

pub(crate) fn row(alloc: Global, values: &[Option<i64>]) -> Result<Row, AllocError> {
    let mut cells = Vec::new(alloc);
    for value in values {
        cells.push(match value {
            Some(n) => Value::Int(*n),
            None => Value::Null,
        })?;
    }
    Ok(Row::new(cells))
}

fn named(alloc: Global, n: i64, name: Option<&str>) -> Result<Row, AllocError> {
    let name = match name {
        Some(chars) => Value::Text(Text::of(alloc, chars)?),
        None => Value::Null,
    };
    Ok(Row::new(vec![in alloc; Value::Int(n), name]?))
}

pub(crate) fn spelling(alloc: Global, n: i64, chars: &str) -> Result<Row, AllocError> {
    let name = Value::NoCase(Text::of(alloc, chars)?);
    Ok(Row::new(vec![in alloc; Value::Int(n), name]?))
}

/// The numbers below `end`, each with its remainder by another.
fn remainders(alloc: Global, end: i64, by: i64) -> Result<VecDeque<Row>, AllocError> {
    let mut list = VecDeque::new(alloc);
    for n in 0..end {
        list.push_back(row(alloc, &[Some(n), n.checked_rem(by)])?)?;
    }
    Ok(list)
}

type Numbers = &'static [&'static [Option<i64>]];

const WORKED: Numbers = &[
    &[Some(1), Some(5)],
    &[Some(1), Some(5)],
    &[Some(1), None],
    &[Some(2), Some(7)],
];

const SHARED: Numbers = &[
    &[Some(1), Some(5)],
    &[Some(2), Some(5)],
    &[Some(1), Some(5)],
    &[Some(2), Some(6)],
];

const NULLS_ALONE: Numbers = &[&[Some(1), None], &[Some(1), None], &[Some(2), None]];

const PAST_THE_EDGE: Numbers = &[&[Some(1), Some(i64::MAX)], &[Some(1), Some(1)]];

const AT_THE_EDGE: Numbers = &[
    &[Some(1), Some(i64::MAX)],
    &[Some(1), Some(1)],
    &[Some(1), Some(-1)],
];

const NULLS_AND_EMPTY_TEXTS: [(i64, Option<&str>); 5] = [
    (1, None),
    (2, None),
    (3, None),
    (4, Some("")),
    (5, Some("")),
];

const SPELLINGS: [(i64, &str); 7] = [
    (1, "Oslo"),
    (2, "rome"),
    (3, "OSLO"),
    (4, "\u{c9}"),
    (5, "Rome"),
    (6, "\u{e9}"),
    (7, "oslo"),
];

fn rows_of_numbers(alloc: Global, table: Numbers) -> Result<VecDeque<Row>, AllocError> {
    let mut list = VecDeque::new(alloc);
    for values in table {
        list.push_back(row(alloc, values)?)?;
    }
    Ok(list)
}

fn named_rows(alloc: Global, table: &[(i64, Option<&str>)]) -> Result<VecDeque<Row>, AllocError> {
    let mut list = VecDeque::new(alloc);
    for (n, name) in table {
        list.push_back(named(alloc, *n, *name)?)?;
    }
    Ok(list)
}

fn spelled_rows(alloc: Global, table: &[(i64, &str)]) -> Result<VecDeque<Row>, AllocError> {
    let mut list = VecDeque::new(alloc);
    for (n, chars) in table {
        list.push_back(spelling(alloc, *n, chars)?)?;
    }
    Ok(list)
}

pub(crate) fn rows_of(alloc: Global, rows: Rows) -> Result<VecDeque<Row>, AllocError> {
    match rows {
        Rows::None => Ok(VecDeque::new(alloc)),
        Rows::Worked => rows_of_numbers(alloc, WORKED),
        Rows::Shared => rows_of_numbers(alloc, SHARED),
        Rows::NullsAlone => rows_of_numbers(alloc, NULLS_ALONE),
        Rows::NullsAndEmptyTexts => named_rows(alloc, &NULLS_AND_EMPTY_TEXTS),
        Rows::Spellings => spelled_rows(alloc, &SPELLINGS),
        Rows::PastTheEdge => rows_of_numbers(alloc, PAST_THE_EDGE),
        Rows::AtTheEdge => rows_of_numbers(alloc, AT_THE_EDGE),
        Rows::Remainders => remainders(alloc, 500, 50),
        Rows::Tens => remainders(alloc, 30, 10),
    }
}

pub(crate) fn spec(
    alloc: Global,
    by: &[usize],
    aggs: &[(AggKind, usize)],
) -> Result<GroupSpec, AllocError> {
    Ok(GroupSpec::new(Vec::from_slice(alloc, by)?, Vec::from_slice(alloc, aggs)?))
}

/// The results of a grouping under a hasher that spreads keys, one with one hash for all, and one in between.
fn by_each_hasher(alloc: Global, spec: &GroupSpec, rows: Rows) -> Result<Vec<String>, AllocError> {
    let spread = grouped(alloc, Fnv1a { seed: 0 }, spec, rows_of(alloc, rows)?);
    let alike = grouped(alloc, Constant(0), spec, rows_of(alloc, rows)?);
    let between = grouped(alloc, LowBits(7), spec, rows_of(alloc, rows)?);
    let mut answers = Vec::new(alloc);
    answers.push(text_of(alloc, spread)?)?;
    answers.push(text_of(alloc, alike)?)?;
    answers.push(text_of(alloc, between)?)?;
    Ok(answers)
}

/// Rows, the columns that they are grouped by, the aggregates of each group, and the expected result.
type Case<'a> = (Rows, &'a [usize], &'a [(AggKind, usize)], &'a str);

const COUNT: &[(AggKind, usize)] = &[(AggKind::Count, 1)];

const COUNT_AND_SUM: &[(AggKind, usize)] = &[(AggKind::CountAll, 0), (AggKind::Sum, 1)];

const COUNTS: &[(AggKind, usize)] = &[(AggKind::CountAll, 0), (AggKind::CountAll, 99)];

const COUNTS_BETWEEN: &[(AggKind, usize)] = &[
    (AggKind::Sum, 1),
    (AggKind::CountAll, 0),
    (AggKind::Max, 0),
    (AggKind::CountAll, 99),
    (AggKind::Count, 1),
];

const ALL: &[(AggKind, usize)] = &[
    (AggKind::CountAll, 99),
    (AggKind::Count, 1),
    (AggKind::Sum, 1),
    (AggKind::Min, 1),
    (AggKind::Max, 0),
];

const CASES: [Case; 14] = [
    (Rows::Worked, &[0], COUNT, "4 rows, 2 groups; 1:2; 2:1"),
    (
        Rows::Worked,
        &[0],
        ALL,
        "4 rows, 2 groups; 1:3,2,10,5,1; 2:1,1,7,7,2",
    ),
    (Rows::Worked, &[], ALL, "4 rows, 1 groups; :4,3,17,5,2"),
    (
        Rows::Worked,
        &[1, 0],
        &[],
        "4 rows, 3 groups; 5,1:; 7,2:; null,1:",
    ),
    (Rows::Worked, &[0], COUNTS, "4 rows, 2 groups; 1:3,3; 2:1,1"),
    (
        Rows::Worked,
        &[0],
        COUNTS_BETWEEN,
        "4 rows, 2 groups; 1:10,3,1,3,2; 2:7,1,2,1,1",
    ),
    (Rows::None, &[], COUNTS, "0 rows, 1 groups; :0,0"),
    (Rows::None, &[], COUNT_AND_SUM, "0 rows, 1 groups; :0,null"),
    (Rows::None, &[0], COUNT_AND_SUM, "0 rows, 0 groups"),
    (
        Rows::NullsAndEmptyTexts,
        &[1],
        &[(AggKind::CountAll, 0)],
        "5 rows, 2 groups; '':2; null:3",
    ),
    (
        Rows::Spellings,
        &[1],
        &[(AggKind::CountAll, 0), (AggKind::Min, 1), (AggKind::Max, 1)],
        "7 rows, 4 groups; ~'oslo':3,~'OSLO',~'oslo'; ~'rome':2,~'Rome',~'rome'; \
         ~'\u{c9}':1,~'\u{c9}',~'\u{c9}'; ~'\u{e9}':1,~'\u{e9}',~'\u{e9}'",
    ),
    (
        Rows::Spellings,
        &[],
        &[(AggKind::Min, 1), (AggKind::Max, 1), (AggKind::Count, 1)],
        "7 rows, 1 groups; :~'OSLO',~'\u{e9}',7",
    ),
    (
        Rows::PastTheEdge,
        &[0],
        COUNT_AND_SUM,
        "a sum is out of range",
    ),
    (
        Rows::AtTheEdge,
        &[0],
        COUNT_AND_SUM,
        "3 rows, 1 groups; 1:3,9223372036854775807",
    ),
];

/// Asserts that each case has the expected result under each hasher.
fn assert_cases(rt: &impl Abort, alloc: Global, cases: &[Case]) -> Result<(), Fail> {
    for (rows, by, aggs, due) in cases {
        let spec = spec(alloc, by, aggs)?;
        for found in by_each_hasher(alloc, &spec, *rows)?.as_slice() {
            assert_eq!(rt; found.as_str(), *due);
        }
    }
    Ok(())
}

#[test]
fn worked_groups(rt: HostRuntime) -> Result<(), Fail> {
    assert_cases(&rt, rt.alloc(), &CASES)
}

/// The numbers 0 to 49, each with the count and the sum of the numbers below 500 whose remainder by 50 it is.
fn fifty(alloc: Global) -> Result<Vec<String>, AllocError> {
    let mut groups = Vec::new(alloc);
    for g in 0..50u8 {
        let sum = 10 * i64::from(g) + 2250;
        groups.push(format!(in alloc; "{g}:10,{sum}")?)?;
    }
    groups.sort()?;
    Ok(groups)
}

/// The result of counting and summing by these remainders.
pub(crate) fn fifty_text(alloc: Global) -> Result<String, AllocError> {
    let mut text = String::from_str(alloc, "500 rows, 50 groups")?;
    for group in fifty(alloc)?.as_slice() {
        text.push_str("; ")?;
        text.push_str(group.as_str())?;
    }
    Ok(text)
}

/// The count and the sum of the numbers of each remainder.
pub(crate) fn counts_and_sums(alloc: Global) -> Result<GroupSpec, AllocError> {
    spec(alloc, &[1], &[(AggKind::CountAll, 0), (AggKind::Sum, 0)])
}

#[test]
fn five_hundred_rows_in_fifty_groups(rt: HostRuntime) -> Result<(), Fail> {
    let alloc = rt.alloc();
    let spec = counts_and_sums(alloc)?;
    let due = fifty_text(alloc)?;
    for found in by_each_hasher(alloc, &spec, Rows::Remainders)?.as_slice() {
        assert_eq!(rt; found.as_str(), due.as_str());
    }
    Ok(())
}
