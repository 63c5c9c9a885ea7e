//! Rows that match others.
use crate::groups::{row, spelling};
use gq_row::{Key, Value};
use gq_select::{KeySet, anti_join, semi_join};
use std::alloc::{AllocError, Global};
use std::test::Fail;
use sw_probe::{Constant, Fnv1a, KeyHash, LowBits};

/// Whether a row matches one of two others, by its column 1 and their column 0, and whether it matches none, as
/// two letters.
fn matched<H: KeyHash<Key> + Copy>(
    alloc: Global,
    hasher: H,
    others: (&[Value], &[Value]),
    row: &[Value],
) -> Result<&'static str, AllocError> {
    if others.0.len() < 2 || others.1.len() < 2 || row.len() < 2 {
        return Ok("short");
    }
    let keys = KeySet::build(alloc, hasher, &[others.0, others.1], &[0])?;
    match (semi_join(&keys, row, &[1]), anti_join(&keys, row, &[1])) {
        (true, false) => Ok("some"),
        (false, true) => Ok("none"),
        _ => Ok("both or neither"),
    }
}

#[test]
fn one_column(rt: HostRuntime) -> Result<(), Fail> {
    let alloc = rt.alloc();
    let one = row(alloc, &[Some(1), Some(7)])?;
    let null = row(alloc, &[None, Some(2)])?;
    for (value, due) in [
        (Some(1), "some"),
        (None, "none"),
        (Some(2), "none"),
        (Some(7), "none"),
    ] {
        let row = row(alloc, &[Some(1), value])?;
        let (others, row) = ((one.cells(), null.cells()), row.cells());
        assert_eq!(rt; matched(alloc, Fnv1a { seed: 0 }, others, row)?, due);
        assert_eq!(rt; matched(alloc, Constant(0), others, row)?, due);
        assert_eq!(rt; matched(alloc, LowBits(7), others, row)?, due);
    }
    Ok(())
}

/// Adds the key of a row in column 1.
fn add_last<H: KeyHash<Key> + Copy>(keys: &mut KeySet<H>, row: &[Value]) -> Result<(), AllocError> {
    if row.len() < 2 {
        return Err(AllocError);
    }
    keys.add(row, &[1])
}

#[test]
fn texts_without_case(rt: HostRuntime) -> Result<(), Fail> {
    let alloc = rt.alloc();
    let mut keys = KeySet::new(alloc, Constant(0));
    for chars in ["Oslo", "ROME", "\u{c9}"] {
        add_last(&mut keys, spelling(alloc, 1, chars)?.cells())?;
    }
    for (chars, due) in [
        ("OSLO", true),
        ("rome", true),
        ("\u{c9}", true),
        ("\u{e9}", false),
        ("Bern", false),
    ] {
        let row = spelling(alloc, 2, chars)?;
        let row = row.cells();
        if row.len() >= 2 {
            assert_eq!(rt; semi_join(&keys, row, &[1]), due);
            assert_eq!(rt; anti_join(&keys, row, &[1]), !due);
        }
    }
    Ok(())
}

/// Adds the key of a row in the columns 0 and 1.
fn add_both<H: KeyHash<Key> + Copy>(keys: &mut KeySet<H>, row: &[Value]) -> Result<(), AllocError> {
    if row.len() < 2 {
        return Err(AllocError);
    }
    keys.add(row, &[0, 1])
}

#[test]
fn two_columns_in_each_order(rt: HostRuntime) -> Result<(), Fail> {
    let alloc = rt.alloc();
    let mut keys = KeySet::new(alloc, Constant(0));
    for values in [
        [Some(1), Some(2)],
        [Some(1), Some(2)],
        [Some(3), None],
        [None, None],
    ] {
        add_both(&mut keys, row(alloc, &values)?.cells())?;
    }
    for (values, straight, crossed) in [
        ([Some(1), Some(2)], true, false),
        ([Some(2), Some(1)], false, true),
        ([Some(1), Some(1)], false, false),
        ([Some(3), None], false, false),
        ([None, None], false, false),
    ] {
        let row = row(alloc, &values)?;
        let row = row.cells();
        if row.len() >= 2 {
            assert_eq!(rt; semi_join(&keys, row, &[0, 1]), straight);
            assert_eq!(rt; semi_join(&keys, row, &[1, 0]), crossed);
            assert_eq!(rt; anti_join(&keys, row, &[0, 1]), !straight);
            assert_eq!(rt; anti_join(&keys, row, &[1, 0]), !crossed);
        }
    }
    Ok(())
}
