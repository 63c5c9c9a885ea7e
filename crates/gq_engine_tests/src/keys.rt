//! Keys hashed and compared, owned and borrowed, with ample memory. Another program computed the
//! expected hashes from the bytes that are given here.
use crate::expected::{expect, expect_at};
use crate::plain::{Plain, are, row_of, values_of};
use gq_row::{Key, KeyCells, KeyRef, Row, Value};
use std::alloc::{AllocError, Global};
use std::mem::size_of;
use std::process::Abort;
use std::test::Fail;
use sw_probe::{Fnv1a, KeyHash, Names};

/// Null, -1 and `Oslo`.
const WORKED: [Plain; 3] = [Plain::Null, Plain::Int(-1), Plain::Text("Oslo")];

/// FNV-1a over 00, 01 ffffffffffffffff, 02 00000004 4f736c6f.
const WHOLE: u64 = 0x24ee_2c99_d176_32ab;

fn expect_hash<Q: Names<Key>>(rt: &impl Abort, seed: u64, key: &Q, due: u64) {
    let hash = <Fnv1a as KeyHash<Key>>::hash(&Fnv1a { seed }, key);
    expect_at(rt, seed, hash, due);
}

/// The hash of the whole row, as an owned key and as cells.
fn expect_whole(rt: &impl Abort, alloc: Global, row: &Row) -> Result<(), AllocError> {
    assert!(rt; row.len() == 3);
    let key = Key::of(alloc, row.cells(), &[0, 1, 2])?;
    expect_hash(rt, 0, &key, WHOLE);
    expect_hash(rt, 7, &key, 0x7dfc_2a47_4bdc_0e1e);
    expect_hash(rt, 0, &KeyCells(row.cells()), WHOLE);
    Ok(())
}

/// Hashes of borrowed columns of the row: of all; of two in another order, over 02 00000004
/// 4f736c6f, 00; and of none.
fn expect_borrowed(rt: &impl Abort, row: &Row) {
    assert!(rt; row.len() == 3);
    expect_hash(rt, 0, &KeyRef::new(row.cells(), &[0, 1, 2]), WHOLE);
    expect_hash(
        rt,
        0,
        &KeyRef::new(row.cells(), &[2, 0]),
        0x5f59_5b64_154a_6212,
    );
    expect_hash(rt, 0, &KeyRef::new(row.cells(), &[]), 0xcbf2_9ce4_8422_2325);
}

fn expect_cells(
    rt: &impl Abort,
    alloc: Global,
    plain: &[Plain],
    due: u64,
) -> Result<(), AllocError> {
    let cells = values_of(alloc, plain)?;
    expect_hash(rt, 0, &KeyCells(cells.as_slice()), due);
    Ok(())
}

/// The hashes of the row, and those over 00 and over 02 00000000.
#[test]
fn worked_hashes(rt: HostRuntime) -> Result<(), Fail> {
    let row = row_of(rt.alloc(), &WORKED)?;
    expect_whole(&rt, rt.alloc(), &row)?;
    expect_borrowed(&rt, &row);
    expect_cells(&rt, rt.alloc(), &[Plain::Null], 0xaf63_bd4c_8601_b7df)?;
    expect_cells(&rt, rt.alloc(), &[Plain::Text("")], 0xfe1a_162e_1fca_be15)?;
    Ok(())
}

/// FNV-1a over 03 00000004 6f736c6f, 02 00000004 4f736c6f: a text without case, and one with it.
const FOLDED: u64 = 0x4745_8fb2_1ffb_f272;

/// The hash of a row of both, in each form.
fn expect_folded(rt: &impl Abort, alloc: Global, row: &Row) -> Result<(), AllocError> {
    assert!(rt; row.len() == 2);
    expect_hash(rt, 0, &Key::of(alloc, row.cells(), &[0, 1])?, FOLDED);
    expect_hash(rt, 0, &KeyRef::new(row.cells(), &[0, 1]), FOLDED);
    expect_hash(rt, 0, &KeyCells(row.cells()), FOLDED);
    Ok(())
}

/// The hash of each spelling, and those over 03 00000000, 03 00000002 c389 and 03 00000002 c3a9.
#[test]
fn hashes_without_case(rt: HostRuntime) -> Result<(), Fail> {
    let alloc = rt.alloc();
    for chars in ["Oslo", "OSLO", "oslo"] {
        let row = row_of(alloc, &[Plain::NoCase(chars), Plain::Text("Oslo")])?;
        expect_folded(&rt, alloc, &row)?;
    }
    expect_cells(&rt, alloc, &[Plain::NoCase("")], 0xf16b_3303_a27b_53b2)?;
    expect_cells(
        &rt,
        alloc,
        &[Plain::NoCase("\u{c9}")],
        0x2c6d_c89e_ff4b_cb1c,
    )?;
    expect_cells(
        &rt,
        alloc,
        &[Plain::NoCase("\u{e9}")],
        0x2c6d_a89e_ff4b_94bc,
    )?;
    Ok(())
}

fn expect_same<Q: Names<Key>>(rt: &impl Abort, asked: &Q, key: &Key, due: bool) {
    expect(rt, asked.same(key), due);
}

/// The key is the row's last column and the one before it.
fn expect_turned(rt: &impl Abort, row: &Row, key: &Key) {
    assert!(rt; row.len() == 3);
    expect_same(rt, &KeyRef::new(row.cells(), &[2, 1]), key, true);
    expect_same(rt, &KeyRef::new(row.cells(), &[1, 2]), key, false);
    expect_same(rt, &KeyRef::new(row.cells(), &[2]), key, false);
    expect_same(rt, &KeyRef::new(row.cells(), &[2, 1, 0]), key, false);
    expect_same(rt, &KeyCells(key.cells()), key, true);
    expect_same(rt, &KeyCells(row.cells()), key, false);
}

#[test]
fn same_in_each_form(rt: HostRuntime) -> Result<(), Fail> {
    let row = row_of(rt.alloc(), &WORKED)?;
    assert!(rt; row.len() == 3);
    expect_turned(&rt, &row, &Key::of(rt.alloc(), row.cells(), &[2, 1])?);
    let null = Key::of(rt.alloc(), row.cells(), &[0])?;
    expect_same(&rt, &KeyCells(&[Value::Null]), &null, true);
    expect_same(&rt, &KeyCells(&[Value::Int(0)]), &null, false);
    Ok(())
}

/// Whether a row's only value equals the key, in each form.
fn expect_spelled(
    rt: &impl Abort,
    alloc: Global,
    row: &Row,
    key: &Key,
    due: bool,
) -> Result<(), AllocError> {
    assert!(rt; row.len() == 1);
    expect_same(rt, &Key::of(alloc, row.cells(), &[0])?, key, due);
    expect_same(rt, &KeyRef::new(row.cells(), &[0]), key, due);
    expect_same(rt, &KeyCells(row.cells()), key, due);
    Ok(())
}

#[test]
fn spellings_are_one_key(rt: HostRuntime) -> Result<(), Fail> {
    let alloc = rt.alloc();
    let row = row_of(alloc, &[Plain::NoCase("Oslo")])?;
    assert!(rt; row.len() == 1);
    let key = Key::of(alloc, row.cells(), &[0])?;
    assert!(rt; are(key.cells(), &[Plain::NoCase("oslo")]));
    for (plain, due) in [
        (Plain::NoCase("Oslo"), true),
        (Plain::NoCase("OSLO"), true),
        (Plain::NoCase("oslo"), true),
        (Plain::NoCase("Osl"), false),
        (Plain::NoCase("Osl@"), false),
        (Plain::Text("oslo"), false),
    ] {
        expect_spelled(&rt, alloc, &row_of(alloc, &[plain])?, &key, due)?;
    }
    Ok(())
}

/// A key of two columns is stored whole in its slot.
#[test]
fn sizes(rt: HostRuntime) {
    expect(&rt, size_of::<Value>(), 32);
    expect(&rt, size_of::<(Key, Row)>(), 96);
}
