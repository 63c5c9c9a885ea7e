//! The texts of errors.
use crate::expected::expect;
use std::alloc::Global;
use std::fmt::Display;
use std::process::Abort;
use std::test::Fail;
use sw_flat::RefusedKey;
use sw_table::{Refused, Why};

// Expects the text of an error.
fn expect_text<T: Display>(
    rt: &impl Abort,
    alloc: Global,
    shown: &T,
    due: &str,
) -> Result<(), Fail> {
    let text = format!(in alloc; "{shown}")?;
    expect(rt, text.as_str(), due);
    Ok(())
}

fn expect_texts(rt: &impl Abort, alloc: Global, why: Why, due: [&str; 3]) -> Result<(), Fail> {
    let [reason, of_entry, of_key] = due;
    let entry = Refused {
        key: 7u64,
        value: 70u64,
        why,
    };
    expect_text(rt, alloc, &why, reason)?;
    expect_text(rt, alloc, &entry, of_entry)?;
    expect_text(rt, alloc, &RefusedKey { key: 7u64, why }, of_key)
}

#[test]
fn of_each_refusal(rt: HostRuntime) -> Result<(), Fail> {
    expect_texts(
        &rt,
        rt.alloc(),
        Why::Memory,
        [
            "out of memory",
            "the entry was not placed: out of memory",
            "the key was not added: out of memory",
        ],
    )?;
    expect_texts(
        &rt,
        rt.alloc(),
        Why::Limit,
        [
            "the table would pass its greatest capacity",
            "the entry was not placed: the table would pass its greatest capacity",
            "the key was not added: the table would pass its greatest capacity",
        ],
    )
}
