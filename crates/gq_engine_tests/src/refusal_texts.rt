//! The texts of errors, written by hand.
use crate::expected::expect;
use gq_command::{LineRefusal, ReadFault};
use gq_engine::{Fault, Refusal};
use std::alloc::{AllocError, Global};
use std::fmt::Display;
use std::process::Abort;
use std::test::Fail;

fn expect_text<T: Display>(
    rt: &impl Abort,
    alloc: Global,
    shown: &T,
    due: &str,
) -> Result<(), AllocError> {
    let text = shown.to_string(alloc)?;
    expect(rt, text.as_str(), due);
    Ok(())
}

/// Expects the text of each error.
fn expect_texts<T: Display>(
    rt: &impl Abort,
    alloc: Global,
    texts: &[(T, &str)],
) -> Result<(), Fail> {
    for (shown, due) in texts {
        expect_text(rt, alloc, shown, due)?;
    }
    Ok(())
}

const LINES: [(LineRefusal, &str); 4] = [
    (LineRefusal::Syntax, "the line says no command"),
    (LineRefusal::LineTooLong, "the line is too long"),
    (
        LineRefusal::Limit,
        "a name or a text is too long, or there are too many columns or aggregates",
    ),
    (LineRefusal::Memory, "no memory to read the line"),
];

#[test]
fn refused_lines(rt: HostRuntime) -> Result<(), Fail> {
    expect_texts(&rt, rt.alloc(), &LINES)
}

#[test]
fn a_fault_of_a_reader(rt: HostRuntime) -> Result<(), Fail> {
    let due = "a read failed, or the script is too long";
    expect_texts(&rt, rt.alloc(), &[(ReadFault, due)])
}

const COMMANDS: [(Refusal, &str); 7] = [
    (Refusal::Syntax, "the line is not a command"),
    (Refusal::NoTable, "no table has that name"),
    (
        Refusal::TypeMismatch,
        "a value has the wrong type, or there are too many or too few values",
    ),
    (Refusal::NullKey, "a key column would be null"),
    (
        Refusal::FieldCount,
        "the record has more or fewer fields than the header",
    ),
    (Refusal::Memory, "out of memory"),
    (
        Refusal::LoadOpen,
        "the script ends before the line that closes the payload",
    ),
];

#[test]
fn refusals_of_commands(rt: HostRuntime) -> Result<(), Fail> {
    expect_texts(&rt, rt.alloc(), &COMMANDS)
}

const RUNS: [(Fault, &str); 2] = [
    (
        Fault::Read,
        "a read failed, or the script is past its limit",
    ),
    (Fault::Write, "a write failed"),
];

#[test]
fn faults_of_runs(rt: HostRuntime) -> Result<(), Fail> {
    expect_texts(&rt, rt.alloc(), &RUNS)
}
