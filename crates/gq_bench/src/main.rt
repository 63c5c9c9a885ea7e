//! The program `gq_bench`: how long an engine takes to load rows, to take them line by line, to show them and
//! to group them.
//!
//! Its rows have a key and a number. The keys are numbers or texts, and few, many or all of them are distinct.
//! These are the baselines:
//!
//! - for loads, the same bytes read by the csv crate alone, and by the csv crate with one insertion into a flat
//!   map for each record;
//! - for groups, a look-up and an insertion of each row's key in a flat map;
//! - for conditions, the same count without one;
//! - for groups within a budget, of which there are a fifth as many as rows, a budget that has room for all.
//!   Their runs are in memory, or in a folder;
//! - for texts without case, the same texts with case;
//! - for a rollup of two columns, its three groupings as separate commands;
//! - for reports, which are rows of three columns, with four aggregates: the same with one and with two, and
//!   for those within a budget a budget that has room for all groups.
//!
//! The arguments are numbers of rows, optionally after what is to be measured alone. Without any the program
//! prints its usage, and measures nothing. Its figures depend on the machine: no contract covers them.
#![tactic(auto)]

mod choice;
mod folder;
mod keys;
mod reading;
mod report;
mod running;
mod script;
mod shape;
mod task;
mod timing;
mod topic;
mod work;

use crate::choice::Choice;
use crate::report::report;
use std::{env, io};

// The largest number of rows, so that a payload stays within its limit.
const MOST_ROWS: usize = 8_000_000;

const USAGE: &str = "usage: gq_bench [WORKS] ROWS.. (as 10000 1000000): times of an engine
  WORKS is tables, groups, budgets, cases, totals or reports, or one work's name, as 'count, where'; without it, all
  budgets keeps runs in a folder of its own below TMPDIR, or else below /tmp, and removes it";

fn main(rt: HostRuntime) -> io::Result<()> {
    let arguments: Vec<String> = env::args(&rt)?.collect(rt.alloc())?;
    let (choice, first_number) = chosen(arguments.as_slice());
    if arguments.len() <= first_number {
        return println!(rt; "{USAGE}");
    }
    println!(rt; "    rows  keys           work                         ms    rows/s")?;
    for argument in arguments.iter().skip(first_number) {
        match argument.parse::<usize>() {
            Ok(rows) if 0 < rows && rows <= MOST_ROWS => report(&rt, choice, rows)?,
            _ => return println!(rt; "{argument}: not a number from 1 to {MOST_ROWS}\n{USAGE}"),
        }
    }
    Ok(())
}

// What is measured, and the position of the first number of rows.
fn chosen(arguments: &[String]) -> (Choice<'_>, usize) {
    match arguments.get(1) {
        Some(word) => match Choice::of(word.as_str()) {
            Some(choice) => (choice, 2),
            None => (Choice::All, 1),
        },
        None => (Choice::All, 1),
    }
}
