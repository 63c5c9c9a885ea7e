//! The program `sw_bench`: how long the calls of a flat map take, next to those of the toolchain's own
//! `HashMap`.
//!
//! That map is a dense list of entries with an index of their hashes, as an `IndexMap` is, and no Swiss table:
//! it iterates like a list, and also updates the index on each insertion and removal. Numbers have the same
//! FNV-1a hash in both; a text's hash takes one closing byte more in the dense map. The rows `direct` and
//! `inline` are of the flat map alone.
//!
//! The keys are numbers, and texts of 8 to 16 letters, which are looked up by a borrowed form: under `text`
//! they are lists of bytes, and under `inline` keys as the engine stores them, with the text inline. The
//! arguments are numbers of keys. Without any the program prints its usage, and measures nothing. Its figures
//! depend on the machine: no contract covers them.
#![tactic(auto)]

mod calls;
mod dense;
mod flat;
mod fnv;
mod keys;
mod map;
mod report;
mod row_keys;
mod timing;

use crate::report::report;
use std::{env, io};

// The largest number of keys, so that a table of them stays below half of its largest size.
const MOST_KEYS: usize = 50_000_000;

fn main(rt: HostRuntime) -> io::Result<()> {
    let arguments: Vec<String> = env::args(&rt)?.collect(rt.alloc())?;
    if arguments.len() < 2 {
        return println!(rt; "usage: sw_bench KEYS.. (as 1000 1000000): nanoseconds of each call");
    }
    println!(rt; "     keys  hash    call              flat   dense  flat/dense")?;
    for argument in arguments.iter().skip(1) {
        match argument.parse::<usize>() {
            Ok(n) if 0 < n && n <= MOST_KEYS => report(&rt, n)?,
            _ => println!(rt; "{argument}: not a number from 1 to {MOST_KEYS}")?,
        }
    }
    Ok(())
}
