//! Tests of records, of runs and of their stores: worked examples with bytes and results written by hand,
//! stores that fail or aren't honest, a real folder, and runs while memory runs out.
//!
//! [`whole`] writes a list of rows to a run, and reads a run as a list, proved by the contracts of writers and
//! readers alone.
//!
//! The tests of `starved` allocate all memory that there is, in blocks that they hold and never write to; each
//! test has a process of its own, so no other is affected.
#![tactic(auto)]

#[cfg(test)]
mod altered;
#[cfg(test)]
mod expected;
#[cfg(test)]
mod folder;
#[cfg(test)]
mod memory;
#[cfg(test)]
mod reading;
#[cfg(test)]
mod records;
#[cfg(test)]
mod reluctant;
#[cfg(test)]
mod rows;
#[cfg(test)]
mod starved;
#[cfg(test)]
mod stores;
pub mod whole;
