//! Tests of loads: worked payloads with results written by hand from the CSV standard and the rules of
//! `docs/FORMATS.md`, what no contract says, and loads while memory runs out.
//!
//! The tests of `starved` allocate all memory that there is, in blocks that they hold and never write to; each
//! test has a process of its own, so no other is affected.
#![tactic(auto)]

#[cfg(test)]
mod large;
#[cfg(test)]
mod payloads;
#[cfg(test)]
mod records;
#[cfg(test)]
mod refusals;
#[cfg(test)]
mod spelled;
#[cfg(test)]
mod starved;
#[cfg(test)]
mod tables;
#[cfg(test)]
mod texts;
