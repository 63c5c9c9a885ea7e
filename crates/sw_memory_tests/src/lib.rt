//! Tests of the table, the map and the set while every allocation fails.
//!
//! A test can't replace its allocator, so it first allocates all memory that there is, in blocks that it holds
//! and never writes to. Each test has a process of its own, so no other is affected.
#![tactic(auto)]

#[cfg(test)]
mod blocks;
#[cfg(test)]
mod counted;
#[cfg(test)]
mod expected;
#[cfg(test)]
mod loaded;
#[cfg(test)]
mod map;
#[cfg(test)]
mod numbers;
#[cfg(test)]
mod starved;
#[cfg(test)]
mod table;
#[cfg(test)]
mod turns;
