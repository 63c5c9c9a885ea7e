//! Tests of the engine and of the crates that it uses, from values up to whole runs.
//!
//! They test what no contract covers: that calls succeed if memory is ample, and return what the
//! language's rules say, which is written here by hand; what a run does at each limit and one past
//! it; readers, writers and run stores that fail, and stores that lie; and scripts while memory
//! runs out. They are a crate of their own, so that the crates below are proved without them.
#![tactic(auto)]

#[cfg(test)]
mod cut_scripts;
#[cfg(test)]
mod devices;
#[cfg(test)]
mod engines;
#[cfg(test)]
mod expected;
#[cfg(test)]
mod failing_store;
#[cfg(test)]
mod faults;
#[cfg(test)]
mod keys;
#[cfg(test)]
mod limits;
#[cfg(test)]
mod lines;
#[cfg(test)]
mod lying;
#[cfg(test)]
mod payloads;
#[cfg(test)]
mod plain;
#[cfg(test)]
mod refusal_texts;
#[cfg(test)]
mod runs;
#[cfg(test)]
mod spent;
#[cfg(test)]
mod spilling;
#[cfg(test)]
mod starved;
#[cfg(test)]
mod starved_queries;
#[cfg(test)]
mod values;
