//! Tests of the parts of a Swiss table: raw slots, control bytes, and the probe with its hashes.
//!
//! They test what no contract says, such as the values of a published hash, and worked examples with results
//! computed by hand. They are in a crate of their own so that those of the parts are proved without them.
#![tactic(auto)]

#[cfg(test)]
mod byte_strings;
#[cfg(test)]
mod ctrl;
#[cfg(test)]
mod expected;
#[cfg(test)]
mod lanes;
#[cfg(test)]
mod probe;
#[cfg(test)]
mod slots;
