//! Tests of the table, the map and the set.
//!
//! They test what no contract says: that calls succeed while there is memory, worked examples with results
//! computed by hand, how often keys are compared, and that each value is dropped exactly once. Long runs of
//! random calls are compared with a plain list that takes the same calls.
#![tactic(auto)]

#[cfg(test)]
mod compared;
#[cfg(test)]
mod counted;
#[cfg(test)]
mod crowded;
#[cfg(test)]
mod entries;
#[cfg(test)]
mod expected;
#[cfg(test)]
mod index;
#[cfg(test)]
mod index_removal;
#[cfg(test)]
mod loaded;
#[cfg(test)]
mod map;
#[cfg(test)]
mod map_drops;
#[cfg(test)]
mod merged;
#[cfg(test)]
mod numbers;
#[cfg(test)]
mod plain;
#[cfg(test)]
mod random_map;
#[cfg(test)]
mod random_table;
#[cfg(test)]
mod retained;
#[cfg(test)]
mod reused;
#[cfg(test)]
mod set;
#[cfg(test)]
mod table;
#[cfg(test)]
mod table_drops;
#[cfg(test)]
mod texts;
#[cfg(test)]
mod walks;
