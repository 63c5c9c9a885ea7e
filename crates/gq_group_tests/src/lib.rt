//! Tests of running aggregates, of groups, and of conditions, matches and distinct keys: worked examples with
//! results written by hand, under hashers that spread keys and hashers that don't; the numbers of rows and runs
//! that groups past the budget take; groups past each growth of the list of their aggregates, and without
//! memory for it; and groups over stores in which one call goes wrong.
#![tactic(auto)]

#[cfg(test)]
mod aggregates;
#[cfg(test)]
mod conditions;
#[cfg(test)]
mod counting;
#[cfg(test)]
mod distinct;
#[cfg(test)]
mod distinct_keys;
#[cfg(test)]
mod groups;
#[cfg(test)]
mod growth;
#[cfg(test)]
mod joins;
#[cfg(test)]
mod list_sink;
#[cfg(test)]
mod list_source;
#[cfg(test)]
mod spelled;
#[cfg(test)]
mod spilled;
#[cfg(test)]
mod troubled;
