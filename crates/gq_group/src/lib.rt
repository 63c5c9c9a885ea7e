//! The grouping operator: from the rows of a source to the groups that a sink takes.
//!
//! A [`RowSource`] gives rows, and a [`GroupSink`] takes groups; each may keep runs of its own in the
//! run store that they share. [`group`] reads the rows once, and pushes one group for each of their
//! keys: the key, and the values of the aggregates that a [`GroupSpec`] asks for. Nulls are one key
//! value, and so are the spellings of a text without case: a group has its key folded, and callers who
//! show a spelling ask for an aggregate, as the minimum of the column. Without columns to group by
//! there is one group, even over no rows.
//!
//! ```text
//! let spec = GroupSpec::new(by, aggs);                 // by column 0, count of column 1
//! let spent = group(alloc, hasher, &spec, &mut source, &mut sink, &mut store, budget)?;
//! spent.rows_read;                                     // how many rows there were
//! ```
//!
//! Rows are read ahead, 32 at once, and hashed. If there are many groups, those of all 32 rows are
//! looked for before the first row is placed, so that what this reads from memory comes at once. A
//! row's key is hashed once and looked up in the row; only the key of a new group is copied. All keys
//! are in one list, in the order in which they came, and the running aggregates of all groups in
//! another, the same number for each, so that a key's number says where its own begin: a group
//! allocates nothing but long texts of its key. No `count(*)` is kept with other aggregates, since
//! each of these knows how many rows it was given.
//!
//! [`group_distinct`] pushes, for each key, the number of distinct values that its rows have in a
//! column, without nulls. It calls [`group`] twice: first it groups the rows by the key and the value,
//! into a run of these pairs, null values too, so that each key has at least one pair; then it groups
//! that run by the key, and counts the values that are not null. The pairs are keys, so a value has
//! one fold in the run however the rows spell it, and a key that is read back is its own fold.
//!
//! # Rows of other keys
//!
//! At most the budget's number of groups is in memory at once. If the table is full, a row whose key
//! has no group is spilled: it goes to one of sixteen partitions, by four bits of its key's hash, and
//! the first row of a partition begins its run. After the last row the groups go to the sink, and then
//! each run is read in the same way, by the next four bits; from the fifth pass over a row on, one run
//! takes all rows of other keys. The runs that wait are on a stack, which has room for a pass's runs
//! before the pass begins, and no function calls itself. A run is discarded once it was read, and all
//! that remain are discarded whatever the outcome.
//!
//! # The contract above this crate
//!
//! Over an honest store: if [`group`] succeeds, it has added the groups of the source's rows to the
//! sink, in some order, each with its key folded (`groups` of `specs/Groups.antt`), and the counts are
//! those of rows and groups. It returns `SumRange` only if some sum is out of range, and succeeds only
//! if none is. Rows are written and runs are made exactly if there are more groups than the budget, at
//! most as many as the numbers of rows and groups allow (`Spills` of `specs/Work.antt`). If
//! [`group_distinct`] succeeds, it has added the counts of distinct values to the sink, in some order
//! (`distinct_groups` of `specs/Distinct.antt`), and the counts of rows and groups are right. It writes
//! the distinct pairs once, and otherwise what its two groupings write, each within its bounds
//! (`SpillsTwice`), and it never returns `SumRange`. Over every store: the runs of others are as they
//! were, whatever the outcome, no run remains, and both refuse for a cause.
//!
//! Over an honest store the rows of a source are all of one length, since a run is read by the number
//! of its columns. That a table holds at most the budget's number of groups is an invariant of its type
//! (`ResidentTable`), whatever the store and the hasher.
#![tactic(auto)]

mod aggs;
mod budget;
mod context;
mod distinct;
mod drain;
mod group_map;
mod group_sink;
mod group_spec;
mod grouping;
mod key_index;
mod key_run;
mod partition;
mod pass;
mod refusal;
mod resident_table;
mod row_block;
mod row_source;
mod run_source;
mod stack;

pub use budget::Budget;
pub use distinct::group_distinct;
pub use group_sink::GroupSink;
pub use group_spec::GroupSpec;
pub use grouping::{Spent, group};
pub use key_index::KeyIndex;
pub use refusal::Refusal;
pub use row_source::RowSource;
