//! Which rows are kept: conditions with SQL's three truth values, matches with other rows, and the distinct
//! keys of rows; and what can be shown of groups.
//!
//! - A [`Condition`] is a list of tests joined by `and`; a test compares two operands, each a column's value or
//!   a literal, or checks whether one is null. [`holds`] returns its [`Truth`] in a row. [`filter`] and
//!   [`having`] keep a row if that is `True`, and not if it is `False` or `Unknown`: `filter` is for rows
//!   before grouping, `having` for finished groups.
//! - A [`KeySet`] has the keys of other rows. [`semi_join`] returns whether the key of a row is one of them,
//!   and [`anti_join`] the opposite, as SQL's `exists` and `not exists` do on equal columns: null equals
//!   nothing, so a row with null in one of its columns has no match. A [`Matching`] says which of the two is
//!   meant, and of which columns.
//! - [`distinct`] pushes each distinct key of the rows once, by its fold. Nulls are one key value there.
//! - [`OutputColumn`] is what can be shown of a group: an aggregate of a column, or its number of distinct
//!   values.
//!
//! A comparison with null is unknown; `is null` and `is not null` never are. If one of its values is a text
//! without case, a text is compared as one too, by the folds. The `and` of two truths:
//!
//! | and | true | unknown | false |
//! |---|---|---|---|
//! | **true** | true | unknown | false |
//! | **unknown** | unknown | unknown | false |
//! | **false** | false | false | false |
//!
//! ```text
//! let condition = Condition { tests };           // column 1 > 3 and column 2 is not null
//! holds(&condition, &row);                       // Truth::Unknown, if column 1 is null
//! filter(&condition, &row);                      // false
//! let keys = KeySet::build(alloc, hasher, rows, &[0])?;
//! semi_join(&keys, &row, &[2]);                  // the row's column 2 is some row's column 0
//! ```
//!
//! Nothing is allocated for a row: operands are borrowed, and a key is looked up in its row and hashed
//! once, or again if a candidate was tried in vain. A set copies a key only if it is new.
//!
//! # The contract above this crate
//!
//! [`holds`], [`filter`] and [`having`] are `truth` and `keeps` of `specs/Truths.antt`, [`semi_join`] is
//! `exists` of `specs/Matches.antt` and [`anti_join`] its opposite, for every hasher. If [`distinct`] succeeds
//! over an honest store, the sink has got the distinct keys of the source's rows, by their folds, in some
//! order; over every store it leaves other runs unchanged, and each error has its cause. The laws in [`laws`]
//! say what the definitions imply.
#![tactic(auto)]

mod condition;
mod join;
mod keys;
pub mod laws;
mod matching;
mod output_column;
mod truth;

pub use condition::{Condition, Operand, Test, filter, having, holds};
pub use join::{KeySet, anti_join, semi_join, semi_join_at};
pub use keys::distinct;
pub use matching::Matching;
pub use output_column::OutputColumn;
pub use truth::Truth;
