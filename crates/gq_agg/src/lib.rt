//! Running aggregates: values are added one by one, and the result is their count, sum, minimum or maximum, as
//! SQL has them.
//!
//! ```text
//! let mut sum = Agg::start(alloc, AggKind::Sum);
//! sum.add(&Value::Int(i64::MAX))?;
//! sum.add(&Value::Int(1))?;       // past 64 bits, on the way
//! sum.add(&Value::Null)?;         // adds nothing
//! sum.add(&Value::Int(-1))?;
//! sum.finish()                    // Ok(Value::Int(i64::MAX))
//! ```
//!
//! - Nulls count only for `CountAll`. If all values are null, the sum, the minimum and the maximum are null.
//! - A sum has 128 bits and is checked only at [`Agg::finish`], so it fails exactly if the sum of all values
//!   doesn't fit in 64 bits, whatever its partial sums.
//! - [`Agg::add`] allocates only if a text becomes the minimum or maximum.
//!
//! # The contract above this crate
//!
//! After adds of a list, [`Agg::adds`] is its length, and [`Agg::finish`] is `aggregate` of the list
//! (`specs/Aggregates.antt`), or `SumRange` exactly if that has no value. The laws in [`laws`] say that the
//! order of the list makes no difference, that nulls make none but to `CountAll`, what the minimum and the
//! maximum are, and what the number of distinct values is, which no running aggregate keeps (`different` of
//! `specs/Values.antt`).
#![tactic(auto)]

mod agg;
mod kind;
pub mod laws;
mod state;
mod sum;

pub use agg::{Agg, SumRange};
pub use kind::AggKind;
pub use state::State;
pub use sum::Sum;
