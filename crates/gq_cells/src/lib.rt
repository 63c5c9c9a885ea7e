//! Many values in one list, and rows of them.
//!
//! In [`Cells`] a number takes eight bytes as long as all values are numbers, and if texts are stored out of
//! line; then a text of up to seven bytes takes eight, too. [`Rows`] are ranges of one such list. A [`CellRef`] or a [`RowRef`] refers to what is stored there.
//!
//! The one contract above this crate: clauses see [`Cells`] as the list of their values and [`Rows`] as the
//! list of their rows, in every layout.
#![tactic(auto)]

mod cell_ref;
mod cells;
mod cells_left;
mod keys;
mod order;
mod row_ref;
mod rows;
mod tagged_cells;
mod text_ref;

pub use cell_ref::CellRef;
pub use cells::Cells;
pub use keys::{Keys, KeysLeft};
pub use row_ref::RowRef;
pub use rows::{RowSpan, Rows, Span};
pub use text_ref::{TextRef, WordText};
