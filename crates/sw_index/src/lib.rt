//! An index: distinct keys in insertion order, each found by its hash.
//!
//! The keys are in one list, and a Swiss table has the number of each, with its hash. So an entry of the table
//! has two words whatever the key, growth moves only these words and hashes no key again, and a walk over the
//! keys is one over a list. Callers keep lists of values in the same order.
//!
//! ```text
//! let mut index = Index::new(alloc, hasher);
//! match index.find(&q) {
//!     Found::At(number) => index.key(number),           // the key that q names
//! Found::Absent(absence) => index.add(absence, key)?,   // now it is the last one
//! }
//! ```
//!
//! A look-up takes whatever names a class, as those of [`sw_table`] do, and hashes it once; what it returns for
//! an absent key is all that [`Index::add`] needs.
//!
//! The contract above the crate: an index is the list of its keys, of which no two are of one class. A look-up
//! returns the number of the key of a class, or that there is none; a key is appended, and an error leaves the
//! list unchanged. The last key can be removed, and so can any other, whose number the last one then gets:
//! [`Index::swap_remove`] moves one key, as a list's does.
#![tactic(auto)]

mod found;
mod index;
mod numbered;
mod numbers;
mod removal;
mod room;
mod sought;

pub use found::{Absence, Found};
pub use index::Index;
pub use numbers::Numbers;
pub use room::expects_new_keys;
pub use sought::Seeks;
