//! A flat map and a flat set: entries in an array of slots, found by the hash of their keys.
//!
//! - [`FlatMap`] is a map from keys to values, [`FlatSet`] a set of keys. Each is one Swiss table, which
//!   `table` returns, and contracts see a finite map from the class of a key to the stored key and its value.
//! - A look-up takes whatever names a class: a key, or a borrowed form of one, as `ByteKey` is of a `Vec<u8>`.
//!   It copies nothing. A call hashes its key once.
//! - The first key of a class stays. [`FlatMap::try_emplace`] returns a second one with its value;
//!   [`FlatMap::insert_or_assign`] drops it, and returns the old value.
//! - Within the room no insertion fails or allocates, however many entries were erased: a map made by
//!   `with_room` for `n` entries takes every insertion while it has fewer than `n`. Past it an insertion
//!   doubles the capacity, or fails and returns its pair.
//! - [`FlatMap::entry`] looks up a borrowed key, and returns the slot of its entry, or the hash, with which
//!   [`FlatMap::fill`] adds an owned key without hashing again. The set has both calls too.
//! - [`FlatMap::iter`], `keys` and `values` visit the slots in order, and read the control bytes of a group
//!   once. [`FlatMap::drain_next`] removes the entries one by one, each once, and leaves the slots empty.
//! - [`FlatMap::retain`] calls a closure with each entry, and drops those that it doesn't keep.
//! - Maps are equal if each key of one is in the other with an equal value, whatever the order of their slots,
//!   and sets if each key of one is in the other.
//! - [`FlatMap::merge`] makes room first, so that it moves all entries or none, and does nothing if no key is
//!   new.
//!
//! ```text
//! let mut stock = FlatMap::with_room(alloc, Fnv1a { seed: 0 }, 12)?;   // 16 slots
//! stock.try_emplace(7, 70)?;                  // Inserted
//! stock.try_emplace(7, 71)?;                  // Present(7, 71): nothing changed
//! stock.insert_or_assign(7, 72)?;             // Some(70), the old value
//! stock.get(&7);                              // Some(&72)
//! stock.extract(&7);                          // Some((7, 72))
//! stock.erase(&7);                            // false: it is gone
//! match stock.entry(&8) {
//!     Entry::Occupied(slot) => *stock.value_mut(slot) += 1,
//!     Entry::Vacant(vacancy) => drop(stock.fill(vacancy, 8, 1)?),
//! }
//! stock.into_list()?;                         // the one entry that is left
//! ```
//!
//! [`keys_are_of_their_class`] is the law on what contracts see.
//!
//! The contract above the crate: each call is an equation on the finite map, it says when it fails and what an
//! error leaves, and insertions within the room succeed.
#![tactic(auto)]

mod debug;
mod drain;
mod emplaced;
mod entries;
mod entry;
mod equality;
mod iter;
mod keys;
mod laws;
mod list;
mod map;
mod merge;
mod retain;
mod set;
mod values;

pub use emplaced::{Emplaced, RefusedKey};
pub use entry::{Entry, Vacancy};
pub use keys::Keys;
pub use laws::keys_are_of_their_class;
pub use map::FlatMap;
pub use set::FlatSet;
pub use sw_table::{Iter, Refused, SlotNo, Walk, Why};
pub use values::Values;
