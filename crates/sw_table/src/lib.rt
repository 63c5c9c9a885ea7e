//! A Swiss table: a map from keys to values in an array of slots, with one control byte for each.
//!
//! # Layout
//!
//! The slots are in groups of sixteen, and so are their control bytes, in an array of their own. A look-up
//! reads the sixteen bytes of a group at once, and a slot only if its byte matches:
//!
//! ```text
//!          group 0                                group 1
//!          0    1    2    3          14   15      16   17          31
//!         +----+----+----+----+-  -+----+----+   +----+----+-  -+----+
//! bytes   | 2a | fe | 13 | 05 | .. | 61 | 2a |   | 80 | 2a | .. | 80 |    ..
//!         +----+----+----+----+-  -+----+----+   +----+----+-  -+----+
//! slots   | kv |    | kv | kv | .. | kv | kv |   |    | kv | .. |    |    ..
//!         +----+----+----+----+-  -+----+----+   +----+----+-  -+----+
//! ```
//!
//! A table has no slots, or 16, 32, 64 and so on to 2^28. There are three kinds of byte:
//!
//! | Byte | The slot | A look-up |
//! |---|---|---|
//! | empty, `1000_0000` | is vacant | stops after the group: the key is absent |
//! | deleted, `1111_1110` | is vacant; its entry was removed | goes on, as if the slot were full |
//! | full, `0hhh_hhhh` | has an entry; `hhh_hhhh` are the seven low bits of its key's hash | compares the keys, if the sought key's hash has the same seven bits |
//!
//! # The probe
//!
//! The rest of the hash, shifted right by seven, is the first group that is probed. From there a look-up goes
//! 1, then 2, then 3 groups further, and so on, and wraps around; as the number of groups is a power of two, it
//! would visit each group once. A new entry goes to the first free slot of this sequence, an empty or a deleted
//! one. So no group before an entry's own, on the probe sequence of its key, has an empty byte, and a look-up
//! that stops at one has missed nothing.
//!
//! Removals keep it so. If the group of a removed entry has an empty byte already, each probe ends there, and
//! the slot becomes empty. Else some probe may pass through the group, and the slot becomes deleted.
//!
//! # Load, growth and rehash
//!
//! At most fourteen bytes in sixteen are full or deleted, so that each look-up ends. If a new entry would go to
//! an empty slot past that load, one of two things comes first:
//!
//! - If there are fewer entries than the room, 25 for 32 slots, deleted bytes make up the rest of the load, and
//!   the table is rehashed in place. Each full byte is marked as "to be placed", by the byte for deleted, and
//!   each deleted one becomes empty. Then each marked entry in turn remains if its group is the first of its
//!   probe sequence with an empty or marked slot, or moves to an empty slot, or is swapped with another marked
//!   entry. This doesn't allocate.
//! - If not, the number of slots is doubled: two new blocks are allocated, and the entries move there. Only
//!   this can run out of memory.
//!
//! So while there are fewer entries than the room, no insertion fails, however many entries were added and
//! removed before.
//!
//! # Use
//!
//! [`Table::find`] returns the number of a slot; [`Table::at`] and [`Table::at_mut`] return references to its
//! entry. [`Table::place`] inserts a key that is absent, as `find` has reported. To hash a key once for both,
//! use [`Table::hash`], [`Table::find_hashed`] and [`Table::place_hashed`]. [`Table::rekey`] replaces the key
//! of an entry by one with the same hash. [`Table::next_full`] finds the next entry in slot order, and so does
//! a [`Walk`], by [`Table::advance`] or [`Table::iter`], which reads the bytes of a group once. Entries that a
//! walk has passed may be removed, and [`Table::drain_next`] removes them all.
//!
//! The contract above the crate: a finite map from the classes of keys to their entries, with one equation for
//! each call; the layout, as [`Table::capacity`] states it; and the promise that insertions within the room
//! succeed. They hold for every hasher that agrees with its keys, even one that hashes all keys alike.
#![tactic(auto)]

mod blocks;
mod drain;
mod drops;
mod free;
mod growth;
mod insert;
mod iter;
mod lookup;
mod moves;
mod refused;
mod rehash;
mod rekey;
mod removal;
mod sizes;
mod table;
mod walk;

pub use iter::Iter;
pub use refused::{Refused, Why};
pub use table::{SlotNo, Table};
pub use walk::Walk;
