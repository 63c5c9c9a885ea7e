//! Raw memory for a fixed number of values, such as the entries of a hash table.
//!
//! A [`Slots<T>`] is a list of places. Each place is vacant or has a value, and nothing in memory says which:
//! there is no flag and no count. The owner of the slots knows it otherwise, as a table does by its control
//! bytes, and the contract of a call requires it. The call changes the places that it names, and no other. No
//! vacant place is read and no filled one is overwritten.
//!
//! # Layout
//!
//! ```text
//! start                         start + i * size_of::<T>()
//!   |                             |
//!   v                             v
//!   +---------+---------+- ... -+---------+- ... -+-----------+
//!   | place 0 | place 1 |       | place i |       | place n-1 |
//!   +---------+---------+- ... -+---------+- ... -+-----------+
//! ```
//!
//! The places are adjacent in one block of `n * size_of::<T>()` bytes, at most `isize::MAX` of them, aligned
//! for a `T`. For no places there is no block, and the start is never dereferenced. Values of size zero all are
//! at the start, in a block of no bytes.
//!
//! # Who owns which bytes when
//!
//! | After | The bytes of the place | What may be done there |
//! |---|---|---|
//! | `new` | the slots own them, and they are uninitialized | a value may be put in, and nothing may be read |
//! | `put` | they are the value's, and the place owns it, with its heap memory | it may be taken, borrowed or swapped, and nothing may be put there |
//! | `get` | they stay the value's, which is borrowed by readers | nothing is written until the last borrow ends |
//! | `get_mut` | they stay the value's, which is borrowed by one writer | no one else reaches any place until the borrow ends, and the place then has what was written last |
//! | `swap` | two values are swapped, and nothing else moves | as after `put`, at both places |
//! | `take` | the slots own them again: the caller has the value, and the remaining bits are no value | as after `new` |
//! | `release` | the allocator has them | nothing: the slots are gone |
//!
//! `release` takes slots that are all vacant, so no value is lost with its place. Nothing else ends slots: the
//! type has no `Drop`, so a program that drops them, with or without values in them, isn't accepted. The block
//! is deallocated once, by the grant that was made with it.
//!
//! # What is raw
//!
//! Raw pointers are used in seven short functions of `Block`, each with a proof by hand: `allocate`, `empty`,
//! `deallocate`, `write`, `read`, `get` and `get_mut`. `Slots` is safe code over them.
#![tactic(auto)]

mod block;
mod slots;

// Contracts above this crate can name the slots only if the types of their fields are exported.
#[doc(hidden)]
pub use block::{Block, Grant};
pub use slots::Slots;
