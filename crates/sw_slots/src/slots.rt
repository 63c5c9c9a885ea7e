//! The slots, a list of places.
ghost use Rattle.std.specs.Prelude.{◌≡◌, ◌<◌, Option, Some, None, length, replicate, slice_set, IfOk, IsOk, IsSome};
ghost use Rattle.sw_slots.specs.Place.{place};

use crate::block::{Block, Grant};
use std::alloc::{AllocError, Global};
use std::marker::Model;
use std_alloc::room::may_hold;

/// A fixed number of places, each vacant or with a value. Contracts see the list of these. Only `release` ends
/// it: it has no `Drop`, and is never dropped.
pub struct Slots<T> {
    block: Block<T>,
    len: usize,
    grant: Grant<T, Global>,
    alloc: Global,
}

impl<T> Model for Slots<T> {
    ghost use Rattle.std.specs.Prelude.{List, Option};

    ghost Value = { List (Option T) };

    ghost view = { λ s. s.block.places };

    ghost use Rattle.sw_slots.specs.Whole.{IsWhole};

    ghost invariant = { IsWhole };
}

impl<T> Slots<T> {
    ghost use Rattle.std.specs.Borrow.{sem};
    ghost use Rattle.sw_slots.specs.SlotLends.{lends_place};

    /// Returns `n` vacant places. Without places it takes no memory, and never fails. The error is that an
    /// allocation failed, or that the block would take more than `isize::MAX` bytes.
    pub fn new(alloc: Global, n: usize) -> Result<Slots<T>, AllocError>
        ensures places { IfOk result (λ s. s ≡ replicate n None) }
        ensures no_memory { n ≡ 0 → IsOk result }
    {
        let (block, grant) = if n == 0 {
            Block::empty(&alloc)
        } else if may_hold::<T>(n) {
            Block::allocate(&alloc, n)?
        } else {
            return Err(AllocError);
        };
        Ok(Slots {
            block,
            len: n,
            grant,
            alloc,
        })
    }

    /// Returns the number of places, vacant ones too.
    #[inline]
    pub fn len(&self) -> usize
        ensures { result ≡ length self.now }
    {
        self.len
    }

    /// Moves `value` into the place `i`, which is vacant.
    #[inline]
    pub fn put(&mut self, i: usize, value: T)
        requires { (i < length self.old) × (place self.old i ≡ None) }
        ensures { self.new ≡ slice_set self.old i (Some value) }
    {
        self.block.write(i, value);
    }

    /// Moves the value out of the place `i`, which is vacant then.
    #[inline]
    pub fn take(&mut self, i: usize) -> T
        requires { IsSome (place self.old i) }
        ensures value { place self.old i ≡ Some result }
        ensures places { self.new ≡ slice_set self.old i None }
    {
        self.block.read(i)
    }

    /// Returns a reference to the value of the place `i`.
    #[inline]
    pub fn get(&self, i: usize) -> &T
        requires { IsSome (place self.now i) }
        ensures { place self.now i ≡ Some result.now }
    {
        self.block.get(i)
    }

    /// Returns a mutable reference to the value of the place `i`.
    #[inline]
    pub fn get_mut(&mut self, i: usize) -> &mut T
        requires { IsSome (place self.old i) }
        ensures* writes_back { sem 𝓛 (lends_place T.row self.entry i result) }
        ensures value { place self.old i ≡ Some result.now }
    {
        self.block.get_mut(i)
    }

    /// Swaps the values of the places `i` and `j`.
    #[inline]
    pub fn swap(&mut self, i: usize, j: usize)
        requires { IsSome (place self.old i) × IsSome (place self.old j) }
        ensures { self.new ≡
            slice_set (slice_set self.old i (place self.old j)) j (place self.old i) }
    {
        if i == j {
            return;
        }
        let x = self.take(i);
        let y = self.take(j);
        self.put(i, y);
        self.put(j, x);
    }

    /// Frees the memory. All places are vacant.
    pub fn release(self)
        requires { self ≡ replicate (length self) None }
    {
        let Slots {
            block,
            len,
            grant,
            alloc,
        } = self;
        block.deallocate(&alloc, len, grant);
    }
}
