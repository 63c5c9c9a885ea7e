//! The memory of the places. All raw pointers of the crate are in this file.
ghost use Rattle.std.specs.Prelude.{◌≡◌, ℕ, ◌<◌, List, Option, Some, None, length, replicate, slice_set, IfOk, IsSome};
ghost use Rattle.std.specs.Borrow.{sem};
ghost use Rattle.std.specs.Vec.Ownership.{FitsInBlock};
ghost use base.Fml.{ftrue};
ghost use denote.RawPtr.{Ptr};
ghost use Rattle.sw_slots.specs.Place.{place};
ghost use Rattle.sw_slots.specs.Ownership.{block_owned, block_lent, grant_owned};

use std::alloc::{AllocError, Allocator};
use std::marker::{Model, PhantomData};
use std::mem::{align_of, size_of};

/// Adjacent places, the first at `start`. A block owns the bytes of each place, and the value of each filled
/// one.
pub struct Block<T> {
    start: *mut T,
    ghost places: { List (Option T) },
}

impl<T> Model for Block<T> {
    ghost also_owns = { λ b. block_owned T.row b.start b.places };

    ghost also_shares = { λ b _ κ. block_lent T.row b.start b.places κ };
}

/// The right to deallocate the `len` places at `start` by `alloc`. It takes no bytes, and for no places it is
/// no right.
pub struct Grant<T, A: Allocator> {
    mark: PhantomData<*const (T, A)>,
    ghost start: { Ptr },
    ghost len: { ℕ },
    ghost alloc: { A },
}

impl<T, A: Allocator> Model for Grant<T, A> {
    ghost also_owns = { λ g. grant_owned T.row (A.dealloc_token g.alloc) g.start g.len };

    ghost also_shares = { λ _ _ _. ftrue };
}

impl<T> Block<T> {
    ghost use Rattle.sw_slots.specs.Granted.{IsGrantOf};
    ghost use Rattle.sw_slots.specs.Lends.{lends_place_of};

    /// Returns a block of `len` vacant places, and the grant to deallocate it. The error is the allocator's.
    pub(crate) fn allocate<A: Allocator>(
        alloc: &A,
        len: usize,
    ) -> Result<(Block<T>, Grant<T, A>), AllocError>
        requires { (0 < len) × FitsInBlock T.row len }
        ensures { IfOk result (λ made. (made.0.places ≡ replicate len None) ×
            IsGrantOf made.1 made.0 alloc.now len) }
    {
        match alloc.allocate(len * size_of::<T>(), align_of::<T>()) {
            Ok(bytes) => {
                let start = bytes as *mut T;
                Ok((Block { start }, Grant { mark: PhantomData }))
            }
            Err(refused) => Err(refused),
        }
    }

    /// Returns a block of no places, which takes no memory. Its start is never dereferenced.
    pub(crate) fn empty<A: Allocator>(alloc: &A) -> (Block<T>, Grant<T, A>)
        ensures { (result.0.places ≡ replicate 0 None) × IsGrantOf result.1 result.0 alloc.now 0 }
    {
        let none: [T; 0] = [];
        let start = &raw const none as *mut T;
        (Block { start }, Grant { mark: PhantomData })
    }

    /// Deallocates a block whose `len` places are all vacant. A block of no places has no memory.
    pub(crate) fn deallocate<A: Allocator>(self, alloc: &A, len: usize, grant: Grant<T, A>)
        requires { (self.places ≡ replicate len None) × IsGrantOf grant self alloc.now len }
    {
        let Block { start } = self;
        let Grant { mark: _ } = grant;
        if len != 0 {
            unsafe { alloc.deallocate(start as *mut u8, len * size_of::<T>(), align_of::<T>()) }
        }
    }

    /// Moves `value` into the vacant place `i`.
    #[inline]
    pub(crate) fn write(&mut self, i: usize, value: T)
        requires { (i < length self.old.places) × (place self.old.places i ≡ None) }
        ensures { (self.new.start ≡ self.old.start) ×
            (self.new.places ≡ slice_set self.old.places i (Some value)) }
    {
        unsafe { self.start.add(i).write(value) }
    }

    /// Moves the value out of the place `i`, which is vacant then.
    #[inline]
    pub(crate) fn read(&mut self, i: usize) -> T
        requires { IsSome (place self.old.places i) }
        ensures value { place self.old.places i ≡ Some result }
        ensures block { (self.new.start ≡ self.old.start) ×
            (self.new.places ≡ slice_set self.old.places i None) }
    {
        unsafe { self.start.add(i).read() }
    }

    /// Returns a reference to the value of the place `i`.
    #[inline]
    pub(crate) fn get(&self, i: usize) -> &T
        requires { IsSome (place self.now.places i) }
        ensures { place self.now.places i ≡ Some result.now }
    {
        unsafe { &*self.start.add(i) }
    }

    /// Returns a mutable reference to the value of the place `i`.
    #[inline]
    pub(crate) fn get_mut(&mut self, i: usize) -> &mut T
        requires { IsSome (place self.old.places i) }
        ensures* writes_back { sem 𝓛 (lends_place_of T.row self.entry i result) }
        ensures value { place self.old.places i ≡ Some result.now }
    {
        unsafe { &mut *self.start.add(i) }
    }
}
