//! The control bytes of a table, one for each slot.
ghost use Rattle.std.specs.Prelude.{◌≡◌, ◌+◌, ◌*◌, ◌%◌, ◌<◌, length, map, take, drop, replicate, slice_index, slice_set, IfOk, IsOk, IsTrue, ◌↔◌, []};
ghost use Rattle.sw_ctrl.specs.Bytes.{IsControl, marked};
ghost use Rattle.sw_ctrl.specs.declared.control.TheConstants.{EMPTY};

use crate::control::EMPTY;
use crate::group::{Group, WIDTH};
use std::alloc::{AllocError, Global};
use std::marker::Model;

/// The control bytes of a table, in groups of sixteen.
#[derive(Drop)]
pub struct Ctrl {
    bytes: Vec<u8>,
}

impl Model for Ctrl {
    ghost use Rattle.std.specs.Prelude.{◌≡◌, ℕ, ◌%◌, List, All, length};
    ghost use Rattle.sw_ctrl.specs.Bytes.{IsControl};

    ghost Value = { List ℕ };

    ghost view = { λ c. c.bytes.items };

    ghost invariant = { λ c. All IsControl c.bytes.items × (length c.bytes.items % 16 ≡ 0) };
}

impl Ctrl {
    /// `n` empty bytes. Without bytes it takes no memory, and succeeds.
    #[inline]
    pub fn new(alloc: Global, n: usize) -> Result<Ctrl, AllocError>
        requires { n % 16 ≡ 0 }
        ensures bytes { IfOk result (λ c. c ≡ replicate n EMPTY) }
        ensures no_memory { n ≡ 0 → IsOk result }
    {
        if n == 0 {
            return Ok(Ctrl {
                bytes: Vec::new(alloc),
            });
        }
        Ok(Ctrl {
            bytes: Vec::from_elem(alloc, EMPTY, n)?,
        })
    }

    /// The number of bytes, a multiple of sixteen.
    #[inline]
    pub fn len(&self) -> usize
        ensures len { result ≡ length self.now }
        ensures whole { result % 16 ≡ 0 }
    {
        self.bytes.len()
    }

    /// Whether there are no bytes.
    #[inline]
    pub fn is_empty(&self) -> bool
        ensures { IsTrue result ↔ (self.now ≡ []) }
    {
        self.bytes.is_empty()
    }

    /// Byte `i`.
    #[inline]
    pub fn get(&self, i: usize) -> u8
        requires { i < length self.now }
        ensures value { result ≡ slice_index self.now i }
        ensures control { IsControl result }
    {
        self.bytes[i]
    }

    /// Sets byte `i`.
    #[inline]
    pub fn set(&mut self, i: usize, byte: u8)
        requires in_range { i < length self.old }
        requires control { IsControl byte }
        ensures { self.new ≡ slice_set self.old i byte }
    {
        self.bytes[i] = byte;
    }

    /// The sixteen bytes from byte `16 * g` on.
    #[inline]
    pub fn group(&self, g: usize) -> Group
        requires { 16 * g < length self.now }
        ensures { result ≡ take 16 (drop (16 * g) self.now) }
    {
        Group::of(&self.bytes[WIDTH * g..WIDTH * g + WIDTH])
    }

    /// The first step of a rehash in place: each full byte becomes deleted, which now means "to be placed", and
    /// each other one empty.
    pub fn mark_for_rehash(&mut self)
        ensures { self.new ≡ map marked self.old }
    {
        mark(&mut self.bytes);
    }
}

// Marks all groups in order.
fn mark(bytes: &mut [u8])
    requires { length bytes.old % 16 ≡ 0 }
    ensures { bytes.new ≡ map marked bytes.old }
{
    let mut at = 0;
    while at < bytes.len() {
        let group = Group::of(&bytes[at..at + WIDTH]).marked();
        group.write_to(&mut bytes[at..at + WIDTH]);
        at += WIDTH;
    }
}
