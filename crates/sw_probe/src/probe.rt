//! The probe sequence.
ghost use Rattle.std.specs.Prelude.{◌≡◌, ◌↔◌, ◌+◌, ◌/◌, ◌<◌, IsTrue};
ghost use Rattle.std.specs.Bool.{OnTrue, OnFalse};
ghost use Rattle.sw_probe.specs.Order.{IsGroupCount, Walk, group_of, h1_of, moved};

use crate::hash_parts::h1;
use std::marker::Model;

/// A probe: the groups of a table in the order in which a look-up visits them. Contracts see the first group,
/// the number of groups, and the current step.
#[derive(Drop)]
pub struct Probe {
    // The first group, for contracts only.
    start: u64,
    groups: usize,
    index: usize,
    group: usize,
}

impl Model for Probe {
    ghost use Rattle.sw_probe.specs.Order.{Walk};

    ghost Value = { Walk };

    ghost use Rattle.sw_probe.specs.Inside.{walk_of, IsWalk};

    ghost view = { walk_of };

    ghost invariant = { IsWalk };
}

impl Probe {
    /// The probe of a key with this hash, at its first group. The number of groups is a power of two, at most
    /// 2^24.
    #[inline]
    pub fn new(hash: u64, groups: usize) -> Probe
        requires { IsGroupCount groups }
        ensures { result ≡ record { start = h1_of hash; groups = groups; index = 0 } }
    {
        let start = h1(hash);
        Probe {
            start,
            groups,
            index: 0,
            group: start as usize & (groups - 1),
        }
    }

    /// The current group.
    #[inline]
    pub fn group(&self) -> usize
        ensures group { result ≡ group_of self.now }
        ensures in_range { result < self.now.groups }
    {
        self.group
    }

    /// Moves to the next group. It returns `false`, and stays at the last group, if all were visited.
    #[inline]
    pub fn advance(&mut self) -> bool
        ensures more { IsTrue result ↔ (self.old.index + 1 < self.old.groups) }
        ensures moves { OnTrue result (self.new ≡ moved self.old) }
        ensures stays { OnFalse result (self.new ≡ self.old) }
    {
        if self.index + 1 == self.groups {
            return false;
        }
        self.index += 1;
        self.group = (self.group + self.index) & (self.groups - 1);
        true
    }
}
