//! The groups that are in memory.
ghost use Rattle.std.specs.Prelude.{◌≡◌, ◌≤◌, ◌<◌, ◌^◌, [], List, length, IsTrue, IfOk, OnOk};
ghost use Rattle.std.specs.FinMap.{len};
ghost use Rattle.gq_row.specs.declared.value.Value.{Value as Cell};
ghost use Rattle.gq_row.specs.Classes.{class_of};
ghost use Rattle.gq_row.specs.Rows.{key_of};
ghost use Rattle.gq_group.specs.Blocks.{IsHashed};
ghost use Rattle.gq_group.specs.Entries.{listed};
ghost use Rattle.gq_group.specs.Groups.{fits_spec};
ghost use Rattle.gq_group.specs.Residents.{Resident, Offers, HasHash};

use crate::budget::Budget;
use crate::context::GroupContext;
use crate::group_map::{GroupMap, Hint};
use crate::group_spec::GroupSpec;
use crate::row_block::Ahead;
use gq_row::{Key, KeyRef, Row};
use std::alloc::{AllocError, Global};
use sw_index::{Found, expects_new_keys};
use sw_probe::KeyHash;

// With fewer groups, about a megabyte, most of what a row needs is cached, and to look for candidates
// costs as much as it saves.
const MANY_GROUPS: usize = 8192;

// At most the budget's number of groups.
#[derive(Drop)]
pub(crate) struct ResidentTable<H: KeyHash<Key>> {
    groups: GroupMap<H>,
    budget: Budget,
    // How many rows were offered.
    offered: u64,
    // How many rows there are at most, or 0 if that is unknown.
    expected: usize,
    ghost within: { len (listed groups.pairs) ≤ budget.entries },
}

// What became of a row.
#[derive(Clone, Copy)]
pub(crate) enum Offered {
    // It is in its group.
    Taken,
    // Its key has no group, and the budget is full. Carries the key's hash.
    Left(u64),
}

impl<H: KeyHash<Key> + Copy> ResidentTable<H> {
    // The groups of no rows: none, or without columns to group by that of the empty key.
    pub(crate) fn start(
        context: GroupContext<H>,
        spec: &GroupSpec,
        expected: usize,
    ) -> Result<ResidentTable<H>, AllocError>
        ensures resident { IfOk result (λ table.
            Resident spec.now context.budget.entries [] table.groups.pairs) }
        ensures each { IfOk result (λ table. table.groups.each ≡ length spec.now.aggs) }
        ensures budget { IfOk result (λ table. table.budget ≡ context.budget) }
        ensures hasher { IfOk result (λ table. table.groups.hasher ≡ context.hasher) }
    {
        let mut groups = GroupMap::start(context.alloc, context.hasher, spec)?;
        groups.expect(expected.min(context.budget.entries() as usize));
        Ok(ResidentTable {
            groups,
            budget: context.budget,
            offered: 0,
            expected,
        })
    }

    // The room to make after the next group: for all expected rows, if it fills the table and they are
    // expected to have new keys, and else 0.
    fn room_wanted(&self) -> usize {
        let groups = self.groups.len() as u64 + 1;
        let is_full = groups == self.groups.room() as u64;
        if is_full && expects_new_keys(self.offered, groups, self.expected as u64) {
            self.expected.min(self.budget.entries() as usize)
        } else {
            0
        }
    }

    // Whether looking for candidates pays.
    #[inline]
    pub(crate) fn is_large(&self) -> bool {
        self.groups.len() >= MANY_GROUPS
    }

    // The hash of a row's key.
    #[inline(always)]
    pub(crate) fn hash(&self, spec: &GroupSpec, row: &Row) -> u64
        requires { IsTrue (fits_spec spec.now row.now) }
        ensures { result ≡ H.hash_of self.now.groups.hasher
            (class_of (key_of spec.now.by row.now)) }
    {
        self.groups.hash(&KeyRef::new(row.cells(), spec.by()))
    }

    // The number of the group that a key with this hash probably has, by its slot alone. No contract
    // covers it.
    #[inline(always)]
    pub(crate) fn candidate(&self, hash: u64) -> Option<usize> {
        self.groups.candidate(hash)
    }

    // Adds a row to the group of its key, or to a new one if the budget allows it, by one look-up that
    // tries the hinted group first.
    #[inline(always)]
    pub(crate) fn offer(
        &mut self,
        alloc: Global,
        spec: &GroupSpec,
        ahead: &Ahead,
        hint: Hint,
    ) -> Result<Offered, AllocError>
        requires ahead { IsHashed spec.now (H.hash_of self.old.groups.hasher) ahead.now }
        requires each { self.old.groups.each ≡ length spec.now.aggs }
        requires resident { (rows : List (List Cell)) × (length rows < 2 ^ 32) ×
            Resident spec.now self.old.budget.entries rows self.old.groups.pairs }
        ensures offers { IfOk result (λ answer. (rows : List (List Cell)) →
            Resident spec.now self.old.budget.entries rows self.old.groups.pairs →
            Offers spec.now self.old.budget.entries rows ahead.now.row self.old.groups.pairs
            self.new.groups.pairs answer) }
        ensures hash { IfOk result (HasHash (H.hash_of self.old.groups.hasher
            (class_of (key_of spec.now.by ahead.now.row)))) }
        ensures each { self.new.groups.each ≡ self.old.groups.each }
        ensures budget { self.new.budget ≡ self.old.budget }
        ensures hasher { OnOk result (self.new.groups.hasher ≡ self.old.groups.hasher) }
    {
        self.offered = self.offered.wrapping_add(1);
        let row = &ahead.row;
        let key = &KeyRef::new(row.cells(), spec.by());
        match self.groups.find(key, ahead.hash, hint) {
            Found::At(number) => {
                self.groups.add(number, spec, row)?;
                Ok(Offered::Taken)
            }
            Found::Absent(absence) => {
                if self.groups.len() >= self.budget.entries() as usize {
                    return Ok(Offered::Left(absence.hash()));
                }
                let room = self.room_wanted();
                self.groups.add_group(alloc, spec, row, absence, room)?;
                Ok(Offered::Taken)
            }
        }
    }

    // The groups.
    pub(crate) fn into_groups(self) -> GroupMap<H>
        ensures { result ≡ self.groups }
    {
        self.groups
    }
}
