//! Groups, and their running aggregates in one list.
ghost use Rattle.std.specs.Prelude.{◌≡◌, ◌<◌, ◌≤◌, ◌^◌, ◌++◌, ◌∷◌, [], Some, List, length, IsTrue, IfOk, OnOk, OnErr};
ghost use Rattle.std.specs.List.{slice_get};
ghost use Rattle.std.specs.FinMap.{insert, empty, len};
ghost use Rattle.sw_flat.specs.Maps.{ListsAll};
ghost use Rattle.gq_row.specs.declared.value.Value.{Value as Cell};
ghost use Rattle.gq_row.specs.Classes.{class_of};
ghost use Rattle.gq_row.specs.Rows.{key_of};
ghost use Rattle.gq_group.specs.Entries.{Grouped, listed, tallies};
ghost use Rattle.gq_group.specs.Groups.{fits_spec};
ghost use Rattle.gq_group.specs.KeptAggs.{kept_aggs};
ghost use Rattle.gq_group.specs.Maps.{IsGroup, IsNoGroup, HasNoGroup};

use crate::aggs::{add_cells, append_aggs, start_aggs};
use crate::drain::Drain;
use crate::group_spec::GroupSpec;
use crate::key_index::KeyIndex;
use gq_agg::{Agg, AggKind};
use gq_row::{Key, KeyRef, Row};
use std::alloc::{AllocError, Global};
use std::marker::Model;
use sw_index::{Absence, Found};
use sw_probe::KeyHash;

// Where the group of a key may be. Only speed depends on it.
#[derive(Clone, Copy)]
pub(crate) enum Hint {
    // Nothing is known: the hash suggests a group.
    Unknown,
    // Probably it has this number.
    Likely(usize),
    // Probably there is none.
    Unlikely,
}

// Groups in the order in which they came, with `each` running aggregates each. All of these are in
// one list in the order of the keys, which are in another, so that a key's number says where its own
// begin, and a group allocates nothing but long texts.
#[derive(Drop)]
pub(crate) struct GroupMap<H: KeyHash<Key>> {
    index: KeyIndex<H>,
    running: Vec<Agg>,
    each: usize,
}

impl<H: KeyHash<Key>> Model for GroupMap<H> {
    ghost use Rattle.gq_group.specs.Maps.{MapView, pairs_from, AreKept};

    ghost Value = { MapView H };

    ghost view = { λ g. record { pairs = pairs_from g.each 0 g.running.items g.index.keys; hasher = g.index.hasher; each = g.each } };

    ghost invariant = { λ g. AreKept g.each g.running.items g.index.keys };
}

impl<H: KeyHash<Key> + Copy> GroupMap<H> {
    // The groups of no rows: none, or without columns to group by that of the empty key.
    pub(crate) fn start(
        alloc: Global,
        hasher: H,
        spec: &GroupSpec,
    ) -> Result<GroupMap<H>, AllocError>
        ensures grouped { IfOk result (λ groups. Grouped spec.now [] groups.pairs) }
        ensures few { IfOk result (λ groups. len (listed groups.pairs) ≤ 1) }
        ensures each { IfOk result (λ groups. groups.each ≡ length spec.now.aggs) }
        ensures hasher { IfOk result (λ groups. groups.hasher ≡ hasher) }
    {
        if spec.by().is_empty() {
            return GroupMap::start_alone(alloc, hasher, spec);
        }
        Ok(GroupMap {
            index: KeyIndex::new(alloc, spec.by().len(), hasher),
            running: Vec::new(alloc),
            each: spec.aggs().len(),
        })
    }

    // The group of the empty key alone, over no rows.
    fn start_alone(alloc: Global, hasher: H, spec: &GroupSpec) -> Result<GroupMap<H>, AllocError>
        ensures entries { IfOk result (λ groups. listed groups.pairs ≡
            insert empty (class_of []) ([], tallies spec.now.aggs [])) }
        ensures each { IfOk result (λ groups. groups.each ≡ length spec.now.aggs) }
        ensures hasher { IfOk result (λ groups. groups.hasher ≡ hasher) }
    {
        let key = KeyRef::new(&[], &[]);
        let mut index = KeyIndex::new(alloc, 0, hasher);
        let Found::Absent(absence) = index.find_hashed(&key, index.hash(&key)) else {
            unreachable!();
        };
        let mut running = Vec::new(alloc);
        start_aggs(alloc, spec.aggs(), &mut running)?;
        index.add(absence, &key)?;
        Ok(GroupMap {
            index,
            running,
            each: spec.aggs().len(),
        })
    }

    // Reserves room for the keys and aggregates of this number of groups, if memory allows. Pages that are
    // never written take addresses alone.
    pub(crate) fn expect(&mut self, groups: usize)
        ensures { self.new ≡ self.old }
    {
        let wanted = groups.saturating_mul(self.each);
        let _ = self
            .running
            .reserve(wanted.saturating_sub(self.running.len()));
        self.index.expect(groups);
    }

    // The number of groups.
    #[inline]
    pub(crate) fn len(&self) -> usize
        ensures { result ≡ len (listed self.now.pairs) }
    {
        self.index.len()
    }

    // How many groups there may be before the table of the index grows.
    #[inline]
    pub(crate) fn room(&self) -> usize {
        self.index.room()
    }

    // The hash of a key, for the calls that take a hash.
    #[inline(always)]
    pub(crate) fn hash(&self, key: &KeyRef<'_>) -> u64
        ensures { result ≡ H.hash_of self.now.hasher (class_of key.now) }
    {
        self.index.hash(key)
    }

    // The number of the group of a key with this hash, or the hash if the key has none. Tries the
    // hinted group first.
    #[inline(always)]
    pub(crate) fn find(&self, key: &KeyRef<'_>, hash: u64, hint: Hint) -> Found
        requires { hash ≡ H.hash_of self.now.hasher (class_of key.now) }
        ensures found { IsGroup self.now.pairs (class_of key.now) result }
        ensures absent { IsNoGroup (H.hash_of self.now.hasher) self.now.pairs
            (class_of key.now) result }
    {
        let likely = match hint {
            Hint::Unknown => self.index.candidate(hash),
            Hint::Likely(number) => Some(number),
            Hint::Unlikely => None,
        };
        if let Some(number) = likely
            && self.index.is_at(number, key)
        {
            return Found::At(number);
        }
        self.find_hashed(key, hash)
    }

    // As `find`, without a hint. Not inlined, so that `find` stays short.
    #[inline(never)]
    fn find_hashed(&self, key: &KeyRef<'_>, hash: u64) -> Found
        requires { hash ≡ H.hash_of self.now.hasher (class_of key.now) }
        ensures found { IsGroup self.now.pairs (class_of key.now) result }
        ensures absent { IsNoGroup (H.hash_of self.now.hasher) self.now.pairs
            (class_of key.now) result }
    {
        self.index.find_hashed(key, hash)
    }

    // The number of the group that a key with this hash probably has, by its slot alone. No contract
    // covers it.
    #[inline(always)]
    pub(crate) fn candidate(&self, hash: u64) -> Option<usize> {
        self.index.candidate(hash)
    }

    // Adds a row to the group of its key, by the group's number. On error the group's state is
    // unspecified.
    #[inline(always)]
    pub(crate) fn add(
        &mut self,
        number: usize,
        spec: &GroupSpec,
        row: &Row,
    ) -> Result<(), AllocError>
        requires tallied { (rows : List (List Cell)) × (length rows < 2 ^ 32) ×
            (slice_get self.old.pairs number ≡
            Some (key_of spec.now.by row.now, tallies spec.now.aggs rows)) }
        requires fits { IsTrue (fits_spec spec.now row.now) }
        ensures entries { OnOk result ((rows : List (List Cell)) →
            slice_get self.old.pairs number ≡
            Some (key_of spec.now.by row.now, tallies spec.now.aggs rows) →
            listed self.new.pairs ≡ insert (listed self.old.pairs)
            (class_of (key_of spec.now.by row.now))
            (key_of spec.now.by row.now, tallies spec.now.aggs (rows ++ row.now ∷ []))) }
        ensures count { len (listed self.new.pairs) ≡ len (listed self.old.pairs) }
        ensures each { self.new.each ≡ self.old.each }
        ensures hasher { self.new.hasher ≡ self.old.hasher }
    {
        let start = number * self.each;
        let end = start + self.each;
        add_cells(&mut self.running[start..end], spec.aggs(), row)
    }

    // Adds the group of a row with a new key, and makes room for the keys of `room` groups in all, if
    // memory allows.
    pub(crate) fn add_group(
        &mut self,
        alloc: Global,
        spec: &GroupSpec,
        row: &Row,
        absence: Absence,
        room: usize,
    ) -> Result<(), AllocError>
        requires each { self.old.each ≡ length spec.now.aggs }
        requires fits { IsTrue (fits_spec spec.now row.now) }
        requires absent { HasNoGroup (H.hash_of self.old.hasher) self.old.pairs
            (class_of (key_of spec.now.by row.now)) absence }
        ensures entries { OnOk result (listed self.new.pairs ≡
            insert (listed self.old.pairs) (class_of (key_of spec.now.by row.now))
            (key_of spec.now.by row.now, tallies spec.now.aggs (row.now ∷ []))) }
        ensures each { self.new.each ≡ self.old.each }
        ensures hasher { self.new.hasher ≡ self.old.hasher }
        ensures err { OnErr result (self.new ≡ self.old) }
    {
        let key = KeyRef::new(row.cells(), spec.by());
        let start = self.running.len();
        append_aggs(alloc, spec.aggs(), row, &mut self.running)?;
        let Ok(()) = self.index.add(absence, &key) else {
            self.running.truncate(start);
            return Err(AllocError);
        };
        self.index.make_room(room);
        Ok(())
    }

    // The groups, which leave one by one with the aggregates that are asked of each.
    pub(crate) fn drain<'a>(self, asked: &'a [(AggKind, usize)]) -> Drain<'a>
        requires { self.each ≡ length (kept_aggs asked.now) }
        ensures groups { ListsAll class_of result.pairs (listed self.pairs) }
        ensures asked { result.asked ≡ asked.now }
    {
        let GroupMap {
            index,
            running,
            each,
        } = self;
        Drain::new(index.leave(), running, each, asked)
    }
}
