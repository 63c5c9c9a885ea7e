//! A list of groups, as a sink.
//!
//! One list holds the cells of all groups, group after group: its key, then its shown values.
//! Sorting moves spans and no cells.
ghost use Rattle.std.specs.Prelude.{◌≡◌, ◌+◌, ◌<◌, ◌^◌, ◌++◌, ◌∷◌, [], IfOk, IsOk, IsPermutation, OnOk, drop, length, slice_index_or, map};
ghost use Rattle.std.specs.List.Sorted.{IsSortedByKey};
ghost use Rattle.gq_row.specs.Order.{compare_keys};
ghost use Rattle.gq_cells.specs.Lists.{IsPart, part, row_at};
ghost use Rattle.gq_group.specs.Groups.{Group};
ghost use Rattle.gq_query.specs.GroupSpans.{IsSpan, compare_at, end_of, middle_of};
ghost use Rattle.gq_query.specs.Joining.{row_of};

use crate::sort_prefix::SortPrefix;
use crate::tie_sort::sort_groups;
use gq_cells::{Cells, KeysLeft, RowSpan, Rows, Span};
use gq_group::{GroupSink, Refusal};
use gq_row::{Key, Value};
use gq_spill::RunStore;
use std::alloc::{AllocError, Global};
use std::cmp::Ordering;
use std::marker::Model;

/// The cells of a group: `key` cells of its key from `start` on, then `values` cells of its values. Sorts
/// set the prefix. It has 24 bytes, since each group has one and sorts move it.
#[derive(Clone, Copy)]
pub struct GroupSpan {
    pub(crate) prefix: SortPrefix,
    start: u32,
    pub(crate) key: u16,
    values: u16,
}

impl GroupSpan {
    // A start of 2^32 cells (32 GiB or more), or a key or values of 2^16 cells, count as out of
    // memory.
    #[inline]
    fn new(start: usize, key: usize, values: usize) -> Result<GroupSpan, AllocError>
        ensures made { IfOk result (IsSpan start key values) }
        ensures fits { start < 2 ^ 32 → key < 2 ^ 16 → values < 2 ^ 16 → IsOk result }
    {
        match (
            u32::try_from(start),
            u16::try_from(key),
            u16::try_from(values),
        ) {
            (Ok(start), Ok(key), Ok(values)) => Ok(GroupSpan {
                prefix: SortPrefix { high: 0, low: 0 },
                start,
                key,
                values,
            }),
            _ => Err(AllocError),
        }
    }

    // Where the cells of the key begin.
    #[inline]
    pub(crate) fn start(&self) -> usize
        ensures { result ≡ self.now.start }
    {
        self.start as usize
    }

    // Where the cells of the key end.
    #[inline]
    pub(crate) fn middle(&self) -> usize
        ensures { result ≡ middle_of self.now }
    {
        self.start as usize + self.key as usize
    }

    // Where the cells of the values end.
    #[inline]
    fn end(&self) -> usize
        ensures { result ≡ end_of self.now }
    {
        self.start as usize + self.key as usize + self.values as usize
    }
}

/// The groups that were pushed, in that order, each with its key and its shown values.
#[derive(Drop)]
pub struct GroupList {
    alloc: Global,
    cells: Cells,
    groups: Vec<GroupSpan>,
    // For how many groups the next one reserves cells.
    expected: usize,
}

impl Model for GroupList {
    ghost use Rattle.std.specs.Prelude.{List, All, map};
    ghost use Rattle.gq_group.specs.Groups.{Group};
    ghost use Rattle.gq_query.specs.GroupSpans.{IsGroupAt, group_at};

    ghost Value = { List Group };

    ghost view = { λ s. map (group_at s.cells) s.groups.items };

    ghost invariant = { λ s. All (IsGroupAt s.cells) s.groups.items };
}

impl GroupList {
    /// An empty list; allocates nothing. Texts are stored out of line, since most shown values are
    /// numbers.
    pub fn new(alloc: Global) -> GroupList
        ensures { result ≡ [] }
    {
        GroupList::with_cells(alloc, Cells::with_texts_apart(alloc))
    }

    /// An empty list for groups of which only the keys are shown.
    pub fn of_keys(alloc: Global) -> GroupList
        ensures { result ≡ [] }
    {
        GroupList::with_cells(alloc, Cells::new(alloc))
    }

    fn with_cells(alloc: Global, cells: Cells) -> GroupList
        ensures { result ≡ [] }
    {
        GroupList {
            alloc,
            cells,
            groups: Vec::new(alloc),
            expected: 0,
        }
    }

    /// The number of groups.
    pub fn len(&self) -> usize
        ensures { result ≡ length self.now }
    {
        self.groups.len()
    }

    // Reserves cells for all expected groups, if each has as many as those from `start` on. If that
    // allocation fails, the list grows as groups come.
    fn make_room(&mut self, start: usize)
        ensures { self.new ≡ self.old }
    {
        if self.expected > 0 {
            let width = self.cells.len().saturating_sub(start);
            let _ = self.cells.reserve(self.expected.saturating_mul(width));
            self.expected = 0;
        }
    }

    // Appends a group.
    #[inline(always)]
    fn add(&mut self, key: Key, values: &mut Vec<Value>) -> Result<(), AllocError>
        ensures { OnOk result (self.new ≡ self.old ++ (key, values.old.items) ∷ []) }
    {
        let start = self.cells.len();
        let span = GroupSpan::new(start, key.len(), values.len())?;
        put_key(self.alloc, &mut self.cells, key)?;
        self.cells.push_all(self.alloc, values.as_mut_slice())?;
        self.groups.push(span)?;
        self.make_room(start);
        Ok(())
    }

    // Appends a group whose key is the first of those that leave a list.
    #[inline(always)]
    fn add_first(&mut self, keys: &mut KeysLeft, values: &mut Vec<Value>) -> Result<(), AllocError>
        requires { 0 < length keys.old }
        ensures added { OnOk result (self.new ≡
            self.old ++ (slice_index_or keys.old 0 [], values.old.items) ∷ []) }
        ensures left { OnOk result (keys.new ≡ drop 1 keys.old) }
        ensures fewer { length keys.new + 1 ≡ length keys.old }
    {
        let start = self.cells.len();
        self.cells.push_key(self.alloc, keys)?;
        let width = self.cells.len() - start;
        let span = GroupSpan::new(start, width, values.len())?;
        self.cells.push_all(self.alloc, values.as_mut_slice())?;
        self.groups.push(span)?;
        self.make_room(start);
        Ok(())
    }

    /// Appends a group. The values move out of the borrowed lists, whose contents are then
    /// unspecified.
    pub fn push_group(
        &mut self,
        key: &mut Vec<Value>,
        values: &mut Vec<Value>,
    ) -> Result<(), AllocError>
        ensures { OnOk result (self.new ≡ self.old ++ (key.old.items, values.old.items) ∷ []) }
    {
        let span = GroupSpan::new(self.cells.len(), key.len(), values.len())?;
        self.cells.push_all(self.alloc, key.as_mut_slice())?;
        self.cells.push_all(self.alloc, values.as_mut_slice())?;
        self.groups.push(span)?;
        Ok(())
    }

    /// Overwrites `key` with the key of a group.
    pub fn copy_key(&self, group: usize, key: &mut Vec<Value>) -> Result<(), AllocError>
        requires { group < length self.now }
        ensures { OnOk result (key.new.items ≡ (slice_index_or self.now group ([], [])).0) }
    {
        let group = self.groups[group];
        let span = Span {
            start: group.start(),
            end: group.middle(),
        };
        self.cells.copy_part(self.alloc, span, key)
    }

    /// Overwrites `values` with the shown values of a group.
    pub fn copy_values(&self, group: usize, values: &mut Vec<Value>) -> Result<(), AllocError>
        requires { group < length self.now }
        ensures { OnOk result (values.new.items ≡ (slice_index_or self.now group ([], [])).1) }
    {
        let group = self.groups[group];
        let span = Span {
            start: group.middle(),
            end: group.end(),
        };
        self.cells.copy_part(self.alloc, span, values)
    }

    /// Sorts the groups by their keys.
    pub fn sort(&mut self)
        ensures moved { IsPermutation self.old self.new }
        ensures ascending { IsSortedByKey (λ (g : Group). g.0) compare_keys self.new }
    {
        sort_groups(self.alloc, &self.cells, self.groups.as_mut_slice());
    }

    /// The result rows of the groups: the key's values, then the shown values. No cell moves.
    pub fn into_rows(self, alloc: Global) -> Result<Rows, AllocError>
        ensures { IfOk result (λ rows. rows ≡ map row_of self) }
    {
        let mut spans = Vec::with_capacity(alloc, self.groups.len())?;
        for group in &self.groups {
            let span = Span {
                start: group.start(),
                end: group.end(),
            };
            spans.push(RowSpan::new(span)?)?;
        }
        Ok(Rows::of(self.cells, spans))
    }

    /// The result rows without the keys.
    pub fn into_values(self, alloc: Global) -> Result<Rows, AllocError>
        ensures { IfOk result (λ rows. rows ≡ map (λ (g : Group). g.1) self) }
    {
        let mut spans = Vec::with_capacity(alloc, self.groups.len())?;
        for group in &self.groups {
            let span = Span {
                start: group.middle(),
                end: group.end(),
            };
            spans.push(RowSpan::new(span)?)?;
        }
        Ok(Rows::of(self.cells, spans))
    }
}

// Moves the values of a key to the end of the cells.
#[inline(always)]
fn put_key(alloc: Global, cells: &mut Cells, key: Key) -> Result<(), AllocError>
    ensures put { OnOk result (cells.new ≡ cells.old ++ key) }
    ensures kept { cells.new ≡ cells.old ++ drop (length cells.old) cells.new }
{
    if key.len() > 2 {
        let mut values = key.into_row(alloc)?.into_cells();
        return cells.push_all(alloc, values.as_mut_slice());
    }
    put_short_key(alloc, cells, key)
}

// The same one by one, without an allocation for one or two values.
#[inline(always)]
fn put_short_key(alloc: Global, cells: &mut Cells, key: Key) -> Result<(), AllocError>
    ensures put { OnOk result (cells.new ≡ cells.old ++ key) }
    ensures kept { cells.new ≡ cells.old ++ drop (length cells.old) cells.new }
{
    let mut key = key;
    for i in 0..key.len() {
        cells.push(alloc, &mut key.take(i))?;
    }
    Ok(())
}

// Appends copies of values.
pub(crate) fn copy_cells(
    alloc: Global,
    cells: &mut Vec<Value>,
    values: &[Value],
) -> Result<(), AllocError>
    ensures { OnOk result (cells.new.items ≡ cells.old.items ++ values.now) }
{
    for value in values {
        cells.push(value.copy(alloc)?)?;
    }
    Ok(())
}

// The span of a group's key, clamped to the list.
#[inline]
fn key_within(cells: &Cells, group: &GroupSpan) -> Span
    ensures within { IsPart cells.now result }
    ensures key { row_at cells.now result ≡ part cells.now group.now.start (middle_of group.now) }
{
    let len = cells.len();
    Span {
        start: group.start().min(len),
        end: group.middle().min(len),
    }
}

// The order of two groups by their keys.
#[inline]
pub(crate) fn compare_spans(cells: &Cells, a: &GroupSpan, b: &GroupSpan) -> Ordering
    ensures { result ≡ compare_at cells.now a.now b.now }
{
    match a.prefix.cmp(&b.prefix) {
        Ordering::Equal => compare_keys_at(cells, a, b),
        told => told,
    }
}

// The same if the prefixes tie. Not inlined, so that the sort's loops stay short.
#[inline(never)]
pub(crate) fn compare_keys_at(cells: &Cells, a: &GroupSpan, b: &GroupSpan) -> Ordering
    ensures { result ≡ compare_keys (part cells.now a.now.start (middle_of a.now))
        (part cells.now b.now.start (middle_of b.now)) }
{
    cells.compare(key_within(cells, a), key_within(cells, b))
}

impl<S: RunStore> GroupSink<S> for GroupList {
    ghost use Rattle.std.specs.Prelude.{◌≡◌, false};
    ghost use Rattle.gq_query.specs.Sources.{no_runs};
    ghost use Rattle.gq_query.specs.Sources.{none_live};

    ghost owns = { λ s. no_runs };

    ghost is_ready = { λ s runs. Unit {0} };

    ghost holds = { λ s runs groups. groups ≡ s };

    ghost makes_runs = { false };

    fn make_room(&mut self, groups: usize) {
        let _ = self.groups.reserve(groups);
        self.expected = groups;
    }

    fn push(&mut self, store: &mut S, key: Key, values: &mut Vec<Value>) -> Result<(), Refusal> {
        let _ = store;
        match self.add(key, values) {
            Ok(()) => Ok(()),
            Err(_) => Err(Refusal::Memory),
        }
    }

    fn push_first(
        &mut self,
        store: &mut S,
        keys: &mut KeysLeft,
        values: &mut Vec<Value>,
    ) -> Result<(), Refusal> {
        let _ = store;
        match self.add_first(keys, values) {
            Ok(()) => Ok(()),
            Err(_) => Err(Refusal::Memory),
        }
    }

    ghost own_live = { λ s runs ready run own. none_live runs run own };

    ghost stays_ready = { λ s old new kept ready. tt };

    ghost keeps_groups = { λ s old new kept ready honest groups holds. holds };
}
