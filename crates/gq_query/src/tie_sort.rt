//! Sorts groups by their keys: by prefixes of codes first, then those that tie by what follows, depth first.
//!
//! The codes of a prefix are chosen so that few keys tie in it. Groups that do are sorted by the normalized
//! keys of their first cells, then by those of what follows: further cells, or the rest of a longer text; and
//! so on. Prefixes that differ decide, so whole keys are compared only among a few groups, or where no cell is
//! left.
ghost use Rattle.std.specs.Prelude.{◌≡◌, ◌<◌, ◌≤◌, ◌+◌, ◌-◌, ℕ, not, All, IfSome, IsTrue, IsPermutation, length, map, slice_index_or};
ghost use Rattle.std.specs.List.Sorted.{IsSorted, IsSortedByKey};
ghost use Rattle.std.specs.Ordering.{is_lt};
ghost use Rattle.gq_row.specs.Order.{compare_keys};
ghost use Rattle.gq_row.specs.Rows.{cell};
ghost use Rattle.gq_cells.specs.declared.cell_ref.CellRef.{CellRef as Reference};
ghost use Rattle.gq_cells.specs.Cells.{value_of};
ghost use Rattle.gq_query.specs.declared.sort_prefix.SortPrefix.{SortPrefix as Prefix};
ghost use Rattle.gq_query.specs.GroupSpans.{HasPrefix, IsGroupAt, compare_at, key_at, with_prefix};
ghost use Rattle.gq_query.specs.Ties.{AreTied, GoesOn, HasRestPrefix};

use crate::frames;
use crate::group_list::{GroupSpan, compare_keys_at, compare_spans};
use crate::sort_prefix::{SortPrefix, is_whole, rest_word, word_of};
use gq_cells::{CellRef, Cells};
use std::alloc::Global;
use std::cmp::Ordering;

// How deep ties are nested at most. Deeper ones are sorted by whole keys.
const MAX_DEPTH: usize = 64;

// How many groups that tie are sorted by whole keys at once.
const MAX_SHORT: usize = 4;

// How many cells are looked up before the first of them is read.
const BLOCK: usize = 16;

/// How far the keys of some groups tie: in their cells before `cell`, and in the first `skip` bytes of
/// that one. Each key has at least `width` cells. Ties are nested at most `depth` deep within this one.
#[derive(Clone, Copy)]
pub(crate) struct Tie {
    cell: usize,
    skip: usize,
    width: usize,
    depth: usize,
}

impl Tie {
    // How far those of the groups tie that have this prefix, if cells are left.
    #[inline]
    fn within(&self, prefix: SortPrefix) -> Option<Tie>
        ensures { IfSome result (GoesOn self.now prefix) }
    {
        let depth = self.depth.checked_sub(1)?;
        let (cell, skip) = prefix.past((self.cell, self.skip))?;
        if cell >= self.width {
            return None;
        }
        Some(Tie {
            cell,
            skip,
            width: self.width,
            depth,
        })
    }
}

/// Sorts groups by their keys, and overwrites their prefixes.
pub(crate) fn sort_groups(alloc: Global, cells: &Cells, groups: &mut [GroupSpan])
    requires { All (IsGroupAt cells.now) groups.old }
    ensures moved { (p : Prefix) → IsPermutation (map (with_prefix p) groups.old)
        (map (with_prefix p) groups.new) }
    ensures sorted { IsSortedByKey (key_at cells.now) compare_keys groups.new }
{
    let whole = Tie {
        cell: 0,
        skip: 0,
        width: least_width(groups),
        depth: MAX_DEPTH,
    };
    frames::write_prefixes(alloc, cells, groups, whole.width);
    sort_prefixed(cells, groups, whole);
}

// Sorts groups by their prefixes, and by their keys where these tie.
fn sort_prefixed(cells: &Cells, groups: &mut [GroupSpan], tie: Tie)
    requires { AreTied cells.now tie groups.old }
    ensures moved { IsPermutation groups.old groups.new }
    ensures sorted { IsSorted (compare_at cells.now) groups.new }
{
    groups.sort_unstable_by(|a, b| a.prefix.cmp(&b.prefix));
    if !sort_runs(cells, groups, tie) {
        groups.sort_unstable_by(|a, b| compare_spans(cells, a, b));
    }
}

// Sorts the groups of each prefix by their keys. Returns whether all are in order, which is so if they came
// sorted by their prefixes.
fn sort_runs(cells: &Cells, groups: &mut [GroupSpan], tie: Tie) -> bool
    requires { AreTied cells.now tie groups.old }
    ensures moved { IsPermutation groups.old groups.new }
    ensures sorted { IsTrue result → IsSorted (compare_at cells.now) groups.new }
{
    let mut sorted = true;
    let mut at = 0;
    'runs: while at < groups.len() {
        let end = tie_end(groups, at);
        let prefix = groups[at].prefix;
        sorted &= sort_run(cells, &mut groups[at..end], tie, prefix);
        sorted &= follows(cells, groups, at);
        at = end;
    }
    sorted
}

// Sorts groups with one prefix, which they keep, by their keys. Returns whether these are in order.
#[inline]
fn sort_run(cells: &Cells, groups: &mut [GroupSpan], tie: Tie, prefix: SortPrefix) -> bool
    requires same { All (HasPrefix prefix) groups.old }
    requires tied { AreTied cells.now tie groups.old }
    ensures moved { IsPermutation groups.old groups.new }
    ensures sorted { IsTrue result → IsSorted (compare_at cells.now) groups.new }
{
    groups.len() < 2 || sort_long_run(cells, groups, tie, prefix)
}

// The same for two groups or more.
fn sort_long_run(cells: &Cells, groups: &mut [GroupSpan], tie: Tie, prefix: SortPrefix) -> bool
    requires same { All (HasPrefix prefix) groups.old }
    requires tied { AreTied cells.now tie groups.old }
    ensures moved { IsPermutation groups.old groups.new }
    ensures sorted { IsTrue result → IsSorted (compare_at cells.now) groups.new }
{
    if groups.len() > MAX_SHORT {
        return sort_next(cells, groups, tie, prefix);
    }
    groups.sort_unstable_by(|a, b| compare_keys_at(cells, a, b));
    true
}

// The minimum number of cells of a key.
fn least_width(groups: &[GroupSpan]) -> usize
    ensures { All (λ (g : GroupSpan). result ≤ g.key) groups.now }
{
    let mut width = usize::MAX;
    for i in 0..groups.len() {
        width = width.min(groups[i].key as usize);
    }
    width
}

// Sorts the groups of each prefix by what follows. Returns whether all are in order, which is so if they
// came sorted by their prefixes.
#[cycle(ties)]
fn sort_ties(cells: &Cells, groups: &mut [GroupSpan], tie: Tie) -> bool
    requires tied { AreTied cells.now tie groups.old }
    requires prefixed { All (HasRestPrefix cells.now tie) groups.old }
    ensures moved { IsPermutation groups.old groups.new }
    ensures sorted { IsTrue result → IsSorted (compare_at cells.now) groups.new }
{
    let mut sorted = true;
    let mut at = 0;
    'ties: while at < groups.len() {
        let end = tie_end(groups, at);
        let prefix = groups[at].prefix;
        sorted &= sort_tie(cells, &mut groups[at..end], tie, prefix);
        sorted &= follows(cells, groups, at);
        at = end;
    }
    sorted
}

// Sorts groups with one prefix, which they keep. Returns whether their keys are in order.
#[inline]
#[cycle(ties)]
fn sort_tie(cells: &Cells, groups: &mut [GroupSpan], tie: Tie, prefix: SortPrefix) -> bool
    requires same { All (HasPrefix prefix) groups.old }
    requires tied { AreTied cells.now tie groups.old }
    requires prefixed { All (HasRestPrefix cells.now tie) groups.old }
    ensures moved { IsPermutation groups.old groups.new }
    ensures sorted { IsTrue result → IsSorted (compare_at cells.now) groups.new }
{
    groups.len() < 2 || sort_long_tie(cells, groups, tie, prefix)
}

// The same for two groups or more.
#[cycle(ties)]
fn sort_long_tie(cells: &Cells, groups: &mut [GroupSpan], tie: Tie, prefix: SortPrefix) -> bool
    requires same { All (HasPrefix prefix) groups.old }
    requires tied { AreTied cells.now tie groups.old }
    requires prefixed { All (HasRestPrefix cells.now tie) groups.old }
    ensures moved { IsPermutation groups.old groups.new }
    ensures sorted { IsTrue result → IsSorted (compare_at cells.now) groups.new }
{
    if groups.len() > MAX_SHORT
        && let Some(next) = tie.within(prefix)
    {
        return sort_next(cells, groups, next, prefix);
    }
    groups.sort_unstable_by(|a, b| compare_keys_at(cells, a, b));
    true
}

// The same by the prefixes of what follows.
#[cycle(ties)]
fn sort_next(cells: &Cells, groups: &mut [GroupSpan], tie: Tie, prefix: SortPrefix) -> bool
    requires same { All (HasPrefix prefix) groups.old }
    requires tied { AreTied cells.now tie groups.old }
    ensures moved { IsPermutation groups.old groups.new }
    ensures sorted { IsTrue result → IsSorted (compare_at cells.now) groups.new }
{
    sort_by_prefix(cells, groups, tie);
    let sorted = sort_ties(cells, groups, tie);
    for i in 0..groups.len() {
        groups[i].prefix = prefix;
    }
    sorted
}

// The end of the groups from `at` on that have its prefix.
#[inline]
fn tie_end(groups: &[GroupSpan], at: usize) -> usize
    requires { at < length groups.now }
    ensures within { (at < result) × (result ≤ length groups.now) }
    ensures ties { (k : ℕ) (d : GroupSpan) → at ≤ k → k < result →
        HasPrefix (slice_index_or groups.now at d).prefix (slice_index_or groups.now k d) }
{
    let prefix = groups[at].prefix;
    let mut end = at + 1;
    'ties: while end < groups.len() && groups[end].prefix == prefix {
        end += 1;
    }
    end
}

// Whether a group isn't below the one before it, if there is one.
#[inline]
fn follows(cells: &Cells, groups: &[GroupSpan], at: usize) -> bool
    requires { at < length groups.now }
    ensures first { at ≡ 0 → IsTrue result }
    ensures later { (d : GroupSpan) → 0 < at → result ≡ not (is_lt (compare_at cells.now
        (slice_index_or groups.now at d) (slice_index_or groups.now (at - 1) d))) }
{
    at == 0 || compare_spans(cells, &groups[at], &groups[at - 1]) != Ordering::Less
}

// Sorts groups that tie by the prefixes of what follows, which they are given.
fn sort_by_prefix(cells: &Cells, groups: &mut [GroupSpan], tie: Tie)
    ensures moved { (p : SortPrefix) → IsPermutation (map (with_prefix p) groups.old)
        (map (with_prefix p) groups.new) }
    ensures prefixed { All (HasRestPrefix cells.now tie) groups.new }
{
    let mut at = 0;
    'chunks: while at < groups.len() {
        let end = groups.len().min(at.saturating_add(BLOCK));
        write_prefixes(cells, &mut groups[at..end], tie);
        at = end;
    }
    groups.sort_unstable_by(|a, b| a.prefix.cmp(&b.prefix));
}

// Gives each group of a block the prefix of what follows.
fn write_prefixes(cells: &Cells, groups: &mut [GroupSpan], tie: Tie)
    requires { length groups.old ≤ 16 }
    ensures kept { (p : SortPrefix) → map (with_prefix p) groups.new ≡ map (with_prefix p) groups.old }
    ensures prefixed { All (HasRestPrefix cells.now tie) groups.new }
{
    let found = cells_at(cells, groups, tie.cell);
    for i in 0..groups.len() {
        groups[i].prefix = rest_prefix(cells, &groups[i], found[i], tie);
    }
}

// The prefix of what follows in a group's key, the first cell of which was found.
#[inline]
fn rest_prefix(cells: &Cells, group: &GroupSpan, found: CellRef<'_>, tie: Tie) -> SortPrefix
    requires { value_of found ≡ cell (key_at cells.now group.now) tie.cell }
    ensures { HasRestPrefix cells.now tie (with_prefix result group.now) }
{
    let high = word_of(found, tie.skip);
    let low = if is_whole(high) {
        word_of(cell_after(cells, group, tie.cell), 0)
    } else {
        rest_word(found, tie.skip)
    };
    SortPrefix { high, low }
}

// The cell of a group's key after a position, or null if the key is too short.
#[inline]
fn cell_after<'a>(cells: &'a Cells, group: &GroupSpan, position: usize) -> CellRef<'a>
    ensures { value_of result ≡ cell (key_at cells.now group.now) (position + 1) }
{
    if position >= group.key as usize {
        return CellRef::Null;
    }
    cell_at(cells, group, position + 1)
}

// The cells of the keys of a block's groups at a position. They are looked up before the first of
// them is read, so that these reads of memory overlap.
#[inline]
fn cells_at<'a>(cells: &'a Cells, groups: &[GroupSpan], position: usize) -> [CellRef<'a>; BLOCK]
    requires { length groups.now ≤ 16 }
    ensures { (k : ℕ) (d : GroupSpan) (e : Reference) → k < length groups.now →
        value_of (slice_index_or result k e) ≡
        cell (key_at cells.now (slice_index_or groups.now k d)) position }
{
    let mut found = [CellRef::Null; BLOCK];
    for i in 0..groups.len() {
        found[i] = cell_at(cells, &groups[i], position);
    }
    found
}

// The cell of a group's key at a position, or null if the key is too short.
#[inline]
pub(crate) fn cell_at<'a>(cells: &'a Cells, group: &GroupSpan, position: usize) -> CellRef<'a>
    ensures { value_of result ≡ cell (key_at cells.now group.now) position }
{
    if position >= group.key as usize {
        return CellRef::Null;
    }
    let place = group.start() + position;
    if place < cells.len() {
        cells.get(place)
    } else {
        CellRef::Null
    }
}
