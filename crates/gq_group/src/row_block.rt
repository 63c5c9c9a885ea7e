//! Rows that are read ahead, so that what a pass waits for in memory overlaps.
//!
//! To place a row takes reads that depend on each other: control bytes, the number in a slot, the key,
//! and the running aggregates. With many groups few of them are cached. So a block of rows is read and
//! hashed first, and a short loop finds the number of each; then rows are placed by their numbers.
ghost use Rattle.std.specs.Prelude.{◌≡◌, ◌+◌, ◌<◌, ◌≤◌, ◌^◌, [], Some, List, length, IsTrue, IfOk, IfSome, OnOk};
ghost use Rattle.std.specs.List.{slice_get};
ghost use Rattle.gq_row.specs.declared.value.Value.{Value as Cell};
ghost use Rattle.gq_spill.specs.Handing.{came};
ghost use Rattle.gq_group.specs.Blocks.{IsHashed, AreHashed, Comes, ReadAhead, Then, left_of, row_at};
ghost use Rattle.gq_group.specs.Groups.{all_fit};

use crate::group_map::Hint;
use crate::pass::Pass;
use crate::refusal::Refusal;
use crate::resident_table::ResidentTable;
use crate::row_source::RowSource;
use gq_row::{Key, Row};
use gq_spill::RunStore;
use std::alloc::{AllocError, Global};
use sw_probe::KeyHash;

// How many rows are read ahead: enough reads for a processor to have many of them under way.
const ROWS: usize = 32;

// A row that was read ahead, and the hash of its key.
#[derive(Drop)]
pub(crate) struct Ahead {
    pub(crate) row: Row,
    pub(crate) hash: u64,
}

// Rows that were read ahead of a source, in the memory of those before them.
#[derive(Drop)]
pub(crate) struct RowBlock {
    rows: Vec<Ahead>,
    // How many of them were read, and how many of these were taken.
    count: usize,
    taken: usize,
    // Where the group of each row may be.
    hints: Vec<Hint>,
    ghost some: { 0 < length rows.items },
    ghost within: { count ≤ length rows.items },
}

impl RowBlock {
    // A block without rows.
    pub(crate) fn new(alloc: Global) -> Result<RowBlock, AllocError>
        ensures { IfOk result (λ block. left_of block.taken block.count block.rows.items ≡ []) }
    {
        let mut rows = Vec::with_capacity(alloc, ROWS)?;
        let mut hints = Vec::with_capacity(alloc, ROWS)?;
        'rows: for i in 0..ROWS {
            rows.push(Ahead {
                row: Row::new(Vec::new(alloc)),
                hash: 0,
            })?;
            hints.push(Hint::Unknown)?;
        }
        Ok(RowBlock {
            rows,
            count: 0,
            taken: 0,
            hints,
        })
    }

    // Takes the next row, and returns its place. If none is left in the block, reads the next ones.
    #[inline(always)]
    pub(crate) fn next<H: KeyHash<Key> + Copy, S: RunStore, R: RowSource<S>>(
        &mut self,
        pass: &Pass<'_, H>,
        source: &mut R,
        store: &mut S,
        table: &ResidentTable<H>,
    ) -> Result<Option<usize>, Refusal>
        requires source { R.is_ready source.old (S.runs store.old) }
        requires hashed { AreHashed pass.now.spec.now (H.hash_of table.now.groups.hasher)
            (left_of self.old.taken self.old.count self.old.rows.items) }
        requires rows { IsTrue (S.runs store.old).honest → (rows : List (List Cell)) ×
            Then (left_of self.old.taken self.old.count self.old.rows.items)
            (R.gives source.old (S.runs store.old)) rows × IsTrue (all_fit pass.now.spec.now rows) }
        ensures comes { Comes (row_at self.new.rows.items)
            (Then (left_of self.old.taken self.old.count self.old.rows.items)
            (R.gives source.old (S.runs store.old)))
            (Then (left_of self.new.taken self.new.count self.new.rows.items)
            (R.gives source.new (S.runs store.new))) (R.owns source.old) (R.owns source.new)
            (length (left_of self.old.taken self.old.count self.old.rows.items) + R.bound source.old)
            (length (left_of self.new.taken self.new.count self.new.rows.items) + R.bound source.new)
            (R.is_ready source.new (S.runs store.new)) R.makes_runs (S.runs store.old)
            (S.runs store.new) result }
        ensures row { IfOk result (λ found. IfSome found (λ place. (ahead : Ahead) ×
            (slice_get self.new.rows.items place ≡ Some ahead) ×
            IsHashed pass.now.spec.now (H.hash_of table.now.groups.hasher) ahead)) }
        ensures hashed { OnOk result (AreHashed pass.now.spec.now (H.hash_of table.now.groups.hasher)
            (left_of self.new.taken self.new.count self.new.rows.items)) }
    {
        if self.taken < self.count {
            let place = self.taken;
            self.taken += 1;
            return Ok(Some(place));
        }
        self.fill(pass, source, store, table)
    }

    // Reads the next rows, and takes the first.
    fn fill<H: KeyHash<Key> + Copy, S: RunStore, R: RowSource<S>>(
        &mut self,
        pass: &Pass<'_, H>,
        source: &mut R,
        store: &mut S,
        table: &ResidentTable<H>,
    ) -> Result<Option<usize>, Refusal>
        requires source { R.is_ready source.old (S.runs store.old) }
        requires rows { IsTrue (S.runs store.old).honest → (rows : List (List Cell)) ×
            R.gives source.old (S.runs store.old) rows × IsTrue (all_fit pass.now.spec.now rows) }
        ensures comes { Comes (row_at self.new.rows.items) (R.gives source.old (S.runs store.old))
            (Then (left_of self.new.taken self.new.count self.new.rows.items)
            (R.gives source.new (S.runs store.new))) (R.owns source.old) (R.owns source.new)
            (R.bound source.old)
            (length (left_of self.new.taken self.new.count self.new.rows.items) + R.bound source.new)
            (R.is_ready source.new (S.runs store.new)) R.makes_runs (S.runs store.old)
            (S.runs store.new) result }
        ensures row { IfOk result (λ found. IfSome found (λ place. (ahead : Ahead) ×
            (slice_get self.new.rows.items place ≡ Some ahead) ×
            IsHashed pass.now.spec.now (H.hash_of table.now.groups.hasher) ahead)) }
        ensures hashed { OnOk result (AreHashed pass.now.spec.now (H.hash_of table.now.groups.hasher)
            (left_of self.new.taken self.new.count self.new.rows.items)) }
    {
        let count = read_ahead(pass, source, store, table, &mut self.rows)?;
        self.count = count;
        self.taken = 1;
        if count == 0 {
            return Ok(None);
        }
        if table.is_large() {
            find_hints(table, &self.rows[..count], &mut self.hints);
        }
        Ok(Some(0))
    }

    // The row at a place.
    #[inline(always)]
    pub(crate) fn row(&self, place: usize) -> &Ahead
        requires { (ahead : Ahead) × (slice_get self.now.rows.items place ≡ Some ahead) }
        ensures { slice_get self.now.rows.items place ≡ Some result.now }
    {
        &self.rows[place]
    }

    // Where the group of the row at a place may be. No contract covers it.
    #[inline(always)]
    pub(crate) fn hint(&self, place: usize) -> Hint {
        match self.hints.get(place) {
            Some(hint) => *hint,
            None => Hint::Unknown,
        }
    }
}

// Reads a row over another, and hashes its key. Returns whether there was one.
#[inline(always)]
fn read_row<H: KeyHash<Key> + Copy, S: RunStore, R: RowSource<S>>(
    pass: &Pass<'_, H>,
    source: &mut R,
    store: &mut S,
    table: &ResidentTable<H>,
    over: &mut Ahead,
) -> Result<bool, Refusal>
    requires source { R.is_ready source.old (S.runs store.old) }
    requires rows { IsTrue (S.runs store.old).honest → (rows : List (List Cell)) ×
        R.gives source.old (S.runs store.old) rows × IsTrue (all_fit pass.now.spec.now rows) }
    ensures comes { Comes (λ more. came more over.new.row) (R.gives source.old (S.runs store.old))
        (R.gives source.new (S.runs store.new)) (R.owns source.old) (R.owns source.new)
        (R.bound source.old) (R.bound source.new) (R.is_ready source.new (S.runs store.new))
        R.makes_runs (S.runs store.old) (S.runs store.new) result }
    ensures hashed { IfOk result (λ more. IsTrue more →
        IsHashed pass.now.spec.now (H.hash_of table.now.groups.hasher) over.new) }
{
    let more = source.next(store, &mut over.row)?;
    if !more {
        return Ok(false);
    }
    if !pass.spec.fits(&over.row) {
        return Err(Refusal::Damaged);
    }
    over.hash = table.hash(pass.spec, &over.row);
    Ok(true)
}

// Reads rows over others, with the hashes of their keys, and returns how many there were.
fn read_ahead<H: KeyHash<Key> + Copy, S: RunStore, R: RowSource<S>>(
    pass: &Pass<'_, H>,
    source: &mut R,
    store: &mut S,
    table: &ResidentTable<H>,
    rows: &mut [Ahead],
) -> Result<usize, Refusal>
    requires source { R.is_ready source.old (S.runs store.old) }
    requires rows { IsTrue (S.runs store.old).honest → (rows : List (List Cell)) ×
        R.gives source.old (S.runs store.old) rows × IsTrue (all_fit pass.now.spec.now rows) }
    requires some { 0 < length rows.old }
    ensures read { ReadAhead pass.now.spec.now (H.hash_of table.now.groups.hasher) rows.new
        (R.gives source.old (S.runs store.old)) (R.gives source.new (S.runs store.new))
        (R.owns source.old) (R.owns source.new) (R.bound source.old) (R.bound source.new)
        (R.is_ready source.new (S.runs store.new)) R.makes_runs (S.runs store.old)
        (S.runs store.new) result }
    ensures within { IfOk result (λ count. count ≤ length rows.old) }
{
    'rows: for i in 0..rows.len() {
        let more = read_row(pass, source, store, table, &mut rows[i])?;
        if !more {
            return Ok(i);
        }
    }
    Ok(rows.len())
}

// Looks rows up by their hashes alone. No contract covers it.
fn find_hints<H: KeyHash<Key> + Copy>(
    table: &ResidentTable<H>,
    rows: &[Ahead],
    hints: &mut [Hint],
) {
    for (ahead, hint) in rows.iter().zip(hints) {
        *hint = match table.candidate(ahead.hash) {
            Some(number) => Hint::Likely(number),
            None => Hint::Unlikely,
        };
    }
}
