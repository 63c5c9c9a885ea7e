//! Candidates for the keys of rows that are still to come, in a set.
//!
//! A look-up in a large set waits for memory twice. Here the keys of a block of rows are hashed, and a short loop then
//! finds a candidate for each, so that these reads overlap. No contract covers any of it: a candidate counts only if
//! its key is the row's.
ghost use Rattle.std.specs.Prelude.{◌≡◌, ◌<◌, true, All, length};

use gq_row::{Key, Value};
use gq_select::KeySet;
use gq_table::RowCursor;
use sw_probe::KeyHash;

// How many rows are looked at before the first look-up.
const ROWS: usize = 32;

/// The rows whose candidates are still to be found, and the candidates of a block of rows before them.
#[derive(Drop)]
pub struct MatchAhead<'a> {
    rows: RowCursor<'a>,
    candidates: [Option<usize>; ROWS],
    // How many of the candidates were taken.
    taken: usize,
}

impl<'a> MatchAhead<'a> {
    /// Candidates for the rows of this cursor, of which none was taken.
    pub fn new(rows: RowCursor<'a>) -> MatchAhead<'a> {
        MatchAhead {
            rows,
            candidates: [None; ROWS],
            taken: ROWS,
        }
    }

    /// The candidate for the next row, by its key in these columns.
    #[inline]
    pub fn next<H: KeyHash<Key>>(&mut self, keys: &KeySet<H>, columns: &[usize]) -> Option<usize> {
        if self.taken >= ROWS {
            self.fill(keys, columns);
            self.taken = 0;
        }
        let candidate = match self.candidates.get(self.taken) {
            Some(candidate) => *candidate,
            None => None,
        };
        self.taken += 1;
        candidate
    }

    // Finds the candidates for the next rows, none in a small set.
    fn fill<H: KeyHash<Key>>(&mut self, keys: &KeySet<H>, columns: &[usize]) {
        if !keys.is_large() {
            return self.skip();
        }
        let hashes = self.next_hashes(keys, columns);
        for i in 0..ROWS {
            self.candidates[i] = keys.candidate(hashes[i]);
        }
    }

    // The hashes of the next rows' keys, or 0 past the end.
    #[inline]
    fn next_hashes<H: KeyHash<Key>>(&mut self, keys: &KeySet<H>, columns: &[usize]) -> [u64; ROWS] {
        let mut hashes = [0; ROWS];
        for i in 0..ROWS {
            if let Some(hash) = next_hash(&mut self.rows, keys, columns) {
                hashes[i] = hash;
            }
        }
        hashes
    }

    // Passes over the next rows, without candidates.
    fn skip(&mut self) {
        self.candidates = [None; ROWS];
        for _ in 0..ROWS {
            let _ = self.rows.advance();
        }
    }
}

// The hash of the next row's key in these columns, if there is a row that has them.
#[inline]
fn next_hash<H: KeyHash<Key>>(
    rows: &mut RowCursor<'_>,
    keys: &KeySet<H>,
    columns: &[usize],
) -> Option<u64> {
    if !rows.advance() || rows.read_columns(columns).is_err() {
        return None;
    }
    let row = rows.row();
    if has_columns(row, columns) {
        Some(keys.hash(row, columns))
    } else {
        None
    }
}

// Whether a row has these columns.
#[inline]
fn has_columns(row: &[Value], columns: &[usize]) -> bool
    ensures { result ≡ true → All (λ column. column < length row.now) columns.now }
{
    columns.iter().all(|column| *column < row.len())
}
