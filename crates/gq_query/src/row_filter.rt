//! Which rows a query keeps.
ghost use Rattle.std.specs.Prelude.{◌≡◌, ◌+◌, ◌≤◌, ◌<◌, ◌∷◌, [], ℕ, true, false, All, IfOk, List, filter, length, option_copied};
ghost use Rattle.gq_row.specs.declared.value.Value.{Value as Cell};
ghost use Rattle.gq_query.specs.Keeping.{AreLong, ReadsAll, is_found, is_kept, ours_of};

use crate::match_ahead::MatchAhead;
use gq_row::{Key, Value};
use gq_select::{Condition, KeySet, Matching, filter, semi_join_at};
use gq_table::RowCursor;
use std::alloc::AllocError;
use sw_probe::KeyHash;

/// Keeps the rows for which a condition is true and, if a match is asked for, whose key is in the
/// set, or with `negated` is not.
#[derive(Drop)]
pub struct RowFilter<'a, H: KeyHash<Key>> {
    pub condition: &'a Condition,
    pub matching: Option<&'a Matching>,
    pub keys: &'a KeySet<H>,
    /// The columns that the condition and the match read.
    pub columns: &'a [usize],
}

impl<'a, H: KeyHash<Key>> RowFilter<'a, H> {
    // Whether a row is kept. Copies nothing, and looks up the row's key at most once.
    #[inline]
    fn keeps(&self, row: &[Value], candidate: Option<usize>) -> bool
        requires { All (λ column. column < length row.now)
            (ours_of (option_copied self.now.matching)) }
        ensures { result ≡ is_kept self.now row.now }
    {
        filter(self.condition, row) && self.matches(row, candidate)
    }

    // Whether the row has the match that is asked for, if any.
    #[inline]
    fn matches(&self, row: &[Value], candidate: Option<usize>) -> bool
        requires { All (λ column. column < length row.now)
            (ours_of (option_copied self.now.matching)) }
        ensures { result ≡ is_found (option_copied self.now.matching) self.now.keys.now row.now }
    {
        let Some(matching) = self.matching else {
            return true;
        };
        let found = semi_join_at(self.keys, row, matching.ours.as_slice(), candidate);
        if matching.negated { !found } else { found }
    }

    // Whether every row is kept, whatever its values.
    #[inline]
    fn keeps_all(&self) -> bool
        ensures { result ≡ true → (row : List Cell) → is_kept self.now row ≡ true }
    {
        self.condition.tests.as_slice().is_empty() && self.matching.is_none()
    }

    // Reads what decides on the cursor's row, and returns whether it is kept.
    #[inline]
    fn keeps_here(
        &self,
        rows: &mut RowCursor<'_>,
        candidate: Option<usize>,
    ) -> Result<bool, AllocError>
        requires reads { ReadsAll self.now }
        requires ours { All (λ column. column < length rows.old.row)
            (ours_of (option_copied self.now.matching)) }
        ensures kept { IfOk result (λ kept. kept ≡ is_kept self.now rows.old.row) }
        ensures row { rows.new.row ≡ rows.old.row }
        ensures rest { rows.new.rest ≡ rows.old.rest }
    {
        rows.read_columns(self.columns)?;
        Ok(self.keeps(rows.row(), candidate))
    }

    // The candidate for the next row's match. It pays only if the match is looked up for each row.
    #[inline]
    fn candidate(&self, ahead: &mut MatchAhead<'_>) -> Option<usize> {
        match self.matching {
            Some(matching) if self.condition.tests.as_slice().is_empty() => {
                ahead.next(self.keys, matching.ours.as_slice())
            }
            _ => None,
        }
    }

    /// Advances to the next row that is kept, and returns whether there is one. Fails only if
    /// reading a row runs out of memory. `ahead` has the candidates for the same rows.
    #[inline(always)]
    pub fn advance(
        &self,
        rows: &mut RowCursor<'_>,
        ahead: &mut MatchAhead<'_>,
    ) -> Result<bool, AllocError>
        requires reads { ReadsAll self.now }
        requires ours { AreLong (ours_of (option_copied self.now.matching)) rows.old.rest }
        ensures kept { IfOk result (λ found. found ≡ true → filter (is_kept self.now) rows.old.rest ≡
            rows.new.row ∷ filter (is_kept self.now) rows.new.rest) }
        ensures none { IfOk result (λ found. found ≡ false →
            (filter (is_kept self.now) rows.old.rest ≡ []) × (rows.new.rest ≡ [])) }
        ensures fewer { IfOk result (λ found. found ≡ true →
            1 + length rows.new.rest ≤ length rows.old.rest) }
        ensures long { (columns : List ℕ) → AreLong columns rows.old.rest →
            IfOk result (λ found. found ≡ true →
            All (λ column. column < length rows.new.row) columns) }
        ensures left { (columns : List ℕ) → AreLong columns rows.old.rest →
            AreLong columns rows.new.rest }
    {
        if self.keeps_all() {
            return Ok(rows.advance());
        }
        self.advance_to_kept(rows, ahead)
    }

    // As `advance`, and reads each row to decide. Not inlined, so that `advance` stays short.
    #[inline(never)]
    fn advance_to_kept(
        &self,
        rows: &mut RowCursor<'_>,
        ahead: &mut MatchAhead<'_>,
    ) -> Result<bool, AllocError>
        requires reads { ReadsAll self.now }
        requires ours { AreLong (ours_of (option_copied self.now.matching)) rows.old.rest }
        ensures kept { IfOk result (λ found. found ≡ true → filter (is_kept self.now) rows.old.rest ≡
            rows.new.row ∷ filter (is_kept self.now) rows.new.rest) }
        ensures none { IfOk result (λ found. found ≡ false →
            (filter (is_kept self.now) rows.old.rest ≡ []) × (rows.new.rest ≡ [])) }
        ensures fewer { IfOk result (λ found. found ≡ true →
            1 + length rows.new.rest ≤ length rows.old.rest) }
        ensures long { (columns : List ℕ) → AreLong columns rows.old.rest →
            IfOk result (λ found. found ≡ true →
            All (λ column. column < length rows.new.row) columns) }
        ensures left { (columns : List ℕ) → AreLong columns rows.old.rest →
            AreLong columns rows.new.rest }
    {
        'rows: while rows.advance() {
            if self.keeps_here(rows, self.candidate(ahead))? {
                return Ok(true);
            }
        }
        Ok(false)
    }
}
