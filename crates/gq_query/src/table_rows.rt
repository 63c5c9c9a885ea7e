//! The kept rows of a table, as a source.

use crate::match_ahead::MatchAhead;
use crate::row_filter::RowFilter;
use gq_group::{Refusal, RowSource};
use gq_row::{Key, Row};
use gq_spill::RunStore;
use gq_table::RowCursor;
use sw_probe::KeyHash;

/// The remaining rows of a table. Of each kept row it writes the cells of some columns, one after
/// the other, and copies nothing else.
#[derive(Drop)]
pub struct TableRows<'a, H: KeyHash<Key>> {
    pub rows: RowCursor<'a>,
    pub ahead: MatchAhead<'a>,
    pub kept: &'a RowFilter<'a, H>,
    pub columns: &'a [usize],
}

impl<'a, H: KeyHash<Key>, S: RunStore> RowSource<S> for TableRows<'a, H> {
    ghost use Rattle.std.specs.Prelude.{◌≡◌, false, filter, length, map, option_copied, refl};
    ghost use Rattle.gq_row.specs.Rows.{cells_in};
    ghost use Rattle.gq_query.specs.Sources.{no_runs};
    ghost use Rattle.gq_query.specs.Keeping.{AreLong, ReadsAll, is_kept, ours_of};
    ghost use Rattle.gq_query.specs.Sources.{none_live};

    ghost owns = { λ s. no_runs };

    ghost is_ready = { λ s runs. AreLong s.columns.now s.rows.rest ×
        AreLong (ours_of (option_copied s.kept.now.matching)) s.rows.rest ×
        ReadsAll s.kept.now };

    ghost gives = { λ s runs rows.
        rows ≡ map (cells_in s.columns.now) (filter (is_kept s.kept.now) s.rows.rest) };

    ghost bound = { λ s. length s.rows.rest };

    ghost makes_runs = { false };

    fn next(&mut self, store: &mut S, row: &mut Row) -> Result<bool, Refusal> {
        let _ = store;
        match self.kept.advance(&mut self.rows, &mut self.ahead) {
            Ok(true) => {}
            Ok(false) => return Ok(false),
            Err(_) => return Err(Refusal::Memory),
        }
        match self.rows.write_cells(self.columns, row) {
            Ok(()) => Ok(true),
            Err(_) => Err(Refusal::Memory),
        }
    }

    fn rows_hint(&self) -> usize {
        self.rows.len()
    }

    ghost own_live = { λ s runs ready run own. none_live runs run own };

    ghost has_rows = { λ s runs ready honest.
        (map (cells_in s.columns.now) (filter (is_kept s.kept.now) s.rows.rest), refl) };

    ghost stays_ready = { λ s old new kept ready. ready };

    ghost keeps_rows = { λ s old new kept ready honest rows gives. gives };
}
