//! A source that is a list of rows.
use gq_group::{Refusal, RowSource};
use gq_row::Row;
use gq_spill::RunStore;
use std::collections::VecDeque;
use std::marker::Model;

/// The remaining rows, in order.
#[derive(Drop)]
pub struct ListSource {
    pub rows: VecDeque<Row>,
}

impl Model for ListSource {
    ghost use Rattle.std.specs.Prelude.{List};
    ghost use Rattle.gq_row.specs.declared.value.Value.{Value as Cell};

    ghost Value = { List (List Cell) };

    ghost view = { λ s. s.rows.items };
}

impl<S: RunStore> RowSource<S> for ListSource {
    ghost use Rattle.std.specs.Prelude.{◌≡◌, false, length, refl};
    ghost use Rattle.gq_group_tests.specs.Lists.{none_live};

    ghost owns = { λ s run. false };

    ghost is_ready = { λ s runs. Unit {0} };

    ghost gives = { λ s runs rows. rows ≡ s };

    ghost bound = { λ s. length s };

    ghost makes_runs = { false };

    fn next(&mut self, store: &mut S, row: &mut Row) -> Result<bool, Refusal> {
        let _ = store;
        match self.rows.pop_front() {
            Some(next) => {
                *row = next;
                Ok(true)
            }
            None => Ok(false),
        }
    }

    fn rows_hint(&self) -> usize {
        self.rows.len()
    }

    ghost own_live = { λ s runs ready run own. none_live runs run own };

    ghost has_rows = { λ s runs ready honest. (s, refl) };

    ghost stays_ready = { λ s old new kept ready. tt };

    ghost keeps_rows = { λ s old new kept ready honest rows gives. gives };
}
