//! The reply that shows a table.
ghost use Rattle.std.specs.Prelude.{◌≡◌, IfOk, IfErr};
ghost use Rattle.gq_command.specs.Commands.{column_names};
ghost use Rattle.gq_reply.specs.declared.refusal.Refusal.TheVariants.{Memory};
ghost use Rattle.gq_reply.specs.declared.reply.Reply.TheVariants.{Rows};
ghost use Rattle.gq_reply.specs.Refusals.{unnumbered};
ghost use Rattle.gq_query.specs.Answers.{rows_shown};

use gq_plan::names_of;
use gq_query::show_rows;
use gq_reply::{Refused, Reply};
use gq_row::Key;
use gq_table::Table;
use std::alloc::Global;
use sw_probe::KeyHash;

/// All rows of a table under the names of its columns; `Memory` if an allocation fails.
pub fn all_shown<H: KeyHash<Key> + Copy>(alloc: Global, table: &Table<H>) -> Result<Reply, Refused>
    ensures shown { IfOk result (λ reply.
        reply ≡ Rows (column_names table.now.schema.columns) (rows_shown table.now)) }
    ensures refused { IfErr result (λ why. why ≡ unnumbered Memory) }
{
    let header = names_of(alloc, table.schema().columns())?;
    let rows = show_rows(alloc, table)?;
    Ok(Reply::Rows { header, rows })
}
