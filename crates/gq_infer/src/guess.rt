//! Columns by the first records of a file.
//!
//! If each file of the table loads under these columns, they are those that an
//! [`Inference`](crate::Inference) finds by reading all files. Otherwise a later field is a text in a
//! column that began with numbers.
ghost use Rattle.std.specs.Prelude.{◌≡◌, ℕ, List, [], true, IfOk, IfSome};
ghost use Rattle.gq_command.specs.Commands.{is_command};
ghost use Rattle.gq_command.specs.declared.command.Command.TheVariants.{Create};
ghost use Rattle.gq_infer.specs.Guesses.{AreRightIfLoaded};

use crate::fault::InferFault;
use crate::header::names_of;
use crate::inference::columns_of;
use crate::scan::{file_reader, read_first_fields, read_record};
use crate::seen::{Seen, are_settled};
use gq_row::{Column, Limits, Sequence};
use std::alloc::Global;
use std::io::Read;

/// The columns of a table by the first records of its first file, at most `most`; `None` if they
/// don't settle the kind of each column. The errors are those of [`Inference`](crate::Inference).
pub fn guess_columns<R: Read + Drop>(
    alloc: Global,
    text: R,
    limits: &Limits,
    most: u64,
) -> Result<Option<Sequence<Column>>, InferFault>
    ensures right { IfOk result (λ guess. IfSome guess (λ columns.
        IfSome (R.remaining text) (AreRightIfLoaded columns))) }
    ensures table { IfOk result (λ guess. IfSome guess (λ columns. (table : List ℕ) →
        is_command (Create table columns []) ≡ true)) }
{
    let mut reader = file_reader(alloc, text)?;
    if !read_record(&mut reader)? {
        return Err(InferFault::Header);
    }
    let header = reader.record();
    let names = names_of(alloc, &header, &limits.bounds)?;
    let mut seen = vec![in alloc; Seen::Nulls; header.len()]?;
    read_first_fields(
        alloc,
        names.as_slice(),
        &mut reader,
        seen.as_mut_slice(),
        most,
    )?;
    if !are_settled(seen.as_slice()) {
        return Ok(None);
    }
    let columns = columns_of(alloc, names.as_slice(), seen.as_slice())?;
    Ok(Some(columns))
}
