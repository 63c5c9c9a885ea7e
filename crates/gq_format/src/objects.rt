//! Results as JSON.
ghost use Rattle.std.specs.Prelude.{◌≡◌, ◌∷◌, ◌++◌, [], IfOk, OnOk, codes};
ghost use Rattle.gq_cells.specs.Cells.{value_of};
ghost use Rattle.gq_format.specs.Jsons.{json_text, object_text};
ghost use Rattle.gq_format.specs.Tokens.{member_tokens, value_token};
ghost use Rattle.json.specs.Print.{print};
ghost use Rattle.json.specs.Token.{end_object, key};

use crate::names::distinct_names;
use gq_cells::{CellRef, RowRef, Rows};
use gq_row::{Sequence, Text};
use json::Writer;
use std::alloc::{AllocError, Global};

// An object for each row, on a line of its own. Lines are made in a buffer that is reused, since a
// writer initializes up to 16 KiB after the text that it is given.
pub(crate) fn json_text(
    alloc: Global,
    header: &Sequence<Text>,
    rows: &Rows,
) -> Result<Vec<u8>, AllocError>
    ensures { IfOk result (λ bytes. bytes.items ≡ json_text header.now rows.now) }
{
    let names = distinct_names(alloc, header.as_slice())?;
    let mut text = Vec::new(alloc);
    let mut line = Vec::new(alloc);
    for i in 0..rows.len() {
        line.clear();
        line = with_object(line, names.as_slice(), &rows.row(i))?;
        text.extend_from_slice(line.as_slice())?;
    }
    Ok(text)
}

// Appends the object of a row, and the end of its line.
fn with_object(front: Vec<u8>, names: &[Text], row: &RowRef<'_>) -> Result<Vec<u8>, AllocError>
    ensures { IfOk result (λ bytes. bytes.items ≡ front.items ++ (object_text names.now row.now ++ codes "\n")) }
{
    let mut object = Writer::new(front);
    object.begin_object()?;
    for column in 0..names.len().min(row.len()) {
        write_member(&mut object, &names[column], row.cell(column))?;
    }
    finish(object)
}

fn write_member(object: &mut Writer, name: &Text, cell: CellRef<'_>) -> Result<(), AllocError>
    ensures before { OnOk result (object.new.before ≡ object.old.before) }
    ensures tokens { OnOk result (object.new.tokens ≡ object.old.tokens ++ member_tokens (name.now, value_of cell.entry)) }
{
    write_key(object, name)?;
    write_value(object, cell)
}

fn write_key(object: &mut Writer, name: &Text) -> Result<(), AllocError>
    ensures before { OnOk result (object.new.before ≡ object.old.before) }
    ensures tokens { OnOk result (object.new.tokens ≡ object.old.tokens ++ key name.now ∷ []) }
{
    object.key(name.as_str())
}

// Closes an object, and returns its text with the end of its line.
fn finish(object: Writer) -> Result<Vec<u8>, AllocError>
    ensures { IfOk result (λ line. line.items ≡ object.before ++ print (object.tokens ++ end_object ∷ []) ++ 10 ∷ []) }
{
    let mut object = object;
    object.end_object()?;
    let mut line = object.into_inner();
    line.push(b'\n')?;
    Ok(line)
}

fn write_value(object: &mut Writer, cell: CellRef<'_>) -> Result<(), AllocError>
    ensures before { OnOk result (object.new.before ≡ object.old.before) }
    ensures tokens { OnOk result (object.new.tokens ≡ object.old.tokens ++ value_token (value_of cell.entry) ∷ []) }
{
    match cell {
        CellRef::Null => object.null(),
        CellRef::Int(n) => object.i64(n),
        CellRef::Text(text) | CellRef::NoCase(text) => object.string(text.as_str()),
    }
}
