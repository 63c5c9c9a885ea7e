//! Columns from files, one file after the other.
//!
//! A file is a CSV text, whose first record names the columns; a UTF-8 byte-order mark before it is
//! dropped. A record may have more or fewer fields than the header: what it lacks or has beyond is of
//! no column. A header is refused first by the number of its names, then by the names, then by their
//! lengths.
ghost use Rattle.std.specs.Prelude.{◌≡◌, IfOk, length};
ghost use Rattle.gq_infer.specs.Scanning.{columns_of};

use crate::fault::InferFault;
use crate::header::{are_same, names_of};
use crate::scan::{file_reader, read_fields, read_record};
use crate::seen::{Seen, kind_seen};
use gq_row::{Column, Limits, Sequence, Text};
use std::alloc::{AllocError, Global};
use std::io::Read;
use std::marker::Model;

/// What the files of one table say of its columns so far, seen as the columns' names, and what the
/// fields of each column are.
#[derive(Drop)]
pub struct Inference {
    names: Vec<Text>,
    seen: Vec<Seen>,
}

impl Model for Inference {
    ghost use Rattle.std.specs.Prelude.{◌≡◌, true, length};
    ghost use Rattle.gq_infer.specs.Files.{Inferred, can_name};

    ghost Value = { Inferred };

    ghost view = { λ i. record { names = i.names.items; seen = i.seen.items } };

    ghost invariant = { λ i. (length i.names.items ≡ length i.seen.items)
        × (can_name i.names.items ≡ true) };
}

impl Inference {
    ghost use Rattle.std.specs.Prelude.{◌≡◌, ◌⊎◌, ◌++◌, [], ◌∷◌, ℕ, List, true, false, None, Some, IfOk, IfSome, OnOk, IfErr, OnErr};
    ghost use Rattle.gq_command.specs.Commands.{is_command};
    ghost use Rattle.gq_command.specs.declared.command.Command.TheVariants.{Create};
    ghost use Rattle.gq_infer.specs.Files.{IsFailure, header_fault, inferred, same_columns, table_columns};
    ghost use Rattle.gq_infer.specs.declared.fault.InferFault.TheVariants.{Header};

    /// What a table's first file says of its columns. `Limit` and `Header` are those of `header_fault`;
    /// `Read` may be returned for any file.
    pub fn of_first<R: Read + Drop>(
        alloc: Global,
        text: R,
        limits: &Limits,
    ) -> Result<Inference, InferFault>
        ensures inferred { IfOk result (λ inference. IfSome (R.remaining text) (λ bytes.
            inference ≡ inferred bytes [])) }
        ensures fine { OnOk result (IfSome (R.remaining text) (λ bytes.
            header_fault limits.now.bounds bytes ≡ None)) }
        ensures refused { IfErr result (λ why. IsFailure why
            ⊎ IfSome (R.remaining text) (λ bytes. header_fault limits.now.bounds bytes ≡ Some why)) }
    {
        let mut reader = file_reader(alloc, text)?;
        if !read_record(&mut reader)? {
            return Err(InferFault::Header);
        }
        let header = reader.record();
        let names = names_of(alloc, &header, &limits.bounds)?;
        let mut seen = vec![in alloc; Seen::Nulls; header.len()]?;
        read_fields(alloc, names.as_slice(), &mut reader, seen.as_mut_slice())?;
        Ok(Inference { names, seen })
    }

    /// Adds what a further file of the table says. `Header` if it doesn't name the same columns, in
    /// any order; `Read` may be returned for any file. After an error the inference is what it was.
    pub fn add<R: Read + Drop>(&mut self, alloc: Global, text: R) -> Result<(), InferFault>
        ensures more { OnOk result (IfSome (R.remaining text) (λ bytes.
            (first : List ℕ) (others : List (List ℕ)) → self.old ≡ inferred first others
            → self.new ≡ inferred first (others ++ bytes ∷ []))) }
        ensures names { self.new.names ≡ self.old.names }
        ensures same { OnOk result (IfSome (R.remaining text) (λ bytes.
            same_columns self.old.names bytes ≡ true)) }
        ensures refused { IfErr result (λ why. IsFailure why ⊎ ((why ≡ Header)
            × IfSome (R.remaining text) (λ bytes. same_columns self.old.names bytes ≡ false))) }
        ensures unchanged { OnErr result (self.new ≡ self.old) }
    {
        let mut reader = file_reader(alloc, text)?;
        if !read_record(&mut reader)? || !are_same(self.names.as_slice(), &reader.record()) {
            return Err(InferFault::Header);
        }
        let mut seen = self.seen.as_slice().to_vec(alloc)?;
        read_fields(
            alloc,
            self.names.as_slice(),
            &mut reader,
            seen.as_mut_slice(),
        )?;
        self.seen = seen;
        Ok(())
    }

    /// The columns of the table, in the order of the first file. They can be the columns of a
    /// `create` command without a key.
    pub fn columns(&self, alloc: Global) -> Result<Sequence<Column>, AllocError>
        ensures columns { IfOk result (λ columns. (first : List ℕ) (others : List (List ℕ)) → self.now ≡ inferred first others
            → columns ≡ table_columns first others) }
        ensures table { IfOk result (λ columns. (table : List ℕ) → is_command (Create table columns []) ≡ true) }
    {
        columns_of(alloc, self.names.as_slice(), self.seen.as_slice())
    }
}

/// The columns of names with such fields.
pub(crate) fn columns_of(
    alloc: Global,
    names: &[Text],
    seen: &[Seen],
) -> Result<Sequence<Column>, AllocError>
    requires { length names.now ≡ length seen.now }
    ensures { IfOk result (λ columns. columns ≡ columns_of names.now seen.now) }
{
    let mut columns = Vec::with_capacity(alloc, names.len())?;
    for i in 0..names.len() {
        let name = names[i].copy(alloc)?;
        columns.push(Column {
            name,
            kind: kind_seen(seen[i]),
        })?;
    }
    Ok(Sequence::new(columns))
}
