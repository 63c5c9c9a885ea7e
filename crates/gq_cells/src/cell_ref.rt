//! References to values.
ghost use Rattle.std.specs.Prelude.{◌≡◌, IsOk, OnOk};
ghost use Rattle.gq_row.specs.Written.{IsInPlace};
ghost use Rattle.gq_cells.specs.Cells.{number_cell, value_of};

use crate::text_ref::TextRef;
use gq_row::Value;
use std::alloc::{AllocError, Global};

/// A reference to a value in a list: a number is copied, a text is borrowed or, if it is in a word, copied.
#[derive(Clone, Copy)]
pub enum CellRef<'a> {
    Null,
    Int(i64),
    Text(TextRef<'a>),
    NoCase(TextRef<'a>),
}

impl<'a> CellRef<'a> {
    /// A reference to a value.
    #[inline(always)]
    pub fn of(value: &'a Value) -> CellRef<'a>
        ensures { value_of result ≡ value.now }
    {
        match value {
            Value::Null => CellRef::Null,
            Value::Int(n) => CellRef::Int(*n),
            Value::Text(text) => CellRef::Text(TextRef::Stored(text)),
            Value::NoCase(text) => CellRef::NoCase(TextRef::Stored(text)),
        }
    }

    // Overwrites a value with this one.
    #[inline(always)]
    pub(crate) fn copy_to(self, alloc: Global, over: &mut Value) -> Result<(), AllocError>
        ensures copied { OnOk result (over.new ≡ value_of self.entry) }
        ensures in_place { IsInPlace (value_of self.entry) → IsOk result }
    {
        match self {
            CellRef::Null => {
                *over = Value::Null;
                Ok(())
            }
            CellRef::Int(n) => {
                over.write_number(n);
                Ok(())
            }
            CellRef::Text(text) => over.write_text(alloc, text.as_str()),
            CellRef::NoCase(text) => over.write_without_case(alloc, text.as_str()),
        }
    }

    #[inline(always)]
    pub(crate) fn of_number(number: Option<i64>) -> CellRef<'a>
        ensures { value_of result ≡ number_cell number }
    {
        match number {
            Some(n) => CellRef::Int(n),
            None => CellRef::Null,
        }
    }
}
