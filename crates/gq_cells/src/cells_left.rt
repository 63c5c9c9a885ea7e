//! Values that leave a list one by one.
ghost use Rattle.std.specs.Prelude.{◌≡◌, ◌<◌, ◌++◌, ◌∷◌, [], All, IfNone, IfSome, OnErr, OnOk, drop, length, map, option_to_list, slice_index_or, take};
ghost use Rattle.std.specs.Vec.Iter.{into_iter_items};
ghost use Rattle.gq_row.specs.declared.value.Value.TheVariants.{Null};
ghost use Rattle.gq_cells.specs.Keys.{AreInOrder};
ghost use Rattle.gq_cells.specs.Words.{HasText, word_value};

use crate::tagged_cells::{OVERFLOW, TEXT, TaggedCells, own_value};
use gq_row::Value;
use std::alloc::AllocError;
use std::marker::Model;
use std::vec;

/// Values that leave a list one by one: words as of `Keys`, and the values of those that are indices, in the same
/// order.
#[derive(Drop)]
pub(crate) struct CellsLeft {
    words: vec::IntoIter<u64>,
    overflow: vec::IntoIter<Value>,
}

impl Model for CellsLeft {
    ghost use Rattle.std.specs.Prelude.{List, All};
    ghost use Rattle.std.specs.Vec.Iter.{into_iter_items};
    ghost use Rattle.gq_row.specs.declared.value.Value.{Value as Cell};
    ghost use Rattle.gq_cells.specs.Keys.{values_in_order};
    ghost use Rattle.gq_cells.specs.Words.{HasText};

    ghost Value = { List Cell };

    ghost view = { λ c. values_in_order (into_iter_items c.words) (into_iter_items c.overflow) };

    ghost invariant = { λ c. All HasText (into_iter_items c.words) };
}

impl CellsLeft {
    pub(crate) fn new(words: Vec<u64>, overflow: Vec<Value>) -> CellsLeft
        requires { AreInOrder 0 words.items (length overflow.items) }
        ensures { result ≡ map (word_value overflow.items) words.items }
    {
        CellsLeft {
            words: words.into_iter(),
            overflow: overflow.into_iter(),
        }
    }

    // Takes the first value.
    #[inline(always)]
    pub(crate) fn next(&mut self) -> Value
        requires { 0 < length self.old }
        ensures { self.old ≡ result ∷ self.new }
    {
        match next_word(&mut self.words) {
            Some(word) if word < OVERFLOW || word >= TEXT => own_value(word),
            _ => next_or_null(&mut self.overflow),
        }
    }

    // Moves the first value to the end of a list. A number or a short text takes no `Value`.
    #[inline(always)]
    pub(crate) fn move_to(&mut self, cells: &mut TaggedCells) -> Result<(), AllocError>
        requires { 0 < length self.old }
        ensures pushed { OnOk result (cells.new ≡ cells.old ++ take 1 self.old) }
        ensures unchanged { OnErr result (cells.new ≡ cells.old) }
        ensures left { self.new ≡ drop 1 self.old }
    {
        match next_word(&mut self.words) {
            Some(word) if word < OVERFLOW || word >= TEXT => cells.push_word(word),
            _ => cells.push(&mut next_or_null(&mut self.overflow)),
        }
    }
}

// The next word.
#[inline(always)]
fn next_word(words: &mut vec::IntoIter<u64>) -> Option<u64>
    requires { All HasText (into_iter_items words.old) }
    ensures taken { into_iter_items words.old ≡ option_to_list result ++ into_iter_items words.new }
    ensures end { IfNone result (into_iter_items words.old ≡ []) }
    ensures utf8 { IfSome result HasText }
    ensures left { All HasText (into_iter_items words.new) }
{
    words.next()
}

// The next value, or null after the last one.
#[inline(always)]
fn next_or_null(values: &mut vec::IntoIter<Value>) -> Value
    ensures value { result ≡ slice_index_or (into_iter_items values.old) 0 Null }
    ensures rest { into_iter_items values.new ≡ drop 1 (into_iter_items values.old) }
{
    match values.next() {
        Some(value) => value,
        None => Value::Null,
    }
}
