//! Keys as the keys of maps: the bytes that are hashed of them, and borrowed forms.
ghost use Rattle.std.specs.Prelude.{◌≡◌, ◌++◌, ◌∷◌, ◌<◌, ◌%◌, ◌^◌, [], ℕ, ℤ, List, All, IfNone, IfSome, OnErr, OnOk, length, map, fold};
ghost use Rattle.std.specs.Int.{w32, to_be_bytes};
ghost use Rattle.gq_row.specs.declared.value.Value.TheVariants.{Int};
ghost use Rattle.gq_row.specs.declared.value.Value.TheVariants as variant;
ghost use Rattle.gq_row.specs.Folding.{fold_case, folded};
ghost use Rattle.gq_row.specs.Classes.{class_of, bytes_of, words_of_class, spelling, spelled, tag_of};
ghost use Rattle.gq_row.specs.Order.{equal_value, same_key};
ghost use Rattle.gq_row.specs.Rows.{cell, key_of};

use crate::folding::fold_byte;
use crate::key::{Key, push_fold};
use crate::text::Text;
use crate::value::Value;
use crate::words::{fold_cell_words, fold_folded_words, fold_row_words};
use std::alloc::{AllocError, Global};
use std::marker::Model;
use sw_probe::{Keyed, Names, Step, WordStep};

/// Two keys are in one class if their values are the same. The bytes and words that are hashed of a key are
/// `spelling` and `value_words` of its values' folds, in order; neither takes memory.
impl Keyed for Key {
    ghost class = { class_of };

    ghost bytes = { bytes_of };

    ghost words = { words_of_class };

    #[inline]
    fn same_key(&self, key: &Key) -> bool {
        self.cells() == key.cells()
    }

    #[inline]
    fn fold_key<F: Step>(&self, start: u64, f: &F) -> u64 {
        fold_cells(self.cells(), start, f)
    }

    #[inline]
    fn fold_key_words<F: WordStep>(&self, start: u64, f: &F) -> u64 {
        fold_cell_words(self.cells(), start, f)
    }
}

/// The key of a row in some columns, borrowed: in the same class as the [`Key`] of the row.
#[derive(Drop)]
pub struct KeyRef<'a> {
    row: &'a [Value],
    positions: &'a [usize],
}

impl<'a> Model for KeyRef<'a> {
    ghost use Rattle.std.specs.Prelude.{List, ◌<◌, All, length};
    ghost use Rattle.gq_row.specs.declared.value.Value.{Value as Cell};
    ghost use Rattle.gq_row.specs.Rows.{key_of};

    ghost Value = { List Cell };

    ghost view = { λ k. key_of k.positions.now k.row.now };

    ghost invariant = { λ k. All (λ position. position < length k.row.now) k.positions.now };
}

impl<'a> KeyRef<'a> {
    /// The key of a row in the columns at these positions, in the order of the positions.
    #[inline]
    pub fn new(row: &'a [Value], positions: &'a [usize]) -> KeyRef<'a>
        requires { All (λ position. position < length row.now) positions.now }
        ensures { result ≡ key_of positions.now row.now }
    {
        KeyRef { row, positions }
    }

    /// The number of values.
    #[inline(always)]
    pub fn len(&self) -> usize
        ensures { result ≡ length self.now }
    {
        self.positions.len()
    }

    /// The number at a position, if the value there is one.
    #[inline(always)]
    pub fn number(&self, position: usize) -> Option<i64>
        requires { position < length self.now }
        ensures some { IfSome result (λ n. cell self.now position ≡ Int n) }
        ensures none { IfNone result ((n : ℤ) → cell self.now position ≡ Int n → ⊥) }
    {
        number_of(self.value(position))
    }

    /// The text at a position, if the value there is one with case.
    #[inline(always)]
    pub fn text(&self, position: usize) -> Option<&Text>
        requires { position < length self.now }
        ensures some { IfSome result (λ text. cell self.now position ≡ variant.Text text.now) }
        ensures none { IfNone result ((text : List ℕ) → cell self.now position ≡ variant.Text text → ⊥) }
    {
        match self.value(position) {
            Value::Text(text) => Some(text),
            Value::Null | Value::Int(_) | Value::NoCase(_) => None,
        }
    }

    /// Whether the value at a position is equal to another.
    #[inline(always)]
    pub fn has(&self, position: usize, value: &Value) -> bool
        requires { position < length self.now }
        ensures { result ≡ equal_value (cell self.now position) value.now }
    {
        self.value(position).folds_to(value)
    }

    /// Appends the value at a position to a list.
    #[inline(always)]
    pub fn push_to(
        &self,
        alloc: Global,
        position: usize,
        values: &mut Vec<Value>,
    ) -> Result<(), AllocError>
        requires { position < length self.now }
        ensures ok { OnOk result (values.new.items ≡
            values.old.items ++ cell self.now position ∷ []) }
        ensures err { OnErr result (values.new.items ≡ values.old.items) }
    {
        push_fold(alloc, values, self.value(position))
    }

    // The value of the row whose fold is at a position.
    #[inline(always)]
    fn value(&self, position: usize) -> &Value
        requires { position < length self.now }
        ensures { folded result.now ≡ cell self.now position }
    {
        let positions = self.positions;
        &self.row[positions[position]]
    }
}

impl Names<Key> for KeyRef<'_> {
    ghost named = { class_of };

    #[inline(always)]
    fn same(&self, key: &Key) -> bool {
        has_key(self.row, self.positions, key)
    }

    #[inline]
    fn fold<F: Step>(&self, start: u64, f: &F) -> u64 {
        fold_row(self.positions, self.row, start, f)
    }

    #[inline]
    fn fold_words<F: WordStep>(&self, start: u64, f: &F) -> u64 {
        fold_row_words(self.positions, self.row, start, f)
    }
}

/// Values as a borrowed key: in the same class as the [`Key`] of their folds.
#[derive(Clone, Copy)]
pub struct KeyCells<'a>(pub &'a [Value]);

impl Names<Key> for KeyCells<'_> {
    ghost named = { λ key. class_of (map folded key.0.now) };

    #[inline]
    fn same(&self, key: &Key) -> bool {
        have_folds(self.0, key.cells())
    }

    #[inline]
    fn fold<F: Step>(&self, start: u64, f: &F) -> u64 {
        fold_folded(self.0, start, f)
    }

    #[inline]
    fn fold_words<F: WordStep>(&self, start: u64, f: &F) -> u64 {
        fold_folded_words(self.0, start, f)
    }
}

// The number that a value is.
#[inline(always)]
fn number_of(value: &Value) -> Option<i64>
    ensures some { IfSome result (λ n. folded value.now ≡ Int n) }
    ensures none { IfNone result ((n : ℤ) → folded value.now ≡ Int n → ⊥) }
{
    match value {
        Value::Int(n) => Some(*n),
        Value::Null | Value::Text(_) | Value::NoCase(_) => None,
    }
}

// Whether the folds of a row's values in the columns at these positions are a key's values.
#[inline(always)]
fn has_key(row: &[Value], positions: &[usize], key: &Key) -> bool
    requires { All (λ position. position < length row.now) positions.now }
    ensures { result ≡ same_key (key_of positions.now row.now) key.now }
{
    if positions.len() == 1
        && let Some(number) = key.number()
        && let Value::Int(n) = &row[positions[0]]
    {
        return *n == number;
    }
    has_cells(row, positions, key.cells())
}

// As `has_key`, with a list of values. Not inlined, so that look-ups of single numbers stay short.
#[inline(never)]
fn has_cells(row: &[Value], positions: &[usize], key: &[Value]) -> bool
    requires { All (λ position. position < length row.now) positions.now }
    ensures { result ≡ same_key (key_of positions.now row.now) key.now }
{
    if positions.len() != key.len() {
        return false;
    }
    for i in 0..positions.len() {
        if !row[positions[i]].folds_to(&key[i]) {
            return false;
        }
    }
    true
}

// Whether the folds of `cells` are a key's values.
#[inline]
fn have_folds(cells: &[Value], key: &[Value]) -> bool
    ensures { result ≡ same_key (map folded cells.now) key.now }
{
    if cells.len() != key.len() {
        return false;
    }
    for i in 0..cells.len() {
        if !cells[i].folds_to(&key[i]) {
            return false;
        }
    }
    true
}

#[inline]
fn fold_row<F: Step>(positions: &[usize], row: &[Value], start: u64, f: &F) -> u64
    requires { All (λ position. position < length row.now) positions.now }
    ensures { result ≡ fold (F.next f.now) start (spelled (key_of positions.now row.now)) }
{
    let mut acc = start;
    for position in positions {
        acc = fold_cell(&row[*position], acc, f);
    }
    acc
}

#[inline]
fn fold_folded<F: Step>(cells: &[Value], start: u64, f: &F) -> u64
    ensures { result ≡ fold (F.next f.now) start (spelled (map folded cells.now)) }
{
    let mut acc = start;
    for cell in cells {
        acc = fold_cell(cell, acc, f);
    }
    acc
}

#[inline]
fn fold_cells<F: Step>(cells: &[Value], start: u64, f: &F) -> u64
    ensures { result ≡ fold (F.next f.now) start (spelled cells.now) }
{
    let mut acc = start;
    for cell in cells {
        acc = fold_value(cell, acc, f);
    }
    acc
}

// Hashes the bytes of a value's fold one by one, without making the fold.
#[inline]
fn fold_cell<F: Step>(value: &Value, start: u64, f: &F) -> u64
    ensures { result ≡ fold (F.next f.now) start (spelling (folded value.now)) }
{
    match value {
        Value::NoCase(text) => fold_lowered(text, f.step(start, 3), f),
        Value::Null | Value::Int(_) | Value::Text(_) => fold_value(value, start, f),
    }
}

// Hashes a value's bytes, its tag first.
#[inline]
fn fold_value<F: Step>(value: &Value, start: u64, f: &F) -> u64
    ensures { result ≡ fold (F.next f.now) start (spelling value.now) }
{
    let acc = f.step(start, tag_of(value));
    match value {
        Value::Null => acc,
        Value::Int(n) => fold_bytes(&n.to_be_bytes(), acc, f),
        Value::Text(text) | Value::NoCase(text) => {
            let acc = fold_length(text, acc, f);
            fold_bytes(text.as_str().as_bytes(), acc, f)
        }
    }
}

// The first byte that is hashed of a value: its tag.
#[inline]
fn tag_of(value: &Value) -> u8
    ensures { result ≡ tag_of value.now }
{
    match value {
        Value::Null => 0,
        Value::Int(_) => 1,
        Value::Text(_) => 2,
        Value::NoCase(_) => 3,
    }
}

#[inline]
fn fold_bytes<F: Step>(bytes: &[u8], start: u64, f: &F) -> u64
    ensures { result ≡ fold (F.next f.now) start bytes.now }
{
    let mut acc = start;
    for byte in bytes {
        acc = f.step(acc, *byte);
    }
    acc
}

// Hashes the length of a text, in four bytes.
#[inline]
fn fold_length<F: Step>(text: &Text, start: u64, f: &F) -> u64
    ensures { result ≡ fold (F.next f.now) start (to_be_bytes w32 (length text.now % 2 ^ 32)) }
{
    let length = (text.len() % 0x1_0000_0000) as u32;
    fold_bytes(&length.to_be_bytes(), start, f)
}

// Hashes the length and the fold of a text. Not inlined, so that look-ups of other values stay short.
#[inline(never)]
fn fold_lowered<F: Step>(text: &Text, start: u64, f: &F) -> u64
    ensures { result ≡ fold (F.next f.now) start
        (to_be_bytes w32 (length text.now % 2 ^ 32) ++ fold_case text.now) }
{
    let acc = fold_length(text, start, f);
    fold_lowered_bytes(text.as_str().as_bytes(), acc, f)
}

// Hashes the folds of bytes.
#[inline]
fn fold_lowered_bytes<F: Step>(bytes: &[u8], start: u64, f: &F) -> u64
    ensures { result ≡ fold (F.next f.now) start (fold_case bytes.now) }
{
    let mut acc = start;
    for byte in bytes {
        acc = f.step(acc, fold_byte(*byte));
    }
    acc
}
