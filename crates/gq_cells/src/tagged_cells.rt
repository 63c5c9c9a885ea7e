//! Numbers and short texts in eight bytes each, and longer texts out of line.
ghost use Rattle.std.specs.Prelude.{◌≡◌, ◌<◌, ◌≤◌, ◌+◌, ◌*◌, ◌^◌, ◌++◌, ◌∷◌, ◌-ℤ◌, [], ℕ, false, true, pos, All, IfOk, IfNone, IfSome, IsOk, IsTrue, OnOk, OnErr, drop, length, map, take, slice_index_or};
ghost use Rattle.gq_row.specs.declared.value.Value.TheVariants.{Null};
ghost use Rattle.gq_row.specs.Order.{compare_keys};
ghost use Rattle.gq_row.specs.Written.{IsInPlace};
ghost use Rattle.std.specs.Cmp.Lexicographic.{slice_cmp};
ghost use Rattle.std.specs.Ordering.{nat_cmp};
ghost use Rattle.gq_cells.specs.Cells.{text_of, value_of};
ghost use Rattle.gq_cells.specs.Lists.{IsPart, row_at};
ghost use Rattle.gq_cells.specs.Words.{HasText, IsWord, text_in, value_order, word_value};

use crate::cell_ref::CellRef;
use crate::cells::push_value;
use crate::rows::{RowSpan, Span};
use crate::text_ref::{TextRef, WordText};
use gq_row::{Text, Value, compare, compare_folded};
use std::alloc::{AllocError, Global};
use std::cmp::Ordering;
use std::marker::Model;

/// A list of values, each with a tagged word: below 2^63 an integer biased by 2^62; below 3 · 2^62 an index
/// into `overflow`, biased by 2^63, or null if that has no such place; else a text of up to seven bytes, padded with
/// zeros. `overflow` has all other values.
#[derive(Drop)]
pub(crate) struct TaggedCells {
    pub(crate) words: Vec<u64>,
    overflow: Vec<Value>,
}

// The bias of numbers.
pub(crate) const ZERO: i64 = 1 << 62;

// The bias of indices into `overflow`.
pub(crate) const OVERFLOW: u64 = 1 << 63;

// The word of null: the last index, for which there is never a place.
const NULL: u64 = (3 << 62) - 1;

// The word of the empty text. The highest byte of a text's word has its length too, and the text follows.
pub(crate) const TEXT: u64 = 3 << 62;

impl Model for TaggedCells {
    ghost use Rattle.std.specs.Prelude.{List, length, map};
    ghost use Rattle.gq_row.specs.declared.value.Value.{Value as Cell};
    ghost use Rattle.gq_cells.specs.Words.{AreWords, word_value};

    ghost Value = { List Cell };

    ghost view = { λ m. map (word_value m.overflow.items) m.words.items };

    ghost invariant = { λ m. AreWords (length m.overflow.items) m.words.items };
}

impl TaggedCells {
    // An empty list. It takes no memory.
    pub(crate) fn new(alloc: Global) -> TaggedCells
        ensures { result ≡ [] }
    {
        TaggedCells {
            words: Vec::new(alloc),
            overflow: Vec::new(alloc),
        }
    }

    #[inline]
    pub(crate) fn len(&self) -> usize
        ensures { result ≡ length self.now }
    {
        self.words.len()
    }

    #[inline(always)]
    pub(crate) fn get(&self, position: usize) -> CellRef<'_>
        requires { position < length self.now }
        ensures { value_of result ≡ slice_index_or self.now position Null }
    {
        lend_word(self.words[position], self.overflow.as_slice())
    }

    // Reserves room for `values` more values, and in `overflow` in the proportion of the present ones.
    pub(crate) fn reserve(&mut self, values: usize) -> Result<(), AllocError>
        ensures { self.new ≡ self.old }
    {
        self.words.reserve(values)?;
        let share = values.saturating_mul(self.overflow.len()) / self.words.len().max(1);
        self.overflow.reserve(share)
    }

    // Appends a value. A text moves out of `value`.
    #[inline(always)]
    pub(crate) fn push(&mut self, value: &mut Value) -> Result<(), AllocError>
        ensures pushed { OnOk result (self.new ≡ self.old ++ value.old ∷ []) }
        ensures unchanged { OnErr result (self.new ≡ self.old) }
    {
        if let Some(word) = word_of(value) {
            return self.push_word(word);
        }
        let word = word_of_place(self.overflow.len())?;
        push_value(&mut self.overflow, value)?;
        self.words.push(word)?;
        Ok(())
    }

    // Appends the value of a word that takes no place in the overflow.
    #[inline(always)]
    pub(crate) fn push_word(&mut self, word: u64) -> Result<(), AllocError>
        requires { IsWord 0 word }
        ensures pushed { OnOk result (self.new ≡ self.old ++ word_value [] word ∷ []) }
        ensures unchanged { OnErr result (self.new ≡ self.old) }
    {
        self.words.push(word)?;
        Ok(())
    }

    // Moves all values of another list to the end, if none of them is in its overflow. Returns whether they moved.
    pub(crate) fn append_words(&mut self, more: &mut TaggedCells) -> Result<bool, AllocError>
        ensures moved { IfOk result (λ moved. IsTrue moved → self.new ≡ self.old ++ more.old) }
        ensures left { IfOk result (λ moved. moved ≡ false →
            (self.new ≡ self.old) × (more.new ≡ more.old)) }
        ensures unchanged { OnErr result (self.new ≡ self.old) }
    {
        if !more.overflow.is_empty() {
            return Ok(false);
        }
        self.words.append(&mut more.words)?;
        Ok(true)
    }

    // Moves `values` to the end. On error a prefix of them may have been appended.
    #[inline(always)]
    pub(crate) fn push_all(&mut self, values: &mut [Value]) -> Result<(), AllocError>
        ensures pushed { OnOk result (self.new ≡ self.old ++ values.old) }
        ensures kept { self.new ≡ self.old ++ drop (length self.old) self.new }
    {
        for i in 0..values.len() {
            self.push(&mut values[i])?;
        }
        Ok(())
    }

    // Overwrites `over` with the value at a position.
    #[inline(always)]
    pub(crate) fn copy_to(
        &self,
        alloc: Global,
        position: usize,
        over: &mut Value,
    ) -> Result<(), AllocError>
        requires { position < length self.now }
        ensures copied { OnOk result (over.new ≡ slice_index_or self.now position Null) }
        ensures in_place { IsInPlace (slice_index_or self.now position Null) → IsOk result }
    {
        self.get(position).copy_to(alloc, over)
    }

    // Overwrites `over` with the value at a position, if that is a text in a word and `over` one that is stored inline.
    // Returns whether it did; if not, `over` is unspecified.
    #[inline(always)]
    pub(crate) fn copy_short(&self, position: usize, over: &mut Value) -> bool
        requires { position < length self.now }
        ensures { result ≡ true → over.new ≡ slice_index_or self.now position Null }
    {
        let word = self.words[position];
        if word < TEXT {
            return false;
        }
        over.write_padded(word << 8, ((word >> 56) % 8) as usize)
    }

    // How many values there may be before the list grows. No contract covers it.
    pub(crate) fn room(&self) -> usize {
        self.words.capacity()
    }

    // A copy of the values, in a vector with this capacity at first.
    pub(crate) fn to_values(&self, alloc: Global, room: usize) -> Result<Vec<Value>, AllocError>
        ensures { IfOk result (λ values. values.items ≡ self.now) }
    {
        let mut values = Vec::with_capacity(alloc, room)?;
        for i in 0..self.words.len() {
            let mut value = Value::Null;
            self.copy_to(alloc, i, &mut value)?;
            values.push(value)?;
        }
        Ok(values)
    }

    // Borrows the words of a range, and the whole overflow.
    #[inline(always)]
    pub(crate) fn lend(&self, part: Span) -> (&[u64], &[Value])
        requires { IsPart self.now part }
        ensures values { map (word_value result.1.now) result.0.now ≡ row_at self.now part }
        ensures utf8 { All HasText result.0.now }
    {
        (&self.words[part.start..part.end], self.overflow.as_slice())
    }

    // Whether all of these rows begin and end with numbers. All words at their ends are read without
    // a branch. No contract covers it.
    pub(crate) fn have_number_ends(&self, rows: &[RowSpan]) -> bool {
        let words = self.words.as_slice();
        let mut all = 0;
        for row in rows {
            let row = row.get();
            if row.start < row.end && row.end <= words.len() {
                all |= words[row.start] | words[row.end - 1];
            }
        }
        all < OVERFLOW
    }

    // Whether each of these rows has, in a column, a text out of line that doesn't end with a quote. A loop as short
    // as this one waits for the texts of many rows at once. No contract covers it.
    pub(crate) fn have_texts_apart(&self, rows: &[RowSpan], column: usize) -> bool {
        for row in rows {
            let Some(word) = self.words.get(row.get().start.saturating_add(column)) else {
                return false;
            };
            let index = word.wrapping_sub(OVERFLOW) as usize;
            let Some(Value::Text(text)) = self.overflow.get(index) else {
                return false;
            };
            if text.as_str().as_bytes().last() == Some(&b'"') {
                return false;
            }
        }
        true
    }

    // Compares two ranges as keys.
    pub(crate) fn compare(&self, a: Span, b: Span) -> Ordering
        requires { IsPart self.now a × IsPart self.now b }
        ensures { result ≡ compare_keys (row_at self.now a) (row_at self.now b) }
    {
        let words = &self.words[a.start..a.end];
        let others = &self.words[b.start..b.end];
        let overflow = self.overflow.as_slice();
        match compare_words(words, others, overflow, true) {
            Ordering::Equal => compare_words(words, others, overflow, false),
            order => order,
        }
    }

    // Keeps the first `values` values. `overflow` doesn't shrink.
    pub(crate) fn truncate(&mut self, values: usize)
        ensures { self.new ≡ take values self.old }
    {
        self.words.truncate(values);
    }
}

// The word of a value that takes no place in the overflow.
#[inline(always)]
pub(crate) fn word_of(value: &Value) -> Option<u64>
    ensures word { IfSome result (IsWord 0) }
    ensures value { IfSome result (λ word. word_value [] word ≡ value.now) }
{
    match value {
        Value::Int(n) => word_of_number(*n),
        Value::Text(text) => word_of_text(text),
        Value::Null => Some(NULL),
        Value::NoCase(_) => None,
    }
}

// The word of a text, if it fits in one.
#[inline(always)]
pub(crate) fn word_of_text(text: &Text) -> Option<u64>
    ensures word { IfSome result (λ word. 3 * 2 ^ 62 ≤ word) }
    ensures text { IfSome result (λ word. text_in word ≡ text.now) }
    ensures utf8 { IfSome result HasText }
{
    let number = text.padded_number()?;
    Some(TEXT + ((text.len() as u64) << 56) + number / 256)
}

// The word of a place in the overflow. A place from 2^62 - 1 on counts as out of memory.
#[inline(always)]
pub(crate) fn word_of_place(place: usize) -> Result<u64, AllocError>
    ensures word { IfOk result (λ word. (place + 1 < 2 ^ 62) × (word ≡ 2 ^ 63 + place)) }
    ensures fits { place + 1 < 2 ^ 62 → IsOk result }
{
    if place < (1 << 62) - 1 {
        Ok(OVERFLOW + place as u64)
    } else {
        Err(AllocError)
    }
}

// The word of a number, if it fits in one.
#[inline(always)]
pub(crate) fn word_of_number(n: i64) -> Option<u64>
    ensures some { IfSome result (λ word. (word < 2 ^ 63) × (pos word -ℤ pos (2 ^ 62) ≡ n)) }
    ensures none { IfNone result ((word : ℕ) → word < 2 ^ 63 → pos word -ℤ pos (2 ^ 62) ≡ n → ⊥) }
{
    match n.checked_add(ZERO) {
        Some(word) if word >= 0 => Some(word as u64),
        _ => None,
    }
}

// A reference to the value of a word.
#[inline(always)]
pub(crate) fn lend_word(word: u64, overflow: &[Value]) -> CellRef<'_>
    requires { HasText word }
    ensures { value_of result ≡ word_value overflow.now word }
{
    if word < OVERFLOW {
        return CellRef::Int(word as i64 - ZERO);
    }
    if word >= TEXT {
        return CellRef::Text(TextRef::Short(WordText::of(word)));
    }
    match overflow.get((word - OVERFLOW) as usize) {
        Some(value) => CellRef::of(value),
        None => CellRef::Null,
    }
}

// Compares the values of words lexicographically: by their folds alone, or by their bytes too.
fn compare_words(a: &[u64], b: &[u64], overflow: &[Value], by_folds: bool) -> Ordering
    requires { All HasText a.now × All HasText b.now }
    ensures { result ≡ slice_cmp (value_order by_folds)
        (map (word_value overflow.now) a.now) (map (word_value overflow.now) b.now) }
{
    let (mut left, mut right) = (a, b);
    'words: loop {
        match (left.split_first(), right.split_first()) {
            (Some((x, more)), Some((y, others))) => {
                match compare_word(*x, *y, overflow, by_folds) {
                    Ordering::Equal => {}
                    order => return order,
                }
                left = more;
                right = others;
            }
            (Some(_), None) => return Ordering::Greater,
            (None, Some(_)) => return Ordering::Less,
            (None, None) => return Ordering::Equal,
        }
    }
}

// Compares the values of two words. Numbers, and texts with case, take no `Value`.
#[inline(always)]
fn compare_word(x: u64, y: u64, overflow: &[Value], by_folds: bool) -> Ordering
    requires { HasText x × HasText y }
    ensures { result ≡ value_order by_folds (word_value overflow.now x) (word_value overflow.now y) }
{
    if x < OVERFLOW && y < OVERFLOW {
        return x.cmp(&y);
    }
    match (lend_word(x, overflow), lend_word(y, overflow)) {
        (CellRef::Text(a), CellRef::Text(b)) => compare_texts(a, b),
        _ => compare_other(x, y, overflow, by_folds),
    }
}

// Compares texts with case. Most cells of neighbours are equal, and that takes the least time.
#[inline(always)]
fn compare_texts(a: TextRef<'_>, b: TextRef<'_>) -> Ordering
    ensures { result ≡ slice_cmp nat_cmp (text_of a.entry) (text_of b.entry) }
{
    if let (TextRef::Stored(a), TextRef::Stored(b)) = (a, b)
        && a == b
    {
        return Ordering::Equal;
    }
    a.as_str().cmp(b.as_str())
}

// Compares the values of two words of any kinds.
fn compare_other(x: u64, y: u64, overflow: &[Value], by_folds: bool) -> Ordering
    requires { HasText x × HasText y }
    ensures { result ≡ value_order by_folds (word_value overflow.now x) (word_value overflow.now y) }
{
    let (own_x, own_y) = (own_value(x), own_value(y));
    let x = value_of_word(x, overflow, &own_x);
    let y = value_of_word(y, overflow, &own_y);
    if by_folds {
        compare_folded(x, y)
    } else {
        compare(x, y)
    }
}

// The number or the text in a word, or null if the word is an index.
pub(crate) fn own_value(word: u64) -> Value
    requires { HasText word }
    ensures { result ≡ word_value [] word }
{
    if word < OVERFLOW {
        Value::Int(word as i64 - ZERO)
    } else if word >= TEXT {
        Value::Text(Text::of_short(WordText::of(word).as_str()))
    } else {
        Value::Null
    }
}

// The value of a word; `own` is what `own_value` returns for it.
fn value_of_word<'a>(word: u64, overflow: &'a [Value], own: &'a Value) -> &'a Value
    requires { own.now ≡ word_value [] word }
    ensures { result.now ≡ word_value overflow.now word }
{
    if word < OVERFLOW || word >= TEXT {
        return own;
    }
    match overflow.get((word - OVERFLOW) as usize) {
        Some(value) => value,
        None => own,
    }
}
