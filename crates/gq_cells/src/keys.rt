//! Keys of one width in one list.
ghost use Rattle.std.specs.Prelude.{◌≡◌, ◌+◌, ◌<◌, ◌++◌, ◌∷◌, [], false, All, IfOk, IfSome, OnErr, OnOk, drop, length, map, slice_index_or, take};
ghost use Rattle.std.specs.List.{slice_get};
ghost use Rattle.gq_row.specs.Order.{equal_value, same_key};
ghost use Rattle.gq_row.specs.Rows.{cell};
ghost use Rattle.gq_cells.specs.Keys.{AreInOrder, is_same};
ghost use Rattle.gq_cells.specs.Words.{HasText, is_index, word_value};

use crate::cells_left::CellsLeft;
use crate::tagged_cells::{
    OVERFLOW, TEXT, ZERO, own_value, word_of_number, word_of_place, word_of_text,
};
use gq_row::{Key, KeyRef, Value};
use std::alloc::{AllocError, Global};
use std::marker::Model;

/// Keys of one width, one after the other. A number or a text of up to seven bytes takes eight bytes, and any other
/// value a [`Value`] more.
#[derive(Drop)]
pub struct Keys {
    // As the words of `TaggedCells`, but those that are indices are in the order of `overflow`.
    words: Vec<u64>,
    overflow: Vec<Value>,
    width: usize,
    len: usize,
    alloc: Global,
}

impl Model for Keys {
    ghost use Rattle.std.specs.Prelude.{List, map};
    ghost use Rattle.gq_row.specs.declared.value.Value.{Value as Cell};
    ghost use Rattle.gq_cells.specs.Keys.{AreKeys, keys_in};
    ghost use Rattle.gq_cells.specs.Words.{word_value};

    ghost Value = { List (List Cell) };

    ghost view = { λ k. keys_in k.width k.len (map (word_value k.overflow.items) k.words.items) };

    ghost invariant = { λ k. AreKeys k.width k.len k.words.items k.overflow.items };
}

impl Keys {
    /// No keys. `width` is the expected number of values of a key. It takes no memory.
    pub fn new(alloc: Global, width: usize) -> Keys
        ensures { result ≡ [] }
    {
        Keys {
            words: Vec::new(alloc),
            overflow: Vec::new(alloc),
            width,
            len: 0,
            alloc,
        }
    }

    /// The number of keys.
    #[inline]
    pub fn len(&self) -> usize
        ensures { result ≡ length self.now }
    {
        self.len
    }

    /// Reserves room for this number of keys, if memory allows and all their values have words.
    pub fn expect(&mut self, keys: usize)
        ensures { self.new ≡ self.old }
    {
        let _ = self.words.reserve(keys.saturating_mul(self.width));
    }

    /// Whether the key at a position, counted from 0, is the same as this one.
    #[inline(always)]
    pub fn is_at(&self, position: usize, key: &KeyRef<'_>) -> bool
        ensures { result ≡ is_same key.now (slice_get self.now position) }
    {
        if position >= self.len {
            return false;
        }
        if key.len() != self.width {
            return false;
        }
        let start = position * self.width;
        let words = &self.words[start..start + self.width];
        has_values(words, self.overflow.as_slice(), key)
    }

    /// Appends a key. On error the list doesn't change; a key of another width than the first one is an error, too.
    pub fn push(&mut self, key: &KeyRef<'_>) -> Result<(), AllocError>
        ensures pushed { OnOk result (self.new ≡ self.old ++ key.now ∷ []) }
        ensures unchanged { OnErr result (self.new ≡ self.old) }
    {
        let width = if self.len == 0 { key.len() } else { self.width };
        let len = match self.len.checked_add(1) {
            Some(len) if key.len() == width => len,
            _ => return Err(AllocError),
        };
        let start = self.words.len();
        let places = self.overflow.len();
        let Ok(()) = push_values(self.alloc, key, &mut self.words, &mut self.overflow) else {
            self.words.truncate(start);
            self.overflow.truncate(places);
            return Err(AllocError);
        };
        self.len = len;
        self.width = width;
        Ok(())
    }

    /// The keys, which leave one by one.
    pub fn leave(self) -> KeysLeft
        ensures { result ≡ self }
    {
        KeysLeft {
            cells: CellsLeft::new(self.words, self.overflow),
            width: self.width,
            len: self.len,
            alloc: self.alloc,
        }
    }
}

// Whether the values of words are those of a key.
#[inline(always)]
fn has_values(words: &[u64], overflow: &[Value], key: &KeyRef<'_>) -> bool
    requires long { length words.now ≡ length key.now }
    requires utf8 { All HasText words.now }
    ensures { result ≡ same_key key.now (map (word_value overflow.now) words.now) }
{
    if words.len() == 1 {
        return has_value(words[0], overflow, key, 0);
    }
    has_each(words, overflow, key)
}

// As `has_values`. Not inlined, so that look-ups of single values stay short.
#[inline(never)]
fn has_each(words: &[u64], overflow: &[Value], key: &KeyRef<'_>) -> bool
    requires long { length words.now ≡ length key.now }
    requires utf8 { All HasText words.now }
    ensures { result ≡ same_key key.now (map (word_value overflow.now) words.now) }
{
    for i in 0..words.len() {
        if !has_value(words[i], overflow, key, i) {
            return false;
        }
    }
    true
}

// Whether the value of a word is that of a key at a position. A number takes no `Value`.
#[inline(always)]
fn has_value(word: u64, overflow: &[Value], key: &KeyRef<'_>, position: usize) -> bool
    requires position { position < length key.now }
    requires utf8 { HasText word }
    ensures { result ≡ equal_value (cell key.now position) (word_value overflow.now word) }
{
    if word < OVERFLOW {
        return match key.number(position) {
            Some(n) => word as i64 - ZERO == n,
            None => false,
        };
    }
    if word >= TEXT {
        return has_text(word, key, position);
    }
    match overflow.get((word - OVERFLOW) as usize) {
        Some(value) => key.has(position, value),
        None => key.has(position, &Value::Null),
    }
}

// Whether the text in a word is that of a key at a position. If its word is the same, no `Value` is made.
#[inline(always)]
fn has_text(word: u64, key: &KeyRef<'_>, position: usize) -> bool
    requires position { position < length key.now }
    requires utf8 { HasText word }
    ensures { result ≡ equal_value (cell key.now position) (word_value [] word) }
{
    if let Some(text) = key.text(position)
        && let Some(own) = word_of_text(text)
        && own == word
    {
        return true;
    }
    key.has(position, &own_value(word))
}

// Appends the values of a key. What was there stays whatever the outcome.
#[inline]
fn push_values(
    alloc: Global,
    key: &KeyRef<'_>,
    words: &mut Vec<u64>,
    overflow: &mut Vec<Value>,
) -> Result<(), AllocError>
    requires { AreInOrder 0 words.old.items (length overflow.old.items) }
    ensures pushed { OnOk result (map (word_value overflow.new.items) words.new.items ≡
        map (word_value overflow.old.items) words.old.items ++ key.now) }
    ensures ordered { OnOk result (AreInOrder 0 words.new.items (length overflow.new.items)) }
    ensures words { take (length words.old.items) words.new.items ≡ words.old.items }
    ensures overflow { take (length overflow.old.items) overflow.new.items ≡ overflow.old.items }
{
    for i in 0..key.len() {
        push_value(alloc, key, i, words, overflow)?;
    }
    Ok(())
}

// Appends the value of a key at a position. What was there stays whatever the outcome.
#[inline(always)]
fn push_value(
    alloc: Global,
    key: &KeyRef<'_>,
    position: usize,
    words: &mut Vec<u64>,
    overflow: &mut Vec<Value>,
) -> Result<(), AllocError>
    requires position { position < length key.now }
    requires ordered { AreInOrder 0 words.old.items (length overflow.old.items) }
    ensures pushed { OnOk result (map (word_value overflow.new.items) words.new.items ≡
        map (word_value overflow.old.items) words.old.items ++ cell key.now position ∷ []) }
    ensures ordered { OnOk result (AreInOrder 0 words.new.items (length overflow.new.items)) }
    ensures words { words.new.items ≡ words.old.items ++ drop (length words.old.items) words.new.items }
    ensures overflow { overflow.new.items ≡
        overflow.old.items ++ drop (length overflow.old.items) overflow.new.items }
{
    if let Some(word) = own_word(key, position) {
        words.push(word)?;
        return Ok(());
    }
    let word = word_of_place(overflow.len())?;
    key.push_to(alloc, position, overflow)?;
    words.push(word)?;
    Ok(())
}

// The word of the value of a key at a position, if it takes no place in the overflow.
#[inline(always)]
fn own_word(key: &KeyRef<'_>, position: usize) -> Option<u64>
    requires { position < length key.now }
    ensures word { IfSome result (λ word. (is_index word ≡ false) × HasText word) }
    ensures value { IfSome result (λ word. word_value [] word ≡ cell key.now position) }
{
    match key.number(position) {
        Some(n) => word_of_number(n),
        None => word_of_text(key.text(position)?),
    }
}

/// Keys that leave a list one by one.
#[derive(Drop)]
pub struct KeysLeft {
    pub(crate) cells: CellsLeft,
    pub(crate) width: usize,
    pub(crate) len: usize,
    alloc: Global,
}

impl Model for KeysLeft {
    ghost use Rattle.std.specs.Prelude.{◌≤◌, ◌*◌, List, length};
    ghost use Rattle.gq_row.specs.declared.value.Value.{Value as Cell};
    ghost use Rattle.gq_cells.specs.Keys.{keys_in};

    ghost Value = { List (List Cell) };

    ghost view = { λ k. keys_in k.width k.len k.cells };

    // A key that was refused is gone, or a part of it.
    ghost invariant = { λ k. k.len * k.width ≤ length k.cells };
}

impl KeysLeft {
    /// The number of keys.
    #[inline]
    pub fn len(&self) -> usize
        ensures { result ≡ length self.now }
    {
        self.len
    }

    /// Takes the first key. On error the others are unspecified.
    pub fn take(&mut self) -> Result<Key, AllocError>
        requires { 0 < length self.old }
        ensures first { IfOk result (λ key. key ≡ slice_index_or self.old 0 []) }
        ensures left { OnOk result (self.new ≡ drop 1 self.old) }
        ensures fewer { length self.new + 1 ≡ length self.old }
    {
        self.len -= 1;
        let mut values = Vec::with_capacity(self.alloc, self.width)?;
        for i in 0..self.width {
            values.push(self.cells.next())?;
        }
        Ok(Key::of_folds(values))
    }
}
