//! Many values in one list.
ghost use Rattle.std.specs.Prelude.{◌≡◌, ◌<◌, ◌≤◌, ◌+◌, ◌-◌, ◌++◌, ◌∷◌, [], All, IfOk, IfNone, IfSome, IsOk, OnOk, OnErr, drop, length, map, take, slice_index_or};
ghost use Rattle.gq_row.specs.declared.value.Value.TheVariants.{Int, Null};
ghost use Rattle.gq_row.specs.Order.{compare_keys};
ghost use Rattle.gq_row.specs.Written.{IsInPlace};
ghost use Rattle.gq_cells.specs.Cells.{HaveUtf8, IsText, slice_values, number_cell, value_of};
ghost use Rattle.gq_cells.specs.Lists.{IsPart, part, row_at};

use crate::cell_ref::CellRef;
use crate::cells_left::CellsLeft;
use crate::keys::KeysLeft;
use crate::order::{compare_narrow, compare_nullable, compare_numbers};
use crate::row_ref::CellSlice;
use crate::rows::{RowSpan, Span};
use crate::tagged_cells::{TaggedCells, word_of};
use gq_row::{Value, compare_cells};
use std::alloc::{AllocError, Global};
use std::cmp::Ordering;
use std::marker::Model;
use std::mem;

/// A list of values. Each takes eight bytes while all are numbers, or texts of up to seven bytes and nulls; sixteen from
/// the first null among numbers on; and a [`Value`]'s size from the first other text on. If texts are out of line, each
/// takes eight bytes then, and those without a word a [`Value`] more. In a list for narrow numbers each takes four bytes
/// while all are numbers of 32 bits.
#[derive(Drop)]
pub struct Cells {
    stored: Stored,
    // Whether texts are stored out of line.
    apart: bool,
}

#[derive(Drop)]
pub(crate) enum Stored {
    Narrow(Vec<i32>),
    Numbers(Vec<i64>),
    Nullable(Vec<Option<i64>>),
    Values(Vec<Value>),
    Tagged(TaggedCells),
}

impl Model for Cells {
    ghost use Rattle.std.specs.Prelude.{List};
    ghost use Rattle.gq_row.specs.declared.value.Value.{Value as Cell};
    ghost use Rattle.gq_cells.specs.Cells.{cells_of};

    ghost Value = { List Cell };

    ghost view = { λ c. cells_of c.stored };
}

impl Cells {
    /// An empty list. It takes no memory.
    pub fn new(alloc: Global) -> Cells
        ensures { result ≡ [] }
    {
        Cells {
            stored: Stored::Numbers(Vec::new(alloc)),
            apart: false,
        }
    }

    /// An empty list for narrow numbers: each value takes four bytes while all are numbers of 32 bits. It takes no memory.
    pub fn with_narrow_numbers(alloc: Global) -> Cells
        ensures { result ≡ [] }
    {
        Cells {
            stored: Stored::Narrow(Vec::new(alloc)),
            apart: false,
        }
    }

    /// An empty list that stores texts of more than seven bytes out of line. It takes no memory.
    pub fn with_texts_apart(alloc: Global) -> Cells
        ensures { result ≡ [] }
    {
        Cells {
            stored: Stored::Numbers(Vec::new(alloc)),
            apart: true,
        }
    }

    /// These values, without a copy. All that are appended to them take a [`Value`]'s size, numbers too.
    pub fn of(values: Vec<Value>) -> Cells
        ensures { result ≡ values.items }
    {
        Cells {
            stored: Stored::Values(values),
            apart: false,
        }
    }

    /// The vector of the values. They are copied unless they are stored as [`Value`]s.
    pub fn into_values(self, alloc: Global) -> Result<Vec<Value>, AllocError>
        ensures { IfOk result (λ values. values.items ≡ self) }
    {
        match self.stored {
            Stored::Narrow(numbers) => {
                let numbers = wide_of(alloc, &numbers)?;
                values_of(alloc, numbers.as_slice())
            }
            Stored::Numbers(numbers) => values_of(alloc, numbers.as_slice()),
            Stored::Nullable(numbers) => values_of_nullable(alloc, numbers.as_slice()),
            Stored::Values(values) => Ok(values),
            Stored::Tagged(values) => values.to_values(alloc, values.len()),
        }
    }

    /// The number of values.
    #[inline]
    pub fn len(&self) -> usize
        ensures { result ≡ length self.now }
    {
        match &self.stored {
            Stored::Narrow(numbers) => numbers.len(),
            Stored::Numbers(numbers) => numbers.len(),
            Stored::Nullable(numbers) => numbers.len(),
            Stored::Values(values) => values.len(),
            Stored::Tagged(values) => values.len(),
        }
    }

    /// The value at a position, counted from 0.
    #[inline(always)]
    pub fn get(&self, position: usize) -> CellRef<'_>
        requires { position < length self.now }
        ensures { value_of result ≡ slice_index_or self.now position Null }
    {
        match &self.stored {
            Stored::Narrow(numbers) => CellRef::Int(i64::from(numbers[position])),
            Stored::Numbers(numbers) => CellRef::Int(numbers[position]),
            Stored::Nullable(numbers) => CellRef::of_number(numbers[position]),
            Stored::Values(values) => CellRef::of(&values[position]),
            Stored::Tagged(values) => values.get(position),
        }
    }

    // Borrows a range of the values.
    #[inline(always)]
    pub(crate) fn lend(&self, part: Span) -> CellSlice<'_>
        requires { IsPart self.now part }
        ensures values { slice_values result ≡ row_at self.now part }
        ensures utf8 { HaveUtf8 result }
    {
        match &self.stored {
            Stored::Narrow(numbers) => CellSlice::Narrow(&numbers[part.start..part.end]),
            Stored::Numbers(numbers) => CellSlice::Numbers(&numbers[part.start..part.end]),
            Stored::Nullable(numbers) => CellSlice::Nullable(&numbers[part.start..part.end]),
            Stored::Values(values) => CellSlice::Values(&values[part.start..part.end]),
            Stored::Tagged(values) => {
                let (words, overflow) = values.lend(part);
                CellSlice::Tagged(words, overflow)
            }
        }
    }

    // Whether all of these rows are known to begin and end with numbers. No contract covers it.
    pub(crate) fn have_number_ends(&self, rows: &[RowSpan]) -> bool {
        match &self.stored {
            Stored::Numbers(numbers) => least_end(numbers.as_slice(), rows) > i64::MIN,
            Stored::Narrow(_) | Stored::Nullable(_) | Stored::Values(_) => false,
            Stored::Tagged(values) => values.have_number_ends(rows),
        }
    }

    // Whether each of these rows is known to have, in a column, a text out of line that doesn't end with a quote. No
    // contract covers it.
    pub(crate) fn have_texts_apart(&self, rows: &[RowSpan], column: usize) -> bool {
        match &self.stored {
            Stored::Narrow(_) | Stored::Numbers(_) | Stored::Nullable(_) | Stored::Values(_) =>
                false,
            Stored::Tagged(values) => values.have_texts_apart(rows, column),
        }
    }

    /// Reserves room for `cells` more values.
    pub fn reserve(&mut self, cells: usize) -> Result<(), AllocError>
        ensures { self.new ≡ self.old }
    {
        match &mut self.stored {
            Stored::Narrow(numbers) => numbers.reserve(cells),
            Stored::Numbers(numbers) => numbers.reserve(cells),
            Stored::Nullable(numbers) => numbers.reserve(cells),
            Stored::Values(values) => values.reserve(cells),
            Stored::Tagged(values) => values.reserve(cells),
        }
    }

    /// Overwrites `over` with the value at a position, counted from 0. Only a text longer than 22 bytes may allocate.
    #[inline(always)]
    pub fn copy_to(
        &self,
        alloc: Global,
        position: usize,
        over: &mut Value,
    ) -> Result<(), AllocError>
        requires { position < length self.now }
        ensures copied { OnOk result (over.new ≡ slice_index_or self.now position Null) }
        ensures in_place { IsInPlace (slice_index_or self.now position Null) → IsOk result }
    {
        match &self.stored {
            Stored::Narrow(numbers) => {
                over.write_number(i64::from(numbers[position]));
                Ok(())
            }
            Stored::Numbers(numbers) => {
                over.write_number(numbers[position]);
                Ok(())
            }
            Stored::Values(values) => over.copy_from(alloc, &values[position]),
            Stored::Tagged(values) if values.copy_short(position, over) => Ok(()),
            Stored::Nullable(_) | Stored::Tagged(_) => self.copy_other_to(alloc, position, over),
        }
    }

    // As `copy_to`, in each layout. Not inlined, so that loops over columns of numbers stay short.
    #[inline(never)]
    fn copy_other_to(
        &self,
        alloc: Global,
        position: usize,
        over: &mut Value,
    ) -> Result<(), AllocError>
        requires { position < length self.now }
        ensures copied { OnOk result (over.new ≡ slice_index_or self.now position Null) }
        ensures in_place { IsInPlace (slice_index_or self.now position Null) → IsOk result }
    {
        match &self.stored {
            Stored::Narrow(numbers) => {
                over.write_number(i64::from(numbers[position]));
                Ok(())
            }
            Stored::Numbers(numbers) => {
                over.write_number(numbers[position]);
                Ok(())
            }
            Stored::Nullable(numbers) => {
                *over = cell_of(numbers[position]);
                Ok(())
            }
            Stored::Values(values) => over.copy_from(alloc, &values[position]),
            Stored::Tagged(values) => values.copy_to(alloc, position, over),
        }
    }

    /// Appends a value. A text moves out of `value`.
    #[inline(always)]
    pub fn push(&mut self, alloc: Global, value: &mut Value) -> Result<(), AllocError>
        ensures pushed { OnOk result (self.new ≡ self.old ++ value.old ∷ []) }
        ensures unchanged { OnErr result (self.new ≡ self.old) }
    {
        match value {
            Value::Int(n) => match &mut self.stored {
                Stored::Narrow(numbers) if numbers.len() < numbers.capacity() => {
                    match i32::try_from(*n) {
                        Ok(n) => {
                            numbers.push_reserved(n);
                            Ok(())
                        }
                        Err(_e) => self.push_other(alloc, value),
                    }
                }
                Stored::Numbers(numbers) if numbers.len() < numbers.capacity() => {
                    numbers.push_reserved(*n);
                    Ok(())
                }
                Stored::Narrow(_)
                | Stored::Numbers(_)
                | Stored::Nullable(_)
                | Stored::Values(_)
                | Stored::Tagged(_) => self.push_other(alloc, value),
            },
            Value::Null | Value::Text(_) | Value::NoCase(_) => self.push_other(alloc, value),
        }
    }

    // As `push`, in each layout. Not inlined, so that loops over columns of numbers stay short.
    #[inline(never)]
    fn push_other(&mut self, alloc: Global, value: &mut Value) -> Result<(), AllocError>
        ensures pushed { OnOk result (self.new ≡ self.old ++ value.old ∷ []) }
        ensures unchanged { OnErr result (self.new ≡ self.old) }
    {
        match &mut self.stored {
            Stored::Narrow(numbers) => match value {
                Value::Int(n) => match i32::try_from(*n) {
                    Ok(n) => push_narrow(numbers, n),
                    Err(_e) => self.stored.push_long(alloc, *n),
                },
                Value::Null | Value::Text(_) | Value::NoCase(_) => {
                    self.stored.push_wide(alloc, self.apart, value)
                }
            },
            Stored::Numbers(numbers) => match value {
                Value::Int(n) => push_number(numbers, *n),
                Value::Null | Value::Text(_) | Value::NoCase(_) => {
                    self.stored.push_wide(alloc, self.apart, value)
                }
            },
            Stored::Nullable(numbers) => match number_of(value) {
                Some(number) => push_nullable(numbers, number),
                None => self.stored.push_wide(alloc, self.apart, value),
            },
            Stored::Values(values) => push_value(values, value),
            Stored::Tagged(values) if self.apart => values.push(value),
            Stored::Tagged(values) => match word_of(value) {
                Some(word) => values.push_word(word),
                None => self.stored.push_wide(alloc, false, value),
            },
        }
    }

    /// Moves `values` to the end. On error a prefix of them may have been appended; what they hold then is unspecified.
    #[inline(always)]
    pub fn push_all(&mut self, alloc: Global, values: &mut [Value]) -> Result<(), AllocError>
        ensures pushed { OnOk result (self.new ≡ self.old ++ values.old) }
        ensures kept { self.new ≡ self.old ++ drop (length self.old) self.new }
    {
        if let Stored::Tagged(cells) = &mut self.stored {
            return cells.push_all(values);
        }
        self.push_each(alloc, values)
    }

    // As `push_all`, in each layout.
    #[inline(always)]
    fn push_each(&mut self, alloc: Global, values: &mut [Value]) -> Result<(), AllocError>
        ensures pushed { OnOk result (self.new ≡ self.old ++ values.old) }
        ensures kept { self.new ≡ self.old ++ drop (length self.old) self.new }
    {
        for i in 0..values.len() {
            self.push(alloc, &mut values[i])?;
        }
        Ok(())
    }

    /// Moves the first of the keys that are left to the end. On error a prefix of it may have been appended, and
    /// the others are unspecified.
    #[inline(always)]
    pub fn push_key(&mut self, alloc: Global, keys: &mut KeysLeft) -> Result<(), AllocError>
        requires { 0 < length keys.old }
        ensures pushed { OnOk result (self.new ≡ self.old ++ slice_index_or keys.old 0 []) }
        ensures left { OnOk result (keys.new ≡ drop 1 keys.old) }
        ensures fewer { length keys.new + 1 ≡ length keys.old }
        ensures kept { self.new ≡ self.old ++ drop (length self.old) self.new }
    {
        keys.len -= 1;
        if let Stored::Tagged(cells) = &mut self.stored {
            return push_tagged(cells, &mut keys.cells, keys.width);
        }
        self.push_left(alloc, &mut keys.cells, keys.width)
    }

    // Moves the first `count` of the values that are left to the end, in each layout.
    #[inline(always)]
    fn push_left(
        &mut self,
        alloc: Global,
        left: &mut CellsLeft,
        count: usize,
    ) -> Result<(), AllocError>
        requires { count ≤ length left.old }
        ensures pushed { OnOk result (self.new ≡ self.old ++ take count left.old) }
        ensures left { OnOk result (left.new ≡ drop count left.old) }
        ensures most { length left.old ≤ length left.new + count }
        ensures kept { self.new ≡ self.old ++ drop (length self.old) self.new }
    {
        for i in 0..count {
            self.push(alloc, &mut left.next())?;
        }
        Ok(())
    }

    /// Moves all values of another list to the end. Texts that are stored out of line are copied.
    pub fn append(&mut self, alloc: Global, more: Cells) -> Result<(), AllocError>
        ensures appended { OnOk result (self.new ≡ self.old ++ more) }
        ensures unchanged { OnErr result (self.new ≡ self.old) }
    {
        let mut more = more;
        self.stored.append(alloc, &mut more.stored)
    }

    /// Overwrites `over` with the values of a range. If both have one length, only texts longer than 22 bytes may
    /// allocate.
    pub fn copy_part(
        &self,
        alloc: Global,
        part: Span,
        over: &mut Vec<Value>,
    ) -> Result<(), AllocError>
        requires { IsPart self.now part }
        ensures copied { OnOk result (over.new.items ≡ row_at self.now part) }
        ensures in_place { length over.old.items ≡ part.end - part.start →
            All IsInPlace (row_at self.now part) → IsOk result }
    {
        over.resize_with(part.end - part.start, || Value::Null)?;
        self.write_over(alloc, part.start, over.as_mut_slice())
    }

    // Overwrites `over` with the values from a position on.
    fn write_over(&self, alloc: Global, start: usize, over: &mut [Value]) -> Result<(), AllocError>
        requires { start + length over.old ≤ length self.now }
        ensures copied { OnOk result (over.new ≡ part self.now start (start + length over.old)) }
        ensures in_place { All IsInPlace (part self.now start (start + length over.old)) → IsOk result }
    {
        // All positions are within a list in memory, so this sum can't overflow.
        let _all = self.len();
        for i in 0..over.len() {
            self.copy_to(alloc, start + i, &mut over[i])?;
        }
        Ok(())
    }

    /// Compares two ranges as keys: lexicographic, a list before each longer one that begins with it.
    pub fn compare(&self, a: Span, b: Span) -> Ordering
        requires { IsPart self.now a × IsPart self.now b }
        ensures { result ≡ compare_keys (row_at self.now a) (row_at self.now b) }
    {
        match &self.stored {
            Stored::Narrow(numbers) => {
                compare_narrow(&numbers[a.start..a.end], &numbers[b.start..b.end])
            }
            Stored::Numbers(numbers) => {
                compare_numbers(&numbers[a.start..a.end], &numbers[b.start..b.end])
            }
            Stored::Nullable(numbers) => {
                compare_nullable(&numbers[a.start..a.end], &numbers[b.start..b.end])
            }
            Stored::Values(values) => {
                compare_cells(&values[a.start..a.end], &values[b.start..b.end])
            }
            Stored::Tagged(values) => values.compare(a, b),
        }
    }

    /// Keeps the first `cells` values.
    pub fn truncate(&mut self, cells: usize)
        ensures { self.new ≡ take cells self.old }
    {
        match &mut self.stored {
            Stored::Narrow(numbers) => numbers.truncate(cells),
            Stored::Numbers(numbers) => numbers.truncate(cells),
            Stored::Nullable(numbers) => numbers.truncate(cells),
            Stored::Values(values) => values.truncate(cells),
            Stored::Tagged(values) => values.truncate(cells),
        }
    }
}

// The least number at an end of one of these rows, or zero. No contract covers it.
fn least_end(numbers: &[i64], rows: &[RowSpan]) -> i64 {
    let mut least = 0;
    for row in rows {
        let row = row.get();
        if row.start < row.end && row.end <= numbers.len() {
            least = numbers[row.start].min(numbers[row.end - 1]).min(least);
        }
    }
    least
}

impl Stored {
    ghost use Rattle.gq_cells.specs.Cells.{HasNullable, HasTexts, HasValues, IsNarrow, cells_of};

    // Appends a number of more than 32 bits to those of 32 bits.
    #[cold]
    fn push_long(&mut self, alloc: Global, number: i64) -> Result<(), AllocError>
        requires { IsNarrow self.old }
        ensures pushed { OnOk result (cells_of self.new ≡ cells_of self.old ++ Int number ∷ []) }
        ensures unchanged { OnErr result (cells_of self.new ≡ cells_of self.old) }
    {
        match self {
            Stored::Narrow(numbers) => {
                let mut wide = wide_of(alloc, numbers)?;
                push_number(&mut wide, number)?;
                *self = Stored::Numbers(wide);
                Ok(())
            }
            _ => unreachable!(),
        }
    }

    // Changes the layout to one of numbers of 64 bits, if it is of those of 32.
    fn admit_long(&mut self, alloc: Global) -> Result<(), AllocError>
        ensures same { cells_of self.new ≡ cells_of self.old }
    {
        if let Stored::Narrow(numbers) = self {
            *self = Stored::Numbers(wide_of(alloc, numbers)?);
        }
        Ok(())
    }

    // Appends a value that the present layout can't store.
    #[cold]
    fn push_wide(&mut self, alloc: Global, apart: bool, value: &mut Value) -> Result<(), AllocError>
        ensures pushed { OnOk result (cells_of self.new ≡ cells_of self.old ++ value.old ∷ []) }
        ensures unchanged { OnErr result (cells_of self.new ≡ cells_of self.old) }
    {
        match number_of(value) {
            Some(number) if !matches!(self, Stored::Values(_) | Stored::Tagged(_)) => {
                self.admit_null(alloc)?;
                match self {
                    Stored::Nullable(numbers) => push_nullable(numbers, number),
                    _ => unreachable!(),
                }
            }
            _ => {
                if apart || word_of(value).is_some() {
                    self.admit_words(alloc)?;
                } else {
                    self.admit_texts(alloc)?;
                }
                match self {
                    Stored::Values(values) => push_value(values, value),
                    Stored::Tagged(values) => values.push(value),
                    _ => unreachable!(),
                }
            }
        }
    }

    // Changes the layout to one that stores null among numbers.
    fn admit_null(&mut self, alloc: Global) -> Result<(), AllocError>
        requires { HasTexts self.old → ⊥ }
        ensures wide { OnOk result (HasNullable self.new) }
        ensures same { cells_of self.new ≡ cells_of self.old }
    {
        match self {
            Stored::Narrow(numbers) => {
                let numbers = wide_of(alloc, numbers)?;
                *self = Stored::Nullable(nullable_of(alloc, numbers.as_slice())?);
            }
            Stored::Numbers(numbers) => {
                *self = Stored::Nullable(nullable_of(alloc, numbers.as_slice())?);
            }
            Stored::Nullable(_) | Stored::Values(_) | Stored::Tagged(_) => {}
        }
        Ok(())
    }

    // Changes the layout to tagged words, unless it stores texts already.
    fn admit_words(&mut self, alloc: Global) -> Result<(), AllocError>
        ensures wide { OnOk result (HasTexts self.new) }
        ensures same { cells_of self.new ≡ cells_of self.old }
    {
        match self {
            Stored::Narrow(numbers) => {
                let numbers = wide_of(alloc, numbers)?;
                *self = Stored::Tagged(tagged_of(alloc, numbers.as_slice())?);
            }
            Stored::Numbers(numbers) => {
                *self = Stored::Tagged(tagged_of(alloc, numbers.as_slice())?);
            }
            Stored::Nullable(numbers) => {
                *self = Stored::Tagged(tagged_of_nullable(alloc, numbers.as_slice())?);
            }
            Stored::Values(_) | Stored::Tagged(_) => {}
        }
        Ok(())
    }

    // Changes the layout to one of `Value`s.
    fn admit_texts(&mut self, alloc: Global) -> Result<(), AllocError>
        ensures wide { OnOk result (HasValues self.new) }
        ensures same { cells_of self.new ≡ cells_of self.old }
    {
        match self {
            Stored::Narrow(numbers) => {
                let numbers = wide_of(alloc, numbers)?;
                *self = Stored::Values(values_of(alloc, numbers.as_slice())?);
            }
            Stored::Numbers(numbers) => {
                *self = Stored::Values(values_of(alloc, numbers.as_slice())?);
            }
            Stored::Nullable(numbers) => {
                *self = Stored::Values(values_of_nullable(alloc, numbers.as_slice())?);
            }
            Stored::Tagged(values) => {
                *self = Stored::Values(values.to_values(alloc, values.room())?);
            }
            Stored::Values(_) => {}
        }
        Ok(())
    }

    // Appends all of `more`. Numbers of 32 bits stay so if all are.
    fn append(&mut self, alloc: Global, more: &mut Stored) -> Result<(), AllocError>
        ensures appended { OnOk result (cells_of self.new ≡ cells_of self.old ++ cells_of more.old) }
        ensures unchanged { OnErr result (cells_of self.new ≡ cells_of self.old) }
    {
        if let (Stored::Narrow(numbers), Stored::Narrow(behind)) = (&mut *self, &mut *more) {
            return numbers.append(behind);
        }
        more.admit_long(alloc)?;
        self.admit_long(alloc)?;
        self.append_wide(alloc, more)
    }

    // As `append`, where no layout is of numbers of 32 bits. Numbers, nulls, and words without an overflow stay so; in any other
    // layout all become `Value`s.
    fn append_wide(&mut self, alloc: Global, more: &mut Stored) -> Result<(), AllocError>
        ensures appended { OnOk result (cells_of self.new ≡ cells_of self.old ++ cells_of more.old) }
        ensures unchanged { OnErr result (cells_of self.new ≡ cells_of self.old) }
    {
        match (&mut *self, &mut *more) {
            (Stored::Numbers(numbers), Stored::Numbers(behind)) => {
                return numbers.append(behind);
            }
            (Stored::Nullable(numbers), Stored::Nullable(behind)) => {
                return numbers.append(behind);
            }
            (Stored::Nullable(numbers), Stored::Numbers(behind)) => {
                return numbers.append(&mut nullable_of(alloc, behind.as_slice())?);
            }
            (Stored::Numbers(numbers), Stored::Nullable(behind)) => {
                let mut all = nullable_of(alloc, numbers.as_slice())?;
                all.append(behind)?;
                *self = Stored::Nullable(all);
                return Ok(());
            }
            (Stored::Tagged(cells), Stored::Tagged(behind)) => {
                if cells.append_words(behind)? {
                    return Ok(());
                }
            }
            _ => {}
        }
        more.admit_texts(alloc)?;
        self.admit_texts(alloc)?;
        match (self, more) {
            (Stored::Values(own), Stored::Values(values)) => own.append(values),
            _ => unreachable!(),
        }
    }
}

// The value of a number, or null.
#[inline]
fn cell_of(number: Option<i64>) -> Value
    ensures { result ≡ number_cell number }
{
    match number {
        Some(n) => Value::Int(n),
        None => Value::Null,
    }
}

// The number of a value, or null; `None` for a text.
#[inline]
fn number_of(value: &Value) -> Option<Option<i64>>
    ensures some { IfSome result (λ number. number_cell number ≡ value.now) }
    ensures none { IfNone result (IsText value.now) }
{
    match value {
        Value::Null => Some(None),
        Value::Int(n) => Some(Some(*n)),
        Value::Text(_) | Value::NoCase(_) => None,
    }
}

#[inline]
fn push_narrow(numbers: &mut Vec<i32>, number: i32) -> Result<(), AllocError>
    ensures pushed { OnOk result (numbers.new.items ≡ numbers.old.items ++ number ∷ []) }
    ensures unchanged { OnErr result (numbers.new.items ≡ numbers.old.items) }
{
    numbers.push(number)?;
    Ok(())
}

#[inline]
fn push_number(numbers: &mut Vec<i64>, number: i64) -> Result<(), AllocError>
    ensures pushed { OnOk result (numbers.new.items ≡ numbers.old.items ++ number ∷ []) }
    ensures unchanged { OnErr result (numbers.new.items ≡ numbers.old.items) }
{
    numbers.push(number)?;
    Ok(())
}

#[inline]
fn push_nullable(numbers: &mut Vec<Option<i64>>, number: Option<i64>) -> Result<(), AllocError>
    ensures pushed { OnOk result (numbers.new.items ≡ numbers.old.items ++ number ∷ []) }
    ensures unchanged { OnErr result (numbers.new.items ≡ numbers.old.items) }
{
    numbers.push(number)?;
    Ok(())
}

#[inline(always)]
pub(crate) fn push_value(values: &mut Vec<Value>, value: &mut Value) -> Result<(), AllocError>
    ensures pushed { OnOk result (values.new.items ≡ values.old.items ++ value.old ∷ []) }
    ensures unchanged { OnErr result (values.new.items ≡ values.old.items) }
{
    if values.len() < values.capacity() {
        values.push_reserved(mem::replace(value, Value::Null));
        return Ok(());
    }
    push_growing(values, value)
}

// As `push_value`, to a vector that may be full. Not inlined, so that pushes to one with room stay short.
#[inline(never)]
fn push_growing(values: &mut Vec<Value>, value: &mut Value) -> Result<(), AllocError>
    ensures pushed { OnOk result (values.new.items ≡ values.old.items ++ value.old ∷ []) }
    ensures unchanged { OnErr result (values.new.items ≡ values.old.items) }
{
    values.push(mem::replace(value, Value::Null))?;
    Ok(())
}

// As `Cells::push_left`, to words.
#[inline(always)]
fn push_tagged(
    cells: &mut TaggedCells,
    left: &mut CellsLeft,
    count: usize,
) -> Result<(), AllocError>
    requires { count ≤ length left.old }
    ensures pushed { OnOk result (cells.new ≡ cells.old ++ take count left.old) }
    ensures left { OnOk result (left.new ≡ drop count left.old) }
    ensures most { length left.old ≤ length left.new + count }
    ensures kept { cells.new ≡ cells.old ++ drop (length cells.old) cells.new }
{
    for i in 0..count {
        left.move_to(cells)?;
    }
    Ok(())
}

// Numbers of 32 bits in 64 bits, with the same capacity.
fn wide_of(alloc: Global, numbers: &Vec<i32>) -> Result<Vec<i64>, AllocError>
    ensures { IfOk result (λ wide. wide.items ≡ numbers.now.items) }
{
    let mut wide = Vec::with_capacity(alloc, numbers.capacity())?;
    for number in numbers.as_slice() {
        wide.push(i64::from(*number))?;
    }
    Ok(wide)
}

// Numbers in the layout that admits null, with capacity for all of them. So are the next four.
fn nullable_of(alloc: Global, numbers: &[i64]) -> Result<Vec<Option<i64>>, AllocError>
    ensures { IfOk result (λ cells. map number_cell cells.items ≡ map Int numbers.now) }
{
    let mut cells = Vec::with_capacity(alloc, numbers.len())?;
    for number in numbers {
        cells.push(Some(*number))?;
    }
    Ok(cells)
}

// Numbers as `Value`s.
fn values_of(alloc: Global, numbers: &[i64]) -> Result<Vec<Value>, AllocError>
    ensures { IfOk result (λ values. values.items ≡ map Int numbers.now) }
{
    let mut values = Vec::with_capacity(alloc, numbers.len())?;
    for number in numbers {
        values.push(Value::Int(*number))?;
    }
    Ok(values)
}

// Numbers and nulls as `Value`s.
fn values_of_nullable(alloc: Global, numbers: &[Option<i64>]) -> Result<Vec<Value>, AllocError>
    ensures { IfOk result (λ values. values.items ≡ map number_cell numbers.now) }
{
    let mut values = Vec::with_capacity(alloc, numbers.len())?;
    for number in numbers {
        values.push(cell_of(*number))?;
    }
    Ok(values)
}

// Numbers as tagged words.
fn tagged_of(alloc: Global, numbers: &[i64]) -> Result<TaggedCells, AllocError>
    ensures { IfOk result (λ values. values ≡ map Int numbers.now) }
{
    let mut values = TaggedCells::new(alloc);
    values.reserve(numbers.len())?;
    for number in numbers {
        values.push(&mut Value::Int(*number))?;
    }
    Ok(values)
}

// Numbers and nulls as tagged words.
fn tagged_of_nullable(alloc: Global, numbers: &[Option<i64>]) -> Result<TaggedCells, AllocError>
    ensures { IfOk result (λ values. values ≡ map number_cell numbers.now) }
{
    let mut values = TaggedCells::new(alloc);
    values.reserve(numbers.len())?;
    for number in numbers {
        values.push(&mut cell_of(*number))?;
    }
    Ok(values)
}
