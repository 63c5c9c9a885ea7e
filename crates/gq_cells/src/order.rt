//! The order of lists of numbers.
ghost use Rattle.std.specs.Prelude.{◌≡◌, map};
ghost use Rattle.std.specs.Cmp.Lexicographic.{slice_cmp};
ghost use Rattle.gq_row.specs.declared.value.Value.TheVariants.{Int};
ghost use Rattle.gq_row.specs.Order.{compare_keys};
ghost use Rattle.gq_cells.specs.Cells.{number_cell};

use std::cmp::Ordering;

/// The order of two lists of numbers of 32 bits, as of keys.
pub(crate) fn compare_narrow(a: &[i32], b: &[i32]) -> Ordering
    ensures { result ≡ compare_keys (map Int a.now) (map Int b.now) }
{
    compare_each(a, b)
}

/// The order of two lists of numbers, as of keys.
pub(crate) fn compare_numbers(a: &[i64], b: &[i64]) -> Ordering
    ensures { result ≡ compare_keys (map Int a.now) (map Int b.now) }
{
    compare_each(a, b)
}

/// The order of two lists of numbers and nulls, as of keys.
pub(crate) fn compare_nullable(a: &[Option<i64>], b: &[Option<i64>]) -> Ordering
    ensures { result ≡ compare_keys (map number_cell a.now) (map number_cell b.now) }
{
    compare_each(a, b)
}

// Lexicographic: a list comes before each longer one that begins with it.
fn compare_each<T: Ord>(a: &[T], b: &[T]) -> Ordering
    ensures { result ≡ slice_cmp T.cmp a.now b.now }
{
    a.iter().cmp(b.iter())
}
