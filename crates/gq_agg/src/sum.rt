//! Sums of numbers.
ghost use Rattle.std.specs.Prelude.{◌≡◌, ◌^◌, ◌+ℤ◌, ◌≤ℤ◌, pos};

use std::marker::Model;

/// A whole number in two words, seen as that number. An `i128` is aligned to sixteen bytes, which would leave
/// gaps in each group that is kept.
#[derive(Drop)]
pub struct Sum {
    // The number is `high` times 2^64, plus `low`.
    high: i64,
    low: u64,
}

impl Model for Sum {
    ghost use Rattle.std.specs.Prelude.{ℤ};
    ghost use Rattle.gq_agg.specs.Words.{in_words};

    ghost Value = { ℤ };

    ghost view = { λ s. in_words s.high s.low };
}

impl Sum {
    /// The sum of no numbers.
    #[inline]
    pub(crate) fn zero() -> Sum
        ensures { result ≡ pos 0 }
    {
        Sum { high: 0, low: 0 }
    }

    /// Adds a number. If the low word overflows it wraps around, and carries to the high word.
    #[inline]
    pub(crate) fn add(&mut self, n: i64)
        requires low { pos 0 ≤ℤ (self.old +ℤ pos (2 ^ 96)) }
        requires high { self.old ≤ℤ pos (2 ^ 96) }
        ensures { self.new ≡ self.old +ℤ n }
    {
        let size = n.unsigned_abs();
        if n < 0 {
            if self.low < size {
                self.high -= 1;
                self.low += u64::MAX - size + 1;
            } else {
                self.low -= size;
            }
        } else if u64::MAX - size < self.low {
            self.high += 1;
            self.low -= u64::MAX - size + 1;
        } else {
            self.low += size;
        }
    }

    #[inline]
    pub(crate) fn to_i128(&self) -> i128
        ensures { result ≡ self.now }
    {
        (self.high as i128) * 18_446_744_073_709_551_616 + self.low as i128
    }
}
