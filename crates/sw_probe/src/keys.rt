//! Numbers and byte strings as keys.
ghost use Rattle.std.specs.Prelude.{◌≡◌, ℕ, List, [], ◌∷◌, fold};
ghost use Rattle.std.specs.Int.{bytes_high_first};
ghost use Rattle.sw_probe.specs.Hashes.{number_of};
ghost use Rattle.sw_probe.specs.Words.{words_of};

use crate::byte_strings::same_bytes;
use crate::hashers::ReadStep;
use crate::keyed::{Keyed, Names, Step, WordStep};
use crate::words::{AsItIs, fold_byte_words};

/// A number is the key of its eight bytes, big-endian, and its word is the number itself.
impl Keyed for u64 {
    ghost class = { bytes_high_first 8 };

    ghost bytes = { λ bytes. bytes };

    ghost words = { λ bytes. number_of bytes ∷ [] };

    #[inline]
    fn same_key(&self, key: &u64) -> bool {
        *self == *key
    }

    // By shifts, not through an array: a step that only reads the number then folds away.
    #[inline]
    fn fold_key<F: Step>(&self, start: u64, f: &F) -> u64 {
        let x = *self;
        let acc = f.step(start, (x >> 56) as u8);
        let acc = f.step(acc, (x >> 48 & 0xff) as u8);
        let acc = f.step(acc, (x >> 40 & 0xff) as u8);
        let acc = f.step(acc, (x >> 32 & 0xff) as u8);
        let acc = f.step(acc, (x >> 24 & 0xff) as u8);
        let acc = f.step(acc, (x >> 16 & 0xff) as u8);
        let acc = f.step(acc, (x >> 8 & 0xff) as u8);
        f.step(acc, (x & 0xff) as u8)
    }

    #[inline]
    fn fold_key_words<F: WordStep>(&self, start: u64, f: &F) -> u64 {
        f.step(start, self.fold_key(0, &ReadStep))
    }
}

/// A byte string is the key of its bytes. Its words are those of [`fold_byte_words`].
impl Keyed for Vec<u8> {
    ghost class = { λ key. key.items };

    ghost bytes = { λ bytes. bytes };

    ghost words = { words_of };

    #[inline]
    fn same_key(&self, key: &Vec<u8>) -> bool {
        same_bytes(self.as_slice(), key.as_slice())
    }

    #[inline]
    fn fold_key<F: Step>(&self, start: u64, f: &F) -> u64 {
        fold_bytes(self.as_slice(), start, f)
    }

    #[inline]
    fn fold_key_words<F: WordStep>(&self, start: u64, f: &F) -> u64 {
        fold_byte_words(self.as_slice(), &AsItIs, start, f)
    }
}

/// A byte string as a borrowed key: of the same class as the `Vec<u8>` of these bytes.
#[derive(Clone, Copy)]
pub struct ByteKey<'a>(pub &'a [u8]);

impl Names<Vec<u8>> for ByteKey<'_> {
    ghost named = { λ key. key.0.now };

    #[inline]
    fn same(&self, key: &Vec<u8>) -> bool {
        same_bytes(self.0, key.as_slice())
    }

    #[inline]
    fn fold<F: Step>(&self, start: u64, f: &F) -> u64 {
        fold_bytes(self.0, start, f)
    }

    #[inline]
    fn fold_words<F: WordStep>(&self, start: u64, f: &F) -> u64 {
        fold_byte_words(self.0, &AsItIs, start, f)
    }
}

#[inline]
fn fold_bytes<F: Step>(bytes: &[u8], start: u64, f: &F) -> u64
    ensures { result ≡ fold (F.next f.now) start bytes.now }
{
    let mut acc = start;
    for byte in bytes {
        acc = f.step(acc, *byte);
    }
    acc
}
