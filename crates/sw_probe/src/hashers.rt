//! The hashers.
ghost use Rattle.std.specs.Prelude.{◌≡◌, ℕ, List};
ghost use Rattle.sw_probe.specs.Hashes.{fnv_step, fnv_of, low_bits_of, read_step, number_of};
ghost use Rattle.sw_probe.specs.Words.{multiply_step, word_hash_of};

use crate::keyed::{KeyHash, Keyed, Names, Step, WordStep};

/// The start of FNV-1a.
pub const FNV_START: u64 = 0xcbf2_9ce4_8422_2325;

const FNV_PRIME: u64 = 0x0000_0100_0000_01b3;

// 2^64 divided by the golden ratio, an odd number whose multiples are far apart.
const APART: u64 = 0x9e37_79b9_7f4a_7c15;

/// FNV-1a of 64 bits, with a seed that is xored to the start. Seed 0 is the plain FNV-1a.
#[derive(Clone, Copy)]
pub struct Fnv1a {
    pub seed: u64,
}

impl<K: Keyed> KeyHash<K> for Fnv1a {
    ghost hash_of = { λ hasher class. fnv_of hasher.seed (K.bytes class) };

    #[inline]
    fn hash<Q: Names<K>>(&self, key: &Q) -> u64 {
        key.fold(FNV_START ^ self.seed, &FnvStep)
    }
}

/// A hash of the words of a key: each is xored in, and the halves of the product with an odd number are xored.
/// So each bit of a word affects the highest and the lowest bits, and takes one multiplication for eight bytes.
#[derive(Clone, Copy)]
pub struct WordHash {
    pub seed: u64,
}

impl<K: Keyed> KeyHash<K> for WordHash {
    ghost hash_of = { λ hasher class. word_hash_of hasher.seed (K.words class) };

    #[inline]
    fn hash<Q: Names<K>>(&self, key: &Q) -> u64 {
        key.fold_words(FNV_START ^ self.seed, &MultiplyStep)
    }
}

/// The same hash for all keys.
#[derive(Clone, Copy)]
pub struct Constant(pub u64);

impl<K: Keyed> KeyHash<K> for Constant {
    ghost hash_of = { λ hasher _. hasher.0 };

    #[inline]
    fn hash<Q: Names<K>>(&self, _key: &Q) -> u64 {
        self.0
    }
}

/// The `n` lowest bits of FNV-1a with seed 0; 64 and more keep all.
#[derive(Clone, Copy)]
pub struct LowBits(pub u32);

impl<K: Keyed> KeyHash<K> for LowBits {
    ghost hash_of = { λ hasher class. low_bits_of hasher.0 (K.bytes class) };

    #[inline]
    fn hash<Q: Names<K>>(&self, key: &Q) -> u64 {
        let all = key.fold(FNV_START, &FnvStep);
        if self.0 < 64 {
            all % (1 << self.0)
        } else {
            all
        }
    }
}

/// The key itself as its hash, for keys that are numbers.
#[derive(Clone, Copy)]
pub struct Direct;

impl KeyHash<u64> for Direct {
    ghost hash_of = { λ _. number_of };

    #[inline]
    fn hash<Q: Names<u64>>(&self, key: &Q) -> u64 {
        key.fold(0, &ReadStep)
    }
}

// One step of the hash of words: xor, then multiply, then xor the halves of the product.
struct MultiplyStep;

impl WordStep for MultiplyStep {
    ghost next = { λ _. multiply_step };

    #[inline]
    fn step(&self, acc: u64, word: u64) -> u64 {
        let product = u128::from(acc ^ word) * u128::from(APART);
        let low = (product % (1 << 64)) as u64;
        let high = (product >> 64) as u64;
        low ^ high
    }
}

/// One step of FNV-1a: xor, then multiply.
pub struct FnvStep;

impl Step for FnvStep {
    ghost next = { λ _. fnv_step };

    #[inline]
    fn step(&self, acc: u64, byte: u8) -> u64 {
        (acc ^ u64::from(byte)).wrapping_mul(FNV_PRIME)
    }
}

// Appends a byte to a number, big-endian.
pub(crate) struct ReadStep;

impl Step for ReadStep {
    ghost next = { λ _. read_step };

    #[inline]
    fn step(&self, acc: u64, byte: u8) -> u64 {
        acc.wrapping_mul(256).wrapping_add(u64::from(byte))
    }
}
