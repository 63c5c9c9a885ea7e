//! FNV-1a for std's map.
ghost use Rattle.std.specs.Prelude.{fold};
ghost use Rattle.sw_probe.specs.Hashes.{fnv_step};

use std::hash::{BuildHasher, Hasher};
use sw_probe::{ByteKey, Names, Step};

const START: u64 = 0xcbf2_9ce4_8422_2325;

const PRIME: u64 = 0x0000_0100_0000_01b3;

// One step of the hash: xor, then multiply.
struct FnvStep;

impl Step for FnvStep {
    ghost next = { λ _. fnv_step };

    #[inline]
    fn step(&self, acc: u64, byte: u8) -> u64 {
        (acc ^ u64::from(byte)).wrapping_mul(PRIME)
    }
}

/// FNV-1a of 64 bits, seed 0, over bytes in order.
#[derive(Drop)]
pub(crate) struct FnvHasher {
    hash: u64,
}

impl Hasher for FnvHasher {
    ghost write = { λ s bytes. record { hash = fold fnv_step s.hash bytes } };

    ghost finish = { λ s. s.hash };

    #[inline]
    fn finish(&self) -> u64 {
        self.hash
    }

    #[inline]
    fn write(&mut self, bytes: &[u8]) {
        self.hash = ByteKey(bytes).fold(self.hash, &FnvStep);
    }
}

/// Makes the hasher of each key.
#[derive(Clone, Copy)]
pub(crate) struct FnvStart;

impl BuildHasher for FnvStart {
    ghost use Rattle.sw_bench.specs.declared.fnv.TheConstants.{START};

    type Hasher = FnvHasher;

    ghost build_hasher = { λ _. record { hash = START } };

    #[inline]
    fn build_hasher(&self) -> FnvHasher {
        FnvHasher { hash: START }
    }
}
