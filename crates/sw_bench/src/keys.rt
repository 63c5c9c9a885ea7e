//! The keys of a measurement.
use gq_row::{Key as RowKey, Text, Value};
use std::alloc::{AllocError, Global};

/// A key that is made from a number.
pub(crate) trait Key: Sized + Drop {
    fn of(alloc: Global, number: u64) -> Result<Self, AllocError>;

    fn copy(&self, alloc: Global) -> Result<Self, AllocError>;

    /// The number itself, or the length of a text.
    fn number(&self) -> u64;
}

impl Key for u64 {
    #[inline]
    fn of(_alloc: Global, number: u64) -> Result<u64, AllocError> {
        Ok(number)
    }

    #[inline]
    fn copy(&self, _alloc: Global) -> Result<u64, AllocError> {
        Ok(*self)
    }

    #[inline]
    fn number(&self) -> u64 {
        *self
    }
}

impl Key for Vec<u8> {
    fn of(alloc: Global, number: u64) -> Result<Vec<u8>, AllocError> {
        let mut letters = Vec::new(alloc);
        let mut rest = number;
        for _ in 0..8 + number % 9 {
            letters.push(b'a' + (rest % 16) as u8)?;
            rest /= 16;
        }
        Ok(letters)
    }

    #[inline]
    fn copy(&self, alloc: Global) -> Result<Vec<u8>, AllocError> {
        self.as_slice().to_vec(alloc)
    }

    #[inline]
    fn number(&self) -> u64 {
        self.len() as u64
    }
}

impl Key for String {
    fn of(alloc: Global, number: u64) -> Result<String, AllocError> {
        let mut letters = String::new(alloc);
        let mut rest = number;
        for _ in 0..8 + number % 9 {
            letters.push((b'a' + (rest % 16) as u8) as char)?;
            rest /= 16;
        }
        Ok(letters)
    }

    #[inline]
    fn copy(&self, _alloc: Global) -> Result<String, AllocError> {
        self.clone()
    }

    #[inline]
    fn number(&self) -> u64 {
        self.len() as u64
    }
}

/// A key of one text, which is stored inline.
impl Key for RowKey {
    fn of(alloc: Global, number: u64) -> Result<RowKey, AllocError> {
        let letters: String = Key::of(alloc, number)?;
        let text = Value::Text(Text::from_string(alloc, letters)?);
        RowKey::of(alloc, &[text], &[0])
    }

    #[inline]
    fn copy(&self, alloc: Global) -> Result<RowKey, AllocError> {
        let positions: &[usize] = if self.is_empty() { &[] } else { &[0] };
        RowKey::of(alloc, self.cells(), positions)
    }

    #[inline]
    fn number(&self) -> u64 {
        match self.cells().first() {
            Some(Value::Text(text)) => text.len() as u64,
            _ => 0,
        }
    }
}

/// Keys to insert, as many of these to look up in another order, and as many absent ones.
#[derive(Drop)]
pub(crate) struct Keys<K> {
    pub(crate) held: Vec<K>,
    pub(crate) asked: Vec<K>,
    pub(crate) absent: Vec<K>,
}

impl<K: Key> Keys<K> {
    /// `n` of each.
    pub(crate) fn new(alloc: Global, n: usize) -> Result<Keys<K>, AllocError> {
        let (mut held, mut asked) = (Vec::new(alloc), Vec::new(alloc));
        let mut absent = Vec::new(alloc);
        let count = (n as u64).max(1);
        for i in 0..n as u64 {
            held.push(K::of(alloc, mixed(i))?)?;
            asked.push(K::of(alloc, mixed(mixed(!i) % count))?)?;
            absent.push(K::of(alloc, mixed(count.wrapping_add(i)))?)?;
        }
        Ok(Keys {
            held,
            asked,
            absent,
        })
    }
}

/// Copies of keys.
pub(crate) fn copies<K: Key>(alloc: Global, keys: &[K]) -> Result<Vec<K>, AllocError> {
    let mut copied = Vec::with_capacity(alloc, keys.len())?;
    for key in keys {
        copied.push(key.copy(alloc)?)?;
    }
    Ok(copied)
}

// A pseudo-random permutation of the numbers of 64 bits: the last steps of SplitMix64.
fn mixed(n: u64) -> u64 {
    let x = n.wrapping_mul(0x9e37_79b9_7f4a_7c15);
    let y = (x ^ (x >> 30)).wrapping_mul(0xbf58_476d_1ce4_e5b9);
    let z = (y ^ (y >> 27)).wrapping_mul(0x94d0_49bb_1331_11eb);
    z ^ (z >> 31)
}
