//! The flat map of this repository, of numbers and of texts.
use crate::map::Map;
use std::alloc::{AllocError, Global};
use sw_flat::{Entry, FlatMap};
use sw_probe::{ByteKey, Direct, Fnv1a, KeyHash, WordHash};

/// A hasher that can be made.
pub(crate) trait Start: Drop {
    fn start() -> Self;
}

impl Start for Fnv1a {
    fn start() -> Fnv1a {
        Fnv1a { seed: 0 }
    }
}

impl Start for WordHash {
    fn start() -> WordHash {
        WordHash { seed: 0 }
    }
}

impl Start for Direct {
    fn start() -> Direct {
        Direct
    }
}

/// A flat map of numbers.
#[derive(Drop)]
pub(crate) struct FlatNumbers<H: KeyHash<u64> + Start> {
    map: FlatMap<u64, u64, H>,
}

impl<H: KeyHash<u64> + Start> Map for FlatNumbers<H> {
    type Key = u64;

    fn new(alloc: Global) -> FlatNumbers<H> {
        FlatNumbers {
            map: FlatMap::new(alloc, H::start()),
        }
    }

    fn with_room(alloc: Global, n: usize) -> Result<FlatNumbers<H>, AllocError> {
        match FlatMap::with_room(alloc, H::start(), n) {
            Ok(map) => Ok(FlatNumbers { map }),
            Err(_) => Err(AllocError),
        }
    }

    fn len(&self) -> usize {
        self.map.len()
    }

    #[inline]
    fn insert(&mut self, key: u64, value: u64) -> Result<(), AllocError> {
        match self.map.insert_or_assign(key, value) {
            Ok(_) => Ok(()),
            Err(_) => Err(AllocError),
        }
    }

    #[inline]
    fn get(&self, key: &u64) -> Option<u64> {
        Some(*self.map.get(key)?)
    }

    #[inline]
    fn count(&mut self, _alloc: Global, key: &u64) -> Result<(), AllocError> {
        match self.map.entry(key) {
            Entry::Occupied(slot) => {
                let value = self.map.value_mut(slot);
                *value = value.wrapping_add(1);
                Ok(())
            }
            Entry::Vacant(vacancy) => match self.map.fill(vacancy, *key, 1) {
                Ok(_) => Ok(()),
                Err(_) => Err(AllocError),
            },
        }
    }

    #[inline]
    fn remove(&mut self, key: &u64) -> Option<u64> {
        Some(self.map.extract(key)?.1)
    }

    #[inline]
    fn sum(&self) -> u64 {
        let mut sum = 0u64;
        for (key, value) in self.map.iter() {
            sum = sum.wrapping_add(*key).wrapping_add(*value);
        }
        sum
    }

    fn clear(&mut self) {
        self.map.clear();
    }
}

/// A flat map of texts, looked up by their bytes.
#[derive(Drop)]
pub(crate) struct FlatTexts {
    map: FlatMap<Vec<u8>, u64, WordHash>,
}

impl Map for FlatTexts {
    type Key = Vec<u8>;

    fn new(alloc: Global) -> FlatTexts {
        FlatTexts {
            map: FlatMap::new(alloc, WordHash { seed: 0 }),
        }
    }

    fn with_room(alloc: Global, n: usize) -> Result<FlatTexts, AllocError> {
        match FlatMap::with_room(alloc, WordHash { seed: 0 }, n) {
            Ok(map) => Ok(FlatTexts { map }),
            Err(_) => Err(AllocError),
        }
    }

    fn len(&self) -> usize {
        self.map.len()
    }

    #[inline]
    fn insert(&mut self, key: Vec<u8>, value: u64) -> Result<(), AllocError> {
        match self.map.insert_or_assign(key, value) {
            Ok(_) => Ok(()),
            Err(_) => Err(AllocError),
        }
    }

    #[inline]
    fn get(&self, key: &Vec<u8>) -> Option<u64> {
        Some(*self.map.get(&ByteKey(key.as_slice()))?)
    }

    #[inline]
    fn count(&mut self, alloc: Global, key: &Vec<u8>) -> Result<(), AllocError> {
        match self.map.entry(&ByteKey(key.as_slice())) {
            Entry::Occupied(slot) => {
                let value = self.map.value_mut(slot);
                *value = value.wrapping_add(1);
                Ok(())
            }
            Entry::Vacant(vacancy) => {
                match self.map.fill(vacancy, key.as_slice().to_vec(alloc)?, 1) {
                    Ok(_) => Ok(()),
                    Err(_) => Err(AllocError),
                }
            }
        }
    }

    #[inline]
    fn remove(&mut self, key: &Vec<u8>) -> Option<u64> {
        Some(self.map.extract(&ByteKey(key.as_slice()))?.1)
    }

    #[inline]
    fn sum(&self) -> u64 {
        let mut sum = 0u64;
        for (key, value) in self.map.iter() {
            sum = sum.wrapping_add(key.len() as u64).wrapping_add(*value);
        }
        sum
    }

    fn clear(&mut self) {
        self.map.clear();
    }
}
