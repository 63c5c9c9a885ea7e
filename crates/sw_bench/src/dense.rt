//! The toolchain's `HashMap`, of numbers and of texts: entries in a dense list, with an index.
use crate::fnv::FnvStart;
use crate::map::Map;
use std::alloc::{AllocError, Global};
use std::collections::HashMap;

/// A dense map of numbers. It hashes the lowest byte of a number first, so the bytes of keys are swapped to get
/// the hashes of the flat map.
#[derive(Drop)]
pub(crate) struct DenseNumbers {
    map: HashMap<u64, u64, FnvStart, Global>,
}

impl Map for DenseNumbers {
    type Key = u64;

    fn new(alloc: Global) -> DenseNumbers {
        DenseNumbers {
            map: HashMap::with_hasher(alloc, FnvStart),
        }
    }

    fn with_room(alloc: Global, n: usize) -> Result<DenseNumbers, AllocError> {
        Ok(DenseNumbers {
            map: HashMap::with_capacity_and_hasher(alloc, n, FnvStart)?,
        })
    }

    fn len(&self) -> usize {
        self.map.len()
    }

    #[inline]
    fn insert(&mut self, key: u64, value: u64) -> Result<(), AllocError> {
        match self.map.insert(key.swap_bytes(), value) {
            Ok(_) => Ok(()),
            Err(_) => Err(AllocError),
        }
    }

    #[inline]
    fn get(&self, key: &u64) -> Option<u64> {
        Some(*self.map.get(&key.swap_bytes())?)
    }

    #[inline]
    fn count(&mut self, _alloc: Global, key: &u64) -> Result<(), AllocError> {
        if let Some(value) = self.map.get_mut(&key.swap_bytes()) {
            *value = value.wrapping_add(1);
            return Ok(());
        }
        self.insert(*key, 1)
    }

    #[inline]
    fn remove(&mut self, key: &u64) -> Option<u64> {
        self.map.remove(&key.swap_bytes())
    }

    #[inline]
    fn sum(&self) -> u64 {
        let mut sum = 0u64;
        for (key, value) in self.map.iter() {
            sum = sum.wrapping_add(key.swap_bytes()).wrapping_add(*value);
        }
        sum
    }

    fn clear(&mut self) {
        self.map.clear();
    }
}

/// A dense map of texts, looked up by `&str`.
#[derive(Drop)]
pub(crate) struct DenseTexts {
    map: HashMap<String, u64, FnvStart, Global>,
}

impl Map for DenseTexts {
    type Key = String;

    fn new(alloc: Global) -> DenseTexts {
        DenseTexts {
            map: HashMap::with_hasher(alloc, FnvStart),
        }
    }

    fn with_room(alloc: Global, n: usize) -> Result<DenseTexts, AllocError> {
        Ok(DenseTexts {
            map: HashMap::with_capacity_and_hasher(alloc, n, FnvStart)?,
        })
    }

    fn len(&self) -> usize {
        self.map.len()
    }

    #[inline]
    fn insert(&mut self, key: String, value: u64) -> Result<(), AllocError> {
        match self.map.insert(key, value) {
            Ok(_) => Ok(()),
            Err(_) => Err(AllocError),
        }
    }

    #[inline]
    fn get(&self, key: &String) -> Option<u64> {
        Some(*self.map.get(key.as_str())?)
    }

    #[inline]
    fn count(&mut self, _alloc: Global, key: &String) -> Result<(), AllocError> {
        if let Some(value) = self.map.get_mut(key.as_str()) {
            *value = value.wrapping_add(1);
            return Ok(());
        }
        self.insert(key.clone()?, 1)
    }

    #[inline]
    fn remove(&mut self, key: &String) -> Option<u64> {
        self.map.remove(key.as_str())
    }

    #[inline]
    fn sum(&self) -> u64 {
        let mut sum = 0u64;
        for (key, value) in self.map.iter() {
            sum = sum.wrapping_add(key.len() as u64).wrapping_add(*value);
        }
        sum
    }

    fn clear(&mut self) {
        self.map.clear();
    }
}
