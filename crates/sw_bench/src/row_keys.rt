//! The flat map of this repository, of keys as the engine stores them.
use crate::flat::Start;
use crate::keys::Key;
use crate::map::Map;
use gq_row::{Key as RowKey, KeyCells, KeyRef};
use std::alloc::{AllocError, Global};
use sw_flat::{Entry, FlatMap};
use sw_probe::KeyHash;

/// A flat map of keys of rows, looked up by their values.
#[derive(Drop)]
pub(crate) struct FlatRowKeys<H: KeyHash<RowKey> + Start> {
    map: FlatMap<RowKey, u64, H>,
}

impl<H: KeyHash<RowKey> + Start> Map for FlatRowKeys<H> {
    type Key = RowKey;

    fn new(alloc: Global) -> FlatRowKeys<H> {
        FlatRowKeys {
            map: FlatMap::new(alloc, H::start()),
        }
    }

    fn with_room(alloc: Global, n: usize) -> Result<FlatRowKeys<H>, AllocError> {
        match FlatMap::with_room(alloc, H::start(), n) {
            Ok(map) => Ok(FlatRowKeys { map }),
            Err(_) => Err(AllocError),
        }
    }

    fn len(&self) -> usize {
        self.map.len()
    }

    #[inline]
    fn insert(&mut self, key: RowKey, value: u64) -> Result<(), AllocError> {
        match self.map.insert_or_assign(key, value) {
            Ok(_) => Ok(()),
            Err(_) => Err(AllocError),
        }
    }

    #[inline]
    fn get(&self, key: &RowKey) -> Option<u64> {
        Some(*self.map.get(&KeyCells(key.cells()))?)
    }

    #[inline]
    fn count(&mut self, alloc: Global, key: &RowKey) -> Result<(), AllocError> {
        let cells = key.cells();
        let positions: &[usize] = if cells.is_empty() { &[] } else { &[0] };
        match self.map.entry(&KeyRef::new(cells, positions)) {
            Entry::Occupied(slot) => {
                let value = self.map.value_mut(slot);
                *value = value.wrapping_add(1);
                Ok(())
            }
            Entry::Vacant(vacancy) => {
                let copied = RowKey::of(alloc, cells, positions)?;
                match self.map.fill(vacancy, copied, 1) {
                    Ok(_) => Ok(()),
                    Err(_) => Err(AllocError),
                }
            }
        }
    }

    #[inline]
    fn remove(&mut self, key: &RowKey) -> Option<u64> {
        Some(self.map.extract(&KeyCells(key.cells()))?.1)
    }

    #[inline]
    fn sum(&self) -> u64 {
        let mut sum = 0u64;
        for (key, value) in self.map.iter() {
            sum = sum.wrapping_add(key.number()).wrapping_add(*value);
        }
        sum
    }

    fn clear(&mut self) {
        self.map.clear();
    }
}
