//! A flat map of the rows' keys, without an engine.
use crate::shape::Shape;
use crate::timing::{Timing, nanoseconds_since};
use gq_row::{Key, KeyRef, Row};
use std::alloc::{AllocError, Global};
use std::io;
use std::time::Instant;
use sw_flat::FlatMap;
use sw_probe::WordHash;

/// One look-up for each row in a map of all keys.
pub(crate) fn time_find(rt: &HostRuntime, shape: Shape, rows: usize) -> io::Result<Timing> {
    let keys = shape.rows(rt.alloc(), rows)?;
    let map = map_of(rt.alloc(), keys.as_slice())?;
    let start = Instant::now(rt)?;
    let came = keys.iter().filter(|row| has_key(&map, row)).count();
    Ok(Timing {
        nanoseconds: nanoseconds_since(rt, start)?,
        came,
    })
}

/// One insertion for each row into a map that grows.
pub(crate) fn time_insert(rt: &HostRuntime, shape: Shape, rows: usize) -> io::Result<Timing> {
    let keys = shape.rows(rt.alloc(), rows)?;
    let start = Instant::now(rt)?;
    let map = map_of(rt.alloc(), keys.as_slice())?;
    Ok(Timing {
        nanoseconds: nanoseconds_since(rt, start)?,
        came: map.len(),
    })
}

fn has_key(map: &FlatMap<Key, u64, WordHash>, row: &Row) -> bool {
    !row.is_empty() && map.contains(&KeyRef::new(row.cells(), &[0]))
}

fn map_of(alloc: Global, rows: &[Row]) -> Result<FlatMap<Key, u64, WordHash>, AllocError> {
    let mut map = FlatMap::new(alloc, WordHash { seed: 0 });
    for row in rows {
        if !row.is_empty() {
            let Ok(_) = map.insert_or_assign(Key::of(alloc, row.cells(), &[0])?, 0) else {
                return Err(AllocError);
            };
        }
    }
    Ok(map)
}
