//! Reading the bytes of a load by the csv crate.
use crate::script::push_payload;
use crate::shape::Shape;
use crate::timing::{Timing, nanoseconds_since};
use csv::{ByteRecord, ReaderBuilder, Trim};
use std::alloc::{AllocError, Global};
use std::io;
use std::time::Instant;
use sw_flat::FlatMap;
use sw_probe::WordHash;

/// The csv crate alone.
pub(crate) fn time_csv(rt: &HostRuntime, shape: Shape, rows: usize) -> io::Result<Timing> {
    let payload = payload_of(rt.alloc(), shape, rows)?;
    let start = Instant::now(rt)?;
    let came = count_records(rt.alloc(), payload.as_slice())?;
    Ok(Timing {
        nanoseconds: nanoseconds_since(rt, start)?,
        came,
    })
}

/// The csv crate, with one insertion of each record's first field into a flat map with room for all.
pub(crate) fn time_csv_and_map(rt: &HostRuntime, shape: Shape, rows: usize) -> io::Result<Timing> {
    let payload = payload_of(rt.alloc(), shape, rows)?;
    let start = Instant::now(rt)?;
    let came = fill_map(rt.alloc(), payload.as_slice(), rows)?;
    Ok(Timing {
        nanoseconds: nanoseconds_since(rt, start)?,
        came,
    })
}

fn payload_of(alloc: Global, shape: Shape, rows: usize) -> Result<Vec<u8>, AllocError> {
    let mut payload = Vec::new(alloc);
    push_payload(&mut payload, shape, rows)?;
    Ok(payload)
}

fn count_records(alloc: Global, payload: &[u8]) -> Result<usize, AllocError> {
    let mut reader = ReaderBuilder::new()
        .has_headers(false)
        .flexible(true)
        .trim(Trim::None)
        .from_reader(alloc, payload);
    let mut record = ByteRecord::new(alloc);
    for count in 0..usize::MAX {
        let Ok(true) = reader.read_byte_record(&mut record) else {
            return Ok(count);
        };
    }
    Ok(usize::MAX)
}

fn fill_map(alloc: Global, payload: &[u8], rows: usize) -> Result<usize, AllocError> {
    let mut reader = ReaderBuilder::new()
        .has_headers(false)
        .flexible(true)
        .trim(Trim::None)
        .from_reader(alloc, payload);
    let mut record = ByteRecord::new(alloc);
    let Ok(mut map) = FlatMap::with_room(alloc, WordHash { seed: 0 }, rows) else {
        return Err(AllocError);
    };
    for _ in 0..usize::MAX {
        let Ok(true) = reader.read_byte_record(&mut record) else {
            break;
        };
        let key: Vec<u8> = record.get(0).unwrap_or(b"").to_vec(alloc)?;
        let Ok(_) = map.insert_or_assign(key, 0u64) else {
            return Err(AllocError);
        };
    }
    Ok(map.len())
}
