//! The time of many calls of one kind.
use crate::calls::Call;
use crate::keys::{Key, Keys, copies};
use crate::map::Map;
use std::alloc::{AllocError, Global};
use std::io;
use std::time::Instant;

/// The time of some rounds, and a sum of the results.
#[derive(Clone, Copy)]
pub(crate) struct Timing {
    pub(crate) nanoseconds: u64,
    pub(crate) sum: u64,
}

/// Times rounds of calls on a map, each with every key. Keys that a call takes are copied before the clock
/// starts.
pub(crate) fn time<M: Map>(
    rt: &HostRuntime,
    call: Call,
    keys: &Keys<M::Key>,
    rounds: u64,
) -> io::Result<Timing> {
    let held = keys.held.as_slice();
    match call {
        Call::Insert => time_inserts::<M>(rt, held, 0, rounds),
        Call::ReservedInsert => time_inserts::<M>(rt, held, held.len(), rounds),
        Call::Hit => time_gets::<M>(rt, held, keys.asked.as_slice(), rounds),
        Call::Miss => time_gets::<M>(rt, held, keys.absent.as_slice(), rounds),
        Call::Churn => time_churn::<M>(rt, held, keys.absent.as_slice(), rounds),
        Call::Count => time_counts::<M>(rt, keys.asked.as_slice(), rounds),
        Call::Iterate => time_sums::<M>(rt, held, rounds),
        Call::Clear => time_clears::<M>(rt, held, rounds),
    }
}

fn nanoseconds_since(rt: &HostRuntime, start: Instant) -> io::Result<u64> {
    Ok(u64::try_from(start.elapsed(rt)?.as_nanos()).unwrap_or(u64::MAX))
}

fn fill<M: Map>(map: &mut M, keys: Vec<M::Key>) -> Result<(), AllocError> {
    for key in keys {
        let value = key.number().wrapping_mul(3);
        map.insert(key, value)?;
    }
    Ok(())
}

fn filled<M: Map>(alloc: Global, keys: &[M::Key]) -> Result<M, AllocError> {
    let mut map = M::new(alloc);
    fill(&mut map, copies(alloc, keys)?)?;
    Ok(map)
}

fn time_inserts<M: Map>(
    rt: &HostRuntime,
    keys: &[M::Key],
    room: usize,
    rounds: u64,
) -> io::Result<Timing> {
    let (mut nanoseconds, mut sum) = (0u64, 0u64);
    for _ in 0..rounds {
        let coming = copies(rt.alloc(), keys)?;
        let start = Instant::now(rt)?;
        let mut map = M::with_room(rt.alloc(), room)?;
        fill(&mut map, coming)?;
        nanoseconds = nanoseconds.saturating_add(nanoseconds_since(rt, start)?);
        sum = sum.wrapping_add(map.len() as u64);
    }
    Ok(Timing { nanoseconds, sum })
}

fn time_gets<M: Map>(
    rt: &HostRuntime,
    held: &[M::Key],
    asked: &[M::Key],
    rounds: u64,
) -> io::Result<Timing> {
    let map = filled::<M>(rt.alloc(), held)?;
    let mut sum = 0u64;
    let start = Instant::now(rt)?;
    for _ in 0..rounds {
        for key in asked {
            sum = sum.wrapping_add(map.get(key).unwrap_or(1));
        }
    }
    let nanoseconds = nanoseconds_since(rt, start)?;
    Ok(Timing { nanoseconds, sum })
}

// Removes the keys of one list and inserts those of the other, and then the other way round.
fn time_churn<M: Map>(
    rt: &HostRuntime,
    held: &[M::Key],
    absent: &[M::Key],
    rounds: u64,
) -> io::Result<Timing> {
    let mut map = filled::<M>(rt.alloc(), held)?;
    let (mut nanoseconds, mut sum) = (0u64, 0u64);
    for round in 0..rounds {
        let (leaving, others) = if round % 2 == 0 {
            (held, absent)
        } else {
            (absent, held)
        };
        let coming = copies(rt.alloc(), others)?;
        let start = Instant::now(rt)?;
        for (old, new) in leaving.iter().zip(coming) {
            sum = sum.wrapping_add(map.remove(old).unwrap_or(1));
            let value = new.number().wrapping_mul(3);
            map.insert(new, value)?;
        }
        nanoseconds = nanoseconds.saturating_add(nanoseconds_since(rt, start)?);
    }
    Ok(Timing { nanoseconds, sum })
}

fn time_counts<M: Map>(rt: &HostRuntime, asked: &[M::Key], rounds: u64) -> io::Result<Timing> {
    let (mut nanoseconds, mut sum) = (0u64, 0u64);
    for _ in 0..rounds {
        let start = Instant::now(rt)?;
        let mut map = M::new(rt.alloc());
        for key in asked {
            map.count(rt.alloc(), key)?;
        }
        nanoseconds = nanoseconds.saturating_add(nanoseconds_since(rt, start)?);
        sum = sum.wrapping_add(map.len() as u64);
    }
    Ok(Timing { nanoseconds, sum })
}

fn time_sums<M: Map>(rt: &HostRuntime, held: &[M::Key], rounds: u64) -> io::Result<Timing> {
    let map = filled::<M>(rt.alloc(), held)?;
    let mut sum = 0u64;
    let start = Instant::now(rt)?;
    for round in 0..rounds {
        sum = sum.wrapping_add(map.sum() ^ round);
    }
    let nanoseconds = nanoseconds_since(rt, start)?;
    Ok(Timing { nanoseconds, sum })
}

fn time_clears<M: Map>(rt: &HostRuntime, held: &[M::Key], rounds: u64) -> io::Result<Timing> {
    let mut map = M::with_room(rt.alloc(), held.len())?;
    let (mut nanoseconds, mut sum) = (0u64, 0u64);
    for _ in 0..rounds {
        fill(&mut map, copies(rt.alloc(), held)?)?;
        sum = sum.wrapping_add(map.len() as u64);
        let start = Instant::now(rt)?;
        map.clear();
        nanoseconds = nanoseconds.saturating_add(nanoseconds_since(rt, start)?);
    }
    Ok(Timing { nanoseconds, sum })
}
