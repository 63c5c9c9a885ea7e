//! The lines of a report.
use crate::calls::{CALLS, Call};
use crate::dense::{DenseNumbers, DenseTexts};
use crate::flat::{FlatNumbers, FlatTexts};
use crate::keys::{Key, Keys};
use crate::map::Map;
use crate::row_keys::FlatRowKeys;
use crate::timing::time;
use std::io;
use sw_probe::{Direct, Fnv1a, WordHash};

// How many calls are measured at once, and how often; the least time counts.
const ALL_CALLS: u64 = 2_000_000;

const REPEATS: u32 = 5;

/// Prints, for each kind of call with `n` keys, the nanoseconds of a call of the flat map and of the dense map,
/// and their quotient. The head of `main` says what the keys are.
pub(crate) fn report(rt: &HostRuntime, n: usize) -> io::Result<()> {
    report_both::<FlatNumbers<Fnv1a>, DenseNumbers>(rt, n, "fnv")?;
    report_flat::<FlatNumbers<WordHash>>(rt, n, "words")?;
    report_flat::<FlatNumbers<Direct>>(rt, n, "direct")?;
    report_both::<FlatTexts, DenseTexts>(rt, n, "text")?;
    report_flat::<FlatRowKeys<Fnv1a>>(rt, n, "inline fnv")?;
    report_flat::<FlatRowKeys<WordHash>>(rt, n, "inline words")
}

fn report_both<F: Map, D: Map>(rt: &HostRuntime, n: usize, hash: &str) -> io::Result<()> {
    let flat_keys = Keys::new(rt.alloc(), n)?;
    let dense_keys = Keys::new(rt.alloc(), n)?;
    for (call, name) in CALLS {
        let flat = least_time::<F>(rt, &flat_keys, call)?;
        let dense = least_time::<D>(rt, &dense_keys, call)?;
        print_both(rt, n, hash, name, flat, dense)?;
    }
    Ok(())
}

fn report_flat<F: Map>(rt: &HostRuntime, n: usize, hash: &str) -> io::Result<()> {
    let keys = Keys::new(rt.alloc(), n)?;
    for (call, name) in CALLS {
        let flat = least_time::<F>(rt, &keys, call)?;
        print_flat(rt, n, hash, name, flat)?;
    }
    Ok(())
}

// The least time of a call, in tenths of a nanosecond, and a sum of the results.
#[derive(Clone, Copy)]
struct Least {
    tenths: u64,
    sum: u64,
}

fn least_time<M: Map>(rt: &HostRuntime, keys: &Keys<M::Key>, call: Call) -> io::Result<Least> {
    let n = (keys.held.len() as u64).max(1);
    let rounds = (ALL_CALLS / n).max(2);
    let (mut nanoseconds, mut sum) = (u64::MAX, 0u64);
    for _ in 0..REPEATS {
        let timing = time::<M>(rt, call, keys, rounds)?;
        nanoseconds = nanoseconds.min(timing.nanoseconds);
        sum = timing.sum;
    }
    let calls = n.saturating_mul(rounds).max(1);
    Ok(Least {
        tenths: nanoseconds.saturating_mul(10) / calls,
        sum,
    })
}

fn print_both(
    rt: &HostRuntime,
    n: usize,
    hash: &str,
    name: &str,
    flat: Least,
    dense: Least,
) -> io::Result<()> {
    if flat.sum != dense.sum {
        println!(rt; "{hash} {name}: the maps do not agree")?;
    }
    let quotient = flat.tenths.saturating_mul(100) / dense.tenths.max(1);
    println!(rt;
        "{n:>9}  {hash:<12}  {name:<15} {:>5}.{} {:>5}.{} {:>7}.{:02}",
        flat.tenths / 10,
        flat.tenths % 10,
        dense.tenths / 10,
        dense.tenths % 10,
        quotient / 100,
        quotient % 100
    )
}

fn print_flat(rt: &HostRuntime, n: usize, hash: &str, name: &str, flat: Least) -> io::Result<()> {
    println!(rt;
        "{n:>9}  {hash:<12}  {name:<15} {:>5}.{}",
        flat.tenths / 10,
        flat.tenths % 10
    )
}
