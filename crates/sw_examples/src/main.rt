//! The snippets of docs/LIBRARY.md, word for word: each is a function here, or a type with its impls, and is
//! run by the tests. The page has the output of this program too.
#![tactic(auto)]

#[cfg(test)]
mod ages;
#[cfg(test)]
mod entries;
#[cfg(test)]
mod expected;
#[cfg(test)]
mod map;
mod names;
mod proved;
#[cfg(test)]
mod refusals;
#[cfg(test)]
mod set;
#[cfg(test)]
mod set_walks;
#[cfg(test)]
mod walks;

use std::alloc::Global;
use std::io::Print;
use sw_flat::FlatMap;
use sw_probe::{ByteKey, Fnv1a};

fn stock(rt: &impl Print, alloc: Global) -> anyhow::Result<()> {
    let mut stock: FlatMap<u64, u64, Fnv1a> = FlatMap::new(alloc, Fnv1a { seed: 0 });
    stock.insert_or_assign(7, 70)?;
    stock.insert_or_assign(8, 80)?;
    println!(rt; "{:?} {:?} {:?}", stock.get(&7), stock.get(&9), stock)?;
    Ok(())
}

fn capitals(rt: &impl Print, alloc: Global) -> anyhow::Result<()> {
    let mut capitals: FlatMap<Vec<u8>, &str, Fnv1a> = FlatMap::new(alloc, Fnv1a { seed: 0 });
    capitals.insert_or_assign(Vec::from_slice(alloc, b"Norway")?, "Oslo")?;
    for (_, capital) in &capitals {
        println!(rt; "{capital}")?;
    }
    println!(rt; "{:?}", capitals.get(&ByteKey(b"Norway")))?;
    Ok(())
}

fn main(rt: HostRuntime) -> anyhow::Result<()> {
    stock(&rt, rt.alloc())?;
    capitals(&rt, rt.alloc())
}
