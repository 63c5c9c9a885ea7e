//! A run store in memory.
use crate::expected::expect;
use gq_spill::{MemStore, RunStore};
use std::test::Fail;

#[test]
fn what_is_appended_is_read(rt: HostRuntime) -> Result<(), Fail> {
    let mut store = MemStore::new(rt.alloc());
    let Ok(first) = store.make() else {
        return Err(Fail::from("no run"));
    };
    expect(&rt, first.number, 0);
    expect(&rt, store.append(first, b"").is_ok(), true);
    expect(&rt, store.append(first, b"Oslo").is_ok(), true);
    expect(&rt, store.append(first, b"Rome").is_ok(), true);
    let mut buffer = [b'.'; 10];
    expect(&rt, store.read(first, 2, &mut buffer).ok(), Some(6));
    expect(&rt, buffer, *b"loRome....");
    expect(&rt, store.read(first, 8, &mut buffer).ok(), Some(0));
    expect(&rt, store.read(first, 80, &mut buffer).ok(), Some(0));
    let mut little = [b'.'; 3];
    expect(&rt, store.read(first, 0, &mut little).ok(), Some(3));
    expect(&rt, little, *b"Osl");
    store.discard(first);
    Ok(())
}
