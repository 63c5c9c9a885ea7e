//! Entries that a closure keeps.
use crate::counted::Counters;
use crate::expected::{expect, expect_at};
use crate::map_drops::{BITS, CountedMap, add_each};
use crate::numbers::{Call, Numbers, insert_each, play};
use std::process::Abort;
use std::test::Fail;
use sw_flat::FlatMap;
use sw_probe::{Constant, Direct, Fnv1a, KeyHash, LowBits};

// Expects the odd keys below a bound, and none of the even ones.
fn expect_odd<H: KeyHash<u64>>(rt: &impl Abort, map: &Numbers<H>, bound: u64) {
    for key in 0..bound {
        expect_at(rt, key, map.contains(&key), key % 2 == 1);
    }
}

// Of a hundred entries those with odd values stay, then those below key 10.
fn keeps_some<H: KeyHash<u64> + Drop>(rt: &impl Abort, mut map: Numbers<H>) {
    insert_each(rt, &mut map, 0, 100);
    map.retain(|_, value| *value % 2 == 1);
    play(rt, &mut map, &[Call::Sizes(50, 128, 100)]);
    expect_odd(rt, &map, 100);
    map.retain(|key, _| *key < 10);
    play(rt, &mut map, &[Call::Sizes(5, 128, 100)]);
    keeps_all_or_none(rt, &mut map);
}

// Of five entries all stay, then none.
fn keeps_all_or_none<H: KeyHash<u64>>(rt: &impl Abort, map: &mut Numbers<H>) {
    map.retain(|_, _| true);
    play(rt, map, &[Call::Sizes(5, 128, 100)]);
    map.retain(|_, _| false);
    play(rt, map, &[Call::Sizes(0, 128, 100)]);
    map.retain(|_, _| true);
    play(
        rt,
        map,
        &[
            Call::Sizes(0, 128, 100),
            Call::Assign(7, 70, None),
            Call::Get(7, Some(70)),
        ],
    );
}

#[test]
fn those_of_which_the_closure_says_so(rt: HostRuntime) {
    let alloc = rt.alloc();
    keeps_some(&rt, FlatMap::new(alloc, Fnv1a { seed: 0 }));
    keeps_some(&rt, FlatMap::new(alloc, Constant(0)));
    keeps_some(&rt, FlatMap::new(alloc, LowBits(7)));
    keeps_some(&rt, FlatMap::new(alloc, Direct));
}

// The closure counts its calls, and keeps every second entry.
#[test]
fn asked_once_of_each(rt: HostRuntime) {
    let mut map: Numbers<Direct> = FlatMap::new(rt.alloc(), Direct);
    insert_each(&rt, &mut map, 0, 12);
    let mut calls = 0u64;
    map.retain(|_, _| {
        calls = calls.wrapping_add(1);
        calls % 2 == 0
    });
    expect(&rt, calls, 12);
    expect_odd(&rt, &map, 12);
}

#[test]
fn what_goes_is_dropped_once(rt: HostRuntime) -> Result<(), Fail> {
    for bits in BITS {
        let counters = Counters::new(rt.alloc(), 60)?;
        let mut map: CountedMap = FlatMap::new(rt.alloc(), LowBits(bits));
        add_each(&rt, &mut map, &counters, 0..60, 0);
        map.retain(|key, _| key.number >= 20);
        counters.expect_each(&rt, 0..20, (1, 1));
        counters.expect_each(&rt, 20..60, (0, 0));
        drop(map);
        counters.expect_all(&rt, 1);
    }
    Ok(())
}
