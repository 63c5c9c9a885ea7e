//! The blocks of a table, while there is memory for only some of them.
use crate::expected::expect;
use crate::numbers::{Call, Numbers, expect_as_values, insert_as_values, insert_each, play};
use crate::starved::Starved;
use std::alloc::Global;
use std::process::Abort;
use std::test::Fail;
use sw_flat::{FlatMap, Why};
use sw_probe::Fnv1a;

// The bytes of the slots, and the control bytes, of 32 entries of two numbers.
const SLOTS: usize = 32 * 16;

const CONTROL: usize = 32;

// A map of fourteen entries in sixteen slots, which take no more.
fn fourteen(rt: &impl Abort, alloc: Global) -> Result<Numbers<Fnv1a>, Fail> {
    let mut map = FlatMap::with_room(alloc, Fnv1a { seed: 0 }, 12)?;
    insert_as_values(rt, &mut map, 0..14);
    expect(rt, map.capacity(), 16);
    Ok(map)
}

// With one free block of this size, growth fails and the map is unchanged. With memory it succeeds.
fn growth_is_refused(rt: &impl Abort, alloc: Global, left: usize) -> Result<(), Fail> {
    let mut map = fourteen(rt, alloc)?;
    let starved = Starved::leaving(rt, alloc, left)?;
    play(
        rt,
        &mut map,
        &[
            Call::Refused(14, 7),
            Call::Reserve(15, Err(Why::Memory)),
            Call::Sizes(14, 16),
        ],
    );
    expect_as_values(rt, &map, 0..14);
    drop(starved);
    grows(rt, &mut map);
    Ok(())
}

fn grows(rt: &impl Abort, map: &mut Numbers<Fnv1a>) {
    play(
        rt,
        map,
        &[
            Call::Insert(14, 7),
            Call::Sizes(15, 32),
            Call::Get(13, Some(13)),
            Call::Get(14, Some(7)),
        ],
    );
}

#[test]
fn neither_block_of_a_growth_is_had(rt: HostRuntime) -> Result<(), Fail> {
    growth_is_refused(&rt, rt.alloc(), 0)
}

#[test]
fn of_a_growth_only_the_control_bytes_are_had(rt: HostRuntime) -> Result<(), Fail> {
    growth_is_refused(&rt, rt.alloc(), CONTROL)
}

#[test]
fn of_a_growth_only_the_slots_are_had(rt: HostRuntime) -> Result<(), Fail> {
    growth_is_refused(&rt, rt.alloc(), SLOTS)
}

// A table of 64 slots that has grown twice, and is dropped.
fn sixty_four(rt: &impl Abort, alloc: Global, round: u64) -> Result<(), Fail> {
    let mut map = fourteen(rt, alloc)?;
    insert_each(rt, &mut map, 14..40, round);
    play(
        rt,
        &mut map,
        &[Call::Sizes(40, 64), Call::Get(39, Some(round))],
    );
    Ok(())
}

// A table of 64 slots takes about a kilobyte, and its earlier blocks half of that. If a block weren't freed, a
// few dozen rounds would use up the free memory.
#[test]
fn a_table_gives_its_blocks_back(rt: HostRuntime) -> Result<(), Fail> {
    let starved = Starved::leaving(&rt, rt.alloc(), 1 << 16)?;
    for round in 0..1_000u64 {
        sixty_four(&rt, rt.alloc(), round)?;
    }
    drop(starved);
    Ok(())
}

fn merge_without_memory(
    rt: &impl Abort,
    alloc: Global,
    map: &mut Numbers<Fnv1a>,
    same: &mut Numbers<Fnv1a>,
) -> Result<(), Fail> {
    let mut none = FlatMap::new(alloc, Fnv1a { seed: 0 });
    let starved = Starved::new(rt, alloc)?;
    expect(rt, map.merge(&mut none), Ok(()));
    expect(rt, map.merge(same), Ok(()));
    drop(starved);
    Ok(())
}

#[test]
fn a_merge_without_a_new_key_takes_no_memory(rt: HostRuntime) -> Result<(), Fail> {
    let mut map = fourteen(&rt, rt.alloc())?;
    let mut same = fourteen(&rt, rt.alloc())?;
    merge_without_memory(&rt, rt.alloc(), &mut map, &mut same)?;
    expect(&rt, map.capacity(), 16);
    expect(&rt, (map.len(), same.len()), (14, 14));
    Ok(())
}
