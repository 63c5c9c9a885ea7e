//! Raw slots.
use crate::expected::expect;
use std::cell::Cell;
use std::test::Fail;
use sw_slots::Slots;

// A value that counts its drop.
struct Counted<'a> {
    id: u64,
    drops: &'a Cell<u64>,
}

impl Drop for Counted<'_> {
    fn drop(self) {
        let Counted { id: _, drops } = self;
        drops.set(drops.get().wrapping_add(1));
    }
}

#[test]
fn four_slots(rt: HostRuntime) -> Result<(), Fail> {
    let mut slots = Slots::<u64>::new(rt.alloc(), 4)?;
    expect(&rt, slots.len(), 4);
    slots.put(2, 9);
    expect(&rt, *slots.get(2), 9);
    *slots.get_mut(2) = 10;
    slots.put(0, 5);
    slots.swap(0, 2);
    expect(&rt, *slots.get(0), 10);
    expect(&rt, slots.take(2), 5);
    expect(&rt, slots.take(0), 10);
    slots.release();
    Ok(())
}

#[test]
fn no_slots(rt: HostRuntime) -> Result<(), Fail> {
    let slots = Slots::<u64>::new(rt.alloc(), 0)?;
    expect(&rt, slots.len(), 0);
    slots.release();
    Ok(())
}

#[test]
fn values_of_no_size(rt: HostRuntime) -> Result<(), Fail> {
    let mut slots = Slots::<()>::new(rt.alloc(), 3)?;
    expect(&rt, slots.len(), 3);
    slots.put(1, ());
    expect(&rt, slots.take(1), ());
    slots.release();
    Ok(())
}

#[test]
fn values_of_four_kibibytes(rt: HostRuntime) -> Result<(), Fail> {
    let mut slots = Slots::<[u8; 4096]>::new(rt.alloc(), 3)?;
    slots.put(0, [1; 4096]);
    slots.put(2, [3; 4096]);
    slots.swap(0, 2);
    expect(&rt, slots.get(0)[4095], 3);
    let last = slots.take(2);
    assert!(rt; last == [1; 4096]);
    let first = slots.take(0);
    assert!(rt; first == [3; 4096]);
    slots.release();
    Ok(())
}

#[test]
fn a_value_taken_out_is_dropped_once(rt: HostRuntime) -> Result<(), Fail> {
    let drops = Cell::new(0);
    let mut slots = Slots::<Counted>::new(rt.alloc(), 2)?;
    slots.put(
        1,
        Counted {
            id: 7,
            drops: &drops,
        },
    );
    expect(&rt, drops.get(), 0);
    expect(&rt, slots.get(1).id, 7);
    expect(&rt, drops.get(), 0);
    let value = slots.take(1);
    expect(&rt, drops.get(), 0);
    expect(&rt, value.id, 7);
    drop(value);
    expect(&rt, drops.get(), 1);
    slots.release();
    expect(&rt, drops.get(), 1);
    Ok(())
}
