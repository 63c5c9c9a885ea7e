//! A map whose keys are names.
use crate::expected::expect;
use crate::names::{Name, NameRef};
use std::alloc::Global;
use std::process::Abort;
use std::test::Fail;
use sw_flat::FlatMap;
use sw_probe::Fnv1a;

type Ages = FlatMap<Name, u64, Fnv1a>;

fn note_age(alloc: Global, ages: &mut Ages, name: &str, age: u64) -> Result<(), Fail> {
    let name = Name(String::from_str(alloc, name)?);
    ages.insert_or_assign(name, age)?;
    Ok(())
}

fn age_of(ages: &Ages, name: &str) -> Option<u64> {
    ages.get(&NameRef(name)).copied()
}

fn noted(rt: &impl Abort, alloc: Global, ages: &mut Ages) -> Result<(), Fail> {
    note_age(alloc, ages, "Anna", 41)?;
    note_age(alloc, ages, "anna", 42)?;
    expect(rt, age_of(ages, "ANNA"), Some(42));
    expect(rt, age_of(ages, "Hanna"), None);
    Ok(())
}

#[test]
fn names_in_any_case(rt: HostRuntime) -> Result<(), Fail> {
    let mut ages: Ages = FlatMap::new(rt.alloc(), Fnv1a { seed: 0 });
    noted(&rt, rt.alloc(), &mut ages)
}
