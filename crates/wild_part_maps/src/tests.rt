//! Maps from parts on a small platform, where section 3 has the parts from 24 to 45, and custom sections begin at 90.

ghost use Rattle.std.specs.Prelude.{◌≤◌};

use crate::*;
use std::alloc::Global;
use std::test::Fail;
use wild_ids::PartId;

/// 32 in part 42, and 5 in part 45.
fn two_sizes(alloc: Global) -> Result<OutputSectionPartMap<u64>, Fail> {
    let mut sizes = OutputSectionPartMap::with_dense_size(alloc, 90)?;
    *sizes.get_mut(PartId(42))? = 32;
    *sizes.get_mut(PartId(45))? = 5;
    Ok(sizes)
}

#[test]
fn values_of_parts(rt: HostRuntime) -> Result<(), Fail> {
    let mut sizes = two_sizes(rt.alloc())?;
    sizes.reserve_part(PartId(175))?;
    *sizes.get_mut(PartId(91))? = 7;
    for (case, part, has_entry, value) in [
        ("a dense part that was not set", 0, true, 0),
        ("a dense part", 42, true, 32),
        ("a further part", 91, true, 7),
        ("one that was reserved", 175, true, 0),
        ("one that was not", 176, false, 0),
    ] {
        assert_eq!(rt; sizes.has_entry(PartId(part)), has_entry, "{case}");
        assert_eq!(rt; sizes.get(PartId(part)), value, "{case}");
    }
    assert_eq!(rt; sizes.take(PartId(42))?, 32);
    assert_eq!(rt; sizes.get(PartId(42)), 0);
    let empty: OutputSectionPartMap<u64> = sizes.new_empty_like(rt.alloc())?;
    assert!(rt; all_are(&empty, 0));
    Ok(())
}

/// The first part from one number on and before another that has an entry.
fn first_listed(sizes: &OutputSectionPartMap<u64>, start: u32, end: u32) -> Option<u32>
    requires { start ≤ end }
{
    match sizes.in_range(PartId(start)..PartId(end)).next() {
        Some((part, _)) => Some(part.as_u32()),
        None => None,
    }
}

/// How many have one.
fn listed(sizes: &OutputSectionPartMap<u64>, start: u32, end: u32) -> usize
    requires { start ≤ end }
{
    sizes.in_range(PartId(start)..PartId(end)).count()
}

/// Whether 90 parts have entries, and each has this value.
fn all_are(map: &OutputSectionPartMap<u64>, wanted: u64) -> bool {
    let mut values = map.values_in_range(PartId(0)..PartId(200));
    map.iter().count() == 90 && values.all(|value| *value == wanted)
}

#[test]
fn ranges(rt: HostRuntime) -> Result<(), Fail> {
    let mut sizes = two_sizes(rt.alloc())?;
    *sizes.get_mut(PartId(175))? = 9;
    *sizes.get_mut(PartId(91))? = 7;
    assert_eq!(rt; first_listed(&sizes, 24, 46), Some(24), "a section");
    assert_eq!(rt; listed(&sizes, 24, 46), 22, "a section");
    assert_eq!(rt; first_listed(&sizes, 90, 112), Some(91), "further parts");
    assert_eq!(rt; listed(&sizes, 90, 112), 1, "further parts");
    assert_eq!(rt; first_listed(&sizes, 45, 176), Some(45), "both kinds");
    assert_eq!(rt; listed(&sizes, 45, 176), 47, "both kinds");
    assert_eq!(rt; first_listed(&sizes, 45, 45), None, "no part");
    let mut values = sizes.values_in_range(PartId(45)..PartId(176));
    assert_eq!(rt; values.next().copied(), Some(5));
    assert!(rt; values.any(|value| *value == 9));
    assert_eq!(rt; values.next().copied(), None);
    Ok(())
}

#[test]
fn sums(rt: HostRuntime) -> Result<(), Fail> {
    let alloc = rt.alloc();
    let zeros: OutputSectionPartMap<u64> = OutputSectionPartMap::with_dense_size(alloc, 90)?;
    let mut all = zeros.map(alloc, |_, value| if *value == 0 { 1 } else { 9 })?;
    let twos = zeros.map(alloc, |_, value| if *value == 0 { 2 } else { 9 })?;
    assert!(rt; all.sums_fit(&twos));
    all.merge(&twos)?;
    assert!(rt; all_are(&all, 3));
    assert!(rt; all != twos);
    Ok(())
}

#[test]
fn start_offsets(rt: HostRuntime) -> Result<(), Fail> {
    let alloc = rt.alloc();
    let mut ends = two_sizes(alloc)?;
    let mut sizes: OutputSectionPartMap<u64> = OutputSectionPartMap::with_dense_size(alloc, 90)?;
    *sizes.get_mut(PartId(42))? = 5;
    *sizes.get_mut(PartId(175))? = 8;
    for (start, further) in [(32, 0), (37, 8)] {
        assert!(rt; ends.sums_fit(&sizes));
        let starts = ends.merge_and_return_start_offsets(&sizes)?;
        assert_eq!(rt; starts.get(PartId(42)), start);
        assert_eq!(rt; starts.get(PartId(175)), further);
    }
    assert_eq!(rt; ends.get(PartId(42)), 42);
    assert_eq!(rt; ends.get(PartId(175)), 16);
    Ok(())
}

#[test]
fn single_numbers(rt: HostRuntime) -> Result<(), Fail> {
    let mut sizes = two_sizes(rt.alloc())?;
    if sizes.has_entry(PartId(42)) && sizes.get(PartId(42)) == 32 {
        sizes.increment(PartId(42), 3);
        sizes.decrement(PartId(42), 5);
    }
    assert_eq!(rt; sizes.get(PartId(42)), 30);
    Ok(())
}

#[test]
fn two_maps(rt: HostRuntime) -> Result<(), Fail> {
    let alloc = rt.alloc();
    let mut left: OutputSectionPartMap<u64> = OutputSectionPartMap::with_dense_size(alloc, 90)?;
    let right: OutputSectionPartMap<u64> = left.new_empty_like(alloc)?;
    let answers = left.mut_with_map(&right, |there, here| {
        *there = *here;
        1u64
    })?;
    assert!(rt; all_are(&answers, 1));
    Ok(())
}
