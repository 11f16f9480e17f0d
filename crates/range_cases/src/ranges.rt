//! Room for the ends of live ranges.

use dom_ranges::Ranges;
use dom_tree::NodeId;
use std::alloc::AllocError;
use std::test::Fail;

// Reserves room in this many nodes, and returns whether there is room in no more. If memory is refused, there is none, and it tries once more.
fn covers(ranges: &mut Ranges, count: u32) -> Result<bool, AllocError> {
    let (last, behind) = (NodeId::new(count.saturating_sub(1)), NodeId::new(count));
    if ranges.cover(u64::from(count)).is_err() {
        if ranges.is_covered(last) {
            return Ok(false);
        }
        ranges.cover(u64::from(count))?;
    }
    Ok(ranges.is_covered(last) && !ranges.is_covered(behind))
}

#[test]
fn refused_room(rt: HostRuntime) -> Result<(), Fail> {
    let mut ranges = Ranges::new(rt.alloc());
    assert!(rt; covers(&mut ranges, 1000)?);
    Ok(())
}

// More nodes than a document of the other tests has, in one call.
#[test]
fn room_for_five_million_nodes(rt: HostRuntime) -> Result<(), Fail> {
    let mut ranges = Ranges::new(rt.alloc());
    assert!(rt; covers(&mut ranges, 5_000_001)?);
    Ok(())
}
