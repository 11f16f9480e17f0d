//! Walkers that are made and released without taking memory.

use dom_traverse::{Filter, WalkerId, Walkers};
use dom_tree::NodeId;
use growth_marks::{begins, ends};
use std::alloc::{AllocError, Global};
use std::test::Fail;

// Makes a walker that shows all nodes, and returns whether its number is the expected one. The numbers of the roots come again.
fn make(alloc: Global, walkers: &mut Walkers, due: u32) -> Result<bool, AllocError> {
    if walkers.made() >= 4294967295 {
        return Ok(false);
    }
    let filter = Filter {
        show: 4294967295,
        rules: Vec::new(alloc),
    };
    let id = walkers.make(NodeId::new(2 + due % 7), filter)?;
    Ok(id.number() == due)
}

// Makes walkers with these numbers, and releases each before the next.
fn come_and_go(
    alloc: Global,
    walkers: &mut Walkers,
    from: u32,
    to: u32,
) -> Result<bool, AllocError> {
    for number in from..to {
        let id = WalkerId::new(number);
        if !make(alloc, walkers, number)? || !walkers.holds(id) {
            return Ok(false);
        }
        walkers.release(id);
    }
    Ok(true)
}

// A walker that stays, and as many others as there are roots, which are made and released. More of them take no memory then, within the numbers of a
// page.
#[test]
fn made_and_released_without_a_growth(rt: HostRuntime) -> Result<(), Fail> {
    let mut walkers = Walkers::new(rt.alloc());
    assert!(rt; make(rt.alloc(), &mut walkers, 0)?);
    assert!(rt; come_and_go(rt.alloc(), &mut walkers, 1, 10)?);
    let _ = begins(rt.alloc())?;
    assert!(rt; come_and_go(rt.alloc(), &mut walkers, 10, 1_000)?);
    let _ = ends(rt.alloc());
    Ok(())
}
