//! Static ranges that are released without taking memory.

use super::trees::at;
use dom_ranges::{StaticId, Statics};
use growth_marks::{begins, ends};
use std::alloc::AllocError;
use std::test::Fail;

// Makes a hundred static ranges, each in the node of the next number.
fn make_a_hundred(statics: &mut Statics) -> Result<bool, AllocError> {
    for number in 0..100u32 {
        if statics.made() >= 1_000 {
            return Ok(false);
        }
        let place = at((number.saturating_add(1), 0));
        if statics.make(place, place)?.number() != number {
            return Ok(false);
        }
    }
    Ok(true)
}

// Releases every second one of them, from the given one on.
fn release_fifty(statics: &mut Statics, first: u32) -> bool {
    for half in 0..50u32 {
        let number = half.saturating_mul(2).saturating_add(first);
        let u = StaticId::new(number);
        if !statics.holds(u) {
            return false;
        }
        statics.release(u);
    }
    true
}

#[test]
fn released_without_a_growth(rt: HostRuntime) -> Result<(), Fail> {
    let mut statics = Statics::new(rt.alloc());
    assert!(rt; make_a_hundred(&mut statics)?);
    let _ = begins(rt.alloc())?;
    assert!(rt; release_fifty(&mut statics, 0) && release_fifty(&mut statics, 1));
    let _ = ends(rt.alloc());
    Ok(())
}
