//! A text of which a part is replaced while memory may be refused.

use dom_units::Units;
use std::alloc::AllocError;
use std::test::Fail;

// Replaces the second of three units by three others.
fn splice(data: &mut Units) -> Result<bool, AllocError> {
    if data.len() != 3 {
        return Ok(false);
    }
    data.splice(1, 1, &[7, 8, 9])?;
    Ok(true)
}

// If memory is refused, the text is unchanged, and the part is replaced again.
#[test]
fn refused_growth(rt: HostRuntime) -> Result<(), Fail> {
    let mut data = Units::from_units(rt.alloc(), &[1, 2, 3])?;
    match splice(&mut data) {
        Ok(is_done) => assert!(rt; is_done),
        Err(AllocError) => {
            assert!(rt; data.units() == [1, 2, 3].as_slice());
            assert!(rt; splice(&mut data)?);
        }
    }
    assert!(rt; data.units() == [1, 7, 8, 9, 3].as_slice());
    Ok(())
}
