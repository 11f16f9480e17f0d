//! Attributes that are set while memory may be refused.

use dom_attrs::Attrs;
use dom_units::Units;
use std::alloc::{AllocError, Global};
use std::test::Fail;

// Sets an attribute to the empty text, and returns whether there was none.
fn set(alloc: Global, attrs: &mut Attrs, name: &str) -> Result<bool, AllocError> {
    let name = String::from_str(alloc, name)?;
    Ok(attrs.set(name, Units::new(alloc))?.is_none())
}

// Sets a new attribute. If memory is refused, nothing has changed, and it sets the attribute again.
fn set_at_last(alloc: Global, attrs: &mut Attrs, name: &str) -> Result<bool, AllocError> {
    let before = attrs.len();
    match set(alloc, attrs, name) {
        Ok(is_new) => Ok(is_new),
        Err(AllocError) => {
            if attrs.len() != before || attrs.get(name).is_some() {
                return Ok(false);
            }
            set(alloc, attrs, name)
        }
    }
}

#[test]
fn refused_growth(rt: HostRuntime) -> Result<(), Fail> {
    let mut attrs = Attrs::new(rt.alloc());
    for name in ["a", "b", "c", "d", "e", "f", "g", "h", "i", "j", "k", "l"] {
        assert!(rt; set_at_last(rt.alloc(), &mut attrs, name)?, "{name}");
        assert!(rt; attrs.get(name).is_some(), "{name}");
    }
    Ok(())
}
