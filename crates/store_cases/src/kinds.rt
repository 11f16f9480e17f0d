//! Labels that take no memory, and the bytes of values.

use dom_kinds::{Kind, Label};
use dom_links::Node;
use growth_marks::{begins, ends};
use std::alloc::{AllocError, Global};
use std::mem::size_of;
use std::test::Fail;

// Returns whether a label and its copy have the given name.
fn is_copied(alloc: Global, name: &str) -> Result<bool, AllocError> {
    let label = Label::named(alloc, Kind::Element, name)?;
    let copy = label.try_clone(alloc)?;
    Ok(label.name() == name && copy.name() == name)
}

// Names of up to 8 bytes are stored inline.
#[test]
fn short_names_without_a_growth(rt: HostRuntime) -> Result<(), Fail> {
    let _ = begins(rt.alloc())?;
    for name in ["", "p", "été-ab", "abcdefgh"] {
        assert!(rt; is_copied(rt.alloc(), name)?, "{name}");
    }
    assert!(rt; Label::nameless(Kind::Text).node_name() == "#text");
    let _ = ends(rt.alloc());
    Ok(())
}

// A linked node takes five links and two numbers of four bytes besides its value.
#[test]
fn bytes_of_values(rt: HostRuntime) {
    assert!(rt; size_of::<Label>() == 32);
    assert!(rt; size_of::<Node<u64>>() == 56);
}
