//! Values that count their drops: each value that is taken from a store or freed with it is dropped once.

use dom_kinds::{Kind, Label};
use dom_links::{Links, Slot};
use dom_tree::{NodeId, Tree};
use std::alloc::AllocError;
use std::cell::Cell;
use std::process::Abort;
use std::rc::Rc;
use std::test::Fail;
use tree_steps::{made, put};

// A value that counts its drops.
struct Counted {
    drops: Rc<Cell<u32>>,
}

impl Drop for Counted {
    fn drop(self) {
        let count = self.drops.get();
        self.drops.set(count.wrapping_add(1));
        let Counted { drops: _ } = self;
    }
}

// Adds a counted value.
fn add(
    rt: &impl Abort,
    links: &mut Links<Counted>,
    drops: &Rc<Cell<u32>>,
) -> Result<Slot, AllocError> {
    let added = links.add(Counted {
        drops: drops.clone()?,
    });
    assert!(rt; added.is_ok());
    Ok(added.unwrap())
}

// Adds five values, and takes and drops the first.
fn keep_four(
    rt: &impl Abort,
    links: &mut Links<Counted>,
    drops: &Rc<Cell<u32>>,
) -> Result<(), AllocError> {
    let first = add(rt, links, drops)?;
    for _ in 0..4 {
        let _slot = add(rt, links, drops)?;
    }
    assert!(rt; links.holds(first));
    assert!(rt; links.parent(first).is_none() && links.count(first) == 0);
    let value = links.take(first);
    assert!(rt; drops.get() == 0);
    drop(value);
    assert!(rt; drops.get() == 1);
    Ok(())
}

#[test]
fn each_value_is_dropped_once(rt: HostRuntime) -> Result<(), Fail> {
    let drops = Rc::new(rt.alloc(), Cell::new(0u32))?;
    let mut links = Links::new(rt.alloc());
    keep_four(&rt, &mut links, &drops)?;
    drop(links);
    assert!(rt; drops.get() == 5);
    Ok(())
}

// Makes an element with a counted value that is its own node document.
fn element(
    rt: &impl Abort,
    tree: &mut Tree<Counted>,
    drops: &Rc<Cell<u32>>,
) -> Result<NodeId, AllocError> {
    let body = Counted {
        drops: drops.clone()?,
    };
    made(tree, Label::nameless(Kind::Element), body, None)
}

// Frees a root with two children, but not another root.
fn let_go_of_three(
    rt: &impl Abort,
    tree: &mut Tree<Counted>,
    drops: &Rc<Cell<u32>>,
) -> Result<(), AllocError> {
    let top = element(rt, tree, drops)?;
    for _ in 0..2 {
        let child = element(rt, tree, drops)?;
        assert!(rt; put(tree, top, child, None));
    }
    let _stays = element(rt, tree, drops)?;
    assert!(rt; drops.get() == 0);
    assert!(rt; tree.holds(top));
    assert!(rt; !tree.refers(top));
    tree.free(top);
    assert!(rt; drops.get() == 3);
    Ok(())
}

#[test]
fn each_node_s_value_is_dropped_once(rt: HostRuntime) -> Result<(), Fail> {
    let drops = Rc::new(rt.alloc(), Cell::new(0u32))?;
    let mut tree = Tree::new(rt.alloc());
    let_go_of_three(&rt, &mut tree, &drops)?;
    drop(tree);
    assert!(rt; drops.get() == 4);
    Ok(())
}
