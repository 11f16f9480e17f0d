//! The keys of a node's registrations, in their order.

ghost use Rattle.std.specs.Prelude.{◌≡◌, ℕ, ◌<◌, ◌==◌, ◌++◌, [], ◌∷◌, length, remove, filter, IfOk, OnOk, OnErr, nat_eq, if◌then◌else◌};
ghost use Rattle.std.specs.Map.{keys_of};
ghost use Rattle.indexmap.specs.IndexMap.{IsUnique};
ghost use Rattle.dom_model.specs.PlainLists.LastOnce.{with_last};
ghost use Rattle.dom_observe.specs.Watchers.{on};
ghost use Rattle.dom_observe.specs.Registrations.{in_table, is_live, listed, HaveKeys};

use crate::registration::Registration;
use crate::registration_table::{cut, prune};
use dom_tree::NodeId;
use indexmap::IndexMap;
use slab::Slab;
use std::alloc::{AllocError, Global};
use std::marker::Model;

/// Keys after a skipped front. Once more keys are skipped than are left, the front is removed.
#[derive(Drop)]
pub(crate) struct NodeKeys {
    all: Vec<usize>,
    passed: usize,
}

impl Model for NodeKeys {
    ghost use Rattle.std.specs.Prelude.{◌≤◌, drop, length};
    ghost use Rattle.dom_observe.specs.Keys.{Keys};

    ghost Value = { Keys };

    ghost view = { λ k. record { items = drop k.passed k.all.items } };

    ghost invariant = { λ k. k.passed ≤ length k.all.items };
}

impl NodeKeys {
    /// Returns a list of one key.
    pub(crate) fn one(key: usize, alloc: Global) -> Result<NodeKeys, AllocError>
        ensures { IfOk result (λ keys. keys.items ≡ key ∷ []) }
    {
        let all = vec![in alloc; key]?;
        Ok(NodeKeys { all, passed: 0 })
    }

    /// Borrows the keys.
    pub(crate) fn as_slice(&self) -> &[usize]
        ensures { result.now ≡ self.now.items }
    {
        let all = self.all.as_slice();
        &all[self.passed..]
    }

    /// Returns whether no key is left.
    pub(crate) fn is_empty(&self) -> bool
        ensures { result ≡ (length self.now.items == 0) }
    {
        self.as_slice().is_empty()
    }

    /// Appends a key.
    pub(crate) fn push(&mut self, key: usize) -> Result<(), AllocError>
        ensures ok { OnOk result (self.new.items ≡ self.old.items ++ key ∷ []) }
        ensures err { OnErr result (self.new.items ≡ self.old.items) }
    {
        self.all.push(key)?;
        Ok(())
    }

    /// Removes the key at an index. Moves the keys on the shorter side.
    pub(crate) fn remove(&mut self, place: usize)
        requires { place < length self.old.items }
        ensures { self.new.items ≡ remove self.old.items place }
    {
        // a law: so many keys fit the memory
        let count = self.all.len();
        let first = self.passed;
        let here = first + place;
        if place < count - here {
            self.all.copy_within(first..here, first + 1);
            self.passed = first + 1;
        } else {
            let _ = self.all.remove(here);
        }
        self.close_up();
    }

    /// Removes the keys whose registrations ended.
    pub(crate) fn prune(&mut self, table: &Slab<Registration>)
        ensures { self.new.items ≡ filter (is_live (in_table table.now)) self.old.items }
    {
        cut(&mut self.all, 0, self.passed);
        self.passed = 0;
        prune(table, &mut self.all);
    }

    // Removes the skipped front if it is longer than the rest.
    fn close_up(&mut self)
        ensures { self.new.items ≡ self.old.items }
    {
        if self.all.len() - self.passed < self.passed {
            cut(&mut self.all, 0, self.passed);
            self.passed = 0;
        }
    }
}

// Appends a key to those of a node.
pub(crate) fn put_key(
    nodes: &mut IndexMap<u32, NodeKeys>,
    node: NodeId,
    key: usize,
    alloc: Global,
) -> Result<(), AllocError>
    requires { IsUnique nat_eq nodes.old }
    ensures ok { OnOk result ((n : ℕ) → on n (listed nodes.new.entries)
        ≡ on n (listed nodes.old.entries) ++ (if n == node then key ∷ [] else [])) }
    ensures nodes { OnOk result (keys_of (listed nodes.new.entries)
        ≡ with_last (keys_of (listed nodes.old.entries)) node) }
    ensures err { OnErr result (listed nodes.new.entries ≡ listed nodes.old.entries) }
    ensures full { HaveKeys (listed nodes.old.entries) → HaveKeys (listed nodes.new.entries) }
    ensures unique { IsUnique nat_eq nodes.new }
{
    let number = node.number();
    match nodes.get_mut(&number) {
        Some(keys) => keys.push(key)?,
        None => {
            let keys = NodeKeys::one(key, alloc)?;
            nodes.insert(number, keys)?;
        }
    }
    Ok(())
}
