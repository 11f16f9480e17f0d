//! Setting, removing and toggling attributes (DOM Standard, "Interface Element").

ghost use Rattle.std.specs.Prelude.{◌≡◌, true, string_bytes, IfOk, OnOk, OnErr};
ghost use Rattle.dom_model.specs.declared.Kind.TheVariants.{Element};
ghost use Rattle.dom_model.specs.Forests.Nodes.{is_of_kind};
ghost use Rattle.dom_model.specs.DataAndCopies.Data.{set_attribute, remove_attribute, toggle_attribute, has_attribute, is_toggled_on};
ghost use Rattle.dom_observe.specs.ObservedNodes.{SameObservers};
ghost use Rattle.dom_edit.specs.Whole.{IsWhole, Follows, unwatched};

use crate::bodies::{has_in, remove_in, set_in};
use crate::records::{queue_attribute_record, unqueue_attribute_record};
use dom_edit::World;
use dom_tree::NodeId;
use dom_units::Units;
use std::alloc::{AllocError, Global};

/// Sets an attribute, in place or as the last, and queues a record of the old value ("set an attribute value").
///
/// An equal value is set and recorded too.
pub fn set_attribute(
    world: &mut World,
    alloc: Global,
    node: NodeId,
    name: String,
    value: Units,
) -> Result<(), AllocError>
    requires whole { IsWhole world.old }
    requires kind { is_of_kind Element world.old.tree.forest node ≡ true }
    ensures set { OnOk result (Follows world.old world.new
        (set_attribute node (string_bytes name) value)) }
    ensures unchanged { OnErr result (world.new ≡ world.old) }
    ensures observers { SameObservers world.old.observers world.new.observers }
    ensures whole { IsWhole world.new }
{
    if world.observers.is_idle() {
        return set_in(&mut world.tree, alloc, node, name, value);
    }
    set_observed(world, alloc, node, name, value)
}

// Sets an attribute as `set_attribute` does, if somebody observes. A copy of its name is kept for a record that has to be taken back.
fn set_observed(
    world: &mut World,
    alloc: Global,
    node: NodeId,
    name: String,
    value: Units,
) -> Result<(), AllocError>
    requires whole { IsWhole world.old }
    requires kind { is_of_kind Element world.old.tree.forest node ≡ true }
    ensures set { OnOk result (Follows world.old world.new
        (set_attribute node (string_bytes name) value)) }
    ensures unchanged { OnErr result (world.new ≡ world.old) }
    ensures observers { SameObservers world.old.observers world.new.observers }
    ensures whole { IsWhole world.new }
{
    let copy = String::from_str(alloc, name.as_str())?;
    let told = copy.as_str();
    let pending = world.observers.pending_count();
    queue_attribute_record(world, node, told)?;
    if let Err(error) = set_in(&mut world.tree, alloc, node, name, value) {
        unqueue_attribute_record(world, node, told, pending);
        return Err(error);
    }
    Ok(())
}

/// Removes an attribute and queues a record of its value; does nothing if it is absent ("remove an attribute by name").
pub fn remove_attribute(world: &mut World, node: NodeId, name: &str) -> Result<(), AllocError>
    requires whole { IsWhole world.old }
    requires kind { is_of_kind Element world.old.tree.forest node ≡ true }
    ensures removed { OnOk result (Follows world.old world.new (remove_attribute node name.now)) }
    ensures unchanged { OnErr result (world.new ≡ world.old) }
    ensures observers { SameObservers world.old.observers world.new.observers }
    ensures whole { IsWhole world.new }
{
    if !has_in(&world.tree, node, name) {
        return Ok(());
    }
    queue_attribute_record(world, node, name)?;
    remove_in(&mut world.tree, node, name);
    Ok(())
}

/// Adds an attribute with the empty value, or removes it: as forced, or else the opposite of its present state (toggleAttribute).
///
/// Returns whether the attribute is present afterwards.
pub fn toggle_attribute(
    world: &mut World,
    alloc: Global,
    node: NodeId,
    name: String,
    force: Option<bool>,
) -> Result<bool, AllocError>
    requires whole { IsWhole world.old }
    requires kind { is_of_kind Element world.old.tree.forest node ≡ true }
    ensures answer { IfOk result (λ on. on ≡ is_toggled_on force
        (has_attribute (unwatched world.old) node (string_bytes name))) }
    ensures toggled { OnOk result (Follows world.old world.new
        (toggle_attribute node (string_bytes name) force)) }
    ensures unchanged { OnErr result (world.new ≡ world.old) }
    ensures observers { SameObservers world.old.observers world.new.observers }
    ensures whole { IsWhole world.new }
{
    let present = has_in(&world.tree, node, name.as_str());
    let on = force.unwrap_or(!present);
    if on == present {
        return Ok(on);
    }
    if on {
        set_attribute(world, alloc, node, name, Units::new(alloc))?;
    } else {
        remove_attribute(world, node, name.as_str())?;
    }
    Ok(on)
}
