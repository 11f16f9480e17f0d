//! Changing data and attributes in their nodes.

ghost use Rattle.std.specs.Prelude.{◌≡◌, ◌+◌, ◌^◌, ◌<◌, ◌≤◌, [], length, IfSome, is_some, option_copied, string_bytes, OnOk, OnErr};
ghost use Rattle.dom_model.specs.Forests.Attributes.{attribute_value, with_attribute, without_attribute};
ghost use Rattle.dom_model.specs.Forests.Forest.{HasNode, entry_in, with_node};
ghost use Rattle.dom_model.specs.Forests.Texts.{spliced};
ghost use Rattle.dom_model.specs.DataAndCopies.Data.{content_in, with_data, with_attributes};
ghost use Rattle.dom_data.specs.Tails.{tail_in};

use dom_edit::{Content, World};
use dom_kinds::Kind;
use dom_tree::{NodeId, Tree};
use dom_units::Units;
use std::alloc::{AllocError, Global};

// Returns the kind of a node.
pub(crate) fn kind_in(tree: &Tree<Content>, node: NodeId) -> Kind
    requires held { HasNode tree.now.forest node }
    ensures { IfSome (entry_in tree.now.forest node) (λ e. result ≡ e.value.label.kind) }
{
    tree.label(node).kind
}

// Returns the value of an attribute of a node.
pub(crate) fn value_in<'a>(tree: &'a Tree<Content>, node: NodeId, name: &str) -> Option<&'a [u16]>
    requires held { HasNode tree.now.forest node }
    ensures { option_copied result ≡ attribute_value name.now
        (content_in (entry_in tree.now.forest node)).attributes }
{
    match tree.body(node).attribute(name) {
        Some(value) => Some(value.units()),
        None => None,
    }
}

// Replaces `count` units of a node's data from `offset` on by `added`.
pub(crate) fn splice_data(
    tree: &mut Tree<Content>,
    alloc: Global,
    node: NodeId,
    offset: usize,
    count: usize,
    added: &[u16],
) -> Result<(), AllocError>
    requires held { HasNode tree.old.forest node }
    requires within { offset + count ≤ length (content_in (entry_in tree.old.forest node)).text }
    ensures ok { OnOk result (tree.new ≡ record tree.old {
      forest = with_node node
          (with_data (spliced offset count added.now
          (content_in (entry_in tree.old.forest node)).text)) tree.old.forest;
    }) }
    ensures fits { OnOk result (length (spliced offset count added.now
        (content_in (entry_in tree.old.forest node)).text) < 2 ^ 64) }
    ensures err { OnErr result (tree.new ≡ tree.old) }
{
    tree.state_law();
    let content = tree.body_mut(node);
    let outcome = content.splice(alloc, offset, count, added);
    // a law: so many units fit the memory
    let _ = content.text().len();
    outcome
}

// Reserves room for `more` units of a node's data.
fn reserve_in(
    tree: &mut Tree<Content>,
    alloc: Global,
    node: NodeId,
    more: usize,
) -> Result<(), AllocError>
    requires held { HasNode tree.old.forest node }
    ensures { tree.new ≡ tree.old }
{
    tree.state_law();
    let content = tree.body_mut(node);
    content.reserve(alloc, more)
}

/// Reserves room for `more` units of a node's data. A replacement that grows the data by at most `more` units then takes no memory for it.
pub fn reserve_data(
    world: &mut World,
    alloc: Global,
    node: NodeId,
    more: usize,
) -> Result<(), AllocError>
    requires held { HasNode world.old.tree.forest node }
    ensures { world.new ≡ world.old }
{
    reserve_in(&mut world.tree, alloc, node, more)
}

// Moves the units beyond an offset of a node's data into another node, which has no attributes.
pub(crate) fn move_tail(
    tree: &mut Tree<Content>,
    alloc: Global,
    node: NodeId,
    offset: usize,
    new: NodeId,
) -> Result<(), AllocError>
    requires held { HasNode tree.old.forest node }
    requires new_held { HasNode tree.old.forest new }
    requires within { offset ≤ length (content_in (entry_in tree.old.forest node)).text }
    requires bare { (content_in (entry_in tree.old.forest new)).attributes ≡ [] }
    ensures ok { OnOk result (tree.new ≡ record tree.old
        { forest = tail_in node offset new tree.old.forest }) }
    ensures err { OnErr result (tree.new ≡ tree.old) }
{
    tree.state_law();
    let content = tree.body_mut(node);
    let tail = content.split_off(alloc, offset)?;
    let place = tree.body_mut(new);
    *place = tail;
    Ok(())
}

// Returns whether a node has an attribute of a name.
pub(crate) fn has_in(tree: &Tree<Content>, node: NodeId, name: &str) -> bool
    requires held { HasNode tree.now.forest node }
    ensures { result ≡ is_some (attribute_value name.now
        (content_in (entry_in tree.now.forest node)).attributes) }
{
    tree.body(node).attribute(name).is_some()
}

// Sets an attribute of a node, in place or last.
pub(crate) fn set_in(
    tree: &mut Tree<Content>,
    alloc: Global,
    node: NodeId,
    name: String,
    value: Units,
) -> Result<(), AllocError>
    requires held { HasNode tree.old.forest node }
    ensures ok { OnOk result (tree.new ≡ record tree.old {
      forest = with_node node
          (with_attributes (with_attribute (string_bytes name) value
          (content_in (entry_in tree.old.forest node)).attributes)) tree.old.forest;
    }) }
    ensures err { OnErr result (tree.new ≡ tree.old) }
{
    tree.state_law();
    let content = tree.body_mut(node);
    let _ = content.set_attribute(alloc, name, value)?;
    Ok(())
}

// Removes an attribute of a node.
pub(crate) fn remove_in(tree: &mut Tree<Content>, node: NodeId, name: &str)
    requires held { HasNode tree.old.forest node }
    ensures { tree.new ≡ record tree.old {
      forest = with_node node
          (with_attributes (without_attribute name.now
          (content_in (entry_in tree.old.forest node)).attributes)) tree.old.forest;
    } }
{
    tree.state_law();
    let content = tree.body_mut(node);
    let _ = content.remove_attribute(name);
}
