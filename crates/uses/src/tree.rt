//! Calls of `dom_tree`.

ghost use Rattle.std.specs.Prelude.{◌≡◌, ◌<◌, ◌∷◌, ◌++◌, [], None, Some, true, IfSome, IfOk, OnErr};
ghost use Rattle.dom_model.specs.Forests.Kinds.{may_stand_in};
ghost use Rattle.dom_model.specs.Forests.Forest.{HasNode, entry_in, parent_of, children_of};

use dom_kinds::Label;
use dom_tree::{NodeId, Tree};
use std::alloc::AllocError;

/// Makes a node, and appends it to a parent whose kind accepts it.
pub fn make_under(
    tree: &mut Tree<u32>,
    parent: NodeId,
    label: Label,
    body: u32,
) -> Result<NodeId, AllocError>
    requires room { tree.old.made < 4294967295 }
    requires held { HasNode tree.old.forest parent }
    requires kinds { IfSome (entry_in tree.old.forest parent) (λ e.
        may_stand_in e.value.label.kind label.kind ≡ true) }
    ensures under { IfOk result (λ id. parent_of tree.new.forest id ≡ Some parent) }
    ensures last { IfOk result (λ id. children_of tree.new.forest parent
        ≡ children_of tree.old.forest parent ++ id ∷ []) }
    ensures err { OnErr result (tree.new ≡ tree.old) }
{
    tree.state_law();
    let document = tree.document_of(parent);
    let id = tree.make(label, body, Some(document))?;
    tree.put(parent, id, None);
    Ok(id)
}

/// Removes a node from its parent, if it has one, and returns the parent. The node is a root then.
pub fn detach(tree: &mut Tree<u32>, node: NodeId) -> Option<NodeId>
    requires { HasNode tree.old.forest node }
    ensures parent { result ≡ parent_of tree.old.forest node }
    ensures root { parent_of tree.new.forest node ≡ None }
    ensures made { tree.new.made ≡ tree.old.made }
{
    tree.state_law();
    let parent = tree.parent(node)?;
    tree.cut(node);
    Some(parent)
}
