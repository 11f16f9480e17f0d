//! Nodes that have data (DOM Standard, "Interface CharacterData").

ghost use Rattle.std.specs.Prelude.{◌≡◌, ◌==◌, ◌&&◌};
ghost use Rattle.dom_model.specs.Forests.Forest.{HasNode};
ghost use Rattle.dom_model.specs.Forests.Kinds.{is_character_data};
ghost use Rattle.dom_model.specs.Forests.Nodes.{kind_passes};

use dom_edit::Content;
use dom_point::Point;
use dom_tree::Tree;

// Returns whether both points are in one node that has data.
pub(crate) fn is_in_one_data(tree: &Tree<Content>, start: Point, end: Point) -> bool
    requires held { HasNode tree.now.forest start.node }
    ensures { result ≡ ((start.node == end.node) && kind_passes is_character_data tree.now.forest
        start.node) }
{
    start.node == end.node && tree.has_data(start.node)
}
