//! Borrowing a node's names, its data, and its attributes by their place, without a command (DOM Standard,
//! "Interface CharacterData", "Interface Element").

ghost use Rattle.std.specs.Prelude.{◌≡◌};
ghost use Rattle.dom_attrs.specs.Entries.{attribute_at};
ghost use Rattle.dom_session.specs.BorrowedData.{lent_as, lent_whole, data_in, attribute_of_node, label_of_node};

use dom_edit::Content;
use dom_kinds::Label;
use dom_model::OwnError;
use dom_tree::{NodeId, Tree};
use dom_units::Units;

/// Borrows the label of a node: its kind and its names.
pub(crate) fn label_of(tree: &Tree<Content>, node: NodeId) -> Result<&Label, OwnError>
    ensures { lent_whole (λ label. label.now) result ≡ label_of_node tree.now.forest node }
{
    if !tree.holds(node) {
        return Err(OwnError::NoSuchObject);
    }
    Ok(tree.label(node))
}

/// Borrows the data of a node, if its kind has data.
pub(crate) fn data_of(tree: &Tree<Content>, node: NodeId) -> Result<Option<&[u16]>, OwnError>
    ensures { lent_as (λ units. units.now) result ≡ data_in tree.now.forest node }
{
    if !tree.holds(node) {
        return Err(OwnError::NoSuchObject);
    }
    if !tree.has_data(node) {
        return Ok(None);
    }
    Ok(Some(tree.body(node).text()))
}

/// Borrows a node's attribute at a place, its name and its value.
pub(crate) fn attribute_at(
    tree: &Tree<Content>,
    node: NodeId,
    index: usize,
) -> Result<Option<(&str, &Units)>, OwnError>
    ensures { lent_as attribute_at result ≡ attribute_of_node index tree.now.forest node }
{
    if !tree.holds(node) {
        return Err(OwnError::NoSuchObject);
    }
    Ok(tree.body(node).attribute_at(index))
}
