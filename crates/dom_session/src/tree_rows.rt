//! A tree as a list of rows.

ghost use Rattle.std.specs.Prelude.{◌≡◌, IfOk, IfSome};
ghost use Rattle.dom_model.specs.Forests.Forest.{HasNode, entry_in};
ghost use Rattle.dom_model.specs.Commands.Answer.{tree_rows};
ghost use Rattle.dom_model.specs.Commands.Guards.{Bounds};
ghost use Rattle.dom_model.specs.Commands.Command.{Tree as TreeCommand};
ghost use Rattle.dom_commands.specs.Views.{reply_view};
ghost use Rattle.dom_session.specs.SessionViews.{IsStep};
ghost use Rattle.dom_session.specs.TreeRows.{row_of_node};

use dom_clone::{Waiting, wait_for};
use dom_commands::{Answer, Brief, Reply, TreeRow};
use dom_edit::{Content, World};
use dom_model::OwnError;
use dom_tree::{NodeId, Tree};
use std::alloc::{AllocError, Global};

// The row of one node.
fn row_of(
    tree: &Tree<Content>,
    alloc: Global,
    id: NodeId,
    depth: usize,
) -> Result<TreeRow, AllocError>
    requires { HasNode tree.now.forest id }
    ensures { IfOk result (λ row. IfSome (entry_in tree.now.forest id) (λ e. row
        ≡ row_of_node id depth e.value)) }
{
    let label = tree.label(id).try_clone(alloc)?;
    let body = tree.body(id).try_clone(alloc)?;
    Ok(TreeRow {
        depth,
        number: id,
        label,
        body,
    })
}

// The rows of a node and of all that stands below it, in tree order.
fn rows_of(tree: &Tree<Content>, alloc: Global, top: NodeId) -> Result<Vec<TreeRow>, AllocError>
    requires { HasNode tree.now.forest top }
    ensures { IfOk result (λ rows. rows.items ≡ tree_rows tree.now.forest top) }
{
    tree.state_law();
    let mut rows: Vec<TreeRow> = Vec::new(alloc);
    let mut waiting: Vec<Waiting<usize>> = Vec::new(alloc);
    rows.push(row_of(tree, alloc, top, 0)?)?;
    wait_for(&mut waiting, tree.first(top), 1)?;
    while let Some(next) = waiting.pop() {
        rows.push(row_of(tree, alloc, next.first, next.place)?)?;
        wait_for(&mut waiting, tree.next(next.first), next.place)?;
        wait_for(&mut waiting, tree.first(next.first), next.place + 1)?;
    }
    Ok(rows)
}

/// Prints a node and all that stands below it.
pub(crate) fn print_tree(world: &World, alloc: Global, top: NodeId) -> Result<Reply, AllocError>
    ensures { IfOk result (λ reply. (b : Bounds) →
        IsStep world.now world.now b (TreeCommand top) reply) }
{
    if !world.tree.holds(top) {
        return Ok(Reply::Brief(Brief::Own(OwnError::NoSuchObject)));
    }
    let rows = rows_of(&world.tree, alloc, top)?;
    Ok(Reply::Done(Answer::Rows(rows)))
}
