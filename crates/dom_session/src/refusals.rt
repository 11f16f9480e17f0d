//! Refusals that groups of commands share.

ghost use Rattle.std.specs.Prelude.{◌≡◌, option_map};
ghost use Rattle.dom_model.specs.Forests.Kinds.{is_kind};
ghost use Rattle.dom_commands.specs.Views.{reply_view};
ghost use Rattle.dom_session.specs.Refusals.{kind_refusal, brief_to, reply_to};

use dom_commands::{Brief, Reply};
use dom_edit::{Refusal, World};
use dom_kinds::{DomError, Kind};
use dom_model::OwnError;
use dom_tree::NodeId;
use std::alloc::AllocError;

/// Returns why a command on nodes of one kind may not act on a node.
pub(crate) fn kind_refusal(world: &World, node: NodeId, kind: Kind) -> Option<Reply>
    ensures { option_map reply_view result ≡ kind_refusal (is_kind kind) world.now node }
{
    if !world.tree.holds(node) {
        return Some(Reply::Brief(Brief::Own(OwnError::NoSuchObject)));
    }
    if !world.tree.is_of_kind(node, kind) {
        return Some(Reply::Brief(Brief::Dom(DomError::TypeError)));
    }
    None
}

/// Returns the small reply to a refused call: the name of the exception. Out of memory is no reply.
pub(crate) fn brief_to(refusal: Refusal) -> Result<Brief, AllocError>
    ensures { result ≡ brief_to refusal }
{
    match refusal {
        Refusal::Dom(error) => Ok(Brief::Dom(error)),
        Refusal::Memory => Err(AllocError),
    }
}

/// Returns the reply to a refused call: the name of the exception. Out of memory is no reply.
pub(crate) fn reply_to(refusal: Refusal) -> Result<Reply, AllocError>
    ensures { result ≡ reply_to refusal }
{
    match refusal {
        Refusal::Dom(error) => Ok(Reply::Brief(Brief::Dom(error))),
        Refusal::Memory => Err(AllocError),
    }
}
