//! Calls of `dom_session`.

ghost use Rattle.std.specs.Prelude.{◌≡◌, IfOk};
ghost use Rattle.dom_model.specs.Commands.Command.{SetData, GetData};
ghost use Rattle.dom_model.specs.Commands.Reply as model;
ghost use Rattle.dom_model.specs.Worlds.World.{World};
ghost use Rattle.dom_session.specs.SessionViews.{StandsFor};
ghost use Rattle.dom_commands.specs.Views.{reply_view};
ghost use Rattle.uses.specs.Turns.{AreAnswered};

use dom_session::{Command, Limits, Making, NodeId, OutOfMemory, Reply, Session, Texts, Units};
use std::alloc::Global;

/// Sets the data of a node, and reads it. Fails for a node without data, and for a number without a node.
pub fn set_and_read(
    session: &mut Session,
    node: NodeId,
    text: Units,
) -> Result<(Reply, Reply), OutOfMemory>
    ensures replies { IfOk result (λ replies. (w : World) → StandsFor session.old w →
        AreAnswered replies.0 replies.1 w session.old session.new (SetData node text)
        (GetData node)) }
    ensures bounds { session.new.bounds ≡ session.old.bounds }
{
    let set = session.apply(Command::Texts(Texts::SetData(node, text)))?;
    let read = session.apply(Command::Texts(Texts::GetData(node)))?;
    Ok((set, read))
}

/// Makes a Document in a new session. It is node 1, because the session begins with another Document.
pub fn second_document(alloc: Global) -> Result<Reply, OutOfMemory>
    ensures { IfOk result (λ reply. reply_view reply ≡ model.Done (model.Number 1)) }
{
    let limits = Limits {
        numbers: 1000,
        line: 65536,
    };
    let Ok(mut session) = Session::new(alloc, limits) else {
        return Err(OutOfMemory::Ended);
    };
    session.apply(Command::Making(Making::NewDocument))
}
