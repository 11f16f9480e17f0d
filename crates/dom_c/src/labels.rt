//! The names of a node, borrowed from the answer of `hp_node`.

ghost use Rattle.std.specs.Prelude.{◌≡◌, List, ℕ, Option, option_map, option_and_then};
ghost use Rattle.dom_c.specs.WrittenValues.{last_answer_of};
ghost use Rattle.dom_c.specs.ReplyItems.{look_up_status, looked_up, or_before};
ghost use Rattle.dom_c.specs.Rows.{own_name, doctype_id, name_part, node_name_part};

use crate::borrowed_text::Bytes;
use crate::handle::Handle;
use crate::handle_state::HandleState;
use crate::status::{HP_CLOSED, HP_NOT_THERE, HP_OK, HP_OUT_OF_MEMORY};
use dom_session::{Answer, Kind, Label, Reply};

// Borrows the name of an element or a doctype, or the target of a processing instruction.
fn own_name(kind: Kind, name: &str) -> Option<&[u8]>
    ensures { option_map (λ name. name.now) result ≡ own_name kind name.now }
{
    match kind {
        Kind::Element | Kind::ProcessingInstruction | Kind::DocumentType => Some(name.as_bytes()),
        Kind::Text | Kind::Comment | Kind::Document | Kind::DocumentFragment => None,
    }
}

// Borrows an id of a doctype.
fn doctype_id(kind: Kind, id: &str) -> Option<&[u8]>
    ensures { option_map (λ id. id.now) result ≡ doctype_id kind id.now }
{
    match kind {
        Kind::DocumentType => Some(id.as_bytes()),
        _ => None,
    }
}

/// Borrows a part of a node's name: 0 for the name, 1 for the public id, 2 for the system id.
pub(crate) fn name_part(label: &Label, part: u8) -> Option<&[u8]>
    ensures { option_map (λ name. name.now) result ≡ name_part part label.now }
{
    match part {
        0 => own_name(label.kind, label.name()),
        1 => doctype_id(label.kind, label.public_id()),
        2 => doctype_id(label.kind, label.system_id()),
        _ => None,
    }
}

impl HandleState {
    fn node_name(&self, part: u8) -> Option<&[u8]>
        ensures { option_map (λ name. name.now) result
            ≡ option_and_then (node_name_part part) (last_answer_of self.now) }
    {
        match &self.reply {
            Some(Reply::Done(Answer::NodeAt(found))) => name_part(&found.label, part),
            _ => None,
        }
    }
}

/// Lends a part of the name of the node in `hp_node`'s answer: 0 the name of an element or doctype, or the target of a processing
/// instruction; 1 the public id and 2 the system id of a doctype.
#[unsafe(no_mangle)]
pub extern "C" fn hp_node_name<'a>(handle: &'a mut Handle, part: u8, out: &mut Bytes<'a>) -> u8
    ensures status { result ≡ look_up_status handle.old (node_name_part part) }
    ensures name { out.new.bytes.now ≡ or_before (looked_up handle.old (node_name_part part))
        out.old.bytes.now }
{
    if !handle.is_open {
        return HP_CLOSED;
    }
    let kept = &handle.slot.lend().kept;
    if kept.ended {
        return HP_OUT_OF_MEMORY;
    }
    match kept.node_name(part) {
        Some(name) => {
            out.bytes = name;
            HP_OK
        }
        None => HP_NOT_THERE,
    }
}
