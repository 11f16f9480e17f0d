//! Borrowing a node's name, data and attributes without a command: the last answer stays, and no memory is taken. A session that
//! has ended still lends, with `HP_ENDED`.

ghost use Rattle.std.specs.Prelude.{◌≡◌};
ghost use Rattle.dom_c.specs.BorrowedData.{LendsForest, name_out, data_out, attribute_name_out, attribute_value_out};

use crate::borrowed_text::{Bytes, Text};
use crate::handle::Handle;
use crate::labels::name_part;
use crate::status::{HP_CLOSED, HP_NOT_THERE, status_of_own};
use dom_session::NodeId;

/// Lends a part of a node's name: 0 the name of an Element or a DocumentType, or the target of a ProcessingInstruction; 1 the public
/// id and 2 the system id of a DocumentType. Another kind has none.
#[unsafe(no_mangle)]
pub extern "C" fn hp_name_of<'a>(
    handle: &'a mut Handle,
    node: u32,
    part: u8,
    out: &mut Bytes<'a>,
) -> u8
    ensures { LendsForest handle.old (name_out node part) out.old.bytes.now out.new.bytes.now
        result }
{
    if !handle.is_open {
        return HP_CLOSED;
    }
    let kept = &handle.slot.lend().kept;
    match kept.session.label_of(NodeId::new(node)) {
        Ok(label) => match name_part(label, part) {
            Some(name) => {
                out.bytes = name;
                kept.found()
            }
            None => HP_NOT_THERE,
        },
        Err(error) => status_of_own(error),
    }
}

/// Lends the data of a Text, a Comment or a ProcessingInstruction. Another kind has none.
#[unsafe(no_mangle)]
pub extern "C" fn hp_data_of<'a>(handle: &'a mut Handle, node: u32, out: &mut Text<'a>) -> u8
    ensures { LendsForest handle.old (data_out node) out.old.units.now out.new.units.now result }
{
    if !handle.is_open {
        return HP_CLOSED;
    }
    let kept = &handle.slot.lend().kept;
    match kept.session.data_of(NodeId::new(node)) {
        Ok(Some(units)) => {
            out.units = units;
            kept.found()
        }
        Ok(None) => HP_NOT_THERE,
        Err(error) => status_of_own(error),
    }
}

/// Lends the attribute of a node at a place, from 0 on: its name and its value. There is none past the last, and none if the node is no Element.
#[unsafe(no_mangle)]
pub extern "C" fn hp_attribute_at<'a>(
    handle: &'a mut Handle,
    node: u32,
    index: usize,
    name: &mut Bytes<'a>,
    value: &mut Text<'a>,
) -> u8
    ensures name { LendsForest handle.old (attribute_name_out node index) name.old.bytes.now
        name.new.bytes.now result }
    ensures value { LendsForest handle.old (attribute_value_out node index) value.old.units.now
        value.new.units.now result }
{
    if !handle.is_open {
        return HP_CLOSED;
    }
    let kept = &handle.slot.lend().kept;
    match kept.session.attribute_at(NodeId::new(node), index) {
        Ok(Some((its_name, its_value))) => {
            name.bytes = its_name.as_bytes();
            value.units = its_value.units();
            kept.found()
        }
        Ok(None) => HP_NOT_THERE,
        Err(error) => status_of_own(error),
    }
}
