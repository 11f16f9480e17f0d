//! Opening and closing a session.

ghost use Rattle.std.specs.Prelude.{◌≡◌, ◌≤◌, IfOk};
ghost use Rattle.dom_session.specs.Sessions.{bounds_of};
ghost use Rattle.dom_c.specs.OpenClose.{Opens, Closes, IsNew};

use crate::handle::Handle;
use crate::handle_state::HandleState;
use crate::status::{HP_ALREADY_OPEN, HP_BAD_LIMITS, HP_CLOSED, HP_OK, HP_OUT_OF_MEMORY};
use crate::stored_state::StoredState;
use dom_session::{Limits, Session};
use std::alloc::{AllocError, Global};
use std_alloc::room::Vacant;

// Returns a session of these limits, without a reply yet.
fn new_kept(alloc: Global, limits: Limits) -> Result<HandleState, AllocError>
    requires numbers { (1 ≤ limits.numbers) × (limits.numbers ≤ 4294967295) }
    requires line { 1 ≤ limits.line }
    ensures { IfOk result (λ kept. IsNew (bounds_of limits) kept) }
{
    match Session::new(alloc, limits) {
        Ok(session) => Ok(HandleState {
            session,
            reply: None,
            line: Vec::new(alloc),
            limit: limits.line,
            ended: false,
            alloc,
        }),
        Err(AllocError) => Err(AllocError),
    }
}

/// Opens a session in a closed handle, whose node 0 is a Document. `numbers` is how many numbers each kind of object has (1 to
/// 4294967295), and `line` how many bytes a line may have (at least 1).
#[unsafe(no_mangle)]
pub extern "C" fn hp_open(handle: &mut Handle, alloc: Global, numbers: u64, line: usize) -> u8
    ensures { Opens handle.old handle.new (record { numbers = numbers; line = line }) result }
{
    if handle.is_open {
        return HP_ALREADY_OPEN;
    }
    if numbers < 1 || numbers > 4294967295 || line < 1 {
        return HP_BAD_LIMITS;
    }
    let Ok(room) = Vacant::take(alloc) else {
        return HP_OUT_OF_MEMORY;
    };
    match new_kept(alloc, Limits { numbers, line }) {
        Ok(kept) => {
            handle.slot.put(room, StoredState { kept });
            handle.is_open = true;
            HP_OK
        }
        Err(AllocError) => {
            drop(room.free());
            HP_OUT_OF_MEMORY
        }
    }
}

/// Frees the session and everything that it owns. Afterwards the handle is closed; a closed handle stays so.
#[unsafe(no_mangle)]
pub extern "C" fn hp_close(handle: &mut Handle, alloc: Global) -> u8
    ensures { Closes handle.old handle.new result }
{
    if !handle.is_open {
        return HP_CLOSED;
    }
    let (lodged, room) = handle.slot.take(alloc);
    handle.is_open = false;
    drop(room.free());
    drop(lodged);
    HP_OK
}
