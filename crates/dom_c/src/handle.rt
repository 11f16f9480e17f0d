//! The handle by which C holds a session.

ghost use Rattle.std.specs.Prelude.{◌≡◌, is_some};

use crate::session_slot::SessionSlot;

/// A session, or none. All zero bytes are a closed handle.
#[repr(C)]
pub struct Handle {
    pub slot: SessionSlot,
    pub is_open: bool,
    // a handle is open if its slot is full
    ghost tied: { is_open ≡ is_some slot.kept },
}
