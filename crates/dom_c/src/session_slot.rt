//! The slot of a session. These functions alone follow its pointer.
ghost use Rattle.std.specs.Prelude.{◌≡◌, Option, Some, None, IsSome};
ghost use Rattle.std.specs.Borrow.{sem};
ghost use Rattle.std.specs.Coded.{codes};
ghost use Rattle.dom_model.specs.Forests.ForestCode.{grove_code};
ghost use Rattle.dom_session.specs.Codes.{content_code};
ghost use Rattle.dom_c.specs.Ownership.{StateValue, held};

use crate::stored_state::StoredState;
use std::alloc::Global;
use std::marker::Model;
use std_alloc::room::Vacant;

/// The owner of a session's state on the heap, or of nothing. All zero bytes are an empty slot.
#[repr(C)]
pub struct SessionSlot {
    at: *mut u8,
    pub ghost kept: { Option StateValue } by { Prim.hlevel (codes, grove_code content_code) },
}

impl Model for SessionSlot {
    ghost also_owns = { λ h. held h.at h.kept };
}

impl SessionSlot {
    ghost use Rattle.dom_c.specs.Borrows.{lends_kept};

    pub(crate) fn put(&mut self, room: Vacant<StoredState, Global>, kept: StoredState)
        requires { self.old.kept ≡ None }
        ensures { self.new.kept ≡ Some kept }
    {
        let Vacant { ptr, alloc: _ } = room;
        unsafe {
            ptr.write(kept);
        }
        self.at = ptr as *mut u8;
    }

    pub(crate) fn take(&mut self, alloc: Global) -> (StoredState, Vacant<StoredState, Global>)
        requires { IsSome self.old.kept }
        ensures value { self.old.kept ≡ Some result.0 }
        ensures empty { self.new.kept ≡ None }
    {
        let ptr = self.at as *mut StoredState;
        let kept = unsafe { ptr.read() };
        self.at = std::ptr::null_mut();
        (kept, Vacant { ptr, alloc })
    }

    pub(crate) fn lend(&mut self) -> &mut StoredState
        requires { IsSome self.old.kept }
        ensures* writes_back { sem 𝓛 (lends_kept self.entry result) }
        ensures value { self.old.kept ≡ Some result.now }
    {
        let ptr = self.at as *mut StoredState;
        unsafe { &mut *ptr }
    }
}
