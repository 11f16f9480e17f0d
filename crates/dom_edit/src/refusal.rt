//! Why a call on a world failed.

use dom_kinds::DomError;
use std::alloc::AllocError;

/// The standard's exception, or out of memory.
///
/// An exception leaves the world as it was. After out of memory the world is whole, but an edit may be half done.
#[derive(Clone, Copy, Debug, PartialEq, Eq)]
pub enum Refusal {
    Dom(DomError),
    Memory,
}

impl From<AllocError> for Refusal {
    ghost use Rattle.dom_edit.specs.declared.refusal.Refusal.TheVariants.{Memory};
    ghost use Rattle.std.specs.Prelude.{◌≡◌};

    ghost from_gives = { λ _ e. e ≡ Memory };

    fn from(_wanting: AllocError) -> Refusal {
        Refusal::Memory
    }
}
