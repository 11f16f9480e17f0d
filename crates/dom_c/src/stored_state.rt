//! The state of a handle on the heap, as one value.

use crate::handle_state::HandleState;
use std::marker::Model;

/// The state behind a handle's slot. A contract sees it as one value.
#[derive(Drop)]
pub struct StoredState {
    pub kept: HandleState,
}

impl Model for StoredState {
    ghost use Rattle.std.specs.Coded.{codes};
    ghost use Rattle.dom_model.specs.Forests.ForestCode.{grove_code};
    ghost use Rattle.dom_session.specs.Codes.{content_code};
    ghost use Rattle.dom_c.specs.declared.handle_state.HandleState.{HandleState as Parts};

    ghost Value = { Parts };

    ghost coded = { Prim.hlevel (codes, grove_code content_code) };

    ghost view = { λ l. l.kept };
}
