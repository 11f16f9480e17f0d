//! The number of a kind, and whether its nodes may have children or character data.

ghost use Rattle.std.specs.Prelude.{◌≡◌, ℕ};
ghost use Rattle.dom_model.specs.Forests.Kinds.{number_of_kind, may_be_parent, is_character_data};

use dom_model::Kind;

/// Values with a `nodeType` (DOM Standard, "Interface Node").
pub trait NodeType {
    // the number of a value
    ghost number_of: { Self → ℕ };

    /// Returns the `nodeType` constant (DOM Standard, "Interface Node").
    fn number(self) -> u16
        ensures { result ≡ number_of self };
}

impl NodeType for Kind {
    ghost number_of = { number_of_kind };

    fn number(self) -> u16 {
        match self {
            Kind::Element => 1,
            Kind::Text => 3,
            Kind::ProcessingInstruction => 7,
            Kind::Comment => 8,
            Kind::Document => 9,
            Kind::DocumentType => 10,
            Kind::DocumentFragment => 11,
        }
    }
}

/// Returns whether nodes of a kind may have children (DOM Standard, "Trees").
pub fn may_be_parent(kind: Kind) -> bool
    ensures { result ≡ may_be_parent kind }
{
    matches!(
        kind,
        Kind::Document | Kind::DocumentFragment | Kind::Element
    )
}

/// Returns whether nodes of a kind have character data (DOM Standard, "Interface CharacterData").
pub fn is_character_data(kind: Kind) -> bool
    ensures { result ≡ is_character_data kind }
{
    matches!(
        kind,
        Kind::Text | Kind::ProcessingInstruction | Kind::Comment
    )
}
