//! The names and codes of exceptions.
ghost use Rattle.std.specs.Prelude.{◌≡◌, ℕ, List};
ghost use Rattle.dom_model.specs.Commands.Refusal.{name_of_error, code_of_error};

use dom_model::DomError;

/// Exceptions with a name and a code (Web IDL, "DOMException").
pub trait Exception {
    // the name of a value, as UTF-8
    ghost name_of: { Self → List ℕ };

    // the code of a value
    ghost code_of: { Self → ℕ };

    /// Returns the exception's `name`.
    fn name(self) -> &'static str
        ensures { result.now ≡ name_of self };

    /// Returns the exception's `code`; 0 for `TypeError`, which has none in the standard.
    fn code(self) -> u16
        ensures { result ≡ code_of self };
}

impl Exception for DomError {
    ghost name_of = { name_of_error };

    ghost code_of = { code_of_error };

    fn name(self) -> &'static str {
        match self {
            DomError::IndexSizeError => "IndexSizeError",
            DomError::HierarchyRequestError => "HierarchyRequestError",
            DomError::WrongDocumentError => "WrongDocumentError",
            DomError::InvalidCharacterError => "InvalidCharacterError",
            DomError::NotFoundError => "NotFoundError",
            DomError::NotSupportedError => "NotSupportedError",
            DomError::InvalidStateError => "InvalidStateError",
            DomError::InvalidNodeTypeError => "InvalidNodeTypeError",
            DomError::TypeError => "TypeError",
        }
    }

    fn code(self) -> u16 {
        match self {
            DomError::IndexSizeError => 1,
            DomError::HierarchyRequestError => 3,
            DomError::WrongDocumentError => 4,
            DomError::InvalidCharacterError => 5,
            DomError::NotFoundError => 8,
            DomError::NotSupportedError => 9,
            DomError::InvalidStateError => 11,
            DomError::InvalidNodeTypeError => 24,
            DomError::TypeError => 0,
        }
    }
}
