//! The definitions of the document core on plain nested lists, and the plain kinds and errors that they name.
//!
//! Nothing here runs. The contracts of the crates above use these definitions.
#![tactic(auto)]

/// The seven kinds of node (DOM Standard, "Interface Node").
#[derive(Clone, Copy, Debug, PartialEq, Eq)]
pub enum Kind {
    Element,
    Text,
    ProcessingInstruction,
    Comment,
    Document,
    DocumentType,
    DocumentFragment,
}

/// The exceptions of the standard that a command can return (Web IDL, "DOMException"), and `TypeError`.
#[derive(Clone, Copy, Debug, PartialEq, Eq)]
pub enum DomError {
    IndexSizeError,
    HierarchyRequestError,
    WrongDocumentError,
    InvalidCharacterError,
    NotFoundError,
    NotSupportedError,
    InvalidStateError,
    InvalidNodeTypeError,
    TypeError,
}

/// The errors of this profile. The standard does not have them.
#[derive(Clone, Copy, Debug, PartialEq, Eq)]
pub enum OwnError {
    LineTooLong,
    BadJson,
    BadCommand,
    BadArguments,
    NoSuchObject,
    Limit,
    InUse,
}

/// The type of a mutation record (DOM Standard, "Interface MutationRecord").
#[derive(Clone, Copy, Debug, PartialEq, Eq)]
pub enum RecordType {
    ChildList,
    Attributes,
    CharacterData,
}

/// The result of a node filter (DOM Standard, "Interface NodeFilter").
#[derive(Clone, Copy, Debug, PartialEq, Eq)]
pub enum Verdict {
    Accept,
    Skip,
    Reject,
}

/// The seven moves of a tree walker (DOM Standard, "Interface TreeWalker").
#[derive(Clone, Copy, Debug, PartialEq, Eq)]
pub enum Move {
    ParentNode,
    FirstChild,
    LastChild,
    PreviousSibling,
    NextSibling,
    PreviousNode,
    NextNode,
}
