//! The statuses of calls: the standard's codes for its exceptions, and ours from 32 on.

ghost use Rattle.std.specs.Prelude.{◌≡◌};
ghost use Rattle.dom_commands.specs.Brief.{reply_of};
ghost use Rattle.dom_session.specs.Sessions.{reply_view};
ghost use Rattle.dom_c.specs.Statuses.{status_of, status_of_dom, status_of_own, status_at_end};
ghost use Rattle.dom_c.specs.WrittenValues.{as_answered};

use dom_session::{Brief, DomError, OwnError, Reply};

/// The call succeeded.
pub const HP_OK: u8 = 0;

pub const HP_INDEX_SIZE_ERROR: u8 = 1;

pub const HP_HIERARCHY_REQUEST_ERROR: u8 = 3;

pub const HP_WRONG_DOCUMENT_ERROR: u8 = 4;

pub const HP_INVALID_CHARACTER_ERROR: u8 = 5;

pub const HP_NOT_FOUND_ERROR: u8 = 8;

pub const HP_NOT_SUPPORTED_ERROR: u8 = 9;

pub const HP_INVALID_STATE_ERROR: u8 = 11;

pub const HP_INVALID_NODE_TYPE_ERROR: u8 = 24;

pub const HP_TYPE_ERROR: u8 = 32;
/// There is no object of that number.
pub const HP_NO_SUCH_OBJECT: u8 = 33;
/// There is no number left for a new object.
pub const HP_LIMIT: u8 = 34;
/// Something still refers to a node that was to be discarded.
pub const HP_IN_USE: u8 = 35;

pub const HP_LINE_TOO_LONG: u8 = 36;

pub const HP_BAD_JSON: u8 = 37;

pub const HP_BAD_COMMAND: u8 = 38;

pub const HP_BAD_ARGUMENTS: u8 = 39;
/// Out of memory. Either nothing has changed and the session goes on, or it has ended, now or at an earlier call: it takes no command, and
/// its nodes can still be read.
pub const HP_OUT_OF_MEMORY: u8 = 48;
/// The handle is closed.
pub const HP_CLOSED: u8 = 49;
/// The handle is open already.
pub const HP_ALREADY_OPEN: u8 = 50;
/// The limits of a session are out of their range.
pub const HP_BAD_LIMITS: u8 = 51;
/// The bytes of a name are no UTF-8.
pub const HP_NOT_UTF8: u8 = 52;
/// Lengths do not fit the bytes or units that they measure.
pub const HP_BAD_LENGTHS: u8 = 53;
/// A number stands for none of the choices.
pub const HP_BAD_CHOICE: u8 = 54;
/// The last answer, or the node, has no such part.
pub const HP_NOT_THERE: u8 = 55;
/// The session has ended, as an edit was out of memory once. The answer is from the world it still holds.
pub const HP_ENDED: u8 = 56;

/// The number that stands for null; no object has it.
pub const HP_NONE: u32 = 4294967295;

fn status_of_dom(error: DomError) -> u8
    ensures { result ≡ status_of_dom error }
{
    match error {
        DomError::IndexSizeError => HP_INDEX_SIZE_ERROR,
        DomError::HierarchyRequestError => HP_HIERARCHY_REQUEST_ERROR,
        DomError::WrongDocumentError => HP_WRONG_DOCUMENT_ERROR,
        DomError::InvalidCharacterError => HP_INVALID_CHARACTER_ERROR,
        DomError::NotFoundError => HP_NOT_FOUND_ERROR,
        DomError::NotSupportedError => HP_NOT_SUPPORTED_ERROR,
        DomError::InvalidStateError => HP_INVALID_STATE_ERROR,
        DomError::InvalidNodeTypeError => HP_INVALID_NODE_TYPE_ERROR,
        DomError::TypeError => HP_TYPE_ERROR,
    }
}

/// Returns the status of a refusal that is not one of the standard's.
pub(crate) fn status_of_own(error: OwnError) -> u8
    ensures { result ≡ status_of_own error }
{
    match error {
        OwnError::NoSuchObject => HP_NO_SUCH_OBJECT,
        OwnError::Limit => HP_LIMIT,
        OwnError::InUse => HP_IN_USE,
        OwnError::LineTooLong => HP_LINE_TOO_LONG,
        OwnError::BadJson => HP_BAD_JSON,
        OwnError::BadCommand => HP_BAD_COMMAND,
        OwnError::BadArguments => HP_BAD_ARGUMENTS,
    }
}

/// Returns the status of a reply.
pub fn status_of(reply: &Reply) -> u8
    ensures { result ≡ status_of (reply_view reply.now) }
{
    match reply {
        Reply::Brief(brief) => status_of_brief(*brief),
        Reply::Done(_) => HP_OK,
    }
}

/// Returns the status of a reply with a small answer.
pub(crate) fn status_of_brief(brief: Brief) -> u8
    ensures { result ≡ status_of (reply_view (reply_of brief)) }
{
    match brief {
        Brief::Nothing | Brief::Number(_) | Brief::MaybeNumber(_) => HP_OK,
        Brief::Dom(error) => status_of_dom(error),
        Brief::Own(error) => status_of_own(error),
    }
}

// Returns the status of a small answer of a session that has ended.
fn brief_at_end(brief: Brief) -> u8
    ensures { result ≡ status_at_end (reply_view (reply_of brief)) }
{
    match brief {
        Brief::Nothing | Brief::Number(_) | Brief::MaybeNumber(_) => HP_ENDED,
        Brief::Dom(refusal) => status_of_dom(refusal),
        Brief::Own(refusal) => status_of_own(refusal),
    }
}

/// Returns the status of a reply of a session that has ended.
pub(crate) fn status_at_end(reply: &Reply) -> u8
    ensures { result ≡ status_at_end (reply_view reply.now) }
{
    match reply {
        Reply::Brief(brief) => brief_at_end(*brief),
        Reply::Done(_) => HP_ENDED,
    }
}

/// Returns the status of an answer while a session goes on.
pub(crate) fn as_answered(status: u8) -> u8
    ensures { result ≡ as_answered status }
{
    if status == HP_ENDED { HP_OK } else { status }
}
