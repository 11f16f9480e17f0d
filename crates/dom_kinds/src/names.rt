//! Valid names (DOM Standard, "Name validation").
ghost use Rattle.std.specs.Prelude.{◌≡◌, ◌∷◌};
ghost use Rattle.std.specs.List.{list_all};
ghost use Rattle.dom_model.specs.Forests.Names.{is_ascii_letter, is_ascii_digit, is_ascii_white_space, is_other_name_start, may_follow_letter, may_follow_other, may_stand_in_attribute_name, may_stand_in_doctype_name, is_element_name, is_attribute_name, is_doctype_name};

/// Returns whether a name is valid for an element, or as the target of a processing instruction (DOM Standard, "Name validation").
pub fn is_element_name(name: &str) -> bool
    ensures { result ≡ is_element_name name.now }
{
    match name.as_bytes().split_first() {
        None => false,
        Some((first, rest)) => starts_name(*first, rest),
    }
}

/// Returns whether a name is valid for an attribute (DOM Standard, "Name validation").
pub fn is_attribute_name(name: &str) -> bool
    ensures { result ≡ is_attribute_name name.now }
{
    !name.is_empty() && all_in_attribute_name(name.as_bytes())
}

/// Returns whether a name is valid for a doctype; an empty one is (DOM Standard, "Name validation").
pub fn is_doctype_name(name: &str) -> bool
    ensures { result ≡ is_doctype_name name.now }
{
    name.as_bytes()
        .iter()
        .all(|byte| may_stand_in_doctype_name(*byte))
}

// Returns whether a first byte and the bytes after it are a valid element name.
fn starts_name(first: u8, rest: &[u8]) -> bool
    ensures { result ≡ is_element_name (first ∷ rest.now) }
{
    if is_ascii_letter(first) {
        all_follow_letter(rest)
    } else {
        is_other_name_start(first) && all_follow_other(rest)
    }
}

fn all_follow_letter(bytes: &[u8]) -> bool
    ensures { result ≡ list_all may_follow_letter bytes.now }
{
    bytes.iter().all(|byte| may_follow_letter(*byte))
}

fn all_follow_other(bytes: &[u8]) -> bool
    ensures { result ≡ list_all may_follow_other bytes.now }
{
    bytes.iter().all(|byte| may_follow_other(*byte))
}

fn all_in_attribute_name(bytes: &[u8]) -> bool
    ensures { result ≡ list_all may_stand_in_attribute_name bytes.now }
{
    bytes.iter().all(|byte| may_stand_in_attribute_name(*byte))
}

fn is_ascii_letter(byte: u8) -> bool
    ensures { result ≡ is_ascii_letter byte }
{
    (b'A' <= byte && byte <= b'Z') || (b'a' <= byte && byte <= b'z')
}

fn is_ascii_digit(byte: u8) -> bool
    ensures { result ≡ is_ascii_digit byte }
{
    b'0' <= byte && byte <= b'9'
}

fn is_ascii_white_space(byte: u8) -> bool
    ensures { result ≡ is_ascii_white_space byte }
{
    byte == 9 || byte == 10 || byte == 12 || byte == 13 || byte == 32
}

fn is_other_name_start(byte: u8) -> bool
    ensures { result ≡ is_other_name_start byte }
{
    byte == b':' || byte == b'_' || 128 <= byte
}

fn may_follow_letter(byte: u8) -> bool
    ensures { result ≡ may_follow_letter byte }
{
    !(is_ascii_white_space(byte) || byte == 0 || byte == b'/' || byte == b'>')
}

fn may_follow_other(byte: u8) -> bool
    ensures { result ≡ may_follow_other byte }
{
    is_ascii_letter(byte)
        || is_ascii_digit(byte)
        || byte == b'-'
        || byte == b'.'
        || is_other_name_start(byte)
}

fn may_stand_in_attribute_name(byte: u8) -> bool
    ensures { result ≡ may_stand_in_attribute_name byte }
{
    !(is_ascii_white_space(byte) || byte == 0 || byte == b'/' || byte == b'=' || byte == b'>')
}

fn may_stand_in_doctype_name(byte: u8) -> bool
    ensures { result ≡ may_stand_in_doctype_name byte }
{
    !(is_ascii_white_space(byte) || byte == 0 || byte == b'>')
}
