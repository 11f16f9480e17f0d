//! Encodes text as UTF-16 units, and checks whether units are well-formed.
ghost use Rattle.std.specs.Prelude.{◌≡◌, ◌∷◌, IfOk};
ghost use Rattle.std.specs.Char.Utf16.{is_low_surrogate, is_high_surrogate};
ghost use Rattle.dom_model.specs.Forests.Texts.{units_of, is_well_formed_units};

use std::alloc::{AllocError, Global};

// Returns the UTF-16 units of a text. There are at most as many as it has bytes.
pub(crate) fn encode(alloc: Global, text: &str) -> Result<Vec<u16>, AllocError>
    ensures { IfOk result (λ units. units.items ≡ units_of text.now) }
{
    let mut units = Vec::with_capacity(alloc, text.len())?;
    for character in text.chars() {
        let mut pair = [0u16; 2];
        units.extend_from_slice(character.encode_utf16(&mut pair))?;
    }
    Ok(units)
}

// Returns whether each surrogate has its partner.
pub(crate) fn is_well_formed(units: &[u16]) -> bool
    ensures { result ≡ is_well_formed_units units.now }
{
    let mut wants_low = false;
    for unit in units {
        if wants_low != is_low_surrogate(*unit) {
            return false;
        }
        wants_low = is_high_surrogate(*unit);
    }
    !wants_low
}

fn is_high_surrogate(unit: u16) -> bool
    ensures { result ≡ is_high_surrogate unit }
{
    0xD800 <= unit && unit < 0xDC00
}

fn is_low_surrogate(unit: u16) -> bool
    ensures { result ≡ is_low_surrogate unit }
{
    0xDC00 <= unit && unit < 0xE000
}
