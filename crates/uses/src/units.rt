//! Calls of `dom_units`.

ghost use Rattle.std.specs.Prelude.{◌≡◌, ◌++◌, take, IfOk, OnOk, OnErr};
ghost use Rattle.dom_model.specs.Forests.Texts.{units_of, is_well_formed_units};

use dom_units::Units;
use std::alloc::{AllocError, Global};

/// Returns the units of two texts, one after the other.
pub fn joined(alloc: Global, first: &str, second: &str) -> Result<Units, AllocError>
    ensures { IfOk result (λ units. units ≡ units_of first.now ++ units_of second.now) }
{
    let front = Units::from_str(alloc, first)?;
    let mut units = Units::from_str(alloc, second)?;
    units.splice(0, 0, front.units())?;
    Ok(units)
}

/// Truncates a text to at most `most` units. Returns whether each surrogate still has its partner.
pub fn shorten(text: &mut Units, most: usize) -> Result<bool, AllocError>
    ensures cut { OnOk result (text.new ≡ take most text.old) }
    ensures well_formed { IfOk result (λ whole. whole ≡ is_well_formed_units text.new) }
    ensures err { OnErr result (text.new ≡ text.old) }
{
    let len = text.len();
    if most < len {
        text.splice(most, len - most, &[])?;
    }
    Ok(text.is_well_formed())
}
