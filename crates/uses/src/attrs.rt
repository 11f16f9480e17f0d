//! Calls of `dom_attrs`.

ghost use Rattle.std.specs.Prelude.{◌≡◌, Some, is_none, string_bytes, codes, if◌then◌else◌, IfOk, OnOk, OnErr};
ghost use Rattle.dom_model.specs.Forests.Attributes.{attribute_value, with_attribute};
ghost use Rattle.dom_model.specs.Forests.Texts.{units_of};

use dom_attrs::Attrs;
use dom_units::Units;
use std::alloc::{AllocError, Global};

/// Sets an attribute if there is none with the name, and returns whether it did.
pub fn set_if_absent(attrs: &mut Attrs, name: String, value: Units) -> Result<bool, AllocError>
    ensures was_absent { IfOk result (λ absent. absent
        ≡ is_none (attribute_value (string_bytes name) attrs.old)) }
    ensures set { IfOk result (λ absent. attrs.new
        ≡ (if absent then with_attribute (string_bytes name) value attrs.old else attrs.old)) }
    ensures err { OnErr result (attrs.new ≡ attrs.old) }
{
    if attrs.get(name.as_str()).is_some() {
        return Ok(false);
    }
    let _ = attrs.set(name, value)?;
    Ok(true)
}

/// Sets the title of an element, and drops the old one.
pub fn set_title(alloc: Global, attrs: &mut Attrs, text: &str) -> Result<(), AllocError>
    ensures reads { OnOk result (attribute_value (codes "title") attrs.new
        ≡ Some (units_of text.now)) }
    ensures err { OnErr result (attrs.new ≡ attrs.old) }
{
    let name = String::from_str(alloc, "title")?;
    let value = Units::from_str(alloc, text)?;
    let _ = attrs.set(name, value)?;
    Ok(())
}
