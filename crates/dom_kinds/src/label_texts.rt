//! The texts of a label: its name and its ids.

ghost use Rattle.std.specs.Prelude.{◌≡◌, [], IfOk, string_bytes};
ghost use Rattle.dom_kinds.specs.LabelTexts.{name_in, public_in, system_in};

use arrayvec::ArrayString;
use std::alloc::{AllocError, Global};

/// A name, or the name, the public id and the system id of a doctype. Few nodes are doctypes with an id.
///
/// A name of at most 8 bytes is stored inline, so most nodes take no memory for their texts.
#[derive(Debug, Drop)]
pub(crate) enum LabelTexts {
    Short(ArrayString<8>),
    Long(Box<String>),
    Doctype(Box<(String, String, String)>),
}

impl LabelTexts {
    /// Returns a name without ids. It takes memory only if the name has more than 8 bytes.
    pub(crate) fn named(alloc: Global, name: &str) -> Result<LabelTexts, AllocError>
        ensures name { IfOk result (λ made. name_in made ≡ name.now) }
        ensures public_id { IfOk result (λ made. public_in made ≡ []) }
        ensures system_id { IfOk result (λ made. system_in made ≡ []) }
    {
        if let Ok(short) = ArrayString::from(name) {
            return Ok(LabelTexts::Short(short));
        }
        let name = String::from_str(alloc, name)?;
        Ok(LabelTexts::Long(Box::new(alloc, name)?))
    }

    pub(crate) fn name(&self) -> &str
        ensures { result.now ≡ name_in self.now }
    {
        match self {
            LabelTexts::Short(name) => name.as_str(),
            LabelTexts::Long(name) => name.as_str(),
            LabelTexts::Doctype(texts) => texts.0.as_str(),
        }
    }

    pub(crate) fn public_id(&self) -> &str
        ensures { result.now ≡ public_in self.now }
    {
        match self {
            LabelTexts::Doctype(texts) => texts.1.as_str(),
            LabelTexts::Short(_) | LabelTexts::Long(_) => "",
        }
    }

    pub(crate) fn system_id(&self) -> &str
        ensures { result.now ≡ system_in self.now }
    {
        match self {
            LabelTexts::Doctype(texts) => texts.2.as_str(),
            LabelTexts::Short(_) | LabelTexts::Long(_) => "",
        }
    }

    /// Returns a copy in memory of its own.
    pub(crate) fn try_clone(&self, alloc: Global) -> Result<LabelTexts, AllocError>
        ensures name { IfOk result (λ copy. name_in copy ≡ name_in self.now) }
        ensures public_id { IfOk result (λ copy. public_in copy ≡ public_in self.now) }
        ensures system_id { IfOk result (λ copy. system_in copy ≡ system_in self.now) }
    {
        match self {
            LabelTexts::Short(name) => LabelTexts::named(alloc, name.as_str()),
            LabelTexts::Long(name) => LabelTexts::named(alloc, name.as_str()),
            LabelTexts::Doctype(texts) => Ok(LabelTexts::Doctype(copied(alloc, texts)?)),
        }
    }
}

// Returns a copy of the texts of a doctype in memory of its own.
fn copied(
    alloc: Global,
    texts: &(String, String, String),
) -> Result<Box<(String, String, String)>, AllocError>
    ensures name { IfOk result (λ copy. string_bytes copy.value.0 ≡ string_bytes texts.now.0) }
    ensures public_id { IfOk result (λ copy. string_bytes copy.value.1 ≡ string_bytes texts.now.1) }
    ensures system_id { IfOk result (λ copy. string_bytes copy.value.2 ≡ string_bytes texts.now.2) }
{
    let name = String::from_str(alloc, texts.0.as_str())?;
    let public_id = String::from_str(alloc, texts.1.as_str())?;
    let system_id = String::from_str(alloc, texts.2.as_str())?;
    Ok(Box::new(alloc, (name, public_id, system_id))?)
}
