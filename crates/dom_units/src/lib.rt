//! Character data and attribute values, as lists of UTF-16 units. Offsets count units, as in the standard.
#![tactic(auto)]

ghost use Rattle.std.specs.Prelude.{◌≡◌, ◌-◌, ◌≤◌, [], length, IsTrue, ◌↔◌, IfOk, OnOk, OnErr, option_map, string_bytes};
ghost use Rattle.dom_model.specs.Forests.Texts.{units_of, is_well_formed_units, text_of_units, substring, spliced};

use std::alloc::{AllocError, Global};
use std::marker::Model;

mod room;
mod scan;
mod shift;

/// A text as its UTF-16 units. It may contain lone surrogates (Infra, "Strings").
///
/// Its view in contracts is the list of its units.
#[derive(Debug, Drop)]
pub struct Units {
    units: Vec<u16>,
}

impl Model for Units {
    ghost use Rattle.std.specs.Prelude.{List, ℕ};

    ghost Value = { List ℕ };

    ghost view = { λ u. u.units.items };
}

impl Clone for Units {
    ghost is_clone = { λ units copy. copy ≡ units };

    // uses this text's own allocator, because the clone of a map of texts takes none
    fn clone(&self) -> Result<Units, AllocError> {
        self.try_clone(*self.units.allocator())
    }
}

impl Units {
    /// Returns an empty text. It takes no memory.
    pub fn new(alloc: Global) -> Units
        ensures { result ≡ [] }
    {
        Units {
            units: Vec::new(alloc),
        }
    }

    /// Returns the UTF-16 units of a text: two for a code point from U+10000 on, otherwise one.
    pub fn from_str(alloc: Global, text: &str) -> Result<Units, AllocError>
        ensures { IfOk result (λ units. units ≡ units_of text.now) }
    {
        let mut units = scan::encode(alloc, text)?;
        units.shrink_to_fit();
        Ok(Units { units })
    }

    /// Returns a text with a copy of the units, well-formed or not.
    pub fn from_units(alloc: Global, units: &[u16]) -> Result<Units, AllocError>
        ensures { IfOk result (λ copy. copy ≡ units.now) }
    {
        let units = Vec::from_slice(alloc, units)?;
        Ok(Units { units })
    }

    /// Returns the number of units.
    pub fn len(&self) -> usize
        ensures { result ≡ length self.now }
    {
        self.units.len()
    }

    /// Returns whether there are no units.
    pub fn is_empty(&self) -> bool
        ensures { IsTrue result ↔ (self.now ≡ []) }
    {
        self.units.is_empty()
    }

    /// Returns the units.
    pub fn units(&self) -> &[u16]
        ensures { result.now ≡ self.now }
    {
        &self.units[..]
    }

    /// Returns `count` units from the offset `at` on (DOM Standard, "substring data").
    pub fn slice(&self, at: usize, count: usize) -> &[u16]
        requires within { at ≤ length self.now }
        requires enough { count ≤ length self.now - at }
        ensures { result.now ≡ substring at count self.now }
    {
        units_within(self.units.as_slice(), at, count)
    }

    /// Replaces `count` units from the offset `at` on by `added` (DOM Standard, "replace data").
    ///
    /// If the text grows, it takes memory at most once, before any unit moves. The units after the replaced ones move once. A buffer for more than
    /// twice the length and more than 32 units shrinks, if there is memory for a smaller one. The buffer of an empty text is freed.
    pub fn splice(&mut self, at: usize, count: usize, added: &[u16]) -> Result<(), AllocError>
        requires within { at ≤ length self.old }
        requires enough { count ≤ length self.old - at }
        ensures ok { OnOk result (self.new ≡ spliced at count added.now self.old) }
        ensures err { OnErr result (self.new ≡ self.old) }
    {
        let outcome = shift::splice(&mut self.units, at, count, added);
        room::give_back(&mut self.units);
        outcome
    }

    /// Reserves room for `more` units. A splice that grows the text by at most `more` units then takes no memory.
    ///
    /// That splice shrinks the buffer if the text then fills less than half of it.
    pub fn reserve(&mut self, more: usize) -> Result<(), AllocError>
        ensures { self.new ≡ self.old }
    {
        self.units.reserve(more)
    }

    /// Returns whether the units are well-formed: each surrogate has its partner.
    pub fn is_well_formed(&self) -> bool
        ensures { result ≡ is_well_formed_units self.now }
    {
        scan::is_well_formed(self.units.as_slice())
    }

    /// Returns the text as UTF-8; `None` if a surrogate has no partner.
    pub fn to_text(&self, alloc: Global) -> Result<Option<String>, AllocError>
        ensures { IfOk result (λ text. option_map string_bytes text ≡ text_of_units self.now) }
    {
        text_of(alloc, self.units.as_slice())
    }

    /// Returns a copy in memory of its own.
    pub fn try_clone(&self, alloc: Global) -> Result<Units, AllocError>
        ensures { IfOk result (λ copy. copy ≡ self.now) }
    {
        let units = Vec::from_slice(alloc, self.units.as_slice())?;
        Ok(Units { units })
    }
}

/// Returns the text of the units as UTF-8; `None` if a surrogate has no partner.
pub fn text_of(alloc: Global, units: &[u16]) -> Result<Option<String>, AllocError>
    ensures { IfOk result (λ text. option_map string_bytes text ≡ text_of_units units.now) }
{
    let text = String::from_utf16(alloc, units)?;
    Ok(text.ok())
}

/// Returns `count` of the units from the offset `at` on (DOM Standard, "substring data").
pub fn units_within(units: &[u16], at: usize, count: usize) -> &[u16]
    requires within { at ≤ length units.now }
    requires enough { count ≤ length units.now - at }
    ensures { result.now ≡ substring at count units.now }
{
    &units[at..at + count]
}
