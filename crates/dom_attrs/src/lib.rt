//! The attributes of an element: values by name, in the order in which they were added.
#![tactic(auto)]

ghost use Rattle.std.specs.Prelude.{◌≡◌, ◌<◌, [], length, slice_get, option_map, option_copied, string_bytes, bytes_eq, IsTrue, ◌↔◌, IfOk, OnOk, OnErr, true};
ghost use Rattle.dom_model.specs.Forests.Attributes.{Attribute, attribute_value, attribute_names, with_attribute, without_attribute, is_attribute, are_among, same_attributes};
ghost use Rattle.dom_attrs.specs.Entries.{attribute_at};
ghost use Rattle.std.specs.List.{IsDistinct, list_any};

use dom_units::Units;
use indexmap::IndexMap;
use std::alloc::{AllocError, Global};
use std::marker::Model;

mod entries;

/// The attributes of an element (DOM Standard, "Interface Element").
///
/// Its view in contracts is the list of the attributes, in order. No two have the same name.
#[derive(Debug, Drop)]
pub struct Attrs {
    // `None` until the first attribute is set, because most nodes have no attributes
    map: Option<Box<IndexMap<String, Units>>>,
    alloc: Global,
}

impl Model for Attrs {
    ghost use Rattle.std.specs.Prelude.{List};
    ghost use Rattle.dom_model.specs.Forests.Attributes.{Attribute};
    ghost use Rattle.std.specs.Prelude.{string_eq};
    ghost use Rattle.std.specs.List.{IsDistinct};
    ghost use Rattle.std.specs.Map.{keys_of};
    ghost use Rattle.dom_attrs.specs.Entries.{entries_in, entry_attributes};

    ghost Value = { List Attribute };

    ghost view = { λ a. entry_attributes (entries_in a.map) };

    ghost invariant = { λ a. IsDistinct string_eq (keys_of (entries_in a.map)) };
}

impl Attrs {
    /// Returns an empty list of attributes. It takes no memory.
    pub fn new(alloc: Global) -> Attrs
        ensures { result ≡ [] }
    {
        Attrs { map: None, alloc }
    }

    /// Returns the number of attributes.
    pub fn len(&self) -> usize
        ensures len { result ≡ length self.now }

        // no two have the same name
        ensures distinct { IsDistinct bytes_eq (attribute_names self.now) }
    {
        match &self.map {
            None => 0,
            Some(map) => entries::count_in(map),
        }
    }

    /// Returns whether there are no attributes.
    pub fn is_empty(&self) -> bool
        ensures { IsTrue result ↔ (self.now ≡ []) }
    {
        self.len() == 0
    }

    /// Returns the value of the attribute with a name (DOM Standard, "get an attribute by name").
    pub fn get(&self, name: &str) -> Option<&Units>
        ensures { option_copied result ≡ attribute_value name.now self.now }
    {
        match &self.map {
            None => None,
            Some(map) => entries::value_in(map, name),
        }
    }

    /// Returns the name and the value of the attribute at an index.
    pub fn at(&self, index: usize) -> Option<(&str, &Units)>
        ensures { option_map attribute_at result ≡ slice_get self.now index }
    {
        match &self.map {
            None => None,
            Some(map) => entries::pair_in(map, index),
        }
    }

    /// Sets a value, and returns the old one. A new attribute is added at the end.
    pub fn set(&mut self, name: String, value: Units) -> Result<Option<Units>, AllocError>
        ensures old { IfOk result (λ old. old ≡ attribute_value (string_bytes name) self.old) }
        ensures ok { OnOk result (self.new ≡ with_attribute (string_bytes name) value self.old) }
        ensures err { OnErr result (self.new ≡ self.old) }
    {
        let mut map = entries::or_new(self.alloc, self.map.take())?;
        let outcome = entries::put_in(&mut map, name, value);
        self.map = Some(map);
        outcome
    }

    /// Removes the attribute with a name, and returns its value (DOM Standard, "remove an attribute by name"). The attributes after it move up.
    ///
    /// A table with room for more than three times the attributes left shrinks, if there is memory for a smaller one. It is freed if no attribute is
    /// left.
    pub fn remove(&mut self, name: &str) -> Option<Units>
        ensures value { result ≡ attribute_value name.now self.old }
        ensures rest { self.new ≡ without_attribute name.now self.old }
    {
        let mut map = self.map.take()?;
        let value = entries::take_from(&mut map, name);
        if entries::count_in(&map) > 0 {
            self.map = Some(map);
        }
        value
    }

    /// Returns whether both have the same attributes, in any order. If the order is the same, no name is looked up.
    pub fn same(&self, other: &Attrs) -> bool
        ensures { result ≡ same_attributes self.now other.now }
    {
        self.is_in_order_of(other) || (self.are_among(other) && other.are_among(self))
    }

    /// Returns a copy in memory of its own. No name is looked up, so colliding hashes do not slow it down.
    pub fn try_clone(&self, alloc: Global) -> Result<Attrs, AllocError>
        ensures { IfOk result (λ copy. copy ≡ self.now) }
    {
        match &self.map {
            None => Ok(Attrs::new(alloc)),
            Some(map) => Ok(Attrs {
                map: Some(entries::copied(alloc, map)?),
                alloc,
            }),
        }
    }

    // Returns true only if both have the same attributes in the same order.
    fn is_in_order_of(&self, other: &Attrs) -> bool
        ensures { result ≡ true → self.now ≡ other.now }
    {
        if self.len() != other.len() {
            return false;
        }
        for index in 0..self.len() {
            if !self.is_alike_at(other, index) {
                return false;
            }
        }
        true
    }

    // Returns true only if both have the same attribute at an index. It is below both lengths.
    fn is_alike_at(&self, other: &Attrs, index: usize) -> bool
        requires within { index < length self.now }
        requires other_within { index < length other.now }
        ensures { result ≡ true → slice_get self.now index ≡ slice_get other.now index }
    {
        let (name, value) = self.pair_at(index);
        let (other_name, other_value) = other.pair_at(index);
        name == other_name && value.units() == other_value.units()
    }

    // Returns whether the other list has each of these attributes.
    fn are_among(&self, other: &Attrs) -> bool
        ensures { result ≡ are_among self.now other.now }
    {
        for index in 0..self.len() {
            let (name, value) = self.pair_at(index);
            if !other.has(name, value) {
                return false;
            }
        }
        true
    }

    // Returns whether there is an attribute with a name and a value.
    fn has(&self, name: &str, value: &Units) -> bool
        ensures { result ≡ list_any (is_attribute (record { name = name.now; value = value.now }))
            self.now }
    {
        match &self.map {
            None => false,
            Some(map) => entries::has_in(map, name, value),
        }
    }

    // Returns the attribute at an index below the length.
    fn pair_at(&self, index: usize) -> (&str, &Units)
        requires { index < length self.now }
        ensures { slice_get self.now index ≡ Some (attribute_at result) }
    {
        self.at(index).unwrap()
    }
}
