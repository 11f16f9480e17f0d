//! The data or attributes of a node.

ghost use Rattle.std.specs.Prelude.{◌≡◌, ◌-◌, ◌<◌, ◌≤◌, [], Some, take, drop, length, slice_get, option_map, option_copied, unwrap_or, string_bytes, bytes_eq, IfOk, OnOk, OnErr};
ghost use Rattle.std.specs.List.{IsDistinct};
ghost use Rattle.dom_model.specs.Forests.Attributes.{attribute_value, attribute_names, with_attribute, without_attribute, same_attributes};
ghost use Rattle.dom_model.specs.Forests.Texts.{spliced};
ghost use Rattle.dom_model.specs.Commands.Answer.{with_text};
ghost use Rattle.dom_attrs.specs.Entries.{attribute_at};
ghost use Rattle.dom_payload.specs.Payloads.{payload_text, attributes_in};

use crate::tail::Tail;
use dom_attrs::Attrs;
use dom_tree::Body;
use dom_units::{Units, units_within};
use std::alloc::{AllocError, Global};
use std::marker::Model;
use std::mem;

// Data and attributes, if there are both.
#[derive(Drop)]
struct Parts {
    text: Units,
    attrs: Attrs,
}

// Data or attributes. No node has both, so both are stored in a block of their own, and most nodes stay small.
#[derive(Drop)]
enum Payload {
    Nothing,
    Data(Units),
    Tail(Box<Tail>),
    Attributes(Attrs),
    Both(Box<Parts>),
}

impl Payload {
    // Returns data alone, if there is any.
    fn data(text: Units) -> Payload
        ensures text { payload_text result ≡ text }
        ensures attributes { attributes_in result ≡ [] }
    {
        if text.is_empty() {
            return Payload::Nothing;
        }
        Payload::Data(text)
    }

    // Returns the tail of a split text, unless it is empty.
    fn tail(tail: Box<Tail>) -> Payload
        ensures text { payload_text result ≡ tail.value }
        ensures attributes { attributes_in result ≡ [] }
    {
        if tail.is_empty() {
            return Payload::Nothing;
        }
        Payload::Tail(tail)
    }

    // Returns attributes alone, if there are any.
    fn attributes(attrs: Attrs) -> Payload
        ensures text { payload_text result ≡ [] }
        ensures attributes { attributes_in result ≡ attrs }
    {
        if attrs.is_empty() {
            return Payload::Nothing;
        }
        Payload::Attributes(attrs)
    }

    // Returns both, without empty ones, which are freed.
    fn both(parts: Box<Parts>) -> Payload
        ensures text { payload_text result ≡ parts.value.text }
        ensures attributes { attributes_in result ≡ parts.value.attrs }
    {
        if parts.text.is_empty() && parts.attrs.is_empty() {
            return Payload::Nothing;
        }
        Payload::Both(parts)
    }
}

/// The data of a node in UTF-16 units, and its attributes in the order in which their names were first set.
///
/// An element without attributes takes no memory beside its node; a Text or a Comment takes that of its units.
///
/// Kinds without data have an empty text. Kinds other than Element have no attributes.
#[derive(Drop)]
pub struct Content {
    held: Payload,
}

impl Model for Content {
    ghost use Rattle.dom_model.specs.Worlds.World.{Content};
    ghost use Rattle.dom_payload.specs.Payloads.{payload_text, attributes_in};

    ghost Value = { Content };

    ghost view = { λ c. record { text = payload_text c.held; attributes = attributes_in c.held } };
}

impl Content {
    /// Returns a payload without data and attributes. It takes no memory.
    pub fn nothing() -> Content
        ensures { result ≡ with_text [] }
    {
        Content {
            held: Payload::Nothing,
        }
    }

    /// Returns a payload of data and attributes. It takes memory if there are both.
    pub fn new(alloc: Global, text: Units, attrs: Attrs) -> Result<Content, AllocError>
        ensures { IfOk result (λ made. made ≡ record { text = text; attributes = attrs }) }
    {
        if attrs.is_empty() {
            return Ok(Content {
                held: Payload::data(text),
            });
        }
        if text.is_empty() {
            return Ok(Content {
                held: Payload::Attributes(attrs),
            });
        }
        let parts = Box::new(alloc, Parts { text, attrs })?;
        Ok(Content {
            held: Payload::Both(parts),
        })
    }

    /// Returns a payload of data alone. It takes no memory beside that of the data.
    pub fn of_text(alloc: Global, text: Units) -> Result<Content, AllocError>
        ensures { IfOk result (λ made. made ≡ with_text text) }
    {
        Content::new(alloc, text, Attrs::new(alloc))
    }

    /// Returns a copy.
    pub fn try_clone(&self, alloc: Global) -> Result<Content, AllocError>
        ensures { IfOk result (λ copy. copy ≡ self.now) }
    {
        match &self.held {
            Payload::Nothing => Ok(Content::nothing()),
            Payload::Data(text) => {
                let text = text.try_clone(alloc)?;
                Ok(Content {
                    held: Payload::Data(text),
                })
            }
            Payload::Tail(tail) => {
                let text = Units::from_units(alloc, tail.units())?;
                Ok(Content {
                    held: Payload::data(text),
                })
            }
            Payload::Attributes(attrs) => {
                let attrs = attrs.try_clone(alloc)?;
                Ok(Content {
                    held: Payload::Attributes(attrs),
                })
            }
            Payload::Both(parts) => {
                let text = parts.text.try_clone(alloc)?;
                let attrs = parts.attrs.try_clone(alloc)?;
                Content::new(alloc, text, attrs)
            }
        }
    }

    /// Returns a copy of the attributes.
    pub fn copied_attributes(&self, alloc: Global) -> Result<Attrs, AllocError>
        ensures { IfOk result (λ copy. copy ≡ self.now.attributes) }
    {
        match self.attrs() {
            None => Ok(Attrs::new(alloc)),
            Some(attrs) => attrs.try_clone(alloc),
        }
    }

    // Borrows the attributes, if there are any.
    fn attrs(&self) -> Option<&Attrs>
        ensures { unwrap_or (option_copied result) [] ≡ self.now.attributes }
    {
        match &self.held {
            Payload::Nothing | Payload::Data(_) | Payload::Tail(_) => None,
            Payload::Attributes(attrs) => Some(attrs),
            Payload::Both(parts) => Some(&parts.attrs),
        }
    }

    /// Borrows the data.
    pub fn text(&self) -> &[u16]
        ensures { result.now ≡ self.now.text }
    {
        match &self.held {
            Payload::Nothing | Payload::Attributes(_) => &[],
            Payload::Data(text) => text.units(),
            Payload::Tail(tail) => tail.units(),
            Payload::Both(parts) => parts.text.units(),
        }
    }

    /// Returns the number of attributes.
    pub fn attribute_count(&self) -> usize
        ensures len { result ≡ length self.now.attributes }

        // no two have the same name
        ensures distinct { IsDistinct bytes_eq (attribute_names self.now.attributes) }
    {
        match self.attrs() {
            None => 0,
            Some(attrs) => attrs.len(),
        }
    }

    /// Returns the value of the attribute of a name ("get an attribute by name").
    pub fn attribute(&self, name: &str) -> Option<&Units>
        ensures { option_copied result ≡ attribute_value name.now self.now.attributes }
    {
        match self.attrs() {
            None => None,
            Some(attrs) => attrs.get(name),
        }
    }

    /// Returns the name and value of the attribute at an index.
    pub fn attribute_at(&self, index: usize) -> Option<(&str, &Units)>
        ensures { option_map attribute_at result ≡ slice_get self.now.attributes index }
    {
        match self.attrs() {
            None => None,
            Some(attrs) => attrs.at(index),
        }
    }

    /// Returns the name and value of the attribute at an index below their number.
    pub fn pair_at(&self, index: usize) -> (&str, &Units)
        requires { index < length self.now.attributes }
        ensures { slice_get self.now.attributes index ≡ Some (attribute_at result) }
    {
        self.attribute_at(index).unwrap()
    }

    /// Returns whether both have the same attributes, in any order.
    pub fn same_attributes(&self, other: &Content) -> bool
        ensures { result ≡ same_attributes self.now.attributes other.now.attributes }
    {
        match self.attrs() {
            None => other.attribute_count() == 0,
            Some(attrs) => match other.attrs() {
                None => self.attribute_count() == 0,
                Some(others) => attrs.same(others),
            },
        }
    }

    /// Replaces `count` units of the data from `at` on by `added` ("replace data").
    ///
    /// If neither units nor attributes are left, all memory is freed.
    pub fn splice(
        &mut self,
        alloc: Global,
        at: usize,
        count: usize,
        added: &[u16],
    ) -> Result<(), AllocError>
        requires within { at ≤ length self.old.text }
        requires enough { count ≤ length self.old.text - at }
        ensures ok { OnOk result (self.new ≡ record self.old
            { text = spliced at count added.now self.old.text }) }
        ensures err { OnErr result (self.new ≡ self.old) }
    {
        let mut text = match mem::replace(&mut self.held, Payload::Nothing) {
            Payload::Nothing => Units::new(alloc),
            Payload::Data(text) => text,
            Payload::Tail(mut tail) => {
                let outcome = tail.splice(at, count, added);
                self.held = Payload::tail(tail);
                return outcome;
            }
            held => {
                self.held = held;
                return self.splice_copy(alloc, at, count, added);
            }
        };
        let outcome = text.splice(at, count, added);
        self.held = Payload::data(text);
        outcome
    }

    /// Reserves room for `more` units of data. A splice that grows the data by at most `more` units then takes no memory.
    ///
    /// Content with attributes gets no room: no node has both, and [`Content::splice`] copies such content.
    pub fn reserve(&mut self, alloc: Global, more: usize) -> Result<(), AllocError>
        ensures { self.new ≡ self.old }
    {
        match &mut self.held {
            Payload::Nothing => {
                let mut text = Units::new(alloc);
                text.reserve(more)?;
                self.held = Payload::Data(text);
                Ok(())
            }
            Payload::Data(text) => text.reserve(more),
            Payload::Tail(tail) => tail.reserve(more),
            Payload::Attributes(_) | Payload::Both(_) => Ok(()),
        }
    }

    // Does so in a copy of data and attributes, if there are both. No node has both.
    fn splice_copy(
        &mut self,
        alloc: Global,
        at: usize,
        count: usize,
        added: &[u16],
    ) -> Result<(), AllocError>
        requires within { at ≤ length self.old.text }
        requires enough { count ≤ length self.old.text - at }
        ensures ok { OnOk result (self.new ≡ record self.old
            { text = spliced at count added.now self.old.text }) }
        ensures err { OnErr result (self.new ≡ self.old) }
    {
        let mut text = Units::from_units(alloc, self.text())?;
        let attrs = self.copied_attributes(alloc)?;
        text.splice(at, count, added)?;
        *self = Content::new(alloc, text, attrs)?;
        Ok(())
    }

    /// Splits the units from `at` on off the data, and returns them as the data of another node ("split").
    ///
    /// Copies the shorter part. If that is the front, the tail stays in the original buffer.
    pub fn split_off(&mut self, alloc: Global, at: usize) -> Result<Content, AllocError>
        requires { at ≤ length self.old.text }
        ensures tail { IfOk result (λ tail. tail ≡ with_text (drop at self.old.text)) }
        ensures head { OnOk result (self.new ≡ record self.old { text = take at self.old.text }) }
        ensures err { OnErr result (self.new ≡ self.old) }
    {
        let count = self.text().len() - at;
        if at < count && self.attrs().is_none() {
            return self.split_in_place(alloc, at);
        }
        let tail = Units::from_units(alloc, units_within(self.text(), at, count))?;
        let tail = Content::of_text(alloc, tail)?;
        self.splice(alloc, at, count, &[])?;
        Ok(tail)
    }

    // Splits data alone: copies the front, and keeps the tail in the original buffer.
    fn split_in_place(&mut self, alloc: Global, at: usize) -> Result<Content, AllocError>
        requires within { at ≤ length self.old.text }
        requires alone { self.old.attributes ≡ [] }
        ensures tail { IfOk result (λ tail. tail ≡ with_text (drop at self.old.text)) }
        ensures head { OnOk result (self.new ≡ record self.old { text = take at self.old.text }) }
        ensures err { OnErr result (self.new ≡ self.old) }
    {
        let head = Units::from_units(alloc, units_within(self.text(), 0, at))?;
        let mut tail = self.take_data(alloc)?;
        self.held = Payload::data(head);
        tail.pass(at);
        Ok(Content {
            held: Payload::tail(tail),
        })
    }

    // Borrows the data from its buffer.
    fn take_data(&mut self, alloc: Global) -> Result<Box<Tail>, AllocError>
        ensures taken { IfOk result (λ tail. tail.value ≡ self.old.text) }
        ensures err { OnErr result (self.new ≡ self.old) }
    {
        match mem::replace(&mut self.held, Payload::Nothing) {
            Payload::Tail(tail) => Ok(tail),
            Payload::Data(text) => {
                let Ok(mut tail) = Box::new(alloc, Tail::new(alloc)) else {
                    self.held = Payload::Data(text);
                    return Err(AllocError);
                };
                *tail = Tail::of(text);
                Ok(tail)
            }
            held => {
                self.held = held;
                let text = Units::from_units(alloc, self.text())?;
                let tail = Box::new(alloc, Tail::of(text))?;
                Ok(tail)
            }
        }
    }

    /// Sets an attribute: changes its value in place, or appends a new one. Returns the old value.
    pub fn set_attribute(
        &mut self,
        alloc: Global,
        name: String,
        value: Units,
    ) -> Result<Option<Units>, AllocError>
        ensures old { IfOk result (λ old. old ≡ attribute_value (string_bytes name)
            self.old.attributes) }
        ensures ok { OnOk result (self.new ≡ record self.old
            { attributes = with_attribute (string_bytes name) value self.old.attributes }) }
        ensures err { OnErr result (self.new ≡ self.old) }
    {
        let mut attrs = match mem::replace(&mut self.held, Payload::Nothing) {
            Payload::Nothing => Attrs::new(alloc),
            Payload::Attributes(attrs) => attrs,
            held => {
                self.held = held;
                return self.set_in_copy(alloc, name, value);
            }
        };
        let outcome = attrs.set(name, value);
        self.held = Payload::attributes(attrs);
        outcome
    }

    // Does so in a copy of data and attributes, if there are both. No node has both.
    fn set_in_copy(
        &mut self,
        alloc: Global,
        name: String,
        value: Units,
    ) -> Result<Option<Units>, AllocError>
        ensures old { IfOk result (λ old. old ≡ attribute_value (string_bytes name)
            self.old.attributes) }
        ensures ok { OnOk result (self.new ≡ record self.old
            { attributes = with_attribute (string_bytes name) value self.old.attributes }) }
        ensures err { OnErr result (self.new ≡ self.old) }
    {
        let text = Units::from_units(alloc, self.text())?;
        let mut attrs = self.copied_attributes(alloc)?;
        let old = attrs.set(name, value)?;
        *self = Content::new(alloc, text, attrs)?;
        Ok(old)
    }

    /// Removes the attribute of a name ("remove an attribute by name"), and returns its value. Those after it move up.
    ///
    /// If neither attributes nor units are left, all memory is freed.
    pub fn remove_attribute(&mut self, name: &str) -> Option<Units>
        ensures value { result ≡ attribute_value name.now self.old.attributes }
        ensures rest { self.new ≡ record self.old {
          attributes = without_attribute name.now
              self.old.attributes;
        } }
    {
        match mem::replace(&mut self.held, Payload::Nothing) {
            Payload::Attributes(mut attrs) => {
                let value = attrs.remove(name);
                self.held = Payload::attributes(attrs);
                value
            }
            Payload::Both(mut parts) => {
                let value = parts.attrs.remove(name);
                self.held = Payload::both(parts);
                value
            }
            held => {
                self.held = held;
                None
            }
        }
    }
}

impl Body for Content {
    ghost use Rattle.std.specs.Prelude.{length};

    ghost length = { λ c. length c.text };

    fn length(&self) -> usize {
        self.text().len()
    }
}
