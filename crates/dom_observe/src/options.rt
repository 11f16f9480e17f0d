//! The options of a registration, as given and as resolved (DOM Standard, "Interface MutationObserver").

ghost use Rattle.std.specs.Prelude.{◌≡◌, IfOk, string_bytes, bytes_eq, map};
ghost use Rattle.std.specs.List.{list_any};
ghost use Rattle.dom_model.specs.MutationObservers.Records.{settled, name_passes};

use dom_model::DomError;
use std::alloc::{AllocError, Global};
use std::marker::Model;

/// The members of `MutationObserverInit`; an absent one is none.
#[derive(Debug, Drop)]
pub struct RawOptions {
    pub child_list: Option<bool>,
    pub attributes: Option<bool>,
    pub character_data: Option<bool>,
    pub subtree: Option<bool>,
    pub attribute_old_value: Option<bool>,
    pub character_data_old_value: Option<bool>,
    pub attribute_filter: Option<Vec<String>>,
}

impl Model for RawOptions {
    ghost use Rattle.dom_model.specs.MutationObservers.GivenOptions.{GivenOptions};
    ghost use Rattle.dom_observe.specs.Names.{names_of};

    ghost Value = { GivenOptions };

    ghost view = { λ g. record {
      child_list = g.child_list;
      attributes = g.attributes;
      character_data = g.character_data;
      subtree = g.subtree;
      attribute_old_value = g.attribute_old_value;
      character_data_old_value = g.character_data_old_value;
      attribute_filter = names_of g.attribute_filter;
    } };
}

/// The resolved options of a registration.
#[derive(Debug, Drop)]
pub struct Options {
    pub child_list: bool,
    pub attributes: bool,
    pub character_data: bool,
    pub subtree: bool,
    pub attribute_old_value: bool,
    pub character_data_old_value: bool,
    pub attribute_filter: Option<Vec<String>>,
}

impl Model for Options {
    ghost use Rattle.dom_model.specs.Worlds.World.{Options as PlainOptions};
    ghost use Rattle.dom_observe.specs.Names.{names_of};

    ghost Value = { PlainOptions };

    ghost view = { λ o. record {
      child_list = o.child_list;
      attributes = o.attributes;
      character_data = o.character_data;
      subtree = o.subtree;
      attribute_old_value = o.attribute_old_value;
      character_data_old_value = o.character_data_old_value;
      attribute_filter = names_of o.attribute_filter;
    } };
}

/// Returns the resolved options, or the refusal ("observe", the steps before the registration).
pub fn resolve_options(given: RawOptions) -> Result<Options, DomError>
    ensures { result ≡ settled given }
{
    let attributes = given.attributes.unwrap_or(
        given.attribute_old_value.is_some() || given.attribute_filter.is_some(),
    );
    let character_data = given
        .character_data
        .unwrap_or(given.character_data_old_value.is_some());
    let options = Options {
        child_list: given.child_list.unwrap_or(false),
        attributes,
        character_data,
        subtree: given.subtree.unwrap_or(false),
        attribute_old_value: given.attribute_old_value.unwrap_or(false),
        character_data_old_value: given.character_data_old_value.unwrap_or(false),
        attribute_filter: given.attribute_filter,
    };
    if !(options.child_list || options.attributes || options.character_data) {
        return Err(DomError::TypeError);
    }
    if (options.attribute_old_value || options.attribute_filter.is_some()) && !options.attributes {
        return Err(DomError::TypeError);
    }
    if options.character_data_old_value && !options.character_data {
        return Err(DomError::TypeError);
    }
    Ok(options)
}

// Copies names.
fn copied(alloc: Global, names: &[String]) -> Result<Vec<String>, AllocError>
    ensures { IfOk result (λ copy. map string_bytes copy.items ≡ map string_bytes names.now) }
{
    let mut copy = Vec::new(alloc);
    for name in names {
        copy.push(String::from_str(alloc, name.as_str())?)?;
    }
    Ok(copy)
}

// Returns whether the name is one of the names.
fn is_one_of(name: &str, names: &[String]) -> bool
    ensures { result ≡ list_any (λ other. bytes_eq name.now (string_bytes other)) names.now }
{
    names.iter().any(|other| name == other.as_str())
}

impl Options {
    ghost use Rattle.dom_observe.specs.Names.{given_name};

    /// Returns a copy.
    pub fn try_clone(&self, alloc: Global) -> Result<Options, AllocError>
        ensures { IfOk result (λ copy. copy ≡ self.now) }
    {
        let attribute_filter = match &self.attribute_filter {
            None => None,
            Some(names) => Some(copied(alloc, names.as_slice())?),
        };
        Ok(Options {
            child_list: self.child_list,
            attributes: self.attributes,
            character_data: self.character_data,
            subtree: self.subtree,
            attribute_old_value: self.attribute_old_value,
            character_data_old_value: self.character_data_old_value,
            attribute_filter,
        })
    }

    // Returns whether an attribute of a name passes the filter, by a scan of its names.
    pub(crate) fn passes(&self, name: Option<&str>) -> bool
        ensures { result ≡ name_passes self.now.attribute_filter (given_name name.entry) }
    {
        match &self.attribute_filter {
            None => true,
            Some(names) => match name {
                None => false,
                Some(name) => is_one_of(name, names.as_slice()),
            },
        }
    }
}
