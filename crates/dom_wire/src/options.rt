//! Reading the options of `observe`.

ghost use Rattle.std.specs.Prelude.{◌≡◌, Some, map, string_bytes, codes};
ghost use Rattle.serde_json.specs.Find.{get, as_bool, as_str};
ghost use Rattle.serde_json.specs.View.{view, items_view};
ghost use Rattle.dom_model.specs.Commands.Line.{if_member, each_item, list_in, options_in};
ghost use Rattle.dom_observe.specs.Names.{names_of};
ghost use Rattle.dom_wire.specs.Reads.{Decodes};

use crate::read_error::ReadError;
use dom_commands::RawOptions;
use dom_model::OwnError;
use serde_json::Value;
use std::alloc::Global;

/// Reads an object. Each member of `MutationObserverInit` must have its type; other members are skipped.
pub(crate) fn options_in(alloc: Global, value: &Value) -> Result<RawOptions, ReadError>
    ensures { Decodes (λ options. options) result (options_in (view value.now)) }
{
    match names_member(alloc, value) {
        Ok(names) => match options_with(value, names) {
            Some(options) => Ok(options),
            None => Err(ReadError::Own(OwnError::BadArguments)),
        },
        Err(error) => Err(error),
    }
}

// Returns the options, once the names of the filter are read.
fn options_with(value: &Value, names: Option<Vec<String>>) -> Option<RawOptions>
    requires { if_member (list_in as_str) (get (codes "attributeFilter") (view value.now))
        ≡ Some (names_of names) }
    ensures { result ≡ options_in (view value.now) }
{
    if !value.is_object() {
        return None;
    }
    Some(RawOptions {
        child_list: flag_member(value, "childList")?,
        attributes: flag_member(value, "attributes")?,
        character_data: flag_member(value, "characterData")?,
        subtree: flag_member(value, "subtree")?,
        attribute_old_value: flag_member(value, "attributeOldValue")?,
        character_data_old_value: flag_member(value, "characterDataOldValue")?,
        attribute_filter: names,
    })
}

// Reads a member that is `true` or `false`, if it is there.
fn flag_member(value: &Value, key: &str) -> Option<Option<bool>>
    ensures { result ≡ if_member as_bool (get key.now (view value.now)) }
{
    match value.get(key) {
        None => Some(None),
        Some(member) => match member.as_bool() {
            Some(flag) => Some(Some(flag)),
            None => None,
        },
    }
}

// Reads the names of the filter, if it is there.
fn names_member(alloc: Global, value: &Value) -> Result<Option<Vec<String>>, ReadError>
    ensures { Decodes names_of result
        (if_member (list_in as_str) (get (codes "attributeFilter") (view value.now))) }
{
    match value.get("attributeFilter") {
        None => Ok(None),
        Some(member) => match names_in(alloc, member) {
            Ok(names) => Ok(Some(names)),
            Err(error) => Err(error),
        },
    }
}

fn names_in(alloc: Global, value: &Value) -> Result<Vec<String>, ReadError>
    ensures { Decodes (λ names. map string_bytes names.items) result
        (list_in as_str (view value.now)) }
{
    match value {
        Value::Array(items) => each_name(alloc, items.as_slice()),
        _ => Err(ReadError::Own(OwnError::BadArguments)),
    }
}

fn each_name(alloc: Global, items: &[Value]) -> Result<Vec<String>, ReadError>
    ensures { Decodes (λ names. map string_bytes names.items) result
        (each_item as_str (items_view items.now)) }
{
    let mut names: Vec<String> = Vec::new(alloc);
    for item in items {
        let Some(text) = item.as_str() else {
            return Err(ReadError::Own(OwnError::BadArguments));
        };
        let Ok(name) = String::from_str(alloc, text) else {
            return Err(ReadError::Memory);
        };
        if names.push(name).is_err() {
            return Err(ReadError::Memory);
        }
    }
    Ok(names)
}
