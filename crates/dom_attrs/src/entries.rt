//! The attributes of an element, as the entries of a map from names to values.
ghost use Rattle.std.specs.Prelude.{◌≡◌, [], length, slice_get, option_map, option_copied, string_bytes, string_eq, bytes_eq, IfOk, OnOk, OnErr};
ghost use Rattle.std.specs.List.{IsDistinct, list_any};
ghost use Rattle.std.specs.Map.{keys_of};
ghost use Rattle.dom_model.specs.Forests.Attributes.{attribute_value, attribute_names, with_attribute, without_attribute, is_attribute};
ghost use Rattle.dom_attrs.specs.Entries.{attribute_at, entry_attributes, entries_in};

use dom_units::Units;
use indexmap::IndexMap;
use std::alloc::{AllocError, Global};

// The smallest table of a map has room for this many entries.
const FEW: usize = 9;

// Returns the number of attributes.
pub(crate) fn count_in(map: &IndexMap<String, Units>) -> usize
    ensures len { result ≡ length (entry_attributes map.now.entries) }
    ensures distinct { IsDistinct bytes_eq (attribute_names (entry_attributes map.now.entries)) }
{
    map.len()
}

// Returns the value of the attribute with a name.
pub(crate) fn value_in<'a>(map: &'a IndexMap<String, Units>, name: &str) -> Option<&'a Units>
    ensures { option_copied result ≡ attribute_value name.now (entry_attributes map.now.entries) }
{
    map.get(name)
}

// Returns whether there is an attribute with a name and a value.
pub(crate) fn has_in(map: &IndexMap<String, Units>, name: &str, value: &Units) -> bool
    requires { IsDistinct string_eq (keys_of map.now.entries) }
    ensures { result ≡ list_any (is_attribute (record { name = name.now; value = value.now }))
        (entry_attributes map.now.entries) }
{
    match map.get(name) {
        None => false,
        Some(found) => value.units() == found.units(),
    }
}

// Returns the attribute at an index.
pub(crate) fn pair_in(map: &IndexMap<String, Units>, index: usize) -> Option<(&str, &Units)>
    ensures { option_map attribute_at result ≡ slice_get (entry_attributes map.now.entries) index }
{
    match map.get_index(index) {
        None => None,
        Some((name, value)) => Some((name.as_str(), value)),
    }
}

// Returns the map, or an empty one if there is none.
pub(crate) fn or_new(
    alloc: Global,
    map: Option<Box<IndexMap<String, Units>>>,
) -> Result<Box<IndexMap<String, Units>>, AllocError>
    ensures ok { IfOk result (λ made. made.value.entries ≡ entries_in map) }
    ensures err { OnErr result (entries_in map ≡ []) }
{
    match map {
        None => Ok(Box::new(alloc, IndexMap::new(alloc))?),
        Some(map) => Ok(map),
    }
}

// Sets a value, and returns the old one.
pub(crate) fn put_in(
    map: &mut IndexMap<String, Units>,
    name: String,
    value: Units,
) -> Result<Option<Units>, AllocError>
    ensures old { IfOk result (λ old. old ≡ attribute_value (string_bytes name)
        (entry_attributes map.old.entries)) }
    ensures ok { OnOk result (entry_attributes map.new.entries
        ≡ with_attribute (string_bytes name) value (entry_attributes map.old.entries)) }
    ensures err { OnErr result (map.new.entries ≡ map.old.entries) }
    ensures unique { IsDistinct string_eq (keys_of map.new.entries) }
{
    let old = map.insert(name, value)?;
    fit_few(map);
    Ok(old)
}

// Shrinks a map of few entries, because a map reserves room for all entries that its smallest table can hold.
fn fit_few(map: &mut IndexMap<String, Units>)
    ensures same { map.new.entries ≡ map.old.entries }
    ensures unique { IsDistinct string_eq (keys_of map.new.entries) }
{
    let count = map.len();
    if count < FEW && count < map.capacity() {
        map.shrink_to_fit();
    }
}

// Shrinks a map after a removal, if the entries that are left fill a third of it. Room for half as many again stays.
//
// Tables have room for 9, 18, 36 entries and so on, so it shrinks at 3, 6, 12 entries and so on. It does not use the map's capacity, because that may
// not count the place of a removed entry.
fn give_back(map: &mut IndexMap<String, Units>)
    ensures same { map.new.entries ≡ map.old.entries }
    ensures unique { IsDistinct string_eq (keys_of map.new.entries) }
{
    let count = map.len();
    if count % 3 == 0 && (count / 3).is_power_of_two() {
        map.shrink_to(count.saturating_add(count / 2));
    }
}

// Removes the attribute with a name, and returns its value.
pub(crate) fn take_from(map: &mut IndexMap<String, Units>, name: &str) -> Option<Units>
    ensures value { result ≡ attribute_value name.now (entry_attributes map.old.entries) }
    ensures rest { entry_attributes map.new.entries ≡ without_attribute name.now
        (entry_attributes map.old.entries) }
    ensures unique { IsDistinct string_eq (keys_of map.new.entries) }
{
    let value = map.shift_remove(name);
    give_back(map);
    value
}

// Returns a copy in memory of its own. It copies the table, so no name is looked up.
pub(crate) fn copied(
    alloc: Global,
    map: &IndexMap<String, Units>,
) -> Result<Box<IndexMap<String, Units>>, AllocError>
    ensures same { IfOk result (λ copy. entry_attributes copy.value.entries
        ≡ entry_attributes map.now.entries) }
    ensures unique { IfOk result (λ copy. IsDistinct string_eq (keys_of copy.value.entries)) }
{
    let copy = map.clone()?;
    Ok(Box::new(alloc, copy)?)
}
