//! The options of a mutation observer, as C passes them.

ghost use Rattle.std.specs.Prelude.{◌≡◌, [], map, option_map, string_bytes};
ghost use Rattle.dom_c.specs.Arguments.{ReadsArgument};
ghost use Rattle.dom_c.specs.NameLists.{names_from, filter_in, given_options};

use crate::argument_fault::ArgumentFault;
use crate::arguments::{choice_of, name_of};
use dom_session::RawOptions;
use std::alloc::Global;

/// The members of `MutationObserverInit`: 0 for false, 1 for true, 2 for absent. The attribute filter is 0 if absent, and
/// 1 if its names are passed beside.
#[repr(C)]
#[derive(Clone, Copy, Debug)]
pub struct Options {
    pub child_list: u8,
    pub attributes: u8,
    pub character_data: u8,
    pub subtree: u8,
    pub attribute_old_value: u8,
    pub character_data_old_value: u8,
    pub attribute_filter: u8,
}

// Reads names that are stored one after the other, by the length of each.
fn names_of(alloc: Global, names: &[u8], lengths: &[u32]) -> Result<Vec<String>, ArgumentFault>
    ensures { ReadsArgument (λ given. map string_bytes given.items) result
        (names_from [] lengths.now names.now) }
{
    let mut given: Vec<String> = Vec::new(alloc);
    let mut bytes = names;
    for length in lengths {
        let Some((front, back)) = bytes.split_at_checked(*length as usize) else {
            return Err(ArgumentFault::BadLengths);
        };
        let name = name_of(alloc, front)?;
        if given.push(name).is_err() {
            return Err(ArgumentFault::Memory);
        }
        bytes = back;
    }
    if bytes.is_empty() {
        return Ok(given);
    }
    Err(ArgumentFault::BadLengths)
}

fn filter_of(
    alloc: Global,
    has: u8,
    names: &[u8],
    lengths: &[u32],
) -> Result<Option<Vec<String>>, ArgumentFault>
    ensures { ReadsArgument (λ filter. option_map (λ given. map string_bytes given.items) filter) result
        (filter_in has names.now lengths.now) }
{
    match has {
        0 => Ok(None),
        1 => match names_of(alloc, names, lengths) {
            Ok(given) => Ok(Some(given)),
            Err(fault) => Err(fault),
        },
        _ => Err(ArgumentFault::BadChoice),
    }
}

/// Returns the options, with the names of their attribute filter.
pub(crate) fn options_of(
    alloc: Global,
    options: &Options,
    names: &[u8],
    lengths: &[u32],
) -> Result<RawOptions, ArgumentFault>
    ensures { ReadsArgument (λ read. read) result (given_options options.now names.now lengths.now) }
{
    Ok(RawOptions {
        child_list: choice_of(options.child_list)?,
        attributes: choice_of(options.attributes)?,
        character_data: choice_of(options.character_data)?,
        subtree: choice_of(options.subtree)?,
        attribute_old_value: choice_of(options.attribute_old_value)?,
        character_data_old_value: choice_of(options.character_data_old_value)?,
        attribute_filter: filter_of(alloc, options.attribute_filter, names, lengths)?,
    })
}
