//! What a registration asks for, with the names of a long attribute filter as a set.

ghost use Rattle.std.specs.Prelude.{◌≡◌, false, map, string_bytes, IfOk};
ghost use Rattle.std.specs.Option.{option_map_or};
ghost use Rattle.indexmap.specs.IndexSet.{contains_text};
ghost use Rattle.dom_model.specs.MutationObservers.Records.{name_passes, type_passes, asks_old_value};
ghost use Rattle.dom_observe.specs.Names.{given_name, HasNames};

use crate::options::Options;
use dom_model::RecordType;
use indexmap::IndexSet;
use std::alloc::{AllocError, Global};
use std::marker::Model;

// A filter of up to so many names is gone through.
const FEW: usize = 8;

// The names as a set.
fn set_of(alloc: Global, names: &[String]) -> Result<IndexSet<String>, AllocError>
    ensures { IfOk result (λ set. HasNames set (map string_bytes names.now)) }
{
    let mut set = IndexSet::new(alloc);
    for name in names {
        let copy = String::from_str(alloc, name.as_str())?;
        set.insert(copy)?;
    }
    Ok(set)
}

// Whether there is a name, and the set has it.
fn has_name(set: &IndexSet<String>, name: Option<&str>) -> bool
    ensures { result ≡ option_map_or (contains_text set.now) (given_name name.entry) false }
{
    match name {
        Some(name) => set.contains(name),
        None => false,
    }
}

// The options of a registration. What they ask for takes constant time, however many names their filter has.
#[derive(Debug, Drop)]
pub struct Interests {
    options: Options,
    // the names of the filter, where they are more than a few
    names: Option<IndexSet<String>>,
}

impl Model for Interests {
    ghost use Rattle.dom_model.specs.Worlds.World.{Options as PlainOptions};
    ghost use Rattle.dom_observe.specs.Names.{Sifts};

    ghost Value = { PlainOptions };

    ghost view = { λ a. a.options };

    ghost invariant = { λ a. Sifts a.options.attribute_filter a.names };
}

impl Interests {
    // Options that are settled, with room for the set.
    pub fn new(alloc: Global, options: Options) -> Result<Interests, AllocError>
        ensures { IfOk result (λ asked. asked ≡ options) }
    {
        let names = match &options.attribute_filter {
            Some(names) if names.len() > FEW => Some(set_of(alloc, names.as_slice())?),
            _ => None,
        };
        Ok(Interests { options, names })
    }

    // Whether what stands inside the node is observed too.
    pub fn subtree(&self) -> bool
        ensures { result ≡ self.now.subtree }
    {
        self.options.subtree
    }

    // Whether an attribute of that name passes the filter.
    fn passes(&self, name: Option<&str>) -> bool
        ensures { result ≡ name_passes self.now.attribute_filter (given_name name.entry) }
    {
        match &self.names {
            Some(set) => has_name(set, name),
            None => self.options.passes(name),
        }
    }

    // Whether a mutation of that type and name is asked for.
    pub fn asks(&self, what: RecordType, name: Option<&str>) -> bool
        ensures { result ≡ type_passes what (given_name name.entry) self.now }
    {
        match what {
            RecordType::ChildList => self.options.child_list,
            RecordType::Attributes => self.options.attributes && self.passes(name),
            RecordType::CharacterData => self.options.character_data,
        }
    }

    // Whether the old value is asked for with a mutation of that type.
    pub fn asks_old_value(&self, what: RecordType) -> bool
        ensures { result ≡ asks_old_value what self.now }
    {
        match what {
            RecordType::ChildList => false,
            RecordType::Attributes => self.options.attribute_old_value,
            RecordType::CharacterData => self.options.character_data_old_value,
        }
    }
}
