//! The parsed arguments of a command.

ghost use Rattle.std.specs.Prelude.{◌≡◌, ◌<◌, ◌+◌, [], map, slice_index, slice_index_or, slice_set, string_bytes};
ghost use Rattle.dom_model.specs.MutationObservers.GivenOptions.{no_options};

use dom_commands::{Filter, Move, NodeId, Point, RawOptions, Rule, Units};
use std::alloc::Global;
use std::mem;

/// The shape of an argument.
#[derive(Clone, Copy, Debug)]
pub enum Shape {
    /// An integer from 0 to 4294967295.
    Number,
    /// An integer from 0 to 4294967295, or null.
    NumberOrNull,
    /// A string, as UTF-8.
    String,
    /// A string, or an array of UTF-16 units.
    Text,
    /// A text, or null for the empty one.
    TextOrNull,
    /// `true` or `false`.
    Flag,
    /// `true`, `false` or null.
    FlagOrNull,
    /// An array of pairs: a name or `*`, and a verdict.
    Filter,
    /// The name of a walker's move.
    Move,
    /// An object with the members of `MutationObserverInit`.
    Options,
}

/// The arguments read so far: numbers and strings by their place, and one of each other shape.
#[derive(Drop)]
pub struct Arguments {
    pub numbers: [u32; 4],
    pub strings: [String; 4],
    pub number: Option<u32>,
    pub text: Units,
    pub flag: bool,
    pub flag_or_null: Option<bool>,
    pub rules: Vec<Rule>,
    pub direction: Move,
    pub options: RawOptions,
}

// Returns options without members.
fn no_options() -> RawOptions
    ensures { result ≡ no_options }
{
    RawOptions {
        child_list: None,
        attributes: None,
        character_data: None,
        subtree: None,
        attribute_old_value: None,
        character_data_old_value: None,
        attribute_filter: None,
    }
}

impl Arguments {
    ghost use Rattle.dom_model.specs.Commands.Table.{no_arguments};
    ghost use Rattle.dom_wire.specs.Shapes.{arguments_view};

    /// Returns no arguments.
    pub fn new(alloc: Global) -> Arguments
        ensures { arguments_view result ≡ no_arguments }
    {
        Arguments {
            numbers: [0; 4],
            strings: [
                String::new(alloc),
                String::new(alloc),
                String::new(alloc),
                String::new(alloc),
            ],
            number: None,
            text: Units::new(alloc),
            flag: false,
            flag_or_null: None,
            rules: Vec::new(alloc),
            direction: Move::ParentNode,
            options: no_options(),
        }
    }

    /// Returns the numbers at a place and the next, as a node and an offset in it.
    pub fn point(&self, place: usize) -> Point
        requires { place < 3 }
        ensures { result ≡ record {
          node = slice_index self.now.numbers place;
          offset = slice_index self.now.numbers (place + 1);
        } }
    {
        Point {
            node: NodeId::new(self.numbers[place]),
            offset: self.numbers[place + 1] as usize,
        }
    }

    /// Returns the number that may be missing, as that of a node.
    pub fn maybe_node(&self) -> Option<NodeId>
        ensures { result ≡ self.now.number }
    {
        match self.number {
            None => None,
            Some(number) => Some(NodeId::new(number)),
        }
    }

    /// Takes the string at a place, and leaves an empty one.
    pub fn string(&mut self, alloc: Global, place: usize) -> String
        requires { place < 4 }
        ensures value { string_bytes result
            ≡ slice_index_or (map string_bytes self.old.strings) place [] }
        ensures strings { map string_bytes self.new.strings
            ≡ slice_set (map string_bytes self.old.strings) place [] }
        ensures numbers { self.new.numbers ≡ self.old.numbers }
        ensures text { self.new.text ≡ self.old.text }
        ensures flag_or_null { self.new.flag_or_null ≡ self.old.flag_or_null }
    {
        mem::replace(&mut self.strings[place], String::new(alloc))
    }

    /// Takes the text, and leaves an empty one.
    pub fn text(&mut self, alloc: Global) -> Units
        ensures { result ≡ self.old.text }
    {
        mem::replace(&mut self.text, Units::new(alloc))
    }

    /// Takes the filter of the kinds at place 1 and of the rules, and leaves no rules.
    pub fn filter(&mut self, alloc: Global) -> Filter
        ensures { result ≡ record {
          show = slice_index self.old.numbers 1;
          rules = self.old.rules.items;
        } }
    {
        Filter {
            show: self.numbers[1],
            rules: mem::replace(&mut self.rules, Vec::new(alloc)),
        }
    }

    /// Takes the options, and leaves none.
    pub fn options(&mut self) -> RawOptions
        ensures { result ≡ self.old.options }
    {
        mem::replace(&mut self.options, no_options())
    }
}
