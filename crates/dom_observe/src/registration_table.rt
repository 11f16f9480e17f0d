//! The table of registrations, and keys into it.

ghost use Rattle.std.specs.Prelude.{◌≡◌, ◌≢◌, ℕ, ◌<◌, ◌≤◌, ◌==◌, length, remove, not, filter, IfOk, option_map, true};
ghost use Rattle.std.specs.List.{remove_range};
ghost use Rattle.dom_model.specs.PlainLists.Lists.{among};
ghost use Rattle.dom_observe.specs.Turns.{turn_at, Rises};
ghost use Rattle.dom_observe.specs.Registrations.{in_table, is_live, with_new_options};

use crate::filter::Interests;
use crate::registration::Registration;
use slab::Slab;
use std::alloc::AllocError;
use std::rc::Rc;

// Whether there is a registration under the key.
fn is_live(table: &Slab<Registration>, key: usize) -> bool
    ensures { result ≡ is_live (in_table table.now) key }
{
    match table.get(key) {
        Some(_) => true,
        None => false,
    }
}

// Takes out the keys under which nothing is left.
pub(crate) fn prune(table: &Slab<Registration>, keys: &mut Vec<usize>)
    ensures { keys.new.items ≡ filter (is_live (in_table table.now)) keys.old.items }
{
    keys.retain(|key| is_live(table, *key));
}

// Takes out the keys from a place up to another.
pub(crate) fn cut(keys: &mut Vec<usize>, first: usize, end: usize)
    requires order { first ≤ end }
    requires inside { end ≤ length keys.old.items }
    ensures { keys.new.items ≡ remove_range keys.old.items first end }
{
    let all = keys.len();
    keys.copy_within(end..all, first);
    keys.truncate(first + (all - end));
}

// Puts other options in place of those of a registration.
pub(crate) fn set_options(table: &mut Slab<Registration>, key: usize, options: Rc<Interests>)
    ensures changed { in_table table.new key ≡ option_map (with_new_options options.value)
        (in_table table.old key) }
    ensures others { (other : ℕ) → other ≢ key →
        in_table table.new other ≡ in_table table.old other }
    ensures turns { (other : ℕ) → turn_at table.new other ≡ turn_at table.old other }
{
    if let Some(registration) = table.get_mut(key) {
        registration.options = options;
    }
}

// The turn of the registration under a key.
fn turn_at(table: &Slab<Registration>, key: usize) -> u64
    ensures { result ≡ turn_at table.now key }
{
    match table.get(key) {
        Some(registration) => registration.turn,
        None => 0,
    }
}

// A turn behind those of a node's keys.
pub(crate) fn next_turn(table: &Slab<Registration>, keys: &[usize]) -> Result<u64, AllocError>
    ensures { IfOk result (λ turn. Rises (turn_at table.now) keys.now → (key : ℕ) →
        among key keys.now ≡ true → turn_at table.now key < turn) }
{
    match keys.last() {
        Some(key) => turn_at(table, *key).checked_add(1).ok_or(AllocError),
        None => Ok(0),
    }
}

// The place of a key among those of its node, found by its turn.
pub(crate) fn place_of(table: &Slab<Registration>, keys: &[usize], key: usize) -> usize
    requires rising { Rises (turn_at table.now) keys.now }
    requires there { among key keys.now ≡ true }
    ensures inside { result < length keys.now }
    ensures place { remove keys.now result ≡ filter (λ other. not (other == key)) keys.now }
{
    let turn = turn_at(table, key);
    keys.partition_point(|other| turn_at(table, *other) < turn)
}
