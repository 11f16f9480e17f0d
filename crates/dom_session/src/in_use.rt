//! The number of objects in a session, so that a host can estimate its memory.

ghost use Rattle.std.specs.Prelude.{◌≡◌};
ghost use Rattle.dom_model.specs.Worlds.World.{World as PlainWorld};
ghost use Rattle.dom_edit.specs.Whole.{Shows};
ghost use Rattle.dom_session.specs.InUse.{in_use_of, in_use_in};

use dom_edit::World;

/// The number of objects of each kind that were made, and neither discarded nor released.
///
/// Registrations are those of all observers, with the transient ones.
#[derive(Clone, Copy, Debug, PartialEq, Eq)]
pub struct Counts {
    pub nodes: usize,
    pub ranges: usize,
    pub static_ranges: usize,
    pub iterators: usize,
    pub walkers: usize,
    pub observers: usize,
    pub registrations: usize,
}

/// Returns the number of objects of each kind.
pub(crate) fn in_use(world: &World) -> Counts
    ensures shown { (w : PlainWorld) → Shows world.now w → result ≡ in_use_of w }
    ensures own { result ≡ in_use_in world.now }
{
    Counts {
        nodes: world.tree.live() as usize,
        ranges: world.ranges.count(),
        static_ranges: world.statics.count(),
        iterators: world.iterators.count(),
        walkers: world.walkers.count(),
        observers: world.observers.count(),
        registrations: world.observers.registrations(),
    }
}

/// Returns how many nodes were ever made. They have the numbers below it.
pub(crate) fn nodes_made(world: &World) -> u64
    ensures shown { (w : PlainWorld) → Shows world.now w → result ≡ w.made }
    ensures own { result ≡ world.now.tree.made }
{
    world.tree.made()
}
