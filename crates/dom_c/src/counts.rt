//! The numbers of objects in a session, read without a command: the last answer stays, and no memory is taken.

ghost use Rattle.std.specs.Prelude.{◌≡◌};
ghost use Rattle.dom_c.specs.Counts.{ReadsWorld, counts_out, in_use_out, in_use_held, made_out, made_held};

use crate::handle::Handle;
use crate::status::HP_CLOSED;
use dom_session::Counts as Found;

/// The number of objects of each kind that were made, and neither discarded nor released. The registrations are those of all
/// observers, with the transient ones.
#[repr(C)]
#[derive(Clone, Copy, Debug)]
pub struct Counts {
    pub nodes: usize,
    pub ranges: usize,
    pub static_ranges: usize,
    pub iterators: usize,
    pub walkers: usize,
    pub observers: usize,
    pub registrations: usize,
}

// Returns the counts of a session, as C reads them.
fn counts_told(found: Found) -> Counts
    ensures { result ≡ counts_out found }
{
    Counts {
        nodes: found.nodes,
        ranges: found.ranges,
        static_ranges: found.static_ranges,
        iterators: found.iterators,
        walkers: found.walkers,
        observers: found.observers,
        registrations: found.registrations,
    }
}

/// Writes the number of objects of each kind, in constant time, so that a host can tell its garbage collector the session's size.
#[unsafe(no_mangle)]
pub extern "C" fn hp_in_use(handle: &mut Handle, counts: &mut Counts) -> u8
    ensures kept { handle.new.slot.kept ≡ handle.old.slot.kept }
    ensures told { ReadsWorld handle.old in_use_out in_use_held counts.old counts.new result }
{
    if !handle.is_open {
        return HP_CLOSED;
    }
    let kept = &handle.slot.lend().kept;
    *counts = counts_told(kept.session.in_use());
    kept.found()
}

/// Writes how many nodes were ever made, in constant time. They have the numbers below it, discarded ones too. If a call raises it, the nodes that the
/// call made have the numbers from the earlier count on, so a host can discard fragments that no answer names.
#[unsafe(no_mangle)]
pub extern "C" fn hp_nodes_made(handle: &mut Handle, count: &mut u64) -> u8
    ensures kept { handle.new.slot.kept ≡ handle.old.slot.kept }
    ensures told { ReadsWorld handle.old made_out made_held count.old count.new result }
{
    if handle.is_open {
        let kept = &handle.slot.lend().kept;
        *count = kept.session.nodes_made();
        kept.found()
    } else {
        HP_CLOSED
    }
}
