//! Inserting a root by places (DOM Standard, "Mutation algorithms", insert).

ghost use Rattle.std.specs.Prelude.{◌≡◌};
ghost use Rattle.std.specs.Option.{ForSome};
ghost use Rattle.dom_model.specs.Forests.Arena.{entry_at};
ghost use Rattle.dom_links.specs.Placed.{HasNoParent, IsChildOf, IsUnder, IsPlaced};
ghost use Rattle.dom_tree.specs.Slots.{nodes_alone};
ghost use Rattle.dom_tree.specs.Tallies.{AreTallied};
ghost use Rattle.dom_tree.specs.PutRoot.{IsPutAt};

use crate::block_updates::{block_put, blocked_put};
use crate::blocks::Blocks;
use crate::index_updates::number_put;
use crate::item::Item;
use crate::tallies::Tallies;
use crate::tally_updates::tallied_put;
use dom_links::{Link, Place, Store};

/// Inserts a root into a parent's children before one of them, or as the last, and updates the caches and counts. It takes no memory.
#[inline(always)]
pub(crate) fn put_at<X>(
    links: &mut Store<Item<X>>,
    blocks: &mut Blocks,
    tallies: &mut Tallies,
    parent: Place,
    child: Place,
    before: Link,
)
    requires parent_placed { IsPlaced links.old parent }
    requires child_placed { IsPlaced links.old child }
    requires no_parent { HasNoParent links.old child }
    requires no_cycle { ¬ IsUnder links.old child parent }
    requires before_placed { ForSome before (IsPlaced links.old) }
    requires before_under { ForSome before (IsChildOf links.old parent) }
    requires tallied { AreTallied (entry_at (nodes_alone links.old.arena)) tallies.old }
    ensures { IsPutAt links.old links.new blocks.old blocks.new tallies.old tallies.new
        parent child before }
{
    let block = block_put(links, parent, before);
    tallied_put(links, tallies, parent, child);
    links.link(parent, child, before);
    number_put(links, parent, child, before);
    if let Some(block) = block {
        blocked_put(links, blocks, parent, child, block);
    }
}
