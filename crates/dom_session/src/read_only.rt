//! Questions that take no memory: they are answered of what a session holds, also once it has ended.

ghost use Rattle.std.specs.Prelude.{◌≡◌};
ghost use Rattle.dom_model.specs.Commands.Guards.{Bounds};
ghost use Rattle.dom_edit.specs.Whole.{IsWhole};
ghost use Rattle.dom_commands.specs.Views.{reading_view};
ghost use Rattle.dom_session.specs.SessionViews.{IsStep, RepliesTo};

use crate::live_ranges::describe_range;
use crate::node_queries::{index, length, root};
use crate::static_ranges::describe_static_range;
use crate::traversal::{describe_iterator, describe_walker};
use dom_commands::{Reading, Reply};
use dom_edit::World;

/// Answers a question that takes no memory.
pub(crate) fn read(world: &mut World, question: Reading) -> Reply
    requires whole { IsWhole world.old }
    ensures step { (b : Bounds) → IsStep world.old world.new b (reading_view question) result }
    ensures own { RepliesTo world.old (reading_view question) result }
    ensures unchanged { world.new ≡ world.old }
{
    match question {
        Reading::Index(node) => index(world, node),
        Reading::Length(node) => length(world, node),
        Reading::Root(node) => root(world, node),
        Reading::Range(range) => describe_range(world, range),
        Reading::StaticRange(range) => describe_static_range(world, range),
        Reading::Iterator(iterator) => describe_iterator(world, iterator),
        Reading::Walker(walker) => describe_walker(world, walker),
    }
}
