//! The commands of node iterators and tree walkers.

ghost use Rattle.std.specs.Prelude.{◌≡◌, Ok};
ghost use Rattle.dom_model.specs.Commands.Command.{CreateIterator, CreateWalker, DescribeIterator, NextNode, PreviousNode, DescribeWalker, SetCurrent, Walk, ReleaseIterator, ReleaseWalker};
ghost use Rattle.dom_session.specs.Sessions.{command_view};
ghost use Rattle.dom_c.specs.Answers.{Answers, Asks};
ghost use Rattle.dom_c.specs.Arguments.{ReadsArgument, move_of_number, then_make};
ghost use Rattle.dom_c.specs.NameLists.{rules_in};
ghost use Rattle.dom_c.specs.WrittenValues.{answer_of_call, as_answered, maybe_number_out, number_out};
ghost use Rattle.dom_c.specs.StepsInTurn.{TakesSteps};
ghost use Rattle.dom_c.specs.Positions.{iterator_at_out, walker_at_out};

use crate::argument_fault::ArgumentFault;
use crate::arguments::move_of;
use crate::filters::rules_of;
use crate::handle::Handle;
use crate::positions::{IteratorAt, WalkerAt};
use crate::status::{HP_CLOSED, HP_OK, as_answered};
use crate::write_numbers::flag_number;
use dom_session::{
    Answer, Command, Filter, IteratorId, NodeId, Reading, Reply, Traversing, WalkerId,
};
use std::alloc::Global;

// Reads the arguments of `hp_create_iterator`.
fn read_create_iterator(
    alloc: Global,
    root: u32,
    show: u32,
    names: &[u8],
    lengths: &[u32],
    verdicts: &[u8],
) -> Result<Command, ArgumentFault>
    ensures { ReadsArgument command_view result
        (then_make (rules_in names.now lengths.now verdicts.now) (λ rules.
        Ok (CreateIterator root (record { show = show; rules = rules })))) }
{
    let rules = rules_of(alloc, names, lengths, verdicts)?;
    Ok(Command::Traversing(Traversing::CreateIterator(NodeId::new(root), Filter { show, rules })))
}

/// Makes a node iterator.
#[unsafe(no_mangle)]
pub extern "C" fn hp_create_iterator(
    handle: &mut Handle,
    alloc: Global,
    root: u32,
    show: u32,
    names: &[u8],
    lengths: &[u32],
    verdicts: &[u8],
    iterator: &mut u32,
) -> u8
    ensures answers { Answers handle.old handle.new
        (then_make (rules_in names.now lengths.now verdicts.now) (λ rules.
        Ok (CreateIterator root (record { show = show; rules = rules })))) result }
    ensures told { iterator.new ≡ number_out (answer_of_call handle.new result) iterator.old }
{
    handle.take_number(
        read_create_iterator(alloc, root, show, names, lengths, verdicts),
        iterator,
    )
}

// Reads the arguments of `hp_create_walker`.
fn read_create_walker(
    alloc: Global,
    root: u32,
    show: u32,
    names: &[u8],
    lengths: &[u32],
    verdicts: &[u8],
) -> Result<Command, ArgumentFault>
    ensures { ReadsArgument command_view result
        (then_make (rules_in names.now lengths.now verdicts.now) (λ rules.
        Ok (CreateWalker root (record { show = show; rules = rules })))) }
{
    let rules = rules_of(alloc, names, lengths, verdicts)?;
    Ok(Command::Traversing(Traversing::CreateWalker(NodeId::new(root), Filter { show, rules })))
}

/// Makes a tree walker.
#[unsafe(no_mangle)]
pub extern "C" fn hp_create_walker(
    handle: &mut Handle,
    alloc: Global,
    root: u32,
    show: u32,
    names: &[u8],
    lengths: &[u32],
    verdicts: &[u8],
    walker: &mut u32,
) -> u8
    ensures answers { Answers handle.old handle.new
        (then_make (rules_in names.now lengths.now verdicts.now) (λ rules.
        Ok (CreateWalker root (record { show = show; rules = rules })))) result }
    ensures told { walker.new ≡ number_out (answer_of_call handle.new result) walker.old }
{
    handle.take_number(
        read_create_walker(alloc, root, show, names, lengths, verdicts),
        walker,
    )
}

/// Writes the position of an iterator.
#[unsafe(no_mangle)]
pub extern "C" fn hp_iterator(handle: &mut Handle, iterator: u32, place: &mut IteratorAt) -> u8
    ensures answers { Asks handle.old handle.new (Ok (DescribeIterator iterator)) result }
    ensures told { place.new ≡ iterator_at_out (answer_of_call handle.new (as_answered result)) place.old }
{
    let status = handle.read(Reading::Iterator(IteratorId::new(iterator)));
    if handle.is_open && as_answered(status) == HP_OK {
        let kept = &handle.slot.lend().kept;
        if let Some(Reply::Done(Answer::IteratorAt(root, reference, is_before))) = &kept.reply {
            *place = IteratorAt {
                root: root.number(),
                reference: reference.number(),
                is_before: flag_number(*is_before),
            };
        }
    }
    status
}

/// Moves an iterator on, and writes the node, or `HP_NONE`.
#[unsafe(no_mangle)]
pub extern "C" fn hp_next_node(handle: &mut Handle, iterator: u32, node: &mut u32) -> u8
    ensures answers { Answers handle.old handle.new (Ok (NextNode iterator)) result }
    ensures told { node.new ≡ maybe_number_out (answer_of_call handle.new result) node.old }
{
    if !handle.is_open {
        return HP_CLOSED;
    }
    let kept = &mut handle.slot.lend().kept;
    let status = kept.next_node(IteratorId::new(iterator));
    kept.write_maybe_number(status, node);
    status
}

/// Moves an iterator on as often as an array has room, as `hp_next_node` in turn. It writes the nodes, and how many: fewer than there is
/// room for if a step found none, or was refused; then the status is that step's. The last answer is the last step's. The rest of the array
/// stays. It takes no memory.
#[unsafe(no_mangle)]
pub extern "C" fn hp_next_nodes_into(
    handle: &mut Handle,
    iterator: u32,
    nodes: &mut [u32],
    count: &mut usize,
) -> u8
    ensures { TakesSteps handle.old handle.new (Ok (NextNode iterator)) nodes.old nodes.new
        count.old count.new result }
{
    handle.next_nodes_into(IteratorId::new(iterator), nodes, count)
}

/// Moves an iterator back, and writes the node, or `HP_NONE`.
#[unsafe(no_mangle)]
pub extern "C" fn hp_previous_node(handle: &mut Handle, iterator: u32, node: &mut u32) -> u8
    ensures answers { Answers handle.old handle.new (Ok (PreviousNode iterator)) result }
    ensures told { node.new ≡ maybe_number_out (answer_of_call handle.new result) node.old }
{
    if !handle.is_open {
        return HP_CLOSED;
    }
    let kept = &mut handle.slot.lend().kept;
    let status = kept.previous_node(IteratorId::new(iterator));
    kept.write_maybe_number(status, node);
    status
}

/// Writes the root and the current node of a walker.
#[unsafe(no_mangle)]
pub extern "C" fn hp_walker(handle: &mut Handle, walker: u32, place: &mut WalkerAt) -> u8
    ensures answers { Asks handle.old handle.new (Ok (DescribeWalker walker)) result }
    ensures told { place.new ≡ walker_at_out (answer_of_call handle.new (as_answered result)) place.old }
{
    let status = handle.read(Reading::Walker(WalkerId::new(walker)));
    if handle.is_open && as_answered(status) == HP_OK {
        let kept = &handle.slot.lend().kept;
        if let Some(Reply::Done(Answer::WalkerAt(root, current))) = &kept.reply {
            *place = WalkerAt {
                root: root.number(),
                current: current.number(),
            };
        }
    }
    status
}

/// Sets a walker on a node.
#[unsafe(no_mangle)]
pub extern "C" fn hp_set_current(handle: &mut Handle, walker: u32, node: u32) -> u8
    ensures { Answers handle.old handle.new (Ok (SetCurrent walker node)) result }
{
    handle.take(Ok(Command::Traversing(Traversing::SetCurrent(
        WalkerId::new(walker),
        NodeId::new(node),
    ))))
}

/// Moves a walker, and writes the node, or `HP_NONE`. Moves are numbered in the order of the standard: parentNode 0, firstChild 1, lastChild 2, previousSibling 3, nextSibling 4, previousNode 5, nextNode 6.
#[unsafe(no_mangle)]
pub extern "C" fn hp_walk(handle: &mut Handle, walker: u32, direction: u8, node: &mut u32) -> u8
    ensures answers { Answers handle.old handle.new
        (then_make (move_of_number direction) (λ direction. Ok (Walk walker direction))) result }
    ensures told { node.new ≡ maybe_number_out (answer_of_call handle.new result) node.old }
{
    handle.walk(WalkerId::new(walker), move_of(direction), node)
}

/// Makes a walker's move as often as an array has room, as `hp_walk` in turn. It writes the nodes, and how many, and answers as
/// `hp_next_nodes_into` does.
#[unsafe(no_mangle)]
pub extern "C" fn hp_walk_into(
    handle: &mut Handle,
    walker: u32,
    direction: u8,
    nodes: &mut [u32],
    count: &mut usize,
) -> u8
    ensures { TakesSteps handle.old handle.new
        (then_make (move_of_number direction) (λ direction. Ok (Walk walker direction))) nodes.old
        nodes.new count.old count.new result }
{
    handle.walk_into(WalkerId::new(walker), direction, nodes, count)
}

/// Releases an iterator.
#[unsafe(no_mangle)]
pub extern "C" fn hp_release_iterator(handle: &mut Handle, iterator: u32) -> u8
    ensures { Answers handle.old handle.new (Ok (ReleaseIterator iterator)) result }
{
    handle.take(Ok(Command::Traversing(Traversing::ReleaseIterator(IteratorId::new(iterator)))))
}

/// Releases a walker.
#[unsafe(no_mangle)]
pub extern "C" fn hp_release_walker(handle: &mut Handle, walker: u32) -> u8
    ensures { Answers handle.old handle.new (Ok (ReleaseWalker walker)) result }
{
    handle.take(Ok(Command::Traversing(Traversing::ReleaseWalker(WalkerId::new(walker)))))
}
