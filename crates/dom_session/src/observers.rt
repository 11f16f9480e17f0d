//! The commands on mutation observers (DOM Standard, "Mutation observers").

ghost use Rattle.std.specs.Prelude.{◌≡◌, ◌≤◌, IfOk, OnErr};
ghost use Rattle.dom_model.specs.Commands.Command.{CreateObserver, Observe, Disconnect, TakeRecords, Notify, Pending, ReleaseObserver, TakePending, TellObserver};
ghost use Rattle.dom_model.specs.Commands.Guards.{Bounds};
ghost use Rattle.dom_edit.specs.Whole.{IsShown};
ghost use Rattle.dom_commands.specs.Views.{observing_view};
ghost use Rattle.dom_session.specs.SessionViews.{IsStep};
ghost use Rattle.dom_session.specs.OutOfMemory.{KeepsWholeWorld};
ghost use Rattle.dom_session.specs.AnswerBounds.{numbered};

use dom_commands::{Answer, Brief, Observing, Reply};
use dom_edit::World;
use dom_model::OwnError;
use dom_observe::{ObserverId, Observers, RawOptions, resolve_options};
use dom_tree::NodeId;
use std::alloc::{AllocError, Global};

/// Makes a mutation observer without registrations (`new MutationObserver()`).
pub(crate) fn create_observer(world: &mut World, numbers: u64) -> Result<Reply, AllocError>
    requires numbers { numbers ≤ 4294967295 }
    requires shown { IsShown world.old }
    ensures step { IfOk result (IsStep world.old world.new (numbered numbers) CreateObserver) }
    ensures left { OnErr result (KeepsWholeWorld world.old world.new) }
    ensures unchanged { OnErr result (world.new ≡ world.old) }
{
    if numbers <= world.observers.made() as u64 {
        return Ok(Reply::Brief(Brief::Own(OwnError::Limit)));
    }
    let id = world.observers.make()?;
    Ok(Reply::Brief(Brief::Number(id.number())))
}

/// Registers an observer at a node, in place of its earlier registration there (`observe`).
pub(crate) fn observe(
    world: &mut World,
    observer: ObserverId,
    node: NodeId,
    options: RawOptions,
) -> Result<Reply, AllocError>
    requires shown { IsShown world.old }
    ensures step { IfOk result (λ reply. (b : Bounds) →
        IsStep world.old world.new b (Observe observer node options) reply) }
    ensures left { OnErr result (KeepsWholeWorld world.old world.new) }
    ensures unchanged { OnErr result (world.new ≡ world.old) }
{
    if !world.observers.holds(observer) || !world.tree.holds(node) {
        return Ok(Reply::Brief(Brief::Own(OwnError::NoSuchObject)));
    }
    match resolve_options(options) {
        Ok(options) => {
            world.observers.observe(observer, node, options)?;
            Ok(Reply::Brief(Brief::Nothing))
        }
        Err(error) => Ok(Reply::Brief(Brief::Dom(error))),
    }
}

/// Removes all registrations of an observer, and drops its queued records (`disconnect`).
pub(crate) fn disconnect(world: &mut World, observer: ObserverId) -> Reply
    requires shown { IsShown world.old }
    ensures step { (b : Bounds) → IsStep world.old world.new b (Disconnect observer) result }
{
    if !world.observers.holds(observer) {
        return Reply::Brief(Brief::Own(OwnError::NoSuchObject));
    }
    world.observers.disconnect(observer);
    Reply::Brief(Brief::Nothing)
}

/// Releases an observer: it has no registration, is no longer pending, and its number is not used again.
pub(crate) fn release_observer(world: &mut World, observer: ObserverId) -> Reply
    requires shown { IsShown world.old }
    ensures step { (b : Bounds) → IsStep world.old world.new b (ReleaseObserver observer) result }
{
    if !world.observers.holds(observer) {
        return Reply::Brief(Brief::Own(OwnError::NoSuchObject));
    }
    world.observers.release(observer);
    Reply::Brief(Brief::Nothing)
}

/// Takes the queued records of an observer (`takeRecords`).
pub(crate) fn take_records(world: &mut World, observer: ObserverId) -> Reply
    requires shown { IsShown world.old }
    ensures step { (b : Bounds) → IsStep world.old world.new b (TakeRecords observer) result }
{
    if !world.observers.holds(observer) {
        return Reply::Brief(Brief::Own(OwnError::NoSuchObject));
    }
    Reply::Done(Answer::Records(world.observers.take(observer)))
}

/// Notifies each pending observer with its records, in the order in which they became pending ("notify mutation observers").
pub(crate) fn notify(world: &mut World) -> Result<Reply, AllocError>
    requires shown { IsShown world.old }
    ensures step { IfOk result (λ reply. (b : Bounds) → IsStep world.old world.new b Notify reply) }
    ensures unchanged { OnErr result (world.new ≡ world.old) }
    ensures left { OnErr result (KeepsWholeWorld world.old world.new) }
{
    let told = world.observers.notify()?;
    Ok(Reply::Done(Answer::Notified(told)))
}

// Returns the numbers of the pending observers, in their order.
fn pending_numbers(observers: &Observers, alloc: Global) -> Result<Vec<u32>, AllocError>
    ensures { IfOk result (λ numbers. numbers.items ≡ observers.now.pending) }
{
    let mut numbers: Vec<u32> = Vec::new(alloc);
    while let Some(observer) = observers.pending(numbers.len()) {
        numbers.push(observer.number())?;
    }
    Ok(numbers)
}

/// Returns the pending observers, in the order in which they became pending.
pub(crate) fn pending(world: &World, alloc: Global) -> Result<Reply, AllocError>
    ensures step { IfOk result (λ reply. (b : Bounds) →
        IsStep world.now world.now b Pending reply) }
{
    let numbers = pending_numbers(&world.observers, alloc)?;
    Ok(Reply::Done(Answer::Numbers(numbers)))
}

/// Takes the pending observers: none is pending afterwards, and each is to be notified in this order (the first step of "notify mutation
/// observers").
pub(crate) fn take_pending(world: &mut World, alloc: Global) -> Result<Reply, AllocError>
    requires shown { IsShown world.old }
    ensures step { IfOk result (λ reply. (b : Bounds) →
        IsStep world.old world.new b TakePending reply) }
    ensures unchanged { OnErr result (world.new ≡ world.old) }
    ensures left { OnErr result (KeepsWholeWorld world.old world.new) }
{
    // room for the answer comes first, so that nothing is taken if memory is refused
    let numbers = pending_numbers(&world.observers, alloc)?;
    let _ = world.observers.take_pending()?;
    Ok(Reply::Done(Answer::Numbers(numbers)))
}

/// Notifies an observer in its turn: takes its queued records, and removes its transient registrations (the second step of "notify mutation
/// observers").
pub(crate) fn tell_observer(world: &mut World, observer: ObserverId) -> Reply
    requires shown { IsShown world.old }
    ensures step { (b : Bounds) → IsStep world.old world.new b (TellObserver observer) result }
{
    if !world.observers.holds(observer) {
        return Reply::Brief(Brief::Own(OwnError::NoSuchObject));
    }
    Reply::Done(Answer::Records(world.observers.notify_one(observer)))
}

/// Answers the commands on observers.
pub(crate) fn watch(
    world: &mut World,
    numbers: u64,
    alloc: Global,
    command: Observing,
) -> Result<Reply, AllocError>
    requires numbers { numbers ≤ 4294967295 }
    requires shown { IsShown world.old }
    ensures step { IfOk result (IsStep world.old world.new (numbered numbers)
        (observing_view command)) }
    ensures left { OnErr result (KeepsWholeWorld world.old world.new) }
    ensures unchanged { OnErr result (world.new ≡ world.old) }
{
    match command {
        Observing::CreateObserver => create_observer(world, numbers),
        Observing::Observe(observer, node, options) => observe(world, observer, node, options),
        Observing::Disconnect(observer) => Ok(disconnect(world, observer)),
        Observing::TakeRecords(observer) => Ok(take_records(world, observer)),
        Observing::Notify => notify(world),
        Observing::Pending => pending(world, alloc),
        Observing::ReleaseObserver(observer) => Ok(release_observer(world, observer)),
        Observing::TakePending => take_pending(world, alloc),
        Observing::TellObserver(observer) => Ok(tell_observer(world, observer)),
    }
}
