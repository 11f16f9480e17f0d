//! Scenes: rows of calls on the observers of a tree of two roots, and of expected facts. If a call is out of memory, the scene checks the state that
//! it left, and repeats the call.

ghost use Rattle.std.specs.Option.{IsSome};
ghost use Rattle.dom_observe.specs.Watchers.{queue_in};

use crate::registrations::nothing;
use dom_kinds::{Kind, Label};
use dom_observe::{
    Mutation, ObserverId, Observers, RawOptions, Record, RecordType, resolve_options,
};
use dom_tree::{NodeId, Tree};
use dom_units::Units;
use std::alloc::{AllocError, Global};
use std::process::Abort;
use std::test::Fail;

/// The observed changes of a node.
#[derive(Clone, Copy)]
pub enum Watched {
    Children,
    /// The data of the node and of its descendants, with its old value.
    DataBelow,
    /// The attributes with these names.
    Attributes(&'static [&'static str]),
}

/// A call. An observer precedes a node. A call is refused only if it is out of memory.
#[derive(Clone, Copy)]
pub enum Call {
    /// Makes an observer. If it is refused, no number is given.
    Make,
    Watch(u32, u32, Watched),
    /// Registers observer 0 for the children of each of this many nodes; repeats a call that is out of memory.
    WatchEach(u32),
    /// Changes the data of a node. It was "c".
    ChangeData(u32),
    /// Changes an attribute with a name.
    ChangeAttribute(u32, &'static str),
    /// Removes node 1 from node 0. It stays observed until the observers are notified.
    Leave,
    /// Queues the record of the removal of node 1 from node 0.
    TellOfLeaving,
    /// Does both in one call.
    LeaveAndTell,
    /// Notifies the observers, and expects how many get records.
    Notify(usize),
    /// Takes the pending observers, and expects how many there are.
    TakePending(usize),
    /// Notifies one observer in its turn, and expects how many records it gets.
    TellInTurn(u32, usize),
    Disconnect(u32),
    /// Releases an observer. Its number does not exist from then on, and is not reused.
    Release(u32),
    /// Releases the observer that was made last.
    ReleaseLast,
}

/// An expected state of the observers.
#[derive(Clone, Copy)]
pub enum Fact {
    /// How many numbers were given.
    Made(usize),
    /// Whether an observer exists.
    Held(u32, bool),
    /// How many observers and registrations there are.
    Counts(usize, usize),
    /// Whether there are no registrations.
    Idle(bool),
    /// The observer at an index of the pending list.
    Pending(usize, Option<u32>),
    /// Whether observers, or their queued records, refer to a node.
    Named(u32, bool),
    /// How many records are queued for an observer. They are taken.
    Waiting(u32, usize),
    /// One record is queued for an observer, with a target and an old value. It is taken.
    One(u32, u32, &'static str),
}

/// A row of a scene.
#[derive(Clone, Copy)]
pub enum Row {
    /// Makes a call that takes no memory, or whose memory is not refused.
    Once(Call),
    /// Makes a call, and repeats it if it is out of memory.
    Do(Call),
    /// Makes a call, which may be out of memory.
    Try(Call),
    /// Makes a call if the last tried call was refused.
    Again(Call),
    /// Expects all these facts.
    Then(When, &'static [Fact]),
}

/// The condition on which facts are expected.
#[derive(Clone, Copy, PartialEq, Eq)]
pub enum When {
    Always,
    /// The last tried call was refused.
    Refused,
}

/// Rows that are played this many times.
pub type Part = (u32, &'static [Row]);

// Returns the observer with a number, and asserts that it exists.
fn observer(rt: &impl Abort, observers: &Observers, number: u32) -> ObserverId
    ensures { IsSome (queue_in observers.now result) }
{
    let observer = ObserverId::new(number);
    assert!(rt; observers.holds(observer));
    observer
}

// Makes an observer.
fn make(rt: &impl Abort, observers: &mut Observers) -> Result<(), AllocError> {
    let made = observers.made();
    assert!(rt; made < 10_000);
    match observers.make() {
        Ok(observer) => {
            assert_eq!(rt; observer.number() as usize, made);
            Ok(())
        }
        Err(AllocError) => {
            assert_eq!(rt; observers.made(), made);
            Err(AllocError)
        }
    }
}

// Returns copies of texts.
fn owned(alloc: Global, texts: &[&str]) -> Result<Vec<String>, AllocError> {
    let mut owned = Vec::new(alloc);
    for text in texts {
        owned.push(String::from_str(alloc, text)?)?;
    }
    Ok(owned)
}

// Returns the options that observe these changes.
fn options(alloc: Global, watched: Watched) -> Result<RawOptions, AllocError> {
    let mut given = nothing();
    match watched {
        Watched::Children => given.child_list = Some(true),
        Watched::DataBelow => {
            given.character_data_old_value = Some(true);
            given.subtree = Some(true);
        }
        Watched::Attributes(names) => given.attribute_filter = Some(owned(alloc, names)?),
    }
    Ok(given)
}

// Registers an observer on a node.
fn watch(
    rt: &impl Abort,
    observers: &mut Observers,
    number: u32,
    node: u32,
    watched: Watched,
    alloc: Global,
) -> Result<(), AllocError> {
    let observer = observer(rt, observers, number);
    match resolve_options(options(alloc, watched)?) {
        Ok(options) => observers.observe(observer, NodeId::new(node), options),
        Err(_) => {
            assert!(rt; false, "these options are in order");
            Ok(())
        }
    }
}

// Registers observer 0 for the children of each of `count` nodes.
fn watch_each(
    rt: &impl Abort,
    observers: &mut Observers,
    count: u32,
    alloc: Global,
) -> Result<(), AllocError> {
    for number in 0..count {
        if watch(rt, observers, 0, number, Watched::Children, alloc).is_err() {
            watch(rt, observers, 0, number, Watched::Children, alloc)?;
        }
    }
    Ok(())
}

// Changes the data of a node.
fn change_data(
    rt: &impl Abort,
    observers: &mut Observers,
    tree: &Tree<u8>,
    alloc: Global,
    target: u32,
) -> Result<(), AllocError> {
    let target = NodeId::new(target);
    assert!(rt; tree.holds(target));
    let old_value = Units::from_str(alloc, "c")?;
    let mutation = Mutation {
        what: RecordType::CharacterData,
        target,
        added: &[],
        removed: &[],
        previous: None,
        next: None,
        name: None,
        old_value: Some(old_value.units()),
    };
    observers.queue_record(tree, &mutation)
}

// Changes an attribute of a node.
fn change_attribute(
    rt: &impl Abort,
    observers: &mut Observers,
    tree: &Tree<u8>,
    target: u32,
    name: &str,
) -> Result<(), AllocError> {
    let target = NodeId::new(target);
    assert!(rt; tree.holds(target));
    let mutation = Mutation {
        what: RecordType::Attributes,
        target,
        added: &[],
        removed: &[],
        previous: None,
        next: None,
        name: Some(name),
        old_value: None,
    };
    observers.queue_record(tree, &mutation)
}

// Removes node 1 from node 0.
fn leave(rt: &impl Abort, observers: &mut Observers, tree: &Tree<u8>) -> Result<(), AllocError> {
    let top = NodeId::new(0);
    assert!(rt; tree.holds(top));
    observers.transients(tree, top, NodeId::new(1))
}

// Queues the record of the removal of node 1 from node 0.
fn tell_of_leaving(
    rt: &impl Abort,
    observers: &mut Observers,
    tree: &Tree<u8>,
) -> Result<(), AllocError> {
    let target = NodeId::new(0);
    assert!(rt; tree.holds(target));
    let mutation = Mutation {
        what: RecordType::ChildList,
        target,
        added: &[],
        removed: &[NodeId::new(1)],
        previous: None,
        next: None,
        name: None,
        old_value: None,
    };
    observers.queue_record(tree, &mutation)
}

// Removes node 1 from node 0, and queues the record of it.
fn leave_and_tell(
    rt: &impl Abort,
    observers: &mut Observers,
    tree: &Tree<u8>,
) -> Result<(), AllocError> {
    let target = NodeId::new(0);
    let node = NodeId::new(1);
    assert!(rt; tree.holds(target));
    assert!(rt; !tree.is_ancestor(node, target));
    let mutation = Mutation {
        what: RecordType::ChildList,
        target,
        added: &[],
        removed: &[node],
        previous: None,
        next: None,
        name: None,
        old_value: None,
    };
    observers.removed(tree, node, &mutation)
}

// Notifies the observers, and asserts how many get records.
fn notify(rt: &impl Abort, observers: &mut Observers, count: usize) -> Result<(), AllocError> {
    let told = observers.notify()?;
    assert_eq!(rt; told.len(), count);
    Ok(())
}

// Takes the pending observers, and asserts how many there are.
fn take_pending(
    rt: &impl Abort,
    observers: &mut Observers,
    count: usize,
) -> Result<(), AllocError> {
    let taken = observers.take_pending()?;
    assert_eq!(rt; taken.len(), count);
    Ok(())
}

// Notifies an observer in its turn, and asserts how many records it gets.
fn tell_in_turn(rt: &impl Abort, observers: &mut Observers, number: u32, count: usize) {
    let observer = observer(rt, observers, number);
    assert_eq!(rt; observers.notify_one(observer).len(), count);
}

// Disconnects an observer.
fn disconnect(rt: &impl Abort, observers: &mut Observers, number: u32) {
    let observer = observer(rt, observers, number);
    observers.disconnect(observer);
}

// Releases an observer, and asserts that its number does not exist.
fn release(rt: &impl Abort, observers: &mut Observers, number: u32) {
    let observer = observer(rt, observers, number);
    let made = observers.made();
    observers.release(observer);
    assert!(rt; !observers.holds(observer));
    assert_eq!(rt; observers.made(), made);
}

// Returns the last number given.
fn last(rt: &impl Abort, observers: &Observers) -> u32 {
    let made = observers.made();
    assert!(rt; 0 < made && made < 10_000);
    (made - 1) as u32
}

// Makes a call.
fn called(
    rt: &impl Abort,
    observers: &mut Observers,
    tree: &Tree<u8>,
    alloc: Global,
    call: Call,
) -> Result<(), AllocError> {
    match call {
        Call::Make => return make(rt, observers),
        Call::Watch(number, node, watched) => {
            return watch(rt, observers, number, node, watched, alloc);
        }
        Call::WatchEach(count) => return watch_each(rt, observers, count, alloc),
        Call::ChangeData(node) => return change_data(rt, observers, tree, alloc, node),
        Call::ChangeAttribute(node, name) => {
            return change_attribute(rt, observers, tree, node, name);
        }
        Call::Leave => return leave(rt, observers, tree),
        Call::TellOfLeaving => return tell_of_leaving(rt, observers, tree),
        Call::LeaveAndTell => return leave_and_tell(rt, observers, tree),
        Call::Notify(count) => return notify(rt, observers, count),
        Call::TakePending(count) => return take_pending(rt, observers, count),
        Call::TellInTurn(number, count) => tell_in_turn(rt, observers, number, count),
        Call::Disconnect(number) => disconnect(rt, observers, number),
        Call::Release(number) => release(rt, observers, number),
        Call::ReleaseLast => release(rt, observers, last(rt, observers)),
    }
    Ok(())
}

// Takes the records of an observer.
fn taken(rt: &impl Abort, observers: &mut Observers, number: u32) -> Vec<Record> {
    let observer = observer(rt, observers, number);
    observers.take(observer)
}

// Asserts that there is one record, with a target and an old value.
fn expect_one(rt: &impl Abort, records: &[Record], target: u32, old: &str) {
    assert_eq!(rt; records.len(), 1);
    let record = &records[0];
    assert!(rt; record.target == NodeId::new(target));
    match &record.old_value {
        None => assert!(rt; false, "no old value"),
        Some(value) => {
            assert!(rt; value.units().iter().copied().eq(old.bytes().map(u16::from)));
        }
    }
}

// Returns the number of the observer at an index of the pending list.
fn pending(observers: &Observers, index: usize) -> Option<u32> {
    let observer = observers.pending(index)?;
    Some(observer.number())
}

// Asserts a fact.
fn expect(rt: &impl Abort, observers: &mut Observers, tree: &Tree<u8>, fact: &Fact) {
    match *fact {
        Fact::Made(made) => assert_eq!(rt; observers.made(), made),
        Fact::Held(number, held) => {
            assert_eq!(rt; observers.holds(ObserverId::new(number)), held);
        }
        Fact::Counts(count, registrations) => {
            assert_eq!(rt; observers.count(), count);
            assert_eq!(rt; observers.registrations(), registrations);
        }
        Fact::Idle(idle) => assert_eq!(rt; observers.is_idle(), idle),
        Fact::Pending(index, number) => assert_eq!(rt; pending(observers, index), number),
        Fact::Named(number, named) => {
            let node = NodeId::new(number);
            assert!(rt; tree.holds(node));
            assert_eq!(rt; observers.refers(tree, node), named);
        }
        Fact::Waiting(number, count) => assert_eq!(rt; taken(rt, observers, number).len(), count),
        Fact::One(number, target, old) => {
            expect_one(rt, taken(rt, observers, number).as_slice(), target, old);
        }
    }
}

// Asserts facts in order.
fn expect_all(rt: &impl Abort, observers: &mut Observers, tree: &Tree<u8>, facts: &[Fact]) {
    for fact in facts {
        expect(rt, observers, tree, fact);
    }
}

// Plays a row, and stores whether the last tried call was refused.
fn play_row(
    rt: &impl Abort,
    observers: &mut Observers,
    tree: &Tree<u8>,
    alloc: Global,
    refused: &mut bool,
    row: Row,
) -> Result<(), AllocError> {
    match row {
        Row::Once(call) => called(rt, observers, tree, alloc, call),
        Row::Do(call) => {
            if called(rt, observers, tree, alloc, call).is_ok() {
                return Ok(());
            }
            called(rt, observers, tree, alloc, call)
        }
        Row::Try(call) => {
            *refused = called(rt, observers, tree, alloc, call).is_err();
            Ok(())
        }
        Row::Again(call) => {
            if *refused {
                return called(rt, observers, tree, alloc, call);
            }
            Ok(())
        }
        Row::Then(when, facts) => {
            if when == When::Always || *refused {
                expect_all(rt, observers, tree, facts);
            }
            Ok(())
        }
    }
}

// Plays rows in order.
fn play_rows(
    rt: &impl Abort,
    observers: &mut Observers,
    tree: &Tree<u8>,
    alloc: Global,
    rows: &[Row],
) -> Result<(), AllocError> {
    let mut refused = false;
    for row in rows {
        play_row(rt, observers, tree, alloc, &mut refused, *row)?;
    }
    Ok(())
}

// Plays rows this many times.
fn play_part(
    rt: &impl Abort,
    observers: &mut Observers,
    tree: &Tree<u8>,
    alloc: Global,
    part: &Part,
) -> Result<(), AllocError> {
    let (times, rows) = *part;
    for _ in 0..times {
        play_rows(rt, observers, tree, alloc, rows)?;
    }
    Ok(())
}

// Makes the root with a number; if memory is refused, it tries once more.
fn root(rt: &impl Abort, tree: &mut Tree<u8>, number: u32) -> Result<(), AllocError> {
    assert!(rt; tree.made() < 10);
    let label = Label::nameless(Kind::Text);
    let made = match tree.make(label, 0, None) {
        Ok(node) => node,
        Err(_) => {
            assert!(rt; tree.made() < 10);
            tree.make(Label::nameless(Kind::Text), 0, None)?
        }
    };
    assert_eq!(rt; made.number(), number);
    Ok(())
}

// Makes two roots, 0 and 1, and plays each part.
fn play(
    rt: &impl Abort,
    observers: &mut Observers,
    tree: &mut Tree<u8>,
    alloc: Global,
    parts: &[Part],
) -> Result<(), Fail> {
    root(rt, tree, 0)?;
    root(rt, tree, 1)?;
    for part in parts {
        play_part(rt, observers, tree, alloc, part)?;
    }
    Ok(())
}

/// Plays a scene with observers and a tree of its own. Only this function drops them, because that takes long to prove.
pub(crate) fn played(rt: &impl Abort, alloc: Global, parts: &[Part]) -> Result<(), Fail> {
    let mut tree = Tree::new(alloc);
    let mut observers = Observers::new(alloc);
    play(rt, &mut observers, &mut tree, alloc, parts)
}
