//! The commands of mutation observers.

ghost use Rattle.std.specs.Prelude.{◌≡◌, Ok};
ghost use Rattle.dom_model.specs.Commands.Command.{CreateObserver, Observe, Disconnect, TakeRecords, Notify, Pending, ReleaseObserver, TakePending, TellObserver};
ghost use Rattle.dom_session.specs.Sessions.{command_view};
ghost use Rattle.dom_c.specs.Answers.{Answers};
ghost use Rattle.dom_c.specs.Arguments.{ReadsArgument, then_make};
ghost use Rattle.dom_c.specs.NameLists.{given_options};
ghost use Rattle.dom_c.specs.WrittenValues.{answer_of_call, number_out};

use crate::argument_fault::ArgumentFault;
use crate::handle::Handle;
use crate::options::{Options, options_of};
use dom_session::{Command, NodeId, ObserverId, Observing};
use std::alloc::Global;

/// Makes a mutation observer.
#[unsafe(no_mangle)]
pub extern "C" fn hp_create_observer(handle: &mut Handle, observer: &mut u32) -> u8
    ensures answers { Answers handle.old handle.new (Ok CreateObserver) result }
    ensures told { observer.new ≡ number_out (answer_of_call handle.new result) observer.old }
{
    handle.take_number(Ok(Command::Observing(Observing::CreateObserver)), observer)
}

// Reads the arguments of `hp_observe`.
fn read_observe(
    alloc: Global,
    observer: u32,
    node: u32,
    options: &Options,
    names: &[u8],
    lengths: &[u32],
) -> Result<Command, ArgumentFault>
    ensures { ReadsArgument command_view result
        (then_make (given_options options.now names.now lengths.now) (λ options.
        Ok (Observe observer node options))) }
{
    let options = options_of(alloc, options, names, lengths)?;
    Ok(Command::Observing(Observing::Observe(
        ObserverId::new(observer),
        NodeId::new(node),
        options,
    )))
}

/// Registers an observer at a node.
#[unsafe(no_mangle)]
pub extern "C" fn hp_observe(
    handle: &mut Handle,
    alloc: Global,
    observer: u32,
    node: u32,
    options: &Options,
    names: &[u8],
    lengths: &[u32],
) -> u8
    ensures { Answers handle.old handle.new
        (then_make (given_options options.now names.now lengths.now) (λ options.
        Ok (Observe observer node options))) result }
{
    handle.take(read_observe(alloc, observer, node, options, names, lengths))
}

/// Removes all registrations and records of an observer.
#[unsafe(no_mangle)]
pub extern "C" fn hp_disconnect(handle: &mut Handle, observer: u32) -> u8
    ensures { Answers handle.old handle.new (Ok (Disconnect observer)) result }
{
    handle.take(Ok(Command::Observing(Observing::Disconnect(ObserverId::new(observer)))))
}

/// Takes the records of an observer: `hp_count` counts them, `hp_record_at` and the other record calls read them, as those of notice 0.
#[unsafe(no_mangle)]
pub extern "C" fn hp_take_records(handle: &mut Handle, observer: u32) -> u8
    ensures { Answers handle.old handle.new (Ok (TakeRecords observer)) result }
{
    handle.take(Ok(Command::Observing(Observing::TakeRecords(ObserverId::new(observer)))))
}

/// Gives each pending observer its records: `hp_count` counts the observers, `hp_notice_at` and `hp_record_at` read the notices.
#[unsafe(no_mangle)]
pub extern "C" fn hp_notify(handle: &mut Handle) -> u8
    ensures { Answers handle.old handle.new (Ok Notify) result }
{
    handle.take(Ok(Command::Observing(Observing::Notify)))
}

/// Finds the pending observers: `hp_count` and `hp_number_at` read the answer.
#[unsafe(no_mangle)]
pub extern "C" fn hp_pending(handle: &mut Handle) -> u8
    ensures { Answers handle.old handle.new (Ok Pending) result }
{
    handle.take(Ok(Command::Observing(Observing::Pending)))
}

/// Takes the pending observers, and none is pending afterwards: `hp_count` and `hp_number_at` read them. Their records stay queued for
/// `hp_tell_observer`, which notifies each in its turn.
#[unsafe(no_mangle)]
pub extern "C" fn hp_take_pending(handle: &mut Handle) -> u8
    ensures { Answers handle.old handle.new (Ok TakePending) result }
{
    handle.take(Ok(Command::Observing(Observing::TakePending)))
}

/// Notifies an observer in its turn: takes its records, which are read as those of `hp_take_records`, and removes its transient registrations.
#[unsafe(no_mangle)]
pub extern "C" fn hp_tell_observer(handle: &mut Handle, observer: u32) -> u8
    ensures { Answers handle.old handle.new (Ok (TellObserver observer)) result }
{
    handle.take(Ok(Command::Observing(Observing::TellObserver(ObserverId::new(observer)))))
}

/// Releases an observer: its registrations are removed, and its queued records are dropped.
#[unsafe(no_mangle)]
pub extern "C" fn hp_release_observer(handle: &mut Handle, observer: u32) -> u8
    ensures { Answers handle.old handle.new (Ok (ReleaseObserver observer)) result }
{
    handle.take(Ok(Command::Observing(Observing::ReleaseObserver(ObserverId::new(observer)))))
}
