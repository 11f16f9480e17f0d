//! Runs the program with its words, and returns its status.

ghost use Rattle.std.specs.Prelude.{◌≡◌, ◌≢◌, ◌≤◌, [], true, false, None, ◌⊎◌, IfErr, IfOk, IfSome, map, string_bytes};
ghost use Rattle.std.specs.Io.KnownBytes.{Appends};
ghost use Rattle.std.specs.IoError.{error_kind};
ghost use Rattle.dom_serve.specs.Calls.{HasPassedOn, IsRead, IsWritten};
ghost use Rattle.dom_serve.specs.Limits.{bounds_of};
ghost use Rattle.dom_options.specs.CommandLine.{IsInRange, TellsOf, asks_for_help, bounds_asked, faults_in, has_mistake};
ghost use Rattle.dom_serve.specs.declared.fault.Fault.TheVariants as faults;
ghost use Rattle.domserve.specs.Messages.{fault_message, is_broken_pipe, is_silent, reason_of, IsBecause, SaysLine, SaysBecause, SaysFault, MayHint, SaysHintAndFault};
ghost use Rattle.domserve.specs.Statuses.{status_at, fault_exit_status, IsFailure, ReportsFailedRead, ReportsFailedWrite, ReportsFault, IsServed, IsCutOff, ServesUpTo, IsServedAsAsked, IsHelped, CameTo};

use dom_options::{Refusal, asked_from};
use dom_serve::{Failed, Fault, LastError, Limits, Sink, Source, serve, write_line};
use std::alloc::{AllocError, Global};
use std::convert::AsStr;
use std::io::{Error, ErrorKind};

/// The status if nobody reads the output any longer. It is that of a shell for a program ended by SIGPIPE: 128 + 13.
const CLOSED_PIPE: u8 = 141;

/// The line for a user at a terminal.
const HINT: &str =
    "domserve reads one JSON command a line, as [\"createElement\",0,\"p\"]; domserve --help has more, and Ctrl-D ends it";

/// Returns the beginning of a fault's message.
pub fn fault_text(fault: &Fault) -> &'static str
    ensures { result.now ≡ fault_message fault.now }
{
    match fault {
        Fault::Read => "domserve: read failed",
        Fault::Write => "domserve: write failed",
        Fault::Memory => "domserve: out of memory",
        Fault::InputTooLong => "domserve: input too long",
    }
}

/// Returns the status of a fault that has a message.
fn fault_status(fault: &Fault) -> u8
    ensures { result ≡ status_at false fault.now }
{
    match fault {
        Fault::Memory => 1,
        Fault::Read | Fault::Write | Fault::InputTooLong => 3,
    }
}

/// Returns the error of the stream that failed.
fn reason_of<R: LastError, W: LastError>(fault: &Fault, reader: &R, writer: &W) -> Option<Error>
    ensures { result ≡ reason_of fault.now (R.error reader.now) (W.error writer.now) }
{
    match fault {
        Fault::Read => reader.last_error(),
        Fault::Write => writer.last_error(),
        Fault::Memory | Fault::InputTooLong => None,
    }
}

fn is_broken_pipe(error: &Error) -> bool
    ensures { result ≡ is_broken_pipe (error_kind error.now) }
{
    if let ErrorKind::BrokenPipe = error.kind() {
        return true;
    }
    false
}

/// Returns whether a write failed because nobody reads the output any longer.
fn is_silent(fault: &Fault, reason: &Option<Error>) -> bool
    ensures { result ≡ is_silent fault.now reason.now }
{
    match (fault, reason) {
        (Fault::Write, Some(error)) => is_broken_pipe(error),
        _ => false,
    }
}

/// Writes a text on a line of its own, and ignores a failure.
fn say_line<E: Sink>(errors: &mut E, text: &[u8])
    ensures { SaysLine E.writing text.now errors.old errors.new }
{
    if let Err(Failed) = write_line(errors, text) {
        return;
    }
    let _ = write_line(errors, b"\n");
}

/// Writes the hint for a user at a terminal.
fn say_hint<E: Sink>(is_terminal: bool, errors: &mut E)
    ensures { MayHint E.writing is_terminal HINT.now errors.old errors.new }
{
    if is_terminal {
        say_line(errors, HINT.as_bytes());
    }
}

/// Returns an error's text without its number.
fn without_number(text: &str) -> &str {
    match text.split_once(" (os error ") {
        Some((front, _)) => front,
        None => text,
    }
}

/// Returns a text followed by the reason.
fn message(alloc: Global, text: &str, reason: &Error) -> Result<String, AllocError>
    ensures { IfOk result (λ message. IsBecause text.now (string_bytes message)) }
{
    let mut message = String::from_str(alloc, text)?;
    message.push_str(": ")?;
    let why = reason.to_string(alloc)?;
    message.push_str(without_number(why.as_str()))?;
    Ok(message)
}

/// Writes a text on a line of its own, followed by the reason if there is memory for that.
fn say_because<E: Sink>(alloc: Global, errors: &mut E, text: &str, reason: &Option<Error>)
    ensures { SaysBecause E.writing text.now reason.now errors.old errors.new }
{
    if let Some(error) = reason {
        if let Ok(message) = message(alloc, text, error) {
            say_line(errors, message.as_bytes());
            return;
        }
    }
    say_line(errors, text.as_bytes());
}

/// Writes the message of a fault, and returns its status. A closed pipe has no message.
fn faulted<E: Sink>(alloc: Global, errors: &mut E, fault: &Fault, reason: Option<Error>) -> u8
    ensures status { result ≡ fault_exit_status fault.now reason }
    ensures says { SaysFault E.writing errors.old errors.new fault.now reason }
{
    if is_silent(fault, &reason) {
        return CLOSED_PIPE;
    }
    say_because(alloc, errors, fault_text(fault), &reason);
    fault_status(fault)
}

/// Writes the out-of-memory message, and returns the status.
pub(crate) fn without_memory<E: Sink>(alloc: Global, errors: &mut E) -> u8
    ensures status { result ≡ 1 }
    ensures says { SaysFault E.writing errors.old errors.new faults.Memory None }
{
    faulted(alloc, errors, &Fault::Memory, None)
}

fn served<R: Source + LastError, W: Sink + LastError, E: Sink>(
    alloc: Global,
    limits: Limits,
    reader: &mut R,
    writer: &mut W,
    errors: &mut E,
) -> u8
    requires limits { IsInRange (bounds_of limits) }
    ensures range { (result ≤ 1) ⊎ IsFailure result }
    ensures served { result ≡ 0 → IfSome (R.reading.left reader.old)
        (IsServed (bounds_of limits) (W.writing.taken writer.old) (W.writing.taken writer.new)) }
    ensures silent { result ≡ 0 → errors.new ≡ errors.old }
    ensures told { result ≢ 0 → ReportsFault result
        (λ fault. reason_of fault (R.error reader.new) (W.error writer.new))
        (SaysFault E.writing errors.old errors.new)
        (ServesUpTo R.reading W.writing (bounds_of limits)
        reader.old reader.new writer.old writer.new) }
    ensures passed { (IsFailure result → ⊥) → HasPassedOn W.writing writer.old writer.new }
    ensures reader { ReportsFailedRead result (λ failed. IsRead R.reading failed reader.old reader.new) }
    ensures writer { ReportsFailedWrite result (λ failed.
        IsWritten W.writing failed writer.old writer.new) }
{
    match serve(alloc, limits, reader, writer) {
        Ok(_) => 0,
        Err(fault) => {
            let reason = reason_of(&fault, reader, writer);
            faulted(alloc, errors, &fault, reason)
        }
    }
}

fn helped<W: Sink + LastError, E: Sink>(
    alloc: Global,
    text: &str,
    writer: &mut W,
    errors: &mut E,
) -> u8
    ensures range { (result ≡ 0) ⊎ IsFailure result }
    ensures helped { result ≡ 0 →
        Appends (W.writing.taken writer.old) (W.writing.taken writer.new) text.now }
    ensures silent { result ≡ 0 → errors.new ≡ errors.old }
    ensures told { result ≢ 0 → (result ≡ fault_exit_status faults.Write (W.error writer.new))
        × SaysFault E.writing errors.old errors.new faults.Write (W.error writer.new)
        × IsCutOff W.writing writer.old writer.new faults.Write }
    ensures passed { (IsFailure result → ⊥) → HasPassedOn W.writing writer.old writer.new }
    ensures writer { ReportsFailedWrite result (λ failed.
        IsWritten W.writing failed writer.old writer.new) }
{
    match write_line(writer, text.as_bytes()) {
        Ok(()) => 0,
        Err(Failed) => faulted(alloc, errors, &Fault::Write, writer.last_error()),
    }
}

/// Returns the limits that the words set, as the server's type.
fn limits_from<S: AsStr>(alloc: Global, words: &[S]) -> Result<Limits, Refusal>
    ensures range { IfOk result (λ limits. IsInRange (bounds_of limits)) }
    ensures asked { IfOk result (λ limits. bounds_of limits ≡ bounds_asked (map S.text words.now)) }
    ensures taken { IfOk result (λ _. faults_in (map S.text words.now) ≡ []) }
    ensures told { IfErr result (TellsOf (faults_in (map S.text words.now))) }
{
    match asked_from(alloc, words) {
        Ok(asked) => Ok(Limits {
            numbers: asked.numbers,
            line: asked.line as usize,
        }),
        Err(refusal) => Err(refusal),
    }
}

/// Serves the reader to the writer as the words request, and returns the program's status. The first word is the program's name.
///
/// - 0: the input ended, or help was written.
/// - 1: out of memory.
/// - 2: the words were refused.
/// - 3: a read, a write or a flush failed, or the input was too long.
/// - 141: nobody reads the output any longer.
///
/// With status 1 or 3, `errors` gets a message. If the reader is a terminal, `errors` gets a hint first.
pub fn run<S: AsStr, R: Source + LastError, W: Sink + LastError, E: Sink>(
    alloc: Global,
    words: &[S],
    is_terminal: bool,
    reader: &mut R,
    writer: &mut W,
    errors: &mut E,
) -> u8
    ensures range { (result ≤ 2) ⊎ IsFailure result }

    // With status 0 the output was written as the words request, or they ask for help, and it was written.
    ensures served { result ≡ 0 →
        IsServedAsAsked R.reading W.writing (map S.text words.now)
        reader.old reader.new writer.old writer.new
        ⊎ IsHelped R.reading W.writing (map S.text words.now)
        reader.old reader.new writer.old writer.new }

    // With status 2 clap finds a mistake in the words, and nothing was read or written.
    ensures refused { result ≡ 2 → (has_mistake (faults_in (map S.text words.now)) ≡ true)
        × (reader.new ≡ reader.old) × (writer.new ≡ writer.old) }

    // With status 3 and 141 clap finds no fault in the words, or they ask for help: a mistake is not a failure of a stream.
    ensures failed { IsFailure result → (faults_in (map S.text words.now) ≡ [])
        ⊎ (asks_for_help (faults_in (map S.text words.now)) ≡ true) }

    // With status 0 nothing was written to `errors`, except the hint at a terminal.
    ensures silent { result ≡ 0 →
        MayHint E.writing is_terminal HINT.now errors.old errors.new }

    // With status 1, 3 and 141 one fault of that status happened. `errors` got the fault's text and the reason of the failed stream, or nothing for a
    // closed pipe.
    ensures told { result ≢ 0 → result ≢ 2 → ReportsFault result
        (λ fault. reason_of fault (R.error reader.new) (W.error writer.new))
        (SaysHintAndFault E.writing is_terminal HINT.now errors.old errors.new)
        (CameTo R.reading W.writing (map S.text words.now)
        reader.old reader.new writer.old writer.new) }

    // Unless the status is 3 or 141, all that was written was flushed.
    ensures passed { (IsFailure result → ⊥) → HasPassedOn W.writing writer.old writer.new }

    // After a failed read the status is 3, after a failed write or flush 3 or 141. The failed stream is not called again.
    ensures reader { ReportsFailedRead result (λ failed.
        IsRead R.reading failed reader.old reader.new) }
    ensures writer { ReportsFailedWrite result (λ failed.
        IsWritten W.writing failed writer.old writer.new) }
{
    match limits_from(alloc, words) {
        Ok(limits) => {
            say_hint(is_terminal, errors);
            served(alloc, limits, reader, writer, errors)
        }
        Err(Refusal::Help(text)) => helped(alloc, &text, writer, errors),
        Err(Refusal::Mistake(text)) => {
            let _ = write_line(errors, text.as_bytes());
            2
        }
        Err(Refusal::Memory) => without_memory(alloc, errors),
    }
}
