//! The command line: `domserve [--line BYTES] [--numbers N]`.

ghost use Rattle.std.specs.Prelude.{◌≡◌, ◌≤◌, [], IfErr, IfOk, codes, map};
ghost use Rattle.clap.specs.Words.{app_of, found_of, kind_of, new_app, rows_of};
ghost use Rattle.dom_options.specs.CommandLine.{IsInRange, IsRefusalOf, TellsOf, bounds_asked, bounds_at, bounds_in, faults_in, program_app, value_within, with_version};

use clap::error::ErrorKind;
use clap::{Arg, ArgAction, ArgMatches, Command, Error};
use std::alloc::{AllocError, Global};
use std::convert::AsStr;

/// The limit of bytes in a line, if the words set none.
const LINE: u64 = 1048576;

/// The greatest limit of bytes in a line.
const LONGEST_LINE: u64 = 1073741824;

/// The greatest limit of numbers of each kind of object, and the limit if the words set none.
const NUMBERS: u64 = 4294967295;

/// The limits that words set: how many numbers of each kind of object there are, and how many bytes a line may have.
#[derive(Drop)]
pub struct Asked {
    pub numbers: u64,
    pub line: u64,
}

/// The reason why words set no limits, with clap's text.
#[derive(Drop)]
pub enum Refusal {
    Memory,
    Help(String),
    Mistake(String),
}

/// The text of `--version`: the version, and the logic of the kit that proves the program. Releases of the kit share it.
const VERSION: &str = "0.1.0 (rattle-kit logic dac8208d650f15bf)";

/// The text of help below the options: statuses, and an example.
const AFTER: &str = "\
Exit status: 0 at the end of the input, 1 out of memory, 2 for a mistake in the options,
3 for a failed read or write, 141 if nobody reads the output any longer.

Example:
  $ printf '[\"createElement\",0,\"p\"]\\n[\"appendChild\",0,1]\\n' | domserve
  {\"ok\":1}
  {\"ok\":1}

domserve(1) and its pages have the commands; domserve-explain --commands lists them.";

/// Returns the program's command without options, with the texts of its help.
fn program<'a>(alloc: Global) -> Command<'a>
    ensures { app_of result ≡ with_version (new_app (codes "domserve")) }
{
    Command::new(alloc, "domserve")
        .about(
            "Keeps documents (DOM Standard): one JSON command a line in, one JSON reply a line out",
        )
        .after_help(AFTER)
        .version(VERSION)
}

fn command<'a>(alloc: Global) -> Result<Command<'a>, AllocError>
    ensures { IfOk result (λ command. app_of command ≡ program_app) }
{
    let line = Arg::new(alloc, "line")
        .long("line")
        .value_name("BYTES")
        .help("How many bytes a line may have, from 1 to 1073741824")
        .action(ArgAction::Set)
        .value_parser(clap::value_parser!(u64).range(1..=1073741824))
        .default_value("1048576");
    let numbers = Arg::new(alloc, "numbers")
        .long("numbers")
        .value_name("N")
        .help("How many numbers there are of each kind of object, from 1 to 4294967295")
        .action(ArgAction::Set)
        .value_parser(clap::value_parser!(u64).range(1..=4294967295))
        .default_value("4294967295");
    program(alloc).arg(line)?.arg(numbers)
}

/// Returns a value in the range, or the other one. Clap has tested the range.
fn within(value: Option<u64>, most: u64, otherwise: u64) -> u64
    requires least { 1 ≤ otherwise }
    requires most { otherwise ≤ most }
    ensures value { result ≡ value_within most otherwise value }
    ensures least { 1 ≤ result }
    ensures most { result ≤ most }
{
    match value {
        Some(n) if 1 <= n && n <= most => n,
        _ => otherwise,
    }
}

fn asked_of(matches: &ArgMatches<'_>) -> Asked
    ensures range { IsInRange (bounds_in result) }
    ensures value { bounds_in result ≡ bounds_at (rows_of (found_of matches.now)) }
{
    let line = within(matches.get_one::<u64>("line"), LONGEST_LINE, LINE);
    let numbers = within(matches.get_one::<u64>("numbers"), NUMBERS, NUMBERS);
    Asked { numbers, line }
}

/// Returns the option of clap's text, its greatest value and the refused value, if the text is about a limit.
///
/// The value can hold any text, the names of options too, so the option is read from the end of clap's text.
fn refused_limit(text: &str) -> Option<(&str, u64, &str)> {
    let (said, _) = text.rsplit_once("': ")?;
    let said = said.strip_prefix("error: invalid value '")?;
    if let Some(value) = said.strip_suffix("' for '--line <BYTES>") {
        return Some(("--line", LONGEST_LINE, value));
    }
    let value = said.strip_suffix("' for '--numbers <N>")?;
    Some(("--numbers", NUMBERS, value))
}

/// Returns the text of an error. For a refused limit, clap's text has the range as Rust writes it, so this returns a plainer text.
fn plain_text(alloc: Global, error: &Error) -> Result<String, AllocError> {
    let text = error.to_string(alloc)?;
    match refused_limit(text.as_str()) {
        Some((option, most, value)) => format!(in alloc;
            "error: {option} wants a whole number from 1 to {most}, not '{value}'\n\nFor more information, try '--help'.\n"
        ),
        None => Ok(text),
    }
}

fn refusal_of(alloc: Global, error: &Error) -> Refusal
    ensures { IsRefusalOf (kind_of error.now) result }
{
    if let ErrorKind::OutOfMemory = error.kind() {
        return Refusal::Memory;
    }
    match plain_text(alloc, error) {
        Ok(text) => {
            if error.use_stderr() {
                Refusal::Mistake(text)
            } else {
                Refusal::Help(text)
            }
        }
        Err(_) => Refusal::Memory,
    }
}

/// Returns the limits that the words set. The first word is the program's name.
pub fn asked_from<S: AsStr>(alloc: Global, words: &[S]) -> Result<Asked, Refusal>
    ensures range { IfOk result (λ asked. IsInRange (bounds_in asked)) }
    ensures asked { IfOk result (λ asked. bounds_in asked ≡ bounds_asked (map S.text words.now)) }

    // Limits are returned only if clap finds no fault in the words; help and mistakes are faults.
    ensures taken { IfOk result (λ _. faults_in (map S.text words.now) ≡ []) }
    ensures told { IfErr result (TellsOf (faults_in (map S.text words.now))) }
{
    let command = match command(alloc) {
        Ok(command) => command,
        Err(AllocError) => return Err(Refusal::Memory),
    };
    match command.try_get_matches_from(words) {
        Ok(matches) => Ok(asked_of(&matches)),
        Err(error) => Err(refusal_of(alloc, &error)),
    }
}
