//! The program: it serves standard input to standard output. README and `--help` list its options.
#![tactic(auto)]

mod patient;
mod program;
#[cfg(test)]
mod tests;

use dom_serve::{FromRead, ToWrite, write_line};
pub use patient::Patient;
pub use program::{fault_text, run};
use std::env;
use std::io::{ErrorKind, IsTerminal};
use std::process::ExitCode;

fn main(rt: HostRuntime) -> ExitCode {
    let mut errors = ToWrite::new(rt.stderr());
    let words: Vec<String> = match env::args(&rt) {
        Ok(args) => match args.collect(rt.alloc()) {
            Ok(words) => words,
            Err(_) => return ExitCode::from(program::without_memory(rt.alloc(), &mut errors)),
        },
        Err(error) => {
            if let ErrorKind::OutOfMemory = error.kind() {
                return ExitCode::from(program::without_memory(rt.alloc(), &mut errors));
            }
            let _ = write_line(
                &mut errors,
                b"error: invalid UTF-8 was detected in one or more arguments\n",
            );
            return ExitCode::from(2);
        }
    };
    let is_terminal = rt.stdin().is_terminal();
    let mut reader = FromRead::new(Patient::new(&rt, rt.stdin()));
    let mut writer = ToWrite::new(Patient::new(&rt, rt.stdout()));
    ExitCode::from(run(
        rt.alloc(),
        words.as_slice(),
        is_terminal,
        &mut reader,
        &mut writer,
        &mut errors,
    ))
}
