//! `mp4boxes normal` reads MP4 boxes from standard input, and writes them in their normal form to standard output.
//! `mp4boxes list` writes a line for each of them: its position, its length and its name.
#![tactic(auto)]

mod command;
mod engine;
mod fault;
mod line;
mod list;
mod outcome;
mod part;
mod program;

use command::argument_fault;
use mp4_io::{Input, Output, Steady};
use outcome::Outcome;
use program::run_words;
use std::env;
use std::process::ExitCode;

/// Runs the command that the arguments name, from standard input to standard output.
fn run(rt: &HostRuntime) -> Outcome {
    let mut words = match env::args(rt) {
        Ok(words) => words,
        Err(e) => return Outcome::Failed(argument_fault(&e)),
    };
    let _program = words.next();
    let mut input = Input::new(Steady::new(rt.stdin()));
    let mut output = Output::new(Steady::new(rt.stdout()));
    run_words(rt.alloc(), words, &mut input, &mut output)
}

fn main(rt: HostRuntime) -> ExitCode {
    let outcome = run(&rt);
    let _ = outcome.report(&mut rt.stderr());
    ExitCode::from(outcome.status())
}

#[cfg(test)]
mod tests;
