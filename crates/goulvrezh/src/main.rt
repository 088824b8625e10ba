// Goulvrezh: what a conversation can do, told in lines.
#![tactic(auto)]

mod example;
mod failure;
mod report;

use crate::failure::Failure;
use crate::report::Report;
use std::process::ExitCode;
use std::{env, fs};

const HELP: &str = "goulvrezh: tells what a conversation can do

goulvrezh                          surveys the example that ships with the program
goulvrezh help                     prints this text
goulvrezh survey FILE [CAPACITY]   tells which states a table reaches from its root, and
                                   their steps; CAPACITY is how many states there is room
                                   for, at most and by default 65535

FILE holds a plain table in its text form: a line 'states N', a line 'range N', a line
'root N', and then a line 'FROM KIND CHANNEL VALUE TO' for each row, in which KIND is
silent, send or receive; what follows a '#' is a comment.

A fault ends the program with status 1 and one line that names the file and the place.";

fn main(rt: HostRuntime) -> ExitCode {
    match run(&rt) {
        Ok(()) => ExitCode::SUCCESS,
        Err(failure) => {
            let _ = eprintln!(rt; "goulvrezh: {failure}");
            ExitCode::FAILURE
        }
    }
}

fn run(rt: &HostRuntime) -> Result<(), Failure> {
    let heap = rt.alloc();
    let words: Vec<String> = env::args(rt)?.skip(1).collect(heap)?;
    let words: Vec<&str> = words.iter().map(|word| word.as_str()).collect(heap)?;
    match words.as_slice() {
        [] => Report::of(rt, example::NAME).survey_text(example::TEXT),
        ["help", ..] => Ok(rt.println(HELP)?),
        ["survey", path] => survey_file(Report::of(rt, path)),
        ["survey", path, word] => survey_file(Report {
            capacity: capacity(rt, word)?,
            ..Report::of(rt, path)
        }),
        ["survey", ..] => Err(Failure::Told(String::from_str(
            heap,
            "survey takes a FILE and, if wanted, a CAPACITY; see 'goulvrezh help'",
        )?)),
        [other, ..] => Err(Failure::Told(format!(in heap;
            "there is no command '{other}'; see 'goulvrezh help'"
        )?)),
    }
}

fn capacity(rt: &HostRuntime, word: &str) -> Result<usize, Failure> {
    word.parse::<usize>().try_map_err(|_| {
        Ok(Failure::Told(format!(in rt.alloc(); "'{word}' is no capacity: expected a number")?))
    })
}

fn survey_file(report: Report) -> Result<(), Failure> {
    let Report { rt, name, .. } = report;
    let text = fs::read_to_string(rt, name).try_map_err(|error| {
        Ok(Failure::Told(format!(in rt.alloc(); "{name}: cannot be read: {error}")?))
    })?;
    report.survey_text(text.as_str())
}
