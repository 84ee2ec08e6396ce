//! A verified tool for origami crease patterns.
//!
//! `fold_program show` reads a FOLD file, which is JSON, from standard input and writes it in
//! printed form; `fold_program show --from=cp` does so with CP text. `fold_program convert --frame=2`
//! writes frame 2 of a FOLD file, with all that it inherits, as a file of its own, and
//! `fold_program convert --from=cp` CP text as a FOLD file. `fold_program repair` cuts the segments of
//! either into vertices and pieces, and finds the faces. `fold_program fold` lays a sheet flat, and
//! `fold_program judge` says whether its layers can lie as they are ordered. `fold_program drill` judges
//! a strip that it makes itself.
#![tactic(auto)]

mod arguments;

use arguments::words_after_name;
use fold_base::{ReadSource, WriteSink};
use fold_commands::{Status, WordsCause, run};
use std::io;
use std::process::ExitCode;

#[cfg(test)]
mod convert_tests;
#[cfg(test)]
mod drawing_tests;
#[cfg(test)]
mod drill_tests;
#[cfg(test)]
mod fold_tests;
#[cfg(test)]
mod hostile_tests;
#[cfg(test)]
mod limits_tests;
#[cfg(test)]
mod outside_tests;
#[cfg(test)]
mod repair_tests;
#[cfg(test)]
mod show_tests;
#[cfg(test)]
mod trial;
#[cfg(test)]
mod words_tests;

fn main(rt: HostRuntime) -> ExitCode {
    let alloc = rt.alloc();
    let words: Vec<String> = match words_after_name(&rt, alloc) {
        Ok(words) => match words.collect(alloc) {
            Ok(words) => words,
            Err(_) => return exit(&Status::Memory),
        },
        Err(error) if error.kind() == io::ErrorKind::OutOfMemory => return exit(&Status::Memory),
        // A word isn't UTF-8.
        Err(_) => return exit(&Status::Words(WordsCause::Refused)),
    };
    let mut source = ReadSource::new(rt.stdin());
    let mut sink = WriteSink::new(rt.stdout());
    let mut notes = WriteSink::new(rt.stderr());
    let status = run(alloc, &words, &mut source, &mut sink, &mut notes);
    exit(&status)
}

/// The exit code of a run that ended so.
fn exit(status: &Status) -> ExitCode {
    ExitCode::from(status.code())
}
