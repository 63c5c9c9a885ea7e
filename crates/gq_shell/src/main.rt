//! The program `groupsh`: it reads a script of commands, and writes the reply to each.
//!
//! It reads its command line first. Then it makes the tables that the command line names, opens the
//! script, or takes the commands of the command line, and runs them. The contract above it is that of
//! [`program::run_program`], over what a process has: its words, its files, its random bytes, what
//! opening a path gives, its standard input, and its two streams. It says which script is run, what
//! each stream got, and what the exit status means; `main` passes the process's own.
//!
//! Below it are [`gq_options::read_words`], which returns what the command line asks for, or help, the
//! version, a mistake or a failed allocation; [`script::run_script`], which draws the seed if that is
//! asked for, and makes the run store, the tables and the script; [`session::session`], which runs an
//! engine, with [`report`] for the line on its work; and [`stopping`], for all that ends before a run.
//! The law in [`laws`] says what a status means.
#![tactic(auto)]

mod checking;
#[cfg(test)]
mod command_lines;
pub mod laws;
mod program;
#[cfg(test)]
mod read_tests;
mod report;
mod script;
mod seeding;
mod session;
mod stopping;
mod streams;
mod tables;
#[cfg(test)]
mod tests;
mod writing;

use crate::program::run_program;
use crate::streams::Streams;
use std::fs::File;
use std::process::ExitCode;
use std::{env, io};

fn main(rt: HostRuntime) -> ExitCode {
    let mut streams = Streams {
        input: rt.reader(),
        replies: rt.stdout(),
        errors: rt.stderr(),
    };
    let status = run_program(
        rt.alloc(),
        arguments(&rt),
        &rt,
        &rt,
        |path| File::open(&rt, path),
        &mut streams,
    );
    ExitCode::from(status)
}

fn arguments(rt: &HostRuntime) -> io::Result<Vec<String>> {
    Ok(env::args(rt)?.collect(rt.alloc())?)
}
