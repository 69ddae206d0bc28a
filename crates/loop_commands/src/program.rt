// The program's words.

use crate::files::run_on_file;
use crate::record::run_record;
use crate::simulation::simulate;
use clap::error::ErrorKind;
use clap::{Arg, ArgAction, ArgMatches, Command};
use loop_script::{Task, print_line, print_refusal, read_task};
use loop_store::StoreFault;
use std::alloc::{AllocError, Global};
use std::convert::AsStr;
use std::fs::File;
use std::io;
use std::io::{Read, Write};
use std::rt::Files;
use std::sync::Wait;
use std::thread::Threads;
use std::time::Clock;

// The status of a run that was refused, or that couldn't be read or printed to its end.
const FAILED: u8 = 1;

// The status of a run whose words can't be read.
const BAD_WORDS: u8 = 2;

// The commands of the program.
const COMMANDS: [&str; 8] = [
    "simulate", "format", "record", "list", "lock", "unlock", "upgrade", "export",
];

/// Does what the words after the program's name ask for, and returns the status with which the program ends: 0; 1 for a
/// script that can't be read to its end, a file that can't be opened, a refusal of a command on a file, a failed write
/// and want of memory; 2 for words that can't be read. No words mean the same as `simulate`.
pub fn run_words<
    R: AllocGlobal + Files<File = File> + Threads + Wait + Clock + Sync,
    S: AsStr,
    I: Read + Drop,
    W: Write,
    E: Write,
>(rt: &R, words: &[S], input: I, out: &mut W, err: &mut E) -> u8 {
    let Ok(program) = program(rt.alloc()) else {
        return no_memory(err);
    };
    match program.try_get_matches_from(words) {
        Err(error) => match error.kind() {
            ErrorKind::OutOfMemory => no_memory(err),
            _ => bad_words(err),
        },
        Ok(matches) => match task_of(&matches) {
            None => bad_words(err),
            Some(task) => do_task(rt, task, input, out, err),
        },
    }
}

// Does a task, and returns the program's status.
fn do_task<
    R: AllocGlobal + Files<File = File> + Threads + Wait + Clock + Sync,
    I: Read + Drop,
    W: Write,
    E: Write,
>(rt: &R, task: Task<'_>, input: I, out: &mut W, err: &mut E) -> u8 {
    match task {
        Task::Simulate => simulate(rt.alloc(), input, out, err),
        Task::Record(recording) => run_record(rt, recording, out, err),
        Task::OnFile(path, command) => run_on_file(rt, path, command, out, err),
    }
}

/// Prints on `err` what a program without words waits for, where a terminal is its input.
pub fn say_what_is_read<E: Write>(err: &mut E) {
    // Dropped: the program reads on also where standard error is closed.
    let _ = writeln!(
        err,
        "loop_cli reads a script from this terminal, a call a line, up to Ctrl-D. `man loop_cli` has its commands."
    );
}

/// Prints on `err` why the words couldn't be had, and returns the program's status.
pub fn words_refused<E: Write>(error: &io::Error, err: &mut E) -> u8 {
    if error.kind() == io::ErrorKind::OutOfMemory {
        no_memory(err)
    } else {
        bad_words(err)
    }
}

// The task that the parsed words name, if they name one.
fn task_of<'a>(matches: &'a ArgMatches<'_>) -> Option<Task<'a>> {
    match matches.subcommand() {
        None => Some(Task::Simulate),
        Some((name, found)) => read_task(name, found.get_strs("words").unwrap_or(&[])),
    }
}

// The program as a parser of words: each command takes any words, which are then judged together.
fn program<'a>(alloc: Global) -> Result<Command<'a>, AllocError> {
    let mut program = Command::new(alloc, "loop_cli").no_binary_name(true);
    for name in COMMANDS {
        program = program.subcommand(command(alloc, name)?)?;
    }
    Ok(program)
}

// A command of the program, with any words.
fn command<'a>(alloc: Global, name: &'a str) -> Result<Command<'a>, AllocError> {
    let words = Arg::new(alloc, "words")
        .num_args(0..)
        .action(ArgAction::Append);
    Command::new(alloc, name).arg(words)
}

fn no_memory<E: Write>(err: &mut E) -> u8 {
    // Dropped: where standard error is closed, only the status reports it.
    let _ = print_refusal(err, StoreFault::NoMemory);
    FAILED
}

fn bad_words<E: Write>(err: &mut E) -> u8 {
    match print_line(err, "bad command", &[]) {
        Ok(()) => BAD_WORDS,
        Err(_) => FAILED,
    }
}
