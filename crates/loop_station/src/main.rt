//! The laboratory's program: it records from the cameras of a configuration, and does orders meanwhile. docs/station.md
//! has both languages, that of the configuration and that of orders.
//!
//! It reads the file that its one argument names, and hands the configuration, its input and its output to
//! loop_station_work. Its stored run has a camera whose source is away.
#![tactic(auto)]

use loop_station_words::read_config;
use loop_station_work::{NotBegun, Places, run_station};
use std::alloc::AllocGlobal;
use std::io::{IsTerminal, Read, Write};
use std::process::ExitCode;
use std::rt::Files;
use std::sync::Wait;
use std::thread::Threads;
use std::time::Clock;
use std::{env, fs, io};

// The status of a run whose configuration can't be read, that can't begin, or whose lines couldn't be printed.
const FAILED: u8 = 1;

// The status of a run whose arguments aren't exactly one path.
const BAD_WORDS: u8 = 2;

// What `--version` prints.
const VERSION: &str = "loop_station 0.1.0";

// What `--help` prints.
const HELP: &str = "usage: loop_station CONFIG

Records from the cameras that the file CONFIG names, without end, each into a loop of
fixed size. Orders come from standard input or from the pipe that CONFIG names: `help`
prints them, `keep 60` locks the last minute of each camera, `stop` ends the station.
loop_station(1) and docs/station.md say what CONFIG may have.

    --help, -h    this text
    --version     the version
";

fn main(rt: HostRuntime) -> ExitCode {
    let watched = rt.stdout().is_terminal();
    ExitCode::from(match path_of(&rt) {
        Ok(Some(word)) if word.as_str() == "--help" || word.as_str() == "-h" => {
            print(&mut rt.stdout(), HELP)
        }
        Ok(Some(word)) if word.as_str() == "--version" => { print(&mut rt.stdout(), VERSION) }
        Ok(Some(path)) => run_file(
            &rt,
            path.as_str(),
            rt.reader(),
            rt.stdout(),
            watched,
            &mut rt.stderr(),
        ),
        Ok(None) => say(&mut rt.stderr(), "usage: loop_station CONFIG", BAD_WORDS),
        Err(_) => say(&mut rt.stderr(), "out of memory", FAILED),
    })
}

// The one argument after the program's name; None where there is none, or more than one.
fn path_of(rt: &HostRuntime) -> io::Result<Option<String>> {
    let mut words = env::args(rt)?;
    let _program = words.next();
    let path = words.next();
    if words.next().is_some() {
        return Ok(None);
    }
    Ok(path)
}

// Runs the station of a configuration's file. Returns the program's status.
fn run_file<
    R: AllocGlobal + Files + Places + Threads + Wait + Clock + Clone + Drop + Send + Sync + 'static,
    I: Read + Drop,
    W: Write + Drop + Send + 'static,
    E: Write,
>(rt: &R, path: &str, input: I, out: W, watched: bool, err: &mut E) -> u8 {
    let Ok(text) = fs::read_to_string(rt, path) else {
        // Where standard error is closed, only the program's status reports the fault.
        let _ = writeln!(err, "cannot open {path}");
        return FAILED;
    };
    let config = match read_config(rt.alloc(), text.as_str()) {
        Ok(config) => config,
        Err(fault) => {
            // As above: the status still reports the fault.
            let _ = writeln!(err, "{path}: {fault}");
            return FAILED;
        }
    };
    match run_station(rt, path, config, input, out, watched) {
        Ok(true) => 0,
        Ok(false) => FAILED,
        Err(NotBegun::NoMemory) => say(err, "out of memory", FAILED),
        Err(NotBegun::NoClock) => say(err, "the clock can't be read", FAILED),
        Err(NotBegun::AnswersInUse(answers)) => {
            // As above: the status still reports the fault.
            let _ = writeln!(
                err,
                "{path}: answers {answers} is a store, a source, the configuration or the pipe of orders"
            );
            FAILED
        }
        Err(NotBegun::TooManyMinutes(camera, tenths)) => {
            let (whole, tenth) = (tenths / 10, tenths % 10);
            // As above.
            let _ = writeln!(
                err,
                "{path}: camera {camera}: no store holds so many frames: {whole}.{tenth} minutes fit"
            );
            FAILED
        }
    }
}

// Prints a text, and returns the program's status.
fn print<W: Write>(out: &mut W, text: &str) -> u8 {
    match writeln!(out, "{}", text.trim_end()) {
        Ok(()) => 0,
        Err(_) => FAILED,
    }
}

// Prints why there is no run, and returns the program's status.
fn say<E: Write>(err: &mut E, why: &str, status: u8) -> u8 {
    // Where standard error is closed, only the status reports the fault.
    let _ = writeln!(err, "{why}");
    status
}
