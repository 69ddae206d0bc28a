//! The program: it runs scripts on a recorder whose disk lies in memory, and does commands on stores in files.
//! docs/script.md has the language of the scripts.
//!
//! It passes its words, its input and its outputs to loop_commands, and ends with the status that this returns. Its
//! stored run (`stdin`) is the script of the first look.
#![tactic(auto)]

use loop_commands::{run_words, say_what_is_read, words_refused};
use std::env;
use std::io::IsTerminal;
use std::process::ExitCode;

fn main(rt: HostRuntime) -> ExitCode {
    let status = match env::args(&rt) {
        Err(error) => words_refused(&error, &mut rt.stderr()),
        Ok(mut words) => {
            // The first word is the program's own name.
            let _program = words.next();
            match words.collect::<Vec<String>>(rt.alloc()) {
                Ok(words) => {
                    if words.is_empty() && rt.stdin().is_terminal() {
                        say_what_is_read(&mut rt.stderr());
                    }
                    run_words(&rt, &words, rt.reader(), &mut rt.stdout(), &mut rt.stderr())
                }
                Err(refused) => words_refused(&refused.into(), &mut rt.stderr()),
            }
        }
    };
    ExitCode::from(status)
}
