//! The program's commands.
//!
//! `program` reads the program's words, does what they ask for and returns a status. `simulation` runs a script line by
//! line on a recorder whose disk lies in memory. `files` does commands on stores in files: it opens them, and
//! `on_store` does the rest, over any disk and any writer; `even` makes the writes of an export even. `record` records
//! from a `source` into stores in files; `cameras` sets up a camera for each. `undone` says why a command isn't done.
//!
//! loop_script says what a line and the words mean, with proofs. What becomes of an open store and of the text of an
//! export, and when that is printed, is proved of `on_store`; what a recording keeps of its stores, of `cameras`. All
//! other lines that are printed are tested.
//!
//! docs/script.md says why it is so.
#![tactic(auto)]

mod cameras;
mod even;
mod files;
mod on_store;
mod program;
mod record;
mod simulation;
mod source;
mod undone;

pub use even::EvenWriter;
pub use files::run_on_file;
pub use on_store::{
    Beneath, ExportTarget, NotExported, Reported, export_along, export_apart, export_text, list,
    lock, unlock, upgrade,
};
pub use program::{run_words, say_what_is_read, words_refused};
pub use simulation::simulate;
