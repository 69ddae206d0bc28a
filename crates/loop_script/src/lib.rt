//! The words and lines of the program, its listings and its sessions.
//!
//! `lines` reads a line of a script in bounded memory, `command` says what it means, `number` reads a number in it, and
//! `task` reads the words after the program's name. `session` is a desk with a formatted store, and the frames that a
//! script makes for it; `pattern` has these frames. `listing` is what `list` prints, `runs` the runs of numbers in it,
//! `refusal` the words of a refusal and `upgrade` those of an upgrade; `source` reports a source that has other frames
//! than a store; `print` writes a line of words and numbers.
//!
//! What a line and the words mean, the calls of a session, the bytes and timestamps of frames, the runs of numbers
//! and the words of refusals are proved (`specs/`); how a listing is printed is tested. docs/script.md has the
//! language.
#![tactic(auto)]

mod command;
mod lines;
mod listing;
pub mod number;
mod pattern;
mod print;
mod refusal;
mod runs;
mod session;
mod source;
mod task;
mod upgrade;

pub use command::{ScriptCommand, geometry_in, read_command};
pub use lines::{BadLine, MAX_LINE, next_line};
pub use listing::Listing;
pub use number::small_number;
pub use pattern::{PATTERN_FLAGS, pattern_frame, pattern_sequence, pattern_timestamp};
pub use print::{print_line, print_parts};
pub use refusal::{RefusalWords, print_refusal};
pub use runs::run_length;
pub use session::{LIMITS, ScriptDesk};
pub use source::{Likeness, compare_frames, print_other_geometry, print_other_rate};
pub use task::{FileCommand, Paths, RecordTask, Task, read_task};
pub use upgrade::upgrade_words;
