//! A loop recording on a disk: it is formatted, appended to and read, and it survives a stop at any moment.
//!
//! A `Store` stands for a recording of the plain recorder; `specs/Seen` says how. `specs/Steps` says what a call may
//! leave of it. Whatever the moment of a stop, the disk's image reads as that recording after a prefix of the steps
//! that were asked for.
//!
//! - `make`: formats a disk; `fresh`: what formatting writes;
//! - `reopen`: finds the recording on a disk again; `recover` and `found`: what a disk's image reads as;
//! - `store`: the store and its calls; `index`: what it knows in memory; `put`: the append of a group; `place`: where
//!   it goes; `grow`: what it writes there; `lock`: locks and unlocks of clips; `upgrade`: makes version 2 of the
//!   layout from version 1; `look`: reads; `seek`: the held frames of a span of time;
//! - `command`: lists of commands, and the replies; `memory`: memory for a frame;
//! - `laws`: what a sequence of calls leaves; `chain`: a sequence of calls across a crash;
//! - `fault`: the refusals, with their numbers and names.
//!
//! The contracts of public calls name only these of `specs`: `Calls`, `Steps`, `Seen`, `Goes`, `Runs`, `Faults`,
//! `Numbers`, `Make`, `Reopen`, `Chain`, and the first definitions of `Times`. The others are for this crate alone:
//! `AppendPlace`, `Drawn`, and those named after a file in `src`.
//!
//! docs/store.md and docs/recovery.md say why it is so.
#![tactic(auto)]

pub mod chain;
mod command;
mod fault;
mod found;
mod fresh;
mod grow;
mod index;
pub mod laws;
mod lock;
mod look;
mod make;
mod memory;
mod place;
mod put;
mod recover;
mod reopen;
mod seek;
mod store;
mod upgrade;

pub use command::{Command, ReadFrame, Reply};
pub use fault::{OpenRefused, StoreFault};
pub use loop_clips::Clip;
pub use make::{format, format_v1};
pub use memory::frame_memory;
pub use reopen::can_keep;
pub use store::Store;
