//! Disks over bytes that they never write to: what is written stays in memory, and reads see it.
//!
//! `overlay` has a disk that lies over any other; `overlaid_write` has the writes that it holds in memory. In contracts
//! its bytes are those of the disk beneath with these writes over them, the first one first, and each call leaves the
//! disk beneath as it was. It is for looking at a recording without a write, and for trials that must change nothing:
//! when it is dropped, its writes are gone.
//!
//! `log` has a disk over bytes that writes down each write and each sync, so that whoever has these bytes in a file
//! makes them there; `pages` says which of the bytes are there already. `carry` makes them on another disk: its
//! contract says that a crash at any moment leaves what one of the log's disk might have left.
//!
//! `specs/Layers`, `specs/Log` and `specs/Pages` have the definitions, `proofs/` the lemmas. docs/store.md and
//! docs/disk-model.md say why it is so.
#![tactic(auto)]

mod carry;
mod log;
mod overlaid_write;
mod overlay;
mod pages;

pub use carry::carry_out;
pub use log::LogDisk;
pub use overlay::OverlayDisk;
pub use pages::{PAGE, Wanted, is_gone, is_lacking};
