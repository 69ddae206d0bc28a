//! The clips of a store: which frames are locked, each clip under its id.
//!
//! - `table`: the `ClipTable`, which has the clips in memory, and writes one to a disk or removes it there. A lock
//!   makes four calls of the disk, an unlock two.
//! - `upgrade`: makes version 2 of the layout from version 1.
//! - `clip`: a clip as a caller sees it.
//!
//! `specs/Table` says which clips the table lists, `specs/Upgrade` what an upgrade leaves. This crate doesn't check
//! that a clip's frames are held: that is known only where the frames are.
//!
//! docs/order-of-writes.md says why it is so.
#![tactic(auto)]

mod clip;
mod table;
mod upgrade;

pub use clip::Clip;
pub use table::{CLIPS, ClipTable};
