//! Disks of fixed size whose contracts say what a crash may leave.
//!
//! `disk` has the trait: what a call does to the bytes, to the images that a crash now may leave, and to those of every
//! moment since. What a call does to bytes and images is promised only of an honest disk. That size and honesty stay,
//! and that a failed call is counted by its kind, is promised of every disk. `steps` has the stores that everything
//! above is made of: a write and then a sync, and two of these in turn. `memory` is a disk in memory, honest, whose
//! crashes are as bad as the model allows: `past` keeps what happened to a disk as ghost data. `crash` is a disk in
//! memory that keeps its calls for tests, and returns the image that a crash leaves at a chosen call. `fuse` and `once`
//! fail calls on purpose, over another disk. `specs/` has the definitions, `proofs/` the lemmas for callers: `Moments`
//! joins runs of calls, `Images` has parts of images. A disk over a file is a crate of its own (loop_file).
//!
//! docs/disk-model.md says why it is so.
#![tactic(auto)]

mod crash;
mod disk;
mod fault;
mod fuse;
mod memory;
mod once;
mod past;
mod rows;
mod steps;

pub use crash::{CrashDisk, DeviceCall, Spoil};
pub use disk::Disk;
pub use fault::{DiskFault, Failures};
pub use fuse::FuseDisk;
pub use memory::MemDisk;
pub use once::OnceDisk;
pub use past::{DiskEvent, Past};
pub use rows::{join_rows, length_of};
pub use steps::{store, store_in_turn, store_rows_in_turn};
