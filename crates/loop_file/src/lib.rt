//! A disk over a file. No contract says what the file holds: `FileDisk` never claims to be honest. Its contracts give
//! its size, and say that each call that the file failed is counted by its kind, and that no other is.
//!
//! And a disk that reads ahead: small reads, each of which begins where the one before it ended, are answered from one
//! read of many bytes. It lies over any other disk. In contracts it is the disk beneath, so that its callers read what
//! that one holds. No contract says that fewer calls reach the disk beneath; the tests count them.
//!
//! `file` has the disk; `rows` how rows become writes of whole pages; `place` where a path's file is, and how it is
//! made there or given up; `fresh` the order in which an old file is made anew; `text` a file or pipe that a text is
//! written to; `opened` how each of them is opened, never with the number of a standard stream; `lock` how its lock is
//! taken; `fault` why a file can't be opened. `specs/Outcomes` says how a file's answer becomes the disk's. `ahead` has
//! the disk that reads ahead; `window` the bytes that were read ahead (`specs/Windows`).
//!
//! docs/store.md says why it is so.
#![tactic(auto)]

mod ahead;
mod fault;
mod file;
mod fresh;
mod lock;
mod opened;
mod place;
mod rows;
mod text;
mod window;

pub use ahead::AheadDisk;
pub use fault::FileFault;
pub use file::FileDisk;
pub use opened::{open_file, open_to_read};
pub use place::FilePlace;
pub use text::TextFile;
