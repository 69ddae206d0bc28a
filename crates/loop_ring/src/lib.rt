//! The segments of a store's ring. On a disk: how one is opened, filled and closed, and how a frame is read back. In
//! memory: which segment holds which block.
//!
//! - `ring`: the `Ring`, which is a store's geometry, and its calls of the disk; `group`: frames that one commit
//!   writes. A group owns the heads of its slots, and borrows the bytes of its frames. In contracts it is a value, its
//!   first number and its frames.
//! - `stray`: closes the gates that a stopped commit left open after a closed one.
//! - `index`: the `SegmentIndex`, what the header of each segment says; `entry`: its open segments by block; `count`:
//!   how many clips meet each; `victim`: the block that goes when room is needed.
//!
//! A crash during a call of the ring leaves a segment as it was or as it was asked for, or a commit's segment with a
//! prefix of the group. `specs/Writes` says so segment by segment, and never speaks of bytes. Each call makes at most
//! four calls of the disk, and takes no memory.
//!
//! `specs/Heads` says what an index has where it agrees with a disk, and how its open segments are sorted
//! (`in_order`); `proofs/Heads` and `proofs/HeldBlocks` what it then says of the recording. `specs/Entries`,
//! `proofs/SegmentOrder` and `proofs/IndexOrder` say how the order is kept and searched. `proofs/Oldest` shows that
//! the victim is the first segment that may go, `proofs/ClipCounts` what a lock and an unlock do to the counts.
//!
//! docs/order-of-writes.md says why it is so.
#![tactic(auto)]

mod count;
mod entry;
mod fault;
mod group;
mod index;
mod ring;
mod stray;
mod victim;

pub use count::clips_on;
pub use fault::SlotFault;
pub use group::{Group, MAX_GROUP, NO_STAMP, SlotStamp};
pub use index::SegmentIndex;
pub use ring::Ring;
