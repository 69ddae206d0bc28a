//! The limits of a desk, and what its calls return.

use loop_store::Clip;
use std::alloc::{Allocator, Global};

/// The limits of a desk.
#[derive(Clone, Copy, Debug, PartialEq, Eq)]
pub struct DeskLimits {
    /// How many frames may wait: 1 to 64.
    pub pending: u32,
    /// How many frames one flush stores at most: 1 to 64.
    pub group: u32,
    /// How many calls one session of a recorder takes: 1 to 1,000,000. It doesn't bind the desk itself.
    pub calls: u32,
}

/// What a flush stored.
#[derive(Clone, Copy, Debug, PartialEq, Eq)]
pub struct Flushed {
    /// The number of the first frame that was stored; if none was, the next number.
    pub first: u64,
    /// How many frames were stored.
    pub stored: u32,
    /// How many still wait.
    pub left: u32,
}

/// The counts of a desk.
#[derive(Clone, Copy, Debug, PartialEq, Eq)]
pub struct Status {
    /// The number that the next stored frame gets.
    pub next: u64,
    /// How many frames are held.
    pub held: u64,
    /// How many frames wait.
    pub pending: u32,
    /// Whether a call that writes has failed: then the disk has to be taken out and opened again.
    pub must_reopen: bool,
}

/// What a store tells of the room that it has for a block.
#[derive(Clone, Copy, Debug, PartialEq, Eq)]
pub struct Space {
    /// Whether a segment holds no block.
    pub free: bool,
    /// The sequence of the first frame of the block that goes when room is needed; None where none may go.
    pub oldest: Option<u32>,
}

/// What a desk holds, without pixels.
#[derive(Drop)]
pub struct Outline<A: Allocator = Global> {
    /// The version of the layout.
    pub version: u32,
    /// How many of the newest blocks are never removed.
    pub keep: u32,
    /// The number that the next stored frame gets.
    pub next: u64,
    /// The numbers of the held frames, in rising order.
    pub frames: Vec<u64, A>,
    /// The clips, by rising id.
    pub clips: Vec<Clip, A>,
    /// How many frames wait.
    pub pending: u32,
}
