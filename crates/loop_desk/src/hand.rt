// What was taken from a queue.
use loop_plane::PlaneMemory;
use loop_record::Frame;
use loop_store::StoreFault;
use loop_vb2::{Errno, PlaneSet};
use std::alloc::{Allocator, Global};

/// What the application has taken from a queue: nothing, or one buffer. Planes of USERPTR and DMA-BUF memory are taken
/// with it (the fds of the latter stay attached); those of MMAP stay in the queue, and are None here.
#[derive(Drop)]
pub enum Hand<P = Box<dyn PlaneMemory + Send>, A: Allocator = Global> {
    /// Nothing.
    Empty,
    /// A buffer with its frame.
    Frame {
        index: u32,
        frame: Frame<A>,
        planes: Option<PlaneSet<P>>,
    },
    /// A buffer whose frame is gone, or that had none.
    Spent {
        index: u32,
        planes: Option<PlaneSet<P>>,
    },
}

/// Why an event of the hand is refused.
#[derive(Clone, Copy, PartialEq, Eq, Debug)]
pub enum LaneFault {
    /// By the hand's own rules, or for want of memory.
    Store(StoreFault),
    /// By the queue.
    Queue(Errno),
}
