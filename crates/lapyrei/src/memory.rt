// Memory for the frames of a group.
ghost use Rattle.std.specs.Prelude.{◌≡◌, IfOk, length};
ghost use Rattle.lapyrei.specs.Memory.{AreSpare, IsEnough, IsSpare};

use crate::answer::Head;
use loop_record::Frame;
use loop_ring::MAX_GROUP;
use std::alloc::{AllocError, Global};

/// Memory for the frames of a group. It is taken before the store is opened, so that an open store refuses no group for
/// want of memory.
#[derive(Drop)]
pub(crate) struct GroupMemory {
    /// No frame yet, and room for all.
    pub frames: Vec<Frame>,
    /// For each frame no byte yet, and room for its bytes.
    pub spare: Vec<Vec<u8>>,
}

impl GroupMemory {
    /// Memory for so many frames, which have so many bytes together; none where a group doesn't have so many.
    pub fn new(alloc: Global, frames: usize, bytes: usize) -> Result<GroupMemory, AllocError>
        ensures { IfOk result (IsEnough frames bytes) }
    {
        let count = if frames > MAX_GROUP { 0 } else { frames };
        let size = if count == 0 { 0 } else { bytes / count };
        Ok(GroupMemory {
            frames: Vec::with_capacity(alloc, count)?,
            spare: spare_for(alloc, count, size)?,
        })
    }
}

// Memory for so many bytes, so many times.
fn spare_for(alloc: Global, count: usize, size: usize) -> Result<Vec<Vec<u8>>, AllocError>
    ensures { IfOk result (AreSpare count size) }
{
    let mut spare = Vec::with_capacity(alloc, count)?;
    for _ in 0..count {
        spare.push_reserved(Vec::with_capacity(alloc, size)?);
    }
    Ok(spare)
}

/// The frame of this head and these bytes, in memory that has room for them.
pub(crate) fn frame_in(mut memory: Vec<u8>, head: &Head, bytes: &[u8]) -> Frame
    requires { IsSpare (length bytes.now) memory }
    ensures { (result.sequence ≡ head.now.sequence) × ((result.flags ≡ head.now.flags)
        × ((result.timestamp ≡ head.now.timestamp) × (result.bytes.items ≡ bytes.now))) }
{
    memory.extend_from_slice(bytes).unwrap();
    Frame {
        sequence: head.sequence,
        flags: head.flags,
        timestamp: head.timestamp,
        bytes: memory,
    }
}
