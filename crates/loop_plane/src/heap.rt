// Memory of the application that lies in one row of its own, and in no page of a ledger.
ghost use Rattle.std.specs.Prelude.{◌≡◌, ◌≤◌, [], IfOk, vec_len};

use crate::memory::{Memory, PlaneMemory};
use crate::room::overwrite;
use std::alloc::{AllocError, Global};
use std::mem;

/// Memory of the application, of any length, that nobody else has: a row of its own. A frame's row of that length becomes
/// the plane's, and isn't copied; so both are of one allocator.
#[derive(Drop)]
pub struct HeapPlane {
    bytes: Vec<u8>,
    used: u32,
    size: u32,
    ghost whole: { vec_len bytes ≡ size },
    ghost within: { used ≤ size },
    ghost small: { size ≤ 16777216 },
}

impl HeapPlane {
    ghost use Rattle.loop_plane.specs.Plane.{plane_of};
    ghost use Rattle.loop_plane.specs.Kinds.{heap_plane};
    ghost use Rattle.loop_plane.specs.declared.memory.Memory.TheVariants.{UserPtr};

    /// A plane of `size` bytes with none in use: at most 16,777,216, as many as a frame may have.
    pub fn new(alloc: Global, size: u32) -> Result<HeapPlane, AllocError>
        requires { size ≤ 16777216 }
        ensures ok { IfOk result (λ p. heap_plane p ≡ plane_of UserPtr size [] []) }
    {
        let bytes = vec![in alloc; 0u8; size as usize]?;
        Ok(HeapPlane {
            bytes,
            used: 0,
            size,
        })
    }
}

impl PlaneMemory for HeapPlane {
    ghost use Rattle.loop_plane.specs.Kinds.{heap_plane};

    ghost plane = { heap_plane };

    fn kind(&self) -> Memory {
        Memory::UserPtr
    }

    fn length(&self) -> u32 {
        self.size
    }

    fn used(&self) -> u32 {
        self.used
    }

    fn fill(&mut self, bytes: &[u8]) {
        overwrite(&mut self.bytes, 0, bytes);
        self.used = bytes.len() as u32;
    }

    fn fill_from(&mut self, row: &mut Vec<u8>) {
        if row.len() != self.bytes.len() {
            self.fill(row.as_slice());
            return;
        }
        mem::swap(&mut self.bytes, row);
        self.used = self.size;
    }

    fn copy_out(&self, at: u32, out: &mut [u8]) {
        let from = at as usize;
        out.copy_from_slice(&self.bytes.as_slice()[from..from + out.len()]);
    }
}
