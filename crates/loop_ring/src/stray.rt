// The frame gates that a stop left open after a closed one. docs/recovery.md says why it is so.
ghost use Rattle.std.specs.Prelude.{◌≡◌, ◌+◌, ◌<◌, ◌≤◌, ◌==◌};
ghost use Rattle.std.specs.List.{list_any};
ghost use Rattle.loop_disk.specs.Medium.{IsSettled, SameOutside};
ghost use Rattle.loop_record.specs.Change.{ShowsSegment};
ghost use Rattle.loop_record.specs.Geometry.{disk_size};
ghost use Rattle.loop_record.specs.Layout.{segment_in, whole_frames};
ghost use Rattle.loop_ring.specs.Writes.{AreClosed, Cleans, HasNoStray};

use crate::Ring;
use loop_disk::{Disk, DiskFault, store};
use loop_record::OPEN;

// The most frame gates of a segment.
const MAX_GATES: usize = 256;

impl Ring {
    /// Closes the open frame gates after a segment's first closed one, if there are any: one read, and then at most
    /// one write and one sync. `frames` is the number of the segment's whole frames. Where no gate follows the first
    /// closed one, nothing is read. A failed read changes nothing; a failed write or sync may leave some of these
    /// gates open. At each moment, and after each failure, the segment reads as before.
    pub fn clear_stray<D: Disk>(
        &self,
        disk: &mut D,
        segment: u32,
        frames: u32,
    ) -> Result<(), DiskFault>
        requires extent { (D.medium disk.old).size ≡ disk_size self.now.geometry }
        requires segment { segment < self.now.geometry.segments }
        requires few { frames ≤ self.now.geometry.slots }
        requires settled { (D.medium disk.old).honest → IsSettled (D.medium disk.old) }
        requires whole { (D.medium disk.old).honest
            → whole_frames self.now.geometry (D.medium disk.old).bytes segment ≡ frames }
        ensures { let g = self.now.geometry in let old = D.medium disk.old in
            Cleans (ShowsSegment g segment (segment_in g old.bytes segment) old.bytes) (HasNoStray g segment) old
            (D.medium disk.new) result }
    {
        let first = frames + 1;
        if first >= self.geometry.slots {
            return Ok(());
        }
        let at = self.geometry.gate_at(segment, first);
        let count = self.geometry.slots - first;
        close_gates(disk, at, count as usize)
    }
}

// Closes the gates of a range, if one of them is open.
fn close_gates<D: Disk>(disk: &mut D, at: u64, count: usize) -> Result<(), DiskFault>
    requires inside { at + count ≤ (D.medium disk.old).size }
    requires few { count ≤ 256 }
    requires settled { (D.medium disk.old).honest → IsSettled (D.medium disk.old) }
    ensures { let old = D.medium disk.old in
        Cleans (SameOutside at count old.bytes) (AreClosed at count) old (D.medium disk.new) result }
{
    let mut buffer = [0; MAX_GATES];
    let gates = &mut buffer[..count];
    disk.read(at, gates)?;
    if !has_open(gates) {
        return Ok(());
    }
    let closed = [0; MAX_GATES];
    store(disk, at, &closed[..count])
}

// Whether one of these gates is open.
fn has_open(gates: &[u8]) -> bool
    ensures { result ≡ list_any (λ gate. gate == 0xA5) gates.now }
{
    gates.iter().any(|gate| *gate == OPEN)
}
