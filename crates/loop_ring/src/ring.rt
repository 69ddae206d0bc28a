// The ring of a store: its segments, written and read one at a time. docs/order-of-writes.md says why it is so.
ghost use Rattle.std.specs.Prelude.{◌≡◌, ◌≢◌, ◌+◌, ◌<◌, ◌≤◌, IsTrue, Err, None, Some, length};
ghost use Rattle.loop_disk.specs.Calls.{Called, Stays};
ghost use Rattle.loop_disk.specs.Medium.{IsSettled};
ghost use Rattle.loop_disk.specs.Steps.{Changes};
ghost use Rattle.loop_record.specs.Change.{ShowsSegment};
ghost use Rattle.loop_record.specs.declared.damage.Damage.{Damage};
ghost use Rattle.loop_record.specs.Geometry.{disk_size, frame_bytes, is_good};
ghost use Rattle.loop_record.specs.Layout.{segment_in, slot_head, whole_frames};
ghost use Rattle.loop_record.specs.Reading.{empty_segment};
ghost use Rattle.loop_ring.specs.Reads.{AnswersHead, AnswersSlot, failed_read, slot_of, AnswersPart};
ghost use Rattle.loop_ring.specs.Writes.{HasNoStray, ShowsBeginning, ShowsFrames, ShowsOrNot};

use crate::group::MAX_GROUP;
use crate::{Group, SlotFault};
use loop_disk::{Disk, DiskFault, store, store_in_turn, store_rows_in_turn};
use loop_record::{
    Damage, FrameHead, Geometry, HEAD_SIZE, HEADER_SIZE, OPEN, decode_head, encode_header,
};

/// The segments of a store's ring.
#[derive(Clone, Copy, Debug)]
pub struct Ring {
    /// The store's geometry.
    pub geometry: Geometry,
    pub ghost good: { IsTrue (is_good geometry) },
}

impl Ring {
    /// A ring of this geometry.
    pub fn new(geometry: Geometry) -> Ring
        requires { IsTrue (is_good geometry) }
        ensures { result.geometry ≡ geometry }
    {
        Ring { geometry }
    }

    /// Closes an open segment: one write and one sync. Its frames are lost.
    pub fn retire<D: Disk>(&self, disk: &mut D, segment: u32) -> Result<(), DiskFault>
        requires extent { (D.medium disk.old).size ≡ disk_size self.now.geometry }
        requires segment { segment < self.now.geometry.segments }
        requires settled { (D.medium disk.old).honest → IsSettled (D.medium disk.old) }
        requires there { (D.medium disk.old).honest
            → segment_in self.now.geometry (D.medium disk.old).bytes segment ≢ None }
        ensures { let g = self.now.geometry in let old = D.medium disk.old in
            Changes (ShowsOrNot g segment None old.bytes) (ShowsSegment g segment None old.bytes) old
            (D.medium disk.new) result }
    {
        store(disk, self.geometry.segment_at(segment), &[0])
    }

    /// Opens a closed segment for the frames of a block, with none yet: two writes, each with its sync.
    pub fn begin_block<D: Disk>(
        &self,
        disk: &mut D,
        segment: u32,
        block: u64,
    ) -> Result<(), DiskFault>
        requires extent { (D.medium disk.old).size ≡ disk_size self.now.geometry }
        requires segment { segment < self.now.geometry.segments }
        requires settled { (D.medium disk.old).honest → IsSettled (D.medium disk.old) }
        requires closed { (D.medium disk.old).honest
            → segment_in self.now.geometry (D.medium disk.old).bytes segment ≡ None }
        ensures { let g = self.now.geometry in let old = D.medium disk.old in
            Changes (ShowsOrNot g segment (Some (empty_segment block)) old.bytes)
            (λ image. ShowsSegment g segment (Some (empty_segment block)) old.bytes image × HasNoStray g segment image)
            old (D.medium disk.new) result }
    {
        // The whole header is written, with closed frame gates, so that none stays open from an earlier block.
        let mut header = [0; HEADER_SIZE];
        encode_header(block, &mut header);
        let at = self.geometry.segment_at(segment);
        store_in_turn(disk, at + 1, &header[1..], at, &header[..1])
    }

    /// Adds the frames of a group to a segment, after its whole frames, of which there are `first_slot`: two writes,
    /// each with its sync.
    pub fn commit<D: Disk>(
        &self,
        disk: &mut D,
        segment: u32,
        first_slot: u32,
        group: &Group<'_>,
    ) -> Result<(), DiskFault>
        requires extent { (D.medium disk.old).size ≡ disk_size self.now.geometry }
        requires segment { segment < self.now.geometry.segments }
        requires some { 1 ≤ length group.now.frames }
        requires room { first_slot + length group.now.frames ≤ self.now.geometry.slots }
        requires size { group.now.size ≡ frame_bytes self.now.geometry }
        requires settled { (D.medium disk.old).honest → IsSettled (D.medium disk.old) }
        requires tail { (D.medium disk.old).honest
            → (whole_frames self.now.geometry (D.medium disk.old).bytes segment ≡ first_slot)
            × HasNoStray self.now.geometry segment (D.medium disk.old).bytes }
        ensures { let g = self.now.geometry in let old = D.medium disk.old in
            let first = group.now.first in let frames = group.now.frames in
            Changes (ShowsBeginning g segment first frames old.bytes)
            (λ image. ShowsFrames g segment first frames old.bytes image × HasNoStray g segment image)
            old (D.medium disk.new) result }
    {
        let at = self.geometry.slot_at(segment, first_slot);
        let gate = self.geometry.gate_at(segment, first_slot);
        let gates = [OPEN; MAX_GROUP];
        let rows = group.rows();
        let count = group.len();
        store_rows_in_turn(disk, at, &rows[..2 * count], gate, &gates[..count])
    }

    /// Reads a slot that should hold frame `number`: at most two reads. `out` has the size of a frame and gets the
    /// pixels. After a refusal `out` may hold any bytes.
    pub fn read_slot<D: Disk>(
        &self,
        disk: &mut D,
        segment: u32,
        slot: u32,
        number: u64,
        out: &mut [u8],
    ) -> Result<FrameHead, SlotFault>
        requires extent { (D.medium disk.old).size ≡ disk_size self.now.geometry }
        requires segment { segment < self.now.geometry.segments }
        requires slot { slot < self.now.geometry.slots }
        requires size { length out.old ≡ frame_bytes self.now.geometry }
        ensures slot { (D.medium disk.old).honest
            → AnswersSlot (frame_bytes self.now.geometry) number
            (slot_of self.now.geometry (D.medium disk.old).bytes segment slot) result out.new }
        ensures damage { (damage : Damage) → result ≡ Err (SlotFault.Damaged damage) → damage ≡ Damage.SlotHead }
        ensures disk { (D.medium disk.old).honest → Stays (D.medium disk.old) (D.medium disk.new) }
        ensures called { Called (D.medium disk.old) (D.medium disk.new) (failed_read result) }
    {
        self.read_part(disk, segment, slot, number, 0, out)
    }

    /// Reads a part of the pixels of a slot that should hold frame `number`: as many bytes as `out` has, from byte
    /// `at` on. At most two reads, of the head and of that part. After a refusal `out` may hold any bytes.
    pub fn read_part<D: Disk>(
        &self,
        disk: &mut D,
        segment: u32,
        slot: u32,
        number: u64,
        at: u32,
        out: &mut [u8],
    ) -> Result<FrameHead, SlotFault>
        requires extent { (D.medium disk.old).size ≡ disk_size self.now.geometry }
        requires segment { segment < self.now.geometry.segments }
        requires slot { slot < self.now.geometry.slots }
        requires part { at + length out.old ≤ frame_bytes self.now.geometry }
        ensures part { (D.medium disk.old).honest
            → AnswersPart (frame_bytes self.now.geometry) number
            (slot_of self.now.geometry (D.medium disk.old).bytes segment slot) at result out.new }
        ensures damage { (damage : Damage) → result ≡ Err (SlotFault.Damaged damage) → damage ≡ Damage.SlotHead }
        ensures disk { (D.medium disk.old).honest → Stays (D.medium disk.old) (D.medium disk.new) }
        ensures called { Called (D.medium disk.old) (D.medium disk.new) (failed_read result) }
    {
        let head = self.read_head(disk, segment, slot, number)?;
        let place = self.geometry.slot_at(segment, slot);
        disk.read(place + HEAD_SIZE as u64 + u64::from(at), out)?;
        Ok(head)
    }

    /// Reads the head of a slot that should hold frame `number`, without its pixels: one read, of 32 bytes.
    pub fn read_head<D: Disk>(
        &self,
        disk: &mut D,
        segment: u32,
        slot: u32,
        number: u64,
    ) -> Result<FrameHead, SlotFault>
        requires extent { (D.medium disk.old).size ≡ disk_size self.now.geometry }
        requires segment { segment < self.now.geometry.segments }
        requires slot { slot < self.now.geometry.slots }
        ensures head { (D.medium disk.old).honest
            → AnswersHead (slot_head (frame_bytes self.now.geometry) number
            (slot_of self.now.geometry (D.medium disk.old).bytes segment slot)) result }
        ensures damage { (damage : Damage) → result ≡ Err (SlotFault.Damaged damage) → damage ≡ Damage.SlotHead }
        ensures disk { (D.medium disk.old).honest → Stays (D.medium disk.old) (D.medium disk.new) }
        ensures called { Called (D.medium disk.old) (D.medium disk.new) (failed_read result) }
    {
        let place = self.geometry.slot_at(segment, slot);
        let mut bytes = [0; HEAD_SIZE];
        disk.read(place, &mut bytes)?;
        let head = decode_head(&bytes, number, self.geometry.frame_bytes())?;
        Ok(head)
    }
}
