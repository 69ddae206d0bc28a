//! What a store's file says of its newest and its oldest frame before the store is opened: its headers, and two heads.
//! And which blocks may go, once it is.

ghost use Rattle.std.specs.Prelude.{◌≡◌, IfSome, IsTrue};
ghost use Rattle.loop_record.specs.Geometry.{is_good};

use loop_disk::Disk;
use loop_record::{
    Found, FrameHead, Geometry, HEAD_SIZE, HEADER_SIZE, SUPER_SIZE, decode_head, decode_header,
    decode_super,
};
use loop_store::{Clip, Store};
use std::alloc::Global;

/// The newest and the oldest frame of a store, and whether it has room for a block before one goes.
#[derive(Clone, Copy)]
pub struct StoreEnds {
    pub newest: FrameHead,
    pub oldest: FrameHead,
    pub roomy: bool,
}

// The newest and the oldest block that has a frame, and whether a segment has none.
#[derive(Clone, Copy)]
struct Blocks {
    newest: Option<Found>,
    oldest: Option<Found>,
    roomy: bool,
}

// Reads bytes of a disk, if it has them.
fn read_at<D: Disk>(disk: &mut D, at: u64, out: &mut [u8]) -> Option<()> {
    let end = at.checked_add(out.len() as u64)?;
    if end > disk.size() {
        return None;
    }
    disk.read(at, out).ok()
}

// The geometry of the store on a disk, if it is one.
fn geometry_on<D: Disk>(disk: &mut D) -> Option<Geometry>
    ensures { IfSome result (λ g. IsTrue (is_good g)) }
{
    let mut superblock = [0; SUPER_SIZE];
    read_at(disk, 0, &mut superblock)?;
    let Ok(head) = decode_super(&superblock) else {
        return None;
    };
    match head.geometry.check() {
        Ok(()) => Some(head.geometry),
        Err(_) => None,
    }
}

// What the header of a segment says.
fn block_at<D: Disk>(disk: &mut D, geometry: &Geometry, segment: u32) -> Option<Found>
    requires { IsTrue (is_good geometry.now) }
{
    if segment >= geometry.segments {
        return None;
    }
    let mut header = [0; HEADER_SIZE];
    read_at(disk, geometry.segment_at(segment), &mut header)?;
    match decode_header(geometry, &header) {
        Ok(Some(head)) => Some(Found {
            segment,
            block: head.block,
            frames: head.frames,
        }),
        _ => None,
    }
}

// The head of a block's frame.
fn head_in<D: Disk>(disk: &mut D, geometry: &Geometry, found: Found, slot: u32) -> Option<FrameHead>
    requires { IsTrue (is_good geometry.now) }
{
    if found.segment >= geometry.segments || slot >= geometry.slots {
        return None;
    }
    let first = found.block.saturating_mul(u64::from(geometry.slots));
    let mut head = [0; HEAD_SIZE];
    read_at(disk, geometry.slot_at(found.segment, slot), &mut head)?;
    let number = first.saturating_add(u64::from(slot));
    decode_head(&head, number, geometry.frame_bytes()).ok()
}

impl Blocks {
    // One more segment, which has a block or is free.
    fn with(self, found: Option<Found>) -> Blocks {
        let mut blocks = self;
        match found {
            Some(found) if found.frames > 0 => {
                if !matches!(self.newest, Some(newest) if newest.block >= found.block) {
                    blocks.newest = Some(found);
                }
                if !matches!(self.oldest, Some(oldest) if oldest.block <= found.block) {
                    blocks.oldest = Some(found);
                }
            }
            _ => blocks.roomy = true,
        }
        blocks
    }
}

/// The ends of the store on a disk. None where it has no frame, or can't be read: opening it says why.
pub fn ends_on<D: Disk>(disk: &mut D) -> Option<StoreEnds> {
    let geometry = geometry_on(disk)?;
    let mut blocks = Blocks {
        newest: None,
        oldest: None,
        roomy: false,
    };
    for segment in 0..geometry.segments {
        blocks = blocks.with(block_at(disk, &geometry, segment));
    }
    let (newest, oldest) = (blocks.newest?, blocks.oldest?);
    Some(StoreEnds {
        newest: head_in(disk, &geometry, newest, newest.frames.saturating_sub(1))?,
        oldest: head_in(disk, &geometry, oldest, 0)?,
        roomy: blocks.roomy,
    })
}

/// How many frames a store has room for before a block goes.
pub fn free_frames<D: Disk + Drop>(store: &Store<D>) -> u64 {
    let geometry = store.geometry();
    let slots = u64::from(geometry.slots.max(1));
    let free = u64::from(geometry.segments.saturating_sub(store.held_blocks()));
    free.saturating_mul(slots)
        .saturating_add(u64::from(store.room()) % slots)
}

/// The sequences of the first frames of a store's blocks that may go, the oldest first: no clip meets them, and they
/// aren't among the newest that are kept. Where memory is refused, some of the newest are left out.
pub fn going_blocks<D: Disk + Drop>(alloc: Global, store: &Store<D>, clips: &[Clip]) -> Vec<u32> {
    let geometry = store.geometry();
    let slots = u64::from(geometry.slots.max(1));
    let newest = store.next().saturating_sub(1) / slots;
    let kept = u64::from(store.keep().max(1));
    let (mut firsts, mut from) = (Vec::new(alloc), 0);
    for _ in 0..geometry.segments {
        let Some(first) = store.next_held(from) else {
            break;
        };
        let block = first / slots;
        if block.saturating_add(kept) > newest {
            break;
        }
        let began = block.saturating_mul(slots);
        from = began.saturating_add(slots);
        let is_locked = meets(clips, began, from.saturating_sub(1));
        if let Some(sequence) = store.sequence(first)
            && !is_locked
        {
            if firsts.push(sequence).is_err() {
                break;
            }
        }
    }
    firsts
}

// Whether a clip has a number from one to another.
fn meets(clips: &[Clip], from: u64, to: u64) -> bool {
    for clip in clips {
        if clip.from <= to && from <= clip.to {
            return true;
        }
    }
    false
}
