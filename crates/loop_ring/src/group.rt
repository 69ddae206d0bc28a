// A group of frames that are written together.
ghost use Rattle.std.specs.Prelude.{◌≡◌, ◌+◌, ◌*◌, ◌<◌, ◌≤◌, ◌^◌, ◌∷◌, ◌++◌, [], All, IsTrue, length, min, slice_index_or, take};
ghost use Rattle.loop_disk.specs.Rows.{joined};
ghost use Rattle.loop_record.specs.Geometry.{frame_bytes, is_good};
ghost use Rattle.loop_record.specs.Laws.{FitsSlot};
ghost use Rattle.loop_record.specs.Layout.{slot_bytes};
ghost use Rattle.loop_record.specs.Plain.{pictures};
ghost use Rattle.loop_record.specs.Recording.{Picture, picture};
ghost use Rattle.loop_ring.specs.Groups.{Grouped, IsGrouped, first_slots, frames_in, slot_stamp};
ghost use Rattle.loop_ring.specs.Writes.{slots_in, slots_of};

use loop_record::{Frame, Geometry, HEAD_SIZE, encode_head};
use std::alloc::Allocator;
use std::marker::Model;

/// The most frames that one commit takes.
pub const MAX_GROUP: usize = 64;

/// The most rows of a group's slots: for each frame the head and the bytes.
pub(crate) const MAX_ROWS: usize = 2 * MAX_GROUP;

/// What is known in memory of the frame in a slot.
#[derive(Clone, Copy, Debug, PartialEq, Eq)]
pub struct SlotStamp {
    /// Its time in microseconds.
    pub time: u64,
    /// Its number in the source's count, as the source gave it.
    pub sequence: u32,
}

/// What is known where no frame is.
pub const NO_STAMP: SlotStamp = SlotStamp {
    time: 0,
    sequence: 0,
};

/// Frames that are written together, numbered from a first one on. It owns the heads of their slots, and borrows their
/// bytes: none is copied. In contracts it is the first number and the list of the frames.
#[derive(Drop)]
pub struct Group<'a> {
    heads: [[u8; HEAD_SIZE]; MAX_GROUP],
    bodies: [&'a [u8]; MAX_GROUP],
    stamps: [SlotStamp; MAX_GROUP],
    frame_bytes: usize,
    limit: usize,
    first: u64,
    count: usize,
}

impl<'a> Model for Group<'a> {
    ghost Value = { Grouped };

    ghost view = { λ g.
        record {
          size = g.frame_bytes;
          limit = g.limit;
          first = g.first;
          frames = frames_in g.frame_bytes (first_slots g.count g.heads g.bodies) g.count;
        } };

    ghost invariant = { λ g. IsGrouped g.frame_bytes g.limit g.first g.count g.heads g.bodies g.stamps };
}

impl<'a> Group<'a> {
    /// A group without a frame, for frames of this geometry. The first frame gets this number.
    pub fn new(geometry: &Geometry, first: u64) -> Self
        requires { IsTrue (is_good geometry.now) }
        ensures { result ≡ record {
          size = frame_bytes geometry.now;
          limit = min 64 geometry.now.slots;
          first = first;
          frames = [];
        } }
    {
        Group {
            heads: [[0; HEAD_SIZE]; MAX_GROUP],
            bodies: [&[]; MAX_GROUP],
            stamps: [NO_STAMP; MAX_GROUP],
            frame_bytes: geometry.frame_bytes() as usize,
            limit: MAX_GROUP.min(geometry.slots as usize),
            first,
            count: 0,
        }
    }

    /// Adds a frame after the others.
    pub fn push<B: Allocator>(&mut self, frame: &'a Frame<B>)
        requires room { length self.old.frames < self.old.limit }
        requires size { length frame.now.bytes.items ≡ self.old.size }
        requires number { self.old.first + length self.old.frames < 2 ^ 64 }
        ensures { self.new ≡ record self.old { frames = self.old.frames ++ picture frame.now ∷ [] } }
    {
        self.heads[self.count] = head_of(self.first + self.count as u64, frame);
        self.bodies[self.count] = &frame.bytes;
        self.stamps[self.count] = SlotStamp {
            time: frame.timestamp,
            sequence: frame.sequence,
        };
        self.count += 1;
    }

    /// Adds frames after the others, in their order.
    pub fn push_all<B: Allocator>(&mut self, frames: &'a [Frame<B>])
        requires room { length self.old.frames + length frames.now ≤ self.old.limit }
        requires sizes { All (λ frame. length frame.bytes.items ≡ self.old.size) frames.now }
        requires numbers { self.old.first + length self.old.frames + length frames.now ≤ 2 ^ 64 }
        ensures { self.new ≡ record self.old { frames = self.old.frames ++ pictures frames.now } }
    {
        for frame in frames {
            self.push(frame);
        }
    }

    /// How many frames it has.
    pub fn len(&self) -> usize
        ensures count { result ≡ length self.now.frames }
        ensures few { result ≤ 64 }
    {
        self.count
    }

    /// The number of the first frame.
    pub fn first(&self) -> u64
        ensures { result ≡ self.now.first }
    {
        self.first
    }

    /// The time and the sequence of a frame, by its place in the group.
    pub fn stamp(&self, place: usize) -> SlotStamp
        requires { place < length self.now.frames }
        ensures { (d : Picture) → result ≡ slot_stamp (slice_index_or self.now.frames place d) }
    {
        let stamps: &[SlotStamp] = &self.stamps;
        stamps[place]
    }

    /// The rows of the slots: for each frame the head, and then the bytes.
    pub(crate) fn rows(&self) -> [&[u8]; MAX_ROWS]
        ensures size { length (joined (take (2 * length self.now.frames) result))
            ≡ length self.now.frames * (32 + self.now.size) }
        ensures slots { slots_in self.now.size (joined (take (2 * length self.now.frames) result))
            (length self.now.frames) ≡ slots_of self.now.size self.now.first self.now.frames }
    {
        rows_of(&self.heads, &self.bodies, self.count)
    }
}

// The rows of the first slots.
fn rows_of<'b>(
    heads: &'b [[u8; HEAD_SIZE]; MAX_GROUP],
    bodies: &[&'b [u8]; MAX_GROUP],
    count: usize,
) -> [&'b [u8]; MAX_ROWS]
    requires { count ≤ 64 }
    ensures { joined (take (2 * count) result) ≡ first_slots count heads.now bodies.now }
{
    let mut rows: [&'b [u8]; MAX_ROWS] = [&[]; MAX_ROWS];
    for place in 0..count {
        rows[2 * place] = &heads[place];
        rows[2 * place + 1] = bodies[place];
    }
    rows
}

// The head of a frame's slot.
fn head_of<B: Allocator>(number: u64, frame: &Frame<B>) -> [u8; HEAD_SIZE]
    requires fits { length frame.now.bytes.items < 2 ^ 32 }
    ensures slot { result ++ frame.now.bytes.items ≡ slot_bytes number (picture frame.now) }
    ensures fits { FitsSlot number (picture frame.now) }
{
    // The prover knows that a field fits its type only once the field was read.
    let _sequence = frame.sequence;
    let _flags = frame.flags;
    let _timestamp = frame.timestamp;
    let mut head = [0; HEAD_SIZE];
    encode_head(number, frame, &mut head);
    head
}
