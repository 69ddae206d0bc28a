// The segments of a store in memory: what each header says, how many clips meet its block, and the open ones by block.
ghost use Rattle.std.specs.Prelude.{◌≡◌, ◌<◌, ◌≤◌, ◌+◌, ◌/◌, ◌%◌, ◌^◌, ◌∷◌, [], ℕ, All, IfOk, IfSome, IsTrue, List, None, Option, is_some, length, not, position, replicate, slice_index_or, slice_set, vec_capacity};
ghost use Rattle.std.specs.List.{count_by, list_any};
ghost use Rattle.loop_record.specs.Geometry.{is_good};
ghost use Rattle.loop_record.specs.declared.geometry.Geometry.{Geometry};
ghost use Rattle.loop_record.specs.Reading.{Holds};
ghost use Rattle.loop_record.specs.Recording.{Recording, ring_of, victim};
ghost use Rattle.loop_ring.specs.Entries.{IsMended};
ghost use Rattle.loop_ring.specs.Heads.{Segments, clip_counts, going_free, grown, has_frame, has_number, heads_of, in_order, is_of, with_clip, without_clip};

use crate::count::{count_clips, lower_counts, raise_counts};
use crate::entry::{first_of, insert_segment, insert_segments, remove_segment};
use crate::victim::{has_frame, victim_of};
use loop_record::{Found, Geometry, SegmentHead, Span};
use std::alloc::{AllocError, Allocator, Global};
use std::marker::Model;

/// The segments of a store. In contracts it is what the header of each says, its block and its whole frames, or
/// nothing where the segment is closed; how many clips meet the block of each; and how many of the newest blocks are
/// kept. It also has the open segments sorted by block, so that `find` looks at few; how many have a frame; and the
/// block that goes when room is needed. Only `new` and `of` take memory.
#[derive(Drop)]
pub struct SegmentIndex<A: Allocator = Global> {
    heads: Vec<Option<SegmentHead>, A>,
    clips: Vec<u32, A>,
    /// The open segments by block, those of one block by segment. There is room for all segments.
    entries: Vec<Found, A>,
    held: u32,
    keep: u32,
    victim: Option<u64>,
}

impl<A: Allocator> Model for SegmentIndex<A> {
    ghost Value = { Segments };

    ghost view = { λ index. record { heads = index.heads.items; clips = index.clips.items; keep = index.keep } };

    ghost invariant = { λ index. IsMended (record {
      heads = index.heads.items;
      clips = index.clips.items;
      keep = index.keep;
    }) index.entries.items (vec_capacity index.entries) index.held index.victim };
}

impl<A: Allocator + Copy> SegmentIndex<A> {
    /// A ring of this many closed segments; the newest block is kept. Its only error is want of memory.
    pub fn new(alloc: A, segments: u32) -> Result<Self, AllocError>
        ensures { IfOk result (λ index. index
            ≡ record { heads = replicate segments None; clips = replicate segments 0; keep = 1 }) }
    {
        let heads = vec![in alloc; None; segments as usize]?;
        SegmentIndex::of(alloc, heads)
    }

    /// Segments whose headers were read before. No clip is counted, and the newest block is kept. It sorts the open
    /// ones. Its only error is want of memory, which drops the headers.
    pub fn of(alloc: A, heads: Vec<Option<SegmentHead>, A>) -> Result<Self, AllocError>
        requires { length heads.items < 2 ^ 32 }
        ensures { IfOk result (λ index. index
            ≡ record { heads = heads.items; clips = replicate (length heads.items) 0; keep = 1 }) }
    {
        let clips = vec![in alloc; 0; heads.len()]?;
        let mut entries = Vec::with_capacity(alloc, heads.len())?;
        insert_segments(&mut entries, &heads);
        let held = count_held(&heads);
        let victim = victim_of(&heads, &clips, &entries, 1);
        Ok(SegmentIndex {
            heads,
            clips,
            entries,
            held,
            keep: 1,
            victim,
        })
    }
}

impl<A: Allocator> SegmentIndex<A> {
    /// Counts the clips that meet each block, where these are all the clips. It takes no memory.
    pub fn count_clips(&mut self, geometry: &Geometry, clips: &[Option<Span>])
        requires good { IsTrue (is_good geometry.now) }
        requires ids { length clips.now < 2 ^ 32 }
        ensures { self.new ≡ record self.old {
          clips = clip_counts (ring_of geometry.now) clips.now self.old.heads;
        } }
    {
        count_clips(&mut self.clips, geometry, &self.heads, clips);
        self.victim = victim_of(&self.heads, &self.clips, &self.entries, self.keep);
    }

    /// How many of the newest blocks of held frames never go. One always stays, even where this is 0.
    pub fn keep(&self) -> u32
        ensures { result ≡ self.now.keep }
    {
        self.keep
    }

    /// Keeps this many of the newest blocks from now on. It takes no memory.
    pub fn keep_newest(&mut self, keep: u32)
        ensures { self.new ≡ record self.old { keep = keep } }
    {
        self.keep = keep;
        self.victim = victim_of(&self.heads, &self.clips, &self.entries, keep);
    }

    /// What the header of a segment says, or nothing where it is closed.
    pub fn get(&self, segment: u32) -> Option<SegmentHead>
        requires { segment < length self.now.heads }
        ensures { result ≡ slice_index_or self.now.heads segment None }
    {
        self.heads[segment as usize]
    }

    /// What the header of each segment says.
    pub fn heads(&self) -> &[Option<SegmentHead>]
        ensures { result.now ≡ self.now.heads }
    {
        &self.heads
    }

    /// The open segments in the order of their blocks; those of one block in the order in which they lie on the disk.
    pub fn in_order(&self) -> &[Found]
        ensures { result.now ≡ in_order 0 self.now.heads }
    {
        &self.entries
    }

    /// Notes what the header of a segment says now, and how many clips meet its block. It takes no memory.
    pub fn set(&mut self, segment: u32, head: Option<SegmentHead>, clips: u32)
        requires { segment < length self.old.heads }
        ensures { self.new ≡ record self.old {
          heads = slice_set self.old.heads segment head;
          clips = slice_set self.old.clips segment clips;
        } }
    {
        remove_segment(&mut self.entries, &self.heads, segment);
        insert_segment(&mut self.entries, &self.heads, segment, head);
        let place = segment as usize;
        self.held = held_after(self.held, self.heads[place], head);
        self.heads[place] = head;
        self.clips[place] = clips;
        self.victim = victim_of(&self.heads, &self.clips, &self.entries, self.keep);
    }

    /// Notes the new number of frames of a segment that has a frame. The same block goes when room is needed. It takes
    /// no memory.
    pub fn grow(&mut self, segment: u32, frames: u32)
        requires held { IsTrue (has_frame (slice_index_or self.old.heads segment None)) }
        requires some { 0 < frames }
        ensures { self.new ≡ record self.old {
          heads = slice_set self.old.heads segment (grown frames (slice_index_or self.old.heads segment None));
        } }
    {
        let place = segment as usize;
        let head = grown(self.heads[place], frames);
        remove_segment(&mut self.entries, &self.heads, segment);
        insert_segment(&mut self.entries, &self.heads, segment, head);
        self.heads[place] = head;
    }

    /// Notes a new clip, where so far fewer than 64 meet each block. It takes no memory.
    pub fn lock_clip(&mut self, geometry: &Geometry, span: Span)
        requires good { IsTrue (is_good geometry.now) }
        requires few { All (λ count. count < 64) self.old.clips }
        ensures { self.new ≡ with_clip (ring_of geometry.now) span self.old }
    {
        raise_counts(&mut self.clips, geometry, &self.heads, span);
        self.victim = victim_of(&self.heads, &self.clips, &self.entries, self.keep);
    }

    /// Notes that a clip is gone. It takes no memory.
    pub fn unlock_clip(&mut self, geometry: &Geometry, span: Span)
        requires { IsTrue (is_good geometry.now) }
        ensures { self.new ≡ without_clip (ring_of geometry.now) span self.old }
    {
        lower_counts(&mut self.clips, geometry, &self.heads, span);
        self.victim = victim_of(&self.heads, &self.clips, &self.entries, self.keep);
    }

    /// The block that goes when room is needed: the least block of a held frame that no clip meets and that isn't
    /// among the newest blocks that are kept. Nothing where none may go. It looks at no segment.
    pub fn victim(&self) -> Option<u64>
        ensures goes { result ≡ going_free self.now }
        ensures victim { (g : Geometry) (r : Recording) (image : List ℕ) → Holds g r image
            → self.now.heads ≡ heads_of g image → self.now.clips ≡ clip_counts (ring_of g) r.clips self.now.heads
            → result ≡ victim (ring_of g) self.now.keep r }
    {
        self.victim
    }

    /// The first segment that holds a block, if one does, and the number of segments whose blocks it looked at: of
    /// fewer than `2^n` segments at most `n`, so 7 where there are 64.
    pub fn find(&self, block: u64) -> (Option<u32>, u32)
        ensures first { result.0 ≡ position (is_of block) self.now.heads }
        ensures looks { (n : ℕ) → length self.now.heads < 2 ^ n → result.1 ≤ n }
    {
        first_of(&self.entries, block)
    }

    /// The first segment that is closed, if one is.
    pub fn first_closed(&self) -> Option<u32>
        ensures { result ≡ position (λ head. not (is_some head)) self.now.heads }
    {
        let place = closed_place(&self.heads)?;
        Some(place as u32)
    }

    /// How many segments have a frame. It looks at no segment.
    pub fn held_blocks(&self) -> u32
        ensures { result ≡ count_by has_frame self.now.heads }
    {
        self.held
    }

    /// Whether a segment has the frame of a number, where blocks have this many frames.
    pub fn holds(&self, slots: u32, number: u64) -> bool
        requires { 0 < slots }
        ensures { result ≡ list_any (has_number slots number) self.now.heads }
    {
        let block = number / u64::from(slots);
        let slot = number % u64::from(slots);
        self.heads.iter().any(|head| has_slot(*head, block, slot))
    }
}

// The first place of a closed segment.
fn closed_place(heads: &[Option<SegmentHead>]) -> Option<usize>
    ensures place { result ≡ position (λ head. not (is_some head)) heads.now }
    ensures within { IfSome result (λ place. place < length heads.now) }
{
    heads.iter().position(|head| head.is_none())
}

// How many segments have a frame.
fn count_held(heads: &[Option<SegmentHead>]) -> u32
    requires { length heads.now < 2 ^ 32 }
    ensures { result ≡ count_by has_frame heads.now }
{
    heads.iter().filter(|head| has_frame(**head)).count() as u32
}

// A segment with this many frames.
fn grown(head: Option<SegmentHead>, frames: u32) -> Option<SegmentHead>
    ensures { result ≡ grown frames head }
{
    head.map(|head| SegmentHead { frames, ..head })
}

// How many segments have a frame after one of them changes.
fn held_after(held: u32, old: Option<SegmentHead>, new: Option<SegmentHead>) -> u32
    requires some { count_by has_frame (old ∷ []) ≤ held }
    requires few { held + count_by has_frame (new ∷ []) < 2 ^ 32 + count_by has_frame (old ∷ []) }
    ensures { result + count_by has_frame (old ∷ []) ≡ held + count_by has_frame (new ∷ []) }
{
    held - u32::from(has_frame(old)) + u32::from(has_frame(new))
}

// Whether a segment is open, holds a block, and has its frame of a slot.
fn has_slot(head: Option<SegmentHead>, block: u64, slot: u64) -> bool
    ensures { (slots : ℕ) (number : ℕ) → block ≡ number / slots → slot ≡ number % slots
        → result ≡ has_number slots number head }
{
    head.is_some_and(|head| head.block == block && slot < u64::from(head.frames))
}
