//! What a store knows in memory of the recording on a disk.

ghost use Rattle.std.specs.Prelude.{◌≡◌, ◌≢◌, ◌⊎◌, ◌&&◌, ◌+◌, ◌*◌, ◌/◌, ◌%◌, ◌<◌, ◌≤◌, ◌↔◌, ℕ, Err, IfErr, IfOk, IfSome, IsTrue, List, None, Some, length, slice_index_or, slice_set};
ghost use Rattle.std.specs.List.{position};
ghost use Rattle.loop_record.specs.Geometry.{is_good};
ghost use Rattle.loop_record.specs.Recording.{Recording, last_number, ring_of, victim};
ghost use Rattle.loop_ring.specs.Heads.{IsPlaceOf, clip_counts, has_frame, heads_of, is_of};
ghost use Rattle.loop_store.specs.AppendPlace.{AnswersPlace, IsPlace, place_segment};
ghost use Rattle.loop_store.specs.Index.{IsClipNoted, IsIndex, IsIndexOf, IsNoted, IsOf};
ghost use Rattle.loop_store.specs.Times.{HasStamps};

use crate::StoreFault;
use crate::place::AppendPlace;
use loop_clips::ClipTable;
use loop_record::{Geometry, NUMBERS_END, SegmentHead, Span, SuperHead};
use loop_ring::{Group, NO_STAMP, Ring, SegmentIndex, SlotStamp, clips_on};
use std::alloc::{AllocError, Allocator};

/// The geometry and the version of the layout; what the header of each segment says, and how many clips meet its
/// block; the clip of each id; the number that the next frame gets; and the time and
/// the sequence at each slot of the ring.
#[derive(Drop)]
pub(crate) struct Index<A: Allocator> {
    pub(crate) ring: Ring,
    pub(crate) version: u32,
    pub(crate) table: SegmentIndex<A>,
    pub(crate) clips: ClipTable,
    pub(crate) next: u64,
    /// The stamps, segment by segment. Where a slot has no whole frame, the value means nothing.
    pub(crate) stamps: Vec<SlotStamp, A>,
}

/// Memory for the stamp of each slot of a ring.
pub(crate) fn stamps_for<A: Allocator>(
    alloc: A,
    geometry: &Geometry,
) -> Result<Vec<SlotStamp, A>, AllocError>
    requires { IsTrue (is_good geometry.now) }
    ensures { IfOk result (λ stamps. length stamps.items ≡ geometry.now.segments * geometry.now.slots) }
{
    vec![in alloc; NO_STAMP; geometry.segments as usize * geometry.slots as usize]
}

/// The number that no frame gets: the first of a block whose frames would reach 2^62.
pub(crate) fn last_number(geometry: &Geometry) -> u64
    requires { IsTrue (is_good geometry.now) }
    ensures { result ≡ last_number (ring_of geometry.now) }
{
    let slots = u64::from(geometry.slots);
    slots * (NUMBERS_END / slots)
}

// Whether a segment has a frame of a block.
fn has_frame_of(head: Option<SegmentHead>, block: u64) -> bool
    ensures { result ≡ (is_of block head && has_frame head) }
{
    head.is_some_and(|head| head.block == block && head.frames > 0)
}

/// The index of what was found on a disk. It takes no memory, and neither does a later note in it.
pub(crate) fn index_of<A: Allocator>(
    head: SuperHead,
    table: SegmentIndex<A>,
    clips: [Option<Span>; 64],
    next: u64,
    stamps: Vec<SlotStamp, A>,
) -> Index<A>
    requires good { IsTrue (is_good head.geometry) }
    requires keep { table.keep ≡ 1 }
    ensures of { IsOf result head.geometry table.heads clips next }
    ensures version { result.version ≡ head.version }
    ensures stamps { result.stamps ≡ stamps }
{
    let mut table = table;
    let clips = ClipTable::of(clips);
    table.count_clips(&head.geometry, clips.as_slice());
    Index {
        ring: Ring::new(head.geometry),
        version: head.version,
        table,
        clips,
        next,
        stamps,
    }
}

impl<A: Allocator> Index<A> {
    /// The segment that holds a block, if one does.
    pub(crate) fn find(&self, block: u64) -> Option<u32>
        ensures place { result ≡ position (is_of block) self.now.table.heads }
        ensures within { IfSome result (λ segment. segment < length self.now.table.heads) }
    {
        self.table.find(block).0
    }

    // The segment of the block that goes when room is needed; nothing where no block may go.
    fn victim_segment(&self) -> Option<u32>
        requires { IsIndex self.now }
        ensures within { IfSome result (λ segment. segment < length self.now.table.heads) }
        ensures place { (r : Recording) (image : List ℕ) → IsIndexOf self.now r image
            → IsPlaceOf self.now.table.heads (victim (ring_of self.now.ring.geometry) self.now.table.keep r) result }
    {
        let block = self.table.victim()?;
        self.find(block)
    }

    // Where to begin a block that no segment has: the closed segment of least number or, where every segment has a
    // frame, the victim's. Nothing where there is no victim then.
    fn place_of_new(&self) -> Option<AppendPlace>
        requires { IsIndex self.now }
        ensures within { IfSome result (λ place. place_segment place < self.now.ring.geometry.segments) }
        ensures place { (r : Recording) (image : List ℕ) → IsIndexOf self.now r image
            → r.next ≢ last_number (ring_of self.now.ring.geometry)
            → position (is_of (r.next / self.now.ring.geometry.slots)) (heads_of self.now.ring.geometry image) ≡ None
            → IsPlace self.now.ring.geometry self.now.table.keep r image result }
    {
        if self.table.held_blocks() == self.ring.geometry.segments {
            return match self.victim_segment() {
                Some(segment) => Some(AppendPlace::Victim(segment)),
                None => None,
            };
        }
        match self.table.first_closed() {
            Some(segment) => Some(AppendPlace::Closed(segment)),
            None => None,
        }
    }

    // Where the next frames go, as long as a number is left. Nothing where a block has to be recycled first and none
    // may go.
    fn place_of_next(&self) -> Option<AppendPlace>
        requires { IsIndex self.now }
        ensures within { IfSome result (λ place. place_segment place < self.now.ring.geometry.segments) }
        ensures place { (r : Recording) (image : List ℕ) → IsIndexOf self.now r image
            → r.next ≢ last_number (ring_of self.now.ring.geometry)
            → IsPlace self.now.ring.geometry self.now.table.keep r image result }
    {
        match self.find(self.next / u64::from(self.ring.geometry.slots)) {
            Some(segment) => Some(AppendPlace::Newest(segment)),
            None => self.place_of_new(),
        }
    }

    /// Where the next frames go. `NumbersSpent` where no number is left; otherwise `AllLocked` where a block has to be
    /// recycled first and none may go.
    pub(crate) fn place(&self) -> Result<AppendPlace, StoreFault>
        requires { IsIndex self.now }
        ensures within { IfOk result (λ place. place_segment place < self.now.ring.geometry.segments) }
        ensures refusals { IfErr result (λ fault. (fault ≡ StoreFault.NumbersSpent) ⊎ (fault ≡ StoreFault.AllLocked)) }
        ensures spent { (result ≡ Err StoreFault.NumbersSpent) ↔ (self.now.next
            ≡ last_number (ring_of self.now.ring.geometry)) }
        ensures answers { (r : Recording) (image : List ℕ) → IsIndexOf self.now r image
            → AnswersPlace self.now.ring.geometry self.now.table.keep r image result }
    {
        if self.next == last_number(&self.ring.geometry) {
            return Err(StoreFault::NumbersSpent);
        }
        match self.place_of_next() {
            Some(place) => Ok(place),
            None => Err(StoreFault::AllLocked),
        }
    }

    /// Notes that a segment has the block of the next number: the frames before that number, and those of a group from
    /// it on.
    pub(crate) fn note(&mut self, segment: u32, group: &Group<'_>)
        requires index { IsIndex self.old }
        requires segment { segment < length self.old.table.heads }
        requires some { 1 ≤ length group.now.frames }
        requires room { self.old.next % self.old.ring.geometry.slots + length group.now.frames
            ≤ self.old.ring.geometry.slots }
        ensures noted { IsNoted self.old self.new segment (length group.now.frames) }
        ensures stamps { let slots = self.old.ring.geometry.slots in
            HasStamps self.old.stamps.items self.new.stamps.items (segment * slots + self.old.next % slots)
            group.now.frames }
    {
        let slots = u64::from(self.ring.geometry.slots);
        let block = self.next / slots;
        let slot = (self.next % slots) as u32;
        let at = segment as usize * self.ring.geometry.slots as usize + slot as usize;
        put_stamps(self.stamps.as_mut_slice(), at, group);
        let count = group.len() as u32;
        let frames = slot + count;
        let head = SegmentHead { block, frames };
        set_head(
            &mut self.table,
            &self.ring,
            self.clips.as_slice(),
            segment,
            head,
        );
        self.next += u64::from(count);
    }

    /// Notes the clip of an id, or that it has none.
    pub(crate) fn note_clip(&mut self, id: u32, clip: Option<Span>)
        requires index { IsIndex self.old }
        requires id { id < 64 }
        ensures { IsClipNoted self.old self.new id clip }
    {
        uncount_clip(&mut self.table, &self.ring, self.clips.as_slice(), id);
        self.clips.set(id, None);
        count_clip(&mut self.table, &self.ring, self.clips.as_slice(), id, clip);
        self.clips.set(id, clip);
    }
}

// Writes the stamps of a group's frames into a row of stamps, from a place on.
fn put_stamps(stamps: &mut [SlotStamp], at: usize, group: &Group<'_>)
    requires { at + length group.now.frames ≤ length stamps.old }
    ensures { HasStamps stamps.old stamps.new at group.now.frames }
{
    for place in 0..group.len() {
        stamps[at + place] = group.stamp(place);
    }
}

// Sets the header of a segment. A block that has a frame there only grows, so its clips aren't counted again.
fn set_head<A: Allocator>(
    table: &mut SegmentIndex<A>,
    ring: &Ring,
    clips: &[Option<Span>],
    segment: u32,
    head: SegmentHead,
)
    requires ids { length clips.now ≡ 64 }
    requires segment { segment < length table.old.heads }
    requires some { 0 < head.frames }
    requires counted { table.old.clips ≡ clip_counts (ring_of ring.now.geometry) clips.now table.old.heads }
    ensures heads { table.new.heads ≡ slice_set table.old.heads segment (Some head) }
    ensures keep { table.new.keep ≡ table.old.keep }
    ensures counted { table.new.clips ≡ clip_counts (ring_of ring.now.geometry) clips.now table.new.heads }
{
    if has_frame_of(table.get(segment), head.block) {
        table.grow(segment, head.frames);
        return;
    }
    let count = clips_on(&ring.geometry, clips, Some(head));
    table.set(segment, Some(head), count);
}

// Subtracts the clip of an id from the counts, if the id has one.
fn uncount_clip<A: Allocator>(
    table: &mut SegmentIndex<A>,
    ring: &Ring,
    clips: &[Option<Span>],
    id: u32,
)
    requires ids { length clips.now ≡ 64 }
    requires id { id < 64 }
    requires counted { table.old.clips ≡ clip_counts (ring_of ring.now.geometry) clips.now table.old.heads }
    ensures heads { table.new.heads ≡ table.old.heads }
    ensures keep { table.new.keep ≡ table.old.keep }
    ensures counted { table.new.clips
        ≡ clip_counts (ring_of ring.now.geometry) (slice_set clips.now id None) table.old.heads }
{
    if let Some(span) = clips[id as usize] {
        table.unlock_clip(&ring.geometry, span);
    }
}

// Adds a clip, if there is one, to the counts, before it gets an id that is free.
fn count_clip<A: Allocator>(
    table: &mut SegmentIndex<A>,
    ring: &Ring,
    clips: &[Option<Span>],
    id: u32,
    clip: Option<Span>,
)
    requires ids { length clips.now ≡ 64 }
    requires id { id < 64 }
    requires free { slice_index_or clips.now id None ≡ None }
    requires counted { table.old.clips ≡ clip_counts (ring_of ring.now.geometry) clips.now table.old.heads }
    ensures heads { table.new.heads ≡ table.old.heads }
    ensures keep { table.new.keep ≡ table.old.keep }
    ensures counted { table.new.clips
        ≡ clip_counts (ring_of ring.now.geometry) (slice_set clips.now id clip) table.old.heads }
{
    if let Some(span) = clip {
        table.lock_clip(&ring.geometry, span);
    }
}
