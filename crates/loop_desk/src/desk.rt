//! A desk: frames that wait, before a store.

ghost use Rattle.std.specs.Prelude.{◌≡◌, ◌≢◌, ◌≤◌, ◌+◌, ◌-◌, ◌%◌, ◌∷◌, [], Err, List, None, Ok, ℕ, IfErr, IfOk, drop, false, length, slice_index_or, true};
ghost use Rattle.circular_buffer.specs.Buffer.{buffer};
ghost use Rattle.loop_record.specs.Geometry.{frame_bytes};
ghost use Rattle.loop_record.specs.Plain.{pictures};
ghost use Rattle.loop_record.specs.Recording.{Recording, last_number, picture, ring_of};
ghost use Rattle.loop_desk.specs.Desk.{DeskState, clip_locked, clip_unlocked, flushed, frame_read, layout_upgraded, runs_told, submit_answer, submitted};
ghost use Rattle.loop_desk.specs.Space.{TellsOldest, TellsSpace};
ghost use Rattle.loop_desk.specs.Seen.{DeskGoes, IsDesk, Opens, OutlineRefuses, SeenDesk, TellsDesk, TellsOutline, TellsStatus, answer_of, rules_of};
ghost use Rattle.loop_store.specs.Calls.{read_with};
ghost use Rattle.loop_store.specs.Reopen.{TellsOne};
ghost use Rattle.loop_store.specs.Runs.{read_of};
ghost use Rattle.loop_store.specs.Seen.{Refused, StandsFor, ring_in};

use crate::group::append_first;
use crate::{DeskLimits, Flushed, Outline, Space, Status};
use circular_buffer::HeapCircularBuffer;
use loop_disk::Disk;
use loop_record::{Frame, FrameHead, Geometry, Span, Times};
use loop_store::laws::{a_store_is_opened, a_store_tells};
use loop_store::{ReadFrame, Store, StoreFault};
use std::alloc::{Allocator, Global};
use std::marker::Model;

/// A store, and the frames that wait to be stored. Those are lost if the desk is dropped or the power fails. The memory
/// of stored frames is kept for later ones.
#[derive(Drop)]
pub struct Desk<D: Disk + Drop, A: Allocator = Global> {
    store: Store<D, A>,
    pending: HeapCircularBuffer<Frame<A>, A>,
    spare: HeapCircularBuffer<Vec<u8, A>, A>,
    limits: DeskLimits,
}

impl<D: Disk + Drop, A: Allocator> Model for Desk<D, A> {
    ghost Value = { SeenDesk D };

    ghost view = { λ d. record { store = d.store; pending = pictures d.pending.items; limits = d.limits } };

    ghost invariant = { λ d. IsDesk d.store d.limits d.pending };
}

// Removes the first `count` frames that wait, and keeps their memory for later ones.
fn set_aside<A: Allocator>(
    pending: &mut HeapCircularBuffer<Frame<A>, A>,
    spare: &mut HeapCircularBuffer<Vec<u8, A>, A>,
    count: usize,
)
    ensures { pending.new ≡ buffer (drop count pending.old.items) pending.old.capacity }
{
    for _ in 0..count {
        if let Some(frame) = pending.pop_front() {
            spare.push_back(frame.bytes);
        }
    }
}

impl<D: Disk + Drop, A: Allocator + Copy> Desk<D, A> {
    /// A desk at which nothing waits. It allocates the lists of the frames that may wait and of the memory that is
    /// kept. If memory is refused, the store comes back.
    pub fn new(alloc: A, store: Store<D, A>, limits: DeskLimits) -> Result<Self, Store<D, A>>
        requires pending { (1 ≤ limits.pending) × (limits.pending ≤ 64) }
        requires group { (1 ≤ limits.group) × (limits.group ≤ 64) }
        ensures made { IfOk result (λ desk. desk ≡ record { store = store; pending = []; limits = limits }) }
        ensures refused { IfErr result (λ back. back ≡ store) }
    {
        let most = limits.pending as usize;
        let (Ok(pending), Ok(spare)) = (
            HeapCircularBuffer::with_capacity(alloc, most),
            HeapCircularBuffer::with_capacity(alloc, most),
        ) else {
            return Err(store);
        };
        Ok(Desk {
            store,
            pending,
            spare,
            limits,
        })
    }
}

impl<D: Disk + Drop, A: Allocator> Desk<D, A> {
    /// Memory of a stored frame, to be filled again by a later one; None if there is none.
    pub fn spare_memory(&mut self) -> Option<Vec<u8, A>>
        ensures { self.new ≡ self.old }
    {
        self.spare.pop_back()
    }

    /// Keeps memory for a later frame; if there is no room for it, the oldest that is kept is dropped.
    pub fn return_memory(&mut self, bytes: Vec<u8, A>)
        ensures { self.new ≡ self.old }
    {
        self.spare.push_back(bytes);
    }

    // Spare memory for reading the frame of a number; None if that isn't held, or there is none.
    fn spare_for(&mut self, number: u64) -> Option<Vec<u8, A>>
        ensures { self.new ≡ self.old }
    {
        if self.store.holds(number) {
            return self.spare_memory();
        }
        None
    }

    /// A law: a desk answers by some recording; and unless it must be reopened, if its disk is honest, its store stands
    /// for the recording that the disk holds. The function does nothing: its contract is the law.
    pub fn opens(&self)
        ensures tells { TellsOne self.now.store }
        ensures opens { self.now.store.must_reopen ≡ false → Opens D.medium self.now }
    {
        a_store_tells(&self.store);
        a_store_is_opened(&self.store);
    }

    /// The geometry of the store.
    pub fn geometry(&self) -> Geometry
        ensures { result ≡ self.now.store.geometry }
    {
        self.store.geometry()
    }

    /// The desk's limits.
    pub fn limits(&self) -> DeskLimits
        ensures { result ≡ self.now.limits }
    {
        self.limits
    }

    /// How many frames the block of the next number still takes, as `Store::room`.
    pub fn room(&self) -> u32
        ensures { result
            ≡ self.now.store.geometry.slots - self.now.store.next % self.now.store.geometry.slots }
    {
        self.store.room()
    }

    // The sequence of the first frame of the block that goes when room is needed; None where none may go.
    fn oldest(&self) -> Option<u32>
        ensures { (r : Recording) → StandsFor D.medium self.now.store r
            → TellsOldest (ring_in self.now.store) self.now.store.keep r result }
    {
        let block = self.store.victim()?;
        let slots = u64::from(self.store.geometry().slots);
        let first = self.store.next_held(block.saturating_mul(slots))?;
        self.store.sequence(first)
    }

    /// What the store tells of the room that it has for a block. It takes no memory and makes no call of the disk.
    pub fn space(&self) -> Space
        ensures { (r : Recording) → StandsFor D.medium self.now.store r
            → TellsSpace (ring_in self.now.store) self.now.store.keep r result }
    {
        Space {
            free: self.store.held_blocks() < self.store.geometry().segments,
            oldest: self.oldest(),
        }
    }

    // The number that a frame will have, or why it isn't accepted.
    fn number_for(&self, frame: &Frame<A>) -> Result<u64, StoreFault>
        ensures answer { (s : DeskState) → TellsDesk self.now s
            → result ≡ submit_answer (rules_of self.now) s (length frame.now.bytes.items) }
        ensures size { IfOk result (λ _. length frame.now.bytes.items ≡ frame_bytes self.now.store.geometry) }
        ensures room { IfOk result (λ _. length self.now.pending ≢ self.now.limits.pending) }
        ensures low { IfOk result (λ _. self.now.store.next + length self.now.pending
            ≢ last_number (ring_of self.now.store.geometry)) }
    {
        if self.store.must_reopen() {
            return Err(StoreFault::MustReopen);
        }
        if frame.bytes.len() != self.store.geometry().frame_bytes() as usize {
            return Err(StoreFault::WrongSize);
        }
        if self.pending.is_full() {
            return Err(StoreFault::PendingFull);
        }
        let number = self.store.next() + self.pending.len() as u64;
        if number == self.store.last_number() {
            return Err(StoreFault::NumbersSpent);
        }
        Ok(number)
    }

    /// Accepts a frame, to wait after the others, and returns the number that it will have if it is stored in this
    /// session.
    ///
    /// `MustReopen` if a call that writes has failed; otherwise `WrongSize` if the frame hasn't the length that the
    /// geometry asks; then `PendingFull` if as many frames wait as may; then `NumbersSpent` if no number is left. Each
    /// hands the frame back. It takes no memory and makes no call of the disk.
    pub fn submit(&mut self, frame: Frame<A>) -> Result<u64, (StoreFault, Frame<A>)>
        ensures goes { DeskGoes D.medium self.old self.new
            (submitted (picture frame) (length frame.bytes.items) (answer_of result) ∷ []) }
        ensures back { IfErr result (λ refused. refused.1 ≡ frame) }
        ensures same { self.new ≡ record self.old { pending = self.new.pending } }
    {
        a_store_tells(&self.store);
        match self.number_for(&frame) {
            Ok(number) => {
                self.pending.push_back(frame);
                Ok(number)
            }
            Err(fault) => Err((fault, frame)),
        }
    }

    /// Stores the first frames that wait, all or none: as many as a group may have and the block of the next number has
    /// room for. It takes no memory and copies no pixel.
    ///
    /// If nothing waits, it makes no call of the disk. `MustReopen` comes before that; all else is as `Store::append`
    /// has it. A refusal keeps every frame that waits.
    pub fn flush(&mut self) -> Result<Flushed, StoreFault>
        ensures goes { DeskGoes D.medium self.old self.new (flushed result ∷ []) }
        ensures refused { Refused self.old.store self.new.store result }
        ensures idle { self.old.pending ≡ [] → self.new ≡ self.old }
    {
        a_store_tells(&self.store);
        let waiting = self.pending.len();
        let most = self.limits.group.min(self.store.room()) as usize;
        let count = most.min(waiting);
        if count == 0 {
            if self.store.must_reopen() {
                return Err(StoreFault::MustReopen);
            }
            return Ok(Flushed {
                first: self.store.next(),
                stored: 0,
                left: 0,
            });
        }
        match append_first(&mut self.store, self.pending.make_contiguous(), count) {
            Ok(first) => {
                set_aside(&mut self.pending, &mut self.spare, count);
                Ok(Flushed {
                    first,
                    stored: count as u32,
                    left: (waiting - count) as u32,
                })
            }
            Err(fault) => Err(fault),
        }
    }

    /// Locks the frames from a number to another, with a tag, as `Store::lock`, and returns the clip's id. A frame that
    /// waits isn't held yet.
    pub fn lock_clip(&mut self, from: u64, to: u64, tag: u64) -> Result<u32, StoreFault>
        ensures goes { DeskGoes D.medium self.old self.new
            (clip_locked (record { from = from; to = to; tag = tag }) result ∷ []) }
        ensures refused { Refused self.old.store self.new.store result }
    {
        self.store.lock(from, to, tag)
    }

    /// Unlocks the clip of an id, as `Store::unlock`.
    pub fn unlock_clip(&mut self, id: u32) -> Result<(), StoreFault>
        ensures goes { DeskGoes D.medium self.old self.new (clip_unlocked id result ∷ []) }
        ensures refused { Refused self.old.store self.new.store result }
    {
        self.store.unlock(id)
    }

    /// The clip of an id, as `Store::clip`.
    pub fn clip(&self, id: u32) -> Option<Span>
        ensures { result ≡ slice_index_or self.now.store.clips id None }
    {
        self.store.clip(id)
    }

    /// Reads the head of a stored frame and none of its bytes, as `Store::read_head`. A frame that waits isn't held
    /// yet.
    pub fn read_head(&mut self, number: u64) -> Result<FrameHead, StoreFault>
        ensures goes { (bytes : List ℕ)
            × DeskGoes D.medium self.old self.new (frame_read number (read_with result bytes) ∷ []) }
        ensures same { self.new
            ≡ record self.old { store = record self.old.store { disk = self.new.store.disk } } }
    {
        self.store.read_head(number)
    }

    /// The version of the layout.
    pub fn version(&self) -> u32
        ensures { result ≡ self.now.store.version }
    {
        self.store.version()
    }

    /// How many of the newest blocks of held frames are never removed, as `Store::keep`.
    pub fn keep(&self) -> u32
        ensures { result ≡ self.now.store.keep }
    {
        self.store.keep()
    }

    /// Upgrades the layout from version 1 to version 2, as `Store::upgrade`, and returns whether it did. Frames that
    /// wait play no part.
    pub fn upgrade(&mut self) -> Result<bool, StoreFault>
        ensures goes { DeskGoes D.medium self.old self.new (layout_upgraded result ∷ []) }
        ensures refused { Refused self.old.store self.new.store result }
        ensures unmoved { result ≡ Ok false → self.new ≡ self.old }
    {
        self.store.upgrade()
    }

    /// The counts of the desk. It takes no memory, makes no call of the disk and is never refused. If the store must be
    /// reopened, the counts are those from before the call that failed.
    pub fn status(&self) -> Status
        ensures { TellsStatus D.medium self.now result }
    {
        Status {
            next: self.store.next(),
            held: self.store.held(),
            pending: self.pending.len() as u32,
            must_reopen: self.store.must_reopen(),
        }
    }

    /// The disk, as the calls left it. Frames that wait are lost.
    pub fn into_disk(self) -> D
        ensures { result ≡ self.store.disk }
    {
        let Desk {
            store,
            pending: _,
            spare: _,
            limits: _,
        } = self;
        store.into_disk()
    }
}

impl<D: Disk + Drop, A: Allocator + Copy> Desk<D, A> {
    /// Reads a stored frame, into memory of a frame that was stored or new: `MustReopen`, `NotHeld`, `NoMemory`, then
    /// `Disk` or `Damaged`, as `Store::read_frame`. A frame that waits isn't held yet. A caller that is done with the
    /// frame may give its memory back (`return_memory`).
    pub fn read_frame(&mut self, alloc: A, number: u64) -> Result<ReadFrame<A>, StoreFault>
        ensures goes { DeskGoes D.medium self.old self.new (frame_read number (read_of result) ∷ []) }
        ensures same { self.new.store ≡ record self.old.store { disk = self.new.store.disk } }
    {
        let spare = self.spare_for(number);
        self.store.read_frame_in(alloc, spare, number)
    }

    /// The held frames whose times are among these, as runs of their numbers, from memory, as `Store::sought`. A frame
    /// that waits isn't held yet. `MustReopen` if a call that writes has failed; otherwise `NoMemory`.
    pub fn sought(&self, alloc: A, times: Times) -> Result<Vec<Span, A>, StoreFault>
        ensures goes { IfOk result (λ runs. DeskGoes D.medium self.now self.now (runs_told times 0 runs.items)) }
        ensures refused { IfErr result (λ fault. OutlineRefuses self.now fault) }
    {
        self.store.sought(alloc, times)
    }

    /// What the desk holds: the version of the layout, how many of the newest blocks are never removed, the next
    /// number, the numbers of the held frames, the clips, and how many frames wait. `MustReopen` if a call that writes
    /// has failed; otherwise `NoMemory`.
    pub fn outline(&self, alloc: A) -> Result<Outline<A>, StoreFault>
        ensures outline { IfOk result (TellsOutline D.medium self.now) }
        ensures refused { IfErr result (λ fault. OutlineRefuses self.now fault) }
        ensures must_reopen { self.now.store.must_reopen ≡ true → result ≡ Err StoreFault.MustReopen }
    {
        let frames = self.store.frames(alloc)?;
        let clips = self.store.clips(alloc)?;
        Ok(Outline {
            version: self.store.version(),
            keep: self.store.keep(),
            next: self.store.next(),
            frames,
            clips,
            pending: self.pending.len() as u32,
        })
    }
}
