//! A store: a disk that holds a recording, and what is known of it in memory.

ghost use Rattle.std.specs.Prelude.{◌≡◌, ◌≢◌, ◌+◌, ◌-◌, ◌%◌, ◌≤◌, ◌↔◌, ◌⊎◌, ◌∷◌, [], All, Ok, Err, List, ℕ, IfErr, IfOk, IsTrue, false, length, map, option_map, ◌<◌, IfSome, None, Some, slice_index_or};
ghost use Rattle.loop_clips.specs.Table.{clip_list};
ghost use Rattle.loop_disk.specs.Calls.{Stays};
ghost use Rattle.loop_record.specs.Geometry.{frame_bytes, is_good};
ghost use Rattle.loop_record.specs.Plain.{pictures};
ghost use Rattle.loop_record.specs.Recording.{Picture, Recording, frame_under, held_blocks, last_number, picture, room, victim, numbers_end};
ghost use Rattle.loop_store.specs.Calls.{appended, locked, read_with, runs_with, sought, unlocked, upgraded, was_read, part_with, was_read_part};
ghost use Rattle.loop_store.specs.Goes.{Goes};
ghost use Rattle.loop_store.specs.Numbers.{IsLeastFrom, is_among};
ghost use Rattle.loop_store.specs.Store.{IsKept};
ghost use Rattle.loop_store.specs.Seen.{Refused, Seen, StandsFor, seen_with, ring_in};

use crate::StoreFault;
use crate::index::{Index, last_number};
use crate::lock::{lock_clip, unlock_clip};
use crate::look::{
    count_held, held_numbers, next_held, read_held, read_held_head, read_held_part, segment_with,
};
use crate::put::put;
use crate::seek::{seek, stamp_under};
use crate::upgrade::upgrade_layout;
use loop_clips::Clip;
use loop_disk::Disk;
use loop_record::{Frame, FrameHead, Geometry, Span, Times};
use loop_ring::Group;
use std::alloc::{Allocator, Global};
use std::marker::Model;

/// A recording on a disk. `format` makes it, and `Store::open` finds it again.
#[derive(Drop)]
pub struct Store<D: Disk + Drop, A: Allocator = Global> {
    pub(crate) disk: D,
    pub(crate) index: Index<A>,
    pub(crate) must_reopen: bool,
}

impl<D: Disk + Drop, A: Allocator> Model for Store<D, A> {
    ghost Value = { Seen D };

    ghost view = { λ s. seen_with s.disk s.index s.must_reopen };

    ghost invariant = { λ s. IsKept D.medium s.disk s.index s.must_reopen };
}

impl<D: Disk + Drop, A: Allocator> Store<D, A> {
    /// The geometry.
    pub fn geometry(&self) -> Geometry
        ensures geometry { result ≡ self.now.geometry }
        ensures good { IsTrue (is_good result) }
    {
        self.index.ring.geometry
    }

    /// The version of the layout: 2, or 1 for a store of old data, in which clips have no tags.
    pub fn version(&self) -> u32
        ensures { result ≡ self.now.version }
    {
        self.index.version
    }

    /// How many of the newest blocks of held frames never go: 1, the newest held frame's, unless the store was opened
    /// by `Store::open_keeping`.
    pub fn keep(&self) -> u32
        ensures { result ≡ self.now.keep }
    {
        self.index.table.keep()
    }

    /// Whether a call that writes has failed, so that the disk has to be taken out and opened again.
    pub fn must_reopen(&self) -> bool
        ensures { result ≡ self.now.must_reopen }
    {
        self.must_reopen
    }

    /// The number that the next frame gets.
    pub fn next(&self) -> u64
        ensures next { result ≡ self.now.next }
        ensures low { result ≤ last_number (ring_in self.now) }
    {
        self.index.next
    }

    /// The most frames that an append may store: as many as the block of the next number still takes.
    pub fn room(&self) -> u32
        ensures room { result ≡ self.now.geometry.slots - self.now.next % self.now.geometry.slots }
        ensures some { 1 ≤ result }
        ensures recording { (r : Recording) → StandsFor D.medium self.now r
            → result ≡ room (ring_in self.now) r }
    {
        let slots = self.index.ring.geometry.slots;
        slots - (self.index.next % u64::from(slots)) as u32
    }

    /// The number that no frame gets, since its block would reach 2^62. Once it is the next number, no number is left.
    pub fn last_number(&self) -> u64
        ensures last { result ≡ last_number (ring_in self.now) }
        ensures low { result ≤ numbers_end }
    {
        last_number(&self.index.ring.geometry)
    }

    /// How many frames are held.
    pub fn held(&self) -> u64
        ensures count { result ≡ length self.now.numbers }
        ensures recording { (r : Recording) → StandsFor D.medium self.now r → result ≡ length r.frames }
    {
        count_held(&self.index)
    }

    /// Whether a frame has this number.
    pub fn holds(&self, number: u64) -> bool
        ensures { result ≡ is_among self.now.numbers number }
    {
        self.index
            .table
            .holds(self.index.ring.geometry.slots, number)
    }

    /// The least number from this one on that a frame has; nothing where no frame has one.
    pub fn next_held(&self, number: u64) -> Option<u64>
        ensures least { IsLeastFrom (is_among self.now.numbers) number result }
        ensures low { IfSome result (λ n. n < numbers_end) }
    {
        next_held(&self.index, number)
    }

    /// The block that goes when an append needs room: the least block of a held frame that no clip meets and that
    /// isn't among the newest that are kept. Nothing where none may go. Where the store must be reopened, it is the
    /// block from before the call that failed.
    pub fn victim(&self) -> Option<u64>
        ensures { (r : Recording) → StandsFor D.medium self.now r
            → result ≡ victim (ring_in self.now) self.now.keep r }
    {
        self.index.table.victim()
    }

    /// How many segments hold a block. It looks at no segment.
    pub fn held_blocks(&self) -> u32
        ensures { (r : Recording) → StandsFor D.medium self.now r → result ≡ length (held_blocks (ring_in self.now) r) }
    {
        self.index.table.held_blocks()
    }

    /// The time of a held frame, from memory, in microseconds. Where no frame has this number, it means nothing.
    pub fn time(&self, number: u64) -> u64
        ensures { (r : Recording) → StandsFor D.medium self.now r → (p : Picture)
            → frame_under r.frames number ≡ Some p → result ≡ p.timestamp }
    {
        stamp_under(&self.index, number).time
    }

    /// The sequence of a held frame, from memory: its number in its source's count. None where no frame has this
    /// number.
    pub fn sequence(&self, number: u64) -> Option<u32>
        ensures { (r : Recording) → StandsFor D.medium self.now r
            → result ≡ option_map (λ p. p.sequence) (frame_under r.frames number) }
    {
        if !self.holds(number) {
            return None;
        }
        Some(stamp_under(&self.index, number).sequence)
    }

    /// The clip of an id, if it has one. It takes no memory, makes no call of the disk and is never refused.
    pub fn clip(&self, id: u32) -> Option<Span>
        ensures { result ≡ slice_index_or self.now.clips id None }
    {
        self.index.clips.get(id)
    }

    /// The disk, as the calls left it.
    pub fn into_disk(self) -> D
        ensures { result ≡ self.disk }
    {
        let Store {
            disk,
            index: _,
            must_reopen: _,
        } = self;
        disk
    }
}

impl<D: Disk + Drop, A: Allocator> Store<D, A> {
    /// Stores a group of 1 to 64 frames after the others, all or none, and returns the number of the first. Each has as
    /// many bytes as the geometry says, and they fit into the block of the next number, as `room` says. A caller that
    /// isn't proved to ensure this uses loop_desk's `Desk`, which refuses a frame of another size. Where that block
    /// has to be begun and every segment holds one, a block goes first: the least one that isn't locked by a clip and
    /// isn't among the newest that are kept.
    ///
    /// `MustReopen` where a call that writes has failed; otherwise `NumbersSpent` where no number is left; then
    /// `AllLocked` where a block would have to go and none may. It takes no memory, and reads nothing. After `Disk`,
    /// of a write or a sync, the store has to be opened again, and its numbers are those from before the call.
    ///
    /// Four calls of the disk: the slots, a sync, the gates of the frames, a sync. Four more where a block is begun,
    /// and two more where one goes first.
    pub fn append(&mut self, frames: &[Frame<A>]) -> Result<u64, StoreFault>
        requires some { 1 ≤ length frames.now }
        requires few { length frames.now ≤ 64 }
        requires room { self.old.next % self.old.geometry.slots + length frames.now ≤ self.old.geometry.slots }
        requires sizes { All (λ frame. length frame.bytes.items ≡ frame_bytes self.old.geometry) frames.now }
        ensures goes { Goes D.medium self.old self.new (appended (pictures frames.now) result ∷ []) }
        ensures refused { Refused self.old self.new result }
    {
        let mut group = Group::new(&self.index.ring.geometry, self.index.next);
        group.push_all(frames);
        put(
            &mut self.disk,
            &mut self.index,
            &mut self.must_reopen,
            &group,
        )
    }

    /// Stores one frame, like `append` with a group of one.
    pub(crate) fn append_one(&mut self, frame: &Frame<A>) -> Result<u64, StoreFault>
        requires { length frame.now.bytes.items ≡ frame_bytes self.old.geometry }
        ensures { Goes D.medium self.old self.new (appended (picture frame.now ∷ []) result ∷ []) }
    {
        let mut group = Group::new(&self.index.ring.geometry, self.index.next);
        group.push(frame);
        put(
            &mut self.disk,
            &mut self.index,
            &mut self.must_reopen,
            &group,
        )
    }
}

impl<D: Disk + Drop, A: Allocator> Store<D, A> {
    /// Locks the frames of a range of numbers, both ends included, and returns the clip's id, the least one that is
    /// free. Their blocks stay until the clip is unlocked.
    ///
    /// `MustReopen` where a call that writes has failed; otherwise `ClipEmpty` where `from` is above `to`; then
    /// `ClipNotHeld` with the least of the numbers that isn't held; then `ClipTableFull` where there are 64 clips;
    /// then `OldLayout` where the tag isn't 0 and the layout has version 1. It takes no memory, and looks at each held
    /// block once, so that no range is too long for it. After `Disk`, of a write or a sync, the store has to be opened
    /// again, and reports what it reported before.
    ///
    /// Four calls of the disk: the entry without its gate, a sync, the gate, a sync.
    pub fn lock(&mut self, from: u64, to: u64, tag: u64) -> Result<u32, StoreFault>
        ensures goes { Goes D.medium self.old self.new
            (locked (record { from = from; to = to; tag = tag }) result ∷ []) }
        ensures refused { Refused self.old self.new result }
    {
        lock_clip(
            &mut self.disk,
            &mut self.index,
            &mut self.must_reopen,
            Span { from, to, tag },
        )
    }

    /// Unlocks the clip of an id.
    ///
    /// `MustReopen` where a call that writes has failed; otherwise `NoSuchClip` where no clip has the id. It takes no
    /// memory. After `Disk`, of a write or a sync, the store has to be opened again, and reports what it reported
    /// before.
    ///
    /// Two calls of the disk: the gate of the entry, a sync.
    pub fn unlock(&mut self, id: u32) -> Result<(), StoreFault>
        ensures goes { Goes D.medium self.old self.new (unlocked id result ∷ []) }
        ensures refused { Refused self.old self.new result }
    {
        unlock_clip(&mut self.disk, &mut self.index, &mut self.must_reopen, id)
    }

    /// Makes version 2 of the layout from version 1, so that clips may have tags, and returns whether it did. In
    /// version 2 it doesn't call the disk.
    ///
    /// `MustReopen` where a call that writes has failed. It takes no memory. A stop at any moment leaves an image that
    /// reads as the same recording, in version 1 or 2. After `Disk`, of a write or a sync, the store has to be opened
    /// again, and reports what it reported before.
    ///
    /// Calls of the disk: a sync, one write for each clip, a sync, the version's gate, a sync.
    pub fn upgrade(&mut self) -> Result<bool, StoreFault>
        ensures goes { Goes D.medium self.old self.new (upgraded result ∷ []) }
        ensures refused { Refused self.old self.new result }
        ensures unmoved { result ≡ Ok false → self.new ≡ self.old }
    {
        upgrade_layout(&mut self.disk, &mut self.index, &mut self.must_reopen)
    }
}

impl<D: Disk + Drop, A: Allocator> Store<D, A> {
    /// Reads the frame of a number: its head, and its bytes into `out`, which has the size of a frame.
    ///
    /// `MustReopen` where a call that writes has failed; otherwise `NotHeld`; then `Disk`, or `Damaged` where
    /// the disk isn't honest. After these two `out` may hold any bytes. It takes no memory.
    pub fn read(&mut self, number: u64, out: &mut [u8]) -> Result<FrameHead, StoreFault>
        requires size { length out.old ≡ frame_bytes self.old.geometry }
        ensures goes { Goes D.medium self.old self.new (was_read number (read_with result out.new) ∷ []) }
        ensures stays { (D.medium self.old.disk).honest → Stays (D.medium self.old.disk) (D.medium self.new.disk) }
        ensures same { self.new ≡ record self.old { disk = self.new.disk } }
        ensures memory { result ≢ Err StoreFault.NoMemory }
        ensures out { ((result ≡ Err StoreFault.MustReopen) ⊎ (result ≡ Err StoreFault.NotHeld)) → out.new ≡ out.old }
    {
        if self.must_reopen {
            return Err(StoreFault::MustReopen);
        }
        match segment_with(&self.index, number) {
            Some(segment) => read_held(&mut self.disk, &self.index.ring, segment, number, out),
            None => Err(StoreFault::NotHeld),
        }
    }

    /// Reads the head of the frame of a number, and none of its bytes. In the model it is a read, whose bytes are
    /// those that the frame has.
    ///
    /// `MustReopen` where a call that writes has failed; otherwise `NotHeld`; then `Disk`, or `Damaged` where
    /// the disk isn't honest. It takes no memory, and makes one call of the disk, of 32 bytes.
    pub fn read_head(&mut self, number: u64) -> Result<FrameHead, StoreFault>
        ensures goes { (bytes : List ℕ)
            × Goes D.medium self.old self.new (was_read number (read_with result bytes) ∷ []) }
        ensures stays { (D.medium self.old.disk).honest → Stays (D.medium self.old.disk) (D.medium self.new.disk) }
        ensures same { self.new ≡ record self.old { disk = self.new.disk } }
        ensures memory { result ≢ Err StoreFault.NoMemory }
    {
        if self.must_reopen {
            return Err(StoreFault::MustReopen);
        }
        match segment_with(&self.index, number) {
            Some(segment) => read_held_head(&mut self.disk, &self.index.ring, segment, number),
            None => Err(StoreFault::NotHeld),
        }
    }

    /// Reads a part of the frame of a number: its bytes from `at` on, as many as `out` has.
    ///
    /// `MustReopen` where a call that writes has failed; otherwise `NotHeld`; then `Disk`, or `Damaged` where
    /// the disk isn't honest. After these two `out` may hold any bytes. It takes no memory.
    pub fn read_part(&mut self, number: u64, at: u32, out: &mut [u8]) -> Result<(), StoreFault>
        requires part { at + length out.old ≤ frame_bytes self.old.geometry }
        ensures goes { Goes D.medium self.old self.new
            (was_read_part number at (part_with result out.new) ∷ []) }
        ensures stays { (D.medium self.old.disk).honest → Stays (D.medium self.old.disk) (D.medium self.new.disk) }
        ensures same { self.new ≡ record self.old { disk = self.new.disk } }
        ensures out { ((result ≡ Err StoreFault.MustReopen) ⊎ (result ≡ Err StoreFault.NotHeld)) → out.new ≡ out.old }
    {
        if self.must_reopen {
            return Err(StoreFault::MustReopen);
        }
        match segment_with(&self.index, number) {
            Some(segment) => {
                read_held_part(&mut self.disk, &self.index.ring, segment, number, at, out)
            }
            None => Err(StoreFault::NotHeld),
        }
    }

    /// The numbers of the held frames, in rising order. `MustReopen` where a call that writes has failed; otherwise
    /// `NoMemory`.
    pub fn frames<B: Allocator + Copy>(&self, alloc: B) -> Result<Vec<u64, B>, StoreFault>
        ensures must_reopen { (result ≡ Err StoreFault.MustReopen) ↔ IsTrue self.now.must_reopen }
        ensures numbers { (r : Recording) → StandsFor D.medium self.now r
            → IfOk result (λ numbers. numbers.items ≡ map (λ f. f.0) r.frames) }
        ensures refusals { IfErr result (λ fault. (fault ≡ StoreFault.MustReopen) ⊎ (fault ≡ StoreFault.NoMemory)) }
    {
        if self.must_reopen {
            return Err(StoreFault::MustReopen);
        }
        Ok(held_numbers(alloc, &self.index)?)
    }

    /// The held frames whose times lie in a span, as runs of their numbers, from memory. The runs rise, have no tag,
    /// and each is as long as it can be.
    ///
    /// `MustReopen` where a call that writes has failed; otherwise `NoMemory`. It doesn't call the disk.
    pub fn sought<B: Allocator + Copy>(
        &self,
        alloc: B,
        times: Times,
    ) -> Result<Vec<Span, B>, StoreFault>
        ensures { Goes D.medium self.now self.now (sought times (runs_with (λ runs. runs.items) result) ∷ []) }
    {
        if self.must_reopen {
            return Err(StoreFault::MustReopen);
        }
        match seek(alloc, &self.index, times) {
            Ok(runs) => Ok(runs),
            Err(_) => Err(StoreFault::NoMemory),
        }
    }

    /// The clips, by rising id. `MustReopen` where a call that writes has failed; otherwise `NoMemory`.
    pub fn clips<B: Allocator>(&self, alloc: B) -> Result<Vec<Clip, B>, StoreFault>
        ensures must_reopen { (result ≡ Err StoreFault.MustReopen) ↔ IsTrue self.now.must_reopen }
        ensures clips { IfOk result (λ clips. clips.items ≡ clip_list 0 self.now.clips) }
        ensures refusals { IfErr result (λ fault. (fault ≡ StoreFault.MustReopen) ⊎ (fault ≡ StoreFault.NoMemory)) }
    {
        if self.must_reopen {
            return Err(StoreFault::MustReopen);
        }
        Ok(self.index.clips.list(alloc)?)
    }
}
