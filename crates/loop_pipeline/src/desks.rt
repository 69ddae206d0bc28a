//! A camera's desks: what a visit is lent.

ghost use Rattle.std.specs.Prelude.{◌≡◌, ◌∷◌, ◌<◌, ◌≤◌, ◌↔◌, ◌+◌, ◌++◌, ℕ, ⊤, List, IfErr, IfOk, IfSome, IsSome, None, Result, Some, [], length, slice_index_or, vec_len, false, true};
ghost use Rattle.loop_desk.specs.Desk.{clip_unlocked, flushed, frame_read};
ghost use Rattle.loop_desk.specs.Keeps.{HaveTime, KeepsTime};
ghost use Rattle.loop_desk.specs.Seen.{DeskGoes, OutlineRefuses, TellsOutline, TellsStatus};
ghost use Rattle.loop_pipeline.specs.Backs.{GoesAt, HasRoom, IsLast, IsSoAt, MayKeep};
ghost use Rattle.loop_pipeline.specs.Desks.{AreVisited, SubmitsAt, UnlocksThis, end_with, turned};
ghost use Rattle.loop_pipeline.specs.Turns.{AllLocked, Chooses, IsBetween, MayBegin, Searches, TurnsTo};
ghost use Rattle.loop_record.specs.declared.frame.FrameHead.{FrameHead};
ghost use Rattle.loop_store.specs.declared.fault.StoreFault.{StoreFault};
ghost use Rattle.loop_store.specs.Calls.{read_with};
ghost use Rattle.loop_store.specs.Runs.{read_of};

use crate::next::{Search, is_full};
use crate::{Leave, Seat, Taken, Unlocks, Visits};
use loop_desk::{Flushed, Kept, Outline, Status};
use loop_disk::Disk;
use loop_record::{Frame, FrameHead, Span, Times};
use loop_store::{ReadFrame, StoreFault};
use rtrb::Consumer;
use std::alloc::{Allocator, Global};
use std::marker::{Model, PhantomData};
use std::snapshot::Snapshot;

// The memory of how many stored frames a desk keeps at most.
const SPARES: usize = 64;

// One past the newest sequence, after a frame that was brought.
fn end_with(taken: Taken, end: u32) -> u32
    ensures { result ≡ end_with taken end }
{
    match taken {
        Taken::Asked(info, _) => info.sequence.wrapping_add(1),
        _ => end,
    }
}

// Whether what an id has is this clip.
fn is_clip(there: Option<Span>, clip: Span) -> bool
    ensures { (result ≡ true) ↔ (there ≡ Some clip) }
{
    there == Some(clip)
}

/// A camera's desks, one of which is active. A desk is named by its place: the order in which they came. Contracts see
/// the desks as they are, and what is lent with them to a visit: the desks as they were when it began, the place of the
/// active one, and one past the newest sequence, which no visit changes. `K` says what visitors may call.
#[derive(Drop)]
pub struct Desks<D: Disk + Drop, K: Visits, A: Allocator + Copy = Global> {
    seats: Vec<Seat<D, K, A>, A>,
    active: usize,
    // One past the newest sequence.
    end: u32,
    before: Snapshot<Vec<Seat<D, K, A>, A>>,
    visits: PhantomData<K>,
}

impl<D: Disk + Drop, K: Visits, A: Allocator + Copy> Model for Desks<D, K, A> {
    ghost use Rattle.loop_pipeline.specs.Desks.{AreVisited, SeenDesks};

    ghost Value = { SeenDesks D };

    ghost view = { λ d. record {
      lent = record { began = d.before.value.items; active = d.active; end = d.end };
      desks = d.seats.items;
    } };

    ghost invariant = { λ d. AreVisited D.medium K.asks (record {
      lent = record { began = d.before.value.items; active = d.active; end = d.end };
      desks = d.seats.items;
    }) };
}

impl<D: Disk + Drop, K: Visits, A: Allocator + Copy> Desks<D, K, A> {
    /// This desk, and memory for `most` desks. `end` is one past the newest sequence that any store of the camera holds.
    /// If memory is refused, the desk comes back.
    pub fn new(alloc: A, most: usize, desk: Seat<D, K, A>, end: u32) -> Result<Self, Seat<D, K, A>>
        requires { 1 ≤ most }
        ensures made { IfOk result (λ desks. desks
            ≡ record { lent = record { began = desk ∷ []; active = 0; end = end }; desks = desk ∷ [] }) }
        ensures refused { IfErr result (λ back. back ≡ desk) }
    {
        let Ok(mut seats) = Vec::with_capacity(alloc, most) else {
            return Err(desk);
        };
        seats.push_reserved(desk);
        Ok(Desks {
            before: Snapshot::of(&seats),
            seats,
            active: 0,
            end,
            visits: PhantomData,
        })
    }

    // A visit begins: what is lent are the desks as they are.
    pub(crate) fn lend(&mut self)
        ensures { self.new ≡ record self.old {
          lent = record { began = self.old.desks; active = self.old.lent.active; end = self.old.lent.end };
        } }
    {
        self.before = Snapshot::of(&self.seats);
    }

    // What visits did since then.
    pub(crate) fn visited(&self)
        ensures { AreVisited D.medium K.asks self.now }
    {
        let _active = self.active;
    }

    // Takes the next frame of a ring to the active desk, as `Seat::submit_from`. No visit is on.
    pub(crate) fn submit_from(&mut self, from: &mut Consumer<Frame<A>, A>) -> Taken
        ensures { SubmitsAt D.medium self.old self.new from.old from.new result }
    {
        let taken = self.seats[self.active].submit_from(from);
        self.before = Snapshot::of(&self.seats);
        self.end = end_with(taken, self.end);
        taken
    }

    // Takes another desk, and returns its place; if there is no memory for it, it comes back. No visit is on.
    pub(crate) fn join(&mut self, desk: Seat<D, K, A>) -> Result<usize, Seat<D, K, A>>
        ensures done { IfOk result (λ place. (place ≡ length self.old.desks)
            × (self.new.desks ≡ self.old.desks ++ desk ∷ [])
            × (self.new.lent.active ≡ self.old.lent.active) × (self.new.lent.end ≡ self.old.lent.end)) }
        ensures refused { IfErr result (λ back. (back ≡ desk) × (self.new ≡ self.old)) }
    {
        let place = self.seats.len();
        if place == self.seats.capacity() {
            return Err(desk);
        }
        self.seats.push_reserved(desk);
        self.before = Snapshot::of(&self.seats);
        Ok(place)
    }

    // The desks alone.
    pub(crate) fn into_seats(self) -> Vec<Seat<D, K, A>, A>
        ensures all { result.items ≡ self.desks }
        ensures some { self.lent.active < vec_len result }
    {
        let Desks {
            seats,
            active: _,
            end: _,
            before: _,
            visits: _,
        } = self;
        seats
    }

    /// Stores the first frames that wait at the active desk, as `Desk::flush`, where calls aren't noted.
    pub fn flush(&mut self) -> Result<Flushed, StoreFault>
        requires { K.NOTED ≡ false }
        ensures goes { GoesAt self.old.lent.active self.old.desks self.new.desks
            (λ d e. DeskGoes D.medium d e (flushed result ∷ [])) }
        ensures last { IsLast D.medium self.new.lent.began self.new.desks self.new.lent.active (flushed result) }
        ensures lent { self.new.lent ≡ self.old.lent }
    {
        match self.flush_noted() {
            Some(answer) => answer,
            None => unreachable!(),
        }
    }

    // Stores the first frames that wait at the active desk, as `Desk::flush`, and notes it where calls are noted. None:
    // it couldn't be noted, and the desk wasn't asked.
    pub(crate) fn flush_noted(&mut self) -> Option<Result<Flushed, StoreFault>>
        ensures asked { IfSome result (λ answer. GoesAt self.old.lent.active self.old.desks self.new.desks
            (λ d e. DeskGoes D.medium d e (flushed answer ∷ []))) }
        ensures last { IfSome result (λ answer.
            IsLast D.medium self.new.lent.began self.new.desks self.new.lent.active (flushed answer)) }
        ensures unasked { result ≡ None → self.new ≡ self.old }
        ensures always { K.NOTED ≡ false → IsSome result }
        ensures lent { self.new.lent ≡ self.old.lent }
    {
        self.seats[self.active].flush()
    }

    /// How many desks there are.
    pub fn count(&self) -> usize
        ensures { result ≡ length self.now.desks }
    {
        self.seats.len()
    }

    /// The place of the active desk, to which frames are brought.
    pub fn active(&self) -> usize
        ensures place { result ≡ self.now.lent.active }
        ensures inside { result < length self.now.desks }
    {
        self.active
    }

    /// The counts of the desk at a place, as `Desk::status`.
    pub fn status(&self, place: usize) -> Status
        requires { place < length self.now.desks }
        ensures { IsSoAt place self.now.desks (λ desk. TellsStatus D.medium desk result) }
    {
        self.seats[place].status()
    }

    /// Whether the active desk isn't full; and unless it is `alone`, which no other joins, whether the block of its
    /// next number takes one frame more than those that wait, and its store has room for that block, unless frames are
    /// brought `anyway`. Of several desks none is alone.
    pub fn has_room(&self, alone: bool, anyway: bool) -> bool
        ensures frame { result ≡ true → (alone ≡ true → 2 ≤ length self.now.desks)
            → IsSoAt self.now.lent.active self.now.desks HasRoom }
        ensures block { result ≡ true → anyway ≡ false → (alone ≡ true → 2 ≤ length self.now.desks)
            → IsSoAt self.now.lent.active self.now.desks (MayBegin D.medium) }
    {
        let desk = self.seats[self.active].desk();
        let waiting = desk.status().pending;
        if waiting >= desk.limits().pending {
            return false;
        }
        if alone && self.seats.len() < 2 {
            return true;
        }
        if waiting >= desk.room() {
            return false;
        }
        anyway || !self.is_locked()
    }

    /// How many frames a flush of the active desk stores at most. It promises nothing.
    pub fn group(&self) -> u32 {
        self.seats[self.active].desk().limits().group
    }

    /// Memory of a frame that the active desk stored, for a later one, as `Desk::spare_memory`.
    pub fn spare_memory(&mut self) -> Option<Vec<u8, A>>
        ensures { self.new ≡ self.old }
    {
        self.seats[self.active].spare_memory()
    }

    /// Keeps memory for a later frame at the active desk, as `Desk::return_memory`.
    pub fn return_memory(&mut self, bytes: Vec<u8, A>)
        ensures { self.new ≡ self.old }
    {
        self.seats[self.active].return_memory(bytes);
    }

    // Moves the memory of one stored frame from the active desk to the one at a place; returns whether there was some.
    fn hand_over(&mut self, place: usize) -> bool
        requires { place < length self.old.desks }
        ensures { self.new ≡ self.old }
    {
        let Some(bytes) = self.spare_memory() else {
            return false;
        };
        self.seats[place].return_memory(bytes);
        true
    }

    // Moves the memory of stored frames from the active desk to the one at a place, if that is another one.
    fn hand_all_over(&mut self, place: usize)
        requires { place < length self.old.desks }
        ensures { self.new ≡ self.old }
    {
        if place == self.active {
            return;
        }
        'frames: for _ in 0..SPARES {
            if !self.hand_over(place) {
                break;
            }
        }
    }

    // Makes the desk at a place the active one.
    fn set_active(&mut self, place: usize)
        requires { place < length self.old.desks }
        ensures { self.new ≡ turned place self.old }
    {
        self.active = place;
    }

    // Makes the desk at a place the active one, and hands the memory of stored frames on to it.
    fn turn_to(&mut self, place: usize)
        requires { place < length self.old.desks }
        ensures { self.new ≡ turned place self.old }
    {
        self.hand_all_over(place);
        self.set_active(place);
    }

    // Whether the active desk is between two blocks: nothing waits there, and its next number begins a block.
    fn is_between(&self) -> bool
        ensures { IsSoAt self.now.lent.active self.now.desks (λ desk. (result ≡ true) ↔ IsBetween desk) }
    {
        let desk = self.seats[self.active].desk();
        desk.status().pending == 0 && desk.room() == desk.geometry().slots
    }

    // Whether the active desk is between two blocks, and its store has no room for a block.
    fn is_locked(&self) -> bool
        ensures { result ≡ false → IsSoAt self.now.lent.active self.now.desks (MayBegin D.medium) }
    {
        if !self.is_between() {
            return false;
        }
        is_full(self.seats[self.active].desk().space())
    }

    // What the first desks' stores have told, and that of the desk at the next place.
    fn told(&self, search: Search, place: usize) -> Search
        requires place { place < length self.now.desks }
        requires so_far { Searches D.medium self.now.desks self.now.lent.end self.now.lent.active place search }
        ensures { Searches D.medium self.now.desks self.now.lent.end self.now.lent.active (place + 1) result }
    {
        search.with(
            self.active,
            self.end,
            place,
            self.seats[place].desk().space(),
        )
    }

    /// The place of the desk that takes the next block, by what each store tells: the active one, if it has a segment
    /// that holds no block; else the first that has one; else the one whose block that may go is the oldest, by the
    /// sequence of its first frame, the first of such. None where no block may go.
    pub fn next_desk(&self) -> Option<usize>
        ensures { Chooses D.medium self.now.desks self.now.lent.end self.now.lent.active result }
    {
        let mut search = Search::new();
        'desks: for place in 0..self.seats.len() {
            search = self.told(search, place);
        }
        search.next(self.active)
    }

    // Where the active desk is between two blocks, makes the desk active that takes the next block (`next_desk`).
    // Returns whether there is none: all is locked. It takes no memory.
    pub(crate) fn turn(&mut self) -> bool
        ensures turns { IsSoAt self.old.lent.active self.old.desks IsBetween
            → TurnsTo D.medium self.old.desks self.old.lent.end self.old.lent.active self.new.lent.active result }
        ensures stays { (IsSoAt self.old.lent.active self.old.desks IsBetween → ⊥)
            → (self.new ≡ self.old) × (result ≡ false) }
        ensures locked { result ≡ true → AllLocked D.medium self.new.desks self.new.lent.active }
        ensures same { self.new ≡ turned self.new.lent.active self.old }
    {
        if !self.is_between() {
            return false;
        }
        match self.next_desk() {
            Some(place) => {
                self.turn_to(place);
                false
            }
            None => true,
        }
    }

    /// What the desk at a place holds, as `Desk::outline`.
    pub fn outline(&self, alloc: A, place: usize) -> Result<Outline<A>, StoreFault>
        requires { place < length self.now.desks }
        ensures outline { IfOk result
            (λ outline. IsSoAt place self.now.desks (λ desk. TellsOutline D.medium desk outline)) }
        ensures refused { IfErr result (λ fault. IsSoAt place self.now.desks (λ desk. OutlineRefuses desk fault)) }
    {
        self.seats[place].desk().outline(alloc)
    }

    /// Reads a stored frame of the desk at a place, as `Desk::read_frame`, and notes it where calls are noted. None: it
    /// couldn't be noted, and the desk wasn't asked.
    pub fn read_noted(
        &mut self,
        alloc: A,
        place: usize,
        number: u64,
    ) -> Option<Result<ReadFrame<A>, StoreFault>>
        requires place { place < length self.old.desks }
        requires may { (answer : Result (FrameHead × List ℕ) StoreFault) → K.asks (frame_read number answer) }
        ensures asked { IfSome result (λ answer. GoesAt place self.old.desks self.new.desks
            (λ d e. DeskGoes D.medium d e (frame_read number (read_of answer) ∷ []))) }
        ensures unasked { result ≡ None → self.new ≡ self.old }
        ensures always { K.NOTED ≡ false → IsSome result }
        ensures lent { self.new.lent ≡ self.old.lent }
    {
        self.seats[place].read_frame(alloc, number)
    }

    /// Reads a stored frame of the desk at a place, as `Desk::read_frame`, where calls aren't noted.
    pub fn read_frame(
        &mut self,
        alloc: A,
        place: usize,
        number: u64,
    ) -> Result<ReadFrame<A>, StoreFault>
        requires place { place < length self.old.desks }
        requires may { (answer : Result (FrameHead × List ℕ) StoreFault) → K.asks (frame_read number answer) }
        requires plain { K.NOTED ≡ false }
        ensures goes { GoesAt place self.old.desks self.new.desks
            (λ d e. DeskGoes D.medium d e (frame_read number (read_of result) ∷ [])) }
        ensures lent { self.new.lent ≡ self.old.lent }
    {
        match self.read_noted(alloc, place, number) {
            Some(answer) => answer,
            None => unreachable!(),
        }
    }

    /// Reads the head of a stored frame of the desk at a place and none of its bytes, as `Desk::read_head`, where calls
    /// aren't noted.
    pub fn read_head(&mut self, place: usize, number: u64) -> Result<FrameHead, StoreFault>
        requires place { place < length self.old.desks }
        requires plain { K.NOTED ≡ false }
        requires may { (answer : Result (FrameHead × List ℕ) StoreFault) → K.asks (frame_read number answer) }
        ensures goes { (bytes : List ℕ) × GoesAt place self.old.desks self.new.desks
            (λ d e. DeskGoes D.medium d e (frame_read number (read_with result bytes) ∷ [])) }
        ensures lent { self.new.lent ≡ self.old.lent }
    {
        match self.seats[place].read_head(number) {
            Some(answer) => answer,
            None => unreachable!(),
        }
    }

    /// Locks the held frames of a time at a place with a tag, as `Desk::keep_time`, where calls aren't noted.
    pub fn keep(&mut self, alloc: A, place: usize, times: Times, tag: u64) -> Kept<A>
        requires place { place < length self.old.desks }
        requires plain { K.NOTED ≡ false }
        requires may { MayKeep K.asks }
        ensures goes { GoesAt place self.old.desks self.new.desks (λ d e. KeepsTime D.medium times tag d e result) }
        ensures whole { result.fault ≡ None
            → IsSoAt place self.old.desks (λ desk. HaveTime times desk result.clips.items) }
        ensures lent { self.new.lent ≡ self.old.lent }
    {
        self.seats[place].keep_time(alloc, times, tag)
    }

    /// The clip of an id at a place, as `Desk::clip`.
    pub fn clip(&self, place: usize, id: u32) -> Option<Span>
        requires { place < length self.now.desks }
        ensures { IsSoAt place self.now.desks (λ desk. result ≡ slice_index_or desk.store.clips id None) }
    {
        self.seats[place].desk().clip(id)
    }

    // Whether the clip of an id at a place is this one.
    fn has_clip(&self, place: usize, id: u32, clip: Span) -> bool
        requires { place < length self.now.desks }
        ensures { IsSoAt place self.now.desks (λ desk. (result ≡ true)
            ↔ (slice_index_or desk.store.clips id None ≡ Some clip)) }
    {
        is_clip(self.clip(place, id), clip)
    }

    // Unlocks the clip of an id at a place, as `Desk::unlock_clip`, where calls aren't noted.
    pub(crate) fn unlock(&mut self, place: usize, id: u32) -> Result<(), StoreFault>
        requires place { place < length self.old.desks }
        requires plain { K.NOTED ≡ false }
        requires may { (answer : Result ⊤ StoreFault) → K.asks (clip_unlocked id answer) }
        ensures goes { GoesAt place self.old.desks self.new.desks
            (λ d e. DeskGoes D.medium d e (clip_unlocked id result ∷ [])) }
        ensures lent { self.new.lent ≡ self.old.lent }
    {
        match self.seats[place].unlock_clip(id) {
            Some(answer) => answer,
            None => unreachable!(),
        }
    }
}

impl<D: Disk + Drop, K: Unlocks, A: Allocator + Copy> Desks<D, K, A> {
    /// Unlocks a clip at a place by leave, as `Desk::unlock_clip`, where calls aren't noted. Where another clip has that
    /// id by now, or none, nothing is done: `NoSuchClip`.
    pub fn unlock_clip(&mut self, place: usize, leave: K::Leave) -> Result<(), StoreFault>
        requires place { place < length self.old.desks }
        requires plain { K.NOTED ≡ false }
        requires may { (answer : Result ⊤ StoreFault) → K.asks (clip_unlocked (K.Leave.id leave) answer) }
        ensures goes { GoesAt place self.old.desks self.new.desks
            (λ d e. UnlocksThis D.medium (K.Leave.id leave) (K.Leave.clip leave) d e result) }
        ensures lent { self.new.lent ≡ self.old.lent }
    {
        let id = leave.id();
        if !self.has_clip(place, id, leave.clip()) {
            return Err(StoreFault::NoSuchClip);
        }
        self.unlock(place, id)
    }
}
