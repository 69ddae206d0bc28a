//! A desk alone, or one whose calls are noted.

ghost use Rattle.std.specs.Prelude.{◌≡◌, ◌≢◌, ◌∷◌, ℕ, IfSome, IsSome, List, None, [], false, true};
ghost use Rattle.rtrb.specs.Ring.{known_items};
ghost use Rattle.loop_desk.specs.Desk.{clip_unlocked, flushed, frame_read};
ghost use Rattle.loop_desk.specs.Keeps.{HaveTime, KeepsTime};
ghost use Rattle.loop_desk.specs.Seen.{DeskGoes, TellsStatus};
ghost use Rattle.loop_store.specs.Calls.{read_with};
ghost use Rattle.loop_store.specs.Runs.{read_of};
ghost use Rattle.loop_pipeline.specs.declared.seat.Taken.TheVariants.{Nothing, Unnoted};
ghost use Rattle.loop_pipeline.specs.Notes.{HasGoneOn};
ghost use Rattle.loop_pipeline.specs.Seats.{MayNote, NotesCall, StaysNoted, TakesFrom};

use crate::notes::{answer_of, head_of, note, reserve, stamp_of};
use crate::{Entry, FrameInfo, Noted, Pass};
use loop_desk::{Desk, Flushed, Kept, Outline, Status};
use loop_disk::Disk;
use loop_record::{Frame, FrameHead, Times};
use loop_store::{ReadFrame, StoreFault};
use rtrb::Consumer;
use std::alloc::{Allocator, Global};
use std::marker::{Model, PhantomData};
use std::snapshot::Snapshot;

/// Whether the calls of a seat's desk are noted.
pub trait Noting {
    ghost use Rattle.std.specs.Prelude.{Bool};

    /// Whether they are.
    const NOTED: bool;

    ghost NOTED: { Bool };
}

/// What is noted of a desk: the history of its calls since its opening, and a pass with their receipts.
#[derive(Drop)]
pub struct Notes<D: Disk + Drop, A: Allocator = Global> {
    /// The number of its camera.
    pub camera: u32,
    /// Its calls.
    pub history: Vec<Entry, A>,
    /// Its outline before the first of them.
    pub outline: Outline<A>,
    /// The desk before the first of them.
    pub opening: Snapshot<Desk<D, A>>,
    /// Who has the receipts.
    pub pass: Pass<A>,
}

/// A desk alone, or one whose calls are noted: each is an entry of the desk's history and a receipt of a pass.
/// Contracts see the desk. `N` says which of the two it is.
#[derive(Drop)]
pub struct Seat<D: Disk + Drop, N: Noting, A: Allocator = Global> {
    desk: Desk<D, A>,
    notes: Option<Notes<D, A>>,
    noting: PhantomData<N>,
}

/// What came of taking the next frame of a ring to a seat's desk.
#[derive(Clone, Copy)]
pub enum Taken {
    /// No frame is in the ring.
    Nothing,
    /// The call couldn't be noted: the history is full, or memory was refused. The frame stays in the ring.
    Unnoted,
    /// The frame without its bytes, and what the desk answered. If it refused the frame, that is given up.
    Asked(FrameInfo, Result<u64, StoreFault>),
}

impl<D: Disk + Drop, N: Noting, A: Allocator> Model for Seat<D, N, A> {
    ghost use Rattle.loop_desk.specs.Seen.{SeenDesk};
    ghost use Rattle.loop_pipeline.specs.Seats.{AreNoted};

    ghost Value = { SeenDesk D };

    ghost view = { λ s. s.desk };

    ghost invariant = { λ s. AreNoted D.medium N.NOTED s.notes s.desk };
}

// Reserves memory for one note more, where calls are noted; returns whether it is there.
fn room_for_note<D: Disk + Drop, A: Allocator>(notes: &mut Option<Notes<D, A>>, calls: u32) -> bool
    ensures same { StaysNoted D.medium notes.old notes.new }
    ensures room { result ≡ true → MayNote notes.new }
    ensures alone { notes.old ≡ None → result ≡ true }
{
    match notes {
        Some(notes) => reserve(&mut notes.history, &mut notes.pass, calls).is_ok(),
        None => true,
    }
}

// Notes a call, where calls are noted.
fn add_note<D: Disk + Drop, A: Allocator>(notes: &mut Option<Notes<D, A>>, call: Noted)
    requires { MayNote notes.old }
    ensures { NotesCall D.medium call notes.old notes.new }
{
    if let Some(notes) = notes {
        note(&mut notes.history, notes.camera, &mut notes.pass, call);
    }
}

// Gives the memory of a refused frame back to the desk.
fn give_back<D: Disk + Drop, A: Allocator>(
    desk: &mut Desk<D, A>,
    answer: Result<u64, (StoreFault, Frame<A>)>,
)
    ensures { desk.new ≡ desk.old }
{
    if let Err((_, frame)) = answer {
        desk.return_memory(frame.bytes);
    }
}

impl<D: Disk + Drop, N: Noting, A: Allocator> Seat<D, N, A> {
    /// A seat with this desk alone.
    pub fn alone(desk: Desk<D, A>) -> Self
        requires { N.NOTED ≡ false }
        ensures { result ≡ desk }
    {
        Seat {
            desk,
            notes: None,
            noting: PhantomData,
        }
    }

    /// A seat with this desk, whose calls are noted here from now on. What was noted leads from its opening to it.
    pub fn noting(desk: Desk<D, A>, notes: Notes<D, A>) -> Self
        requires noted { N.NOTED ≡ true }
        requires gone { HasGoneOn D.medium notes.opening.value notes.outline notes.history.items desk }
        ensures { result ≡ desk }
    {
        Seat {
            desk,
            notes: Some(notes),
            noting: PhantomData,
        }
    }

    /// The desk.
    pub fn desk(&self) -> &Desk<D, A>
        ensures { result.now ≡ self.now }
    {
        &self.desk
    }

    /// The counts of the desk, as `Desk::status`. They aren't noted.
    pub fn status(&self) -> Status
        ensures { TellsStatus D.medium self.now result }
    {
        self.desk.status()
    }

    /// Memory of a stored frame, as `Desk::spare_memory`. It isn't noted.
    pub fn spare_memory(&mut self) -> Option<Vec<u8, A>>
        ensures { self.new ≡ self.old }
    {
        self.desk.spare_memory()
    }

    /// Keeps memory for a later frame, as `Desk::return_memory`. It isn't noted.
    pub fn return_memory(&mut self, bytes: Vec<u8, A>)
        ensures { self.new ≡ self.old }
    {
        self.desk.return_memory(bytes);
    }

    /// Takes the next frame of a ring to the desk, as `Desk::submit`, if the call can be noted. The memory of a frame
    /// that the desk refuses is kept for a later one.
    pub fn submit_from(&mut self, from: &mut Consumer<Frame<A>, A>) -> Taken
        ensures takes { TakesFrom D.medium self.old self.new from.old from.new result }
        ensures empty { result ≡ Nothing → known_items from.new ≡ [] }
        ensures alone { N.NOTED ≡ false → result ≢ Unnoted }
    {
        if !room_for_note(&mut self.notes, self.desk.limits().calls) {
            return Taken::Unnoted;
        }
        let Ok(frame) = from.pop() else {
            return Taken::Nothing;
        };
        let info = stamp_of(&frame);
        let size = frame.bytes.len() as u64;
        let answer = self.desk.submit(frame);
        let told = answer_of(&answer);
        add_note(&mut self.notes, Noted::Submit(info, size, told));
        give_back(&mut self.desk, answer);
        Taken::Asked(info, told)
    }

    /// Stores the first frames that wait, as `Desk::flush`. None: the call couldn't be noted, and the desk wasn't
    /// asked.
    pub fn flush(&mut self) -> Option<Result<Flushed, StoreFault>>
        ensures asked { IfSome result (λ answer. DeskGoes D.medium self.old self.new (flushed answer ∷ [])) }
        ensures unasked { result ≡ None → self.new ≡ self.old }
        ensures alone { N.NOTED ≡ false → IsSome result }
    {
        if !room_for_note(&mut self.notes, self.desk.limits().calls) {
            return None;
        }
        let answer = self.desk.flush();
        add_note(&mut self.notes, Noted::Flush(answer));
        Some(answer)
    }

    // Unlocks the clip of an id, as `Desk::unlock_clip`. None: the call couldn't be noted, and the desk wasn't asked.
    pub(crate) fn unlock_clip(&mut self, id: u32) -> Option<Result<(), StoreFault>>
        ensures asked { IfSome result (λ answer. DeskGoes D.medium self.old self.new (clip_unlocked id answer ∷ [])) }
        ensures unasked { result ≡ None → self.new ≡ self.old }
        ensures alone { N.NOTED ≡ false → IsSome result }
    {
        if !room_for_note(&mut self.notes, self.desk.limits().calls) {
            return None;
        }
        let answer = self.desk.unlock_clip(id);
        add_note(&mut self.notes, Noted::Unlock(id, answer));
        Some(answer)
    }

    /// Reads the head of a stored frame, as `Desk::read_head`; it is noted as a read. None: the call couldn't be noted,
    /// and the desk wasn't asked.
    pub fn read_head(&mut self, number: u64) -> Option<Result<FrameHead, StoreFault>>
        ensures asked { IfSome result (λ answer. (bytes : List ℕ)
            × DeskGoes D.medium self.old self.new (frame_read number (read_with answer bytes) ∷ [])) }
        ensures unasked { result ≡ None → self.new ≡ self.old }
        ensures alone { N.NOTED ≡ false → IsSome result }
    {
        if !room_for_note(&mut self.notes, self.desk.limits().calls) {
            return None;
        }
        let answer = self.desk.read_head(number);
        add_note(&mut self.notes, Noted::Read(number, answer));
        Some(answer)
    }

    /// The desk alone: what was noted is dropped.
    pub fn into_desk(self) -> Desk<D, A>
        ensures { result ≡ self }
    {
        let Seat {
            desk,
            notes: _,
            noting: _,
        } = self;
        desk
    }

    /// The disk alone, as `Desk::into_disk`.
    pub fn into_disk(self) -> D
        ensures { result ≡ self.store.disk }
    {
        self.into_desk().into_disk()
    }

    /// The desk, and what was noted, which leads from the desk's opening to it.
    pub fn into_noted(self) -> (Desk<D, A>, Notes<D, A>)
        requires { N.NOTED ≡ true }
        ensures desk { result.0 ≡ self }
        ensures gone { HasGoneOn D.medium result.1.opening.value result.1.outline result.1.history.items self }
    {
        let Seat {
            desk,
            notes,
            noting: _,
        } = self;
        let Some(notes) = notes else { unreachable!() };
        (desk, notes)
    }
}

impl<D: Disk + Drop, N: Noting, A: Allocator + Copy> Seat<D, N, A> {
    /// Reads a stored frame, as `Desk::read_frame`. None: the call couldn't be noted, and the desk wasn't asked.
    pub fn read_frame(&mut self, alloc: A, number: u64) -> Option<Result<ReadFrame<A>, StoreFault>>
        ensures asked { IfSome result
            (λ answer. DeskGoes D.medium self.old self.new (frame_read number (read_of answer) ∷ [])) }
        ensures unasked { result ≡ None → self.new ≡ self.old }
        ensures alone { N.NOTED ≡ false → IsSome result }
    {
        if !room_for_note(&mut self.notes, self.desk.limits().calls) {
            return None;
        }
        let answer = self.desk.read_frame(alloc, number);
        add_note(&mut self.notes, Noted::Read(number, head_of(&answer)));
        Some(answer)
    }

    /// Locks the held frames of a time with a tag, as `Desk::keep_time`. It isn't noted.
    pub fn keep_time(&mut self, alloc: A, times: Times, tag: u64) -> Kept<A>
        requires { N.NOTED ≡ false }
        ensures goes { KeepsTime D.medium times tag self.old self.new result }
        ensures whole { result.fault ≡ None → HaveTime times self.old result.clips.items }
    {
        self.desk.keep_time(alloc, times, tag)
    }
}
