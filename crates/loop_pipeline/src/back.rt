//! A camera's desks, and the end of the ring from which their frames come: owned by one thread.

ghost use Rattle.std.specs.Prelude.{◌≡◌, ◌∷◌, ◌<◌, ◌≤◌, ℕ, IfErr, IfOk, IfSome, IsSome, Ok, [], length, false, true};
ghost use Rattle.loop_desk.specs.Desk.{flushed};
ghost use Rattle.rtrb.specs.Ring.{received};
ghost use Rattle.loop_pipeline.specs.declared.back.Brought.TheVariants.{Submitted};
ghost use Rattle.loop_pipeline.specs.Backs.{FitsBlock, IsAccepted, IsBrought, IsChangedAt, IsGivenUp, IsLastOf, IsSoAt, WasRefused, with_joined};
ghost use Rattle.loop_pipeline.specs.DeskEvents.{IsTurnedFor, TakesFrame, desks_now};
ghost use Rattle.loop_pipeline.specs.KeptBacks.{BackKeeps};
ghost use Rattle.loop_pipeline.specs.Turns.{AllLocked, IsBetween, MayBegin, TurnsTo};

use crate::{Desks, Seat, Taken, Visits};
use loop_desk::Flushed;
use loop_disk::Disk;
use loop_record::Frame;
use loop_store::StoreFault;
use rtrb::Consumer;
use std::alloc::{Allocator, Global};
use std::marker::Model;
use std::snapshot::Snapshot;
use std::sync::Wait;

/// What a back did, before its guide is told: the number of a frame that was accepted, a frame that was given up, or
/// what a flush stored. The back alone makes one. It can't be let go, and there is no copy: it is told once.
pub struct Untold<T> {
    what: T,
}

/// What a back did. Nothing makes one but telling it to a guide.
#[derive(Drop)]
pub struct Told<T> {
    what: T,
}

impl<T> Model for Untold<T> {
    ghost use Rattle.std.specs.Prelude.{◌≡◌};

    ghost Value = { T };

    ghost view = { λ untold. untold.what };
}

impl<T> Model for Told<T> {
    ghost use Rattle.std.specs.Prelude.{◌≡◌};

    ghost Value = { T };

    ghost view = { λ told. told.what };
}

impl<T: Copy> Told<T> {
    /// What it did.
    pub fn what(&self) -> T
        ensures { result ≡ self.now }
    {
        self.what
    }
}

impl<T: Copy> Untold<T> {
    /// What it did.
    pub fn what(&self) -> T
        ensures { result ≡ self.now }
    {
        self.what
    }
}

/// What a camera's guide is told of its desks, each of it once, and whether flushes go on. The calls that only report
/// do nothing by default. What is reported is so: the contract asks the caller for the desk's own answer.
pub trait Reports: Visits {
    /// The active desk accepted a frame under this number.
    fn brought<R: Wait, D: Disk + Drop>(&self, rt: &R, back: &Back<D, Self>, number: Told<u64>)
        requires { IsAccepted D.medium back.now number }
    {}

    /// This frame was given up: the desk refused it, or a flush was refused.
    fn gave_up<R: Wait, D: Disk + Drop>(&self, rt: &R, back: &Back<D, Self>, frame: Told<LostFrame>)
        requires { IsGivenUp D.medium Self.gives_up back.now frame }
    {}

    /// A flush stored frames.
    fn stored<R: Wait, D: Disk + Drop>(&self, rt: &R, back: &Back<D, Self>, done: Told<Flushed>)
        requires { IsLastOf D.medium back.now (flushed (Ok done)) }
    {}

    /// Whether a flush that was refused with this fault is tried again, after a while or once the desk's thread is
    /// woken. If not, frames for which the desk has no room are given up.
    fn flushes_again<R: Wait>(&self, rt: &R, fault: StoreFault) -> bool
        ensures { result ≡ false → Self.gives_up fault };
}

impl Untold<u64> {
    /// Tells a guide that the active desk accepted the frame.
    pub fn tell_brought<R: Wait, D: Disk + Drop, G: Reports>(
        self,
        rt: &R,
        guide: &G,
        back: &Back<D, G>,
    )
        requires { IsAccepted D.medium back.now self }
    {
        let Untold { what } = self;
        guide.brought(rt, back, Told { what });
    }
}

impl Untold<LostFrame> {
    /// Tells a guide that the frame was given up.
    pub fn tell_given_up<R: Wait, D: Disk + Drop, G: Reports>(
        self,
        rt: &R,
        guide: &G,
        back: &Back<D, G>,
    )
        requires { IsGivenUp D.medium G.gives_up back.now self }
    {
        let Untold { what } = self;
        guide.gave_up(rt, back, Told { what });
    }
}

impl Untold<Flushed> {
    /// Tells a guide what a flush stored.
    pub fn tell_stored<R: Wait, D: Disk + Drop, G: Reports>(
        self,
        rt: &R,
        guide: &G,
        back: &Back<D, G>,
    )
        requires { IsLastOf D.medium back.now (flushed (Ok self)) }
    {
        let Untold { what } = self;
        guide.stored(rt, back, Told { what });
    }
}

/// What came of bringing the next frame of the ring to the active desk.
pub enum Brought {
    /// No frame is in the ring.
    Nothing,
    /// The desk is full, or what waits there fills the block of its next number, or its store has no room for that
    /// block, or its call can't be noted; the frame stays in the ring.
    NoRoom,
    /// The desk accepted it, under this number.
    Submitted(Untold<u64>),
    /// The desk refused it; it is given up and counted.
    GivenUp(StoreFault, Untold<LostFrame>),
}

/// Which frame was given up.
#[derive(Clone, Copy)]
pub struct LostFrame {
    /// Its place in the device's count of frames.
    pub sequence: u32,
    /// Its time, in microseconds.
    pub timestamp: u64,
}

/// A camera's desks, one of which is active, and the end of the ring from which their frames come. A desk is named by
/// its place: the order in which they came. Contracts see desks and ring as they were when it took them, and the desks
/// as they are now. `K` says what visitors may call.
#[derive(Drop)]
pub struct Back<D: Disk + Drop, K: Visits, A: Allocator + Copy = Global> {
    pub(crate) desks: Desks<D, K, A>,
    pub(crate) from: Consumer<Frame<A>, A>,
    pub(crate) given_up: u64,
    /// A flush of a desk was refused, and isn't tried again.
    pub(crate) refused: bool,
    /// A call couldn't be noted, and none is made any more.
    pub(crate) closed: bool,
    // One past the newest sequence, when it was made.
    pub(crate) start: u32,
    pub(crate) began: Vec<Snapshot<Seat<D, K, A>>, A>,
    pub(crate) from_before: Snapshot<Consumer<Frame<A>, A>>,
}

/// What is left of a back.
#[derive(Drop)]
pub struct BackParts<D: Disk + Drop, K: Visits, A: Allocator + Copy = Global> {
    /// Its first desk.
    pub desk: Seat<D, K, A>,
    /// The desks that joined it, in the order in which they came.
    pub joined: Vec<Seat<D, K, A>, A>,
    /// The end of its ring.
    pub from: Consumer<Frame<A>, A>,
    /// How many frames came out of the ring and weren't accepted by a desk.
    pub given_up: u64,
    /// Whether a flush was refused, and wasn't tried again.
    pub refused: bool,
}

impl<D: Disk + Drop, K: Visits, A: Allocator + Copy> Model for Back<D, K, A> {
    ghost use Rattle.std.specs.Prelude.{map};
    ghost use Rattle.loop_pipeline.specs.Backs.{SeenBack};
    ghost use Rattle.loop_pipeline.specs.KeptBacks.{BackKeeps};

    ghost Value = { SeenBack D A };

    ghost view = { λ b. record {
      began = map (λ s. s.value) b.began.items;
      from = b.from_before.value;
      start = b.start;
      desks = b.desks.desks;
      active = b.desks.lent.active;
      end = b.desks.lent.end;
    } };

    ghost invariant = { λ b. BackKeeps D.medium K.asks K.gives_up
        (record {
          began = map (λ s. s.value) b.began.items;
          from = b.from_before.value;
          start = b.start;
          desks = b.desks.desks;
          active = b.desks.lent.active;
          end = b.desks.lent.end;
        }) b.from b.given_up b.refused };
}

impl<D: Disk + Drop, K: Visits, A: Allocator + Copy> Back<D, K, A> {
    /// A back with this desk, memory for `most` desks, and the end of a ring from which nothing was taken yet. `end` is
    /// one past the newest sequence that any store of the camera holds, so the one of its device's next frame. If memory
    /// is refused, both come back.
    pub fn new(
        alloc: A,
        most: usize,
        desk: Seat<D, K, A>,
        from: Consumer<Frame<A>, A>,
        end: u32,
    ) -> Result<Self, (Seat<D, K, A>, Consumer<Frame<A>, A>)>
        requires ring { received from ≡ [] }
        requires room { 1 ≤ most }
        ensures made { IfOk result (λ back. back
            ≡ record { began = desk ∷ []; from = from; start = end; desks = desk ∷ []; active = 0; end = end }) }
        ensures refused { IfErr result (λ parts. parts ≡ (desk, from)) }
    {
        let Ok(mut began) = Vec::with_capacity(alloc, most) else {
            return Err((desk, from));
        };
        desk.desk().opens();
        let opened = Snapshot::of(&desk);
        let desks = match Desks::new(alloc, most, desk, end) {
            Ok(desks) => desks,
            Err(desk) => return Err((desk, from)),
        };
        began.push_reserved(opened);
        let from_before = Snapshot::of(&from);
        Ok(Back {
            desks,
            from,
            given_up: 0,
            refused: false,
            closed: false,
            start: end,
            began,
            from_before,
        })
    }

    /// Brings the next frame of the ring to the active desk. Of several, where that is between two blocks, the one that
    /// takes the next block becomes the active one first (`turn`). Unless it is `alone`, which no other joins, what
    /// waits there never passes the end of a block; and none comes to a store that has no room for its block, unless it
    /// is brought `anyway`. Of several desks none is alone.
    pub fn bring(&mut self, alone: bool, anyway: bool) -> Brought
        ensures told { IsBrought D.medium self.old.end self.new result }
        ensures same { IsChangedAt self.new.active self.old
            (record self.new { active = self.old.active; end = self.old.end }) }
        ensures turns { IsTurnedFor D.medium self.old self.new.active }
        ensures fits { (n : ℕ) → result ≡ Submitted n → (alone ≡ true → 2 ≤ length self.old.desks)
            → IsSoAt self.new.active self.new.desks FitsBlock }
        ensures begins { (n : ℕ) → result ≡ Submitted n → anyway ≡ false
            → (alone ≡ true → 2 ≤ length self.old.desks) → IsSoAt self.new.active self.old.desks (MayBegin D.medium) }
    {
        self.turn_among();
        self.bring_here(alone, anyway)
    }

    // Turns, if there are several desks.
    fn turn_among(&mut self)
        ensures turns { IsTurnedFor D.medium self.old self.new.active }
        ensures takes { 2 ≤ length self.old.desks → TakesFrame D.medium (desks_now self.new) }
        ensures same { self.new ≡ record self.old { active = self.new.active } }
    {
        if self.desks.count() >= 2 {
            self.turn();
        }
    }

    // Brings the next frame of the ring to the active desk, as `bring`.
    fn bring_here(&mut self, alone: bool, anyway: bool) -> Brought
        requires { 2 ≤ length self.old.desks → TakesFrame D.medium (desks_now self.old) }
        ensures told { IsBrought D.medium self.old.end self.new result }
        ensures same { IsChangedAt self.old.active self.old (record self.new { end = self.old.end }) }
        ensures fits { (n : ℕ) → result ≡ Submitted n → (alone ≡ true → 2 ≤ length self.old.desks)
            → IsSoAt self.old.active self.new.desks FitsBlock }
        ensures begins { (n : ℕ) → result ≡ Submitted n → anyway ≡ false
            → (alone ≡ true → 2 ≤ length self.old.desks) → IsSoAt self.old.active self.old.desks (MayBegin D.medium) }
    {
        if self.given_up == u64::MAX {
            return Brought::Nothing;
        }
        if !self.desks.has_room(alone, anyway) {
            return Brought::NoRoom;
        }
        match self.desks.submit_from(&mut self.from) {
            Taken::Nothing => Brought::Nothing,
            Taken::Unnoted => {
                self.closed = true;
                Brought::NoRoom
            }
            Taken::Asked(_, Ok(number)) => Brought::Submitted(Untold { what: number }),
            Taken::Asked(frame, Err(fault)) => {
                self.given_up += 1;
                let lost = LostFrame {
                    sequence: frame.sequence,
                    timestamp: frame.timestamp,
                };
                Brought::GivenUp(fault, Untold { what: lost })
            }
        }
    }

    /// Gives up the next frame of the ring, and counts it; returns which frame it was. None: no frame is in the ring,
    /// or flushes go on.
    pub fn give_up(&mut self) -> Option<Untold<LostFrame>>
        ensures refused { IfSome result (λ lost. WasRefused D.medium K.gives_up self.new) }
        ensures same { self.new ≡ self.old }
    {
        if !self.refused {
            return None;
        }
        if self.given_up == u64::MAX {
            return None;
        }
        let Ok(frame) = self.from.pop() else {
            return None;
        };
        let lost = LostFrame {
            sequence: frame.sequence,
            timestamp: frame.timestamp,
        };
        self.given_up += 1;
        self.desks.return_memory(frame.bytes);
        Some(Untold { what: lost })
    }

    /// Whether a flush was refused, and isn't tried again.
    pub fn is_refused(&self) -> bool
        ensures { result ≡ true → WasRefused D.medium K.gives_up self.now }
    {
        self.refused
    }

    /// Whether a call couldn't be noted: then it has no further one to make. It promises nothing.
    pub fn is_closed(&self) -> bool {
        self.closed
    }

    /// Its desks.
    pub fn desks(&self) -> &Desks<D, K, A>
        ensures desks { result.now.desks ≡ self.now.desks }
        ensures active { result.now.lent.active ≡ self.now.active }
        ensures end { result.now.lent.end ≡ self.now.end }
    {
        &self.desks
    }

    /// Memory of a frame that the active desk stored, for a later one, as `Desks::spare_memory`.
    pub fn spare_memory(&mut self) -> Option<Vec<u8, A>>
        ensures { self.new ≡ self.old }
    {
        self.desks.spare_memory()
    }

    /// Where the active desk is between two blocks, makes the desk active that takes the next block
    /// (`Desks::next_desk`). Returns whether there is none: all is locked. It takes no memory.
    pub fn turn(&mut self) -> bool
        ensures turns { IsSoAt self.old.active self.old.desks IsBetween
            → TurnsTo D.medium self.old.desks self.old.end self.old.active self.new.active result }
        ensures stays { (IsSoAt self.old.active self.old.desks IsBetween → ⊥)
            → (self.new ≡ self.old) × (result ≡ false) }
        ensures locked { result ≡ true → AllLocked D.medium self.new.desks self.new.active }
        ensures same { self.new ≡ record self.old { active = self.new.active } }
    {
        let is_locked = self.desks.turn();
        self.desks.visited();
        is_locked
    }

    /// Takes another desk, and returns its place; if there is no memory for it, it comes back.
    pub fn join(&mut self, desk: Seat<D, K, A>) -> Result<usize, Seat<D, K, A>>
        ensures done { IfOk result (λ place. (place ≡ length self.old.desks) × (self.new ≡ with_joined desk self.old)) }
        ensures refused { IfErr result (λ back. (back ≡ desk) × (self.new ≡ self.old)) }
    {
        if self.began.len() == self.began.capacity() {
            return Err(desk);
        }
        desk.desk().opens();
        let opened = Snapshot::of(&desk);
        match self.desks.join(desk) {
            Ok(place) => {
                self.began.push_reserved(opened);
                Ok(place)
            }
            Err(desk) => Err(desk),
        }
    }

    /// What is left of it.
    pub fn into_parts(self) -> BackParts<D, K, A>
        ensures desks { result.desk ∷ result.joined.items ≡ self.desks }
        ensures keeps { BackKeeps D.medium K.asks K.gives_up self result.from result.given_up result.refused }
    {
        let Back {
            desks,
            from,
            given_up,
            refused,
            closed: _,
            start: _,
            began: _,
            from_before: _,
        } = self;
        let mut desks = desks.into_seats();
        let desk = desks.remove(0);
        BackParts {
            desk,
            joined: desks,
            from,
            given_up,
            refused,
        }
    }
}

impl<D: Disk + Drop, G: Reports, A: Allocator + Copy> Back<D, G, A> {
    /// Stores the first frames that wait at the active desk, as `Desk::flush`. Where that is refused and the guide
    /// doesn't try it again, frames may be given up from then on. None: it couldn't be noted, and the desk wasn't
    /// asked.
    pub fn flush_for<R: Wait>(
        &mut self,
        rt: &R,
        guide: &G,
    ) -> Option<Result<Untold<Flushed>, StoreFault>>
        ensures last { IfSome result (λ answer. IsLastOf D.medium self.new (flushed answer)) }
        ensures same { IsChangedAt self.old.active self.old self.new }
        ensures always { G.NOTED ≡ false → IsSome result }
    {
        match self.desks.flush_noted() {
            None => {
                self.closed = true;
                None
            }
            Some(Ok(flushed)) => Some(Ok(Untold { what: flushed })),
            Some(Err(fault)) => {
                if !guide.flushes_again(rt, fault) {
                    self.refused = true;
                    return Some(Err(fault));
                }
                Some(Err(fault))
            }
        }
    }
}
