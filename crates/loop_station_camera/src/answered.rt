//! Frames with which a camera's desks answered. What a save writes of them is known though they come through a lock,
//! of which nothing else is known: only a desk that is asked makes one, and there is no copy.

ghost use Rattle.std.specs.Prelude.{◌≡◌, ◌∷◌, ◌++◌, ◌<◌, ◌&&◌, ◌==◌, ℕ, List, OnOk, IfOk, IfSome, Result, [], false, length};
ghost use Rattle.loop_desk.specs.Desk.{frame_read};
ghost use Rattle.loop_desk.specs.Seen.{DeskGoes};
ghost use Rattle.loop_pipeline.specs.Backs.{GoesAt};
ghost use Rattle.loop_record.specs.declared.frame.FrameHead.{FrameHead};
ghost use Rattle.loop_store.specs.declared.fault.StoreFault.{StoreFault};
ghost use Rattle.loop_station_camera.specs.Answers.{desk_answer};

use loop_disk::Disk;
use loop_pipeline::{Desks, Visits};
use loop_record::FrameHead;
use loop_station_shared::Stored;
use loop_store::{ReadFrame, StoreFault};
use std::alloc::{AllocError, Global};
use std::marker::Model;
use std::snapshot::Snapshot;
use std::sync::Wait;

/// Where the desk of a store is, as its camera has noted it. Nothing else makes one.
#[derive(Drop)]
pub(crate) struct Placed {
    store: u32,
    place: usize,
}

impl Model for Placed {
    ghost use Rattle.loop_station_camera.specs.Answers.{SeenPlace};

    ghost Value = { SeenPlace };

    ghost view = { λ p. record { store = p.store; place = p.place } };
}

impl Placed {
    /// Where the desk of the store of a number is, if that is open.
    pub(crate) fn of<R: Wait>(rt: &R, stored: &Stored, store: u32) -> Option<Placed>
        ensures { IfSome result (λ at. at.store ≡ store) }
    {
        let place = stored.place_of(rt, store)?;
        Some(Placed { store, place })
    }

    /// The place among the camera's desks.
    pub(crate) fn place(&self) -> usize
        ensures { result ≡ self.now.place }
    {
        self.place
    }
}

/// A frame with which the desk of a store answered, when it was asked for a number.
#[derive(Drop)]
pub(crate) struct Answered {
    store: u32,
    number: u64,
    frame: ReadFrame,
}

impl Model for Answered {
    ghost use Rattle.loop_station_camera.specs.Answers.{SeenAnswer};

    ghost Value = { SeenAnswer };

    ghost view = { λ a. record {
      store = a.store;
      number = a.number;
      head = a.frame.head;
      bytes = a.frame.bytes.items;
    } };
}

impl Answered {
    /// Asks the desk of a store for the frame of a number, as `Desks::read_frame`. Nothing else makes one.
    pub(crate) fn of<D: Disk + Drop, K: Visits>(
        alloc: Global,
        desks: &mut Desks<D, K>,
        at: Placed,
        number: u64,
    ) -> Result<Answered, StoreFault>
        requires place { at.place < length desks.old.desks }
        requires may { (answer : Result (FrameHead × List ℕ) StoreFault) → K.asks (frame_read number answer) }
        requires plain { K.NOTED ≡ false }
        ensures goes { GoesAt at.place desks.old.desks desks.new.desks
            (λ d e. DeskGoes D.medium d e (frame_read number (desk_answer result) ∷ [])) }
        ensures this { IfOk result (λ a. (a.store ≡ at.store) × (a.number ≡ number)) }
        ensures lent { desks.new.lent ≡ desks.old.lent }
    {
        let Placed { store, place } = at;
        match desks.read_frame(alloc, place, number) {
            Ok(frame) => Ok(Answered {
                store,
                number,
                frame,
            }),
            Err(fault) => Err(fault),
        }
    }

    /// Whether it is that of a store, for a number.
    pub(crate) fn is_of(&self, store: u32, number: u64) -> bool
        ensures { result ≡ ((self.now.store == store) && (self.now.number == number)) }
    {
        self.store == store && self.number == number
    }

    /// Its head.
    pub(crate) fn head(&self) -> FrameHead
        ensures { result ≡ self.now.head }
    {
        self.frame.head
    }

    /// Its bytes.
    pub(crate) fn bytes(&self) -> &[u8]
        ensures { result.now ≡ self.now.bytes }
    {
        self.frame.bytes.as_slice()
    }
}

/// The frames of which a text was written, one after the other. Each took the place of a desk's answer, so none is
/// there that no desk gave. It has none of their bytes.
#[derive(Drop)]
pub(crate) struct Written {
    frames: Vec<Snapshot<Answered>>,
}

impl Model for Written {
    ghost use Rattle.std.specs.Prelude.{List, map};
    ghost use Rattle.loop_station_camera.specs.Answers.{SeenAnswer};

    ghost Value = { List SeenAnswer };

    ghost view = { λ w. map (λ s. s.value) w.frames.items };
}

impl Written {
    /// None yet.
    pub(crate) fn nothing(alloc: Global) -> Written
        ensures { result ≡ [] }
    {
        Written {
            frames: Vec::new(alloc),
        }
    }

    /// One more.
    pub(crate) fn add(&mut self, answer: Answered) -> Result<(), AllocError>
        ensures { OnOk result (self.new ≡ self.old ++ answer ∷ []) }
    {
        self.frames.push(Snapshot::of(&answer))?;
        Ok(())
    }

    /// These come after the others.
    pub(crate) fn append(&mut self, more: Written) -> Result<(), AllocError>
        ensures { OnOk result (self.new ≡ self.old ++ more) }
    {
        let Written { mut frames } = more;
        self.frames.append(&mut frames)
    }

    /// How many they are.
    pub(crate) fn count(&self) -> u64
        ensures { result ≡ length self.now }
    {
        self.frames.len() as u64
    }
}
