//! The desks that wait at a door: each joins a back, or waits on.

ghost use Rattle.std.specs.Prelude.{◌≡◌, ◌∷◌, ◌++◌, IfErr, IfOk, [], false};
ghost use Rattle.loop_pipeline.specs.Doors.{LetsIn};

use crate::{Back, Seat, Visits};
use loop_desk::Desk;
use loop_disk::Disk;
use std::alloc::{AllocError, Global};
use std::marker::Model;

/// What came of a look at the desks that wait at a door.
#[derive(Clone, Copy, PartialEq, Eq)]
pub enum Arrival {
    /// The desk that had waited longest has joined.
    Joined,
    /// Desks wait, and there is no memory for another one: they wait on.
    Full,
    /// No desk waits.
    Nobody,
}

// Desks that wait, the first first. It can't be dropped, so none of them can: each joins a back, or comes out of it in
// the end.
pub(crate) struct Waiting<D: Disk + Drop> {
    desks: Vec<Desk<D>>,
}

impl<D: Disk + Drop> Model for Waiting<D> {
    ghost use Rattle.std.specs.Prelude.{List};
    ghost use Rattle.loop_desk.specs.Seen.{SeenDesk};

    ghost Value = { List (SeenDesk D) };

    ghost view = { λ w. w.desks.items };
}

impl<D: Disk + Drop> Waiting<D> {
    // No desk waits; there is memory for `most`.
    pub(crate) fn new(alloc: Global, most: usize) -> Result<Waiting<D>, AllocError>
        ensures { IfOk result (λ waiting. waiting ≡ []) }
    {
        Ok(Waiting {
            desks: Vec::with_capacity(alloc, most)?,
        })
    }

    // No desk waits, and there is no memory for any.
    pub(crate) fn none(alloc: Global) -> Waiting<D>
        ensures { result ≡ [] }
    {
        Waiting {
            desks: Vec::new(alloc),
        }
    }

    // Puts a desk behind those that wait. If there is no memory for it, it comes back.
    pub(crate) fn put(&mut self, desk: Desk<D>) -> Result<(), Desk<D>>
        ensures done { IfOk result (λ done. self.new ≡ self.old ++ desk ∷ []) }
        ensures refused { IfErr result (λ back. (back ≡ desk) × (self.new ≡ self.old)) }
    {
        if self.desks.len() == self.desks.capacity() {
            return Err(desk);
        }
        self.desks.push_reserved(desk);
        Ok(())
    }

    // Lets the desk that has waited longest join a back, where that has memory for it.
    pub(crate) fn let_in<K: Visits>(&mut self, back: &mut Back<D, K>) -> Arrival
        requires plain { K.NOTED ≡ false }
        ensures { LetsIn result self.old self.new back.old back.new }
    {
        if self.desks.is_empty() {
            return Arrival::Nobody;
        }
        match back.join(Seat::alone(self.desks.remove(0))) {
            Ok(_) => Arrival::Joined,
            Err(seat) => match self.desks.insert(0, seat.into_desk()) {
                Ok(()) => Arrival::Full,
                Err(_) => unreachable!(),
            },
        }
    }

    // The desks that still wait, the first first.
    pub(crate) fn into_desks(self) -> Vec<Desk<D>>
        ensures { result.items ≡ self }
    {
        let Waiting { desks } = self;
        desks
    }
}
