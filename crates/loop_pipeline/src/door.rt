//! Where desks wait that join a camera while it is filmed.

ghost use Rattle.std.specs.Prelude.{◌≡◌, IfOk, false, true};
ghost use Rattle.loop_pipeline.specs.Doors.{HasArrived};
ghost use Rattle.loop_pipeline.specs.declared.waiting.Arrival.TheVariants.{Nobody};

use crate::waiting::Waiting;
use crate::{Arrival, Back, Visits};
use loop_desk::Desk;
use loop_disk::Disk;
use std::alloc::{AllocError, Global};
use std::marker::Model;
use std::sync::atomic::{AtomicBool, Ordering};
use std::sync::{Mutex, Wait};

/// Where desks wait until a camera's thread lets them in, the first first. Any thread may put one there. Who wakes that
/// thread (`Link::wake`) has it let in at once. It can't be dropped: after the filming its owner takes the desks that
/// still wait. Contracts see whether it is open: no desk comes through a shut one.
pub struct Door<D: Disk + Drop> {
    is_open: bool,
    // The last desk that was looked at waits on.
    is_full: AtomicBool,
    waiting: Mutex<Waiting<D>>,
}

impl<D: Disk + Drop> Model for Door<D> {
    ghost use Rattle.std.specs.Prelude.{Bool};

    ghost Value = { Bool };

    ghost view = { λ d. d.is_open };
}

impl<D: Disk + Drop> Door<D> {
    /// A door at which no desk waits, with memory for `most`.
    pub fn new(alloc: Global, most: usize) -> Result<Door<D>, AllocError>
        ensures { IfOk result (λ door. door ≡ true) }
    {
        Ok(Door {
            is_open: true,
            is_full: AtomicBool::new(false),
            waiting: Mutex::new(Waiting::new(alloc, most)?),
        })
    }

    /// A door that is shut: it takes no memory, and no desk.
    pub fn shut(alloc: Global) -> Door<D>
        ensures { result ≡ false }
    {
        Door {
            is_open: false,
            is_full: AtomicBool::new(false),
            waiting: Mutex::new(Waiting::none(alloc)),
        }
    }

    /// Whether it is open.
    pub fn is_open(&self) -> bool
        ensures { result ≡ self.now }
    {
        self.is_open
    }

    /// Puts a desk behind those that wait. If there is no memory for it, it comes back.
    pub fn put<R: Wait>(&self, rt: &R, desk: Desk<D>) -> Result<(), Desk<D>> {
        let mut waiting = self.waiting.lock(rt);
        waiting.put(desk)
    }

    /// Lets the desk that has waited longest join a back. If that has no memory for it, the desk waits on.
    pub fn let_in<R: Wait, K: Visits>(&self, rt: &R, back: &mut Back<D, K>) -> Arrival
        requires plain { K.NOTED ≡ false }
        ensures told { HasArrived result back.old back.new }
        ensures shut { self.now ≡ false → result ≡ Nobody }
    {
        if !self.is_open {
            return Arrival::Nobody;
        }
        let mut waiting = self.waiting.lock(rt);
        let arrival = waiting.let_in(back);
        self.is_full
            .store(arrival == Arrival::Full, Ordering::SeqCst);
        arrival
    }

    /// Whether desks waited when one was let in last, and there was no memory for another one. It promises nothing.
    pub fn is_full(&self) -> bool {
        self.is_full.load(Ordering::SeqCst)
    }

    /// The desks that still wait, the first first.
    pub fn into_desks(self) -> Vec<Desk<D>> {
        let Door {
            is_open: _,
            is_full: _,
            waiting,
        } = self;
        waiting.into_inner().into_desks()
    }
}
