//! Lists of commands, and the replies.

ghost use Rattle.std.specs.Prelude.{◌≡◌, ◌↔◌, ◌⊎◌, ◌∷◌, [], All, Err, IfErr, IfOk, IsTrue};
ghost use Rattle.loop_store.specs.Calls.{Call, was_read};
ghost use Rattle.loop_store.specs.Goes.{Goes};
ghost use Rattle.loop_store.specs.Runs.{IsCall, IsOfSize, Ran, read_of};

use crate::{Store, StoreFault, frame_memory};
use loop_disk::Disk;
use loop_record::{Frame, FrameHead, Span};
use std::alloc::{Allocator, Global};

/// A request to a store.
#[derive(Drop)]
pub enum Command<A: Allocator = Global> {
    /// Store a frame.
    Store(Frame<A>),
    /// Lock the frames of a span.
    Lock(Span),
    /// Unlock the clip of an id.
    Unlock(u32),
    /// Read the frame of a number.
    Read(u64),
}

/// A frame that was read.
#[derive(Drop)]
pub struct ReadFrame<A: Allocator = Global> {
    /// Its number and head.
    pub head: FrameHead,
    /// Its planes in order, without padding.
    pub bytes: Vec<u8, A>,
}

/// The result of a command's own call.
#[derive(Drop)]
pub enum Reply<A: Allocator = Global> {
    /// The number of a stored frame.
    Store(Result<u64, StoreFault>),
    /// The id of the clip that was locked.
    Lock(Result<u32, StoreFault>),
    /// The clip was unlocked.
    Unlock(Result<(), StoreFault>),
    /// The frame that was read.
    Read(Result<ReadFrame<A>, StoreFault>),
}

impl<D: Disk + Drop, A: Allocator + Copy> Store<D, A> {
    /// Reads a frame into newly allocated memory. `MustReopen`, `NotHeld`, then `NoMemory` for its bytes, then `Disk`
    /// or `Damaged`.
    pub fn read_frame(&mut self, alloc: A, number: u64) -> Result<ReadFrame<A>, StoreFault>
        ensures goes { Goes D.medium self.old self.new (was_read number (read_of result) ∷ []) }
        ensures same { self.new ≡ record self.old { disk = self.new.disk } }
    {
        self.read_frame_in(alloc, None, number)
    }

    /// As `read_frame`, into spare memory where that has a frame's length.
    pub fn read_frame_in(
        &mut self,
        alloc: A,
        spare: Option<Vec<u8, A>>,
        number: u64,
    ) -> Result<ReadFrame<A>, StoreFault>
        ensures goes { Goes D.medium self.old self.new (was_read number (read_of result) ∷ []) }
        ensures same { self.new ≡ record self.old { disk = self.new.disk } }
    {
        if self.must_reopen {
            return Err(StoreFault::MustReopen);
        }
        if !self.holds(number) {
            return Err(StoreFault::NotHeld);
        }
        let size = self.index.ring.geometry.frame_bytes() as usize;
        let mut bytes = frame_memory(alloc, spare, size)?;
        let head = self.read(number, &mut bytes)?;
        Ok(ReadFrame { head, bytes })
    }
}

impl<D: Disk + Drop, A: Allocator + Copy> Store<D, A> {
    // Runs one command.
    fn answer(&mut self, alloc: A, command: &Command<A>) -> Reply<A>
        requires { IsOfSize self.old.geometry command.now }
        ensures { (call : Call) × (IsCall command.now result call × Goes D.medium self.old self.new (call ∷ [])) }
    {
        match command {
            Command::Store(frame) => Reply::Store(self.append_one(frame)),
            Command::Lock(span) => Reply::Lock(self.lock(span.from, span.to, span.tag)),
            Command::Unlock(id) => Reply::Unlock(self.unlock(*id)),
            Command::Read(number) => Reply::Read(self.read_frame(alloc, *number)),
        }
    }
}

impl<D: Disk + Drop, A: Allocator + Copy> Store<D, A> {
    /// Runs commands one after the other, and returns a reply to each.
    ///
    /// `MustReopen` where a call that writes has failed before, or `NoMemory` where there is no room for the replies;
    /// then nothing was done. A refused command doesn't end the list. After `Disk` of a command that writes, each
    /// later one gets `MustReopen`.
    pub fn run(&mut self, alloc: A, commands: &[Command<A>]) -> Result<Vec<Reply<A>, A>, StoreFault>
        requires sizes { All (IsOfSize self.old.geometry) commands.now }
        ensures ran { IfOk result (λ replies. Ran D.medium self.old self.new commands.now replies.items) }
        ensures refused { IfErr result (λ fault. ((fault ≡ StoreFault.MustReopen)
            ⊎ (fault ≡ StoreFault.NoMemory)) × (self.new ≡ self.old)) }
        ensures must_reopen { (result ≡ Err StoreFault.MustReopen) ↔ IsTrue self.old.must_reopen }
    {
        if self.must_reopen {
            return Err(StoreFault::MustReopen);
        }
        let mut replies = Vec::with_capacity(alloc, commands.len())?;
        for command in commands {
            replies.push_reserved(self.answer(alloc, command));
        }
        Ok(replies)
    }
}
