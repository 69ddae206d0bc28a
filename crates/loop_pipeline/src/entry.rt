//! What is noted of a desk's call.

ghost use Rattle.std.specs.Prelude.{◌≡◌, [], IfOk};
ghost use Rattle.loop_pipeline.specs.Notes.{pass_number, receipts_of};

use loop_desk::{Flushed, Status};
use loop_record::{FrameHead, Span};
use loop_store::StoreFault;
use std::alloc::{AllocError, Allocator, Global};

/// A frame without its number and its bytes.
#[derive(Clone, Copy, Debug, PartialEq, Eq)]
pub struct FrameInfo {
    /// The number of the frame since the device's start.
    pub sequence: u32,
    /// The buffer flags of the V4L2 userspace API.
    pub flags: u32,
    /// Microseconds.
    pub timestamp: u64,
}

/// A call of a desk and its answer, without pixels.
#[derive(Clone, Copy, Debug, PartialEq, Eq)]
pub enum Noted {
    /// A frame, the count of its bytes, and the number that it will have.
    Submit(FrameInfo, u64, Result<u64, StoreFault>),
    /// What the flush stored.
    Flush(Result<Flushed, StoreFault>),
    /// The numbers and the tag of a clip, and its id.
    Lock(Span, Result<u32, StoreFault>),
    /// The id of a clip.
    Unlock(u32, Result<(), StoreFault>),
    /// The number of a frame, and its head.
    Read(u64, Result<FrameHead, StoreFault>),
    /// The counts of the desk.
    Status(Status),
}

/// A call in a desk's history.
#[derive(Clone, Copy, Debug, PartialEq, Eq)]
pub struct Entry {
    /// The number of the caller's pass.
    pub pass: u32,
    /// The call.
    pub call: Noted,
}

/// What a caller's pass records of a call.
#[derive(Clone, Copy, Debug, PartialEq, Eq)]
pub struct Receipt {
    /// The camera.
    pub camera: u32,
    /// The place in the history of the camera's desk.
    pub place: u64,
    /// The call.
    pub call: Noted,
}

/// One caller's receipts.
#[derive(Drop)]
pub struct Pass<A: Allocator = Global> {
    pub(crate) number: u32,
    pub(crate) receipts: Vec<Receipt, A>,
}

impl<A: Allocator> Pass<A> {
    /// The pass of this number, without a receipt. It takes no memory.
    pub fn new(alloc: A, number: u32) -> Self
        ensures number { pass_number result ≡ number }
        ensures receipts { receipts_of result ≡ [] }
    {
        Pass {
            number,
            receipts: Vec::new(alloc),
        }
    }

    /// Its number, from 0.
    pub fn number(&self) -> u32
        ensures { result ≡ pass_number self.now }
    {
        self.number
    }

    /// Its receipts, in the order of the calls.
    pub fn receipts(&self) -> &[Receipt]
        ensures { result.now ≡ receipts_of self.now }
    {
        self.receipts.as_slice()
    }

    /// A copy: the same number and the same receipts. It takes memory once.
    pub fn duplicate(&self, alloc: A) -> Result<Pass<A>, AllocError>
        ensures number { IfOk result (λ pass. pass_number pass ≡ pass_number self.now) }
        ensures receipts { IfOk result (λ pass. receipts_of pass ≡ receipts_of self.now) }
    {
        let receipts = Vec::from_slice(alloc, self.receipts.as_slice())?;
        Ok(Pass {
            number: self.number,
            receipts,
        })
    }

    /// The pass of this number with the receipts of another, as a copy of it that went on.
    pub fn with_receipts_of(self, newer: Pass<A>) -> Pass<A>
        ensures number { pass_number result ≡ pass_number self }
        ensures receipts { receipts_of result ≡ receipts_of newer }
    {
        Pass {
            number: self.number,
            receipts: newer.receipts,
        }
    }
}
