//! How a desk's call is noted: memory for its entry and its receipt first, both after the answer.

ghost use Rattle.std.specs.Prelude.{◌≡◌, ◌↔◌, ◌≤◌, ◌<◌, ◌∷◌, ◌++◌, [], Err, OnOk, length, vec_len};
ghost use Rattle.std.specs.Vec.{vec_capacity};
ghost use Rattle.loop_desk.specs.Seen.{answer_of};
ghost use Rattle.loop_pipeline.specs.declared.notes.NoteRefused.TheVariants.{Full};
ghost use Rattle.loop_pipeline.specs.Notes.{HasReceiptRoom, entry, head_of, pass_number, receipt, receipts_of, stamp_of};

use crate::{Entry, FrameInfo, Noted, Pass, Receipt};
use loop_record::{Frame, FrameHead};
use loop_store::{ReadFrame, StoreFault};
use std::alloc::Allocator;

/// Why a call can't be noted.
#[derive(Clone, Copy, Debug, PartialEq, Eq)]
pub enum NoteRefused {
    /// The history has as many calls as it may have.
    Full,
    /// Memory for the entry or the receipt was refused.
    NoMemory,
}

/// Reserves memory for an entry and a receipt, if the history may have one more.
pub fn reserve<A: Allocator>(
    history: &mut Vec<Entry, A>,
    pass: &mut Pass<A>,
    calls: u32,
) -> Result<(), NoteRefused>
    ensures history { history.new.items ≡ history.old.items }
    ensures receipts { receipts_of pass.new ≡ receipts_of pass.old }
    ensures number { pass_number pass.new ≡ pass_number pass.old }
    ensures full { (result ≡ Err Full) ↔ (calls ≤ vec_len history.old) }
    ensures entry { OnOk result (vec_len history.new < vec_capacity history.new) }
    ensures receipt { OnOk result (HasReceiptRoom pass.new) }
{
    if calls as usize <= history.len() {
        return Err(NoteRefused::Full);
    }
    if history.reserve(1).is_err() {
        return Err(NoteRefused::NoMemory);
    }
    if pass.receipts.reserve(1).is_err() {
        return Err(NoteRefused::NoMemory);
    }
    Ok(())
}

/// Adds an entry to a history, and its receipt to a pass.
pub fn note<A: Allocator>(history: &mut Vec<Entry, A>, camera: u32, pass: &mut Pass<A>, call: Noted)
    requires entry { vec_len history.old < vec_capacity history.old }
    requires receipt { HasReceiptRoom pass.old }
    ensures history { history.new.items ≡ history.old.items ++ entry (pass_number pass.old) call ∷ [] }
    ensures receipts { receipts_of pass.new
        ≡ receipts_of pass.old ++ receipt camera (length history.old.items) call ∷ [] }
    ensures number { pass_number pass.new ≡ pass_number pass.old }
{
    pass.receipts.push_reserved(Receipt {
        camera,
        place: history.len() as u64,
        call,
    });
    history.push_reserved(Entry {
        pass: pass.number,
        call,
    });
}

/// A frame's stamp.
pub fn stamp_of<A: Allocator>(frame: &Frame<A>) -> FrameInfo
    ensures { result ≡ stamp_of frame.now }
{
    FrameInfo {
        sequence: frame.sequence,
        flags: frame.flags,
        timestamp: frame.timestamp,
    }
}

/// The answer without the frame that a refusal hands back.
pub fn answer_of<A: Allocator>(
    outcome: &Result<u64, (StoreFault, Frame<A>)>,
) -> Result<u64, StoreFault>
    ensures { result ≡ answer_of outcome.now }
{
    match outcome {
        Ok(number) => Ok(*number),
        Err((fault, _)) => Err(*fault),
    }
}

/// The answer to a read, without pixels.
pub fn head_of<A: Allocator>(
    outcome: &Result<ReadFrame<A>, StoreFault>,
) -> Result<FrameHead, StoreFault>
    ensures { result ≡ head_of outcome.now }
{
    match outcome {
        Ok(frame) => Ok(frame.head),
        Err(fault) => Err(*fault),
    }
}
