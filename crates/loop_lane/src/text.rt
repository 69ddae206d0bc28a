//! From a lane to a text, and to what is found after a power loss.

ghost use Rattle.std.specs.Prelude.{◌≡◌, IfOk, false};
ghost use Rattle.std.specs.Io.KnownBytes.{Appends};
ghost use Rattle.loop_record.specs.Recording.{plain, ring_of};
ghost use Rattle.loop_store.specs.Calls.{StoreState};
ghost use Rattle.loop_store.specs.Goes.{Stands};
ghost use Rattle.loop_desk.specs.Footage.{steps_made};
ghost use Rattle.loop_lane.specs.Lane.{LaneRan};
ghost use Rattle.loop_lane.specs.Reopened.{AnswersReopened, IsLeftBehind};
ghost use Rattle.loop_lane.specs.declared.lane.Lane.{Lane};
ghost use Rattle.loop_y4m.specs.Export.{frames_between};
ghost use Rattle.loop_y4m.specs.Text.{text};

use crate::{Lane, LaneEvent, LaneReply, lane_run};
use loop_disk::Disk;
use loop_plane::PlaneMemory;
use loop_store::{OpenRefused, Store, StoreFault};
use loop_y4m::{ExportFault, export};
use std::alloc::Allocator;
use std::io::Write;

/// At which step a recording didn't become a text, and why.
#[derive(Clone, Copy, Debug, PartialEq, Eq)]
pub enum TextFault {
    /// In the run or the filming: memory or a thread was refused, or a call that writes failed.
    Run(StoreFault),
    /// While the store was opened again.
    Open(StoreFault),
    /// In the export.
    Export(ExportFault),
}

/// Runs a lane through events, opens the store on its disk again, and writes the held frames whose numbers are from
/// `from` to `to`. At Ok the text is that of the plain recorder's frames after all steps of the events that were
/// answered Ok.
pub fn record_and_export<D: Disk + Drop, P: PlaneMemory, A: Allocator + Copy, W: Write>(
    alloc: A,
    lane: Lane<D, P, A>,
    events: Vec<LaneEvent<P, A>, A>,
    from: u64,
    to: u64,
    out: &mut W,
) -> Result<Vec<LaneReply<P, A>, A>, TextFault>
    ensures { (s : StoreState) → Stands D.medium lane.desk.store s → (D.medium lane.desk.store.disk).honest
        → IfOk result (λ replies. (after : Lane D P A) ×
        ((ran : LaneRan P.plane D.medium lane after events.items replies.items)
        × Appends (W.contents out.old) (W.contents out.new) (text lane.desk.store.geometry
        (frames_between from to (plain (ring_of lane.desk.store.geometry) s.recording
        (steps_made lane.desk s ran.calls)).frames)))) }
{
    let mut lane = lane;
    let replies = match lane_run(alloc, &mut lane, events) {
        Ok(replies) => replies,
        Err((fault, _)) => return Err(TextFault::Run(fault)),
    };
    if lane.desk.status().must_reopen {
        return Err(TextFault::Run(StoreFault::MustReopen));
    }
    let Lane {
        queue: _,
        table: _,
        hand: _,
        desk,
    } = lane;
    let mut store = match Store::open(alloc, desk.into_disk()) {
        Ok(store) => store,
        Err(OpenRefused { fault, disk: _ }) => return Err(TextFault::Open(fault)),
    };
    match export(alloc, &mut store, from, to, out) {
        Ok(_) => Ok(replies),
        Err(fault) => Err(TextFault::Export(fault)),
    }
}

/// Runs a lane through events, and opens a disk that has what a power loss may have left of the lane's: the image of
/// any moment since the run began, before, between or within any writes. It opens, except where memory is refused or a
/// call of that disk fails. What it holds is the recording after a prefix of the run's steps, in which each clip has
/// all its frames. Where the power failed once the run was over, that prefix has all steps that were answered.
pub fn run_and_reopen<D: Disk + Drop, E: Disk + Drop, P: PlaneMemory, A: Allocator + Copy>(
    alloc: A,
    lane: &mut Lane<D, P, A>,
    events: Vec<LaneEvent<P, A>, A>,
    left: E,
) -> Result<(Vec<LaneReply<P, A>, A>, Store<E, A>), TextFault>
    ensures { (s : StoreState) → Stands D.medium lane.old.desk.store s → s.must_reopen ≡ false
        → IsLeftBehind D.medium E.medium lane.old.desk lane.new.desk left
        → AnswersReopened P.plane D.medium E.medium lane.old lane.new events.items (E.medium left).bytes s result }
{
    let replies = match lane_run(alloc, lane, events) {
        Ok(replies) => replies,
        Err((fault, _)) => return Err(TextFault::Run(fault)),
    };
    match Store::open(alloc, left) {
        Ok(store) => Ok((replies, store)),
        Err(OpenRefused { fault, disk: _ }) => Err(TextFault::Open(fault)),
    }
}
