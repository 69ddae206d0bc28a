//! What holds of lists of calls. The functions do nothing: their contracts are the laws.

ghost use Rattle.std.specs.Prelude.{◌++◌, List};
ghost use Rattle.loop_store.specs.Calls.{StoreState};
ghost use Rattle.loop_store.specs.Goes.{Stands};
ghost use Rattle.loop_desk.specs.Bare.{IsBlind, IsOutlineOf, bare_state};
ghost use Rattle.loop_desk.specs.Desk.{AreDeskAnswers, DeskCall, DeskState, Rules, desk_after_calls};
ghost use Rattle.loop_desk.specs.Footage.{KeepsFootage};
ghost use Rattle.loop_desk.specs.declared.limits.Outline.{Outline};
ghost use Rattle.loop_desk.specs.FrontLaws.{NewFrontsStand, WholeFramesAreTaken};
ghost use Rattle.loop_desk.specs.Waiting.{FramesAreKept, QueuesStaySound};
ghost use Rattle.loop_desk.specs.Seen.{DeskGoes, DeskStands, TellsOutline, rules_of};

use crate::Desk;
use loop_disk::Disk;
use loop_plane::PlaneMemory;
use std::alloc::Allocator;

/// A queue without buffers, any table and an empty hand stand for a front.
pub fn new_fronts_stand<P: PlaneMemory, A: Allocator>()
    ensures { NewFrontsStand A P.plane }
{}

/// A buffer with the planes of its format that was completed with a whole frame has that frame's bytes.
pub fn whole_frames_are_taken()
    ensures { WholeFramesAreTaken }
{}

/// Some calls of a desk, and others after them, are one list of calls.
pub fn calls_join<D: Disk + Drop, A: Allocator>(
    before: &Desk<D, A>,
    between: &Desk<D, A>,
    after: &Desk<D, A>,
)
    ensures { (first second : List DeskCall) → DeskGoes D.medium before.now between.now first
        → DeskGoes D.medium between.now after.now second
        → DeskGoes D.medium before.now after.now (first ++ second) }
{}

/// Calls of a desk keep its footage, whenever the power fails: the crash safety of each call alone, and of any list
/// of them.
pub fn calls_keep_footage<D: Disk + Drop, A: Allocator>(before: &Desk<D, A>, after: &Desk<D, A>)
    ensures { (calls : List DeskCall) (s : StoreState) → DeskGoes D.medium before.now after.now calls
        → Stands D.medium before.now.store s → (D.medium before.now.store.disk).honest
        → KeepsFootage D.medium before.now after.now calls s }
{}

/// A queue that isn't stopped loses no frame: those that waited, and then those that the device completed, are those
/// that were dequeued, in that order and with their bytes, and then those that wait. From each stop of the stream on it
/// is the same again, with nothing that waited.
pub fn frames_are_kept<P: PlaneMemory>()
    ensures { FramesAreKept P.plane }
{}

/// A queue without buffers is sound, so a law of sound queues holds of it; and a sound queue stays so, whatever
/// happens, a stop of the stream too.
pub fn queues_stay_sound<P: PlaneMemory>()
    ensures { QueuesStaySound P.plane }
{}

/// Calls of a desk are calls of the model: from a state that the desk stood for, each was answered as the model has
/// it at its point, and the desk stands for the state after them.
pub fn calls_are_the_models<D: Disk + Drop, A: Allocator>(before: &Desk<D, A>, after: &Desk<D, A>)
    ensures { (calls : List DeskCall) (s : DeskState) → DeskGoes D.medium before.now after.now calls
        → DeskStands D.medium before.now s → (D.medium before.now.store.disk).honest
        → AreDeskAnswers (rules_of before.now) s calls
        × DeskStands D.medium after.now (desk_after_calls (rules_of before.now) s calls) }
{}

/// No answer of a desk, and no state that it reaches, depends on pixels: calls that were answered as the model has it
/// are so without pixels too. So one model serves a desk and a history of its calls that holds none.
pub fn model_is_blind()
    ensures { (k : Rules) (s : DeskState) (calls : List DeskCall) → IsBlind k s calls }
{}

/// A desk's outline is that of the state for which the desk stands, and of that state without pixels: an outline
/// doesn't depend on them either.
pub fn outlines_are_blind<D: Disk + Drop, A: Allocator>(desk: &Desk<D, A>)
    ensures { (outline : Outline A) (s : DeskState) → TellsOutline D.medium desk.now outline
        → DeskStands D.medium desk.now s → (D.medium desk.now.store.disk).honest
        → IsOutlineOf s outline × IsOutlineOf (bare_state s) outline }
{}
