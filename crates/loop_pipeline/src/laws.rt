//! What holds of a camera that was filmed. The functions do nothing: their contracts are the laws.

ghost use Rattle.std.specs.Prelude.{◌≡◌, ◌∷◌, ◌%◌, ◌^◌, Bool, List, ℕ, Some, [], false, slice_get, true};
ghost use Rattle.loop_desk.specs.Seen.{SeenDesk};
ghost use Rattle.loop_pipeline.specs.Backs.{IsSoAt, calls_at};
ghost use Rattle.loop_pipeline.specs.Cameras.{CameraKeeps, OneDeskKeeps, desks_of};
ghost use Rattle.loop_pipeline.specs.Fronts.{GoesOn, TickRecord, asks_source};
ghost use Rattle.loop_pipeline.specs.Legal.{IsLegalRun};
ghost use Rattle.loop_pipeline.specs.Nexts.{OldestGoes};
ghost use Rattle.loop_pipeline.specs.TickCounts.{CountsTicks};
ghost use Rattle.loop_pipeline.specs.Turns.{RoomForBlock, TurnsTo};
ghost use Rattle.loop_record.specs.Recording.{Recording};
ghost use Rattle.loop_store.specs.Seen.{StandsFor, ring_in};

use crate::{Back, Camera, Guide, Visits};
use loop_capture::{Device, FrameSource};
use loop_disk::Disk;
use loop_plane::PlaneMemory;

/// The calls by which each of a camera's desks has gone on are a legal history of it, without pixels: each answer is
/// the one of the plain recorder at its point, the desk stands for the state after them, and calls of its disk have
/// failed just as the answers say.
pub fn a_camera_is_legal<S: FrameSource + Drop, D: Disk + Drop, P: PlaneMemory, G: Guide>(
    before: &Camera<S, D, P, G>,
    after: &Camera<S, D, P, G>,
    guide: &G,
)
    ensures { (given_up left missed failed : ℕ) (over : Bool)
        (kept : CameraKeeps D.medium S.next_gives P.plane G.asks G.gives_up
        (G.due guide.now) (G.ends guide.now) before.now after.now given_up left missed failed over)
        (place : ℕ) (d e : SeenDesk D)
        → slice_get (desks_of before.now) place ≡ Some d → slice_get (desks_of after.now) place ≡ Some e
        → IsLegalRun D.medium d (calls_at place kept.parts) e }
{}

/// Where a camera has one desk, all calls are that desk's own: what is kept of it is said without places.
pub fn one_desk_has_all<S: FrameSource + Drop, D: Disk + Drop, P: PlaneMemory, G: Guide>(
    before: &Camera<S, D, P, G>,
    after: &Camera<S, D, P, G>,
    guide: &G,
)
    ensures { (given_up left missed failed : ℕ) (over : Bool)
        (kept : CameraKeeps D.medium S.next_gives P.plane G.asks G.gives_up
        (G.due guide.now) (G.ends guide.now) before.now after.now given_up left missed failed over)
        → before.now.joined ≡ []
        → OneDeskKeeps D.medium G.asks G.gives_up before.now.desk after.now kept.came left }
{}

/// Where the store of any desk of a back has room for a block, a back that turns doesn't tell that all is locked, and
/// turns to a desk whose store has room.
pub fn room_is_turned_to<D: Disk + Drop, K: Visits>(back: &Back<D, K>)
    ensures { (new : ℕ) (locked : Bool) → TurnsTo D.medium back.now.desks back.now.end back.now.active new locked
        → (place : ℕ) (d : SeenDesk D) (r : Recording) → slice_get back.now.desks place ≡ Some d
        → StandsFor D.medium d.store r → RoomForBlock (ring_in d.store) d.store.keep r
        → (locked ≡ false) × IsSoAt new back.now.desks (λ e. (q : Recording) → StandsFor D.medium e.store q
        → RoomForBlock (ring_in e.store) e.store.keep q) }
{}

/// Where a device goes on at a start, its ticks that got a frame or lost one are counted: each has the next count, and
/// its sequence is the count, which goes round.
pub fn ticks_are_counted<S: FrameSource + Drop>(before: &Device<S>, after: &Device<S>)
    ensures { (given : List TickRecord) (count : ℕ) → GoesOn S.next_gives before.now given after.now
        → before.now.goes_on ≡ true → before.now.next ≡ count % 2 ^ 32
        → (end : ℕ) × CountsTicks count given end × (after.now.next ≡ end % 2 ^ 32) }
{}

/// From the first tick on that asks its source, a device's ticks are counted, whether it goes on at a start or not: each
/// that got a frame or lost one has the next count. So the sequence begins anew at most once.
pub fn a_start_is_numbered_once<S: FrameSource + Drop>(before: &Device<S>, after: &Device<S>)
    ensures { (g : TickRecord) (given : List TickRecord) (count : ℕ) → asks_source g.tick ≡ true
        → GoesOn S.next_gives before.now (g ∷ given) after.now → g.sequence ≡ count % 2 ^ 32
        → (end : ℕ) × CountsTicks count (g ∷ given) end }
{}

/// Of all stores of a camera, no held frame of a block that may go is older than the first frame of the block that
/// goes, by their sequences, if in each store these rise with the numbers, up to one past the newest. No time decides.
pub fn the_oldest_goes()
    ensures { OldestGoes }
{}
