//! The end of a camera: its front and its back, brought together.

ghost use Rattle.std.specs.Prelude.{◌≡◌, ◌∷◌, List, length};
ghost use Rattle.rtrb.specs.Ring.{IsPair};
ghost use Rattle.loop_desk.specs.Seen.{SeenDesk};
ghost use Rattle.loop_pipeline.specs.Cameras.{AreLeft, CameraKeeps};
ghost use Rattle.loop_pipeline.specs.Fronts.{HandIsSpent, IsRegular, Leaves, StaysOpen, made_of};

use crate::{Back, BackParts, Begun, FrontParts, Guide, Seat, Visits};
use loop_capture::{Device, FrameSource};
use loop_desk::Hand;
use loop_disk::Disk;
use loop_plane::{FdTable, PlaneMemory};
use loop_vb2::Queue;
use std::alloc::{Allocator, Global};

/// What is left of a camera.
#[derive(Drop)]
pub struct CameraEnd<
    S: FrameSource + Drop,
    D: Disk + Drop,
    P: PlaneMemory,
    G: Visits,
    A: Allocator + Copy = Global,
> {
    /// Its device.
    pub device: Device<S, A>,
    /// Its queue.
    pub queue: Queue<P, A>,
    /// What fds name.
    pub table: FdTable<P, A>,
    /// The buffer that isn't queued again, if there is one.
    pub hand: Hand<P, A>,
    /// The desk that it had.
    pub desk: Seat<D, G, A>,
    /// The desks that joined it, in the order in which they came.
    pub joined: Vec<Seat<D, G, A>, A>,
    /// How many frames a desk refused, or were given up before they came to one.
    pub given_up: u64,
    /// How many frames were still in the ring, and are lost.
    pub left: u64,
    /// How many ticks lost a frame because no buffer was active.
    pub missed: u64,
    /// How many ticks lost a frame because it couldn't be got.
    pub failed: u64,
    /// Whether its guide or its source has ended it.
    pub over: bool,
}

/// Ends a camera, after both its threads have ended. `begun` is what its front was made of; front and back were made on
/// the two ends of one ring. The contract says what the camera kept since then.
pub fn end<S: FrameSource + Drop, D: Disk + Drop, P: PlaneMemory, G: Guide, A: Allocator + Copy>(
    begun: Begun<S, P, G, A>,
    front: FrontParts<S, P, A>,
    back: Back<D, G, A>,
) -> CameraEnd<S, D, P, G, A>
    requires front { Leaves S.next_gives P.plane (G.due begun.guide.value) (G.ends begun.guide.value)
        (made_of begun) front }
    requires pair { IsPair begun.to.value back.from }
    ensures keeps { (first : SeenDesk D) (others : List (SeenDesk D)) → back.began ≡ first ∷ others
        → back.start ≡ begun.device.value.next → IsRegular P.plane begun.queue.value
        → CameraKeeps D.medium S.next_gives P.plane G.asks G.gives_up
        (G.due begun.guide.value) (G.ends begun.guide.value)
        (record { device = begun.device.value; queue = begun.queue.value; desk = first; joined = others })
        (record { device = result.device; queue = result.queue; desk = result.desk; joined = result.joined.items })
        result.given_up result.left result.missed result.failed result.over }
    ensures again { StaysOpen P.plane begun.queue.value result.queue result.table }
    ensures held { HandIsSpent result.queue result.hand }
    ensures desks { result.desk ∷ result.joined.items ≡ back.desks }
    ensures all { length back.desks ≡ length back.began }
    ensures left { AreLeft D.medium back.began back.desks back.active }
    ensures front { (result.device ≡ front.device) × (result.queue ≡ front.queue) × (result.over ≡ front.over) }
{
    let Begun {
        queue: _,
        device: _,
        to: _,
        guide: _,
    } = begun;
    let FrontParts {
        device,
        queue,
        table,
        hand,
        mut to,
        missed,
        failed,
        over,
    } = front;
    let BackParts {
        desk,
        joined,
        mut from,
        given_up,
        refused: _,
    } = back.into_parts();
    let left = from.slots_beside(&mut to) as u64;
    CameraEnd {
        device,
        queue,
        table,
        hand,
        desk,
        joined,
        given_up,
        left,
        missed,
        failed,
        over,
    }
}
