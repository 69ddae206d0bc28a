//! The memory of a recording, all of which is reserved before it begins.

ghost use Rattle.std.specs.Prelude.{[], ◌≡◌, ◌≤◌, IfSome, length, vec_len};
ghost use Rattle.std.specs.Vec.{vec_capacity};
ghost use Rattle.loop_recorder.specs.Recordings.{HoldsAll};

use crate::post::{Post, Watch};
use crate::{OpenCamera, Pace, Pass};
use loop_capture::{FrameSource, Rest};
use loop_disk::Disk;
use loop_pipeline::Shot;
use loop_plane::PlaneMemory;
use std::alloc::Global;

/// A camera of a recording with its guide.
pub(crate) type Recorded<'a, S, D, P, Q> = Shot<S, D, P, Post<Watch<'a, Q>>>;

/// What is left of a camera that was to be filmed out of its locks.
#[derive(Drop)]
pub struct FilmedCamera<D: Disk + Drop, P: PlaneMemory> {
    /// Its desk with the history, and its queue.
    pub camera: OpenCamera<D, P>,
    /// The pass in which its calls were noted.
    pub pass: Pass,
    /// How many of its frames were lost after a tick asked its source for them. None: it wasn't filmed, since memory or
    /// a thread was refused.
    pub given_up: Option<u64>,
}

/// What came back of cameras.
#[derive(Drop)]
pub(crate) struct Returned<D: Disk + Drop, P: PlaneMemory> {
    /// What their devices left besides their sources, which were lent.
    pub rests: Vec<Rest>,
    /// The rest of them.
    pub filmed: Vec<FilmedCamera<D, P>>,
}

/// The memory for the end of a recording.
#[derive(Drop)]
pub(crate) struct Room<D: Disk + Drop, P: PlaneMemory> {
    /// For the cameras, out of their locks.
    pub cameras: Vec<OpenCamera<D, P>>,
    /// For the same after they were filmed.
    pub back: Vec<OpenCamera<D, P>>,
    /// For the passes in which their calls were noted.
    pub copies: Vec<Pass>,
    /// For the counts of their lost frames.
    pub given_up: Vec<u64>,
    /// For the passes at the end.
    pub passes: Vec<Pass>,
}

/// Copies of so many of these passes, the first ones; None if memory is refused.
pub(crate) fn copies_of(alloc: Global, passes: &[Pass], count: usize) -> Option<Vec<Pass>>
    requires { count ≤ length passes.now }
    ensures { IfSome result (λ copies. vec_len copies ≡ count) }
{
    let mut copies = Vec::with_capacity(alloc, count).ok()?;
    for at in 0..count {
        copies.push_reserved(passes[at].duplicate(alloc).ok()?);
    }
    Some(copies)
}

/// The memory for what comes back of so many cameras; None if it is refused.
pub(crate) fn returned_for<D: Disk + Drop, P: PlaneMemory>(
    alloc: Global,
    count: usize,
) -> Option<Returned<D, P>>
    ensures rests { IfSome result (λ r. r.rests.items ≡ []) }
    ensures filmed { IfSome result (λ r. r.filmed.items ≡ []) }
    ensures room { IfSome result (HoldsAll count) }
{
    let Ok(rests) = Vec::with_capacity(alloc, count) else {
        return None;
    };
    let Ok(filmed) = Vec::with_capacity(alloc, count) else {
        return None;
    };
    Some(Returned { rests, filmed })
}

/// The memory for the end of a recording of so many cameras and passes; None if it is refused.
pub(crate) fn room_for<D: Disk + Drop, P: PlaneMemory>(
    alloc: Global,
    count: usize,
    passes: usize,
) -> Option<Room<D, P>>
    ensures cameras { IfSome result (λ r. (r.cameras.items ≡ []) × (count ≤ vec_capacity r.cameras)) }
    ensures back { IfSome result (λ r. (r.back.items ≡ []) × (count ≤ vec_capacity r.back)) }
    ensures copies { IfSome result (λ r. (r.copies.items ≡ []) × (count ≤ vec_capacity r.copies)) }
    ensures given_up { IfSome result (λ r. (r.given_up.items ≡ []) × (count ≤ vec_capacity r.given_up)) }
    ensures passes { IfSome result (λ r. (r.passes.items ≡ []) × (passes ≤ vec_capacity r.passes)) }
{
    let Ok(cameras) = Vec::with_capacity(alloc, count) else {
        return None;
    };
    let Ok(back) = Vec::with_capacity(alloc, count) else {
        return None;
    };
    let Ok(copies) = Vec::with_capacity(alloc, count) else {
        return None;
    };
    let Ok(given_up) = Vec::with_capacity(alloc, count) else {
        return None;
    };
    let Ok(list) = Vec::with_capacity(alloc, passes) else {
        return None;
    };
    Some(Room {
        cameras,
        back,
        copies,
        given_up,
        passes: list,
    })
}
