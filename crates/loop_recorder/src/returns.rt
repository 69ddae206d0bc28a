//! How the cameras of a recording come back.

ghost use Rattle.std.specs.Prelude.{◌≡◌, ◌+◌, ◌++◌, ◌∷◌, ℕ, [], All, None, Some, map, vec_len};
ghost use Rattle.loop_recorder.specs.Recordings.{AreFilmed, HoldsAll, StandsAfter, StandsOutcome, outcome_left, lost_of, outcome_rest, rest_left, seen_filmed, seen_left, shot_left, shot_rest, without_source};
ghost use Rattle.loop_pipeline.specs.Fronts.{StandsPort};

use crate::post::{Post, Watch};
use crate::room::{FilmedCamera, Recorded, Returned};
use crate::{OpenCamera, Pace, Port, Session};
use loop_capture::{Device, FrameSource};
use loop_disk::Disk;
use loop_pipeline::{CameraEnd, Filmed, Outcome, Seat, Shot, Unfilmed, film_all};
use loop_plane::{FdTable, PlaneMemory};
use loop_vb2::Queue;
use std::alloc::Global;
use std::sync::Wait;
use std::thread::Threads;
use std::time::Clock;

// The parts of a camera that came back, and how many of its frames were lost, if it was filmed to its end.
#[derive(Drop)]
struct Parts<'a, S: FrameSource + Drop, D: Disk + Drop, P: PlaneMemory, Q: Pace> {
    device: Device<S>,
    queue: Queue<P>,
    table: FdTable<P>,
    seat: Seat<D, Post<Watch<'a, Q>>>,
    lost: Option<u64>,
}

// The parts of what is left of a camera. A buffer in its hand is dropped.
fn parts_left<'a, S: FrameSource + Drop, D: Disk + Drop, P: PlaneMemory, Q: Pace>(
    ended: CameraEnd<S, D, P, Post<Watch<'a, Q>>>,
) -> Parts<'a, S, D, P, Q>
    requires { StandsPort P.plane ended.queue ended.table }
    ensures stands { StandsPort P.plane result.queue result.table }
    ensures device { result.device ≡ ended.entry.device }
    ensures held { (result.queue ≡ ended.entry.queue) × (result.seat ≡ ended.entry.desk) }
    ensures lost { result.lost ≡ Some (lost_of ended.entry) }
{
    let lost = ended
        .given_up
        .saturating_add(ended.left)
        .saturating_add(ended.failed);
    let CameraEnd {
        device,
        queue,
        table,
        desk,
        hand: _,
        joined: _,
        given_up: _,
        left: _,
        missed: _,
        failed: _,
        over: _,
    } = ended;
    Parts {
        device,
        queue,
        table,
        seat: desk,
        lost: Some(lost),
    }
}

// The parts of a camera, whether it was filmed or not.
fn parts_of<'a, S: FrameSource + Drop, D: Disk + Drop, P: PlaneMemory, Q: Pace>(
    filmed: Filmed<S, D, P, Post<Watch<'a, Q>>>,
) -> Parts<'a, S, D, P, Q>
    requires { StandsAfter P.plane filmed }
    ensures stands { StandsPort P.plane result.queue result.table }
    ensures rest { without_source result.device ≡ rest_left filmed.entry }
    ensures left { record { queue = result.queue; desk = result.seat; lost = result.lost } ≡ seen_left filmed.entry }
{
    match filmed {
        Ok(ended) => parts_left(ended),
        Err(Unfilmed::NoThread(ended)) => Parts {
            lost: None,
            ..parts_left(ended)
        },
        Err(Unfilmed::NoMemory(camera)) => {
            let (device, queue, table, seat) = camera.into_parts();
            Parts {
                device,
                queue,
                table,
                seat,
                lost: None,
            }
        }
    }
}

// Adds a camera to what came back. It ends the loan of its source.
fn put_back<'a, S: FrameSource + Drop, D: Disk + Drop, P: PlaneMemory, Q: Pace>(
    filmed: Filmed<S, D, P, Post<Watch<'a, Q>>>,
    returned: Returned<D, P>,
) -> Returned<D, P>
    requires stands { StandsAfter P.plane filmed }
    requires room { HoldsAll (vec_len returned.filmed + 1) returned }
    ensures one { vec_len result.filmed ≡ vec_len returned.filmed + 1 }
    ensures rests { result.rests.items ≡ returned.rests.items ++ rest_left filmed.entry ∷ [] }
    ensures filmed { map seen_filmed result.filmed.items
        ≡ map seen_filmed returned.filmed.items ++ seen_left filmed.entry ∷ [] }
    ensures room { (all : ℕ) → HoldsAll all returned → HoldsAll all result }
{
    let Returned {
        mut rests,
        filmed: mut list,
    } = returned;
    let Parts {
        device,
        queue,
        table,
        seat,
        lost,
    } = parts_of(filmed);
    let (session, pass) = Session::from_seat(seat);
    let port = Port::new(queue, table);
    rests.push_reserved(device.into_rest());
    list.push_reserved(FilmedCamera {
        camera: OpenCamera { session, port },
        pass,
        given_up: lost,
    });
    Returned {
        rests,
        filmed: list,
    }
}

// Adds what came of cameras to what came back, which is empty.
fn outcomes_back<'a, S: FrameSource + Drop, D: Disk + Drop, P: PlaneMemory, Q: Pace>(
    outcomes: Vec<Outcome<S, D, P, Post<Watch<'a, Q>>>>,
    mut returned: Returned<D, P>,
) -> Returned<D, P>
    requires each { All (StandsOutcome P.plane) outcomes.items }
    requires none { (returned.rests.items ≡ []) × (returned.filmed.items ≡ []) }
    requires room { HoldsAll (vec_len outcomes) returned }
    ensures rests { result.rests.items ≡ map outcome_rest outcomes.entry.items }
    ensures filmed { map seen_filmed result.filmed.items ≡ map outcome_left outcomes.entry.items }
{
    for outcome in outcomes {
        let Outcome { shot: _, filmed } = outcome;
        returned = put_back(filmed, returned);
    }
    returned
}

// Adds cameras that weren't filmed to what came back, which is empty.
fn shots_back<'a, S: FrameSource + Drop, D: Disk + Drop, P: PlaneMemory, Q: Pace>(
    shots: Vec<Recorded<'a, S, D, P, Q>>,
    mut returned: Returned<D, P>,
) -> Returned<D, P>
    requires none { (returned.rests.items ≡ []) × (returned.filmed.items ≡ []) }
    requires room { HoldsAll (vec_len shots) returned }
    ensures count { (vec_len result.rests ≡ vec_len shots.entry) × (vec_len result.filmed ≡ vec_len shots.entry) }
    ensures rests { result.rests.items ≡ map shot_rest shots.entry.items }
    ensures filmed { map seen_filmed result.filmed.items ≡ map shot_left shots.entry.items }
{
    for shot in shots {
        let Shot { guide: _, camera } = shot;
        returned = put_back(Err(Unfilmed::NoMemory(camera)), returned);
    }
    returned
}

/// Films cameras, and adds what is left of them to what came back, which is empty.
pub(crate) fn film<
    R: Threads + Wait + Clock + Sync,
    S: FrameSource + Drop + Send,
    D: Disk + Drop + Send,
    P: PlaneMemory + Send,
    Q: Pace,
>(
    rt: &R,
    alloc: Global,
    shots: Vec<Recorded<'_, S, D, P, Q>>,
    returned: Returned<D, P>,
) -> Returned<D, P>
    requires none { (returned.rests.items ≡ []) × (returned.filmed.items ≡ []) }
    requires room { HoldsAll (vec_len shots) returned }
    ensures count { (vec_len result.rests ≡ vec_len shots.entry) × (vec_len result.filmed ≡ vec_len shots.entry) }
    ensures filmed { AreFilmed D.medium S.next_gives P.plane shots.entry.items result }
{
    match film_all(rt, alloc, shots) {
        Ok(outcomes) => outcomes_back(outcomes, returned),
        Err(shots) => shots_back(shots, returned),
    }
}
