//! Filming of cameras that are out of their locks.

ghost use Rattle.std.specs.Prelude.{◌≡◌, ◌<◌, ◌≤◌, ◌^◌, [], All, IfErr, IfOk, length, map, vec_len};
ghost use Rattle.std.specs.Vec.{vec_capacity};
ghost use Rattle.loop_recorder.specs.Recordings.{EachKept, IsGuided, had_by, had_in, lender_of, without_source};

use crate::post::{Post, Watch};
use crate::returns::film;
use crate::room::{FilmedCamera, Recorded, Returned, returned_for};
use crate::{OpenCamera, Pace, Pass};
use loop_capture::{Device, FrameSource, Loan, Rest};
use loop_disk::Disk;
use loop_pipeline::{Camera, Shot};
use loop_plane::PlaneMemory;
use std::alloc::Global;
use std::sync::Wait;
use std::sync::atomic::AtomicU64;
use std::thread::Threads;
use std::time::Clock;

// The camera of this number with its guide, by which its device makes so many ticks. Its calls are noted in this pass.
fn shot_of<'a, S: FrameSource + Drop, D: Disk + Drop, P: PlaneMemory, Q: Pace>(
    pace: &'a Q,
    frames: u32,
    number: u32,
    camera: OpenCamera<D, P>,
    device: Device<S>,
    pass: Pass,
) -> Recorded<'a, S, D, P, Q>
    ensures device { result.camera.device ≡ device }
    ensures held { had_by result ≡ had_in camera }
    ensures guided { IsGuided frames result }
{
    let OpenCamera { session, port } = camera;
    let (queue, table) = port.into_parts();
    let seat = session.into_seat(number, pass);
    let guide = Post {
        pace: Watch(pace),
        camera: number,
        frames,
        geometry: seat.desk().geometry(),
        unread: AtomicU64::new(0),
    };
    let camera = Camera::seated(device, queue, table, seat);
    Shot { guide, camera }
}

// Makes a shot of each camera and its device, which is lent.
fn shots_of<'d, 'a, S: FrameSource + Drop, D: Disk + Drop, P: PlaneMemory, Q: Pace>(
    pace: &'a Q,
    frames: u32,
    cameras: Vec<OpenCamera<D, P>>,
    passes: Vec<Pass>,
    devices: &'d mut [Device<S>],
    mut shots: Vec<Recorded<'a, Loan<'d, S>, D, P, Q>>,
) -> Vec<Recorded<'a, Loan<'d, S>, D, P, Q>>
    requires few { length devices.old < 2 ^ 31 }
    requires cameras { vec_len cameras ≡ length devices.old }
    requires passes { vec_len passes ≡ length devices.old }
    requires room { (shots.items ≡ []) × (length devices.old ≤ vec_capacity shots) }
    ensures count { vec_len result ≡ length devices.old }
    ensures devices { map (lender_of (λ loan. loan.source.now)) result.items ≡ devices.old }
    ensures held { map had_by result.items ≡ map had_in cameras.items }
    ensures guided { All (IsGuided frames) result.items }
{
    let mut cameras = cameras.into_iter();
    let mut passes = passes.into_iter();
    let mut number = 0u32;
    for device in devices {
        let Some(camera) = cameras.next() else {
            unreachable!()
        };
        let Some(pass) = passes.next() else {
            unreachable!()
        };
        shots.push_reserved(shot_of(pace, frames, number, camera, device.lend(), pass));
        number += 1;
    }
    shots
}

// Each device resumes with what the device left to which its source was lent.
fn resume_all<S: FrameSource>(devices: &mut [Device<S>], rests: Vec<Rest>)
    requires { vec_len rests ≡ length devices.old }
    ensures { map without_source devices.new ≡ rests.items }
{
    let mut rests = rests.into_iter();
    for at in 0..devices.len() {
        let Some(rest) = rests.next() else {
            unreachable!()
        };
        devices[at].resume(rest);
    }
}

/// Cameras that are out of their locks, with a pass for the calls of each.
#[derive(Drop)]
pub struct NotedCameras<D: Disk + Drop, P: PlaneMemory> {
    /// The cameras.
    pub cameras: Vec<OpenCamera<D, P>>,
    /// Their passes, in the same order.
    pub passes: Vec<Pass>,
}

/// Films cameras that are out of their locks, each with the device at its place, whose source is lent. Their calls are
/// noted in the sessions' histories and in their passes. Returns what is left of each, in their order; or the cameras
/// and the passes, if memory is refused before anything is lent. Where no count of lost frames comes with a camera, it
/// wasn't filmed: its device and its queue are as they were, and what waited is kept.
///
/// A camera is filmed by two threads: one ticks and takes its frames out of the queue, one brings them to the desk,
/// flushes, and reads the newest frame that a flush stored. Each device makes `frames` ticks, or as many as its source
/// has frames. A camera whose calls can't be noted any more is filmed to its end, and brings no frame to its desk. No
/// device ticks and no desk is asked before all threads are started.
pub fn film_open<
    R: Threads + Wait + Clock + Sync,
    S: FrameSource + Drop + Send,
    D: Disk + Drop + Send,
    P: PlaneMemory + Send,
    Q: Pace,
>(
    rt: &R,
    alloc: Global,
    noted: NotedCameras<D, P>,
    devices: &mut [Device<S>],
    frames: u32,
    pace: &Q,
) -> Result<Vec<FilmedCamera<D, P>>, NotedCameras<D, P>>
    requires few { length devices.old < 2 ^ 31 }
    requires cameras { vec_len noted.cameras ≡ length devices.old }
    requires passes { vec_len noted.passes ≡ length devices.old }
    ensures count { IfOk result (λ filmed. vec_len filmed ≡ vec_len noted.cameras) }
    ensures keeps { IfOk result (λ filmed. EachKept D.medium S.next_gives P.plane frames
        devices.old devices.new noted.cameras.items filmed.items) }
    ensures refused { IfErr result (λ back. back ≡ noted) }
    ensures unlent { IfErr result (λ _. devices.new ≡ devices.old) }
{
    let count = devices.len();
    let Some(returned) = returned_for(alloc, count) else {
        return Err(noted);
    };
    let Ok(shots) = Vec::with_capacity(alloc, count) else {
        return Err(noted);
    };
    let NotedCameras { cameras, passes } = noted;
    let shots = shots_of(pace, frames, cameras, passes, devices, shots);
    let Returned { rests, filmed } = film(rt, alloc, shots, returned);
    resume_all(devices, rests);
    Ok(filmed)
}
