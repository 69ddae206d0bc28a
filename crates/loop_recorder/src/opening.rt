//! A recorder whose locks are open: each camera is owned alone, and goes back under its locks later.

ghost use Rattle.std.specs.Prelude.{◌≡◌, ◌+◌, ◌≤◌, ◌<◌, ◌^◌, [], All, IfErr, IfOk, length, map, replicate, vec_len};
ghost use Rattle.std.specs.Vec.{vec_capacity};
ghost use Rattle.loop_recorder.specs.Endings.{IsFaithfulCamera};
ghost use Rattle.loop_recorder.specs.Ends.{IsEnd};
ghost use Rattle.loop_recorder.specs.Opened.{AreNumbered};
ghost use Rattle.loop_recorder.specs.Refused.{RefusesEnd};

use crate::opened::lock_cameras;
use crate::recorder::compared;
use crate::{EndRefused, Ended, EndedCamera, OpenCamera, Pass, QueueLock, Recorder, Session};
use loop_desk::Outline;
use loop_disk::Disk;
use loop_plane::PlaneMemory;
use std::alloc::{Allocator, Global};
use std::marker::Model;
use std::sync::Mutex;

/// What is left of a recorder whose locks are open. Contracts see what they see of the recorder.
#[derive(Drop)]
pub struct OpenRecorder<
    D: Disk + Drop,
    P: PlaneMemory = Box<dyn PlaneMemory + Send>,
    A: Allocator + Copy = Global,
> {
    // These two are empty: their memory is for the locks.
    sessions: Vec<Mutex<Session<D, A>>, A>,
    ports: Vec<QueueLock<P, A>, A>,
    outlines: Vec<Outline<A>, A>,
    passes: u32,
    ended: Vec<EndedCamera<D, A>, A>,
    given_up: Vec<u64, A>,
}

impl<D: Disk + Drop, P: PlaneMemory, A: Allocator + Copy> Model for OpenRecorder<D, P, A> {
    ghost use Rattle.std.specs.Prelude.{◌≡◌, ◌≤◌, ◌<◌, ◌^◌, [], replicate, vec_len};
    ghost use Rattle.std.specs.Vec.{vec_capacity};
    ghost use Rattle.loop_recorder.specs.Opened.{SeenRecorder};

    ghost Value = { SeenRecorder A };

    ghost view = { λ r. record { outlines = r.outlines.items; passes = r.passes } };

    ghost invariant = { λ r. ((vec_len r.sessions ≡ 0) × (vec_len r.outlines ≤ vec_capacity r.sessions))
        × (((vec_len r.ports ≡ 0) × (vec_len r.outlines ≤ vec_capacity r.ports))
        × ((r.ended.items ≡ []) × ((vec_len r.outlines ≤ vec_capacity r.ended)
        × ((vec_len r.outlines < 2 ^ 32) × (r.given_up.items ≡ replicate (vec_len r.outlines) 0))))) };
}

// Takes each session and each port out of its lock.
fn open_cameras<D: Disk + Drop, P: PlaneMemory, A: Allocator + Copy>(
    sessions: &mut Vec<Mutex<Session<D, A>>, A>,
    ports: &mut Vec<QueueLock<P, A>, A>,
    cameras: &mut Vec<OpenCamera<D, P, A>, A>,
)
    requires count { vec_len ports.old ≡ vec_len sessions.old }
    requires room { (vec_len cameras.old ≡ 0) × (vec_len sessions.old ≤ vec_capacity cameras.old) }
    ensures sessions { (vec_len sessions.new ≡ 0) × (vec_capacity sessions.new ≡ vec_capacity sessions.old) }
    ensures ports { (vec_len ports.new ≡ 0) × (vec_capacity ports.new ≡ vec_capacity ports.old) }
    ensures count { vec_len cameras.new ≡ vec_len sessions.old }
    ensures capacity { vec_capacity cameras.new ≡ vec_capacity cameras.old }
{
    let count = sessions.len();
    for _camera in 0..count {
        let session = sessions.remove(0).into_inner();
        let port = ports.remove(0).port.into_inner();
        cameras.push_reserved(OpenCamera { session, port });
    }
}

// Takes each session apart, and puts each port under a lock.
fn part_cameras<D: Disk + Drop, P: PlaneMemory, A: Allocator + Copy>(
    cameras: Vec<OpenCamera<D, P, A>, A>,
    mut ended: Vec<EndedCamera<D, A>, A>,
    mut ports: Vec<QueueLock<P, A>, A>,
) -> (Vec<EndedCamera<D, A>, A>, Vec<QueueLock<P, A>, A>)
    requires few { vec_len cameras < 2 ^ 32 }
    requires ended { (ended.items ≡ []) × (vec_len cameras ≤ vec_capacity ended) }
    requires ports { (vec_len ports ≡ 0) × (vec_len cameras ≤ vec_capacity ports) }
    ensures faithful { All (IsFaithfulCamera D.medium) result.0.items }
    ensures desks { map (λ c. c.desk) result.0.items ≡ map (λ c. c.session.desk) cameras.items }
    ensures count { vec_len result.0 ≡ vec_len cameras }
    ensures numbers { AreNumbered (vec_len cameras) result.1.items }
{
    let mut number = 0;
    for camera in cameras {
        let OpenCamera { session, port } = camera;
        ended.push_reserved(session.into_parts());
        ports.push_reserved(QueueLock {
            camera: number,
            port: Mutex::new(port),
        });
        number += 1;
    }
    (ended, ports)
}

impl<D: Disk + Drop, P: PlaneMemory, A: Allocator + Copy> Recorder<D, P, A> {
    /// Takes the cameras out of their locks, into an empty list with memory for them. It takes no memory.
    pub fn open_locks(
        self,
        mut cameras: Vec<OpenCamera<D, P, A>, A>,
    ) -> (OpenRecorder<D, P, A>, Vec<OpenCamera<D, P, A>, A>)
        requires { (cameras.items ≡ []) × (length self.outlines ≤ vec_capacity cameras) }
        ensures same { result.0 ≡ self }
        ensures count { vec_len result.1 ≡ length self.outlines }
        ensures capacity { vec_capacity result.1 ≡ vec_capacity cameras }
    {
        let Recorder {
            mut sessions,
            mut ports,
            outlines,
            passes,
            ended,
            given_up,
        } = self;
        open_cameras(&mut sessions, &mut ports, &mut cameras);
        let rest = OpenRecorder {
            sessions,
            ports,
            outlines,
            passes,
            ended,
            given_up,
        };
        (rest, cameras)
    }
}

impl<D: Disk + Drop, P: PlaneMemory, A: Allocator + Copy> OpenRecorder<D, P, A> {
    /// Puts the cameras under their locks again, in this order. It takes no memory.
    pub fn lock_again(self, cameras: Vec<OpenCamera<D, P, A>, A>) -> Recorder<D, P, A>
        requires { vec_len cameras ≡ length self.outlines }
        ensures { result ≡ self }
    {
        let OpenRecorder {
            sessions,
            ports,
            outlines,
            passes,
            ended,
            given_up,
        } = self;
        let (sessions, ports) = lock_cameras(cameras, sessions, ports);
        Recorder {
            sessions,
            ports,
            outlines,
            passes,
            ended,
            given_up,
        }
    }

    /// As `lock_again` and then `Recorder::end`. It takes no memory. The desks that come back are the sessions' own.
    pub fn end(
        self,
        cameras: Vec<OpenCamera<D, P, A>, A>,
        passes: Vec<Pass<A>, A>,
    ) -> Result<Ended<D, P, A>, EndRefused<D, P, A>>
        requires { vec_len cameras ≡ length self.outlines }
        ensures ended { IfOk result (IsEnd D.medium self.outlines) }
        ensures desks { IfOk result
            (λ e. map (λ c. c.desk) e.cameras.items ≡ map (λ c. c.session.desk) cameras.items) }
        ensures passes { IfOk result (λ e. e.passes ≡ passes) }
        ensures enough { IfOk result (λ _. self.passes ≤ vec_len passes) }
        ensures given_up { IfOk result (λ e. e.given_up.items ≡ replicate (length self.outlines) 0) }
        ensures refused { IfErr result (RefusesEnd D.medium self passes.items) }
    {
        if passes.len() < self.passes as usize {
            let given = passes.len() as u32;
            let made = self.passes;
            let recorder = self.lock_again(cameras);
            return Err(EndRefused::PassesMissing(given, made, recorder, passes));
        }
        let OpenRecorder {
            sessions: _,
            ports,
            outlines,
            passes: _,
            ended,
            given_up,
        } = self;
        let (cameras, ports) = part_cameras(cameras, ended, ports);
        match compared(cameras, ports, &outlines, passes, given_up) {
            Ok(ended) => Ok(ended),
            Err((camera, ended)) => Err(EndRefused::TieBroken(camera, ended)),
        }
    }
}
