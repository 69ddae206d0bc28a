//! From a filmed camera to a text.

ghost use Rattle.loop_store.specs.Calls.{StoreState};
ghost use Rattle.loop_store.specs.Goes.{Stands};
ghost use Rattle.loop_pipeline.specs.Fronts.{IsRegular};
ghost use Rattle.loop_lane.specs.Filmed.{AnswersFilmed};

use crate::TextFault;
use loop_capture::FrameSource;
use loop_disk::Disk;
use loop_pipeline::{Guide, GuidedCamera, film_camera};
use loop_plane::PlaneMemory;
use loop_store::{OpenRefused, Store, StoreFault};
use loop_y4m::export;
use std::alloc::Global;
use std::io::Write;
use std::sync::Wait;
use std::thread::{Scope, Threads};
use std::time::Clock;

/// How many frames of a filming were lost, and where.
#[derive(Clone, Copy, Debug, PartialEq, Eq)]
pub struct LostFrames {
    /// The desk refused them, or they were given up before they came to it.
    pub given_up: u64,
    /// They were still in the ring at the end.
    pub left: u64,
    /// No buffer was active at their ticks.
    pub missed: u64,
    /// The source couldn't get them.
    pub failed: u64,
}

/// Which frames of a store are written.
#[derive(Clone, Copy, Debug, PartialEq, Eq)]
pub struct Numbers {
    /// The first number.
    pub from: u64,
    /// The last number.
    pub to: u64,
}

/// Films a camera until its guide or its source ends it, opens the store on its disk again, and writes the held frames
/// of these numbers. At Ok the text is that of the plain recorder's frames, after steps that store
/// what waited at the desk and what it accepted, in order; what still waits at the end isn't in it.
///
/// `Run`: `NoMemory` where memory or a thread was refused; `MustReopen` where the camera was filmed, and a call of its
/// disk that writes had failed. `Open`: `NoMemory`, or `Disk` where a call of the disk failed. `Export`: as `export`
/// refused.
pub fn film_and_export<
    's,
    E,
    R: Threads + Wait + Clock + Sync,
    S: FrameSource + Drop + Send + 's,
    D: Disk + Drop,
    P: PlaneMemory + Send + 's,
    G: Guide + Sync,
    W: Write,
>(
    rt: &'s R,
    alloc: Global,
    scope: &Scope<'s, E>,
    guided: GuidedCamera<'s, S, D, P, G>,
    numbers: Numbers,
    out: &mut W,
) -> Result<LostFrames, TextFault>
    ensures { (s : StoreState) → Stands D.medium guided.entry.camera.desk.store s
        → (D.medium guided.entry.camera.desk.store.disk).honest → IsRegular P.plane guided.entry.camera.queue
        → AnswersFilmed D.medium S.next_gives P.plane G.asks G.gives_up (G.due guided.entry.guide.now)
        (G.ends guided.entry.guide.now) guided.entry.camera numbers.from numbers.to
        (W.contents out.old) (W.contents out.new) s result }
{
    let GuidedCamera {
        link,
        guide,
        camera,
    } = guided;
    let ended = match film_camera(rt, alloc, scope, link, guide, camera) {
        Ok(ended) => ended,
        Err(_) => return Err(TextFault::Run(StoreFault::NoMemory)),
    };
    if ended.desk.status().must_reopen {
        return Err(TextFault::Run(StoreFault::MustReopen));
    }
    let lost = LostFrames {
        given_up: ended.given_up,
        left: ended.left,
        missed: ended.missed,
        failed: ended.failed,
    };
    let mut store = match Store::open(alloc, ended.desk.into_disk()) {
        Ok(store) => store,
        Err(OpenRefused { fault, disk: _ }) => return Err(TextFault::Open(fault)),
    };
    match export(alloc, &mut store, numbers.from, numbers.to, out) {
        Ok(_) => Ok(lost),
        Err(fault) => Err(TextFault::Export(fault)),
    }
}
