//! Several cameras, each filmed by threads of its own. None ticks before all have begun.

ghost use Rattle.std.specs.Prelude.{◌≡◌, ◌+◌, ◌++◌, ◌≤◌, [], All, IfErr, IfOk, IfSome, false, length, map, vec_len};
ghost use Rattle.std.specs.Option.{option_to_list};
ghost use Rattle.std.specs.Vec.{vec_capacity};
ghost use Rattle.loop_pipeline.specs.Several.{IsFilmed, IsOutcome, IsRunning, shot_in, shot_of};

use crate::start_barrier::StartBarrier;
use crate::{Camera, CameraEnd, Guide, Link, Unfilmed, film_camera};
use loop_capture::FrameSource;
use loop_disk::Disk;
use loop_plane::PlaneMemory;
use std::alloc::{AllocError, Global};
use std::snapshot::Snapshot;
use std::sync::{Arc, Wait};
use std::thread;
use std::thread::{Promise, PromisedHandle, Scope, Threads};
use std::time::Clock;

/// What filming a camera answers, as `film_camera`.
pub type Filmed<S, D, P, G> = Result<CameraEnd<S, D, P, G>, Unfilmed<S, D, P, G>>;

/// A camera and its guide.
#[derive(Drop)]
pub struct Shot<S: FrameSource + Drop, D: Disk + Drop, P: PlaneMemory, G: Guide + Drop> {
    /// Its guide.
    pub guide: G,
    /// The camera.
    pub camera: Camera<S, D, P, G>,
}

/// What came of one of several cameras.
#[derive(Drop)]
pub struct Outcome<S: FrameSource + Drop, D: Disk + Drop, P: PlaneMemory, G: Guide + Drop> {
    /// What was filmed, as it was before.
    pub shot: Snapshot<Shot<S, D, P, G>>,
    /// What filming it answered.
    pub filmed: Filmed<S, D, P, G>,
}

// A camera's thread returns what filming it answered.
#[derive(Drop)]
struct Given<S: FrameSource + Drop, D: Disk + Drop, P: PlaneMemory, G: Guide + Drop>(
    Snapshot<Shot<S, D, P, G>>,
);

impl<S: FrameSource + Drop, D: Disk + Drop, P: PlaneMemory, G: Guide + Drop> Promise<
    Filmed<S, D, P, G>,
> for Given<S, D, P, G> {
    ghost use Rattle.std.specs.Prelude.{◌≡◌, false};
    ghost use Rattle.loop_pipeline.specs.Several.{IsFilmed};

    ghost kept_by = { λ given filmed. IsFilmed D.medium S.next_gives P.plane G.asks G.gives_up (G.NOTED ≡ false)
        (G.due given.0.value.guide) (G.ends given.0.value.guide) given.0.value.camera filmed };
}

// A link of a camera that waits at this barrier before its first tick.
fn link_beside(alloc: Global, barrier: &Arc<StartBarrier>) -> Result<Link, AllocError> {
    Link::beside(alloc, Some(Arc::try_clone(barrier)?))
}

// Films a camera in a scope of its own.
fn film_alone<
    R: Threads + Wait + Clock + Sync,
    S: FrameSource + Drop + Send,
    D: Disk + Drop,
    P: PlaneMemory + Send,
    G: Guide + Sync,
>(rt: &R, alloc: Global, link: &Link, guide: &G, camera: Camera<S, D, P, G>) -> Filmed<S, D, P, G>
    ensures { IsFilmed D.medium S.next_gives P.plane G.asks G.gives_up (G.NOTED ≡ false)
        (G.due guide.now) (G.ends guide.now) camera result }
{
    let (rt, link, guide) = (&*rt, &*link, &*guide);
    thread::scope(
        thread::scope_env(),
        rt,
        move |scope| -> Filmed<S, D, P, G>
            ensures { IsFilmed D.medium S.next_gives P.plane G.asks G.gives_up (G.NOTED ≡ false)
                (G.due guide.entry.now) (G.ends guide.entry.now) camera result }
        { film_camera(rt, alloc, scope, link, guide, camera) },
    )
}

// The whole work of a camera's thread: it makes a link whose front waits at this barrier before its first tick.
fn film_one<
    R: Threads + Wait + Clock + Sync,
    S: FrameSource + Drop + Send,
    D: Disk + Drop,
    P: PlaneMemory + Send,
    G: Guide + Drop + Sync,
>(rt: &R, alloc: Global, barrier: &Arc<StartBarrier>, shot: Shot<S, D, P, G>) -> Filmed<S, D, P, G>
    ensures { IsFilmed D.medium S.next_gives P.plane G.asks G.gives_up (G.NOTED ≡ false)
        (G.due shot.guide) (G.ends shot.guide) shot.camera result }
{
    let Shot { guide, camera } = shot;
    match link_beside(alloc, barrier) {
        Ok(link) => film_alone(rt, alloc, &link, &guide, camera),
        Err(_) => {
            barrier.stop(rt);
            Err(Unfilmed::NoMemory(camera))
        }
    }
}

// A camera's thread, and the camera as it was given to it.
#[derive(Drop)]
struct Running<S: FrameSource + Drop, D: Disk + Drop, P: PlaneMemory, G: Guide + Drop> {
    shot: Snapshot<Shot<S, D, P, G>>,
    handle: PromisedHandle<Filmed<S, D, P, G>, Given<S, D, P, G>>,
}

// Starts a camera's thread. If it can't be started, no camera is filmed.
fn start_one<
    's,
    E,
    R: Threads + Wait + Clock + Sync,
    S: FrameSource + Drop + Send + 's,
    D: Disk + Drop + Send + 's,
    P: PlaneMemory + Send + 's,
    G: Guide + Drop + Send + Sync + 's,
>(
    rt: &'s R,
    alloc: Global,
    scope: &Scope<'s, E>,
    barrier: &'s Arc<StartBarrier>,
    shot: Shot<S, D, P, G>,
) -> Result<Running<S, D, P, G>, Outcome<S, D, P, G>>
    ensures started { IfOk result (λ running. IsRunning running × (running.shot.value ≡ shot)) }
    ensures refused { IfErr result (λ outcome. (outcome.shot.value ≡ shot)
        × IsOutcome D.medium S.next_gives P.plane G.asks G.gives_up (G.NOTED ≡ false) G.due G.ends outcome) }
{
    let given = Snapshot::of(&shot);
    let kept = Snapshot::of(&shot);
    let work = move || -> Filmed<S, D, P, G>
        ensures { IsFilmed D.medium S.next_gives P.plane G.asks G.gives_up (G.NOTED ≡ false)
            (G.due shot.guide) (G.ends shot.guide) shot.camera result }
    { film_one(rt, alloc, barrier, shot) };
    match scope.spawn_with(Given(given), work) {
        Ok(handle) => Ok(Running { shot: kept, handle }),
        Err(refused) => {
            barrier.stop(rt);
            Err(Outcome {
                shot: kept,
                filmed: (refused.value)(),
            })
        }
    }
}

// Starts a thread for each camera. Returns what came of the first whose thread can't be started, and those after it.
fn start_all<
    's,
    E,
    R: Threads + Wait + Clock + Sync,
    S: FrameSource + Drop + Send + 's,
    D: Disk + Drop + Send + 's,
    P: PlaneMemory + Send + 's,
    G: Guide + Drop + Send + Sync + 's,
>(
    rt: &'s R,
    alloc: Global,
    scope: &Scope<'s, E>,
    barrier: &'s Arc<StartBarrier>,
    mut shots: Vec<Shot<S, D, P, G>>,
    threads: &mut Vec<Running<S, D, P, G>>,
) -> (Option<Outcome<S, D, P, G>>, Vec<Shot<S, D, P, G>>)
    requires { (threads.old.items ≡ []) × (vec_len shots ≤ vec_capacity threads.old) }
    ensures count { vec_len threads.new + length (option_to_list result.0) + vec_len result.1 ≡ vec_len shots }
    ensures shots { map shot_in threads.new.items
        ++ map shot_of (option_to_list result.0) ++ result.1.items ≡ shots.items }
    ensures threads { All IsRunning threads.new.items }
    ensures came { IfSome result.0
        (IsOutcome D.medium S.next_gives P.plane G.asks G.gives_up (G.NOTED ≡ false) G.due G.ends) }
{
    'starting: while !shots.is_empty() {
        match start_one(rt, alloc, scope, barrier, shots.remove(0)) {
            Ok(running) => threads.push_reserved(running),
            Err(outcome) => return (Some(outcome), shots),
        }
    }
    (None, shots)
}

// Joins the cameras' threads, and collects what came of each in `outcomes`, which is empty.
fn join_all<R: Threads, S: FrameSource + Drop, D: Disk + Drop, P: PlaneMemory, G: Guide + Drop>(
    rt: &R,
    threads: Vec<Running<S, D, P, G>>,
    mut outcomes: Vec<Outcome<S, D, P, G>>,
) -> Vec<Outcome<S, D, P, G>>
    requires room { (outcomes.items ≡ []) × (vec_len threads ≤ vec_capacity outcomes) }
    requires threads { All IsRunning threads.items }
    ensures shots { map shot_of result.items ≡ map shot_in threads.items }
    ensures each { All (IsOutcome D.medium S.next_gives P.plane G.asks G.gives_up (G.NOTED ≡ false) G.due G.ends)
        result.items }
    ensures count { vec_len result ≡ vec_len threads }
    ensures capacity { vec_capacity result ≡ vec_capacity outcomes }
{
    for running in threads {
        let Running { shot, handle } = running;
        let filmed = handle.join(rt);
        outcomes.push_reserved(Outcome { shot, filmed });
    }
    outcomes
}

// Appends what came of a camera, if there is one.
fn with_one<S: FrameSource + Drop, D: Disk + Drop, P: PlaneMemory, G: Guide + Drop>(
    mut outcomes: Vec<Outcome<S, D, P, G>>,
    one: Option<Outcome<S, D, P, G>>,
) -> Vec<Outcome<S, D, P, G>>
    requires each { All (IsOutcome D.medium S.next_gives P.plane G.asks G.gives_up (G.NOTED ≡ false) G.due G.ends)
        outcomes.items }
    requires came { IfSome one
        (IsOutcome D.medium S.next_gives P.plane G.asks G.gives_up (G.NOTED ≡ false) G.due G.ends) }
    requires room { vec_len outcomes + length (option_to_list one) ≤ vec_capacity outcomes }
    ensures shots { map shot_of result.items
        ≡ map shot_of outcomes.items ++ map shot_of (option_to_list one) }
    ensures each { All (IsOutcome D.medium S.next_gives P.plane G.asks G.gives_up (G.NOTED ≡ false) G.due G.ends)
        result.items }
    ensures count { vec_len result ≡ vec_len outcomes + length (option_to_list one) }
    ensures capacity { vec_capacity result ≡ vec_capacity outcomes }
{
    match one {
        None => outcomes,
        Some(outcome) => {
            outcomes.push_reserved(outcome);
            outcomes
        }
    }
}

// Appends cameras for which no thread was started: they come back.
fn with_rest<S: FrameSource + Drop, D: Disk + Drop, P: PlaneMemory, G: Guide + Drop>(
    mut outcomes: Vec<Outcome<S, D, P, G>>,
    rest: Vec<Shot<S, D, P, G>>,
) -> Vec<Outcome<S, D, P, G>>
    requires each { All (IsOutcome D.medium S.next_gives P.plane G.asks G.gives_up (G.NOTED ≡ false) G.due G.ends)
        outcomes.items }
    requires room { vec_len outcomes + vec_len rest ≤ vec_capacity outcomes }
    ensures shots { map shot_of result.items ≡ map shot_of outcomes.items ++ rest.items }
    ensures each { All (IsOutcome D.medium S.next_gives P.plane G.asks G.gives_up (G.NOTED ≡ false) G.due G.ends)
        result.items }
{
    for shot in rest {
        let given = Snapshot::of(&shot);
        let Shot { guide: _, camera } = shot;
        outcomes.push_reserved(Outcome {
            shot: given,
            filmed: Err(Unfilmed::NoMemory(camera)),
        });
    }
    outcomes
}

// The memory for cameras that are filmed: for their threads, and for what comes of each.
#[derive(Drop)]
struct Rooms<S: FrameSource + Drop, D: Disk + Drop, P: PlaneMemory, G: Guide + Drop> {
    threads: Vec<Running<S, D, P, G>>,
    outcomes: Vec<Outcome<S, D, P, G>>,
}

// Films the cameras in a scope, in memory that is still empty.
fn film_in<
    's,
    E,
    R: Threads + Wait + Clock + Sync,
    S: FrameSource + Drop + Send + 's,
    D: Disk + Drop + Send + 's,
    P: PlaneMemory + Send + 's,
    G: Guide + Drop + Send + Sync + 's,
>(
    rt: &'s R,
    alloc: Global,
    scope: &Scope<'s, E>,
    barrier: &'s Arc<StartBarrier>,
    shots: Vec<Shot<S, D, P, G>>,
    rooms: Rooms<S, D, P, G>,
) -> Vec<Outcome<S, D, P, G>>
    requires threads { (rooms.threads.items ≡ []) × (vec_len shots ≤ vec_capacity rooms.threads) }
    requires outcomes { (rooms.outcomes.items ≡ []) × (vec_len shots ≤ vec_capacity rooms.outcomes) }
    ensures shots { map shot_of result.items ≡ shots.items }
    ensures each { All (IsOutcome D.medium S.next_gives P.plane G.asks G.gives_up (G.NOTED ≡ false) G.due G.ends)
        result.items }
{
    let Rooms {
        mut threads,
        outcomes,
    } = rooms;
    let (one, rest) = start_all(rt, alloc, scope, barrier, shots, &mut threads);
    let outcomes = join_all(rt, threads, outcomes);
    with_rest(with_one(outcomes, one), rest)
}

/// Films several cameras, each by its guide, as `film_camera`. No camera ticks before the front of each has a thread.
/// Returns what came of each, in their order; or the cameras, if there was no memory for that.
pub fn film_all<
    R: Threads + Wait + Clock + Sync,
    S: FrameSource + Drop + Send,
    D: Disk + Drop + Send,
    P: PlaneMemory + Send,
    G: Guide + Drop + Send + Sync,
>(
    rt: &R,
    alloc: Global,
    shots: Vec<Shot<S, D, P, G>>,
) -> Result<Vec<Outcome<S, D, P, G>>, Vec<Shot<S, D, P, G>>>
    ensures shots { IfOk result (λ outcomes. map shot_of outcomes.items ≡ shots.items) }
    ensures each { IfOk result (λ outcomes.
        All (IsOutcome D.medium S.next_gives P.plane G.asks G.gives_up (G.NOTED ≡ false) G.due G.ends) outcomes.items) }
    ensures refused { IfErr result (λ back. back ≡ shots) }
{
    let count = shots.len();
    let Ok(threads) = Vec::with_capacity(alloc, count) else {
        return Err(shots);
    };
    let Ok(outcomes) = Vec::with_capacity(alloc, count) else {
        return Err(shots);
    };
    let Ok(barrier) = Arc::new(alloc, StartBarrier::new(count.saturating_mul(2))) else {
        return Err(shots);
    };
    let (rt, barrier) = (&*rt, &barrier);
    let rooms = Rooms { threads, outcomes };
    let outcomes = thread::scope(
        thread::scope_env(),
        rt,
        move |scope| -> Vec<Outcome<S, D, P, G>>
            requires { ((rooms.threads.items ≡ []) × (vec_len shots ≤ vec_capacity rooms.threads))
                × ((rooms.outcomes.items ≡ []) × (vec_len shots ≤ vec_capacity rooms.outcomes)) }
            ensures { (map shot_of result.items ≡ shots.items)
                × All (IsOutcome D.medium S.next_gives P.plane G.asks G.gives_up (G.NOTED ≡ false) G.due G.ends)
                result.items }
        { film_in(rt, alloc, scope, barrier, shots, rooms) },
    );
    Ok(outcomes)
}
