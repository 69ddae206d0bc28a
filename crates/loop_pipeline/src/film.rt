//! What the two threads of a camera do: one has its front, the other its back. docs/threads.md says why it is so.

ghost use Rattle.std.specs.Prelude.{◌≡◌, ◌∷◌, [], IfErr, IfOk, List, None, false, length, true};
ghost use Rattle.loop_desk.specs.Seen.{SeenDesk};
ghost use Rattle.loop_pipeline.specs.Backs.{IsSettledBack, Joins};
ghost use Rattle.loop_pipeline.specs.Cameras.{AreLeft, CameraKeeps, EndsSettled, IsSettledDesk, KeepsJoined};
ghost use Rattle.loop_pipeline.specs.Returns.{IsReturned, GivesJoined};
ghost use Rattle.rtrb.specs.Ring.{IsPair, sent};
ghost use Rattle.loop_pipeline.specs.Fronts.{HandIsSpent, IsRegular, Leaves, LeavesCarried, StaysOpen, made_of, StandsPort};

use crate::bell::Bell;
use crate::guided::visit;
use crate::start_barrier::StartBarrier;
use crate::{
    Arrival, Back, Begun, Brought, Camera, CameraEnd, Door, Front, FrontParts, Guide, TakeOutcome,
    Visits, end,
};
use loop_capture::{Device, FrameSource};
use loop_desk::Hand;
use loop_disk::Disk;
use loop_plane::{FdTable, PlaneMemory};
use loop_record::Frame;
use loop_vb2::Queue;
use rtrb::{Producer, RingBuffer};
use std::alloc::{AllocError, Global};
use std::sync::atomic::{AtomicBool, Ordering};
use std::sync::{Arc, Mutex, Wait};
use std::thread::{Promise, Scope, Threads};
use std::time::{Clock, Duration};

// The memory of how many stored frames is kept for the front at most: as many as a flush may store at once.
const SPARES: usize = 64;

// How many desks a camera has at most, where some may join it.
const DESKS: usize = 256;

// How many milliseconds a desk's thread sleeps at most, unless it is woken, before it serves what others ask of it.
const LOOK_AGAIN: u64 = 250;

// How many milliseconds after a refused flush the next one is tried at the latest; earlier if the thread is woken.
const FLUSH_AGAIN: u64 = 100;

/// What the two threads of a camera share, and how others wake them. It can be used for one filming after another.
#[derive(Drop)]
pub struct Link {
    /// Rings after each frame that was pushed into the ring or given up before it, when the front's thread has ended,
    /// and when others ask something.
    given: Bell,
    /// Rings after frames were taken out of the ring.
    room: Bell,
    /// The front's thread has ended.
    over: AtomicBool,
    /// The front's thread couldn't be started: the front doesn't tick.
    closed: AtomicBool,
    /// The desk's thread takes no frame any more: a call couldn't be noted.
    stopped: AtomicBool,
    /// Memory of frames that were stored, for later ones.
    memory: Mutex<Vec<Vec<u8>>>,
    /// Where the front's thread waits before its first tick, if other cameras are filmed beside this one.
    others: Option<Arc<StartBarrier>>,
}

impl Link {
    /// A link whose threads haven't begun.
    pub fn new(alloc: Global) -> Result<Link, AllocError> {
        Link::beside(alloc, None)
    }

    // A link whose threads haven't begun, of a camera that is filmed beside others, if there is a barrier.
    pub(crate) fn beside(
        alloc: Global,
        others: Option<Arc<StartBarrier>>,
    ) -> Result<Link, AllocError> {
        Ok(Link {
            given: Bell::new(),
            room: Bell::new(),
            over: AtomicBool::new(false),
            closed: AtomicBool::new(false),
            stopped: AtomicBool::new(false),
            memory: Mutex::new(Vec::with_capacity(alloc, SPARES)?),
            others,
        })
    }

    /// Wakes the desk's thread, so that it serves what others ask of it.
    pub fn wake<R: Wait>(&self, rt: &R) {
        self.given.ring(rt);
    }

    // Resets it for another filming.
    fn begin(&self) {
        self.over.store(false, Ordering::SeqCst);
        self.closed.store(false, Ordering::SeqCst);
        self.stopped.store(false, Ordering::SeqCst);
    }

    // Memory of a stored frame, if there is some.
    fn take_memory<R: Wait>(&self, rt: &R) -> Option<Vec<u8>> {
        self.memory.lock(rt).pop()
    }

    // Keeps memory for a later frame, if there is a place for it.
    fn return_memory<R: Wait>(&self, rt: &R, bytes: Vec<u8>) {
        let mut memory = self.memory.lock(rt);
        if memory.len() < memory.capacity() {
            memory.push_reserved(bytes);
        }
    }

    // Keeps the front from ticking, and those of the cameras beside it: its camera can't be filmed.
    fn close<R: Wait>(&self, rt: &R) {
        self.closed.store(true, Ordering::SeqCst);
        if let Some(barrier) = &self.others {
            barrier.stop(rt);
        }
    }

    // No frame is taken out of the ring any more: the front doesn't wait for room.
    fn stop<R: Wait>(&self, rt: &R) {
        self.stopped.store(true, Ordering::SeqCst);
        self.room.ring(rt);
    }

    // Waits until front and back of each camera beside this one have a thread. Returns whether they may begin: each has
    // one.
    fn wait_for_others<R: Wait>(&self, rt: &R) -> bool {
        let together = match &self.others {
            Some(barrier) => barrier.wait(rt),
            None => true,
        };
        together && !self.closed.load(Ordering::SeqCst)
    }

    // The front's thread has ended.
    fn end<R: Wait>(&self, rt: &R) {
        self.over.store(true, Ordering::SeqCst);
        self.given.ring(rt);
    }
}

// Moves the frames that wait in the queue into the ring, and waits for room there as long as any is made. Where none
// waits, it takes no memory and no lock.
fn take_all<R: Wait, S: FrameSource + Drop, P: PlaneMemory, G: Guide>(
    rt: &R,
    alloc: Global,
    link: &Link,
    guide: &G,
    front: &mut Front<S, P, G>,
)
    ensures { front.new ≡ front.old }
{
    let mut spare = None;
    'frames: for _ in rt.forever() {
        // An empty hand has nothing to put back. A buffer that can't be queued again stays in the hand: then `take`
        // refuses, and the loop ends.
        let _refused = front.put_back();
        if !front.has_done() {
            break;
        }
        if spare.is_none() {
            spare = link.take_memory(rt);
        }
        let seen = link.room.count(rt);
        match front.take(alloc, &mut spare) {
            TakeOutcome::Frame => {
                guide.dequeued(rt);
                link.given.ring(rt);
            }
            TakeOutcome::NoFrame => {
                guide.dequeued(rt);
                guide.lacked(rt);
                link.given.ring(rt);
            }
            TakeOutcome::RingFull if link.stopped.load(Ordering::SeqCst) => break,
            TakeOutcome::RingFull => link.room.wait(rt, seen),
            TakeOutcome::Refused(_) => break,
        }
    }
    if let Some(bytes) = spare {
        link.return_memory(rt, bytes);
    }
}

// Ticks when its guide says so, until the guide or the source ends it.
fn run_front<R: Wait + Clock, S: FrameSource + Drop, P: PlaneMemory, G: Guide>(
    rt: &R,
    alloc: Global,
    link: &Link,
    guide: &G,
    mut front: Front<S, P, G>,
) -> FrontParts<S, P>
    requires { guide.now ≡ front.guide }
    ensures leaves { Leaves S.next_gives P.plane (G.due front.guide) (G.ends front.guide) front result }
    ensures over { result.over ≡ true }
{
    'ticks: for _ in rt.forever() {
        if let Some(tick) = front.tick(rt, guide) {
            take_all(rt, alloc, link, guide, &mut front);
            tick.tell(rt, guide);
        }
        front = match front.into_ended() {
            Ok(parts) => return parts,
            Err(again) => again,
        };
    }
    unreachable!()
}

// Which frames are brought: the active desk is alone, as no other joins; they are brought where all is locked.
#[derive(Clone, Copy)]
struct Bounds {
    alone: bool,
    anyway: bool,
}

// Brings the frames in the ring to the desks that take them, within these bounds; returns whether one came out of it.
// If the active desk has no room and no flush is tried any more, frames are given up.
fn bring_all<R: Wait, D: Disk + Drop, G: Guide>(
    rt: &R,
    link: &Link,
    guide: &G,
    back: &mut Back<D, G>,
    bounds: Bounds,
) -> bool
    ensures { back.new ≡ record back.old {
      desks = back.new.desks;
      active = back.new.active;
      end = back.new.end;
    } }
{
    let mut some = false;
    let most = back.desks().group();
    'frames: for _ in 0..most {
        match back.bring(bounds.alone, bounds.anyway) {
            Brought::Submitted(number) => number.tell_brought(rt, guide, back),
            Brought::GivenUp(_, frame) => frame.tell_given_up(rt, guide, back),
            Brought::NoRoom => match back.give_up() {
                Some(frame) => frame.tell_given_up(rt, guide, back),
                None => break,
            },
            Brought::Nothing => break,
        }
        some = true;
    }
    if some {
        link.room.ring(rt);
    }
    some
}

// Gives the memory of stored frames back to the front.
fn give_memory<R: Wait, D: Disk + Drop, K: Visits>(rt: &R, link: &Link, back: &mut Back<D, K>)
    ensures { back.new ≡ back.old }
{
    let most = back.desks().group();
    'rows: for _ in 0..most {
        let Some(bytes) = back.spare_memory() else {
            break;
        };
        link.return_memory(rt, bytes);
    }
}

// Lets in the desks that wait at the door, while there is memory for them; none where calls are noted.
fn join_all<R: Wait, D: Disk + Drop, K: Visits>(rt: &R, door: &Door<D>, back: &mut Back<D, K>)
    ensures { Joins (door.now ≡ false) back.old back.new }
{
    if K::NOTED {
        return;
    }
    'desks: for _ in 0..DESKS {
        if door.let_in(rt, back) != Arrival::Joined {
            break;
        }
    }
}

// Turns to the desk that takes the next block, unless the camera's one desk is alone. Where all is locked, it tells the
// guide, which says whether frames are brought even so. Returns which are.
fn turn_for<R: Wait, D: Disk + Drop, G: Guide>(
    rt: &R,
    guide: &G,
    alone: bool,
    back: &mut Back<D, G>,
) -> Bounds
    ensures { back.new ≡ record back.old { active = back.new.active } }
{
    if alone && back.desks().count() < 2 {
        return Bounds {
            alone,
            anyway: false,
        };
    }
    Bounds {
        alone,
        anyway: back.turn() && !guide.all_locked(rt, back),
    }
}

// Takes desks, turns to the one that takes the next block, brings frames, serves what others ask, and gives memory
// back; returns whether a frame came out of the ring.
fn serve<R: Wait + Clock, D: Disk + Drop, G: Guide>(
    rt: &R,
    alloc: Global,
    link: &Link,
    guide: &G,
    door: &Door<D>,
    back: &mut Back<D, G>,
) -> bool
    ensures { Joins (door.now ≡ false) back.old back.new }
{
    join_all(rt, door, back);
    let bounds = turn_for(rt, guide, !door.is_open(), back);
    let some = bring_all(rt, link, guide, back, bounds);
    if G::VISITED {
        visit(rt, alloc, guide, back);
    }
    give_memory(rt, link, back);
    some
}

// Flushes the active desk. None: nothing waits there, or no flush is tried any more, or it couldn't be noted. Otherwise
// how many milliseconds its thread may rest then.
fn flush_some<R: Wait, D: Disk + Drop, G: Guide>(
    rt: &R,
    guide: &G,
    back: &mut Back<D, G>,
) -> Option<u64>
    ensures same { back.new ≡ record back.old { desks = back.new.desks } }
    ensures settled { G.NOTED ≡ false → result ≡ None → IsSettledBack D.medium G.gives_up back.new }
{
    if back.is_refused() || back.desks().status(back.desks().active()).pending == 0 {
        return None;
    }
    guide.flushing(rt);
    match back.flush_for(rt, guide)? {
        Ok(flushed) => {
            flushed.tell_stored(rt, guide, back);
            Some(0)
        }
        Err(_) if back.is_refused() => Some(0),
        Err(_) => Some(FLUSH_AGAIN),
    }
}

/// The whole work of a back's thread: it takes the desks that wait at the door, brings frames to the active one, serves
/// what others ask, and flushes, until the front's thread has ended and nothing is left to flush, or a call couldn't be
/// noted. Where calls aren't noted, nothing waits at the active desk then, or a flush was refused.
pub fn film_back<R: Wait + Clock, D: Disk + Drop, G: Guide>(
    rt: &R,
    alloc: Global,
    link: &Link,
    guide: &G,
    door: &Door<D>,
    mut back: Back<D, G>,
) -> Back<D, G>
    ensures joins { Joins (door.now ≡ false) back result }
    ensures settled { G.NOTED ≡ false → IsSettledBack D.medium G.gives_up result }
{
    'turns: for _ in rt.forever() {
        let seen = link.given.count(rt);
        let over = link.over.load(Ordering::SeqCst);
        let some = serve(rt, alloc, link, guide, door, &mut back);
        let rest = match flush_some(rt, guide, &mut back) {
            _ if G::NOTED && back.is_closed() => {
                link.stop(rt);
                break;
            }
            Some(rest) => rest,
            None if some => 0,
            None if over => break,
            None => LOOK_AGAIN,
        };
        if rest > 0 {
            // Rung or not, the next turn looks again.
            link.given.wait_for(rt, seen, Duration::from_millis(rest));
        }
    }
    back
}

/// What a front is made of.
#[derive(Drop)]
pub struct Inlet<S: FrameSource + Drop, P: PlaneMemory, T: Drop = Producer<Frame>> {
    /// Its device.
    pub device: Device<S>,
    /// Its queue.
    pub queue: Queue<P>,
    /// What fds name.
    pub table: FdTable<P>,
    /// The end of its ring, or what carries it.
    pub to: T,
}

/// The whole work of a front's thread: it makes a front, and ticks until its guide or its source ends it.
pub fn film_front<R: Wait + Clock, S: FrameSource + Drop, P: PlaneMemory, G: Guide>(
    rt: &R,
    alloc: Global,
    link: &Link,
    guide: &G,
    inlet: Inlet<S, P>,
) -> FrontParts<S, P>
    requires ready { StandsPort P.plane inlet.queue inlet.table }
    requires ring { sent inlet.to ≡ [] }
    ensures leaves { Leaves S.next_gives P.plane (G.due guide.now) (G.ends guide.now)
        (record { queue = inlet.queue; device = inlet.device; to = inlet.to; guide = guide.now }) result }
    ensures over { result.over ≡ true }
{
    let Inlet {
        device,
        queue,
        table,
        to,
    } = inlet;
    let front = Front::new(device, queue, table, to, guide);
    let parts = run_front(rt, alloc, link, guide, front);
    link.end(rt);
    parts
}

// Carries the end of a ring to another thread and back. The toolchain lets an end of a ring cross only behind a type
// parameter.
trait Carrier: Drop {
    ghost use Rattle.std.specs.Global.{Global};
    ghost use Rattle.rtrb.specs.declared.AnyItems.{AnyItems};
    ghost use Rattle.rtrb.specs.declared.producer.Producer.{Producer};
    ghost use Rattle.loop_record.specs.declared.frame.Frame.{Frame};

    ghost inside: { Self → Producer (Frame Global) Global AnyItems };

    fn open(self) -> Producer<Frame>
        ensures { result ≡ inside self };

    fn close(to: Producer<Frame>) -> Self
        ensures { inside result ≡ to };
}

// The one carrier: it holds just the end of the ring.
#[derive(Drop)]
struct Carried {
    to: Producer<Frame>,
}

impl Carrier for Carried {
    ghost inside = { λ c. c.to };

    fn open(self) -> Producer<Frame> {
        let Carried { to } = self;
        to
    }

    fn close(to: Producer<Frame>) -> Self {
        Carried { to }
    }
}

// What a front leaves, on its way back.
#[derive(Drop)]
struct Left<S: FrameSource + Drop, P: PlaneMemory, W: Carrier> {
    device: Device<S>,
    queue: Queue<P>,
    table: FdTable<P>,
    hand: Hand<P>,
    to: W,
    missed: u64,
    failed: u64,
    over: bool,
}

// The thread returns what a front leaves that was made of these.
impl<S: FrameSource + Drop, P: PlaneMemory, G: Guide, W: Carrier> Promise<Left<S, P, W>>
    for Begun<S, P, G> {
    ghost use Rattle.loop_pipeline.specs.Fronts.{LeavesCarried, made_of};

    ghost kept_by = { λ begun left. LeavesCarried W.inside S.next_gives P.plane
        (G.due begun.guide.value) (G.ends begun.guide.value) (made_of begun) left };
}

// The whole work of a front's thread, with the end of the ring carried there and back. First it waits for the cameras
// beside it; if one can't be filmed, nothing changes.
fn film_carried<R: Wait + Clock, S: FrameSource + Drop, P: PlaneMemory, G: Guide, W: Carrier>(
    rt: &R,
    alloc: Global,
    link: &Link,
    guide: &G,
    inlet: Inlet<S, P, W>,
) -> Left<S, P, W>
    requires ready { StandsPort P.plane inlet.queue inlet.table }
    requires ring { sent (W.inside inlet.to) ≡ [] }
    ensures { LeavesCarried W.inside S.next_gives P.plane (G.due guide.now) (G.ends guide.now)
        (record { queue = inlet.queue; device = inlet.device; to = W.inside inlet.to; guide = guide.now }) result }
{
    let Inlet {
        device,
        queue,
        table,
        to,
    } = inlet;
    if !link.wait_for_others(rt) {
        link.end(rt);
        return Left {
            device,
            queue,
            table,
            hand: Hand::Empty,
            to,
            missed: 0,
            failed: 0,
            over: false,
        };
    }
    let inlet = Inlet {
        device,
        queue,
        table,
        to: to.open(),
    };
    let FrontParts {
        device,
        queue,
        table,
        hand,
        to,
        missed,
        failed,
        over,
    } = film_front(rt, alloc, link, guide, inlet);
    Left {
        device,
        queue,
        table,
        hand,
        to: W::close(to),
        missed,
        failed,
        over,
    }
}

// What both threads begin with: what a front is made of, and a record of it; a back; and the door by which desks join
// it.
#[derive(Drop)]
struct Halves<'d, S: FrameSource + Drop, D: Disk + Drop, P: PlaneMemory, G: Guide, W: Carrier> {
    begun: Begun<S, P, G>,
    inlet: Inlet<S, P, W>,
    door: &'d Door<D>,
    back: Back<D, G>,
}

// What both threads leave.
#[derive(Drop)]
struct Both<S: FrameSource + Drop, D: Disk + Drop, P: PlaneMemory, G: Visits, W: Carrier> {
    front: Left<S, P, W>,
    back: Back<D, G>,
}

// The whole work of a back's thread, once those of the cameras beside it can begin too. If one can't, no desk is asked:
// the back comes back as it is.
fn film_beside<R: Wait + Clock, D: Disk + Drop, G: Guide>(
    rt: &R,
    alloc: Global,
    link: &Link,
    guide: &G,
    door: &Door<D>,
    back: Back<D, G>,
) -> Result<Back<D, G>, Back<D, G>>
    ensures joins { IfOk result (Joins (door.now ≡ false) back) }
    ensures settled { G.NOTED ≡ false → IfOk result (IsSettledBack D.medium G.gives_up) }
    ensures unasked { IfErr result (λ same. same ≡ back) }
{
    if !link.wait_for_others(rt) {
        return Err(back);
    }
    Ok(film_back(rt, alloc, link, guide, door, back))
}

// A back of which no desk was asked, after its front has ended; with it, whether that ticked, which it does only after
// all could begin: then what it brought is stored now.
fn film_late<R: Wait + Clock, D: Disk + Drop, G: Guide>(
    rt: &R,
    alloc: Global,
    link: &Link,
    guide: &G,
    door: &Door<D>,
    unasked: (Back<D, G>, bool),
) -> Back<D, G>
    ensures joins { Joins (door.now ≡ false) unasked.0 result }
    ensures settled { G.NOTED ≡ false → unasked.1 ≡ true → IsSettledBack D.medium G.gives_up result }
{
    let (back, over) = unasked;
    if over {
        film_back(rt, alloc, link, guide, door, back)
    } else {
        back
    }
}

// Runs a front in a thread of its own, and the back in this one, once those of the cameras beside it can begin too. If
// no thread can be started, the front doesn't tick, and no desk is asked.
fn run_in<
    's,
    'd,
    E,
    R: Threads + Wait + Clock + Sync,
    S: FrameSource + Drop + Send + 's,
    D: Disk + Drop,
    P: PlaneMemory + Send + 's,
    G: Guide + Sync,
    W: Carrier + Send + 's,
>(
    rt: &'s R,
    alloc: Global,
    scope: &Scope<'s, E>,
    link: &'s Link,
    guide: &'s G,
    halves: Halves<'d, S, D, P, G, W>,
) -> Both<S, D, P, G, W>
    requires begun { made_of halves.begun ≡ record {
      queue = halves.inlet.queue;
      device = halves.inlet.device;
      to = W.inside halves.inlet.to;
      guide = guide.now;
    } }
    requires ready { StandsPort P.plane halves.inlet.queue halves.inlet.table }
    requires ring { sent (W.inside halves.inlet.to) ≡ [] }
    ensures front { LeavesCarried W.inside S.next_gives P.plane (G.due halves.entry.begun.guide.value)
        (G.ends halves.entry.begun.guide.value) (made_of halves.entry.begun) result.front }
    ensures back { Joins (halves.entry.door.now ≡ false) halves.entry.back result.back }
    ensures settled { G.NOTED ≡ false → result.front.over ≡ true → IsSettledBack D.medium G.gives_up result.back }
{
    let Halves {
        begun,
        inlet,
        door,
        back,
    } = halves;
    let work = move || -> Left<S, P, W>
        requires { StandsPort P.plane inlet.queue inlet.table × (sent (W.inside inlet.to) ≡ []) }
        ensures { LeavesCarried W.inside S.next_gives P.plane (G.due guide.entry.now) (G.ends guide.entry.now)
            (record { queue = inlet.queue; device = inlet.device; to = W.inside inlet.to; guide = guide.entry.now })
            result }
    { film_carried(rt, alloc, link, guide, inlet) };
    match scope.spawn_with(begun, work) {
        Ok(handle) => {
            let filmed = film_beside(rt, alloc, link, guide, door, back);
            let front = handle.join(rt);
            let back = match filmed {
                Ok(back) => back,
                Err(back) => film_late(rt, alloc, link, guide, door, (back, front.over)),
            };
            Both { front, back }
        }
        Err(refused) => {
            link.close(rt);
            let front = (refused.value)();
            let back = film_late(rt, alloc, link, guide, door, (back, front.over));
            Both { front, back }
        }
    }
}

// Ends a camera, from what its threads left.
fn end_both<S: FrameSource + Drop, D: Disk + Drop, P: PlaneMemory, G: Guide, W: Carrier>(
    begun: Begun<S, P, G>,
    front: Left<S, P, W>,
    back: Back<D, G>,
) -> CameraEnd<S, D, P, G>
    requires front { LeavesCarried W.inside S.next_gives P.plane
        (G.due begun.guide.value) (G.ends begun.guide.value) (made_of begun) front }
    requires pair { IsPair begun.to.value back.from }
    ensures keeps { (first : SeenDesk D) (others : List (SeenDesk D)) → back.began ≡ first ∷ others
        → back.start ≡ begun.device.value.next → IsRegular P.plane begun.queue.value
        → CameraKeeps D.medium S.next_gives P.plane G.asks G.gives_up
        (G.due begun.guide.value) (G.ends begun.guide.value)
        (record { device = begun.device.value; queue = begun.queue.value; desk = first; joined = others })
        (record { device = result.device; queue = result.queue; desk = result.desk; joined = result.joined.items })
        result.given_up result.left result.missed result.failed result.over }
    ensures again { StaysOpen P.plane begun.queue.value result.queue result.table }
    ensures held { HandIsSpent result.queue result.hand }
    ensures desks { (result.desk ∷ result.joined.items ≡ back.desks) × (length back.desks ≡ length back.began) }
    ensures left { AreLeft D.medium back.began back.desks back.active }
    ensures over { result.over ≡ front.over }
    ensures rests { result.over ≡ false
        → (result.device ≡ begun.device.value) × (result.queue ≡ begun.queue.value) }
{
    let Left {
        device,
        queue,
        table,
        hand,
        to,
        missed,
        failed,
        over,
    } = front;
    let parts = FrontParts {
        device,
        queue,
        table,
        hand,
        to: to.open(),
        missed,
        failed,
        over,
    };
    end(begun, parts, back)
}

/// Why a camera wasn't filmed.
#[derive(Drop)]
pub enum Unfilmed<S: FrameSource + Drop, D: Disk + Drop, P: PlaneMemory, G: Visits> {
    /// Memory was refused before it began, or a camera beside it can't be filmed: the camera comes back.
    NoMemory(Camera<S, D, P, G>),
    /// A thread couldn't be started, or a camera beside it can't be filmed: what is left of the camera. Its device and
    /// its queue are as they were: no frame was filmed.
    NoThread(CameraEnd<S, D, P, G>),
}

/// A camera that is to be filmed, with its guide, and with what its two threads share.
#[derive(Drop)]
pub struct GuidedCamera<'s, S: FrameSource + Drop, D: Disk + Drop, P: PlaneMemory, G: Visits> {
    /// What its threads share. It may serve no other camera meanwhile.
    pub link: &'s Link,
    /// Its guide.
    pub guide: &'s G,
    /// The camera.
    pub camera: Camera<S, D, P, G>,
}

/// Films a camera until its guide or its source ends it and nothing is left to flush. The front runs in a new thread of
/// this scope, the back in the caller's thread. Desks that are put at the door meanwhile join the camera's own, 256 in
/// all at most; those that don't join wait there on, and none can be dropped (`Door::into_desks`).
pub fn film_desks<
    's,
    E,
    R: Threads + Wait + Clock + Sync,
    S: FrameSource + Drop + Send + 's,
    D: Disk + Drop,
    P: PlaneMemory + Send + 's,
    G: Guide + Sync,
>(
    rt: &'s R,
    alloc: Global,
    scope: &Scope<'s, E>,
    guided: GuidedCamera<'s, S, D, P, G>,
    door: &Door<D>,
) -> Result<CameraEnd<S, D, P, G>, Unfilmed<S, D, P, G>>
    ensures keeps { IfOk result (λ e. IsRegular P.plane guided.entry.camera.queue
        → KeepsJoined D.medium S.next_gives P.plane G.asks G.gives_up (G.due guided.entry.guide.now)
        (G.ends guided.entry.guide.now) (door.now ≡ false) guided.entry.camera
        (record { device = e.device; queue = e.queue; desk = e.desk; joined = e.joined.items })
        e.given_up e.left e.missed e.failed e.over) }
    ensures settled { G.NOTED ≡ false → IfOk result (λ e. EndsSettled D.medium G.gives_up (door.now ≡ false)
        guided.entry.camera.desk (e.desk ∷ e.joined.items)) }
    ensures ended { IfOk result (λ e. e.over ≡ true) }
    ensures again { IfOk result (λ e. StaysOpen P.plane guided.entry.camera.queue e.queue e.table) }
    ensures held { IfOk result (λ e. HandIsSpent e.queue e.hand) }
    ensures refused { IfErr result (GivesJoined D.medium S.next_gives P.plane G.asks G.gives_up
        (G.due guided.entry.guide.now) (G.ends guided.entry.guide.now) (door.now ≡ false) guided.entry.camera) }
{
    let GuidedCamera {
        link,
        guide,
        camera,
    } = guided;
    link.begin();
    // The ring takes as many frames as a flush stores at once: they come while the flush before it lasts.
    let most = camera.group() as usize;
    let Ok((to, from)) = RingBuffer::new(alloc, most) else {
        link.close(rt);
        return Err(Unfilmed::NoMemory(camera));
    };
    let Camera {
        device,
        queue,
        table,
        desk,
    } = camera;
    let desks = if door.is_open() { DESKS } else { 1 };
    let back = match Back::new(alloc, desks, desk, from, device.next_sequence()) {
        Ok(back) => back,
        Err((desk, _)) => {
            link.close(rt);
            return Err(Unfilmed::NoMemory(Camera {
                device,
                queue,
                table,
                desk,
            }));
        }
    };
    let begun = Begun::of(&queue, &device, &to, guide);
    let again = Begun::of(&queue, &device, &to, guide);
    let halves = Halves {
        begun,
        inlet: Inlet {
            device,
            queue,
            table,
            to: Carried { to },
        },
        door,
        back,
    };
    let Both { front, back } = run_in(rt, alloc, scope, link, guide, halves);
    let ended = end_both(again, front, back);
    if ended.over {
        Ok(ended)
    } else {
        Err(Unfilmed::NoThread(ended))
    }
}

/// Films a camera with its one desk, as `film_desks` at a door that is shut. The link may serve no other camera
/// meanwhile.
pub fn film_camera<
    's,
    E,
    R: Threads + Wait + Clock + Sync,
    S: FrameSource + Drop + Send + 's,
    D: Disk + Drop,
    P: PlaneMemory + Send + 's,
    G: Guide + Sync,
>(
    rt: &'s R,
    alloc: Global,
    scope: &Scope<'s, E>,
    link: &'s Link,
    guide: &'s G,
    camera: Camera<S, D, P, G>,
) -> Result<CameraEnd<S, D, P, G>, Unfilmed<S, D, P, G>>
    ensures keeps { IfOk result (λ e. IsRegular P.plane camera.queue
        → CameraKeeps D.medium S.next_gives P.plane G.asks G.gives_up
        (G.due guide.now) (G.ends guide.now) camera
        (record { device = e.device; queue = e.queue; desk = e.desk; joined = e.joined.items })
        e.given_up e.left e.missed e.failed e.over) }
    ensures settled { G.NOTED ≡ false → IfOk result (λ e. IsSettledDesk D.medium G.gives_up camera.desk e.desk) }
    ensures ended { IfOk result (λ e. e.over ≡ true) }
    ensures again { IfOk result (λ e. StaysOpen P.plane camera.queue e.queue e.table) }
    ensures held { IfOk result (λ e. HandIsSpent e.queue e.hand) }
    ensures refused { IfErr result (IsReturned D.medium S.next_gives P.plane G.asks G.gives_up
        (G.due guide.now) (G.ends guide.now) camera) }
{
    let door = Door::shut(alloc);
    let guided = GuidedCamera {
        link,
        guide,
        camera,
    };
    let filmed = film_desks(rt, alloc, scope, guided, &door);
    // None waits at a door that is shut.
    let _none = door.into_desks();
    filmed
}
