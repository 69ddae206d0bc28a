//! Events whose end lies ahead: what is there is locked at once, and the rest as it comes.

ghost use Rattle.std.specs.Prelude.{◌≡◌};

use crate::leave::shown;
use circular_buffer::HeapCircularBuffer;
use loop_desk::Kept;
use loop_station_core::{Keep, MayUnlock, SaveKey};
use loop_station_shared::{Answering, Stored, store_of};
use loop_store::{Clip, StoreFault};
use std::alloc::{AllocError, Global};
use std::sync::{Arc, Mutex, Wait};

/// How many events of a camera may be open at once.
pub(crate) const MOST_OPEN: usize = 16;

/// An event of which a part is locked, of one camera.
#[derive(Drop)]
pub(crate) struct Growing {
    pub keep: Keep,
    // What is locked of it.
    clips: Vec<Clip>,
    // Clips that a longer one covers: they are released one after the other.
    covered: Vec<Clip>,
    // The numbers of the stores in which an order has released a part of it, each with the first microsecond of which
    // frames are locked there since.
    ended: Vec<(u32, u64)>,
    // Why not all that is there could be locked.
    fault: Option<StoreFault>,
    // Its end is over, and locked.
    is_done: bool,
    // The numbers of the stores in which all that they held of it was locked, each with its next number then.
    settled: Vec<(u32, u64)>,
}

impl Growing {
    /// An event of which these clips are locked.
    pub fn new(alloc: Global, keep: Keep, clips: Vec<Clip>) -> Growing {
        Growing {
            keep,
            clips,
            covered: Vec::new(alloc),
            ended: Vec::new(alloc),
            fault: None,
            is_done: false,
            settled: Vec::new(alloc),
        }
    }

    /// One of its camera's stores was moved away, with all that is locked there, and another one is made; the others
    /// are opened again, with what is locked in them. What an order has released isn't locked again in these, and the
    /// new one has later frames.
    fn begin_anew(&mut self) {
        self.keep = self.keep.anew();
        self.clips.clear();
        self.covered.clear();
        self.settled.clear();
    }

    /// Whether all that the store of a number holds of it is locked, where its next number is this one.
    pub fn is_settled(&self, store: u32, next: u64) -> bool {
        self.settled
            .iter()
            .any(|known| known.0 == store && known.1 == next)
    }

    /// All that the store of a number holds of it is locked, up to this next number.
    pub fn settle(&mut self, store: u32, next: u64)
        ensures { self.new.keep ≡ self.old.keep }
    {
        self.unsettle(store);
        // Where memory is refused, it is locked once more.
        let _again = self.settled.push((store, next));
    }

    /// What the store of a number holds of it may be locked no more.
    pub fn unsettle(&mut self, store: u32)
        ensures { self.new.keep ≡ self.old.keep }
    {
        if let Some(at) = self.settled.iter().position(|known| known.0 == store) {
            self.settled.remove(at);
        }
    }

    /// Whether a longer clip of it covers one that isn't released yet.
    pub fn has_covered(&self) -> bool {
        !self.covered.is_empty()
    }

    /// A clip of it that a longer one covers, and that isn't released yet.
    pub fn next_covered(&mut self) -> Option<Clip> {
        self.covered.pop()
    }

    /// Leave to release a part of it that a longer one covered. Where there is none, since a save reads it, or no clip
    /// covers it any more, the part is one of its clips again: it is asked once more when the event grows.
    pub fn leave_for(&mut self, part: Clip, is_read: bool) -> Option<MayUnlock> {
        let leave = leave_among(&part, is_read, self.clips.as_slice());
        if leave.is_none() {
            // Where memory is refused, the clip stays locked, and isn't named at the end.
            let _unnamed = self.clips.push(part);
        }
        leave
    }

    /// The first microsecond of which frames are locked in the store of a number.
    pub fn since_in(&self, store: u32) -> u64 {
        let mut since = self.keep.since;
        for (known, from) in self.ended.as_slice() {
            if *known == store {
                since = since.max(*from);
            }
        }
        since
    }

    /// Whether a clip is locked as a part of it, which a longer one may cover by now.
    pub fn owns(&self, clip: &Clip) -> bool {
        self.knows(clip)
    }

    /// An order has released a clip, whose last frame came at this time. Where that was a part of the event, the part
    /// ends: nothing of its store up to then is locked again. Its id may be another clip's from now on.
    pub fn end_part(&mut self, clip: &Clip, last: u64) {
        if let Some(at) = self.covered.iter().position(|known| is_same(known, clip)) {
            self.covered.remove(at);
        }
        if let Some(at) = self.clips.iter().position(|known| is_same(known, clip)) {
            self.clips.remove(at);
            // Where memory is refused, what the order has released is locked once more.
            let _again = self.ended.push((store_of(clip.id), last.saturating_add(1)));
        }
    }

    /// Whether it is locked to its end.
    pub fn is_done(&self) -> bool {
        self.is_done
    }

    /// Why not all that is there could be locked.
    pub fn fault(&self) -> Option<StoreFault> {
        self.fault
    }

    /// These clips of it are in a store that was opened. Those that it knows already stay as they are: a clip that is
    /// released twice may be another one by then.
    pub fn adopt(&mut self, clips: &[Clip]) {
        for clip in clips {
            if !self.knows(clip) {
                // Where memory is refused, the clip stays locked, and isn't named at the end.
                let _unnamed = self.clips.push(*clip);
            }
        }
    }

    // Whether a clip is one of it, or is to be released.
    fn knows(&self, clip: &Clip) -> bool {
        is_among(clip, self.clips.as_slice()) || is_among(clip, self.covered.as_slice())
    }

    /// What is locked of it.
    pub fn clips(&self) -> &[Clip] {
        self.clips.as_slice()
    }

    /// Further clips of it were locked, or refused. Clips of before that lie within one of these are to be released.
    pub fn lengthen(
        &mut self,
        alloc: Global,
        kept: Kept,
        refused: Option<StoreFault>,
        is_whole: bool,
    ) {
        let Kept { clips, fault } = kept;
        let before = std::mem::replace(&mut self.clips, clips);
        let mut others = Vec::new(alloc);
        for clip in before {
            if is_covered_by(&clip, self.clips.as_slice()) {
                // Where memory is refused, the clip stays locked.
                let _stays = self.covered.push(clip);
            } else {
                // Where memory is refused, the clip stays locked, and isn't named at the end.
                let _unnamed = others.push(clip);
            }
        }
        // As above.
        let _unnamed = self.clips.extend_from_slice(&others);
        self.fault = match fault {
            Some(fault) => Some(fault),
            None => refused,
        };
        self.is_done = is_whole;
    }
}

// Whether two clips are one: an id may be another clip's once it is free.
fn is_same(clip: &Clip, other: &Clip) -> bool {
    clip.id == other.id && clip.from == other.from && clip.to == other.to && clip.tag == other.tag
}

// Whether a clip is one of others.
fn is_among(clip: &Clip, others: &[Clip]) -> bool {
    others.iter().any(|other| is_same(clip, other))
}

// Whether a clip lies within one of others of its store.
fn is_covered_by(clip: &Clip, others: &[Clip]) -> bool {
    others
        .iter()
        .any(|other| shown(clip).is_covered_by(shown(other)))
}

// Leave to release a part of an event, where it lies within one of others of its store.
fn leave_among(part: &Clip, is_read: bool, others: &[Clip]) -> Option<MayUnlock> {
    for other in others {
        let leave = shown(part).leave_for_part(is_read, shown(other));
        if leave.is_some() {
            return leave;
        }
    }
    None
}

// Takes the first of some clips, if there is one.
fn take_first(saved: &mut Vec<SaveKey>) -> Option<SaveKey> {
    if saved.is_empty() {
        return None;
    }
    Some(saved.remove(0))
}

/// A keep that waits for the frames that had come before it, and the order that asked for it.
#[derive(Drop)]
pub(crate) struct Waiting {
    pub keep: Keep,
    pub answering: Arc<Answering>,
    pub place: usize,
}

#[derive(Drop)]
struct Inner {
    waiting: Option<Waiting>,
    growing: HeapCircularBuffer<Growing>,
    // The keep of the event that the thread of the desk goes on with now.
    going: Option<Keep>,
    // Clips that are saved and are to be released, which had to wait.
    saved: Vec<SaveKey>,
    // The events that were open when the program ended last go on, where there were some.
    has_gone_on: bool,
}

/// What the thread of a camera's desk goes on with from one visit to the next.
#[derive(Drop)]
pub(crate) struct Ongoing {
    inner: Mutex<Inner>,
}

impl Ongoing {
    /// Nothing to go on with.
    pub fn new(alloc: Global) -> Result<Ongoing, AllocError> {
        Ok(Ongoing {
            inner: Mutex::new(Inner {
                waiting: None,
                growing: HeapCircularBuffer::with_capacity(alloc, MOST_OPEN)?,
                going: None,
                saved: Vec::new(alloc),
                has_gone_on: false,
            }),
        })
    }

    /// The keep that waits, if one does.
    pub fn take_waiting<R: Wait>(&self, rt: &R) -> Option<Waiting> {
        self.inner.lock(rt).waiting.take()
    }

    /// A keep waits.
    pub fn put_waiting<R: Wait>(&self, rt: &R, waiting: Waiting) {
        self.inner.lock(rt).waiting = Some(waiting);
    }

    /// Whether a keep waits.
    pub fn has_waiting<R: Wait>(&self, rt: &R) -> bool {
        self.inner.lock(rt).waiting.is_some()
    }

    /// The event that is next to go on with. It has to be put back, unless it is over.
    pub fn next_growing<R: Wait>(&self, rt: &R) -> Option<Growing> {
        let mut inner = self.inner.lock(rt);
        let growing = inner.growing.pop_front()?;
        inner.going = Some(growing.keep);
        Some(growing)
    }

    /// The event that the thread of the desk went on with is over.
    pub fn end_growing<R: Wait>(&self, rt: &R) {
        self.inner.lock(rt).going = None;
    }

    /// An event goes on. Returns it where too many do.
    pub fn put_growing<R: Wait>(&self, rt: &R, growing: Growing) -> Option<Growing> {
        let mut inner = self.inner.lock(rt);
        if inner
            .going
            .is_some_and(|keep: Keep| keep.event == growing.keep.event)
        {
            inner.going = None;
        }
        match inner.growing.try_push_back(growing) {
            Ok(()) => None,
            Err(growing) => Some(growing),
        }
    }

    /// The camera's store was moved away, and another one is made: events go on there with nothing locked.
    pub fn begin_anew<R: Wait>(&self, rt: &R) {
        let mut inner = self.inner.lock(rt);
        for _ in 0..inner.growing.len() {
            let Some(mut growing) = inner.growing.pop_front() else {
                break;
            };
            growing.begin_anew();
            // It has the room that it had before.
            let _kept = inner.growing.try_push_back(growing);
        }
    }

    /// Whether a clip is a part of an event that goes on.
    pub fn owns<R: Wait>(&self, rt: &R, clip: &Clip) -> bool {
        let inner = self.inner.lock(rt);
        inner.growing.iter().any(|growing| growing.owns(clip))
    }

    /// An order has released a clip, whose last frame came at this time, and which may be a part of an event.
    pub fn end_part<R: Wait>(&self, rt: &R, clip: &Clip, last: u64) {
        let mut inner = self.inner.lock(rt);
        for _ in 0..inner.growing.len() {
            let Some(mut growing) = inner.growing.pop_front() else {
                break;
            };
            growing.end_part(clip, last);
            inner.growing.push_back(growing);
        }
    }

    /// Whether an event goes on, or a clip that is saved has to be released.
    pub fn has_more<R: Wait>(&self, rt: &R) -> bool {
        let inner = self.inner.lock(rt);
        !inner.growing.is_empty() || !inner.saved.is_empty()
    }

    /// A clip that is saved is to be released later: a save reads it by now, or too many orders wait.
    pub fn put_saved<R: Wait>(&self, rt: &R, saved: SaveKey) {
        // Where memory is refused, the next start releases it.
        let _later = self.inner.lock(rt).saved.push(saved);
    }

    /// The clip that is next to be released, since it is saved. It has to be put back where it waits on.
    pub fn next_saved<R: Wait>(&self, rt: &R) -> Option<SaveKey> {
        take_first(&mut self.inner.lock(rt).saved)
    }

    /// Whether the events that were open when the program ended last go on.
    pub fn has_gone_on<R: Wait>(&self, rt: &R) -> bool {
        self.inner.lock(rt).has_gone_on
    }

    /// The same; from now on it is so.
    pub fn go_on<R: Wait>(&self, rt: &R) -> bool {
        std::mem::replace(&mut self.inner.lock(rt).has_gone_on, true)
    }

    /// Takes the clips of the store at a place, which was opened, into the events that they belong to.
    pub fn adopt<R: Wait>(&self, rt: &R, alloc: Global, place: usize, stored: &Stored) {
        let mut inner = self.inner.lock(rt);
        for _ in 0..inner.growing.len() {
            let Some(mut growing) = inner.growing.pop_front() else {
                break;
            };
            let clips = stored.tagged_at(rt, alloc, place, growing.keep.event);
            growing.adopt(&clips);
            inner.growing.push_back(growing);
        }
    }

    /// The keeps of the events that go on, also of the one that the thread of the desk has now. None where memory is
    /// refused.
    pub fn keeps<R: Wait>(&self, rt: &R, alloc: Global) -> Option<Vec<Keep>> {
        let inner = self.inner.lock(rt);
        let mut keeps = Vec::new(alloc);
        if let Some(keep) = inner.going {
            keeps.push(keep).ok()?;
        }
        for growing in inner.growing.iter() {
            if keeps.push(growing.keep).is_err() {
                return None;
            }
        }
        Some(keeps)
    }
}
