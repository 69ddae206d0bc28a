//! A camera's thread: it films the camera into its stores, again and again. `opening` has how they are opened and made,
//! and `stores` what they are.

use crate::notes::read_events;
use crate::opening::{OpenStore, Opened, Unopened, member_of, open_first, open_others};
use crate::seeing::elsewhere;
use crate::stores::{limits_for, tell_clips};
use crate::telling::{print, tell_absent, tell_layout, tell_order};
use loop_capture::Device;
use loop_desk::Desk;
use loop_file::{FileDisk, FileFault};
use loop_pipeline::{
    Camera, CameraEnd, Door, GuidedCamera, Unfilmed, film_desks, heap_start, new_queue, start_queue,
};
use loop_plane::HeapPlane;
use loop_station_camera::{CameraState, shown_at};
use loop_station_core::{Act, FilmingEvent, Keep, OpenEvent, bits_of};
use loop_station_outside::{Absent, Places};
use loop_station_shared::{FeedSource, Outlet};
use loop_station_words::size_of;
use loop_store::{Store, StoreFault};
use std::alloc::{AllocGlobal, Global};
use std::io::Write;
use std::sync::{Arc, Wait};
use std::thread;
use std::thread::Threads;
use std::time::{Clock, Duration};

// How many milliseconds pass before a store that can't be opened or made is tried again.
const OPEN_AGAIN: u64 = 1_000;

// After so many such times a store is made again for which the disk had no room.
const ROOM_AGAIN: u32 = 60;

// For how many microseconds one of several stores is left alone that failed.
const ALONE: u64 = 60_000_000;

// How many milliseconds pass before a store is made in the place of one that was moved away.
const MOVED_AGAIN: u64 = 250;

// A sequence no further than that from another one is ahead of it.
const HALF: u32 = 2_147_483_648;

// How many desks may wait to join a camera.
const DESKS: usize = 256;

// A camera in front of a store in a file.
type FileCamera = Camera<FeedSource, FileDisk, HeapPlane, CameraState>;

// The result of filming it.
type Filmed = Result<
    CameraEnd<FeedSource, FileDisk, HeapPlane, CameraState>,
    Unfilmed<FeedSource, FileDisk, HeapPlane, CameraState>,
>;

/// Opens a camera's store, or makes it, and films into it, again and again until the camera is stopped. It tries again
/// where the store can't be opened or made, memory or a thread is refused, or the disk fails.
pub(crate) fn run_camera<
    R: AllocGlobal + Places + Threads + Wait + Clock + Sync,
    W: Write + Drop + Send,
>(rt: &R, state: &CameraState, outlet: &Outlet<W>) {
    let mut printed = false;
    // The sequence of the next frame, once one was filmed.
    let mut next: Option<u32> = None;
    for _ in rt.forever() {
        if state.is_stopped(rt) {
            break;
        }
        let why = match open_first(rt, state) {
            Ok(opened) => {
                measure(rt, state);
                film_into(rt, state, outlet, opened, &mut next)
            }
            Err(why) => why,
        };
        printed = tell_absence(rt, state, outlet, why, printed);
        rest(rt, state, why);
    }
    state.leave(rt, Absent::Stopped);
}

// Measures once how long a sync of the store's disk takes.
fn measure<R: Places + Wait + Clock>(rt: &R, state: &CameraState) {
    if state.life.sync(rt).is_none() {
        if let Some(micros) = rt.sync_time(state.config.store.as_str(), &state.timeline) {
            state.life.set_sync(rt, micros);
        }
    }
}

// The store isn't there, and isn't tried again for a while.
fn rest<R: Wait + Clock>(rt: &R, state: &CameraState, why: Absent) {
    state.life.set_place(rt, None);
    state.leave(rt, why);
    match state.life.on(rt, FilmingEvent::Leave) {
        Act::MakeAnew => {
            // A store is made anew, once that is told.
            state.begin_anew(rt);
            thread::sleep(rt, Duration::from_millis(MOVED_AGAIN));
        }
        Act::OpenAgain => {
            let is_full = matches!(why, Absent::File(FileFault::NoRoom));
            for _ in 0..if is_full { ROOM_AGAIN } else { 1 } {
                thread::sleep(rt, Duration::from_millis(OPEN_AGAIN));
                if state.is_stopped(rt) {
                    break;
                }
            }
        }
        _ => {}
    }
}

// Prints once that the file where a store belongs, or where it is made, isn't a store. Returns whether that is so.
fn tell_absence<R: AllocGlobal + Wait + Clock, W: Write + Drop>(
    rt: &R,
    state: &CameraState,
    outlet: &Outlet<W>,
    why: Absent,
    printed: bool,
) -> bool {
    let end = match why {
        Absent::Store(StoreFault::NotFormatted) => "",
        Absent::Unfinished => ".new",
        _ => return false,
    };
    let mut lines = state.lines(rt.alloc());
    let (name, path) = (state.config.name.as_str(), state.config.store.as_str());
    if !printed {
        let written = lines.not_a_store(name, path, end);
        print(rt, outlet, &lines, written);
    }
    true
}

// Films into the stores of a camera, until it is stopped or one of them must be reopened. Returns why it ended.
fn film_into<R: AllocGlobal + Places + Threads + Wait + Clock + Sync, W: Write + Drop + Send>(
    rt: &R,
    state: &CameraState,
    outlet: &Outlet<W>,
    opened: Opened,
    next: &mut Option<u32>,
) -> Absent {
    let Opened {
        first: OpenStore { number, mut store },
        others,
        there,
        wanted,
        newest,
        in_order,
    } = opened;
    let geometry = store.geometry();
    let is_start = !state.has_gone_on(rt);
    if is_start {
        tell_layout(rt, state, outlet, number, store.version());
    }
    if is_start && !in_order {
        tell_order(rt, state, outlet);
    }
    take_store(rt, state, &mut store);
    let rest = elsewhere(others.as_slice(), newest);
    let member = match member_of(rt, state, number, &store, rest) {
        Ok(member) => member,
        Err(why) => return why,
    };
    let Some(events) = open_events(rt, state) else {
        return Absent::NoBuffers;
    };
    let clips = member.clips.as_slice();
    tell_clips(rt, state, &mut store, clips, events.as_slice());
    let first = first_of(newest, *next);
    let Some(camera) = camera_before(rt.alloc(), state, store, first) else {
        return Absent::NoBuffers;
    };
    state.begin(rt, member, wanted, there.len() > 1);
    go_on_with(rt, state, events.as_slice());
    let before = (state.tally(rt).lost(), state.feed.bad_ticks(rt));
    let rest = Unopened {
        geometry,
        number,
        newest,
        others,
        there,
        events,
        wanted,
        is_start,
    };
    let filmed = film(rt, state, outlet, camera, rest);
    if let Ok(ended) = &filmed {
        *next = Some(ended.device.next_sequence());
    }
    after(rt, state, outlet, before, filmed)
}

// A filming has ended: what it lost is counted, and the stores that failed are left alone; `before` as for `count_lost`.
// Returns why it ended.
fn after<R: AllocGlobal + Wait + Clock, W: Write + Drop>(
    rt: &R,
    state: &CameraState,
    outlet: &Outlet<W>,
    before: (u64, u64),
    filmed: Filmed,
) -> Absent {
    count_lost(rt, state, before, &filmed);
    state.lose_rest(rt);
    leave_failed(rt, state, outlet, &filmed);
    why_ended(rt, state, filmed)
}

// The sequence of the first frame of a filming: that after the newest stored one, or the one at which the last filming
// ended where that is ahead of it.
fn first_of(newest: Option<u32>, next: Option<u32>) -> u32 {
    match (newest, next) {
        (None, next) => next.unwrap_or(0),
        (Some(newest), Some(next)) if next.wrapping_sub(newest) <= HALF => next,
        (Some(newest), _) => newest.wrapping_add(1),
    }
}

// A camera has its store. Frames that came before it was there and that it doesn't take are lost.
fn take_store<R: Wait>(rt: &R, state: &CameraState, store: &mut Store<FileDisk>) {
    let newest = store.read_head(store.next().saturating_sub(1)).ok();
    let bits = newest.map(|head| bits_of(head.flags));
    if !state.life.set_store(rt, store.geometry(), bits) {
        state.feed.clear(rt);
        state.lose_rest(rt);
    }
}

// The events that go on: at first those that were open when the program ended last. None where there is no memory for
// them.
fn open_events<R: AllocGlobal + Places + Wait>(
    rt: &R,
    state: &CameraState,
) -> Option<Vec<OpenEvent>> {
    if state.has_gone_on(rt) {
        state.open_events(rt, rt.alloc())
    } else {
        read_events(rt, rt.alloc(), state.config.store.as_str())
    }
}

// Goes on once with the events that were open when the program ended last.
fn go_on_with<R: AllocGlobal + Wait + Clock>(rt: &R, state: &CameraState, events: &[OpenEvent]) {
    if state.go_on(rt) {
        return;
    }
    let alloc = rt.alloc();
    let mut lines = state.lines(alloc);
    for event in events {
        // Where memory for the line is refused, it isn't printed.
        let _ = lines.event_begun(event.event, event.since, event.until);
        let now = state.timeline.now(rt);
        let now = shown_at(rt, state, now, now.min(event.since));
        let come = state.feed.come(rt, now.min(event.until));
        let keep = Keep::new(*event, now, come, &state.tally(rt));
        let clips = state.clips_tagged(rt, alloc, 0, event.event);
        // Its clips are among those that `tell_clips` leaves out, so the next start saves them where too many go on.
        if !state.put_event(rt, alloc, keep, clips) {
            let _ = state.tell_too_many(event.event, &mut lines);
        }
    }
    if !events.is_empty() {
        state.tell(rt, lines, None);
    }
}

// Counts what a filming says that it lost on the way to the desk, but for what its source had lost; `before` frames were
// lost before it, and so many by the source. What waits at the desk and in the queue is counted by `lose_rest`.
fn count_lost<R: Wait>(rt: &R, state: &CameraState, (before, bad): (u64, u64), filmed: &Filmed) {
    let Ok(ended) = filmed else {
        return;
    };
    let lost = ended.given_up.saturating_add(ended.left);
    let lost = lost
        .saturating_add(ended.missed)
        .saturating_add(ended.failed);
    let by_source = state.feed.bad_ticks(rt).saturating_sub(bad);
    let (come, _) = state.feed.counts(rt);
    state
        .life
        .settle(rt, come, before, lost.saturating_sub(by_source));
}

// Of several stores those that failed are left alone for a while: the others go on. It is told.
fn leave_failed<R: AllocGlobal + Wait + Clock, W: Write + Drop>(
    rt: &R,
    state: &CameraState,
    outlet: &Outlet<W>,
    filmed: &Filmed,
) {
    let Ok(ended) = filmed else {
        return;
    };
    if !state.has_several(rt) {
        return;
    }
    if ended.desk.status().must_reopen {
        leave_alone(rt, state, outlet, 0);
    }
    let mut place = 1usize;
    for desk in ended.joined.as_slice() {
        if desk.status().must_reopen {
            leave_alone(rt, state, outlet, place);
        }
        place = place.saturating_add(1);
    }
}

// The store at a place failed.
fn leave_alone<R: AllocGlobal + Wait + Clock, W: Write + Drop>(
    rt: &R,
    state: &CameraState,
    outlet: &Outlet<W>,
    place: usize,
) {
    let number = state.stored.number_at(rt, place);
    let until = state.timeline.now(rt).saturating_add(ALONE);
    if state.stored.leave_alone(rt, number, until) {
        let why = Absent::Store(StoreFault::MustReopen);
        tell_absent(rt, state, outlet, number, &why);
    }
}

// Why a filming ended.
fn why_ended<R: Wait>(rt: &R, state: &CameraState, filmed: Filmed) -> Absent {
    let Ok(ended) = filmed else {
        return Absent::NoBuffers;
    };
    let must_reopen = ended.desk.status().must_reopen
        || ended.joined.iter().any(|desk| desk.status().must_reopen);
    match state.life.on(rt, FilmingEvent::End(must_reopen)) {
        Act::Finish => Absent::Stopped,
        Act::MakeAnew => Absent::Moved,
        _ => Absent::Store(StoreFault::MustReopen),
    }
}

// A camera in front of a store: its queue streams, and nothing waits at its desk. Its first frame has this sequence. None
// where memory was refused.
fn camera_before(
    alloc: Global,
    state: &CameraState,
    store: Store<FileDisk>,
    first: u32,
) -> Option<FileCamera> {
    let geometry = store.geometry();
    let (mut queue, mut table) = new_queue(alloc, &geometry);
    let start = heap_start(alloc, &queue, state.config.buffers).ok()?;
    start_queue(&mut queue, &mut table, start).ok()?;
    let feed = Arc::try_clone(&state.feed).ok()?;
    let source = FeedSource::new(alloc, feed);
    let device = Device::from_number(alloc, source, size_of(&geometry)?, first).ok()?;
    match Desk::new(alloc, store, limits_for(geometry.frame_bytes())) {
        Ok(desk) => Some(Camera::new(device, queue, table, desk)),
        Err(_) => None,
    }
}

// The door by which the desks of further stores join a camera: shut where it has one store, or where memory is refused.
fn door_for(alloc: Global, has_several: bool) -> Door<FileDisk> {
    if has_several {
        if let Ok(door) = Door::new(alloc, DESKS) {
            return door;
        }
    }
    Door::shut(alloc)
}

// Films a camera until its state ends it. Where it has several stores, a thread opens and makes the others meanwhile.
fn film<R: AllocGlobal + Places + Threads + Wait + Clock + Sync, W: Write + Drop + Send>(
    rt: &R,
    state: &CameraState,
    outlet: &Outlet<W>,
    camera: FileCamera,
    rest: Unopened,
) -> Filmed {
    let (rt, state, outlet) = (&*rt, &*state, &*outlet);
    let entrance = door_for(rt.alloc(), rest.number.is_some());
    let door = &entrance;
    let filmed = thread::scope(thread::scope_env(), rt, move |scope| -> Filmed {
        let opener = if door.is_open() {
            scope
                .spawn(move || open_others(rt, state, outlet, door, rest))
                .is_ok()
        } else {
            false
        };
        if !opener {
            // Where a thread is refused, the camera is filmed into the one store that is open, and waits for no other.
            state.stored.leave_others(rt);
        }
        let guided = GuidedCamera {
            link: &state.threads,
            guide: state,
            camera,
        };
        let filmed = film_desks(rt, rt.alloc(), scope, guided, door);
        state.stored.close(rt);
        filmed
    });
    // A store that hasn't joined is closed, as those that have.
    let _closed = entrance.into_desks();
    filmed
}
