//! What a keep does now, and how it locks in each of a camera's stores.

ghost use Rattle.std.specs.Prelude.{◌≡◌, ◌≢◌, ◌<◌, ◌++◌, None, Ok, [], false, length, map, true};
ghost use Rattle.loop_desk.specs.Desk.{flushed};
ghost use Rattle.loop_pipeline.specs.Backs.{GoesAt, IsLast};
ghost use Rattle.loop_station_core.specs.Keeps.{step_keep};
ghost use Rattle.loop_station_core.specs.declared.keep.Look.{Look};
ghost use Rattle.loop_station_camera.specs.Keeping.{IsOnlyRead, LocksTime, StoresAll, StoresAndKeepsEach, StoresAndKeepsMore, TakesKept, known, or_fault, part_of};

use crate::growing::Growing;
use crate::reading::head_at;
use crate::state::CameraState;
use crate::times::shown_at;
use loop_desk::{Flushed, Kept};
use loop_disk::Disk;
use loop_pipeline::Desks;
use loop_record::Times;
use loop_station_core::{Keep, KeepTurn, Look, clip_id, next_turn};
use loop_store::{Clip, StoreFault};
use std::alloc::Global;
use std::sync::Wait;
use std::time::Clock;

/// The part of a keep's time that is locked now: up to when, and whether nothing of it lies ahead.
#[derive(Clone, Copy)]
pub(crate) struct KeepPart {
    pub until: u64,
    pub is_whole: bool,
}

/// What a keep does now.
pub(crate) fn turn_of<R: Wait + Clock>(rt: &R, state: &CameraState, keep: Keep) -> (Keep, KeepTurn)
    ensures { (look : Look) × (result ≡ step_keep keep look) }
{
    let now = state.timeline.now(rt);
    let now = shown_at(rt, state, now, now.min(keep.since));
    let come = state.feed.come(rt, now.min(keep.until));
    let look = Look {
        tally: state.tally(rt),
        time: now,
        come,
        block: state.newest_block(rt),
        locked: state.is_locked(rt) && state.room(rt).free == 0,
        stopping: state.is_stopped(rt),
    };
    next_turn(keep, &look)
}

/// What a keep locks now; None where it waits.
pub(crate) fn part_of(keep: Keep, turn: KeepTurn) -> Option<KeepPart>
    ensures { result ≡ part_of keep turn }
{
    match turn {
        KeepTurn::Wait => None,
        KeepTurn::Part { until } => Some(KeepPart {
            until,
            is_whole: false,
        }),
        KeepTurn::Whole => Some(KeepPart {
            until: keep.until,
            is_whole: true,
        }),
    }
}

/// Stores what waits at the active desk, and locks the held frames of a time in each store. Returns what was locked, by
/// the ids that users know, and why not all that waited could be stored before that, if so.
pub(crate) fn store_and_keep<R: Wait, D: Disk + Drop>(
    rt: &R,
    alloc: Global,
    state: &CameraState,
    desks: &mut Desks<D, CameraState>,
    times: Times,
    tag: u64,
) -> (Kept, Option<StoreFault>)
    ensures keeps { StoresAndKeepsEach D.medium times tag desks.old.lent.active desks.old.desks desks.new.desks
        result.0 result.1 }
    ensures lent { desks.new.lent ≡ desks.old.lent }
{
    let refused = store_all(rt, state, desks);
    let mut all = nothing_kept(alloc);
    let count = desks.count();
    'places: for place in 0..count {
        let kept = keep_at(alloc, desks, place, times, tag);
        take_kept(rt, state, place, kept, &mut all);
    }
    (all, refused)
}

// Takes what was locked in the store at a place: its clips get the ids by which users know them. Where memory for them
// is refused, they are locked and aren't named; that can't be of the first.
fn take_kept<R: Wait>(rt: &R, state: &CameraState, place: usize, kept: Kept, all: &mut Kept)
    ensures { TakesKept kept all.old all.new }
{
    let Kept { mut clips, fault } = kept;
    let number = state.stored.number_at(rt, place);
    name_clips(number, clips.as_mut_slice());
    state.add_clips(rt, place, &clips);
    let fault = if put_after(clips, &mut all.clips) {
        fault
    } else {
        Some(StoreFault::NoMemory)
    };
    all.fault = or_fault(all.fault, fault);
}

// The first of two faults, if there is one.
fn or_fault(fault: Option<StoreFault>, other: Option<StoreFault>) -> Option<StoreFault>
    ensures { result ≡ or_fault fault other }
{
    match fault {
        Some(fault) => Some(fault),
        None => other,
    }
}

// No clip yet.
fn nothing_kept(alloc: Global) -> Kept
    ensures clips { result.clips.items ≡ [] }
    ensures fault { result.fault ≡ None }
{
    Kept {
        clips: Vec::new(alloc),
        fault: None,
    }
}

// Gives clips of the store of a number the ids by which users know them.
fn name_clips(number: u32, clips: &mut [Clip])
    ensures { clips.new ≡ map (known number) clips.old }
{
    for clip in clips.iter_mut() {
        clip.id = clip_id(number, clip.id);
    }
}

// Puts clips after others, and returns whether memory for that was there: none is asked for where there are no others.
fn put_after(clips: Vec<Clip>, all: &mut Vec<Clip>) -> bool
    ensures done { result ≡ true → all.new.items ≡ all.old.items ++ clips.items }
    ensures refused { result ≡ false → (all.new.items ≡ all.old.items) × (all.old.items ≢ []) }
{
    if all.is_empty() {
        *all = clips;
        return true;
    }
    match all.extend_from_slice(&clips) {
        Ok(()) => true,
        Err(_) => false,
    }
}

// Counts the frames that the active desk has just stored.
fn count_flushed<R: Wait, D: Disk + Drop>(
    rt: &R,
    state: &CameraState,
    desks: &Desks<D, CameraState>,
    done: Flushed,
)
    requires { IsLast D.medium desks.now.lent.began desks.now.desks desks.now.lent.active (flushed (Ok done)) }
{
    state.count_stored(rt, desks.active(), done);
}

// Flushes until nothing waits. Returns the fault if it ended before that.
fn store_all<R: Wait, D: Disk + Drop>(
    rt: &R,
    state: &CameraState,
    desks: &mut Desks<D, CameraState>,
) -> Option<StoreFault>
    ensures goes { GoesAt desks.old.lent.active desks.old.desks desks.new.desks
        (λ d e. StoresAll D.medium d e result) }
    ensures lent { desks.new.lent ≡ desks.old.lent }
    ensures still { length desks.new.desks ≡ length desks.old.desks }
{
    let place = desks.active();
    'flushes: for _ in rt.forever() {
        if desks.status(place).pending == 0 {
            return None;
        }
        match desks.flush() {
            Ok(flushed) => count_flushed(rt, state, desks, flushed),
            Err(fault) => return Some(fault),
        }
    }
    unreachable!()
}

/// Stores what waits at the active desk, and locks the held frames of a time of an event in each store in which they
/// aren't locked already: an event over many stores costs no more with each block than one over few. Returns what
/// `store_and_keep` does.
pub(crate) fn store_and_keep_more<R: Wait, D: Disk + Drop>(
    rt: &R,
    alloc: Global,
    state: &CameraState,
    desks: &mut Desks<D, CameraState>,
    times: Times,
    growing: &mut Growing,
) -> (Kept, Option<StoreFault>)
    ensures keeps { StoresAndKeepsMore D.medium times growing.old.keep.tag desks.old.lent.active desks.old.desks
        desks.new.desks result.0 result.1 }
    ensures lent { desks.new.lent ≡ desks.old.lent }
{
    let unstored = store_all(rt, state, desks);
    let mut all = nothing_kept(alloc);
    let count = desks.count();
    'places: for place in 0..count {
        let (number, next) = (state.stored.number_at(rt, place), desks.status(place).next);
        if growing.is_settled(number, next) {
            continue;
        }
        let since = growing.since_in(number).max(times.since);
        if since > times.until {
            continue;
        }
        let times = Times { since, ..times };
        let kept = keep_at(alloc, desks, place, times, growing.keep.tag);
        let is_past = is_before(desks, place, next, times.until);
        if kept.fault.is_none() && is_past {
            growing.settle(number, next);
        } else {
            growing.unsettle(number);
        }
        take_kept(rt, state, place, kept, &mut all);
    }
    (all, unstored)
}

// Locks the held frames of a time in the store at a place.
fn keep_at<D: Disk + Drop>(
    alloc: Global,
    desks: &mut Desks<D, CameraState>,
    place: usize,
    times: Times,
    tag: u64,
) -> Kept
    requires { place < length desks.old.desks }
    ensures locks { GoesAt place desks.old.desks desks.new.desks (λ d e. LocksTime D.medium times tag d e result) }
    ensures lent { desks.new.lent ≡ desks.old.lent }
    ensures still { length desks.new.desks ≡ length desks.old.desks }
{
    desks.keep(alloc, place, times, tag)
}

// Whether the newest frame of the store at a place, whose next number is this one, came no later than a time.
fn is_before<D: Disk + Drop>(
    desks: &mut Desks<D, CameraState>,
    place: usize,
    next: u64,
    until: u64,
) -> bool
    requires { place < length desks.old.desks }
    ensures reads { GoesAt place desks.old.desks desks.new.desks (IsOnlyRead D.medium) }
    ensures lent { desks.new.lent ≡ desks.old.lent }
    ensures still { length desks.new.desks ≡ length desks.old.desks }
{
    let Some(newest) = next.checked_sub(1) else {
        return true;
    };
    match head_at(desks, place, newest) {
        Ok(head) => head.timestamp <= until,
        Err(_) => false,
    }
}
