//! The answers of cameras, as lines.

use crate::keeping::KeepPart;
use crate::reading::UnreadClip;
use crate::state::CameraState;
use crate::times::{clock_of, gaps_of};
use crate::unlocking::Unlocked;
use loop_desk::{Kept, Outline};
use loop_script::Listing;
use loop_station_core::{Keep, Run, clip_id, kept_answer, shortfall_of};
use loop_station_outside::Absent;
use loop_station_shared::{FoundClip, source_name};
use loop_station_words::{CameraStatus, Lines, StoresStatus, WhenFull};
use loop_store::StoreFault;
use std::io;
use std::sync::Wait;

// Where the next frame comes within so many microseconds, none is missing: it came late.
const LEAST_GAP: u64 = 250_000;

/// What came of a keep: what was locked of a part of its time, the times of its clips, those whose times can't be read,
/// when their frames came, and, if so, why not all gaps between them are known, and why not all that waited could be
/// stored before.
#[derive(Drop)]
pub(crate) struct KeepOutcome {
    pub keep: Keep,
    pub part: KeepPart,
    pub kept: Kept,
    pub refused: Option<StoreFault>,
    pub found: Vec<FoundClip>,
    pub unread: Vec<UnreadClip>,
    pub runs: Vec<Run>,
    pub unsearched: Option<StoreFault>,
}

/// Tells what a keep has locked up to a time, a line for each clip, and why not everything was locked. Where nothing
/// of its time lies ahead, it also tells how much of it is held, and where frames are missing, unless not all times can
/// be read.
pub(crate) fn tell_kept(
    state: &CameraState,
    outcome: &KeepOutcome,
    lines: &mut Lines,
) -> io::Result<()> {
    let (name, keep, part) = (state.config.name.as_str(), &outcome.keep, &outcome.part);
    let kept = &outcome.kept;
    let answer = kept_answer(kept.clips.len(), kept.fault.is_some(), part.is_whole);
    if answer.none {
        lines.kept_none(name, keep.event)?;
    }
    tell_clips(state, keep, &outcome.found, lines)?;
    tell_unread_clips(state, keep, &outcome.unread, lines)?;
    if let Some(fault) = outcome.refused {
        lines.refused(name, fault)?;
    }
    if let Some(fault) = kept.fault {
        lines.refused(name, fault)?;
    }
    if let Some(fault) = outcome.unsearched {
        lines.refused(name, fault)?;
    } else if answer.held && outcome.unread.is_empty() {
        tell_shortfall(state, keep, part.until, &outcome.runs, lines)?;
    }
    if answer.begun {
        lines.event_begun(keep.event, keep.since, keep.until)?;
    }
    Ok(())
}

/// Tells which clips a keep has.
pub(crate) fn tell_clips(
    state: &CameraState,
    keep: &Keep,
    found: &[FoundClip],
    lines: &mut Lines,
) -> io::Result<()> {
    for clip in found {
        lines.kept(
            state.config.name.as_str(),
            &clip.clip,
            (clip.first, clip.last),
            keep.event,
            clip.lost,
        )?;
    }
    Ok(())
}

/// Tells which clips a keep has whose times can't be read.
pub(crate) fn tell_unread_clips(
    state: &CameraState,
    keep: &Keep,
    unread: &[UnreadClip],
    lines: &mut Lines,
) -> io::Result<()> {
    for one in unread {
        lines.kept_unread(
            state.config.name.as_str(),
            &one.clip,
            &one.fault.name(),
            keep.event,
        )?;
    }
    Ok(())
}

/// Tells how much of a keep's time is held, and where frames are missing, if some are. Returns whether all of it is
/// held, and how many frames are lost in it.
pub(crate) fn tell_shortfall(
    state: &CameraState,
    keep: &Keep,
    until: u64,
    runs: &[Run],
    lines: &mut Lines,
) -> io::Result<(bool, u64)> {
    let name = state.config.name.as_str();
    let Ok(missing) = shortfall_of(state.alloc, runs, keep.since, until, least_gap(state)) else {
        return Ok((false, 0));
    };
    if missing.gaps.is_empty() {
        return Ok((true, 0));
    }
    lines.held(name, missing.held, missing.asked, keep.event, missing.lost)?;
    for gap in missing.gaps.as_slice() {
        lines.gap(name, gap.micros, gap.at, keep.event, gap.lost)?;
    }
    Ok((false, missing.lost))
}

// The distance of frames of which a gap has more than one and a half.
fn least_gap(state: &CameraState) -> u64 {
    state.period().max(LEAST_GAP / 3 * 2)
}

/// Tells the result of a release.
pub(crate) fn tell_released(
    state: &CameraState,
    released: Result<Unlocked, StoreFault>,
    lines: &mut Lines,
) -> io::Result<()> {
    let name = state.config.name.as_str();
    match released {
        Ok(clip) => lines.released(name, clip.id()),
        Err(fault) => lines.refused(name, fault),
    }
}

/// Tells what a store of a camera holds: the one of a number, where it has several.
pub(crate) fn tell_listed(
    state: &CameraState,
    number: Option<u32>,
    outline: Result<Outline, StoreFault>,
    lines: &mut Lines,
) -> io::Result<()> {
    let name = state.config.name.as_str();
    match (outline, number) {
        (Ok(outline), None) => lines.camera(name, &Listing::of_outline(outline)),
        (Ok(outline), Some(number)) => {
            let mut listing = Listing::of_outline(outline);
            for clip in listing.clips.as_mut_slice() {
                clip.id = clip_id(number, clip.id);
            }
            lines.camera_store(name, number, &listing)
        }
        (Err(fault), _) => lines.refused(name, fault),
    }
}

// Tells that a camera's store isn't there, or how far it is made.
fn tell_absent<R: Wait>(
    rt: &R,
    state: &CameraState,
    why: &Absent,
    lines: &mut Lines,
) -> io::Result<()> {
    let name = state.config.name.as_str();
    let Some(percent) = state.life.making(rt) else {
        return lines.absent(name, why);
    };
    match state.path_of(state.alloc, state.life.made_number(rt)) {
        Ok(path) => lines.status_making(name, path.as_str(), u64::from(percent)),
        Err(_) => Ok(()),
    }
}

/// Tells the status of a camera, from what is counted of it: its disk isn't asked.
pub fn tell_status<R: Wait>(rt: &R, state: &CameraState, lines: &mut Lines) -> io::Result<()> {
    let name = state.config.name.as_str();
    match state.jobs.attended(rt) {
        Some(Ok(())) => {}
        Some(Err(why)) => return tell_absent(rt, state, &why, lines),
        None => return lines.absent(name, &Absent::Opening),
    }
    let (tally, camera) = (state.tally(rt), state.life.camera(rt));
    let losses = state.feed.losses(rt);
    let source = source_name(camera.source_seen());
    let room = state.room(rt);
    let status = CameraStatus {
        stored: room.stored,
        given_up: tally.lost(),
        waiting: tally.submitted.saturating_sub(tally.left),
        behind: state.behind_micros(rt),
        room: room.free,
        blocks: room.blocks,
        keeps: Some(room.keeps),
        faults: camera.faults,
        source,
        gaps: gaps_of(rt, state),
        lost: losses.lost,
        estimated: losses.estimated,
        clock: clock_of(rt, state),
        when_full: state.config.when_full.unwrap_or(WhenFull::Stop),
    };
    match room.extent {
        None => lines.status(name, &status),
        Some(extent) => lines.status_of_set(
            name,
            &status,
            &StoresStatus {
                open: u64::from(extent.open),
                wanted: u64::from(extent.wanted),
                held: extent.held,
            },
        ),
    }
}
