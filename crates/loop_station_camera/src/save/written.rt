//! The file of a save: its path, and its text, by the proved writer of loop_y4m.

ghost use Rattle.std.specs.Prelude.{◌≡◌, ◌≤◌, All, IfOk, OnOk, Some, true};
ghost use Rattle.loop_y4m.specs.Depths.{depth_of};
ghost use Rattle.loop_station_core.specs.Marks.{bits_of};
ghost use Rattle.loop_station_camera.specs.Saves.{WroteClips, WroteFrame, WrotePiece, clips_read};

use super::frames::read_one;
use super::pieces::{Piece, next_piece};
use crate::answered::{Answered, Written};
use crate::saves::{Save, SaveTarget};
use crate::state::CameraState;
use loop_record::{FrameHead, Geometry};
use loop_station_core::bits_of;
use loop_station_outside::{Absent, NotSaved, PartFile, PathKind, Places};
use loop_station_shared::FoundClip;
use loop_station_words::print_clip_path;
use loop_y4m::{Depth, may_have, write_deep_header, write_frame};
use std::alloc::{AllocGlobal, Global};
use std::io::{BufWriter, Write};
use std::sync::Wait;
use std::sync::atomic::Ordering;
use std::thread;
use std::time::{Clock, Duration};

// How many bytes of a text are gathered before they are written.
const AT_ONCE: usize = 262_144;

// How many milliseconds pass before it is looked again whether somebody reads a pipe.
const READER_AGAIN: u64 = 20;

// How many clips that are saved by themselves may have names that differ only in the number at the end.
const MOST_NAMES: u32 = 100;

// The path of a clip's file in a folder: by its camera, the time of its first frame, and its id. Where a file has that
// name, a number is added.
fn path_in<R: AllocGlobal + Places>(
    rt: &R,
    folder: &str,
    camera: &str,
    found: &FoundClip,
) -> Result<String, NotSaved> {
    for place in 1..MOST_NAMES {
        let path = path_of(rt.alloc(), folder, camera, found, place)?;
        if rt.path_kind(path.as_str()) == PathKind::Nothing {
            return Ok(path);
        }
    }
    path_of(rt.alloc(), folder, camera, found, MOST_NAMES)
}

// That path, for the clip with this number among those with one name, from 1.
fn path_of(
    alloc: Global,
    folder: &str,
    camera: &str,
    found: &FoundClip,
    place: u32,
) -> Result<String, NotSaved> {
    let mut path = Vec::new(alloc);
    let (began, id) = (found.first, found.clip.id);
    if print_clip_path(&mut path, folder, camera, began, id, place).is_err() {
        return Err(NotSaved::NoMemory);
    }
    match String::from_utf8(path) {
        Ok(path) => Ok(path),
        Err(_) => Err(NotSaved::CannotOpen),
    }
}

/// Where the clip of a save is written to, and whether it was saved already.
pub(super) fn path_for<R: AllocGlobal + Places>(
    rt: &R,
    state: &CameraState,
    save: &Save,
) -> Result<(String, bool), NotSaved> {
    let may_be_saved = match &save.target {
        SaveTarget::Path(path, _) => {
            return match String::from_str(rt.alloc(), path.as_str()) {
                Ok(path) => Ok((path, false)),
                Err(_) => Err(NotSaved::NoMemory),
            };
        }
        SaveTarget::Folder(may_be_saved) => *may_be_saved,
    };
    let Some(folder) = &state.config.save_to else {
        return Err(NotSaved::CannotOpen);
    };
    let (folder, name) = (folder.as_str(), state.config.name.as_str());
    let first = path_of(rt.alloc(), folder, name, &save.found, 1)?;
    if may_be_saved && rt.path_kind(first.as_str()) == PathKind::File {
        return Ok((first, true));
    }
    Ok((path_in(rt, folder, name, &save.found)?, false))
}

// Waits until somebody reads a pipe that is written to, unless the save is to end before.
fn wait_reader<R: Wait + Clock>(
    rt: &R,
    state: &CameraState,
    save: &Save,
    file: &mut PartFile,
) -> Result<(), NotSaved> {
    for _ in rt.forever() {
        if file.has_reader() {
            return Ok(());
        }
        if state.saves.stopped.load(Ordering::SeqCst) {
            return Err(NotSaved::Stopped);
        }
        if save.ended.load(Ordering::SeqCst) {
            return Err(NotSaved::Cancelled);
        }
        thread::sleep(rt, Duration::from_millis(READER_AGAIN));
    }
    unreachable!()
}

/// Writes a clip. Returns how many frames it has, once the file would survive a loss of power.
pub(super) fn write<R: AllocGlobal + Places + Wait + Clock>(
    rt: &R,
    state: &CameraState,
    save: &Save,
    path: &str,
) -> Result<u64, NotSaved> {
    if save.ended.load(Ordering::SeqCst) {
        return Err(NotSaved::Cancelled);
    }
    if state.saves.is_taken(rt, path) {
        return Err(NotSaved::InUse);
    }
    let replace = match &save.target {
        SaveTarget::Path(_, replace) => {
            if let Some(folder) = &state.saves.folder {
                if !rt.lies_in(path, folder.as_str()) {
                    return Err(NotSaved::OtherFolder);
                }
            }
            *replace
        }
        SaveTarget::Folder(_) => false,
    };
    let Some(geometry) = state.life.store(rt) else {
        return Err(NotSaved::Absent(Absent::NoStore));
    };
    let mut file = rt.open_text(path, replace)?;
    wait_reader(rt, state, save, &mut file)?;
    let came = match write_clips(rt, state, save, &geometry, &mut file) {
        Ok(count) => match finish(rt, state, save, &file) {
            Ok(()) => Ok(count),
            Err(why) => Err(why),
        },
        Err(why) => Err(why),
    };
    if came.is_err() {
        rt.give_up_text(&file);
    }
    came
}

// A text is whole, and gets its name, unless its save was ended before.
fn finish<R: AllocGlobal + Places + Wait + Clock>(
    rt: &R,
    state: &CameraState,
    save: &Save,
    file: &PartFile,
) -> Result<(), NotSaved> {
    if !state.saves.finishes(rt, save) {
        return Err(NotSaved::Cancelled);
    }
    rt.finish_text(file)
}

// Writes the text of a save into a file.
fn write_clips<R: AllocGlobal + Wait>(
    rt: &R,
    state: &CameraState,
    save: &Save,
    geometry: &Geometry,
    file: &mut PartFile,
) -> Result<u64, NotSaved> {
    let Ok(mut out) = BufWriter::with_capacity(rt.alloc(), AT_ONCE, file) else {
        return Err(NotSaved::NoMemory);
    };
    let written = write_text(rt, state, save, geometry, &mut out)?;
    match out.flush() {
        Ok(()) => Ok(written.count()),
        Err(_) => Err(NotSaved::CannotWrite),
    }
}

// Writes the text of the clips that a save reads: a header for the geometry of their stores and the bits of their
// samples, and their frames, in the order of their times. Returns those frames.
fn write_text<R: AllocGlobal + Wait, W: Write>(
    rt: &R,
    state: &CameraState,
    save: &Save,
    geometry: &Geometry,
    out: &mut W,
) -> Result<Written, NotSaved>
    ensures { IfOk result
        (WroteClips (W.contents out.old) (W.contents out.new) geometry.now (clips_read save.now)) }
{
    let mut left = save.clips(rt.alloc())?;
    if !have_frames(&left) {
        return Err(NotSaved::NoSuchClip);
    }
    let first = read_one(rt, state, &save.found, save.found.clip.from)?;
    let depth = depth_of(first.head())?;
    if !may_have(geometry, depth) {
        return Err(NotSaved::MixedBits);
    }
    match write_deep_header(geometry, depth, out) {
        Ok(()) => {}
        Err(_) => return Err(NotSaved::CannotWrite),
    }
    let mut written = Written::nothing(rt.alloc());
    'pieces: for _ in rt.forever() {
        let Some(piece) = next_piece(rt, state, u64::from(geometry.slots), &mut left)? else {
            return Ok(written);
        };
        let more = write_piece(rt, state, save, &piece, depth, out)?;
        written.append(more)?;
    }
    unreachable!()
}

// Whether each clip has a frame.
fn have_frames(clips: &[FoundClip]) -> bool
    ensures { result ≡ true → All (λ f. f.clip.from ≤ f.clip.to) clips.now }
{
    clips.iter().all(|found| found.clip.from <= found.clip.to)
}

// Writes the frames of a piece, unless the save is to end before. Returns them.
fn write_piece<R: Wait, W: Write>(
    rt: &R,
    state: &CameraState,
    save: &Save,
    piece: &Piece,
    depth: Depth,
    out: &mut W,
) -> Result<Written, NotSaved>
    ensures { IfOk result (WrotePiece (W.contents out.old) (W.contents out.new) depth piece.now) }
{
    let (from, to) = (piece.clip.clip.from, piece.end);
    if from > to || to - from == u64::MAX {
        return Err(NotSaved::NoSuchClip);
    }
    let count = to - from + 1;
    let mut written = Written::nothing(state.alloc);
    'frames: for at in 0..count {
        if state.saves.stopped.load(Ordering::SeqCst) {
            return Err(NotSaved::Stopped);
        }
        if save.ended.load(Ordering::SeqCst) {
            return Err(NotSaved::Cancelled);
        }
        let frame = read_one(rt, state, &piece.clip, from + at)?;
        write_one(frame, depth, out, &mut written)?;
    }
    Ok(written)
}

// How many bits the samples of a frame have, by its flags.
fn depth_of(head: FrameHead) -> Result<Depth, NotSaved>
    ensures { IfOk result (λ depth. depth_of (bits_of head.flags) ≡ Some depth) }
{
    match Depth::of_bits(bits_of(head.flags)) {
        Some(depth) => Ok(depth),
        None => Err(NotSaved::MixedBits),
    }
}

// Writes a frame, whose samples have to have so many bits.
fn write_one<W: Write>(
    frame: Answered,
    depth: Depth,
    out: &mut W,
    written: &mut Written,
) -> Result<(), NotSaved>
    ensures { OnOk result
        (WroteFrame (W.contents out.old) (W.contents out.new) depth frame written.old written.new) }
{
    if depth_of(frame.head())? != depth {
        return Err(NotSaved::MixedBits);
    }
    match write_frame(frame.bytes(), out) {
        Ok(()) => {}
        Err(_) => return Err(NotSaved::CannotWrite),
    }
    written.add(frame)?;
    Ok(())
}
