//! How clips are saved: they are written as YUV4MPEG2 while their cameras record. `written` has the files, `pieces` the
//! order in which the frames of several clips are written, and `frames` reads them.
//!
//! Whoever ends a save first tells its result: its own thread, or a stop of the program or a `cancel` where that thread
//! waits for a pipe that nobody reads.

mod frames;
mod pieces;
mod written;

use crate::fleet::Fleet;
use crate::saves::{NotBegun, Save, SaveTarget, Saves};
use crate::state::CameraState;
use loop_station_core::{SaveEnd, SaveLine, after_save, is_saved};
use loop_station_outside::{NotSaved, PathKind, Places};
use loop_station_shared::{Answering, FoundClip, KeptClip, SaveOrder};
use loop_station_words::Lines;
use loop_store::StoreFault;
use std::alloc::{AllocError, AllocGlobal, Global};
use std::sync::atomic::{AtomicBool, Ordering};
use std::sync::{Arc, Wait};
use std::time::Clock;
use written::{path_for, write};

impl CameraState {
    /// The clip that an order saves was looked for: the save begins, and its clip is read from now on. Otherwise the
    /// order is answered.
    pub(crate) fn begin_save<R: Wait>(
        &self,
        rt: &R,
        alloc: Global,
        order: SaveOrder,
        id: u32,
        found: Result<Option<FoundClip>, StoreFault>,
    ) {
        let name = self.config.name.as_str();
        let mut lines = self.lines(alloc);
        let (place, path) = (order.place, order.path.as_str());
        let told = match found {
            Ok(Some(found)) => {
                begin_ordered(rt, alloc, self, order, found, None);
                return;
            }
            Ok(None) => lines.not_saved(name, id, path, &"NoSuchClip"),
            Err(fault) => lines.not_saved(name, id, path, &fault.name()),
        };
        // Where memory for the line is refused, it isn't printed.
        let _ = told;
        self.answer(rt, order.answering, place, lines, None);
    }

    /// The clips of the event that an order saves were looked for: the save begins, and they are read from now on.
    /// Otherwise the order is answered.
    pub(crate) fn begin_event<R: Wait>(
        &self,
        rt: &R,
        alloc: Global,
        order: SaveOrder,
        found: Result<Vec<FoundClip>, StoreFault>,
    ) {
        let fault = match found {
            Ok(found) => match found.first() {
                Some(first) => {
                    let first = *first;
                    begin_ordered(rt, alloc, self, order, first, Some(found));
                    return;
                }
                None => StoreFault::NoSuchClip,
            },
            Err(fault) => fault,
        };
        let mut lines = self.lines(alloc);
        // Where memory for the line is refused, it isn't printed.
        let _ = lines.refused(self.config.name.as_str(), fault);
        self.answer(rt, order.answering, order.place, lines, None);
    }

    /// Ends a save of the clip of an id, and tells that of the save. Returns whether there was one.
    pub fn cancel_save<R: Wait>(&self, rt: &R, id: u32) -> bool {
        match self.saves.cancel(rt, self.place, id) {
            Some((save, is_released)) => {
                tell_ended(rt, self, &save, NotSaved::Cancelled);
                if is_released {
                    self.release_saved(rt, save.key());
                }
                true
            }
            None => false,
        }
    }
}

// Begins the save that an order asks for: of a clip, or of the clips of an event, of which this is the first. Where
// memory is refused, the order isn't answered.
fn begin_ordered<R: Wait>(
    rt: &R,
    alloc: Global,
    state: &CameraState,
    order: SaveOrder,
    found: FoundClip,
    event: Option<Vec<FoundClip>>,
) {
    let SaveOrder {
        answering,
        place: _,
        path,
        replace,
    } = order;
    let target = SaveTarget::Path(path, replace);
    if let Ok(save) = save_of(alloc, state.place, found, event, target, Some(answering)) {
        begin(rt, state, save);
    }
}

/// Begins a save, or tells why it doesn't begin.
pub fn begin<R: Wait>(rt: &R, state: &CameraState, save: Arc<Save>) {
    let Ok(ours) = Arc::try_clone(&save) else {
        return;
    };
    match state.saves.begin(rt, save) {
        Ok(()) => {}
        Err(NotBegun::TooMany) => {
            let mut lines = state.lines(state.alloc);
            // Where memory for the line is refused, it isn't printed.
            let _ = lines.too_many_saves(state.config.name.as_str());
            tell_for(rt, state, &ours, lines);
        }
        Err(NotBegun::NoMemory) => tell_ended(rt, state, &ours, NotSaved::NoMemory),
        Err(NotBegun::Stopped) => tell_ended(rt, state, &ours, NotSaved::Stopped),
    }
}

/// The save of a clip into its camera's folder. Where the clip may have been saved by an earlier run, a file that has
/// its name is that.
pub fn automatic(
    alloc: Global,
    kept: KeptClip,
    may_be_saved: bool,
) -> Result<Arc<Save>, AllocError> {
    save_of(
        alloc,
        kept.camera,
        kept.found,
        None,
        SaveTarget::Folder(may_be_saved),
        None,
    )
}

// A save.
fn save_of(
    alloc: Global,
    camera: usize,
    found: FoundClip,
    event: Option<Vec<FoundClip>>,
    target: SaveTarget,
    order: Option<Arc<Answering>>,
) -> Result<Arc<Save>, AllocError> {
    let save = Save {
        camera,
        found,
        event,
        target,
        order,
        is_told: AtomicBool::new(false),
        ended: AtomicBool::new(false),
        finishing: AtomicBool::new(false),
    };
    match Arc::new(alloc, save) {
        Ok(save) => Ok(save),
        Err(_) => Err(AllocError),
    }
}

/// The thread of a place: it writes the clips that are saved there, one after the other, as long as the program runs.
pub fn run_saves<R: AllocGlobal + Places + Wait + Clock>(
    rt: &R,
    saves: &Saves,
    fleet: &Fleet,
    at: usize,
) {
    for _ in rt.forever() {
        if let Some(save) = saves.next(rt, at) {
            match fleet.at(rt, save.camera) {
                Some(state) => run_save(rt, &state, at, &save),
                None => {
                    // Its camera has ended, and the save with it, as was told.
                    let _told = saves.end(rt, at, SaveEnd::Final, false);
                }
            }
        }
    }
}

/// Ends the saves of a camera that ends, and tells so.
pub fn end_saves_of<R: Wait>(rt: &R, state: &CameraState) {
    for _ in 0..u64::MAX {
        let Some(id) = state.saves.next_of(rt, state.place) else {
            break;
        };
        let Some((save, _)) = state.saves.cancel(rt, state.place, id) else {
            break;
        };
        tell_ended(rt, state, &save, NotSaved::Stopped);
    }
}

// Writes the clip of a save, and tells the result.
fn run_save<R: AllocGlobal + Places + Wait + Clock>(
    rt: &R,
    state: &CameraState,
    at: usize,
    save: &Save,
) {
    let (path, came) = match path_for(rt, state, save) {
        Ok((path, true)) => (path, Ok(None)),
        Ok((path, false)) => {
            let came = write(rt, state, save, path.as_str());
            (path, came.map(|count| Some(count)))
        }
        Err(why) => (String::new(rt.alloc()), Err(why)),
    };
    let (ours, is_released) = state.saves.end(rt, at, end_of(&came), state.config.release);
    if let Some(ours) = ours {
        if is_saved(end_of(&came)) && rt.path_kind(path.as_str()) == PathKind::File {
            note_whole(rt, state, save);
        }
        tell_save(rt, state, ours, path.as_str(), came);
    }
    if is_released {
        state.release_saved(rt, save.key());
    }
}

// The clips of a save are written whole, into a file.
fn note_whole<R: AllocGlobal + Wait>(rt: &R, state: &CameraState, save: &Save) {
    // Where memory is refused, they stay locked where every block is.
    if let Ok(clips) = save.clips(rt.alloc()) {
        for found in clips.as_slice() {
            state.whole.add(rt, found.key(state.place));
        }
    }
}

// How a save has ended, by what came of it.
fn end_of(came: &Result<Option<u64>, NotSaved>) -> SaveEnd {
    match came {
        Ok(Some(_)) => SaveEnd::Whole,
        Ok(None) => SaveEnd::Already,
        Err(why) => why.end(),
    }
}

// Tells the result of a save; one that began by itself and may succeed later is tried again. `came` has how many frames
// were written, or nothing where the clip was saved already.
fn tell_save<R: AllocGlobal + Wait + Clock>(
    rt: &R,
    state: &CameraState,
    save: Arc<Save>,
    path: &str,
    came: Result<Option<u64>, NotSaved>,
) {
    let (name, id) = (state.config.name.as_str(), save.found.clip.id);
    let mut lines = state.lines(rt.alloc());
    let told = save.is_told.load(Ordering::SeqCst);
    let now = state.timeline.now(rt);
    let after = after_save(end_of(&came), save.is_automatic(), told, now);
    if let Some(again) = after.again {
        save.is_told.store(true, Ordering::SeqCst);
        if let Ok(kept) = Arc::try_clone(&save) {
            state.saves.retry(rt, kept, again);
        }
    }
    // Where memory for the line is refused, it isn't printed.
    let _ = match (after.line, came) {
        (Some(SaveLine::Saved), Ok(Some(count))) => lines.saved(name, id, path, count),
        (Some(SaveLine::Waits), Err(why)) => lines.save_waits(name, id, path, &why),
        (Some(SaveLine::NotSaved), Err(why)) => lines.not_saved(name, id, path, &why),
        _ => Ok(()),
    };
    tell_for(rt, state, &save, lines);
}

/// Tells that a save was ended before its text was whole.
pub fn tell_ended<R: Wait>(rt: &R, state: &CameraState, save: &Save, why: NotSaved) {
    let path = match &save.target {
        SaveTarget::Path(path, _) => path.as_str(),
        SaveTarget::Folder(_) => match &state.config.save_to {
            Some(folder) => folder.as_str(),
            None => "",
        },
    };
    let mut lines = state.lines(state.alloc);
    // Where memory for the line is refused, it isn't printed.
    let _ = lines.not_saved(state.config.name.as_str(), save.found.clip.id, path, &why);
    tell_for(rt, state, save, lines);
}

// Answers the order that asked for a save, or tells lines that answer none.
fn tell_for<R: Wait>(rt: &R, state: &CameraState, save: &Save, lines: Lines) {
    let order = match &save.order {
        Some(answering) => Arc::try_clone(answering).ok(),
        None => None,
    };
    match order {
        Some(answering) => state.answer(rt, answering, 0, lines, None),
        None => state.tell(rt, lines, None),
    }
}
