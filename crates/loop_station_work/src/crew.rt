//! The threads of one camera: they begin and end with it, while others record.

use crate::filming::run_camera;
use crate::notes::run_notes;
use crate::source::run_source_after;
use loop_station_camera::{CameraState, end_saves_of};
use loop_station_outside::Places;
use loop_station_shared::Outlet;
use std::alloc::AllocGlobal;
use std::fs::File;
use std::io::Write;
use std::sync::{Arc, Wait};
use std::thread;
use std::thread::{JoinHandle, Threads};
use std::time::Clock;

/// The threads of a camera that end with it. That of its source may wait for ever, and isn't joined.
#[derive(Drop)]
pub(crate) struct Crew {
    pub state: Arc<CameraState>,
    camera: Option<JoinHandle<()>>,
    notes: Option<JoinHandle<()>>,
    // Its source is read.
    reads: bool,
    // The pipe of its source, where that is held open for it.
    held: Option<File>,
}

impl Crew {
    /// None of its threads runs yet. The pipe of its source may be open already.
    pub fn of(state: Arc<CameraState>, held: Option<File>) -> Crew {
        Crew {
            state,
            camera: None,
            notes: None,
            reads: false,
            held,
        }
    }

    /// Starts those of its threads that don't run. Its source is read once the threads of these ended cameras don't read
    /// from it any more. Returns whether all run.
    pub fn start<
        R: AllocGlobal + Places + Threads + Wait + Clock + Clone + Drop + Send + Sync + 'static,
        W: Write + Drop + Send + 'static,
    >(&mut self, rt: &R, outlet: &Arc<Outlet<W>>, before: &[Arc<CameraState>]) -> bool {
        if self.notes.is_none() {
            self.notes = start_notes(rt, &self.state);
        }
        if !self.reads {
            let held = self.held.take();
            self.reads = start_source(rt, outlet, &self.state, before, held);
        }
        if self.camera.is_none() {
            self.camera = start_filming(rt, outlet, &self.state);
        }
        self.reads && self.notes.is_some() && self.camera.is_some()
    }

    /// Waits until the camera has ended, which is stopped, and its file of events is written. The saves of one that
    /// `leaves` are ended and told; those that are to be tried again after the program's end aren't.
    pub fn join<R: Wait + Threads>(self, rt: &R, leaves: bool) {
        let Crew {
            state,
            camera,
            notes,
            reads: _,
            held: _,
        } = self;
        if let Some(handle) = camera {
            handle.join(rt);
        }
        // A source that waits for room sees that it is to end.
        state.feed.clear(rt);
        if leaves {
            end_saves_of(rt, &state);
        }
        if let Some(handle) = notes {
            state.notes.end(rt);
            handle.join(rt);
        }
    }
}

// Starts the thread for the file of a camera's events: a disk that stands still delays no other camera's.
fn start_notes<
    R: AllocGlobal + Places + Threads + Wait + Clock + Clone + Drop + Send + Sync + 'static,
>(rt: &R, state: &Arc<CameraState>) -> Option<JoinHandle<()>> {
    let state = Arc::try_clone(state).ok()?;
    let theirs = rt.clone().ok()?;
    thread::spawn(rt, move || run_notes(&theirs, &state)).ok()
}

// Starts the thread of a camera's source. A source may keep its thread waiting for ever, so it isn't joined: it ends
// with the program.
fn start_source<
    R: AllocGlobal + Places + Threads + Wait + Clock + Clone + Drop + Send + Sync + 'static,
    W: Write + Drop + Send + 'static,
>(
    rt: &R,
    outlet: &Arc<Outlet<W>>,
    state: &Arc<CameraState>,
    before: &[Arc<CameraState>],
    held: Option<File>,
) -> bool {
    let mut others = Vec::new(state.alloc);
    for other in before {
        let Ok(other) = Arc::try_clone(other) else {
            return false;
        };
        if others.push(other).is_err() {
            return false;
        }
    }
    let (Ok(state), Ok(outlet)) = (Arc::try_clone(state), Arc::try_clone(outlet)) else {
        return false;
    };
    let Ok(theirs) = rt.clone() else {
        return false;
    };
    thread::spawn(rt, move || {
        run_source_after(&theirs, &state, &outlet, others, held)
    })
    .is_ok()
}

// Starts the thread that films a camera.
fn start_filming<
    R: AllocGlobal + Places + Threads + Wait + Clock + Clone + Drop + Send + Sync + 'static,
    W: Write + Drop + Send + 'static,
>(rt: &R, outlet: &Arc<Outlet<W>>, state: &Arc<CameraState>) -> Option<JoinHandle<()>> {
    let state = Arc::try_clone(state).ok()?;
    let outlet = Arc::try_clone(outlet).ok()?;
    let theirs = rt.clone().ok()?;
    thread::spawn(rt, move || run_camera(&theirs, &state, &outlet)).ok()
}
