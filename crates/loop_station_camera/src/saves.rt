//! The saves of all cameras: which run, in which places, and which wait.
//!
//! There are places for so many saves at once, each with a thread of its own. Which save begins when, and which clip
//! may be released meanwhile, is decided by loop_station_core. A save that an order asks for is refused where each
//! place is taken; one that begins by itself waits.

ghost use Rattle.std.specs.Prelude.{◌≡◌, IfErr, IfOk};
ghost use Rattle.loop_station_camera.specs.Saves.{clips_read};
ghost use Rattle.loop_station_core.specs.Saving.{places_of, withdrawn};

use loop_station_core::laws::withdrawn_saves_leave_nothing;
use loop_station_core::{Asked, Cancelled, Retries, SaveEnd, SaveKey};
use loop_station_outside::Places;
use loop_station_shared::{Answering, FoundClip};
use std::alloc::{AllocError, Global};
use std::sync::atomic::{AtomicBool, Ordering};
use std::sync::{Arc, Condvar, Mutex, Wait};
use std::thread;
use std::time::{Clock, Duration};

// How many clips may be saved at once.
pub const MOST_SAVES: usize = 16;

// How often a stop waits ten milliseconds for saves that are about to end.
const STOP_STEPS: u32 = 70;

/// Where a clip is saved to.
#[derive(Drop)]
pub enum SaveTarget {
    /// To the path of an order, which may replace a file that exists.
    Path(String, bool),
    /// To the camera's folder, by itself. An earlier run may have saved it there.
    Folder(bool),
}

/// What is saved: a clip, or the clips of an event, as they were when they were found; and where it is written to.
#[derive(Drop)]
pub struct Save {
    pub(crate) camera: usize,
    // The clip, or the first one.
    pub(crate) found: FoundClip,
    // The clips of an event, by rising times.
    pub(crate) event: Option<Vec<FoundClip>>,
    pub(crate) target: SaveTarget,
    // The order that asked for it, and the camera's place among those that it means.
    pub(crate) order: Option<Arc<Answering>>,
    // It has been told that it waits and is tried again.
    pub(crate) is_told: AtomicBool,
    // It is to end before its text is whole.
    pub(crate) ended: AtomicBool,
    // Its text is whole, and gets its name: it can't be ended any more.
    pub(crate) finishing: AtomicBool,
}

impl Save {
    /// The place of its camera in the configuration.
    pub fn camera(&self) -> usize {
        self.camera
    }

    /// The clip that it reads, or the first one, as loop_station_core names it.
    pub fn key(&self) -> SaveKey {
        SaveKey {
            whole: self.event.is_some(),
            ..self.found.key(self.camera)
        }
    }

    /// The clips that it reads.
    pub(crate) fn clips(&self, alloc: Global) -> Result<Vec<FoundClip>, AllocError>
        ensures { IfOk result (λ clips. clips.items ≡ clips_read self.now) }
    {
        let mut clips = Vec::new(alloc);
        match &self.event {
            Some(event) => clips.extend_from_slice(event)?,
            None => clips.push(self.found)?,
        }
        Ok(clips)
    }

    /// Whether it begins by itself.
    pub(crate) fn is_automatic(&self) -> bool {
        self.order.is_none()
    }
}

// A place for a save.
#[derive(Drop)]
struct SavePlace {
    // The save that has it.
    save: Option<Arc<Save>>,
    // Its thread hasn't seen that save yet.
    is_new: bool,
    // Its result is told: a cancel has ended it. The place is free once its thread has ended it too.
    is_told: bool,
}

impl SavePlace {
    // The save, whose result is to be told now, unless it was told before.
    fn take_untold(&mut self) -> Option<Arc<Save>> {
        let save = self.save.take();
        if self.is_told { None } else { save }
    }

    // Ends the save before its text is whole. Returns it, unless that is whole, or its result was told before.
    fn cancel(&mut self) -> Option<Arc<Save>> {
        let save = self.save.as_ref()?;
        if save.finishing.load(Ordering::SeqCst) {
            return None;
        }
        save.ended.store(true, Ordering::SeqCst);
        if self.is_told {
            return None;
        }
        let ours = Arc::try_clone(save).ok()?;
        self.is_told = true;
        Some(ours)
    }
}

#[derive(Drop)]
struct Inside {
    decided: loop_station_core::Saves,
    places: Vec<SavePlace>,
    // The saves that wait for a place.
    waiting: Vec<Arc<Save>>,
    // The saves that began by themselves and failed, and when each is tried again.
    failed: Vec<Arc<Save>>,
    retries: Retries,
}

/// What no clip is written to.
#[derive(Drop)]
pub struct TakenPaths {
    /// The files and pipes of the station.
    pub files: Vec<String>,
    /// The paths of the cameras' stores: no clip is written to one with a number either.
    pub stores: Vec<String>,
}

/// The saves that are in progress.
#[derive(Drop)]
pub struct Saves {
    inside: Mutex<Inside>,
    changed: Condvar,
    pub(crate) stopped: AtomicBool,
    taken: Mutex<Arc<TakenPaths>>,
    /// The only folder in which orders may write, if there is one.
    pub(crate) folder: Option<String>,
}

impl Saves {
    /// No saves yet. No clip is written to what is taken, and by orders only into this folder, if there is one.
    pub fn new(
        alloc: Global,
        taken: Arc<TakenPaths>,
        folder: Option<String>,
    ) -> Result<Saves, AllocError> {
        let mut places = Vec::with_capacity(alloc, MOST_SAVES)?;
        for _ in 0..MOST_SAVES {
            places.push(SavePlace {
                save: None,
                is_new: false,
                is_told: false,
            })?;
        }
        Ok(Saves {
            inside: Mutex::new(Inside {
                decided: loop_station_core::Saves::new(alloc, MOST_SAVES)?,
                places,
                waiting: Vec::new(alloc),
                failed: Vec::new(alloc),
                retries: Retries::new(alloc),
            }),
            changed: Condvar::new(),
            stopped: AtomicBool::new(false),
            taken: Mutex::new(taken),
            folder,
        })
    }

    /// From now on no clip is written to these.
    pub fn set_taken<R: Wait>(&self, rt: &R, taken: Arc<TakenPaths>) {
        *self.taken.lock(rt) = taken;
    }

    /// The id of a clip of a camera that a save which hasn't ended reads, if there is one.
    pub(crate) fn next_of<R: Wait>(&self, rt: &R, camera: usize) -> Option<u32> {
        self.inside.lock(rt).next_of(camera)
    }

    /// Whether a path leads to a file or pipe of the station. A path that hangs delays no other save.
    pub(crate) fn is_taken<R: Places + Wait>(&self, rt: &R, path: &str) -> bool {
        let taken = Arc::try_clone(&self.taken.lock(rt));
        let Ok(taken) = taken else {
            return true;
        };
        for file in taken.files.as_slice() {
            if rt.is_same(path, file.as_str()) {
                return true;
            }
        }
        for store in taken.stores.as_slice() {
            if rt.is_numbered(path, store.as_str()) {
                return true;
            }
        }
        false
    }

    /// Whether a save that runs or waits reads the clip of an id of a camera, which has this tag, where that is known.
    pub fn reads<R: Wait>(&self, rt: &R, camera: usize, id: u32, tag: Option<u64>) -> bool {
        self.inside.lock(rt).decided.is_read(camera, id, tag)
    }

    /// Begins a save, or lets it wait.
    pub(crate) fn begin<R: Wait>(&self, rt: &R, save: Arc<Save>) -> Result<(), NotBegun> {
        let mut inside = self.inside.lock(rt);
        if save.is_automatic() && inside.has_automatic(save.key()) {
            return Ok(());
        }
        inside.ask(save)?;
        self.changed.notify_all();
        Ok(())
    }

    /// Waits for the next save of a place.
    pub(crate) fn next<R: Wait>(&self, rt: &R, at: usize) -> Option<Arc<Save>> {
        let mut inside = self.changed.wait_while(
            rt,
            self.inside.lock(rt),
            |inside| match inside.places.get(at) {
                Some(place) => !place.is_new,
                None => false,
            },
        );
        let place = inside.places.get_mut(at)?;
        let save = Arc::try_clone(place.save.as_ref()?).ok();
        place.is_new = false;
        save
    }

    /// The save of a place has ended so; `releases`: clips of its camera are released once they are saved. Returns the
    /// save, unless someone else told its result already, and whether its clip is released now. One that was told as
    /// not saved, since a cancel came right before its end, stays locked.
    pub(crate) fn end<R: Wait>(
        &self,
        rt: &R,
        at: usize,
        end: SaveEnd,
        releases: bool,
    ) -> (Option<Arc<Save>>, bool) {
        let mut inside = self.inside.lock(rt);
        let save = match inside.places.get_mut(at) {
            Some(place) => place.take_untold(),
            None => None,
        };
        let ended = inside.decided.finish(at, end, releases && save.is_some());
        if let Some(key) = ended.begun {
            inside.begin_waiting(at, key);
            self.changed.notify_all();
        }
        (save, ended.release)
    }

    /// The text of a save is whole, and gets its name unless the save was ended before: from now on none ends it.
    pub(crate) fn finishes<R: Wait>(&self, rt: &R, save: &Save) -> bool {
        let _places = self.inside.lock(rt);
        if save.ended.load(Ordering::SeqCst) {
            return false;
        }
        save.finishing.store(true, Ordering::SeqCst);
        true
    }

    /// A save that began by itself failed, and is tried again at a time.
    pub(crate) fn retry<R: Wait>(&self, rt: &R, save: Arc<Save>, at: u64) {
        let mut inside = self.inside.lock(rt);
        let key = save.key();
        // Where memory is refused, it is tried again at the next start.
        if inside.failed.push(save).is_ok() && !inside.retries.add(key, at) {
            let _left_out = inside.failed.pop();
        }
    }

    /// The saves that are due to be tried again.
    pub fn due<R: Wait>(&self, rt: &R, now: u64) -> Option<Arc<Save>> {
        let mut inside = self.inside.lock(rt);
        let at = inside.retries.due(now)?;
        inside.take_failed(at)
    }

    /// Ends a save of the clip of an id of a camera. Returns it, since it has to be told, and whether its clip is
    /// released now; None where no save reads that clip.
    pub fn cancel<R: Wait>(&self, rt: &R, camera: usize, id: u32) -> Option<(Arc<Save>, bool)> {
        let mut inside = self.inside.lock(rt);
        if let Some(at) = inside.retries.cancel(camera, id) {
            return Some((inside.take_failed(at)?, false));
        }
        match inside.decided.cancel(camera, id) {
            Cancelled::Running(place) => Some((inside.places.get_mut(place)?.cancel()?, false)),
            Cancelled::Waiting { release } => Some((inside.take_waiting(camera, id)?, release)),
            Cancelled::No => None,
        }
    }

    // Whether a save is in progress.
    fn is_busy<R: Wait>(&self, rt: &R) -> bool {
        self.inside
            .lock(rt)
            .places
            .iter()
            .any(|place| place.save.is_some() && !place.is_told)
    }

    /// Ends all saves, within a second. Returns one that hasn't ended by itself shortly: its thread tells nothing more.
    pub fn stop<R: Wait + Clock>(&self, rt: &R) {
        for _ in 0..STOP_STEPS {
            if !self.is_busy(rt) {
                break;
            }
            thread::sleep(rt, Duration::from_millis(10));
        }
        self.stopped.store(true, Ordering::SeqCst);
    }

    /// A save that a stop has ended, if one is left.
    pub fn next_stopped<R: Wait>(&self, rt: &R) -> Option<Arc<Save>> {
        let mut inside = self.inside.lock(rt);
        for _ in 0..u64::MAX {
            let stopped = inside.decided.stop()?;
            let save = match stopped.place {
                Some(place) => inside.places.get_mut(place)?.take_untold(),
                None => inside.take_waiting(stopped.key.camera, stopped.key.id),
            };
            if save.is_some() {
                return save;
            }
        }
        None
    }
}

/// Why a save doesn't begin.
#[derive(Clone, Copy)]
pub(crate) enum NotBegun {
    /// Each place is taken.
    TooMany,
    /// Memory was refused.
    NoMemory,
    /// The program ends.
    Stopped,
}

impl Inside {
    // Asks for a place for a save: it begins there, or waits for one. Where it does neither, nothing is changed, and so
    // no place is taken for it.
    fn ask(&mut self, save: Arc<Save>) -> Result<(), NotBegun>
        ensures refused { IfErr result (λ why. places_of self.new.decided ≡ places_of self.old.decided) }
    {
        // A save that is told to wait, and for which there is no memory, is withdrawn: that leaves nothing of it.
        withdrawn_saves_leave_nothing();
        match self.decided.ask(save.key(), save.is_automatic()) {
            Asked::Begins(place) => {
                self.put(place, save);
                Ok(())
            }
            Asked::Waits => self.queue(save),
            Asked::TooMany => Err(NotBegun::TooMany),
            Asked::NoMemory => Err(NotBegun::NoMemory),
            Asked::Stopped => Err(NotBegun::Stopped),
        }
    }

    // A save waits that was told to wait. Where there is no memory to keep it in, it is withdrawn.
    fn queue(&mut self, save: Arc<Save>) -> Result<(), NotBegun>
        ensures { IfErr result (λ why. places_of self.new.decided ≡ withdrawn (places_of self.old.decided)) }
    {
        match self.waiting.push(save) {
            Ok(()) => Ok(()),
            Err(_) => {
                self.decided.withdraw();
                Err(NotBegun::NoMemory)
            }
        }
    }

    // A save gets a place.
    fn put(&mut self, place: usize, save: Arc<Save>) {
        if let Some(place) = self.places.get_mut(place) {
            save.finishing.store(false, Ordering::SeqCst);
            place.save = Some(save);
            place.is_new = true;
            place.is_told = false;
        }
    }

    // The save that waits for a clip begins in a place.
    fn begin_waiting(&mut self, place: usize, key: SaveKey) {
        if let Some(save) = self.take_waiting(key.camera, key.id) {
            self.put(place, save);
        }
    }

    // Takes the first save that waits and reads the clip of an id.
    fn take_waiting(&mut self, camera: usize, id: u32) -> Option<Arc<Save>> {
        let at = self
            .waiting
            .iter()
            .position(|save| save.camera == camera && save.found.clip.id == id)?;
        Some(self.waiting.remove(at))
    }

    // The id of a clip of a camera that a save which hasn't ended reads.
    fn next_of(&self, camera: usize) -> Option<u32> {
        for place in self.places.as_slice() {
            match &place.save {
                Some(save) if save.camera == camera && !place.is_told => {
                    if !save.finishing.load(Ordering::SeqCst) {
                        return Some(save.found.clip.id);
                    }
                }
                _ => {}
            }
        }
        let is_of = |save: &Arc<Save>| save.camera == camera;
        let next = match self.waiting.iter().position(is_of) {
            Some(at) => self.waiting.get(at),
            None => match self.failed.iter().position(is_of) {
                Some(at) => self.failed.get(at),
                None => None,
            },
        };
        match next {
            Some(save) => Some(save.found.clip.id),
            None => None,
        }
    }

    // Takes a save that failed.
    fn take_failed(&mut self, at: usize) -> Option<Arc<Save>> {
        if at < self.failed.len() {
            return Some(self.failed.remove(at));
        }
        None
    }

    // Whether a clip is being saved by itself, or is going to be.
    fn has_automatic(&self, key: SaveKey) -> bool {
        self.decided.has_automatic(key) || self.retries.has(key)
    }
}
