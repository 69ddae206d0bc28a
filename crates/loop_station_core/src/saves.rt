//! Places of saves: which save runs, which waits, and which clips are read meanwhile.

ghost use Rattle.std.specs.Prelude.{◌≡◌, ◌≢◌, ◌++◌, ◌∷◌, if◌then◌else◌, ◌<◌, ◌==◌, IfOk, IfSome, Some, None, is_some, not, length, replicate, [], true, false};
ghost use Rattle.std.specs.List.{list_any, position};
ghost use Rattle.loop_station_core.specs.Saving.{asked, begun, cancelled, cancelled_at, covers, ended_at, finished, has_automatic, has_key, has_such, held_at, is_of_clip, is_read, is_same, key_clip, left_to_others, picks, places_of, reads, saves_itself, stopped, wanted, with_wish, withdrawn};
ghost use Rattle.loop_station_core.specs.declared.saves.Asked.TheVariants.{NoMemory, Waits};

use crate::leave::ShownClip;
use crate::save_end::{SaveEnd, is_saved};
use std::alloc::{AllocError, Global};

/// The clip of a save: its camera, its id, the numbers of its first and its last frame, its tag, and when its first
/// frame came. After a store was moved away, a clip of the new one may have the same numbers, but another time.
#[derive(Clone, Copy)]
pub struct SaveKey {
    pub camera: usize,
    pub id: u32,
    pub first: u64,
    pub last: u64,
    pub tag: u64,
    pub time: u64,
    /// The save reads each clip of its camera that has the clip's tag, the first of which this is.
    pub whole: bool,
}

impl SaveKey {
    /// Whether two saves are of one clip. One of them may read others too (`whole`): that isn't compared.
    pub fn is_same(&self, other: &SaveKey) -> bool
        ensures { result ≡ is_same self.now other.now }
    {
        self.camera == other.camera
            && self.id == other.id
            && self.first == other.first
            && self.last == other.last
            && self.tag == other.tag
            && self.time == other.time
    }

    // The clip, as a decision is shown it.
    pub(crate) fn shown(&self) -> ShownClip
        ensures { result ≡ key_clip self.now }
    {
        ShownClip {
            id: self.id,
            from: self.first,
            to: self.last,
            tag: self.tag,
        }
    }

    // Whether a save reads the clip of an id with this tag: it is of that clip, or reads each one with its own tag.
    fn covers(&self, camera: usize, id: u32, tag: Option<u64>) -> bool
        ensures { result ≡ covers camera id tag self.now }
    {
        let is_tagged = match tag {
            Some(tag) => self.tag == tag,
            None => false,
        };
        self.camera == camera && (self.id == id || self.whole && is_tagged)
    }
}

// A save that runs or waits.
#[derive(Clone, Copy)]
struct Save {
    key: SaveKey,
    // It began by itself.
    automatic: bool,
    // Its clip is released once no save reads it.
    release: bool,
    // It is to end before its text is whole.
    cancelled: bool,
}

/// What becomes of a save that is asked for.
#[derive(Clone, Copy)]
pub enum Asked {
    /// It begins, in this place.
    Begins(usize),
    /// It waits for a place.
    Waits,
    /// Each place is taken, and it doesn't wait.
    TooMany,
    /// There is no memory for it to wait in.
    NoMemory,
    /// The program ends.
    Stopped,
}

/// What becomes of a save that is to end before its text is whole.
#[derive(Clone, Copy)]
pub enum Cancelled {
    /// It runs in this place, and ends when its thread sees that.
    Running(usize),
    /// It waited, and has ended.
    Waiting {
        /// The clip is to be released now.
        release: bool,
    },
    /// No save reads the clip, but those that end already.
    No,
}

/// What follows from the end of a save.
#[derive(Clone, Copy)]
pub struct Ended {
    /// The clip is to be released now: that was wanted, and no other save reads it.
    pub release: bool,
    /// The save that begins in the place that is free now.
    pub begun: Option<SaveKey>,
}

/// A save that a stop of the program has ended.
#[derive(Clone, Copy)]
pub struct StoppedSave {
    pub key: SaveKey,
    /// The place in which it ran; none where it waited.
    pub place: Option<usize>,
}

/// The saves that run, each in its place, and those that wait for a place, in their order.
#[derive(Drop)]
pub struct Saves {
    running: Vec<Option<Save>>,
    waiting: Vec<Save>,
    stopped: bool,
}

// Whether a save is of the clip of an id.
fn is_reader(save: &Save, camera: usize, id: u32) -> bool
    ensures { result ≡ reads camera id save.now }
{
    save.key.camera == camera && save.key.id == id
}

// Whether a save of a clip began by itself, and isn't to end before its text is whole.
fn saves_itself(save: &Save, key: SaveKey) -> bool
    ensures { result ≡ saves_itself key save.now }
{
    save.automatic && !save.cancelled && key.is_same(&save.key)
}

// The first place in which such a save runs.
fn running_itself(running: &[Option<Save>], key: SaveKey) -> Option<usize>
    ensures { result ≡ position (has_such (saves_itself key)) running.now }
{
    running.iter().position(|place| match place {
        Some(save) => saves_itself(save, key),
        None => false,
    })
}

// The first such save that waits.
fn waiting_itself(waiting: &[Save], key: SaveKey) -> Option<usize>
    ensures { result ≡ position (saves_itself key) waiting.now }
{
    waiting.iter().position(|save| saves_itself(save, key))
}

// The first place whose save is of the clip of an id, and isn't to end already.
fn running_at(running: &[Option<Save>], camera: usize, id: u32) -> Option<usize>
    ensures place { result ≡ position (has_such (picks camera id)) running.now }
    ensures bound { IfSome result (λ i. i < length running.now) }
{
    running.iter().position(|place| match place {
        Some(save) => is_reader(save, camera, id) && !save.cancelled,
        None => false,
    })
}

// The first place whose save is of a clip.
fn running_of(running: &[Option<Save>], key: SaveKey) -> Option<usize>
    ensures place { result ≡ position (has_such (is_of_clip key)) running.now }
    ensures bound { IfSome result (λ i. i < length running.now) }
{
    running.iter().position(|place| match place {
        Some(save) => key.is_same(&save.key),
        None => false,
    })
}

// The first save that waits and is of a clip.
fn waiting_of(waiting: &[Save], key: SaveKey) -> Option<usize>
    ensures place { result ≡ position (is_of_clip key) waiting.now }
    ensures bound { IfSome result (λ i. i < length waiting.now) }
{
    waiting.iter().position(|save| key.is_same(&save.key))
}

// The first save that waits and is of the clip of an id.
fn waiting_at(waiting: &[Save], camera: usize, id: u32) -> Option<usize>
    ensures place { result ≡ position (reads camera id) waiting.now }
    ensures bound { IfSome result (λ i. i < length waiting.now) }
{
    waiting.iter().position(|save| is_reader(save, camera, id))
}

// Whether a save that runs reads the clip of an id with this tag.
fn is_read_running(running: &[Option<Save>], camera: usize, id: u32, tag: Option<u64>) -> bool
    ensures { result ≡ list_any (has_such (has_key (covers camera id tag))) running.now }
{
    running.iter().any(|place| match place {
        Some(save) => save.key.covers(camera, id, tag),
        None => false,
    })
}

// Whether a save that waits does.
fn is_read_waiting(waiting: &[Save], camera: usize, id: u32, tag: Option<u64>) -> bool
    ensures { result ≡ list_any (has_key (covers camera id tag)) waiting.now }
{
    waiting.iter().any(|save| save.key.covers(camera, id, tag))
}

// The first place that is taken.
fn taken_place(running: &[Option<Save>]) -> Option<usize>
    ensures place { result ≡ position is_some running.now }
    ensures bound { IfSome result (λ i. i < length running.now) }
{
    running.iter().position(|place| place.is_some())
}

// The first place that is free.
fn free_place(running: &[Option<Save>]) -> Option<usize>
    ensures place { result ≡ position (λ o. not (is_some o)) running.now }
    ensures bound { IfSome result (λ i. i < length running.now) }
{
    running.iter().position(|place| !place.is_some())
}

impl Saves {
    /// No saves, and so many places.
    pub fn new(alloc: Global, places: usize) -> Result<Saves, AllocError>
        ensures { IfOk result (λ s. places_of s
            ≡ record { running = replicate places None; waiting = []; stopped = false }) }
    {
        let mut running = Vec::with_capacity(alloc, places)?;
        for _ in 0..places {
            running.push(None)?;
        }
        Ok(Saves {
            running,
            waiting: Vec::new(alloc),
            stopped: false,
        })
    }

    /// A save is asked for. Where each place is taken it waits, if it is automatic. Nothing changes where there is no
    /// memory for that.
    pub fn ask(&mut self, key: SaveKey, automatic: bool) -> Asked
        ensures asked { result ≢ NoMemory → (places_of self.new, result) ≡ asked (places_of self.old) key automatic }
        ensures full { result ≡ NoMemory → ((asked (places_of self.old) key automatic).1 ≡ Waits)
            × (places_of self.new ≡ places_of self.old) }
    {
        if self.stopped {
            return Asked::Stopped;
        }
        let save = Save {
            key,
            automatic,
            release: false,
            cancelled: false,
        };
        match free_place(&self.running) {
            Some(place) => {
                self.running[place] = Some(save);
                Asked::Begins(place)
            }
            None => {
                if !automatic {
                    return Asked::TooMany;
                }
                if self.queue(save) {
                    return Asked::Waits;
                }
                Asked::NoMemory
            }
        }
    }

    /// The save that was asked for last, and was to wait, isn't begun: who asked for it has no memory to keep it in. So
    /// no place is given to a save that nobody knows.
    pub fn withdraw(&mut self)
        ensures { places_of self.new ≡ withdrawn (places_of self.old) }
    {
        let _withdrawn = self.waiting.pop();
    }

    // A save waits after the others. Whether there was memory for that.
    fn queue(&mut self, save: Save) -> bool
        ensures { places_of self.new ≡ (if result then record (places_of self.old) {
          waiting = (places_of self.old).waiting ++ save ∷ [];
        } else places_of self.old) }
    {
        self.waiting.push(save).is_ok()
    }

    // The save of a place has ended, whether its text is whole or not. The first one that waits begins in its place.
    // Nothing happens where no save runs there.
    fn ended_at(&mut self, place: usize) -> Ended
        ensures { (places_of self.new, result) ≡ ended_at (places_of self.old) place }
    {
        let Some(save) = self.held(place) else {
            return Ended {
                release: false,
                begun: None,
            };
        };
        self.running[place] = None;
        let release = self.leave(save);
        let begun = self.begin_next(place);
        Ended { release, begun }
    }

    /// The save of a place has come to this end by itself; `releases`: clips of its camera are released once they are
    /// saved. So is its clip where the save began by itself, and the text is there. The first save that waits begins in
    /// its place. Nothing happens where no save runs there.
    pub fn finish(&mut self, place: usize, end: SaveEnd, releases: bool) -> Ended
        ensures { (places_of self.new, result) ≡ finished (places_of self.old) place end releases }
    {
        self.wish(place, end, releases);
        self.ended_at(place)
    }

    // The clip of the save that runs in a place is to be released once no save reads it, where that follows from this
    // end of the save.
    fn wish(&mut self, place: usize, end: SaveEnd, releases: bool)
        ensures { places_of self.new ≡ with_wish (places_of self.old) place end releases }
    {
        if let Some(save) = self.held(place) {
            if save.automatic && is_saved(end) && releases {
                // The end of the last save that reads the clip says when.
                let _later = self.wants_release(save.key);
            }
        }
    }

    // What a place holds.
    fn held(&self, place: usize) -> Option<Save>
        ensures held { result ≡ held_at (places_of self.now) place }
        ensures bound { is_some result ≡ true → place < length self.now.running.items }
    {
        if place < self.running.len() {
            return self.running[place];
        }
        None
    }

    // A save is gone. What it leaves to the others that read its clip; whether the clip is to be released now.
    fn leave(&mut self, save: Save) -> bool
        ensures { (places_of self.new, result) ≡ left_to_others (places_of self.old) save }
    {
        if save.release {
            return !self.wants_release(save.key);
        }
        false
    }

    // The first save that waits begins in a free place.
    fn begin_next(&mut self, place: usize) -> Option<SaveKey>
        requires { place < length self.old.running.items }
        ensures { (places_of self.new, result) ≡ begun (places_of self.old) place }
    {
        if self.stopped || self.waiting.is_empty() {
            return None;
        }
        let save = self.waiting.remove(0);
        self.running[place] = Some(save);
        Some(save.key)
    }

    /// Whether a clip is being saved by itself, or waits for that: a second such save of it isn't needed.
    pub fn has_automatic(&self, key: SaveKey) -> bool
        ensures { result ≡ has_automatic (places_of self.now) key }
    {
        running_itself(&self.running, key).is_some() || waiting_itself(&self.waiting, key).is_some()
    }

    /// Whether a save that runs or waits reads the clip of an id with this tag, so that it may not be released. No tag:
    /// the clip isn't known.
    pub fn is_read(&self, camera: usize, id: u32, tag: Option<u64>) -> bool
        ensures { result ≡ is_read (places_of self.now) camera id tag }
    {
        is_read_running(&self.running, camera, id, tag)
            || is_read_waiting(&self.waiting, camera, id, tag)
    }

    // A clip is to be released. Returns whether that waits for the saves of it: then the end of the last one says so
    // (`Ended`). Otherwise it is released now.
    fn wants_release(&mut self, key: SaveKey) -> bool
        ensures { (places_of self.new, result) ≡ wanted (places_of self.old) key }
    {
        if let Some(place) = running_of(&self.running, key) {
            if let Some(save) = &mut self.running[place] {
                save.release = true;
            }
            return true;
        }
        if let Some(at) = waiting_of(&self.waiting, key) {
            self.waiting[at].release = true;
            return true;
        }
        false
    }

    /// A save of a clip is to end before its text is whole: one that runs, or else one that waits.
    pub fn cancel(&mut self, camera: usize, id: u32) -> Cancelled
        ensures { (places_of self.new, result) ≡ cancelled (places_of self.old) camera id }
    {
        if let Some(place) = running_at(&self.running, camera, id) {
            if let Some(save) = &mut self.running[place] {
                save.cancelled = true;
            }
            return Cancelled::Running(place);
        }
        match waiting_at(&self.waiting, camera, id) {
            Some(at) => self.cancel_waiting(at),
            None => Cancelled::No,
        }
    }

    // A save that waits ends.
    fn cancel_waiting(&mut self, at: usize) -> Cancelled
        requires { at < length self.old.waiting.items }
        ensures { (places_of self.new, result) ≡ cancelled_at (places_of self.old) at }
    {
        let save = self.waiting.remove(at);
        let release = self.leave(save);
        Cancelled::Waiting { release }
    }

    /// The program ends: ends one save, those that run first. None where no save is left. No save begins any more.
    pub fn stop(&mut self) -> Option<StoppedSave>
        ensures { (places_of self.new, result) ≡ stopped (places_of self.old) }
    {
        self.stopped = true;
        if let Some(place) = taken_place(&self.running) {
            let save = self.running[place]?;
            self.running[place] = None;
            return Some(StoppedSave {
                key: save.key,
                place: Some(place),
            });
        }
        if self.waiting.is_empty() {
            return None;
        }
        let save = self.waiting.remove(0);
        Some(StoppedSave {
            key: save.key,
            place: None,
        })
    }
}
