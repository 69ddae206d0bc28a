//! Saves that began by themselves and failed: each is tried again once it is due.

ghost use Rattle.std.specs.Prelude.{◌≡◌, ◌<◌, ◌++◌, ◌∷◌, [], IfSome, is_some, length, if◌then◌else◌};
ghost use Rattle.std.specs.List.{position};
ghost use Rattle.loop_station_core.specs.Retries.{reads_clip, retry_is_due, taken};
ghost use Rattle.loop_station_core.specs.Saving.{is_same};

use crate::saves::SaveKey;
use std::alloc::Global;

// A save that is tried again.
#[derive(Clone, Copy)]
struct Retry {
    key: SaveKey,
    // From when on.
    at: u64,
}

/// The saves that are tried again, in the order in which they failed.
#[derive(Drop)]
pub struct Retries {
    list: Vec<Retry>,
}

// Where the first save is that is due.
fn due_at(list: &[Retry], now: u64) -> Option<usize>
    ensures place { result ≡ position (retry_is_due now) list.now }
    ensures bound { IfSome result (λ i. i < length list.now) }
{
    list.iter().position(|retry| retry.at <= now)
}

// Where the first save is that reads the clip of an id.
fn reader_at(list: &[Retry], camera: usize, id: u32) -> Option<usize>
    ensures place { result ≡ position (reads_clip camera id) list.now }
    ensures bound { IfSome result (λ i. i < length list.now) }
{
    list.iter()
        .position(|retry| retry.key.camera == camera && retry.key.id == id)
}

// Where the first save of a clip is.
fn save_at(list: &[Retry], key: SaveKey) -> Option<usize>
    ensures { result ≡ position (λ r. is_same key r.key) list.now }
{
    list.iter().position(|retry| key.is_same(&retry.key))
}

impl Retries {
    /// None.
    pub fn new(alloc: Global) -> Retries
        ensures { result.list.items ≡ [] }
    {
        Retries {
            list: Vec::new(alloc),
        }
    }

    /// A save is tried again from a time on. Whether there was memory for that.
    pub fn add(&mut self, key: SaveKey, at: u64) -> bool
        ensures { self.new.list.items ≡ (if result then self.old.list.items ++ record { key = key; at = at } ∷ []
            else self.old.list.items) }
    {
        self.list.push(Retry { key, at }).is_ok()
    }

    /// The first one that is due is tried now, and is none of these any more. Which of them it was, if there is one.
    pub fn due(&mut self, now: u64) -> Option<usize>
        ensures { (self.new.list.items, result) ≡ taken (retry_is_due now) self.old.list.items }
    {
        let at = due_at(&self.list, now)?;
        self.list.remove(at);
        Some(at)
    }

    /// The first one that reads the clip of an id isn't tried any more. Which of them it was, if there is one.
    pub fn cancel(&mut self, camera: usize, id: u32) -> Option<usize>
        ensures { (self.new.list.items, result) ≡ taken (reads_clip camera id) self.old.list.items }
    {
        let at = reader_at(&self.list, camera, id)?;
        self.list.remove(at);
        Some(at)
    }

    /// Whether one saves this clip.
    pub fn has(&self, key: SaveKey) -> bool
        ensures { result ≡ is_some (position (λ r. is_same key r.key) self.now.list.items) }
    {
        save_at(&self.list, key).is_some()
    }
}
