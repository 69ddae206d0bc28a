//! Which clips of a camera were saved whole: what may be released where every block is locked.

use loop_station_core::SaveKey;
use loop_store::Clip;
use std::alloc::Global;
use std::sync::atomic::{AtomicU64, Ordering};
use std::sync::{Mutex, Wait};

// How many microseconds pass before it is looked again whether all is locked, unless a flush was refused for that.
const LOOK_AGAIN: u64 = 100_000;

/// What is known of a camera's clips for when every block is locked.
#[derive(Drop)]
pub(crate) struct WholeClips {
    // The clips that a save has written whole, into a file.
    saved: Mutex<Vec<SaveKey>>,
    // When it was looked last whether all is locked.
    looked: AtomicU64,
    // The id after that of the clip whose release was refused last; 0 where one came through since.
    refused: AtomicU64,
}

impl WholeClips {
    /// None is known.
    pub fn new(alloc: Global) -> WholeClips {
        WholeClips {
            saved: Mutex::new(Vec::new(alloc)),
            looked: AtomicU64::new(0),
            refused: AtomicU64::new(0),
        }
    }

    /// A clip was saved whole. Where memory is refused, it stays locked until the next start.
    pub fn add<R: Wait>(&self, rt: &R, key: SaveKey) {
        let mut saved = self.saved.lock(rt);
        if let Some(at) = saved.iter().position(|known| known.id == key.id) {
            saved.remove(at);
        }
        let _stays = saved.push(key);
    }

    /// The clip of an id is released.
    pub fn remove<R: Wait>(&self, rt: &R, id: u32) {
        let mut saved = self.saved.lock(rt);
        if let Some(at) = saved.iter().position(|known| known.id == id) {
            saved.remove(at);
        }
    }

    /// Whether a clip was saved whole, as far as its id and its numbers say that.
    pub fn may_have<R: Wait>(&self, rt: &R, clip: &Clip) -> bool {
        let saved = self.saved.lock(rt);
        saved.iter().any(|known| known.id == clip.id
            && known.first == clip.from
            && known.last == clip.to)
    }

    /// Whether this very clip was.
    pub fn has<R: Wait>(&self, rt: &R, key: SaveKey) -> bool {
        self.saved.lock(rt).iter().any(|known| known.is_same(&key))
    }

    /// Whether it is looked now whether all is locked.
    pub fn looks(&self, now: u64, is_locked: bool) -> bool {
        let last = self.looked.load(Ordering::SeqCst);
        let due = is_locked || now.saturating_sub(last) >= LOOK_AGAIN;
        if due {
            self.looked.store(now, Ordering::SeqCst);
        }
        due
    }

    /// A clip was let go, or that was refused. Returns whether that is told: of a refusal, unless it was told of the same
    /// clip before, since it is tried again and again.
    pub fn is_told(&self, id: u32, is_released: bool) -> bool {
        let refused = if is_released { 0 } else { u64::from(id) + 1 };
        let last = self.refused.load(Ordering::SeqCst);
        self.refused.store(refused, Ordering::SeqCst);
        is_released || last != refused
    }
}
