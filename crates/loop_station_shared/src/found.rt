//! A clip that a camera has, with its times.

ghost use Rattle.std.specs.Prelude.{◌≡◌, true};

use loop_station_core::SaveKey;
use loop_store::Clip;

/// A clip, and when its first and its last frame came.
#[derive(Clone, Copy)]
pub struct FoundClip {
    /// Its id, its numbers and its tag.
    pub clip: Clip,
    /// When its first frame came, in microseconds since 1970.
    pub first: u64,
    /// When its last frame came.
    pub last: u64,
    /// The sequence of its first frame.
    pub from: u32,
    /// The sequence of its last frame.
    pub to: u32,
    /// How many frames are lost in it, where that was looked for.
    pub lost: u64,
}

impl FoundClip {
    /// The clip, as loop_station_core names it.
    pub fn key(&self, camera: usize) -> SaveKey {
        SaveKey {
            camera,
            id: self.clip.id,
            first: self.clip.from,
            last: self.clip.to,
            tag: self.clip.tag,
            time: self.first,
            whole: false,
        }
    }

    /// Whether a frame with one of the clip's numbers and this time may be one of its frames: in another store the
    /// frames with its first and its last number have other times.
    pub fn fits(&self, number: u64, time: u64) -> bool
        ensures first { result ≡ true → number ≡ self.now.clip.from → time ≡ self.now.first }
        ensures last { result ≡ true → number ≡ self.now.clip.to → time ≡ self.now.last }
    {
        (number != self.clip.from || time == self.first)
            && (number != self.clip.to || time == self.last)
    }
}
