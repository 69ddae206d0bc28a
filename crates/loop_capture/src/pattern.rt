// Frames whose bytes identify them.
ghost use Rattle.std.specs.Prelude.{◌≡◌, [], ℕ};
ghost use Rattle.loop_capture.specs.Sources.{GivesPattern};

use crate::source::{FrameSource, Next};
use loop_record::fill_pattern;
use std::marker::Model;

/// A source that never ends: byte i of its frame n is n + i, modulo 256, whatever length is asked for. Contracts see
/// the number of its next frame, modulo 256.
#[derive(Drop)]
pub struct Pattern {
    first: u8,
}

impl Model for Pattern {
    ghost Value = { ℕ };

    ghost view = { λ p. p.first };
}

impl Pattern {
    /// The pattern from its frame 0 on.
    pub fn new() -> Pattern
        ensures { result ≡ 0 }
    {
        Pattern { first: 0 }
    }
}

impl FrameSource for Pattern {
    ghost next_gives = { GivesPattern };

    ghost lends = { λ p. [] };

    fn next(&mut self, out: &mut [u8]) -> Next {
        fill_pattern(out, u64::from(self.first));
        self.first = self.first.wrapping_add(1);
        Next::More
    }

    fn lent(&self) -> &[u8] {
        &[]
    }
}
