//! Where the frames of a recording come from.

ghost use Rattle.std.specs.Prelude.{[]};

use loop_capture::{FrameSource, Next, Pattern, Y4mSource};
use loop_record::Geometry;
use std::fs::File;
use std::io::BufReader;

/// Where a camera's frames come from.
#[derive(Drop)]
pub(crate) enum RecordSource {
    /// The pattern.
    Pattern(Pattern),
    /// A file or pipe, and the geometry that its header gives, with a ring of any size.
    Footage(Y4mSource<BufReader<File>>, Geometry),
}

impl FrameSource for RecordSource {
    ghost use Rattle.loop_commands.specs.Recorded.{GivesRecorded};

    ghost next_gives = { GivesRecorded };

    ghost lends = { λ source. [] };

    fn next(&mut self, out: &mut [u8]) -> Next {
        match self {
            RecordSource::Pattern(pattern) => pattern.next(out),
            RecordSource::Footage(footage, _) => footage.next(out),
        }
    }

    fn lent(&self) -> &[u8] {
        &[]
    }
}
