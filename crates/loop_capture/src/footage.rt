// The frames of a YUV4MPEG2 input.
ghost use Rattle.std.specs.Prelude.{◌≡◌, [], false};
ghost use Rattle.loop_capture.specs.Sources.{Footage, GivesFootage};

use crate::source::{FrameSource, Next};
use loop_y4m::Y4mReader;
use std::io::Read;
use std::marker::Model;

/// A source of an input's frames. A fault of the input, or a call for another length than that of its frames, is Bad
/// once, and then End. After an End each answer is End.
#[derive(Drop)]
pub struct Y4mSource<R: Read + Drop> {
    reader: Y4mReader<R>,
    over: bool,
}

impl<R: Read + Drop> Model for Y4mSource<R> {
    ghost Value = { Footage };

    ghost view = { λ s. record { reader = s.reader; over = s.over } };
}

impl<R: Read + Drop> Y4mSource<R> {
    /// A source of the frames that a reader still has to give.
    pub fn new(reader: Y4mReader<R>) -> Y4mSource<R>
        ensures { result ≡ record { reader = reader; over = false } }
    {
        Y4mSource {
            reader,
            over: false,
        }
    }
}

impl<R: Read + Drop> FrameSource for Y4mSource<R> {
    ghost next_gives = { GivesFootage };

    ghost lends = { λ s. [] };

    fn next(&mut self, out: &mut [u8]) -> Next {
        if self.over {
            return Next::End;
        }
        if out.len() != self.reader.frame_bytes() as usize {
            self.over = true;
            return Next::Bad;
        }
        match self.reader.next_frame(out) {
            Ok(true) => Next::More,
            Ok(false) => {
                self.over = true;
                Next::End
            }
            Err(_) => {
                self.over = true;
                Next::Bad
            }
        }
    }

    fn lent(&self) -> &[u8] {
        &[]
    }
}
