// What gives frames.
ghost use Rattle.std.specs.Prelude.{◌≡◌, List, ℕ, ⊤, [], IfSome, None, Some, length};
ghost use Rattle.loop_capture.specs.declared.source.Next.TheVariants.{More};
ghost use Rattle.loop_capture.specs.Sources.{StillGave};

/// What a source answers when it is asked for a frame.
#[derive(Clone, Copy, PartialEq, Eq, Debug)]
pub enum Next {
    /// The frame is there.
    More,
    /// No more frames come.
    End,
    /// A frame was due and couldn't be got.
    Bad,
}

/// What gives frames, one in each call: it puts them into memory that it is given, or lends its own.
pub trait FrameSource: Drop {
    ghost use Rattle.loop_capture.specs.declared.source.Next.{Next};

    /// Holds of a source before a call, its answer, the bytes that `out` has after it, and the source after it.
    ghost next_gives: { Self → Next → List ℕ → Self → Type 0 };

    /// The bytes of the frame that it lends.
    ghost lends: { Self → List ℕ };

    /// Puts the next frame's bytes into `out`. Unless it answers More, `out` may then hold any bytes.
    fn next(&mut self, out: &mut [u8]) -> Next
        ensures gives { next_gives self.old result out.new self.new };

    /// Makes the next frame, of so many bytes, ready to be lent, and answers as `next` would. None: this source lends
    /// no frame, and nothing changed.
    fn make_ready(&mut self, _size: usize) -> Option<Next>
        ensures gives { IfSome result (λ answer. next_gives self.old answer (lends self.new) self.new) }
        ensures size { result ≡ Some More → length (lends self.new) ≡ _size }
        ensures none { result ≡ None → self.new ≡ self.old }
    {
        None
    }

    /// The frame that was made ready last.
    fn lent(&self) -> &[u8]
        ensures { result.now ≡ lends self.now };

    /// The row in which the frame that was made ready last lies, for whoever takes it over: the source lends that frame
    /// no longer. None: it keeps its memory, and nothing changed.
    fn give_row(&mut self) -> Option<Vec<u8>>
        ensures row { IfSome result (λ row. row.items ≡ lends self.old) }
        ensures gave { StillGave next_gives self.old self.new }
        ensures none { result ≡ None → self.new ≡ self.old }
    {
        None
    }

    /// Gets a row of as many bytes, of any value, for the one that it gave.
    fn return_row(&mut self, _row: Vec<u8>)
        ensures gave { StillGave next_gives self.old self.new }
    {}

    /// What is to be among the flags of the frame that it gave last: nothing, unless the source says more. It promises
    /// nothing.
    fn mark(&self) -> u32 {
        0
    }
}

/// So that code which is generic in a source takes boxes too. Nothing is known of the frames that a box gives, and it
/// lends none.
impl FrameSource for Box<dyn FrameSource + Send> {
    ghost next_gives = { λ b r out c. ⊤ };

    ghost lends = { λ b. [] };

    fn next(&mut self, out: &mut [u8]) -> Next {
        (**self).next(out)
    }

    fn lent(&self) -> &[u8] {
        &[]
    }
}
