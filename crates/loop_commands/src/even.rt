// A writer whose writes end at multiples of one size.
ghost use Rattle.std.specs.Prelude.{◌≡◌};

use std::io::{Result, Write};

/// Passes on at most as many bytes in a write as lead to the next multiple of one size, counted from the first byte.
/// A `BufWriter` of that size writes its bytes out when more don't fit. So over one, each write to a file has just that
/// size, and begins where a page of the file does.
#[derive(Drop)]
pub struct EvenWriter<W> {
    inner: W,
    at_once: usize,
    /// How many bytes lead to the next multiple.
    left: usize,
}

impl<W> EvenWriter<W> {
    /// Over a writer, with nothing written yet. A size of 0 counts as 1.
    pub fn new(inner: W, at_once: usize) -> Self
        ensures { result.inner ≡ inner }
    {
        EvenWriter {
            inner,
            at_once: at_once.max(1),
            left: 0,
        }
    }

    /// The writer beneath. It may hold bytes that aren't written yet.
    pub(crate) fn into_inner(self) -> W
        ensures { result ≡ self.inner }
    {
        let EvenWriter {
            inner,
            at_once: _,
            left: _,
        } = self;
        inner
    }
}

impl<W: Write> Write for EvenWriter<W> {
    ghost contents = { λ even. W.contents even.inner };

    fn write(&mut self, buf: &[u8]) -> Result<usize> {
        if self.left == 0 {
            self.left = self.at_once;
        }
        let part = buf.len().min(self.left);
        let count = self.inner.write(&buf[..part])?;
        self.left -= count;
        Ok(count)
    }

    fn flush(&mut self) -> Result<()> {
        self.inner.flush()
    }
}
