// A source that is lent.
use crate::source::{FrameSource, Next};

/// A source that is lent: a call of it is one of the source.
#[derive(Drop)]
pub struct Loan<'a, S: FrameSource> {
    /// The source.
    pub source: &'a mut S,
}

impl<'a, S: FrameSource> FrameSource for Loan<'a, S> {
    ghost next_gives = { λ b answer out c. S.next_gives b.source.now answer out c.source.now };

    ghost lends = { λ b. S.lends b.source.now };

    fn next(&mut self, out: &mut [u8]) -> Next {
        self.source.next(out)
    }

    fn make_ready(&mut self, size: usize) -> Option<Next> {
        self.source.make_ready(size)
    }

    fn lent(&self) -> &[u8] {
        self.source.lent()
    }

    fn give_row(&mut self) -> Option<Vec<u8>> {
        self.source.give_row()
    }

    fn return_row(&mut self, row: Vec<u8>) {
        self.source.return_row(row);
    }

    fn mark(&self) -> u32 {
        self.source.mark()
    }
}
