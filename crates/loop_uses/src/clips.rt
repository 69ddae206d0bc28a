//! The clip table.
ghost use Rattle.std.specs.Prelude.{◌≡◌, true, false};

use crate::SMALL;
use loop_clips::ClipTable;
use loop_record::Span;

/// A clip of the two frames of block 1 meets that block, and not the one before it.
pub fn a_clip_meets_its_block() -> (bool, bool)
    ensures { result ≡ (true, false) }
{
    let mut table = ClipTable::empty();
    let clip = Span {
        from: 2,
        to: 3,
        tag: 0,
    };
    table.set(5, Some(clip));
    (table.meets(&SMALL, 1), table.meets(&SMALL, 0))
}
