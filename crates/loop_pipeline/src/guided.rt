//! What a back does by its guide: visits.

ghost use Rattle.std.specs.Prelude.{◌≡◌};

use crate::{Back, Guide};
use loop_disk::Disk;
use std::alloc::Global;
use std::sync::Wait;
use std::time::Clock;

/// Lends a back's desks to a visit of its guide.
pub(crate) fn visit<R: Wait + Clock, D: Disk + Drop, G: Guide>(
    rt: &R,
    alloc: Global,
    guide: &G,
    back: &mut Back<D, G>,
)
    ensures { back.new ≡ record back.old { desks = back.new.desks } }
{
    back.desks.lend();
    guide.visit(rt, alloc, &mut back.desks);
    back.desks.visited();
}
