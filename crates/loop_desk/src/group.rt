//! The first of some frames, stored as one group.

ghost use Rattle.std.specs.Prelude.{◌≡◌, ◌+◌, ◌%◌, ◌≤◌, ◌∷◌, [], All, length, take};
ghost use Rattle.loop_record.specs.Geometry.{frame_bytes};
ghost use Rattle.loop_record.specs.Plain.{pictures};
ghost use Rattle.loop_store.specs.Calls.{appended};
ghost use Rattle.loop_store.specs.Goes.{Goes};
ghost use Rattle.loop_store.specs.Seen.{Refused};

use loop_disk::Disk;
use loop_record::Frame;
use loop_store::{Store, StoreFault};
use std::alloc::Allocator;

/// Stores the first `count` of some frames, all or none.
pub(crate) fn append_first<D: Disk + Drop, A: Allocator>(
    store: &mut Store<D, A>,
    frames: &[Frame<A>],
    count: usize,
) -> Result<u64, StoreFault>
    requires there { count ≤ length frames.now }
    requires group { (1 ≤ count) × (count ≤ 64) }
    requires room { store.old.next % store.old.geometry.slots + count ≤ store.old.geometry.slots }
    requires sizes { All (λ frame. length frame.bytes.items ≡ frame_bytes store.old.geometry) frames.now }
    ensures goes { Goes D.medium store.old store.new (appended (pictures (take count frames.now)) result ∷ []) }
    ensures refused { Refused store.old store.new result }
{
    store.append(&frames[..count])
}
