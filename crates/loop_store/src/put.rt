//! The append of a group.

ghost use Rattle.std.specs.Prelude.{◌≡◌, ◌+◌, ◌%◌, ◌≤◌, ◌∷◌, [], length};
ghost use Rattle.loop_record.specs.Geometry.{frame_bytes};
ghost use Rattle.loop_store.specs.Calls.{appended};
ghost use Rattle.loop_store.specs.Goes.{Goes};
ghost use Rattle.loop_store.specs.Store.{IsKept};
ghost use Rattle.loop_store.specs.Seen.{Refused, seen_with};

use crate::StoreFault;
use crate::grow::append_group;
use crate::index::Index;
use loop_disk::Disk;
use loop_ring::Group;
use std::alloc::Allocator;

/// Stores the frames of a group after the others, all or none, and returns the number of the first, which is the
/// group's.
///
/// `MustReopen`, then `NumbersSpent`, then `AllLocked`, as in `Store::append`. After `Disk` the store must be
/// reopened.
pub(crate) fn put<D: Disk, A: Allocator>(
    disk: &mut D,
    index: &mut Index<A>,
    must_reopen: &mut bool,
    group: &Group<'_>,
) -> Result<u64, StoreFault>
    requires kept { IsKept D.medium disk.old index.old must_reopen.old }
    requires some { 1 ≤ length group.now.frames }
    requires room { index.old.next % index.old.ring.geometry.slots + length group.now.frames
        ≤ index.old.ring.geometry.slots }
    requires size { group.now.size ≡ frame_bytes index.old.ring.geometry }
    requires first { group.now.first ≡ index.old.next }
    ensures kept { IsKept D.medium disk.new index.new must_reopen.new }
    ensures goes { Goes D.medium (seen_with disk.old index.old must_reopen.old)
        (seen_with disk.new index.new must_reopen.new)
        (appended group.now.frames result ∷ []) }
    ensures refused { Refused (seen_with disk.old index.old must_reopen.old)
        (seen_with disk.new index.new must_reopen.new) result }
{
    if *must_reopen {
        return Err(StoreFault::MustReopen);
    }
    let place = index.place()?;
    match append_group(disk, index, place, group) {
        Ok(()) => {
            let number = index.next;
            index.note(place.segment(), group);
            Ok(number)
        }
        Err(fault) => {
            *must_reopen = true;
            Err(StoreFault::Disk(fault))
        }
    }
}
