//! The upgrade of the layout to version 2, in which clips have tags. docs/layout.md says why it is so.

ghost use Rattle.std.specs.Prelude.{◌≡◌, ◌∷◌, [], Ok, false};
ghost use Rattle.loop_store.specs.Calls.{upgraded};
ghost use Rattle.loop_store.specs.Goes.{Goes};
ghost use Rattle.loop_store.specs.Seen.{Refused, seen_with};
ghost use Rattle.loop_store.specs.Store.{IsKept};

use crate::StoreFault;
use crate::index::Index;
use loop_disk::Disk;
use loop_record::TAGGED;
use std::alloc::Allocator;

/// Makes version 2 of the layout from version 1, and returns whether it did. `MustReopen`, as in `Store::upgrade`.
/// After `Disk` the store must be reopened.
pub(crate) fn upgrade_layout<D: Disk, A: Allocator>(
    disk: &mut D,
    index: &mut Index<A>,
    must_reopen: &mut bool,
) -> Result<bool, StoreFault>
    requires { IsKept D.medium disk.old index.old must_reopen.old }
    ensures kept { IsKept D.medium disk.new index.new must_reopen.new × (index.new.ring ≡ index.old.ring) }
    ensures goes { Goes D.medium (seen_with disk.old index.old must_reopen.old)
        (seen_with disk.new index.new must_reopen.new)
        (upgraded result ∷ []) }
    ensures refused { Refused (seen_with disk.old index.old must_reopen.old)
        (seen_with disk.new index.new must_reopen.new) result }
    ensures unmoved { result ≡ Ok false
        → seen_with disk.new index.new must_reopen.new ≡ seen_with disk.old index.old must_reopen.old }
{
    if *must_reopen {
        return Err(StoreFault::MustReopen);
    }
    if index.version == TAGGED {
        return Ok(false);
    }
    match index.clips.upgrade(disk) {
        Ok(()) => {
            index.version = TAGGED;
            Ok(true)
        }
        Err(fault) => {
            *must_reopen = true;
            Err(StoreFault::Disk(fault))
        }
    }
}
