//! What holds of any store, and what a sequence of calls leaves. The functions do nothing: their contracts are the
//! laws.

ghost use Rattle.std.specs.Prelude.{◌≡◌, ◌⊎◌, ◌++◌, List, false};
ghost use Rattle.loop_store.specs.Calls.{Call};
ghost use Rattle.loop_store.specs.Goes.{Goes};
ghost use Rattle.loop_store.specs.Reopen.{IsOpened, TellsOne};
ghost use Rattle.loop_store.specs.Seen.{StandsFor};
ghost use Rattle.loop_record.specs.Recording.{Recording};

use crate::Store;
use loop_disk::Disk;
use std::alloc::Allocator;

/// Calls followed by further calls are one list of calls: what `Goes` says of a store before, between and after them,
/// it says of the joined list. So what each call says of itself holds of any list of calls.
pub fn calls_join<D: Disk + Drop, A: Allocator>(
    before: &Store<D, A>,
    between: &Store<D, A>,
    after: &Store<D, A>,
)
    ensures { (first second : List Call) → Goes D.medium before.now between.now first
        → Goes D.medium between.now after.now second
        → Goes D.medium before.now after.now (first ++ second) }
{}

/// Whatever its disk, and even after a failed call, what a store reports is what some recording says. That recording
/// alone decides each answer except a read's (`Goes`).
pub fn a_store_tells<D: Disk + Drop, A: Allocator>(store: &Store<D, A>)
    ensures { TellsOne store.now }
{
    let _index = &store.index;
}

/// A store stands for some recording, whether its disk is known to be honest or, as with a file, known not to be.
pub fn a_store_stands<D: Disk + Drop, A: Allocator>(store: &Store<D, A>)
    ensures { (D.medium store.now.disk).honest ⊎ ((D.medium store.now.disk).honest → ⊥)
        → (r : Recording) × StandsFor D.medium store.now r }
{
    let _index = &store.index;
}

/// On an honest disk, a store that needn't be reopened stands for the recording that the disk holds, as if it had been
/// opened on these bytes.
pub fn a_store_is_opened<D: Disk + Drop, A: Allocator>(store: &Store<D, A>)
    ensures { store.now.must_reopen ≡ false → (D.medium store.now.disk).honest
        → IsOpened D.medium (D.medium store.now.disk).bytes store.now }
{
    let _index = &store.index;
}
