// What happened to a disk before, as data for proofs. It takes no memory, and its calls do nothing when the program
// runs.
ghost use Rattle.std.specs.Prelude.{◌≡◌};
ghost use Rattle.std.specs.Borrow.{ftrue};
ghost use Rattle.loop_disk.specs.Behind.{Behind, nothing_yet, behind_after};

use std::marker::Model;

/// What happens to a disk.
#[derive(Clone, Copy, Drop)]
pub enum DiskEvent<'a> {
    /// It begins with these bytes.
    Began(&'a [u8]),
    /// So many bytes are written from this place on; these were there before, from the disk's first on.
    Wrote(&'a [u8], u64, usize),
    /// It is synced, with these bytes.
    Synced(&'a [u8]),
    /// A read gave these bytes, from this place on.
    Gave(u64, &'a [u8]),
}

/// What happened to a disk, only for contracts: it is empty when the program runs.
#[derive(Drop)]
pub struct Past {
    ghost behind: { Behind },
}

impl Model for Past {
    ghost also_owns = { λ _. ftrue };
}

// It owns nothing.
unsafe impl Send for Past {}

unsafe impl Sync for Past {}

impl Past {
    /// Nothing has happened yet.
    pub fn none() -> Past
        ensures { result.behind ≡ nothing_yet }
    {
        Past {}
    }

    /// What happened before, and this event.
    pub fn after(&self, _event: &DiskEvent<'_>) -> Past
        ensures { result.behind ≡ behind_after self.now.behind _event.now }
    {
        Past {}
    }
}
