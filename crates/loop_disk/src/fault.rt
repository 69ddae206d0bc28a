ghost use Rattle.std.specs.Prelude.{◌≡◌, Some};
ghost use Rattle.loop_disk.specs.Calls.{failed_call, no_failures, with_failed};

use thiserror::Error;

/// The call of a disk that failed.
#[derive(Clone, Copy, Debug, PartialEq, Eq, Error)]
pub enum DiskFault {
    /// Nothing is known of the buffer's bytes.
    #[error("a read failed")]
    Read,
    /// Any prefix of the bytes may be on the disk, and any part of them after a crash.
    #[error("a write failed")]
    Write,
    /// What was written since the last sync may be lost by a crash, as before.
    #[error("a sync failed")]
    Sync,
}

/// How many calls of each kind have failed; each count stops at 2^64 - 1.
#[derive(Clone, Copy, Debug, PartialEq, Eq)]
pub struct Failures {
    /// Reads that failed.
    pub reads: u64,
    /// Writes that failed.
    pub writes: u64,
    /// Syncs that failed.
    pub syncs: u64,
}

impl Failures {
    /// None has failed.
    pub fn none() -> Failures
        ensures { result ≡ no_failures }
    {
        Failures {
            reads: 0,
            writes: 0,
            syncs: 0,
        }
    }

    /// Counts a failed call.
    pub(crate) fn count(&mut self, fault: DiskFault)
        ensures { self.new ≡ with_failed (Some fault) self.old }
    {
        match fault {
            DiskFault::Read => self.reads = self.reads.saturating_add(1),
            DiskFault::Write => self.writes = self.writes.saturating_add(1),
            DiskFault::Sync => self.syncs = self.syncs.saturating_add(1),
        }
    }

    /// Returns the answer of a call, and counts it if it failed: for a disk that wraps another.
    pub fn note(&mut self, outcome: Result<(), DiskFault>) -> Result<(), DiskFault>
        ensures same { result ≡ outcome }
        ensures counted { self.new ≡ with_failed (failed_call outcome) self.old }
    {
        if let Err(fault) = outcome {
            self.count(fault);
        }
        outcome
    }
}
