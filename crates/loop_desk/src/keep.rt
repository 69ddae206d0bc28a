//! The held frames of a time, locked at a desk: each run of their numbers becomes a clip.

ghost use Rattle.std.specs.Prelude.{◌≡◌, ◌≤◌, List, None, Some, [], length, vec_len};
ghost use Rattle.std.specs.Result.{result_err};
ghost use Rattle.std.specs.Vec.{vec_capacity};
ghost use Rattle.loop_desk.specs.Desk.{DeskCall};
ghost use Rattle.loop_desk.specs.Seen.{DeskGoes};
ghost use Rattle.loop_desk.specs.Keeps.{AreLocks, HaveTime, KeepsTime};

use crate::Desk;
use loop_disk::Disk;
use loop_record::{Span, Times};
use loop_store::{Clip, StoreFault};
use std::alloc::{Allocator, Global};

/// What a keep locked.
#[derive(Drop)]
pub struct Kept<A: Allocator = Global> {
    /// The clips that were locked, in the order of their numbers.
    pub clips: Vec<Clip, A>,
    /// Why no further one was locked; None if each frame of the time is in a clip.
    pub fault: Option<StoreFault>,
}

// Locks runs with a tag, from the first on, until one is refused; collects their clips.
fn lock_runs<D: Disk + Drop, A: Allocator + Copy>(
    desk: &mut Desk<D, A>,
    tag: u64,
    runs: &[Span],
    clips: &mut Vec<Clip, A>,
) -> Result<(), StoreFault>
    requires empty { (clips.old.items ≡ []) × (vec_len clips.old ≡ 0) }
    requires room { length runs.now ≤ vec_capacity clips.old }
    ensures { (calls : List DeskCall) × (DeskGoes D.medium desk.old desk.new calls
        × AreLocks tag runs.now clips.new.items (result_err result) calls) }
{
    desk.opens();
    for run in runs {
        let Span { from, to, tag: _ } = *run;
        let id = desk.lock_clip(from, to, tag)?;
        clips.push_reserved(Clip { id, from, to, tag });
    }
    Ok(())
}

// The clips that were locked before a refusal.
fn refused<A: Allocator>(clips: Vec<Clip, A>, fault: StoreFault) -> Kept<A>
    ensures { result ≡ record { clips = clips; fault = Some fault } }
{
    Kept {
        clips,
        fault: Some(fault),
    }
}

// Locks the held frames of a time at a desk: a clip for each run of their numbers.
fn keep_at<D: Disk + Drop, A: Allocator + Copy>(
    alloc: A,
    desk: &mut Desk<D, A>,
    times: Times,
    tag: u64,
) -> Kept<A>
    ensures { KeepsTime D.medium times tag desk.old desk.new result }
{
    desk.opens();
    let runs = match desk.sought(alloc, times) {
        Ok(runs) => runs,
        Err(fault) => return refused(Vec::new(alloc), fault),
    };
    let Ok(mut clips) = Vec::with_capacity(alloc, runs.len()) else {
        return refused(Vec::new(alloc), StoreFault::NoMemory);
    };
    match lock_runs(desk, tag, runs.as_slice(), &mut clips) {
        Ok(()) => Kept { clips, fault: None },
        Err(fault) => refused(clips, fault),
    }
}

impl<D: Disk + Drop, A: Allocator + Copy> Desk<D, A> {
    /// Locks the held frames of a time with a tag: a clip for each run of their numbers, in order, until one is
    /// refused. The clips before it stay locked. A frame that waits isn't held yet.
    ///
    /// `MustReopen` if a call that writes has failed; then `NoMemory`; both before anything is locked. A lock is
    /// refused as by `lock_clip`.
    pub fn keep_time(&mut self, alloc: A, times: Times, tag: u64) -> Kept<A>
        ensures goes { KeepsTime D.medium times tag self.old self.new result }
        ensures whole { result.fault ≡ None → HaveTime times self.old result.clips.items }
    {
        keep_at(alloc, self, times, tag)
    }
}
