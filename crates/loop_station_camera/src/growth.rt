//! How events grow whose end lies ahead: what has come of them is locked, up to their end.

ghost use Rattle.std.specs.Prelude.{◌≡◌};
ghost use Rattle.loop_station_camera.specs.Keeping.{GrowsByTurn};

use crate::growing::Growing;
use crate::keeping::{part_of, store_and_keep_more, turn_of};
use crate::reading::{UnreadClip, runs_of, times_of};
use crate::replies::{tell_clips, tell_shortfall, tell_unread_clips};
use crate::state::CameraState;
use crate::unlocking::unlock;
use loop_disk::Disk;
use loop_pipeline::Desks;
use loop_record::Times;
use loop_station_core::{EventEnd, GrowthTurn, Keep, OpenEvent, Run, event_end, next_growth};
use loop_station_shared::{Announcement, FoundClip};
use loop_station_words::Lines;
use loop_store::{Clip, StoreFault};
use std::alloc::Global;
use std::io;
use std::sync::Wait;
use std::time::Clock;

impl CameraState {
    /// An event goes on: its end lies ahead, and these clips of it are locked. That is told once it is in the file of
    /// events, on the disk. Returns whether it does: not where too many do.
    pub fn begin_growing<R: Wait>(
        &self,
        rt: &R,
        alloc: Global,
        keep: Keep,
        clips: Vec<Clip>,
        told: Announcement,
    ) -> bool {
        if self.put_event(rt, alloc, keep, clips) {
            self.note_open(rt, alloc, told);
            return true;
        }
        self.announce(rt, told);
        let mut lines = self.lines(alloc);
        // Where memory for the line is refused, it isn't printed.
        let _ = self.tell_too_many(keep.event, &mut lines);
        self.tell(rt, lines, None);
        false
    }

    /// The same of an event that was open when the program ended last. It isn't told.
    pub fn put_event<R: Wait>(&self, rt: &R, alloc: Global, keep: Keep, clips: Vec<Clip>) -> bool {
        self.desk
            .put_growing(rt, Growing::new(alloc, keep, clips))
            .is_none()
    }

    /// Tells of an event that too many go on.
    pub fn tell_too_many(&self, event: u64, lines: &mut Lines) -> io::Result<()> {
        lines.event_not_whole(event, self.config.name.as_str(), &"TooManyEvents", 0)
    }

    /// Clips with which no event goes on are saved by themselves, where the camera has a folder for them.
    pub(crate) fn save_found<R: Wait>(&self, rt: &R, alloc: Global, found: &[FoundClip]) {
        self.tell(rt, self.lines(alloc), self.kept_clips(alloc, found));
    }

    // An event is over, and these are its clips. Once that is in the file of events, it is told whether all of it is
    // held, or why that isn't known.
    fn end_growing<R: Wait>(
        &self,
        rt: &R,
        alloc: Global,
        growing: Growing,
        (found, unread): (&[FoundClip], &[UnreadClip]),
        (runs, fault): (&[Run], Option<StoreFault>),
    ) {
        let mut lines = self.lines(alloc);
        // Where memory for the lines is refused, they aren't printed.
        let _ = match fault {
            Some(fault) => self.tell_unread(&growing, found, unread, fault, &mut lines),
            None => self.tell_event(&growing, found, runs, &mut lines),
        };
        let kept = match self.kept_clips(alloc, found) {
            Some(kept) => kept,
            None => Vec::new(alloc),
        };
        self.desk.end_growing(rt);
        self.note_open(rt, alloc, Announcement::Told(lines, kept));
    }

    // Tells how an event ended of which not all times can be read: then it isn't known how much of it is held.
    fn tell_unread(
        &self,
        growing: &Growing,
        found: &[FoundClip],
        unread: &[UnreadClip],
        fault: StoreFault,
        lines: &mut Lines,
    ) -> io::Result<()> {
        let (name, keep) = (self.config.name.as_str(), growing.keep);
        tell_clips(self, &keep, found, lines)?;
        tell_unread_clips(self, &keep, unread, lines)?;
        let fault = growing.fault().unwrap_or(fault);
        lines.event_not_whole(keep.event, name, &fault.name(), 0)
    }

    // Tells how an event ended.
    fn tell_event(
        &self,
        growing: &Growing,
        found: &[FoundClip],
        runs: &[Run],
        lines: &mut Lines,
    ) -> io::Result<()> {
        let (name, keep) = (self.config.name.as_str(), growing.keep);
        tell_clips(self, &keep, found, lines)?;
        let (is_whole, lost) = tell_shortfall(self, &keep, keep.until, runs, lines)?;
        match (
            event_end(growing.fault().is_some(), is_whole),
            growing.fault(),
        ) {
            (EventEnd::Whole, _) => lines.event_whole(keep.event, name),
            (EventEnd::Refused, Some(fault)) => {
                lines.event_not_whole(keep.event, name, &fault.name(), lost)
            }
            (EventEnd::Refused | EventEnd::Gaps, _) => {
                lines.event_not_whole(keep.event, name, &"Gaps", lost)
            }
        }
    }

    /// The events that are open now go into the camera's file of events, and then this is told. Where there is no
    /// memory for them, the thread of that file looks for them.
    pub fn note_open<R: Wait>(&self, rt: &R, alloc: Global, told: Announcement) {
        match self.open_events(rt, alloc) {
            Some(open) => self.notes.note(rt, open, told),
            None => self.notes.look(rt, told),
        }
    }

    /// The events that are open now. None where memory is refused.
    pub fn open_events<R: Wait>(&self, rt: &R, alloc: Global) -> Option<Vec<OpenEvent>> {
        let keeps = self.desk.keeps(rt, alloc)?;
        let mut open = Vec::new(alloc);
        for keep in keeps.as_slice() {
            let event = OpenEvent {
                event: keep.event,
                since: keep.since,
                until: keep.until,
                tag: keep.tag,
            };
            if open.push(event).is_err() {
                return None;
            }
        }
        Some(open)
    }
}

/// Goes on with an event of which a part is locked. A part that a longer one covers is released; at the end it is told
/// that the event is whole, or why it isn't.
pub(crate) fn grow<R: Wait + Clock, D: Disk + Drop>(
    rt: &R,
    alloc: Global,
    state: &CameraState,
    desks: &mut Desks<D, CameraState>,
    growing: Growing,
)
    ensures { desks.new.lent ≡ desks.old.lent }
{
    let (now, stopping) = (state.timeline.now(rt), state.is_stopped(rt));
    match next_growth(
        growing.has_covered(),
        growing.is_done(),
        stopping,
        now,
        growing.keep.until,
    ) {
        GrowthTurn::Release => release_covered(rt, state, desks, growing),
        GrowthTurn::End => {
            let (mut found, unread) = times_of(rt, alloc, state, desks, growing.clips());
            let (runs, unsearched) = runs_of(rt, alloc, state, desks, found.as_mut_slice());
            let fault = unread.first().map(|one| one.fault).or(unsearched);
            state.end_growing(rt, alloc, growing, (&found, &unread), (&runs, fault));
        }
        GrowthTurn::Leave => {
            state.desk.put_growing(rt, growing);
        }
        GrowthTurn::Keep => lengthen(rt, alloc, state, desks, growing),
    }
}

// Releases a part of an event that a longer one covers, unless a save reads it.
fn release_covered<R: Wait, D: Disk + Drop>(
    rt: &R,
    state: &CameraState,
    desks: &mut Desks<D, CameraState>,
    growing: Growing,
)
    ensures { desks.new.lent ≡ desks.old.lent }
{
    let mut growing = growing;
    if let Some(part) = growing.next_covered() {
        let is_read = state.is_read(rt, part.id, Some(part.tag));
        if let Some(leave) = growing.leave_for(part, is_read) {
            // Where that is refused, it stays locked.
            let _stays = unlock(rt, state, desks, leave);
        }
    }
    state.desk.put_growing(rt, growing);
}

// Locks what has come of an event, if its keep doesn't wait.
fn lengthen<R: Wait + Clock, D: Disk + Drop>(
    rt: &R,
    alloc: Global,
    state: &CameraState,
    desks: &mut Desks<D, CameraState>,
    growing: Growing,
)
    ensures turn { GrowsByTurn D.medium growing.keep desks.old.lent.active desks.old.desks desks.new.desks }
    ensures lent { desks.new.lent ≡ desks.old.lent }
{
    let mut growing = growing;
    let (keep, turn) = turn_of(rt, state, growing.keep);
    growing.keep = keep;
    let part = match part_of(keep, turn) {
        Some(part) => part,
        None => {
            state.desk.put_growing(rt, growing);
            return;
        }
    };
    let times = Times {
        since: keep.since,
        until: part.until,
    };
    let (kept, refused) = store_and_keep_more(rt, alloc, state, desks, times, &mut growing);
    let refused = refused.or(state.locked_fault(rt));
    growing.lengthen(alloc, kept, refused, part.is_whole);
    state.desk.put_growing(rt, growing);
}
