//! What a camera's stores hold, for those who ask while their disks are busy.
//!
//! The thread of the desks has them at places, in the order in which they came: the first is the one that was filmed
//! into first. Users know a store by its number, which its file's name has. Clips have here the ids that users know, of
//! which each is in one store alone (`clip_id_in`).

ghost use Rattle.std.specs.Prelude.{◌≡◌, ◌<◌};
ghost use Rattle.loop_station_core.specs.Sets.{store_of};

use loop_record::Geometry;
use loop_station_core::{held_after, holds_back, id_parts, keeps_in, opens_before};
use loop_station_outside::Absent;
use loop_station_words::{MAX_STORES, duration_of, frames_in, free_blocks, newest_block};
use loop_store::Clip;
use std::alloc::Global;
use std::sync::atomic::{AtomicU64, Ordering};
use std::sync::{Condvar, Mutex, Wait};
use std::time::{Clock, Duration};

/// What is known of the camera's files that aren't open yet.
#[derive(Clone, Copy, PartialEq, Eq)]
pub enum Elsewhere {
    /// One of them has a free segment, so it takes frames before a block goes.
    Roomy,
    /// The oldest frame in them has this sequence; `newest` is that of the newest frame of all.
    From { newest: u32, oldest: u32 },
    /// No frame is known in any.
    Nothing,
}

/// A store that is open.
#[derive(Drop)]
pub struct Member {
    /// The number of its file; none where the camera has one store.
    pub number: Option<u32>,
    /// The device and the inode of its file.
    pub file: Option<(u64, u64)>,
    pub geometry: Geometry,
    /// Its next number.
    pub next: u64,
    /// How many frames it held when it was opened, and its next number then.
    pub held: u64,
    pub began: u64,
    /// How many frames had room in it before a block goes, when it was opened.
    pub room: u64,
    /// The sequences of the first frames of its blocks that may go, the oldest first.
    pub firsts: Vec<u32>,
    /// What was known then of the files that weren't open yet.
    pub elsewhere: Elsewhere,
    pub clips: Vec<Clip>,
}

#[derive(Drop)]
struct Inside {
    // Each at its place at the back.
    members: Vec<Member>,
    // The one whose desk waits at the door.
    coming: Option<Member>,
    // How many there are to be.
    wanted: u32,
    // Files of the camera are there that aren't open yet.
    opening: bool,
    // Stores that aren't there are made.
    making: bool,
    // How many frames have room in those that are open before one has to go that isn't the oldest of all, how many were
    // taken before that, and how many were taken though there was none.
    room: u64,
    from: u64,
    forced: u64,
    // The filming ends: no further store is opened or made.
    closing: bool,
    // The numbers of the stores that failed, and until when each is left alone.
    failed: Vec<(u32, u64)>,
    // The numbers of the files that are there, may have clips, and aren't open; and why not.
    unopened: Vec<(u32, Absent)>,
}

/// What a camera's stores hold: their next numbers, and their clips. The thread of the desks says what it changes.
#[derive(Drop)]
pub struct Stored {
    inside: Mutex<Inside>,
    changed: Condvar,
    period: AtomicU64,
}

/// How many stores are open, how many there are to be, and how many microseconds those that are open hold.
#[derive(Clone, Copy)]
pub struct Extent {
    pub open: u32,
    pub wanted: u32,
    pub held: u64,
}

/// What the stores hold and have room for, all at one moment: between two looks a store may join.
#[derive(Clone, Copy)]
pub struct Room {
    /// How many frames were stored since the stores that are open were made.
    pub stored: u64,
    /// How many blocks they have, but the newest one of each, which never goes.
    pub blocks: u64,
    /// How many of these may still be locked before none can be used again.
    pub free: u64,
    /// How many keeps of so many seconds have room.
    pub keeps: u64,
    /// How far the stores are open, where there are to be several.
    pub extent: Option<Extent>,
}

impl Stored {
    /// No store.
    pub fn new(alloc: Global) -> Stored {
        Stored {
            inside: Mutex::new(Inside {
                members: Vec::new(alloc),
                coming: None,
                wanted: 1,
                opening: false,
                making: false,
                room: 0,
                from: 0,
                forced: 0,
                closing: false,
                failed: Vec::new(alloc),
                unopened: Vec::new(alloc),
            }),
            changed: Condvar::new(),
            period: AtomicU64::new(0),
        }
    }

    /// The first store of a filming is open, of so many that there are to be. `opening`: files of others are there.
    /// Where memory is refused, `status` tells that nothing is stored.
    pub fn begin<R: Wait>(&self, rt: &R, member: Member, wanted: u32, opening: bool) {
        let mut inside = self.inside.lock(rt);
        self.period
            .store(duration_of(1, &member.geometry), Ordering::SeqCst);
        inside.members.clear();
        inside.unopened.clear();
        inside.forced = 0;
        let elsewhere = member.elsewhere;
        let _untold = inside.members.push(member);
        inside.room = inside.room_before(elsewhere);
        inside.coming = None;
        inside.wanted = wanted;
        inside.opening = opening;
        inside.closing = false;
    }

    /// The desk of a further store is about to be put at the door.
    pub fn announce<R: Wait>(&self, rt: &R, member: Member) {
        self.inside.lock(rt).coming = Some(member);
    }

    /// The back has so many desks now: where that is one more, the store that was announced has joined. Returns its
    /// place.
    pub fn join<R: Wait>(&self, rt: &R, count: usize) -> Option<usize> {
        let mut inside = self.inside.lock(rt);
        let place = inside.members.len();
        if place >= count {
            return None;
        }
        let member = inside.coming.take()?;
        let elsewhere = member.elsewhere;
        // Where memory is refused, nothing finds the store's clips until the camera is filmed anew.
        let _unfound = inside.members.push(member);
        inside.room = inside.room_before(elsewhere);
        self.changed.notify_all();
        Some(place)
    }

    /// Waits until the store that was announced has joined, for so long at most.
    pub fn wait_joined<R: Wait + Clock>(&self, rt: &R, most: Duration) -> bool {
        let (inside, _) = self
            .changed
            .wait_timeout_while(rt, self.inside.lock(rt), most, |inside| {
                inside.coming.is_some() && !inside.closing
            });
        inside.coming.is_none()
    }

    /// Each file of the camera that is there is open, or can't be used.
    pub fn all_open<R: Wait>(&self, rt: &R) {
        let mut inside = self.inside.lock(rt);
        inside.opening = false;
        for member in inside.members.as_mut_slice() {
            member.firsts.clear();
        }
    }

    /// So many frames were taken before the stores that are open.
    pub fn count_from<R: Wait>(&self, rt: &R, taken: u64) {
        self.inside.lock(rt).from = taken;
    }

    /// Whether frames wait for further stores, of which so many were taken: `is_full`: no more may wait. One that is
    /// taken then is counted.
    pub fn holds_back<R: Wait>(&self, rt: &R, taken: u64, is_full: bool) -> bool {
        let mut inside = self.inside.lock(rt);
        // Those for which there was no room have taken none.
        let taken = taken
            .saturating_sub(inside.from)
            .saturating_sub(inside.forced);
        if holds_back(inside.opening, taken, inside.room, is_full) {
            return true;
        }
        if holds_back(inside.opening, taken, inside.room, false) {
            inside.forced = inside.forced.saturating_add(1);
        }
        false
    }

    /// How many were taken for which there was no room but that of blocks which may not be the oldest. They are
    /// forgotten then.
    pub fn take_forced<R: Wait>(&self, rt: &R) -> u64 {
        let mut inside = self.inside.lock(rt);
        let forced = inside.forced;
        inside.forced = 0;
        forced
    }

    /// Whether files of the camera are there that aren't open yet.
    pub fn is_opening<R: Wait>(&self, rt: &R) -> bool {
        self.inside.lock(rt).opening
    }

    /// The files that are there aren't opened, as where memory or a thread is refused: nobody waits for them.
    pub fn leave_others<R: Wait>(&self, rt: &R) {
        if self.is_opening(rt) {
            self.set_unopened(rt, MAX_STORES, Some(Absent::NoBuffers));
        }
        self.all_open(rt);
    }

    /// The file of a number is there, and isn't open, for this reason; or it is open, or no file.
    pub fn set_unopened<R: Wait>(&self, rt: &R, number: u32, why: Option<Absent>) {
        let mut inside = self.inside.lock(rt);
        if let Some(at) = inside.unopened.iter().position(|known| known.0 == number) {
            inside.unopened.remove(at);
        }
        if let Some(why) = why.filter(|why| why.may_have_clips()) {
            // Where memory is refused, a save of an event doesn't know of its clips.
            let _unknown = inside.unopened.push((number, why));
        }
    }

    /// Why the file of a number isn't open, where it is there.
    pub fn explain_unopened<R: Wait>(&self, rt: &R, number: u32, why: Absent) {
        let is_there = self
            .inside
            .lock(rt)
            .unopened
            .iter()
            .any(|known| known.0 == number);
        if is_there {
            self.set_unopened(rt, number, Some(why));
        }
    }

    /// Why a store of the camera that is there, and may have clips, isn't open, if one isn't.
    pub fn unopened<R: Wait>(&self, rt: &R) -> Option<Absent> {
        let inside = self.inside.lock(rt);
        if inside.opening {
            return Some(Absent::Opening);
        }
        inside.unopened.first().map(|known| known.1)
    }

    /// Stores of the camera that aren't there are made, or none is any more.
    pub fn set_making<R: Wait>(&self, rt: &R, making: bool) {
        self.inside.lock(rt).making = making;
    }

    /// Whether stores of the camera are made: each of them has room.
    pub fn is_making<R: Wait>(&self, rt: &R) -> bool {
        self.inside.lock(rt).making
    }

    /// No filming ends: a store may be made.
    pub fn reopen<R: Wait>(&self, rt: &R) {
        self.inside.lock(rt).closing = false;
    }

    /// The store of a number failed, and is left alone until this time. Returns whether it wasn't already.
    pub fn leave_alone<R: Wait>(&self, rt: &R, number: u32, until: u64) -> bool {
        let mut inside = self.inside.lock(rt);
        for failed in inside.failed.as_mut_slice() {
            if failed.0 == number {
                failed.1 = until;
                return false;
            }
        }
        // Where memory is refused, it is tried again at once.
        inside.failed.push((number, until)).is_ok()
    }

    /// Whether the store of a number is left alone at this time.
    pub fn is_left_alone<R: Wait>(&self, rt: &R, number: u32, now: u64) -> bool {
        let inside = self.inside.lock(rt);
        inside
            .failed
            .iter()
            .any(|failed| failed.0 == number && now < failed.1)
    }

    /// The filming ends.
    pub fn close<R: Wait>(&self, rt: &R) {
        self.inside.lock(rt).closing = true;
        self.changed.notify_all();
    }

    /// Whether it does.
    pub fn is_closing<R: Wait>(&self, rt: &R) -> bool {
        self.inside.lock(rt).closing
    }

    /// This many frames were stored at a place.
    pub fn grow<R: Wait>(&self, rt: &R, place: usize, count: u32) {
        let mut guard = self.inside.lock(rt);
        let inside = &mut *guard;
        let Some(member) = inside.members.get_mut(place) else {
            return;
        };
        member.next = member.next.saturating_add(u64::from(count));
        if count > 0 {
            let number = member.number.unwrap_or(0);
            forgive(&mut inside.failed, number);
        }
    }

    /// The number of the store at a place.
    pub fn number_at<R: Wait>(&self, rt: &R, place: usize) -> u32
        ensures { result < 256 }
    {
        let number = match self.inside.lock(rt).members.get(place) {
            Some(member) => member.number.unwrap_or(0),
            None => 0,
        };
        number.min(MAX_STORES - 1)
    }

    /// The place of the store of a number.
    pub fn place_of<R: Wait>(&self, rt: &R, number: u32) -> Option<usize> {
        self.inside
            .lock(rt)
            .members
            .iter()
            .position(|member| member.number.unwrap_or(0) == number)
    }

    /// The store with the least number from this one on: its number, and its place.
    pub fn next_from<R: Wait>(&self, rt: &R, from: u32) -> Option<(u32, usize)> {
        let inside = self.inside.lock(rt);
        let mut least: Option<(u32, usize)> = None;
        for (place, member) in inside.members.iter().enumerate() {
            let number = member.number.unwrap_or(0);
            least = match least {
                Some((low, at)) if low <= number => Some((low, at)),
                _ if number >= from => Some((number, place)),
                _ => least,
            };
        }
        least
    }

    /// The device and the inode of each store's file, by its number.
    pub fn files<R: Wait>(&self, rt: &R, alloc: Global) -> Vec<(u32, (u64, u64))> {
        let inside = self.inside.lock(rt);
        let mut files = Vec::new(alloc);
        for member in inside.members.as_slice() {
            if let (Some(number), Some(file)) = (member.number, member.file) {
                // Where memory is refused, it is looked at the next time.
                let _later = files.push((number, file));
            }
        }
        files
    }

    /// Clips were locked at a place.
    pub fn add<R: Wait>(&self, rt: &R, place: usize, clips: &[Clip]) {
        if let Some(member) = self.inside.lock(rt).members.get_mut(place) {
            // Where memory is refused, `status` tells more room than there is until the store is opened again.
            let _more = member.clips.extend_from_slice(clips);
        }
    }

    /// A clip was released.
    pub fn remove<R: Wait>(&self, rt: &R, id: u32) {
        let mut inside = self.inside.lock(rt);
        for member in inside.members.as_mut_slice() {
            if let Some(at) = member.clips.iter().position(|clip| clip.id == id) {
                member.clips.remove(at);
            }
        }
    }

    /// The clips of all stores that are open. None where memory is refused.
    pub fn clips<R: Wait>(&self, rt: &R, alloc: Global) -> Option<Vec<Clip>> {
        let inside = self.inside.lock(rt);
        let mut clips = Vec::new(alloc);
        for member in inside.members.as_slice() {
            clips.extend_from_slice(member.clips.as_slice()).ok()?;
        }
        Some(clips)
    }

    /// The clips with a tag, of the store at a place.
    pub fn tagged_at<R: Wait>(&self, rt: &R, alloc: Global, place: usize, tag: u64) -> Vec<Clip> {
        let inside = self.inside.lock(rt);
        let mut tagged = Vec::new(alloc);
        if let Some(member) = inside.members.get(place) {
            for clip in member.clips.as_slice() {
                if clip.tag == tag {
                    // Where memory is refused, it isn't named at the event's end.
                    let _ = tagged.push(*clip);
                }
            }
        }
        tagged
    }

    /// How many microseconds a frame lasts, as the store has it; 0 where there was no store yet.
    pub fn period(&self) -> u64 {
        self.period.load(Ordering::SeqCst)
    }

    /// How many blocks were begun in all stores: it grows with each block.
    pub fn newest_block<R: Wait>(&self, rt: &R) -> u64 {
        let mut blocks = 0u64;
        for member in self.inside.lock(rt).members.as_slice() {
            if member.next > 0 {
                let begun = newest_block(&member.geometry, member.next).saturating_add(1);
                blocks = blocks.saturating_add(begun);
            }
        }
        blocks.saturating_sub(1)
    }

    /// What the stores hold now, and how many keeps of so many seconds have room.
    pub fn room<R: Wait>(&self, rt: &R, seconds: u32) -> Room {
        let inside = self.inside.lock(rt);
        let (mut stored, mut blocks, mut free) = (0u64, 0u64, 0u64);
        for member in inside.members.as_slice() {
            let but_one = u64::from(member.geometry.segments).saturating_sub(1);
            let room = free_blocks(&member.geometry, member.next, member.clips.as_slice());
            stored = stored.saturating_add(member.next);
            blocks = blocks.saturating_add(but_one);
            free = free.saturating_add(room);
        }
        Room {
            stored,
            blocks,
            free,
            keeps: inside.keeps(free, seconds),
            extent: inside.extent(),
        }
    }

    /// How many stores there are to be.
    pub fn wanted<R: Wait>(&self, rt: &R) -> u32 {
        self.inside.lock(rt).wanted
    }
}

impl Inside {
    // How many frames have room in the stores that are open before a block goes that isn't the oldest of all, counted
    // from when each was opened: what was free, and the blocks that are older than all that is elsewhere.
    fn room_before(&self, elsewhere: Elsewhere) -> u64 {
        let mut room = 0u64;
        for member in self.members.as_slice() {
            let mut blocks = 0u64;
            for first in member.firsts.as_slice() {
                let goes = match elsewhere {
                    Elsewhere::Roomy => false,
                    Elsewhere::From { newest, oldest } => opens_before(newest, *first, oldest),
                    Elsewhere::Nothing => true,
                };
                blocks = blocks.saturating_add(u64::from(goes));
            }
            let slots = u64::from(member.geometry.slots);
            room = room
                .saturating_add(member.room)
                .saturating_add(blocks.saturating_mul(slots));
        }
        room
    }

    // How many keeps of so many seconds have room in so many blocks.
    fn keeps(&self, free: u64, seconds: u32) -> u64 {
        let Some(first) = self.members.as_slice().first() else {
            return 0;
        };
        let geometry = &first.geometry;
        let frames = frames_in(
            u64::from(seconds),
            geometry.rate_num,
            geometry.rate_den.max(1),
        );
        keeps_in(free, frames, u64::from(geometry.slots.max(1)))
    }

    // How far the stores are open, where there are to be several.
    fn extent(&self) -> Option<Extent> {
        if self.wanted <= 1 {
            return None;
        }
        let mut held = 0u64;
        for member in self.members.as_slice() {
            let frames = held_after(
                member.geometry.segments,
                member.geometry.slots,
                member.held,
                member.began,
                member.next,
            );
            held = held.saturating_add(duration_of(frames, &member.geometry));
        }
        Some(Extent {
            open: u32::try_from(self.members.len()).unwrap_or(u32::MAX),
            wanted: self.wanted,
            held,
        })
    }
}

// A flush into the store of a number came through: it is none of those that failed.
fn forgive(failed: &mut Vec<(u32, u64)>, number: u32) {
    if let Some(at) = failed.iter().position(|known| known.0 == number) {
        failed.remove(at);
    }
}

/// The number of the store that has the clip of an id.
pub fn store_of(id: u32) -> u32
    ensures { result ≡ store_of id }
{
    id_parts(id).0
}
