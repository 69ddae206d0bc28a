//! What is known and counted of a camera, under one lock: its filming, its source and its store, as loop_station_core
//! has them, and what its source and its store know of each other.

use loop_record::Geometry;
use loop_script::{Likeness, compare_frames};
use loop_station_core::{Act, Camera, Event, FilmingEvent, SourceEvent, SourceSeen, Tally};
use loop_station_words::duration_of;
use std::sync::{Condvar, Mutex, Wait};
use std::time::{Clock, Duration};

#[derive(Clone, Copy)]
struct Known {
    camera: Camera,
    tally: Tally,
    // Why the source is unusable, if it is, and the number of that cause: another one has another.
    unusable: &'static str,
    cause: u32,
    // What the source's header said last. The size of its ring means nothing.
    offered: Option<Geometry>,
    // How many bits its samples have.
    offered_bits: u32,
    // The geometry of the store.
    wanted: Option<Geometry>,
    // How many bits the samples of its frames have, once it has one.
    bits: Option<u32>,
    // The device and the inode of the store's file while it is recorded into.
    place: Option<(u64, u64)>,
    // How much of a store is made, in percent, while one is made, and the number of that, if it has one.
    making: Option<u32>,
    made: Option<u32>,
    // How long a sync of the store's disk takes, in microseconds.
    sync: Option<u64>,
}

/// What is known and counted of a camera.
#[derive(Drop)]
pub struct Life {
    known: Mutex<Known>,
    changed: Condvar,
}

impl Life {
    /// Neither the source nor the store is there, and nothing has come.
    pub fn new() -> Life {
        Life {
            known: Mutex::new(Known {
                camera: Camera::new(),
                tally: Tally::new(),
                unusable: "",
                cause: 0,
                offered: None,
                offered_bits: 8,
                wanted: None,
                bits: None,
                place: None,
                making: None,
                made: None,
                sync: None,
            }),
            changed: Condvar::new(),
        }
    }

    /// Something has happened to the camera's filming. Returns what follows.
    pub fn on<R: Wait>(&self, rt: &R, event: FilmingEvent) -> Act {
        happens(&mut self.known.lock(rt), Event::Filming(event))
    }

    /// The same of its source.
    pub fn on_source<R: Wait>(&self, rt: &R, event: SourceEvent) -> Act {
        happens(&mut self.known.lock(rt), Event::Source(event))
    }

    /// What decides whether it is filmed.
    pub fn camera<R: Wait>(&self, rt: &R) -> Camera {
        self.known.lock(rt).camera
    }

    /// The tally of its frames; so many have come.
    pub fn tally<R: Wait>(&self, rt: &R, come: u64) -> Tally {
        let mut known = self.known.lock(rt);
        known.tally = come_to(known.tally, come);
        known.tally
    }

    /// The desk took in a frame; so many have come.
    pub fn bring<R: Wait>(&self, rt: &R, come: u64) {
        let mut known = self.known.lock(rt);
        known.tally = come_to(known.tally, come).bring();
    }

    /// A frame was given up before it came to the desk.
    pub fn give_up<R: Wait>(&self, rt: &R, come: u64) {
        let mut known = self.known.lock(rt);
        known.tally = come_to(known.tally, come).give_up();
    }

    /// A flush stored so many frames.
    pub fn store_frames<R: Wait>(&self, rt: &R, count: u32) {
        let mut known = self.known.lock(rt);
        known.tally = known.tally.store(count);
        // Nothing follows.
        let _act = happens(&mut known, Event::Filming(FilmingEvent::Store(count)));
    }

    /// A filming has ended that lost this many frames on their way to the desk, after `before` were lost. Those that
    /// weren't counted yet are counted now.
    pub fn settle<R: Wait>(&self, rt: &R, come: u64, before: u64, lost: u64) {
        let mut known = self.known.lock(rt);
        let mut tally = come_to(known.tally, come);
        let counted = tally.lost().saturating_sub(before);
        for _ in counted..lost {
            tally = tally.give_up();
        }
        known.tally = tally;
    }

    /// Desk and queue are given up: of the first `taken` frames that came, each that isn't stored is lost.
    pub fn lose<R: Wait>(&self, rt: &R, come: u64, taken: u64) {
        let mut known = self.known.lock(rt);
        known.tally = come_to(known.tally, come).lose(taken);
    }

    /// The source gives what no store takes, by the name of the fault.
    pub fn set_unusable<R: Wait>(&self, rt: &R, why: &'static str) {
        let mut known = self.known.lock(rt);
        if known.unusable != why {
            known.unusable = why;
            known.cause = known.cause.wrapping_add(1);
        }
        // Nothing follows.
        let _act = happens(&mut known, Event::Source(SourceEvent::Unusable));
    }

    /// Why the source is unusable, and the number of that cause.
    pub fn unusable<R: Wait>(&self, rt: &R) -> (&'static str, u32) {
        let known = self.known.lock(rt);
        (known.unusable, known.cause)
    }

    /// Looks at this time whether the source is silent: open, with nothing to read.
    pub fn look<R: Wait>(&self, rt: &R, now: u64) {
        let mut known = self.known.lock(rt);
        let frame = match (known.camera.source, known.offered) {
            (SourceSeen::On, Some(geometry)) => duration_of(1, &geometry),
            _ => 0,
        };
        // Nothing follows.
        let _act = happens(&mut known, Event::Source(SourceEvent::Look(now, frame)));
    }

    /// The geometry of the store, once it is there.
    pub fn store<R: Wait>(&self, rt: &R) -> Option<Geometry> {
        self.known.lock(rt).wanted
    }

    /// The store is there, and has this geometry, and the samples of its frames so many bits, if it has frames. Returns
    /// whether the frames that came last are as it has them, or none have come.
    pub fn set_store<R: Wait>(&self, rt: &R, geometry: Geometry, bits: Option<u32>) -> bool {
        let mut known = self.known.lock(rt);
        known.wanted = Some(geometry);
        known.bits = bits;
        self.changed.notify_all();
        match known.offered {
            Some(offered) => fits(&mut known, &offered),
            None => true,
        }
    }

    /// The store isn't there any more, and one is made for the frames that come.
    pub fn lose_store<R: Wait>(&self, rt: &R) {
        let mut known = self.known.lock(rt);
        known.wanted = None;
        known.bits = None;
    }

    /// How many bits the samples have that the source's header said last, and those of the store's frames, once it has
    /// one.
    pub fn bits<R: Wait>(&self, rt: &R) -> (u32, Option<u32>) {
        let known = self.known.lock(rt);
        (known.offered_bits, known.bits)
    }

    /// The device and the inode of the store's file, while it is recorded into.
    pub fn place<R: Wait>(&self, rt: &R) -> Option<(u64, u64)> {
        self.known.lock(rt).place
    }

    /// Sets these.
    pub fn set_place<R: Wait>(&self, rt: &R, place: Option<(u64, u64)>) {
        self.known.lock(rt).place = place;
    }

    /// How much of the store is made, in percent, while it is made.
    pub fn making<R: Wait>(&self, rt: &R) -> Option<u32> {
        self.known.lock(rt).making
    }

    /// Sets that.
    pub fn set_making<R: Wait>(&self, rt: &R, percent: Option<u32>) {
        self.known.lock(rt).making = percent;
    }

    /// The number of the store that is made or was made last, if it has one.
    pub fn made_number<R: Wait>(&self, rt: &R) -> Option<u32> {
        self.known.lock(rt).made
    }

    /// Sets that.
    pub fn set_made<R: Wait>(&self, rt: &R, number: Option<u32>) {
        self.known.lock(rt).made = number;
    }

    /// How long a sync of the store's disk takes, in microseconds, once it is measured.
    pub fn sync<R: Wait>(&self, rt: &R) -> Option<u64> {
        self.known.lock(rt).sync
    }

    /// Sets that.
    pub fn set_sync<R: Wait>(&self, rt: &R, micros: u64) {
        self.known.lock(rt).sync = Some(micros);
    }

    /// What the source's header says. Waits for it, for so long at most.
    pub fn header<R: Wait + Clock>(&self, rt: &R, most: Duration) -> Option<Geometry> {
        let (known, _) = self
            .changed
            .wait_timeout_while(rt, self.known.lock(rt), most, |known| {
                known.offered.is_none()
            });
        known.offered
    }

    /// Offers what the source's header says, with a ring of any size, and how many bits its samples have. Returns
    /// whether the frames are as the store has them (`Act::Take`), or are refused. While there is no store they wait in
    /// memory for one.
    pub fn offer<R: Wait>(&self, rt: &R, geometry: Geometry, bits: u32) -> Act {
        let mut known = self.known.lock(rt);
        known.offered = Some(geometry);
        known.offered_bits = bits;
        self.changed.notify_all();
        let fits = fits(&mut known, &geometry);
        happens(&mut known, Event::Source(SourceEvent::Offer(fits)))
    }
}

// Whether frames that are offered are as the store has them, if it is there. The first ones say how many bits a sample
// has in it.
fn fits(known: &mut Known, offered: &Geometry) -> bool {
    let Some(wanted) = known.wanted else {
        return true;
    };
    let bits = known.bits.unwrap_or(known.offered_bits);
    if compare_frames(&wanted, offered) != Likeness::Alike || bits != known.offered_bits {
        return false;
    }
    known.bits = Some(bits);
    true
}

// Something happens to a camera. What follows.
fn happens(known: &mut Known, event: Event) -> Act {
    let (camera, act) = known.camera.on(event);
    known.camera = camera;
    act
}

// A tally of so many frames that have come.
fn come_to(tally: Tally, come: u64) -> Tally {
    let mut tally = tally;
    for _ in tally.come..come {
        tally = tally.comes();
    }
    tally
}

/// The name of a source's state, as `status` has it.
pub fn source_name(seen: SourceSeen) -> &'static str {
    match seen {
        SourceSeen::Missing => "missing",
        SourceSeen::Other => "other geometry",
        SourceSeen::Unusable => "unusable",
        SourceSeen::Silent => "silent",
        SourceSeen::On => "on",
    }
}
