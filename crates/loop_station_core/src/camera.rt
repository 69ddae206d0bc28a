//! A camera's life: whether it is filmed, when a filming ends and what follows, and the state of its source.

ghost use Rattle.std.specs.Prelude.{◌≡◌, ◌≢◌, ◌↔◌, ◌⊎◌, IsTrue, false};
ghost use Rattle.loop_station_core.specs.Cameras.{after_filming, is_silent, source_seen, step_camera, step_filming, step_source, without_store};

use crate::SourceSeen;

// A source is silent after so many microseconds without a byte,
const SILENT: u64 = 2_000_000;

// or after so many frames' time, where that is longer.
const SILENT_FRAMES: u64 = 3;

/// What happens to the filming of a camera.
#[derive(Clone, Copy)]
pub enum FilmingEvent {
    /// The program ends.
    Stop,
    /// The store is open, and a filming begins.
    Begin,
    /// A flush stored so many frames.
    Store(u32),
    /// A flush was refused because each block is locked.
    AllLocked,
    /// Disk, desk or queue is broken.
    Break,
    /// The store's path names another file by now, or none.
    Move,
    /// The filming has ended, whether or not the store has to be opened again.
    End(bool),
    /// The store isn't there: it couldn't be opened or made, or its filming has ended.
    Leave,
}

/// What happens to the source of a camera.
#[derive(Clone, Copy)]
pub enum SourceEvent {
    /// It can't be opened.
    Missing,
    /// It gives what no store takes.
    Unusable,
    /// Its header came, whose frames are as the store has them or not. Where there is no store, they are.
    Offer(bool),
    /// It has ended.
    Close,
    /// Its thread waits for a byte from this time on.
    Wait(u64),
    /// It waits no longer.
    Read,
    /// It is looked at, at this time; one of its frames lasts so many microseconds, 0 where that isn't known.
    Look(u64, u64),
}

/// What happens to a camera.
#[derive(Clone, Copy)]
pub enum Event {
    /// To its filming.
    Filming(FilmingEvent),
    /// To its source.
    Source(SourceEvent),
}

/// What follows for the thread that told what happened.
#[derive(Clone, Copy, PartialEq, Eq)]
pub enum Act {
    /// Nothing.
    GoOn,
    /// The flush is tried again.
    FlushAgain,
    /// The flush isn't tried again.
    GiveUp,
    /// The camera ends.
    Finish,
    /// A store is made anew, in the place of one that was moved away.
    MakeAnew,
    /// The store is opened again.
    OpenAgain,
    /// The source's frames are taken.
    Take,
    /// They are refused, and that is told.
    Refuse,
    /// They are refused, as was told before.
    RefuseAgain,
}

/// What decides whether a camera is filmed, and what is known of its source.
#[derive(Clone, Copy, Drop)]
pub struct Camera {
    /// The program ends.
    pub stopping: bool,
    /// The filming is to end: disk, desk or queue is broken, or the store was moved away.
    pub over: bool,
    /// Each block was locked at the last flush that was refused, and none has stored a frame since.
    pub locked: bool,
    /// The store was moved away.
    pub moved: bool,
    /// How often the store was opened again.
    pub faults: u64,
    /// The source's state, but for whether it is silent.
    pub source: SourceSeen,
    /// Since when its thread waits for a byte, if it does.
    pub waits: Option<u64>,
    /// It has waited for too long.
    pub silent: bool,
}

impl Camera {
    /// A camera that isn't filmed yet, and whose source wasn't looked for.
    pub fn new() -> Camera {
        Camera {
            stopping: false,
            over: false,
            locked: false,
            moved: false,
            faults: 0,
            source: SourceSeen::Missing,
            waits: None,
            silent: false,
        }
    }

    /// What a camera is after something happened, and what follows.
    pub fn on(self, event: Event) -> (Camera, Act)
        ensures { result ≡ step_camera self event }
    {
        match event {
            Event::Filming(event) => self.on_filming(event),
            Event::Source(event) => self.on_source(event),
        }
    }

    // After something happened to its filming.
    fn on_filming(self, event: FilmingEvent) -> (Camera, Act)
        ensures { result ≡ step_filming self event }
    {
        let mut camera = self;
        let act = match event {
            FilmingEvent::Stop => {
                camera.stopping = true;
                Act::GoOn
            }
            FilmingEvent::Begin => {
                camera.over = false;
                camera.locked = false;
                camera.moved = false;
                Act::GoOn
            }
            FilmingEvent::Store(count) => {
                camera.locked = self.locked && count == 0;
                Act::GoOn
            }
            FilmingEvent::AllLocked => {
                camera.locked = true;
                if self.stopping || self.over {
                    Act::GiveUp
                } else {
                    Act::FlushAgain
                }
            }
            FilmingEvent::Break => {
                camera.over = true;
                Act::GiveUp
            }
            FilmingEvent::Move => {
                camera.over = true;
                camera.moved = true;
                Act::GoOn
            }
            FilmingEvent::End(must_reopen) => self.after_filming(must_reopen),
            FilmingEvent::Leave => return self.without_store(),
        };
        (camera, act)
    }

    // What follows the end of a filming.
    fn after_filming(&self, must_reopen: bool) -> Act
        ensures { result ≡ after_filming self.now must_reopen }
    {
        if self.stopping {
            return if must_reopen {
                Act::OpenAgain
            } else {
                Act::Finish
            };
        }
        if self.moved {
            Act::MakeAnew
        } else {
            Act::OpenAgain
        }
    }

    // Its store isn't there.
    fn without_store(self) -> (Camera, Act)
        ensures { result ≡ without_store self }
    {
        let mut camera = self;
        if self.stopping {
            return (camera, Act::Finish);
        }
        if self.moved {
            camera.moved = false;
            return (camera, Act::MakeAnew);
        }
        camera.faults = self.faults.saturating_add(1);
        (camera, Act::OpenAgain)
    }

    // After something happened to its source.
    fn on_source(self, event: SourceEvent) -> (Camera, Act)
        ensures { result ≡ step_source self event }
    {
        let mut camera = self;
        match event {
            SourceEvent::Missing => camera.source = SourceSeen::Missing,
            SourceEvent::Unusable => camera.source = SourceSeen::Unusable,
            SourceEvent::Offer(true) => {
                camera.source = SourceSeen::On;
                return (camera, Act::Take);
            }
            SourceEvent::Offer(false) => {
                camera.source = SourceSeen::Other;
                let told = self.source == SourceSeen::Other;
                return (camera, if told { Act::RefuseAgain } else { Act::Refuse });
            }
            SourceEvent::Close => {
                if self.source == SourceSeen::On {
                    camera.source = SourceSeen::Missing;
                }
            }
            SourceEvent::Wait(now) => camera.waits = Some(now),
            SourceEvent::Read => {
                camera.waits = None;
                camera.silent = false;
            }
            SourceEvent::Look(now, frame) => camera.silent = self.is_silent(now, frame),
        }
        (camera, Act::GoOn)
    }

    // Whether its source is silent at a time: nothing came for two seconds, or for three frames.
    fn is_silent(&self, now: u64, frame: u64) -> bool
        ensures { result ≡ is_silent self.now now frame }
    {
        let most = SILENT.max(frame.saturating_mul(SILENT_FRAMES));
        match (self.source, self.waits) {
            (SourceSeen::On | SourceSeen::Missing, Some(since)) => now.saturating_sub(since)
                >= most,
            _ => false,
        }
    }

    /// The state of its source.
    pub fn source_seen(&self) -> SourceSeen
        ensures { result ≡ source_seen self.now }
    {
        if self.silent {
            SourceSeen::Silent
        } else {
            self.source
        }
    }

    /// Whether its filming goes on, when so many frames have come from the source and so many of them were taken.
    pub fn films(&self, come: u64, taken: u64) -> bool
        ensures { IsTrue result ↔ ((self.now.over ≡ false) × ((self.now.stopping ≡ false) ⊎ (come ≢ taken))) }
    {
        !self.over && (!self.stopping || come != taken)
    }
}
