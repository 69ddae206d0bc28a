//! The lines that are printed, as text and as JSON. docs/station.md says what each is. Here are the answers to orders;
//! `told` has what happens without one, `reloaded` a configuration that is read anew, and `listed` what a store holds.

mod listed;
mod reloaded;
mod told;

use crate::answers::{CameraStatus, StoresStatus, print_head};
use crate::choices::WhenFull;
use crate::part::Part::{Ahead, Count, Lasting, Maybe, Number, Seconds, Text, Time, Words};
use crate::part::{Part, UtcTime, json_line, text_line};
use json::Writer;
use listed::camera_json;
use loop_script::Listing;
use loop_store::{Clip, StoreFault};
use std::alloc::{Allocator, Global};
use std::fmt::Display;
use std::io;
use std::io::Write;

// How many bytes of a line that is no order are printed at most.
const MOST_OF_LINE: usize = 200;

// The orders, as `help` lists them.
const ORDERS: [&str; 14] = [
    "keep [CAMERA] [SECONDS] [+AFTER] [TAG]",
    "keep [CAMERA] from T to T [TAG]",
    "release CAMERA ID [FIRST]",
    "list",
    "save CAMERA ID OUT",
    "save! CAMERA ID OUT",
    "save CAMERA #TAG OUT",
    "save! CAMERA #TAG OUT",
    "cancel CAMERA ID",
    "status",
    "reload",
    "help",
    "stop",
    "@LABEL ORDER",
];

/// Lines, each as text and, where that is wanted, as a JSON object without its opening brace, so that a head may still
/// come before it. Each method adds a line, or nothing where memory is refused.
///
/// The object has `kind`, the name of the method, and the members that the method names, in that order. A time is a
/// text such as `2026-11-22T15:38:00.123Z`, in UTC; a duration is a number of microseconds, and its key ends in
/// `micros`.
#[derive(Drop)]
pub struct Lines {
    alloc: Global,
    text: Vec<u8>,
    json: Vec<u8>,
    // The lines are wanted as JSON too.
    with_json: bool,
}

// The tag of an event's clip that is told: not where the clip has none, or the event's number.
fn tag_told(clip: &Clip, event: u64) -> Option<u64> {
    if clip.tag == 0 || clip.tag == event {
        None
    } else {
        Some(clip.tag)
    }
}

impl Lines {
    /// No line yet. `json` says whether the lines are wanted as JSON too.
    pub fn new(alloc: Global, json: bool) -> Lines {
        Lines {
            alloc,
            text: Vec::new(alloc),
            json: Vec::new(alloc),
            with_json: json,
        }
    }

    /// The lines as text, each with its end.
    pub fn text(&self) -> &[u8] {
        &self.text
    }

    /// The lines as JSON, each with its end and without its opening brace; empty where JSON isn't wanted.
    pub fn json(&self) -> &[u8] {
        &self.json
    }

    /// Whether there is no line.
    pub fn is_empty(&self) -> bool {
        self.text.is_empty()
    }

    /// Adds other lines after these.
    pub fn add(&mut self, other: &Lines) -> io::Result<()> {
        self.append(&other.text, &other.json)
    }

    /// What a line of text begins with: the time of day, in UTC with milliseconds, and a label, if there are any.
    pub fn head<W: Write>(out: &mut W, time: Option<u64>, label: Option<&str>) -> io::Result<()> {
        print_head(out, time, label)
    }

    /// What a line of JSON begins with, up to its `kind`: `{"time":"2026-11-22T15:38:00.123Z","label":"me",`, where
    /// either may be left out.
    pub fn json_head<W: Write>(
        alloc: Global,
        out: &mut W,
        time: Option<u64>,
        label: Option<&str>,
    ) -> io::Result<()> {
        let mut head = Writer::new(Vec::new(alloc));
        head.begin_object()?;
        if let Some(micros) = time {
            let time = UtcTime(micros).to_string(alloc)?;
            head.key("time")?;
            head.string(time.as_str())?;
        }
        if let Some(label) = label {
            head.key("label")?;
            head.string(label)?;
        }
        out.write_all(&head.into_inner())?;
        if time.is_some() || label.is_some() {
            out.write_all(b",")?;
        }
        Ok(())
    }

    // Adds lines of text, and the same as JSON, or neither.
    fn append(&mut self, text: &[u8], json: &[u8]) -> io::Result<()> {
        let before = self.text.len();
        self.text.extend_from_slice(text)?;
        if let Err(refused) = self.json.extend_from_slice(json) {
            self.text.truncate(before);
            return Err(io::Error::from(refused));
        }
        Ok(())
    }

    // Adds a line of such parts.
    fn line(&mut self, kind: &str, parts: &[Part<'_>]) -> io::Result<()> {
        let text = text_line(self.alloc, parts)?;
        if !self.with_json {
            return self.append(&text, &[]);
        }
        let json = json_line(self.alloc, kind, parts)?;
        self.append(&text, &json)
    }

    // Adds a line of some words, a camera and some more words.
    fn camera_line<'a>(
        &mut self,
        kind: &str,
        words: &'a str,
        camera: &'a str,
        more: &'a str,
    ) -> io::Result<()> {
        self.line(kind, &[Words(words), Text("camera", camera), Words(more)])
    }

    // Adds a line of a camera, the id of a clip, a path and why.
    fn path_line<'a, Y: Display>(
        &mut self,
        kind: &str,
        words: &'a str,
        (camera, id, path): (&'a str, u32, &'a str),
        why: &Y,
    ) -> io::Result<()> {
        let why = why.to_string(self.alloc)?;
        self.line_of_path(kind, words, (camera, id, path), why.as_str())
    }

    // The same, of the words of why.
    fn line_of_path<'a>(
        &mut self,
        kind: &str,
        words: &'a str,
        (camera, id, path): (&'a str, u32, &'a str),
        why: &'a str,
    ) -> io::Result<()> {
        self.line(
            kind,
            &[
                Words(words),
                Text("camera", camera),
                Words(" "),
                Number("id", u64::from(id)),
                Words(" "),
                Text("path", path),
                Words(" "),
                Text("why", why),
            ],
        )
    }

    // Adds a line of a camera and why.
    fn why_line<'a, Y: Display>(
        &mut self,
        kind: &str,
        words: &'a str,
        camera: &'a str,
        between: &'a str,
        why: &Y,
    ) -> io::Result<()> {
        let why = why.to_string(self.alloc)?;
        self.line_of_why(kind, words, camera, between, why.as_str())
    }

    // The same, of the words of why.
    fn line_of_why<'a>(
        &mut self,
        kind: &str,
        words: &'a str,
        camera: &'a str,
        between: &'a str,
        why: &'a str,
    ) -> io::Result<()> {
        self.line(
            kind,
            &[
                Words(words),
                Text("camera", camera),
                Words(between),
                Text("why", why),
            ],
        )
    }

    // ---- answers

    /// `kept CAMERA ID A..B from T to T event N`, followed by ` tag T` where the clip has a tag other than 0 and N, and by
    /// ` lost L` where frames are lost in it: the frames A to B of an event are locked as clip ID. `from` and `to` are the
    /// times of the first and the last one.
    ///
    /// JSON: `camera`, `id`, `first`, `last`, `from`, `to`, `event`, `tag` as above, and `lost`.
    pub fn kept(
        &mut self,
        camera: &str,
        clip: &Clip,
        (from, to): (u64, u64),
        event: u64,
        lost: u64,
    ) -> io::Result<()> {
        self.line(
            "kept",
            &[
                Words("kept "),
                Text("camera", camera),
                Words(" "),
                Number("id", u64::from(clip.id)),
                Words(" "),
                Number("first", clip.from),
                Words(".."),
                Number("last", clip.to),
                Words(" from "),
                Time("from", from),
                Words(" to "),
                Time("to", to),
                Words(" event "),
                Number("event", event),
                Maybe(" tag ", "tag", tag_told(clip, event)),
                Count(" lost ", "lost", lost),
            ],
        )
    }

    /// `kept CAMERA ID A..B unread WHY event N`, followed by ` tag T` as above: the frames A to B of an event are locked
    /// as clip ID, and the times of the first and the last one can't be read.
    ///
    /// JSON: `camera`, `id`, `first`, `last`, `why`, `event`, and `tag` as above.
    pub fn kept_unread<Y: Display>(
        &mut self,
        camera: &str,
        clip: &Clip,
        why: &Y,
        event: u64,
    ) -> io::Result<()> {
        let why = why.to_string(self.alloc)?;
        self.line_of_unread(camera, clip, why.as_str(), event)
    }

    // The same, of the words of why.
    fn line_of_unread<'a>(
        &mut self,
        camera: &'a str,
        clip: &Clip,
        why: &'a str,
        event: u64,
    ) -> io::Result<()> {
        self.line(
            "kept_unread",
            &[
                Words("kept "),
                Text("camera", camera),
                Words(" "),
                Number("id", u64::from(clip.id)),
                Words(" "),
                Number("first", clip.from),
                Words(".."),
                Number("last", clip.to),
                Words(" unread "),
                Text("why", why),
                Words(" event "),
                Number("event", event),
                Maybe(" tag ", "tag", tag_told(clip, event)),
            ],
        )
    }

    /// `kept CAMERA none event N`: the ring holds no frame of the event's time.
    ///
    /// JSON: `camera`, `event`.
    pub fn kept_none(&mut self, camera: &str, event: u64) -> io::Result<()> {
        self.line(
            "kept_none",
            &[
                Words("kept "),
                Text("camera", camera),
                Words(" none event "),
                Number("event", event),
            ],
        )
    }

    /// `held CAMERA 10.6 s of 60.0 s event N`, followed by ` lost L` where frames are lost: not all is held of an event's
    /// time. Both are in microseconds.
    ///
    /// JSON: `camera`, `held_micros`, `asked_micros`, `event`, `lost`.
    pub fn held(
        &mut self,
        camera: &str,
        held: u64,
        asked: u64,
        event: u64,
        lost: u64,
    ) -> io::Result<()> {
        self.line(
            "held",
            &[
                Words("held "),
                Text("camera", camera),
                Words(" "),
                Seconds("held_micros", held),
                Words(" s of "),
                Seconds("asked_micros", asked),
                Words(" s event "),
                Number("event", event),
                Count(" lost ", "lost", lost),
            ],
        )
    }

    /// `gap CAMERA 720.0 s at T event N`, followed by ` lost L` where frames are lost there: so many microseconds of an
    /// event's time have no frame, from T on.
    ///
    /// JSON: `camera`, `micros`, `at`, `event`, `lost`.
    pub fn gap(
        &mut self,
        camera: &str,
        micros: u64,
        at: u64,
        event: u64,
        lost: u64,
    ) -> io::Result<()> {
        self.line(
            "gap",
            &[
                Words("gap "),
                Text("camera", camera),
                Words(" "),
                Seconds("micros", micros),
                Words(" s at "),
                Time("at", at),
                Words(" event "),
                Number("event", event),
                Count(" lost ", "lost", lost),
            ],
        )
    }

    /// `event N from T to T`: an event whose end lies ahead has begun, or goes on after a start.
    ///
    /// JSON: `event`, `from`, `to`.
    pub fn event_begun(&mut self, event: u64, since: u64, until: u64) -> io::Result<()> {
        self.line(
            "event_begun",
            &[
                Words("event "),
                Number("event", event),
                Words(" from "),
                Time("from", since),
                Words(" to "),
                Time("to", until),
            ],
        )
    }

    /// `event N CAMERA whole`: each frame of the event that came from the camera is locked, and none is lost.
    ///
    /// JSON: `event`, `camera`, `lost`, which is 0.
    pub fn event_whole(&mut self, event: u64, camera: &str) -> io::Result<()> {
        self.line(
            "event_whole",
            &[
                Words("event "),
                Number("event", event),
                Words(" "),
                Text("camera", camera),
                Words(" whole"),
                Count("", "lost", 0),
            ],
        )
    }

    /// `event N CAMERA not whole WHY`, followed by ` lost L` where frames are lost: the event has ended before all its
    /// frames were locked.
    ///
    /// JSON: `event`, `camera`, `why`, `lost`.
    pub fn event_not_whole<Y: Display>(
        &mut self,
        event: u64,
        camera: &str,
        why: &Y,
        lost: u64,
    ) -> io::Result<()> {
        let why = why.to_string(self.alloc)?;
        self.line_of_end(event, camera, why.as_str(), lost)
    }

    // The same, of the words of why.
    fn line_of_end<'a>(
        &mut self,
        event: u64,
        camera: &'a str,
        why: &'a str,
        lost: u64,
    ) -> io::Result<()> {
        self.line(
            "event_not_whole",
            &[
                Words("event "),
                Number("event", event),
                Words(" "),
                Text("camera", camera),
                Words(" not whole "),
                Text("why", why),
                Count(" lost ", "lost", lost),
            ],
        )
    }

    /// `refused too far: a keep ends within an hour`: the end of a keep lies more than an hour ahead.
    ///
    /// JSON: nothing else.
    pub fn too_far(&mut self) -> io::Result<()> {
        self.line(
            "too_far",
            &[Words("refused too far: a keep ends within an hour")],
        )
    }

    /// `refused CAMERA NO FAULT`: a refusal's number and name; after `Damaged` the number of the kind of damage, and
    /// after `ClipNotHeld` the number of the frame.
    ///
    /// JSON: `camera`, `number`, `name`, and `damage` or `frame` as above.
    pub fn refused(&mut self, camera: &str, fault: StoreFault) -> io::Result<()> {
        let (damage, frame) = match fault {
            StoreFault::Damaged(damage) => (Some(u64::from(damage.number())), None),
            StoreFault::ClipNotHeld(frame) => (None, Some(frame)),
            _ => (None, None),
        };
        self.line(
            "refused",
            &[
                Words("refused "),
                Text("camera", camera),
                Words(" "),
                Number("number", u64::from(fault.number())),
                Words(" "),
                Text("name", fault.name()),
                Maybe(" ", "damage", damage),
                Maybe(" ", "frame", frame),
            ],
        )
    }

    /// `released CAMERA ID`: the clip is unlocked.
    ///
    /// JSON: `camera`, `id`.
    pub fn released(&mut self, camera: &str, id: u32) -> io::Result<()> {
        self.line(
            "released",
            &[
                Words("released "),
                Text("camera", camera),
                Words(" "),
                Number("id", u64::from(id)),
            ],
        )
    }

    /// `refused CAMERA other clip ID FIRST`: the clip of that id begins with another frame than FIRST, and isn't
    /// unlocked.
    ///
    /// JSON: `camera`, `id`, `first`.
    pub fn not_released(&mut self, camera: &str, id: u32, first: u64) -> io::Result<()> {
        self.line(
            "not_released",
            &[
                Words("refused "),
                Text("camera", camera),
                Words(" other clip "),
                Number("id", u64::from(id)),
                Words(" "),
                Number("first", first),
            ],
        )
    }

    /// `refused CAMERA saving`: a clip that is being saved isn't unlocked.
    ///
    /// JSON: `camera`.
    pub fn saving(&mut self, camera: &str) -> io::Result<()> {
        self.camera_line("saving", "refused ", camera, " saving")
    }

    /// `refused NAME too many orders`: as many orders wait for the camera as may.
    pub fn too_many_orders(&mut self, camera: &str) -> io::Result<()> {
        self.camera_line("too_many_orders", "refused ", camera, " too many orders")
    }

    /// `refused CAMERA too many saves`: as many clips are being saved as may be at once.
    ///
    /// JSON: `camera`.
    pub fn too_many_saves(&mut self, camera: &str) -> io::Result<()> {
        self.camera_line("too_many_saves", "refused ", camera, " too many saves")
    }

    /// `saved CAMERA ID PATH K`: a clip was saved, and has K frames.
    ///
    /// JSON: `camera`, `id`, `path`, `frames`.
    pub fn saved<'a>(
        &mut self,
        camera: &'a str,
        id: u32,
        path: &'a str,
        frames: u64,
    ) -> io::Result<()> {
        self.line(
            "saved",
            &[
                Words("saved "),
                Text("camera", camera),
                Words(" "),
                Number("id", u64::from(id)),
                Words(" "),
                Text("path", path),
                Words(" "),
                Number("frames", frames),
            ],
        )
    }

    /// `not saved CAMERA ID PATH WHY`: a clip wasn't saved.
    ///
    /// JSON: `camera`, `id`, `path`, `why`.
    pub fn not_saved<'a, Y: Display>(
        &mut self,
        camera: &'a str,
        id: u32,
        path: &'a str,
        why: &Y,
    ) -> io::Result<()> {
        self.path_line("not_saved", "not saved ", (camera, id, path), why)
    }

    /// `waits CAMERA ID PATH WHY`: a clip couldn't be saved yet, and is tried again each minute.
    ///
    /// JSON: `camera`, `id`, `path`, `why`.
    pub fn save_waits<'a, Y: Display>(
        &mut self,
        camera: &'a str,
        id: u32,
        path: &'a str,
        why: &Y,
    ) -> io::Result<()> {
        self.path_line("save_waits", "waits ", (camera, id, path), why)
    }

    /// `cancelled CAMERA ID`: the save of the clip has ended.
    ///
    /// JSON: `camera`, `id`.
    pub fn cancelled(&mut self, camera: &str, id: u32) -> io::Result<()> {
        self.line(
            "cancelled",
            &[
                Words("cancelled "),
                Text("camera", camera),
                Words(" "),
                Number("id", u64::from(id)),
            ],
        )
    }

    /// `refused CAMERA not saving ID`: the clip isn't being saved.
    ///
    /// JSON: `camera`, `id`.
    pub fn not_saving(&mut self, camera: &str, id: u32) -> io::Result<()> {
        self.line(
            "not_saving",
            &[
                Words("refused "),
                Text("camera", camera),
                Words(" not saving "),
                Number("id", u64::from(id)),
            ],
        )
    }

    /// `absent CAMERA WHY`: the camera's store isn't there.
    ///
    /// JSON: `camera`, `why`.
    pub fn absent<Y: Display>(&mut self, camera: &str, why: &Y) -> io::Result<()> {
        self.why_line("absent", "absent ", camera, " ", why)
    }

    /// `camera CAMERA`, and below it what its store holds, as a script's `list` has it.
    ///
    /// JSON, one object: `camera`, `next`, `frames`, which is an array of runs of numbers that follow one another, each
    /// with `first` and `last`, and `clips`, an array of clips, each with `id`, `first`, `last` and `tag`.
    pub fn camera<A: Allocator + Copy>(
        &mut self,
        camera: &str,
        listing: &Listing<A>,
    ) -> io::Result<()> {
        let mut text = text_line(self.alloc, &[Words("camera "), Words(camera)])?;
        listing.print(&mut text)?;
        if !self.with_json {
            return self.append(&text, &[]);
        }
        let json = camera_json(self.alloc, camera, None, listing)?;
        self.append(&text, &json)
    }

    /// `camera CAMERA store N`, and below it what that one of its stores holds, where it has several.
    ///
    /// JSON, one object of kind `camera`: as above, with `store` after `camera`.
    pub fn camera_store<A: Allocator + Copy>(
        &mut self,
        camera: &str,
        store: u32,
        listing: &Listing<A>,
    ) -> io::Result<()> {
        let mut text = text_line(
            self.alloc,
            &[
                Words("camera "),
                Words(camera),
                Words(" store "),
                Number("store", u64::from(store)),
            ],
        )?;
        listing.print(&mut text)?;
        if !self.with_json {
            return self.append(&text, &[]);
        }
        let json = camera_json(self.alloc, camera, Some(store), listing)?;
        self.append(&text, &json)
    }

    /// `status CAMERA stored N given up G waiting W behind S room R of B keeps K faults X source WORDS gaps N lost L
    /// estimated M clock +1.9 s full RULE`, without ` keeps K`, ` gaps N` and ` clock +1.9 s` where that isn't known.
    /// RULE says what is done once R is 0.
    ///
    /// JSON: `camera`, `stored`, `given_up`, `waiting`, `behind_micros`, `room`, `blocks`, `keeps` where it is known,
    /// `faults`, `source`, `gaps` where they are known, `lost`, `estimated`, `clock_micros` where it is known (below 0
    /// where the clock is behind), `when_full`, and `full_tag` where that has a tag.
    pub fn status<'a>(&mut self, camera: &'a str, status: &CameraStatus<'a>) -> io::Result<()> {
        self.line("status", &status_parts(camera, status))
    }

    /// The same of a camera that has several stores: ` stores N of M held 2 h 13 min` follows.
    ///
    /// JSON, of kind `status`: also `stores`, `stores_wanted`, `held_micros`.
    pub fn status_of_set<'a>(
        &mut self,
        camera: &'a str,
        status: &CameraStatus<'a>,
        stores: &StoresStatus,
    ) -> io::Result<()> {
        let mut parts = Vec::new(self.alloc);
        parts.extend_from_slice(&status_parts(camera, status))?;
        parts.extend_from_slice(&[
            Words(" stores "),
            Number("stores", stores.open),
            Words(" of "),
            Number("stores_wanted", stores.wanted),
            Words(" held "),
            Lasting("held_micros", stores.held),
        ])?;
        self.line("status", &parts)
    }

    /// `status CAMERA making PATH 40 %`: the status of a camera whose store is being made.
    ///
    /// JSON: `camera`, `path`, `percent`.
    pub fn status_making<'a>(
        &mut self,
        camera: &'a str,
        path: &'a str,
        percent: u64,
    ) -> io::Result<()> {
        self.making_line(
            "status_making",
            "status ",
            camera,
            " making ",
            path,
            percent,
        )
    }

    // Adds a line of a store that is being made.
    fn making_line<'a>(
        &mut self,
        kind: &str,
        words: &'a str,
        camera: &'a str,
        between: &'a str,
        path: &'a str,
        percent: u64,
    ) -> io::Result<()> {
        self.line(
            kind,
            &[
                Words(words),
                Text("camera", camera),
                Words(between),
                Text("path", path),
                Words(" "),
                Number("percent", percent),
                Words(" %"),
            ],
        )
    }

    /// `no camera NAME`: no camera has this name.
    ///
    /// JSON: `camera`.
    pub fn no_camera(&mut self, camera: &str) -> io::Result<()> {
        self.camera_line("no_camera", "no camera ", camera, "")
    }

    /// `bad order: LINE`: a line that can't be read, or its first 200 bytes, each that can't be printed as `?`.
    ///
    /// JSON: `line`.
    pub fn bad_order(&mut self, line: &[u8]) -> io::Result<()> {
        let mut printed = Vec::new(self.alloc);
        for byte in line.iter().take(MOST_OF_LINE) {
            printed.push(printable(*byte))?;
        }
        let printed = str::from_utf8(&printed).unwrap_or("");
        self.line("bad_order", &[Words("bad order: "), Text("line", printed)])
    }

    /// The orders, a line each.
    ///
    /// JSON: `order`.
    pub fn help(&mut self) -> io::Result<()> {
        for order in &ORDERS {
            self.line("help", &[Text("order", order)])?;
        }
        Ok(())
    }

    /// `done`: a labelled order has been answered.
    ///
    /// JSON: nothing else.
    pub fn done(&mut self) -> io::Result<()> {
        self.line("done", &[Words("done")])
    }

    /// `stopped`: the program ends.
    ///
    /// JSON: nothing else.
    pub fn stopped(&mut self) -> io::Result<()> {
        self.line("stopped", &[Words("stopped")])
    }
}

// A byte as it is printed: `?` where it is none of ASCII's printed characters.
fn printable(byte: u8) -> u8 {
    if byte.is_ascii_graphic() || byte == b' ' {
        byte
    } else {
        b'?'
    }
}

// The parts of a camera's status.
fn status_parts<'a>(camera: &'a str, status: &CameraStatus<'a>) -> [Part<'a>; 28] {
    let (rule, tag) = rule_words(status.when_full);
    [
        Words("status "),
        Text("camera", camera),
        Words(" stored "),
        Number("stored", status.stored),
        Words(" given up "),
        Number("given_up", status.given_up),
        Words(" waiting "),
        Number("waiting", status.waiting),
        Words(" behind "),
        Seconds("behind_micros", status.behind),
        Words(" room "),
        Number("room", status.room),
        Words(" of "),
        Number("blocks", status.blocks),
        Maybe(" keeps ", "keeps", status.keeps),
        Words(" faults "),
        Number("faults", status.faults),
        Words(" source "),
        Text("source", status.source),
        Maybe(" gaps ", "gaps", status.gaps),
        Words(" lost "),
        Number("lost", status.lost),
        Words(" estimated "),
        Number("estimated", status.estimated),
        Ahead(" clock ", "clock_micros", status.clock),
        Words(" full "),
        Text("when_full", rule),
        Maybe(" tag ", "full_tag", tag),
    ]
}

// The words of what is done where every block is locked, and its tag, if it has one.
fn rule_words(rule: WhenFull) -> (&'static str, Option<u64>) {
    match rule {
        WhenFull::Stop => ("stop", None),
        WhenFull::ReleaseSaved => ("release saved", None),
        WhenFull::ReleaseOldest(tag) => ("release oldest", tag),
    }
}
