//! The lines of what happens without an order.

use super::Lines;
use crate::part::Part::{Ahead, Maybe, Millis, Number, Seconds, Text, Time, Words};
use loop_record::Geometry;
use std::fmt::Display;
use std::{io, str};

impl Lines {
    /// `source CAMERA on 640x480 YM12 25:1`: a camera's source gives frames that its store takes.
    ///
    /// JSON: `camera`, `width`, `height`, `format`, `rate_num`, `rate_den`.
    pub fn source_on(&mut self, camera: &str, geometry: &Geometry) -> io::Result<()> {
        self.frames_line("source_on", "source ", camera, " on ", geometry)
    }

    /// `other geometry CAMERA 640x480 YM12 25:1`: the frames of a camera's source aren't as its store has them.
    ///
    /// JSON: `camera`, `width`, `height`, `format`, `rate_num`, `rate_den`.
    pub fn other_geometry(&mut self, camera: &str, geometry: &Geometry) -> io::Result<()> {
        self.frames_line("other_geometry", "other geometry ", camera, " ", geometry)
    }

    /// The same with the bits of a sample, of a camera whose samples have more than 8: `source CAMERA on 640x480 GREY
    /// 25:1 12 bits`. The width is in samples.
    ///
    /// JSON: as above, and `bits`.
    pub fn deep_source_on(
        &mut self,
        camera: &str,
        geometry: &Geometry,
        bits: u32,
    ) -> io::Result<()> {
        self.bits_line(
            "source_on",
            ("source ", camera, " on "),
            geometry,
            bits,
            None,
        )
    }

    /// `other geometry CAMERA 640x480 GREY 25:1 12 bits, not 8`: the frames of a camera's source aren't as its store
    /// has them, and where that is known, how many bits the samples have there.
    ///
    /// JSON: as above, `bits`, and `store_bits` where they are known.
    pub fn other_bits(
        &mut self,
        camera: &str,
        geometry: &Geometry,
        bits: u32,
        there: Option<u32>,
    ) -> io::Result<()> {
        let there = there.map(|bits| u64::from(bits));
        let words = ("other geometry ", camera, " ");
        self.bits_line("other_geometry", words, geometry, bits, there)
    }

    // Adds a line of a camera and of frames whose samples have so many bits.
    fn bits_line<'a>(
        &mut self,
        kind: &str,
        (words, camera, between): (&'a str, &'a str, &'a str),
        geometry: &Geometry,
        bits: u32,
        there: Option<u64>,
    ) -> io::Result<()> {
        let letters = geometry.format.name();
        let format = str::from_utf8(&letters).unwrap_or("");
        self.line_of_bits(
            kind,
            (words, camera, between, format),
            geometry,
            bits,
            there,
        )
    }

    // The same, of the letters of the format.
    fn line_of_bits<'a>(
        &mut self,
        kind: &str,
        (words, camera, between, format): (&'a str, &'a str, &'a str, &'a str),
        geometry: &Geometry,
        bits: u32,
        there: Option<u64>,
    ) -> io::Result<()> {
        let wide = if bits > 8 { 2 } else { 1 };
        self.line(
            kind,
            &[
                Words(words),
                Text("camera", camera),
                Words(between),
                Number("width", u64::from(geometry.width / wide)),
                Words("x"),
                Number("height", u64::from(geometry.height)),
                Words(" "),
                Text("format", format),
                Words(" "),
                Number("rate_num", u64::from(geometry.rate_num)),
                Words(":"),
                Number("rate_den", u64::from(geometry.rate_den)),
                Words(" "),
                Number("bits", u64::from(bits)),
                Words(" bits"),
                Maybe(", not ", "store_bits", there),
            ],
        )
    }

    /// `times of CAMERA go back`: a frame's own time wasn't later than that of the frame before.
    ///
    /// JSON: `camera`.
    pub fn times_back(&mut self, camera: &str) -> io::Result<()> {
        self.camera_line("times_back", "times of ", camera, " go back")
    }

    /// `no times of CAMERA`: frames have no times of their own, so they have those at which they came.
    ///
    /// JSON: `camera`.
    pub fn no_times(&mut self, camera: &str) -> io::Result<()> {
        self.camera_line("no_times", "no times of ", camera, "")
    }

    /// `numbers of CAMERA began anew`: a frame's own number doesn't follow that of the frame before.
    ///
    /// JSON: `camera`.
    pub fn numbers_anew(&mut self, camera: &str) -> io::Result<()> {
        self.camera_line("numbers_anew", "numbers of ", camera, " began anew")
    }

    /// `wrong time CAMERA +90.0 s at T`: a frame's own time is so far ahead of what the source's clock shows, as
    /// measured, and isn't used; the frame has T.
    ///
    /// JSON: `camera`, `micros`, `at`.
    pub fn wrong_time(&mut self, camera: &str, micros: i64, at: u64) -> io::Result<()> {
        self.clock_line("wrong_time", "wrong time ", camera, micros, at)
    }

    /// `clock steps CAMERA -3600.0 s at T`: a source's clock, measured anew, is so far ahead of what was measured
    /// before; T is the time of the frame.
    ///
    /// JSON: `camera`, `micros`, `at`.
    pub fn clock_steps(&mut self, camera: &str, micros: i64, at: u64) -> io::Result<()> {
        self.clock_line("clock_steps", "clock steps ", camera, micros, at)
    }

    /// `system clock steps -3600.0 s at T`: the computer's own clock was set, and is so far ahead of where it was. Times
    /// of frames and orders stay on the clock that it had at the start, by which T is.
    ///
    /// JSON: `micros`, `at`.
    pub fn system_clock_steps(&mut self, micros: i64, at: u64) -> io::Result<()> {
        self.line(
            "system_clock_steps",
            &[
                Words("system clock steps"),
                Ahead(" ", "micros", Some(micros)),
                Words(" at "),
                Time("at", at),
            ],
        )
    }

    // Adds a line of a camera, how far its source's clock is ahead, and when.
    fn clock_line<'a>(
        &mut self,
        kind: &str,
        words: &'a str,
        camera: &'a str,
        micros: i64,
        at: u64,
    ) -> io::Result<()> {
        self.line(
            kind,
            &[
                Words(words),
                Text("camera", camera),
                Ahead(" ", "micros", Some(micros)),
                Words(" at "),
                Time("at", at),
            ],
        )
    }

    /// `not in order CAMERA`: the newest frames of a camera's stores are too far apart to be in order by their
    /// sequences, so they are by their times.
    ///
    /// JSON: `camera`.
    pub fn not_in_order(&mut self, camera: &str) -> io::Result<()> {
        self.camera_line("not_in_order", "not in order ", camera, "")
    }

    /// `removed out of order CAMERA 128`: so many frames were removed though older ones are there, in stores that
    /// weren't open yet, since memory was full.
    ///
    /// JSON: `camera`, `frames`.
    pub fn removed_out_of_order(&mut self, camera: &str, frames: u64) -> io::Result<()> {
        self.line(
            "removed_out_of_order",
            &[
                Words("removed out of order "),
                Text("camera", camera),
                Words(" "),
                Number("frames", frames),
            ],
        )
    }

    /// `gap CAMERA 120 ms at T`: so long before the frame of a time no frame came.
    ///
    /// JSON: `camera`, `micros`, `at`.
    pub fn frames_gap(&mut self, camera: &str, micros: u64, at: u64) -> io::Result<()> {
        self.line(
            "frames_gap",
            &[
                Words("gap "),
                Text("camera", camera),
                Words(" "),
                Millis("micros", micros),
                Words(" ms at "),
                Time("at", at),
            ],
        )
    }

    // Adds a line of a camera and of what frames look like.
    fn frames_line<'a>(
        &mut self,
        kind: &str,
        words: &'a str,
        camera: &'a str,
        between: &'a str,
        geometry: &Geometry,
    ) -> io::Result<()> {
        let letters = geometry.format.name();
        let format = str::from_utf8(&letters).unwrap_or("");
        self.line_of_frames(kind, (words, camera, between, format), geometry)
    }

    // The same, of the letters of the format.
    fn line_of_frames<'a>(
        &mut self,
        kind: &str,
        (words, camera, between, format): (&'a str, &'a str, &'a str, &'a str),
        geometry: &Geometry,
    ) -> io::Result<()> {
        self.line(
            kind,
            &[
                Words(words),
                Text("camera", camera),
                Words(between),
                Number("width", u64::from(geometry.width)),
                Words("x"),
                Number("height", u64::from(geometry.height)),
                Words(" "),
                Text("format", format),
                Words(" "),
                Number("rate_num", u64::from(geometry.rate_num)),
                Words(":"),
                Number("rate_den", u64::from(geometry.rate_den)),
            ],
        )
    }

    /// `source CAMERA missing`: a camera's source can't be opened, or has ended.
    ///
    /// JSON: `camera`.
    pub fn source_missing(&mut self, camera: &str) -> io::Result<()> {
        self.camera_line("source_missing", "source ", camera, " missing")
    }

    /// `source CAMERA silent`: a camera's source is open, and no frame has come for two seconds.
    ///
    /// JSON: `camera`.
    pub fn source_silent(&mut self, camera: &str) -> io::Result<()> {
        self.camera_line("source_silent", "source ", camera, " silent")
    }

    /// `source CAMERA unusable WHY`: no store may have the frames of a camera's source.
    ///
    /// JSON: `camera`, `why`.
    pub fn source_unusable<'a>(&mut self, camera: &'a str, why: &'a str) -> io::Result<()> {
        self.line(
            "source_unusable",
            &[
                Words("source "),
                Text("camera", camera),
                Words(" unusable "),
                Text("why", why),
            ],
        )
    }

    /// `store CAMERA open`; `store CAMERA open holds 30.8 s of 300.0 s` where it holds less than the configuration asks
    /// for. `less` has both durations, in microseconds.
    ///
    /// JSON: `camera`, and `held_micros` and `asked_micros` as above.
    pub fn store_open(&mut self, camera: &str, less: Option<(u64, u64)>) -> io::Result<()> {
        let Some((held, asked)) = less else {
            return self.camera_line("store_open", "store ", camera, " open");
        };
        self.line(
            "store_open",
            &[
                Words("store "),
                Text("camera", camera),
                Words(" open holds "),
                Seconds("held_micros", held),
                Words(" s of "),
                Seconds("asked_micros", asked),
                Words(" s"),
            ],
        )
    }

    /// `store CAMERA absent WHY`: a camera's store isn't there any more, or not yet.
    ///
    /// JSON: `camera`, `why`.
    pub fn store_absent<Y: Display>(&mut self, camera: &str, why: &Y) -> io::Result<()> {
        self.why_line("store_absent", "store ", camera, " absent ", why)
    }

    /// `store CAMERA PATH absent WHY`: one of a camera's stores can't be used; the others go on.
    ///
    /// JSON: `camera`, `path`, `why`.
    pub fn one_absent<'a, Y: Display>(
        &mut self,
        camera: &'a str,
        path: &'a str,
        why: &Y,
    ) -> io::Result<()> {
        let why = why.to_string(self.alloc)?;
        self.line_of_one(camera, path, why.as_str())
    }

    /// `store CAMERA PATH missing, made anew`: the file of one of a camera's stores was gone.
    ///
    /// JSON: `camera`, `path`.
    pub fn store_missing<'a>(&mut self, camera: &'a str, path: &'a str) -> io::Result<()> {
        self.line(
            "store_missing",
            &[
                Words("store "),
                Text("camera", camera),
                Words(" "),
                Text("path", path),
                Words(" missing, made anew"),
            ],
        )
    }

    /// `store CAMERA PATH has an old layout: ..`: a store of version 1 of the layout, whose clips have no tags.
    ///
    /// JSON: `camera`, `path`.
    pub fn old_layout<'a>(&mut self, camera: &'a str, path: &'a str) -> io::Result<()> {
        self.line(
            "old_layout",
            &[
                Words("store "),
                Text("camera", camera),
                Words(" "),
                Text("path", path),
                Words(
                    " has an old layout: its keeps are refused; end the station, and run loop_cli upgrade ",
                ),
                Words(path),
            ],
        )
    }

    // That one of a camera's stores can't be used, by the words of why.
    fn line_of_one<'a>(&mut self, camera: &'a str, path: &'a str, why: &'a str) -> io::Result<()> {
        self.line(
            "one_absent",
            &[
                Words("store "),
                Text("camera", camera),
                Words(" "),
                Text("path", path),
                Words(" absent "),
                Text("why", why),
            ],
        )
    }

    /// `not a store CAMERA PATH: ..`: the file where a camera's store belongs isn't a store, and what to do about it.
    /// The path is given in two parts.
    ///
    /// JSON: `camera`, `path`.
    pub fn not_a_store(&mut self, camera: &str, path: &str, end: &str) -> io::Result<()> {
        let path = format!(in self.alloc; "{path}{end}")?;
        self.line_of_store(camera, path.as_str())
    }

    // The same, of the whole path.
    fn line_of_store<'a>(&mut self, camera: &'a str, path: &'a str) -> io::Result<()> {
        self.line(
            "not_a_store",
            &[
                Words("not a store "),
                Text("camera", camera),
                Words(" "),
                Text("path", path),
                Words(": move it away, and a store is made"),
            ],
        )
    }

    /// `making CAMERA PATH 40 %`: a camera's store is being made, and so much of it is.
    ///
    /// JSON: `camera`, `path`, `percent`.
    pub fn making<'a>(&mut self, camera: &'a str, path: &'a str, percent: u64) -> io::Result<()> {
        self.making_line("making", "making ", camera, " ", path, percent)
    }

    /// `given up CAMERA K since T`: K frames were lost since a time.
    ///
    /// JSON: `camera`, `frames`, `since`.
    pub fn given_up(&mut self, camera: &str, frames: u64, since: u64) -> io::Result<()> {
        self.line(
            "given_up",
            &[
                Words("given up "),
                Text("camera", camera),
                Words(" "),
                Number("frames", frames),
                Words(" since "),
                Time("since", since),
            ],
        )
    }

    /// `all locked CAMERA`: frames wait, because every block is locked.
    ///
    /// JSON: `camera`.
    pub fn all_locked(&mut self, camera: &str) -> io::Result<()> {
        self.camera_line("all_locked", "all locked ", camera, "")
    }

    /// `nearly all locked CAMERA`: four fifths of the blocks are locked.
    ///
    /// JSON: `camera`.
    pub fn nearly_all_locked(&mut self, camera: &str) -> io::Result<()> {
        self.camera_line("nearly_all_locked", "nearly all locked ", camera, "")
    }

    /// `room again CAMERA`: a block may be recorded into again.
    ///
    /// JSON: `camera`.
    pub fn room_again(&mut self, camera: &str) -> io::Result<()> {
        self.camera_line("room_again", "room again ", camera, "")
    }

    /// `behind CAMERA S`: frames that last so many microseconds wait.
    ///
    /// JSON: `camera`, `micros`.
    pub fn behind(&mut self, camera: &str, micros: u64) -> io::Result<()> {
        self.line(
            "behind",
            &[
                Words("behind "),
                Text("camera", camera),
                Words(" "),
                Seconds("micros", micros),
            ],
        )
    }

    /// `caught up CAMERA`: no more frames wait than usual.
    ///
    /// JSON: `camera`.
    pub fn caught_up(&mut self, camera: &str) -> io::Result<()> {
        self.camera_line("caught_up", "caught up ", camera, "")
    }

    /// `waited CAMERA 3.2 s since T`: memory was full, and a camera's source had to wait so many microseconds.
    ///
    /// JSON: `camera`, `micros`, `since`.
    pub fn waited(&mut self, camera: &str, micros: u64, since: u64) -> io::Result<()> {
        self.line(
            "waited",
            &[
                Words("waited "),
                Text("camera", camera),
                Words(" "),
                Seconds("micros", micros),
                Words(" s since "),
                Time("since", since),
            ],
        )
    }

    /// `stood still 3.2 s since T`: the program didn't run for so many microseconds.
    ///
    /// JSON: `micros`, `since`.
    pub fn stood_still(&mut self, micros: u64, since: u64) -> io::Result<()> {
        self.line(
            "stood_still",
            &[
                Words("stood still "),
                Seconds("micros", micros),
                Words(" s since "),
                Time("since", since),
            ],
        )
    }

    /// `disk CAMERA syncs in 12 ms`: how fast the disk of a camera's store syncs.
    ///
    /// JSON: `camera`, `micros`.
    pub fn syncs(&mut self, camera: &str, micros: u64) -> io::Result<()> {
        self.line(
            "syncs",
            &[
                Words("disk "),
                Text("camera", camera),
                Words(" syncs in "),
                Millis("micros", micros),
                Words(" ms"),
            ],
        )
    }

    /// `disk CAMERA too slow: syncs in 250 ms, room for 16 frames a second`: the source's rate needs more than the disk
    /// gives.
    ///
    /// JSON: `camera`, `micros`, `frames_a_second`.
    pub fn too_slow(&mut self, camera: &str, micros: u64, frames_a_second: u64) -> io::Result<()> {
        self.line(
            "too_slow",
            &[
                Words("disk "),
                Text("camera", camera),
                Words(" too slow: syncs in "),
                Millis("micros", micros),
                Words(" ms, room for "),
                Number("frames_a_second", frames_a_second),
                Words(" frames a second"),
            ],
        )
    }

    /// `no answers PATH: ..`: the file for answers can't be written.
    ///
    /// JSON: `path`.
    pub fn no_answers(&mut self, path: &str) -> io::Result<()> {
        self.line(
            "no_answers",
            &[
                Words("no answers "),
                Text("path", path),
                Words(": what is printed doesn't go there"),
            ],
        )
    }

    /// `not noted CAMERA PATH: ..`: the file of a camera's open events can't be written.
    ///
    /// JSON: `camera`, `path`.
    pub fn not_noted<'a>(&mut self, camera: &'a str, path: &'a str) -> io::Result<()> {
        self.line(
            "not_noted",
            &[
                Words("not noted "),
                Text("camera", camera),
                Words(" "),
                Text("path", path),
                Words(": a stop or a loss of power would end its events"),
            ],
        )
    }

    /// `dropped K lines`: nobody read so many lines in time.
    ///
    /// JSON: `lines`.
    pub fn dropped_lines(&mut self, count: u64) -> io::Result<()> {
        self.line(
            "dropped_lines",
            &[Words("dropped "), Number("lines", count), Words(" lines")],
        )
    }
}
