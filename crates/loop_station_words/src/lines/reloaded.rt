//! The lines of a configuration that is read anew.

use super::Lines;
use crate::part::Part::{Number, Text, Words};
use std::fmt::Display;
use std::io;

impl Lines {
    /// `reloaded PATH 2 cameras 1 ended 1 started`: the configuration was read anew, so many cameras record by it now,
    /// and so many have ended and begun. One whose words changed has ended and begun.
    ///
    /// JSON: `path`, `cameras`, `ended`, `started`.
    pub fn reloaded(
        &mut self,
        path: &str,
        (cameras, ended, started): (u64, u64, u64),
    ) -> io::Result<()> {
        self.line(
            "reloaded",
            &[
                Words("reloaded "),
                Text("path", path),
                Words(" "),
                Number("cameras", cameras),
                Words(" cameras "),
                Number("ended", ended),
                Words(" ended "),
                Number("started", started),
                Words(" started"),
            ],
        )
    }

    /// `not reloaded PATH: WHY`: the configuration can't be used, and nothing has changed.
    ///
    /// JSON: `path`, `why`.
    pub fn not_reloaded<Y: Display>(&mut self, path: &str, why: &Y) -> io::Result<()> {
        let why = why.to_string(self.alloc)?;
        self.line_of_reload(path, why.as_str())
    }

    // The same, of the words of why.
    fn line_of_reload<'a>(&mut self, path: &'a str, why: &'a str) -> io::Result<()> {
        self.line(
            "not_reloaded",
            &[
                Words("not reloaded "),
                Text("path", path),
                Words(": "),
                Text("why", why),
            ],
        )
    }

    /// `not changed WORD: it needs a restart`: the configuration that was read anew says another thing at this word,
    /// which can't change while cameras record.
    ///
    /// JSON: `word`.
    pub fn not_changed(&mut self, word: &str) -> io::Result<()> {
        self.line(
            "not_changed",
            &[
                Words("not changed "),
                Text("word", word),
                Words(": it needs a restart"),
            ],
        )
    }

    /// `camera CAMERA ended WHY`: a camera has ended, its frames are stored, and its stores are closed; WHY is `removed`
    /// or `changed`.
    ///
    /// JSON: `camera`, `why`.
    pub fn camera_ended<'a>(&mut self, camera: &'a str, why: &'a str) -> io::Result<()> {
        self.line_of_camera("camera_ended", camera, " ended ", why)
    }

    /// `camera CAMERA started WHY`: a camera has begun; WHY is `added` or `changed`.
    ///
    /// JSON: `camera`, `why`.
    pub fn camera_started<'a>(&mut self, camera: &'a str, why: &'a str) -> io::Result<()> {
        self.line_of_camera("camera_started", camera, " started ", why)
    }

    // Adds a line of a camera and what has become of it.
    fn line_of_camera<'a>(
        &mut self,
        kind: &str,
        camera: &'a str,
        between: &'a str,
        why: &'a str,
    ) -> io::Result<()> {
        self.line(
            kind,
            &[
                Words("camera "),
                Text("camera", camera),
                Words(between),
                Text("why", why),
            ],
        )
    }

    /// `released CAMERA ID full`: every block was locked, and the clip is unlocked as the configuration asks.
    ///
    /// JSON, of kind `released`: `camera`, `id`, `why`.
    pub fn released_full(&mut self, camera: &str, id: u32) -> io::Result<()> {
        self.line(
            "released",
            &[
                Words("released "),
                Text("camera", camera),
                Words(" "),
                Number("id", u64::from(id)),
                Words(" "),
                Text("why", "full"),
            ],
        )
    }
}
