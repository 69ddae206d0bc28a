// What a configuration that is read anew changes: words that can't change while cameras record, and cameras.

use crate::choices::AnswersForm;
use crate::config::{CameraConfig, Config, Source};
use std::alloc::{AllocError, Global};

/// How many words of the file there are that can't change while cameras record.
pub const SETTINGS: usize = 6;

/// The words of a configuration that can't change while cameras record: what they say is as it was at the start.
#[derive(Drop)]
pub struct Settings {
    orders: Option<String>,
    answers: Option<String>,
    answers_form: AnswersForm,
    saves: Option<String>,
    times: bool,
    events: bool,
}

impl Settings {
    /// Those of a configuration.
    pub fn of(alloc: Global, config: &Config) -> Result<Settings, AllocError> {
        Ok(Settings {
            orders: copy_of(alloc, &config.orders)?,
            answers: copy_of(alloc, &config.answers)?,
            answers_form: config.answers_form,
            saves: copy_of(alloc, &config.saves)?,
            times: config.times,
            events: config.events,
        })
    }

    /// The word at a place below `SETTINGS`, if another configuration says another thing there.
    pub fn changed(&self, config: &Config, place: usize) -> Option<&'static str> {
        let (word, is_same) = match place {
            0 => ("orders", are_alike(&self.orders, &config.orders)),
            1 => ("answers", are_alike(&self.answers, &config.answers)),
            2 => ("answers_form", self.answers_form == config.answers_form),
            3 => ("saves", are_alike(&self.saves, &config.saves)),
            4 => ("times", self.times == config.times),
            _ => ("events", self.events == config.events),
        };
        if is_same { None } else { Some(word) }
    }
}

impl CameraConfig {
    /// Whether another configuration says the same of the camera, word by word.
    pub fn has_words_of(&self, other: &CameraConfig) -> bool {
        let is_named = self.name.as_str() == other.name.as_str()
            && self.store.as_str() == other.store.as_str()
            && self.source.is_that(&other.source);
        let is_kept = self.seconds == other.seconds
            && self.after == other.after
            && self.tag == other.tag
            && self.when_full == other.when_full;
        let is_saved = are_alike(&self.save_to, &other.save_to) && self.release == other.release;
        is_named
            && is_kept
            && is_saved
            && self.room == other.room
            && self.buffers == other.buffers
            && self.memory == other.memory
            && self.times_from == other.times_from
            && self.losses == other.losses
    }
}

impl Source {
    /// Whether it is the same one.
    pub fn is_that(&self, other: &Source) -> bool {
        match (self, other) {
            (Source::Pattern(shape), Source::Pattern(wanted)) => shape == wanted,
            (Source::Path(path), Source::Path(wanted)) => path.as_str() == wanted.as_str(),
            _ => false,
        }
    }
}

// Whether two texts are the same, or neither is there.
fn are_alike(text: &Option<String>, other: &Option<String>) -> bool {
    match (text, other) {
        (Some(text), Some(other)) => text.as_str() == other.as_str(),
        (None, None) => true,
        _ => false,
    }
}

// A copy of a text, if there is one.
fn copy_of(alloc: Global, text: &Option<String>) -> Result<Option<String>, AllocError> {
    match text {
        Some(text) => Ok(Some(String::from_str(alloc, text.as_str())?)),
        None => Ok(None),
    }
}
