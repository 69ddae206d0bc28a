//! The words of a program that records from several cameras into stores, and takes orders meanwhile.
//!
//! - `order` reads what a line asks for, `name` says how a camera may be named, and `cut` cuts a text at a character;
//!   `laws` has lines and their meanings, as rows of a table;
//! - `time` reads a date and time of day, and `calendar` gives those of a time in microseconds since 1970;
//! - `ring` chooses how many segments and slots a store has, for so many frames or within so many bytes, and `sets`
//!   how many stores a camera has where one isn't enough; `room` for what the configuration asks, how much of a store
//!   is free, and how many frames may wait before it;
//! - `config` reads the configuration file, which says which cameras there are. `fields` reads the value at a key
//!   there, `choices` has what such a value chooses, `rule` reads what is done where every block is locked, `shape` what
//!   the pattern's frames look like, `key` names the known key that is nearest to an unknown one, and `fault` says what
//!   is wrong with that file; `settings` compares what two such files say;
//! - `lines` has the lines of the program's output, as text and as JSON, each of parts (`part`); `answers` has the
//!   status of a camera, what a line begins with, and what the file of a clip is called.
//!
//! What a line asks for, which time a text means, which ring is chosen, how much of a store is free, and what a
//! configuration says at each of its keys is proved (`specs/`). So is that its cameras have names and stores of their
//! own. Why a file is refused, and what is printed, is tested.
//!
//! docs/station.md says why it is so.
#![tactic(auto)]

mod answers;
mod calendar;
mod choices;
mod config;
mod cut;
mod fault;
mod fields;
mod files;
mod key;
pub mod laws;
mod lines;
mod name;
mod order;
mod part;
mod ring;
mod room;
mod rule;
mod sets;
mod settings;
mod shape;
mod time;

pub use answers::{CameraStatus, StoresStatus, print_clip_path};
pub use calendar::{CivilTime, civil_time_of};
pub use choices::{AnswersForm, LossesFrom, MemoryLimit, StoreSize, TimesFrom, WhenFull};
pub use config::{CameraConfig, Config, MAX_CAMERAS, Source, read_config};
pub use fault::{CameraFault, ConfigFault};
pub use files::{number_of, numbered};
pub use key::UnknownKey;
pub use lines::Lines;
pub use name::{Name, is_name};
pub use order::{Order, label_of, read_order};
pub use ring::{RingSize, frames_in, ring_for, ring_within};
pub use room::{
    NoRing, asked_set, asked_stores, duration_of, frames_before, free_blocks, held_of_asked,
    newest_block, size_of,
};
pub use sets::{MAX_STORES, SetSize, set_for, set_within, stores_for, stores_within};
pub use settings::{SETTINGS, Settings};
pub use shape::{FrameShape, read_shape};
pub use time::read_time;
