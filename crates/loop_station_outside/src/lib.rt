//! What is outside of a station: its files and pipes, and the clock. It knows no thread and no camera.
//!
//! `places` opens files and makes stores, `path_kind` says what a path leads to, and `part` is a file that gets its
//! name once it is whole. `input` has what a source's pipe brings, and finds the next header in it. `clock` has the
//! time of frames. `absent` says why a store isn't there, and `not_saved` why a text isn't.
#![tactic(auto)]

mod absent;
mod clock;
mod input;
mod not_saved;
mod part;
mod path_kind;
mod places;

pub use absent::Absent;
pub use clock::Timeline;
pub use input::{Input, Joined, find_header, has_frame_line};
pub use not_saved::NotSaved;
pub use part::PartFile;
pub use path_kind::PathKind;
pub use places::{Maker, Places};
