//! The shortest uses of the libraries: in each function a value that anyone can have, a call, and what its contract
//! then gives. So what a call requires of its caller is shown to be met, where only tests call it otherwise.
//!
//! The clauses here follow from those of the calls alone. `disk`, `overlay`, `record` and `clips` have what is written
//! and read again, `pages`, `planes` and `events` the memory and the events of a queue, `recorders` a recorder of one
//! camera. No program runs any of it.
//!
//! `tests/checks/uses_check --list` prints each public call that requires something, with its callers here and
//! elsewhere.
#![tactic(auto)]

pub mod clips;
pub mod disk;
pub mod events;
pub mod overlay;
pub mod pages;
pub mod planes;
pub mod record;
pub mod recorders;

use loop_record::{Geometry, PixelFormat};

// Three segments with two slots each, of frames of twelve bytes.
const SMALL: Geometry = Geometry {
    width: 4,
    height: 2,
    format: PixelFormat::Ym12,
    rate_num: 25,
    rate_den: 1,
    segments: 3,
    slots: 2,
};
