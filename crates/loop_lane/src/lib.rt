//! A lane from a queue of buffers to a desk, and what is found after it: a text, or the disk after a power loss.
//!
//! - `lane` has `lane_run`, whose contract is the promise of the whole: whenever the power fails, the disk has the
//!   recording after a prefix of the steps, with all that was answered (`specs/Lane`); `event`: what a lane is asked
//!   for and what it answers;
//! - `text` has `record_and_export`: what was recorded is found again on the disk, and written as YUV4MPEG2; and
//!   `run_and_reopen`: whatever a power loss left of a run's disk is opened, and is the recording after a prefix of the
//!   run's steps; `filmed` has `film_and_export`: what a camera filmed is found again too;
//! - `laws` has what follows for runs of a lane, and that a ring holds as many of the newest frames as it was chosen
//!   for.
//!
//! They only make the calls that a program would, one after the other; their contracts follow from the contracts of
//! these calls alone. No program films by a lane: cases and tests do.
//!
//! docs/lane.md says why it is so.
#![tactic(auto)]

mod event;
mod filmed;
mod lane;
pub mod laws;
mod text;

pub use event::{LaneEvent, LaneReply};
pub use filmed::{LostFrames, Numbers, film_and_export};
pub use lane::{Lane, lane_run};
pub use text::{TextFault, record_and_export, run_and_reopen};
