//! A desk of frames that wait before a store, and how they come to it from a queue of buffers.
//!
//! - `desk` has the desk and its calls, each of which is one call of the model in `specs/Desk`; `group`: the first of
//!   the frames that wait, stored as one group; `limits`: the limits of a desk, and what its calls return;
//! - `keep` has what `Desk::keep_time` does: the held frames of a time, locked, a clip for each run of their numbers
//!   (`specs/Keeps`);
//! - `hand` has what was taken from a queue; `front` the events of queue, table of fds and hand, each of which is one
//!   turn of the model in `specs/Front`: what the hand asks of the queue is an event of the queue's own model. Its
//!   functions are public; `frame` copies a frame's bytes out of a buffer's planes;
//! - `laws` has what follows for lists of calls, which keep the footage whenever the power fails (`specs/Footage`), and
//!   of events of a queue (`specs/Waiting`).
//!
//! Only private functions speak of `specs/Parts`.
//!
//! docs/lane.md says why it is so.
#![tactic(auto)]

mod desk;
mod frame;
pub mod front;
mod group;
mod hand;
mod keep;
pub mod laws;
mod limits;

pub use desk::Desk;
pub use hand::{Hand, LaneFault};
pub use keep::Kept;
pub use limits::{DeskLimits, Flushed, Outline, Space, Status};
pub use loop_store::frame_memory;
