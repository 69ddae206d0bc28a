//! The ioctls of a capture device: a queue of buffers, and a table in which fds name DMA-BUF planes.
//!
//! - `call` has what an ioctl is given and what it answers;
//! - `dispatch` has `apply`: one ioctl is one step of queue and table, and a refused one changes neither;
//! - `put` has QBUF and PREPARE_BUF, and `fds` how the planes of a set are taken from the table and given back;
//! - `events` has `react`: an ioctl or a call of the device, and `run_events`: a list of them, each answered in turn;
//! - `laws` has what follows from the definitions.
//!
//! Of `specs/`, `Calls` has the model of an ioctl: which event of the queue's own model it is, and what it makes of the
//! fds. `Names` has that of the fds, `Attached` what holds of both (each fd of a plane that a queue holds is attached,
//! and no two are the same), `Events` that of a list and of the device's calls, and `Modelled` the order of a run's
//! events. Only private functions speak of `Parts`.
//!
//! docs/queue.md says why it is so.
#![tactic(auto)]

mod call;
mod dispatch;
mod events;
mod fds;
pub mod laws;
mod put;

pub use call::{BufferMemory, BufferType, Ioctl, IoctlReply, PlaneFds};
pub use dispatch::{apply, hand_back};
pub use events::{QueueEvent, QueueReply, are_whole, is_whole, react, run_events};
