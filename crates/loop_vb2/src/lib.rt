//! The buffer queue of a capture device, after the V4L2 userspace API (streaming I/O) and videobuf2.
//!
//! A queue has up to 32 buffers. The application queues them and takes them back filled; the device fills the ones that
//! it was given. Each call is one event of the model in `specs/`: `Events` has the events with their answers, `State`
//! the state, `Checks` the checks of each call in their order, `Effects` and `Requests` what a call makes of the state,
//! `Answers` what it shows of a buffer, `Owner` whose a buffer is. A call that is refused changes nothing and hands
//! back every plane that it was given. Only `request` takes memory.
//!
//! - `queue` has the buffers and what each event makes of them; `application` and `device` the calls of either side,
//!   `request` that of the memory, `create` and `facts` a new queue and what it is; `checks` says why a call is
//!   refused;
//! - `buffer`, `state`, `flags`: one buffer; `planes`: its memory; `reason`: refusals with their errnos;
//! - `line`: buffers in order, by links between 32 places;
//! - `laws`: what follows from the definitions, over every list of events (`specs/Events`).
//!
//! docs/queue.md says why it is so.
#![tactic(auto)]

mod application;
mod buffer;
mod checks;
mod create;
mod device;
mod facts;
mod flags;
pub mod laws;
mod line;
mod planes;
mod queue;
mod reason;
mod request;
mod state;

pub use buffer::{Buffer, BufferInfo, Dequeued, Stamp};
pub use flags::BufferFlags;
pub use planes::{PlaneSet, Planes, Shape};
pub use queue::{MOST_BUFFERS, Queue};
pub use reason::{Errno, Reason, Refused};
pub use request::Granted;
pub use state::BufferState;
