//! Frame sources, and a modelled device: a tick takes a frame from a source and ends a buffer of a queue with it.
//!
//! A tick is one frame period. Its contract is one relation (`specs/Ticks`): its answer, given what the source
//! answered, and which events of the queue's model it is: 'taken fresh', and one end of a buffer or none.
//! `specs/Sources` has what the sources here give.
//!
//! - `source`: what a source is, and a box of one; `pattern`: frames whose bytes identify them; `footage`: frames of a
//!   YUV4MPEG2 input;
//! - `device`: the device, and its tick; `loan`: a device's source, lent.
//!
//! docs/capture.md says why it is so.
#![tactic(auto)]

mod device;
mod footage;
mod loan;
mod pattern;
mod source;

pub use device::{Device, NoMemory, Rest, Tick};
pub use footage::Y4mSource;
pub use loan::Loan;
pub use pattern::Pattern;
pub use source::{FrameSource, Next};
