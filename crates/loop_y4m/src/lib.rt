//! YUV4MPEG2, the text in which raw video is piped between programs (mjpegtools' yuv4mpeg(5)): written for a
//! geometry or from a store, and read from any reader.
//!
//! `specs/` has the written text (`Text`), what is exported of a store (`Export`), how a header line is read
//! (`Header`), which colours have more than 8 bits a sample (`Depths`), how a whole input is read (`Stream`) and what
//! an open reader answers (`Reader`). `Steps` has what the contracts of private functions say. The code:
//!
//! - `reader`: the `Y4mReader`, which gives an input's frames one after another; `fault`: what can be wrong
//!   with an input, why it has no geometry, and why an export ends;
//! - `header`: what a stream's header line says, and the geometry of a store for it; `number`: decimal numbers, whose
//!   value alone is limited; `depth`: how many bits a sample has;
//! - `input`: bytes and lines from a reader; `frame`: a frame's line and its bytes;
//! - `text`: the header and the frames as they are written; `exported`: the held frames of a store, so written;
//! - `laws`: that what is written is read back, and a run of calls gives all frames: contracts of functions
//!   that do nothing.
//!
//! Only `export` takes memory, for one piece of a frame.
//!
//! docs/y4m.md and docs/export.md say why it is so.
#![tactic(auto)]

mod depth;
mod exported;
mod fault;
mod frame;
mod header;
mod input;
pub mod laws;
mod number;
mod reader;
mod text;

pub use depth::Depth;
pub use exported::export;
pub use fault::{ExportFault, GeometryFault, Y4mFault};
pub use frame::FrameLine;
pub use header::Header;
pub use reader::Y4mReader;
pub use text::{
    may_have, write_deep_header, write_frame, write_frame_line, write_header, write_pixels,
};
