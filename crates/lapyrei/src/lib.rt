//! The store's calls for C, which reach no file: each gets the file's bytes, opens the store over them, makes one call
//! and answers, with a log of what is to be done to the file. Its caller, `c/lapyrei.c`, does that in this order
//! before it reports the call.
//!
//! `calls` has the exported calls, `on_store` what they do to an open store, `open` what they share: the store over the
//! bytes, and the answer with the log. `memory` has that of a group, `bytes` is the log as bytes, and `answer` what C
//! gives and gets. A call is a function of the bytes alone: where it needs bytes that aren't there, or a longer log, it
//! is made again with them.
#![tactic(auto)]

mod answer;
mod bytes;
mod calls;
pub mod laws;
mod memory;
mod on_store;
mod open;

pub use answer::{Answer, Head, Known, Run, Shape};
