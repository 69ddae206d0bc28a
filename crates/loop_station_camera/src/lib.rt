//! A camera of a station: what its threads share, and the orders that the thread of its desks does.
//!
//! Each module names only those before it. `growing` has the events whose end lies ahead, and what else waits at the
//! desk; `saves` which saves run and wait, and `whole` which clips were saved. `state` is what the threads of a camera
//! share. `times` tells what a source says of its frames.
//!
//! `reading` reads at the desks, `keeping` locks in each of a camera's stores, `replies` prints answers as lines, and
//! `unlocking` unlocks by `leave`: `releasing` what orders and saves let go, and `full` where every block is locked.
//! `event` finds the clips of an event, `growth` goes on with one, and `save` writes clips meanwhile; `fleet` has the
//! cameras that record now. `clerk` does a camera's orders by these, one after the other, between the flushes, and
//! `guide` lets it.
//!
//! A keep locks exactly the held frames of its time, as `Desks::keep` of loop_pipeline ensures.
#![tactic(auto)]

mod answered;
mod clerk;
mod ends;
mod event;
mod fleet;
mod full;
mod growing;
mod growth;
mod guide;
mod keeping;
mod leave;
mod reading;
mod releasing;
mod replies;
mod save;
mod saves;
mod state;
mod times;
mod unlocking;
mod whole;

pub use ends::{StoreEnds, ends_on, free_frames, going_blocks};
pub use fleet::Fleet;
pub use replies::tell_status;
pub use save::{automatic, begin, end_saves_of, run_saves, tell_ended};
pub use saves::{MOST_SAVES, Save, SaveTarget, Saves, TakenPaths};
pub use state::{CameraState, Common};
pub use times::{said_of, shown_at, tell_other, tell_source_on, tell_times};
