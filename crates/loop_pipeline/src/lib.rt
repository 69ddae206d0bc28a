//! The way of a camera's frames from its device to its disk, by two threads. Each owns its half.
//!
//! - `front`: a device, its queue with the buffers, and the end of the ring to which its frames go; `back`: the other
//!   end of the ring, and the desks; `desks`: desks before stores, which are lent to visits; `guided`: what a back does
//!   by its guide; `ending`: both halves, brought together; `camera`: what is filmed;
//! - `film`: `film_camera` and `film_desks`, which run both, and what each does; `door`: where desks wait (`waiting`)
//!   that join a camera meanwhile; `guide`: what they ask and report; `visits`: what visitors of the desks may call;
//!   `bell`: where one sleeps until the other has work for it; `laws`: what follows;
//! - `next`: which desk takes the next block;
//! - `seat`: a desk that one thread owns, alone or with its calls noted; `entry`: what is noted of a call, and a
//!   caller's pass; `notes`: how it is noted;
//! - `several`: `film_all`, which films several cameras; `start_barrier`: where they wait until all have begun;
//! - `start`: a queue that a front may begin with, and how it is started; `buffers`: the memory of its buffers.
//!
//! The contracts of `Front::into_ended` and `Back::into_parts` say what each half keeps, and that of `film_camera` what
//! both do (`specs/Cameras`, `CameraKeeps`): the frames that waited and those that the source gave at ticks that
//! completed a buffer are, in order and with all bytes, those that came to the desk and those that still wait; each
//! that came was accepted or is counted; and of those that were accepted the footage is kept, whenever the power fails:
//! there is a desk after each answered call, so at each moment all is there that was answered before. Where calls aren't
//! noted, no frame waits at the desk in the end, or a flush was refused by a fault for which the guide gives up
//! (`settled`).
//!
//! Both programs film by it: `loop_cli record` and `loop_station`. Their desks' calls aren't noted; a recorder's are
//! (loop_recorder), and what was noted leads from a desk's opening to the desk (`specs/Notes`, `HasGoneOn`).
//!
//! docs/threads.md says why it is so.
#![tactic(auto)]

mod back;
mod bell;
mod buffers;
mod camera;
mod desks;
mod door;
mod ending;
mod entry;
mod film;
mod front;
mod guide;
mod guided;
pub mod laws;
mod next;
pub mod notes;
mod seat;
mod several;
mod start;
mod start_barrier;
mod visits;
mod waiting;

pub use back::{Back, BackParts, Brought, LostFrame, Reports, Told, Untold};
pub use bell::Bell;
pub use buffers::{Start, heap_start, mapped_start};
pub use camera::Camera;
pub use desks::Desks;
pub use door::Door;
pub use ending::{CameraEnd, end};
pub use entry::{Entry, FrameInfo, Noted, Pass, Receipt};
pub use film::{
    GuidedCamera, Inlet, Link, Unfilmed, film_back, film_camera, film_desks, film_front,
};
pub use front::{Begun, Front, FrontParts, TakeOutcome};
pub use guide::{Guide, ToldTick, UntoldTick};
pub use seat::{Notes, Noting, Seat, Taken};
pub use several::{Filmed, Outcome, Shot, film_all};
pub use start::{new_queue, start_queue};
pub use start_barrier::StartBarrier;
pub use visits::{Leave, Unlocks, Visits};
pub use waiting::Arrival;
