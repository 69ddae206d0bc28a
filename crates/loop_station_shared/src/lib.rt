//! What the threads of a station share. It knows no camera's desk.
//!
//! `feed` has the frames that come, `losses` knows how many its source lost, `inbox` and `jobs` what a camera is asked
//! for, `answering` orders that are being answered, `notes` what a camera tells, `post` what a thread is told. `life` is
//! what is known and counted of a camera under one lock, `stored` what its stores hold, and `found` a clip with its
//! times.
//!
//! All lines go through `outlet`, and `tap` copies them to a further file or pipe; `spool` has those that wait for the
//! threads of `writers`.
#![tactic(auto)]

mod answering;
mod feed;
mod found;
mod inbox;
mod jobs;
mod life;
mod losses;
mod notes;
mod outlet;
mod post;
mod spool;
mod stored;
mod tap;
mod writers;

pub use answering::{Announcement, Answering, KeptClip, Message, NotTaken, Posts, SaveOrder};
pub use feed::{Feed, FeedSource, difference};
pub use found::FoundClip;
pub use inbox::Inbox;
pub use jobs::{AskedKeep, Job, Jobs, Request};
pub use life::{Life, source_name};
pub use losses::{Lost, Said};
pub use notes::{Note, Notes};
pub use outlet::Outlet;
pub use post::Post;
pub use spool::LineForm;
pub use stored::{Elsewhere, Extent, Member, Room, Stored, store_of};
pub use tap::Tap;
pub use writers::{run_outlet, run_tap};
