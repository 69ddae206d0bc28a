//! What a station decides, without a thread, a lock, a file or a clock: a caller says what it sees and at what time,
//! and gets what to do. So the same code runs in the station and in a simulation of it.
//!
//! - `tally`: what is counted of a camera's frames; each that came is on its way, at the desk, stored, or lost;
//! - `camera`: whether a camera is filmed, when a filming ends and what follows, and the state of its source;
//! - `keep`: of which times a keep is, when it locks, and when it is done; the numbers and the tags of events;
//! - `growth`: which lines answer a keep, what is done of an event whose end lies ahead, and which clips a start saves;
//! - `runs`: what of a keep's time is held, and the gaps in it;
//! - `search`: which frames of a clip are looked at to find where some are missing;
//! - `losses`: how many frames a source lost that doesn't number them;
//! - `saves`: places of saves: which begins, which waits, and which clips are read meanwhile;
//! - `save_end`: what is told of a save's end, whether and when it is tried again;
//! - `retries`: which saves are tried again, and when;
//! - `clips`: which clips may be released, and how many keeps have room;
//! - `leave`: leave to unlock a clip: these decisions give it, for the clip that they were shown;
//! - `full`: which clip is released where every block is locked;
//! - `reload`: which cameras end, begin and go on where the configuration is read anew;
//! - `text`: the steps by which the text of a save gets its name;
//! - `orders`: which orders of a camera are taken in, and whether one is being done;
//! - `replies`: the answers of the cameras that an order means, and when it is answered;
//! - `tellings`: in which order the lines of a camera are told;
//! - `spool`: which lines on their way to a reader are dropped;
//! - `stores`: whether a store was moved away, or goes on;
//! - `still`: whether the program stood still;
//! - `marks`: what stands in a frame's flags: its bits, and whether it came late;
//! - `timing`: the times that a source says of its frames, and the gaps between them;
//! - `clock`: how far a source's clock is ahead, and which of its times are none;
//! - `newest`: which of a camera's stores has the newest frame, and which is opened next;
//! - `changes`: which lines about a camera follow from what is seen of it;
//! - `laws`: what holds over any list of events, each law the contract of a function that does nothing.
//!
//! Each call is a step of the model in `specs`: `Frames` for tallies, `Cameras`, `Keeps`, `Growth`, `Gaps` for runs,
//! `Search`, `Losses`, `Saving`, `SaveEnds`, `Retries`, `Clips`, `Texts`, `Orders`, `Answers` for replies, `Telling` for
//! lines, `Tellings` for their order, `Full`, `Reloads`, `Spools`, `Stores`, `Still`, `Sets`, `Clocks`, `Newest`.
//!
//! `Laws` says what follows of it: frames add up; a keep locks only the times of its line, and only once each frame
//! that had come before that line is at the desk or lost, or every block is locked, or no frame has made progress for
//! a minute; what is held of a time and its gaps are all of it; each frame that is lost in a clip is found, and no
//! other; a clip that a save reads isn't released, and one that a save releases has a whole text; a text is told as
//! saved once it is on the disk; an order that is taken in waits or is handed out; a line says what was so, and each
//! lost frame is told once.
#![tactic(auto)]

mod camera;
mod changes;
mod clips;
mod clock;
mod full;
mod growth;
mod keep;
pub mod laws;
mod leave;
mod losses;
mod marks;
mod newest;
mod orders;
mod reload;
mod replies;
mod retries;
mod runs;
mod save_end;
mod saves;
mod search;
mod sets;
mod spool;
mod still;
mod stores;
mod tally;
mod tellings;
mod text;
mod timing;

pub use camera::Act;
pub use camera::Camera;
pub use camera::Event;
pub use camera::FilmingEvent;
pub use camera::SourceEvent;
pub use changes::Change;
pub use changes::Changes;
pub use changes::DiskSeen;
pub use changes::KINDS;
pub use changes::NOT_THERE_YET;
pub use changes::Reported;
pub use changes::Seen;
pub use changes::SourceSeen;
pub use changes::StoreSeen;
pub use clips::MayRelease;
pub use clips::keeps_in;
pub use clips::may_release;
pub use clips::may_release_saved;
pub use clock::EVEN;
pub use clock::Heard;
pub use clock::MEASURED;
pub use clock::SourceClock;
pub use clock::Verdict;
pub use clock::ahead_of;
pub use clock::by_source;
pub use clock::judged;
pub use clock::median;
pub use full::FullRule;
pub use full::LockedClip;
pub use growth::EventEnd;
pub use growth::GrowthTurn;
pub use growth::KeptAnswer;
pub use growth::OpenEvent;
pub use growth::event_end;
pub use growth::is_saved_at_start;
pub use growth::kept_answer;
pub use growth::next_growth;
pub use keep::Keep;
pub use keep::KeepPeriod;
pub use keep::KeepTurn;
pub use keep::Look;
pub use keep::Numbers;
pub use keep::asked_time;
pub use keep::bounds;
pub use keep::is_too_far;
pub use keep::next_turn;
pub use keep::tag_of;
pub use leave::MayUnlock;
pub use leave::ShownClip;
pub use losses::MOST_DISTANCES;
pub use losses::lost_by_time;
pub use marks::bits_of;
pub use marks::came_late;
pub use marks::mark;
pub use newest::NewestSeen;
pub use newest::StoreNewest;
pub use newest::holds_back;
pub use newest::opens_before;
pub use orders::AddedOrder;
pub use orders::Attended;
pub use orders::MOST_ORDERS;
pub use orders::Orders;
pub use reload::Fate;
pub use reload::fate_of;
pub use replies::Replies;
pub use retries::Retries;
pub use runs::Gap;
pub use runs::Run;
pub use runs::Shortfall;
pub use runs::shortfall_of;
pub use save_end::SaveEnd;
pub use save_end::SaveLine;
pub use save_end::after_save;
pub use save_end::is_saved;
pub use saves::Asked;
pub use saves::Cancelled;
pub use saves::Ended;
pub use saves::SaveKey;
pub use saves::Saves;
pub use saves::StoppedSave;
pub use search::Mark;
pub use search::Search;
pub use search::SearchTurn;
pub use search::lost_between;
pub use sets::clip_id;
pub use sets::held_after;
pub use sets::id_parts;
pub use spool::MOST_SPOOLED;
pub use spool::drops_oldest;
pub use spool::says_dropped;
pub use spool::takes_line;
pub use still::stood_still;
pub use stores::goes_on;
pub use stores::is_moved;
pub use tally::Tally;
pub use tellings::MOST_TELLINGS;
pub use tellings::Tellings;
pub use tellings::ToldWhen;
pub use text::TextStep;
pub use text::next_text_step;
pub use timing::Arrival;
pub use timing::Stamped;
pub use timing::Timing;
