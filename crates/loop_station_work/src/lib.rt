//! A station: it records from cameras without end, and does orders meanwhile.
//!
//! Each camera has a thread for its source (`source`), which puts frames into its feed, and two threads that film it
//! (`filming`): the store is opened or made, and `film_desks` of loop_pipeline brings the frames to it. Where a camera
//! has several stores, one more thread opens and makes the others meanwhile (`opening`); `seeing` looks at their files
//! before that, `stores` says what they are, and `telling` what users hear of it.
//!
//! `run` starts all that; `crew` has the threads of one camera, `paths` what the configuration names, and `reload`
//! reads that anew: then cameras end and others begin while the rest record. `orders` reads orders and asks the
//! cameras, `printer` prints what they answer and begins saves, and `notes` writes down what goes on at the next start.
//! `events` prints what happens without an order, and `watch` sees that a source is silent, that a store was moved
//! away, and that the program stood still. What the threads share stands in loop_station_shared, and what a camera does
//! of its orders in loop_station_camera.
//!
//! What an order means, and the choice of a store's size, is proved in loop_station_words, and what a station decides
//! in loop_station_core. Each frame of the source comes to the desk, in order and whole, or is counted, and its footage
//! is kept: `film_desks` ensures that (`CameraKeeps`). No clause speaks of time, or of the order in which threads run.
//!
//! docs/station.md says why it is so.
#![tactic(auto)]

mod crew;
mod events;
mod filming;
mod notes;
mod opening;
mod orders;
mod paths;
mod printer;
mod reload;
mod run;
mod seeing;
mod source;
mod stores;
mod telling;
mod watch;

pub use loop_station_outside::Places;
pub use paths::NotBegun;
pub use run::run_station;
