//! What is told of the times and the bits of a source's frames.

ghost use Rattle.std.specs.Prelude.{◌≡◌};
ghost use Rattle.loop_station_words.specs.declared.choices.TimesFrom.TheVariants.{Arrival};

use crate::state::CameraState;
use loop_record::Geometry;
use loop_station_shared::Said;
use loop_station_words::{Lines, TimesFrom, duration_of};
use std::io;
use std::sync::Wait;

/// What is said of each frame of a source with this geometry and so many bits a sample, but for its time.
pub fn said_of(state: &CameraState, geometry: &Geometry, bits: u32) -> Said {
    Said {
        bits,
        time: None,
        by_source: state.config.times_from == TimesFrom::Source,
        period: duration_of(1, geometry),
        number: None,
        losses: state.config.losses,
    }
}

/// How many gaps a source's times had, where they are those of its frames.
pub(crate) fn gaps_of<R: Wait>(rt: &R, state: &CameraState) -> Option<u64> {
    match state.config.times_from {
        TimesFrom::Source => Some(state.feed.gaps(rt)),
        TimesFrom::Arrival => None,
    }
}

/// How many microseconds a source's clock is ahead, where its times are those of its frames and it has said one.
pub(crate) fn clock_of<R: Wait>(rt: &R, state: &CameraState) -> Option<i64> {
    match state.config.times_from {
        TimesFrom::Source => state.feed.clock(rt),
        TimesFrom::Arrival => None,
    }
}

/// What the clock of a camera's frames shows at a time of the station's; `unknown` where no frame has come yet that says.
pub fn shown_at<R: Wait>(rt: &R, state: &CameraState, now: u64, unknown: u64) -> u64
    ensures { state.now.config.times_from ≡ Arrival → result ≡ now }
{
    match state.config.times_from {
        TimesFrom::Source => state.feed.shown(rt, now).unwrap_or(unknown),
        TimesFrom::Arrival => now,
    }
}

/// Tells that a source's times go back, that it has none, a gap in them, and what is wrong with its clock.
pub fn tell_times<R: Wait>(rt: &R, state: &CameraState, lines: &mut Lines) -> io::Result<()> {
    let (name, tells) = (state.config.name.as_str(), state.feed.tells(rt));
    if tells.back {
        lines.times_back(name)?;
    }
    if tells.untimed {
        lines.no_times(name)?;
    }
    if tells.anew {
        lines.numbers_anew(name)?;
    }
    if let Some((micros, at)) = tells.wrong {
        lines.wrong_time(name, micros, at)?;
    }
    if let Some((micros, at)) = tells.step {
        lines.clock_steps(name, micros, at)?;
    }
    match tells.gap {
        Some((micros, at)) => lines.frames_gap(name, micros, at),
        None => Ok(()),
    }
}

/// Tells that the frames of a source come.
pub fn tell_source_on<R: Wait>(
    rt: &R,
    state: &CameraState,
    geometry: &Geometry,
    lines: &mut Lines,
) -> io::Result<()> {
    let name = state.config.name.as_str();
    match state.life.bits(rt) {
        (8, _) => lines.source_on(name, geometry),
        (bits, _) => lines.deep_source_on(name, geometry, bits),
    }
}

/// Tells that the frames of a source aren't as its store has them.
pub fn tell_other<R: Wait>(
    rt: &R,
    state: &CameraState,
    geometry: &Geometry,
    lines: &mut Lines,
) -> io::Result<()> {
    let name = state.config.name.as_str();
    match state.life.bits(rt) {
        (8, None | Some(8)) => lines.other_geometry(name, geometry),
        (bits, there) => {
            let there = there.filter(|there| *there != bits);
            lines.other_bits(name, geometry, bits, there)
        }
    }
}
