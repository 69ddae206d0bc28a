//! What of a keep's time is held.

ghost use Rattle.std.specs.Prelude.{◌≡◌, ◌-◌, ◌^◌, [], ◌∷◌, IfOk, filter, min, option_to_list};
ghost use Rattle.loop_station_core.specs.Gaps.{frames_lost, gaps, is_gap, micros_missing};

use std::alloc::{AllocError, Global};

/// Frames that are held with no gap between them: when the first and the last of them came, in microseconds since 1970.
#[derive(Clone, Copy)]
pub struct Run {
    pub first: u64,
    pub last: u64,
    /// How many frames are lost between the run before and this one.
    pub lost: u64,
}

/// A time in which no frame is held.
#[derive(Clone, Copy)]
pub struct Gap {
    /// How many microseconds it lasts.
    pub micros: u64,
    /// When the last frame before it came, or when the keep's time begins.
    pub at: u64,
    /// How many frames are lost there.
    pub lost: u64,
}

/// How much of a keep's time is held.
#[derive(Drop)]
pub struct Shortfall {
    /// How many microseconds of it are held.
    pub held: u64,
    /// How many microseconds were asked for.
    pub asked: u64,
    /// How many frames are lost in it.
    pub lost: u64,
    /// The rest, in order.
    pub gaps: Vec<Gap>,
}

// A gap that lasts from one time to another, where frames are lost, or it is long.
fn gap_between(at: u64, to: u64, lost: u64, period: u64) -> Option<Gap>
    ensures { option_to_list result
        ≡ filter (is_gap period) (record { micros = to - at; at = at; lost = lost } ∷ []) }
{
    let micros = to.saturating_sub(at);
    if lost > 0 || micros > period && micros - period > period / 2 {
        return Some(Gap { micros, at, lost });
    }
    None
}

// How long gaps are together, at most the greatest u64.
fn missing_of(gaps: &[Gap]) -> u64
    ensures { result ≡ min (micros_missing gaps.now) (2 ^ 64 - 1) }
{
    let mut micros = 0u64;
    for gap in gaps {
        micros = micros.saturating_add(gap.micros);
    }
    micros
}

// How many frames are lost in gaps, at most the greatest u64.
fn lost_in(gaps: &[Gap]) -> u64
    ensures { result ≡ min (frames_lost gaps.now) (2 ^ 64 - 1) }
{
    let mut lost = 0u64;
    for gap in gaps {
        lost = lost.saturating_add(gap.lost);
    }
    lost
}

/// What is missing of the time from `since` to `until`, where these runs are held, in their order. `period` is how many
/// microseconds pass from a frame to the next. A gap is where frames are lost between two runs, or where two neighbours
/// are more than one and a half periods apart: the end of a run and the beginning of the next, or the end of the time and
/// the run beside it.
pub fn shortfall_of(
    alloc: Global,
    runs: &[Run],
    since: u64,
    until: u64,
    period: u64,
) -> Result<Shortfall, AllocError>
    ensures gaps { IfOk result (λ s. s.gaps.items ≡ gaps period since runs.now until) }
    ensures held { IfOk result (λ s. (s.asked ≡ until - since)
        × (s.held ≡ s.asked - micros_missing s.gaps.items)) }
    ensures lost { IfOk result (λ s. s.lost ≡ min (frames_lost s.gaps.items) (2 ^ 64 - 1)) }
{
    let mut gaps = Vec::new(alloc);
    let mut at = since;
    for run in runs {
        if let Some(gap) = gap_between(at, run.first, run.lost, period) {
            gaps.push(gap)?;
        }
        at = run.last;
    }
    if let Some(gap) = gap_between(at, until, 0, period) {
        gaps.push(gap)?;
    }
    let asked = until.saturating_sub(since);
    Ok(Shortfall {
        held: asked.saturating_sub(missing_of(&gaps)),
        asked,
        lost: lost_in(&gaps),
        gaps,
    })
}
