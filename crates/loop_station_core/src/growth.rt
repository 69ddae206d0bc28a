//! What is answered to a keep, and what is done of an event whose end lies ahead.

ghost use Rattle.std.specs.Prelude.{◌≡◌, ◌==◌, not, ◌≤◌, ◌<◌, ◌↔◌, IsTrue, true, false};
ghost use Rattle.std.specs.List.{list_any};
ghost use Rattle.loop_station_core.specs.declared.growth.GrowthTurn.TheVariants.{End, Leave, Release};
ghost use Rattle.loop_station_core.specs.declared.growth.EventEnd.TheVariants.{Refused, Whole};

/// Which lines answer a keep of a camera, besides one for each clip and each refusal.
#[derive(Clone, Copy)]
pub struct KeptAnswer {
    /// That the ring holds no frame of the time.
    pub none: bool,
    /// How much of the time is held, and where frames are missing, if some are.
    pub held: bool,
    /// That its end lies ahead.
    pub begun: bool,
}

/// The lines for a keep that has locked so many clips. `refused`: the desk refused to lock more; `is_whole`: nothing of
/// its time lies ahead.
pub fn kept_answer(clips: usize, refused: bool, is_whole: bool) -> KeptAnswer
    ensures none { IsTrue result.none ↔ ((clips ≡ 0) × (refused ≡ false)) }
    ensures held { IsTrue result.held ↔ ((is_whole ≡ true) × (1 ≤ clips)) }
    ensures begun { IsTrue result.begun ↔ (is_whole ≡ false) }
{
    KeptAnswer {
        none: clips == 0 && !refused,
        held: is_whole && clips > 0,
        begun: !is_whole,
    }
}

/// What is done next of an event whose end lies ahead.
#[derive(Clone, Copy, PartialEq, Eq)]
pub enum GrowthTurn {
    /// A clip that a longer one covers is released.
    Release,
    /// It is over, and told.
    End,
    /// It is left to the next start.
    Leave,
    /// Its keep has a turn.
    Keep,
}

/// What is done next: `covered`: a clip of it lies within a longer one; `is_done`: it is locked to its end; `until`:
/// its end. At a stop it is left where its end lies ahead.
pub fn next_growth(covered: bool, is_done: bool, stopping: bool, now: u64, until: u64) -> GrowthTurn
    ensures release { (result ≡ Release) ↔ (covered ≡ true) }
    ensures end { (result ≡ End) ↔ ((covered ≡ false) × (is_done ≡ true)) }
    ensures leave { (result ≡ Leave)
        ↔ ((covered ≡ false) × (is_done ≡ false) × (stopping ≡ true) × (now < until)) }
{
    if covered {
        return GrowthTurn::Release;
    }
    if is_done {
        return GrowthTurn::End;
    }
    if stopping && now < until {
        return GrowthTurn::Leave;
    }
    GrowthTurn::Keep
}

/// An event that isn't over, as the file of a camera's events has it.
#[derive(Clone, Copy)]
pub struct OpenEvent {
    /// Its number.
    pub event: u64,
    /// Its first and its last microsecond since 1970.
    pub since: u64,
    pub until: u64,
    /// The tag of its clips.
    pub tag: u64,
}

// Whether one of some events has a number.
fn has_event(events: &[OpenEvent], number: u64) -> bool
    ensures { result ≡ list_any (λ e. e.event == number) events.now }
{
    events.iter().any(|event| event.event == number)
}

/// Whether a clip with this tag of a store that was opened is saved by itself, of a camera whose clips are: not where
/// it is tagged with the number of an event that goes on, whose clips are saved once it is over. Where an event has a
/// tag of the user's, what it had locked before the program ended stays a clip of its own, and is saved.
pub fn is_saved_at_start(tag: u64, events: &[OpenEvent]) -> bool
    ensures { result ≡ not (list_any (λ e. e.event == tag) events.now) }
{
    !has_event(events, tag)
}

/// How an event ended.
#[derive(Clone, Copy, PartialEq, Eq)]
pub enum EventEnd {
    /// All of its time is held.
    Whole,
    /// The store refused to lock more.
    Refused,
    /// Frames are missing.
    Gaps,
}

/// How an event ended of which the store refused to lock more, or not, and all is held, or not.
pub fn event_end(refused: bool, all_held: bool) -> EventEnd
    ensures refused { (result ≡ Refused) ↔ (refused ≡ true) }
    ensures whole { (result ≡ Whole) ↔ ((refused ≡ false) × (all_held ≡ true)) }
{
    if refused {
        EventEnd::Refused
    } else if all_held {
        EventEnd::Whole
    } else {
        EventEnd::Gaps
    }
}
