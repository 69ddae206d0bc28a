//! What visitors of a desk may call, and when its frames may be given up.

use crate::Noting;
use loop_record::Span;

/// What visitors of a camera's desk may call, between what its filming does by itself: submits and flushes; and whether
/// each call is noted.
pub trait Visits: Noting {
    ghost use Rattle.std.specs.Prelude.{⊤};
    ghost use Rattle.loop_desk.specs.Desk.{DeskCall};
    ghost use Rattle.loop_store.specs.declared.fault.StoreFault.{StoreFault};

    /// Holds of the calls that they may make, with their answers.
    ghost asks: { DeskCall → Type 0 };

    /// Holds of the faults of a flush for which frames are given up.
    ghost gives_up: { StoreFault → Type 0 } = { λ fault. ⊤ };

    /// Whether there are visitors at all.
    const VISITED: bool;
}

/// Leave to unlock a clip of a desk, once: whoever unlocks gives it away (`Desks::unlock_clip`). It says which clip is
/// meant: its id, and the clip itself, since its id may be another clip's by then.
pub trait Leave {
    ghost use Rattle.std.specs.Prelude.{◌≡◌, ℕ};
    ghost use Rattle.loop_record.specs.declared.clip.Span.{Span};

    /// The id of the clip at its desk.
    ghost id: { Self → ℕ };

    /// The clip.
    ghost clip: { Self → Span };

    /// The id of the clip at its desk.
    fn id(&self) -> u32
        ensures { result ≡ id self.now };

    /// The clip.
    fn clip(&self) -> Span
        ensures { result ≡ clip self.now };
}

/// Visits that may unlock clips, each by leave of one type. Visits that aren't such unlock none.
pub trait Unlocks: Visits {
    type Leave: Leave + Drop;
}
