//! Which desk of a camera takes the next block.

ghost use Rattle.std.specs.Prelude.{◌≡◌, ◌∷◌, ◌+◌, ◌++◌, ◌↔◌, ℕ, IfSome, List, None, Some, [], length, true};
ghost use Rattle.loop_desk.specs.declared.limits.Space.{Space};
ghost use Rattle.loop_pipeline.specs.Nexts.{IsBest, IsFull, TakesNext, IsSearch, with_last};

use loop_desk::Space;
use loop_record::is_older;

/// What the stores of the first desks have told, as far as it decides which desk takes the next block.
#[derive(Clone, Copy)]
pub(crate) struct Search {
    /// Whether the active one has a segment that holds no block.
    here: bool,
    /// The first that has one.
    free: Option<usize>,
    /// The first whose block that may go is the oldest, and the sequence of its first frame.
    oldest: Option<(usize, u32)>,
}

// The first of the first places with a segment that holds no block, and of one more.
fn first_free(found: Option<usize>, place: usize, space: Space) -> Option<usize>
    ensures { result ≡ with_last found space.free place }
{
    if found.is_none() && space.free {
        return Some(place);
    }
    found
}

// The oldest of the first places, and of one more, where `end` is one past the newest sequence.
fn older(best: Option<(usize, u32)>, end: u32, place: usize, space: Space) -> Option<(usize, u32)>
    ensures { (spaces : List Space) → place ≡ length spaces → IsBest end spaces place best
        → IsBest end (spaces ++ space ∷ []) (place + 1) result }
{
    let Some(sequence) = space.oldest else {
        return best;
    };
    match best {
        Some((_, least)) if !is_older(end, sequence, least) => best,
        _ => Some((place, sequence)),
    }
}

// The place alone.
fn place_of(best: Option<(usize, u32)>) -> Option<usize>
    ensures some { IfSome best (λ b. result ≡ Some b.0) }
    ensures none { best ≡ None → result ≡ None }
{
    match best {
        Some((place, _)) => Some(place),
        None => None,
    }
}

/// Whether a store has no room for a block: no segment is free, and no block may go.
pub(crate) fn is_full(space: Space) -> bool
    ensures { (result ≡ true) ↔ IsFull space }
{
    !space.free && space.oldest.is_none()
}

impl Search {
    /// Before a store has told anything.
    pub(crate) fn new() -> Search
        ensures { (end active : ℕ) → IsSearch end active [] result }
    {
        Search {
            here: false,
            free: None,
            oldest: None,
        }
    }

    /// After the store at the next place has told what it has. `end` is one past the newest sequence.
    pub(crate) fn with(self, active: usize, end: u32, place: usize, space: Space) -> Search
        ensures { (spaces : List Space) → place ≡ length spaces → IsSearch end active spaces self
            → IsSearch end active (spaces ++ space ∷ []) result }
    {
        Search {
            here: self.here || (space.free && place == active),
            free: first_free(self.free, place, space),
            oldest: older(self.oldest, end, place, space),
        }
    }

    /// The place of the desk that takes the next block: the active one, if it has a segment that holds no block; else
    /// the first that has one; else the one whose block that may go is the oldest, the first of such. None where no
    /// block may go.
    pub(crate) fn next(self, active: usize) -> Option<usize>
        ensures { (end : ℕ) (spaces : List Space) → IsSearch end active spaces self
            → TakesNext end active spaces result }
    {
        if self.here {
            return Some(active);
        }
        match self.free {
            Some(place) => Some(place),
            None => place_of(self.oldest),
        }
    }
}
