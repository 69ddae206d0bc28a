//! What holds of several stores that are used as one long ring, as those of a camera are.
//!
//! `specs/Stores` says how frames come to them: what each store tells of the room that it has (`TellsSpace` of
//! `loop_desk`), the rule by which one of them takes the next block (`TakesNext` of `loop_pipeline`), and the steps of
//! an append (`loop_record`). `specs/Laws` says how much they hold then. The functions do nothing: their contracts are
//! the laws.
//!
//! The laws are of plain recordings. That a camera's stores stand for such ones is said by the contracts of
//! `loop_store` and `loop_desk`; `a_filming_chooses` says of what happens to a camera's desks (`DeskEvents` of
//! `loop_pipeline`, `specs/Filmings`) that each choice of a store is one by this rule, and `a_filming_is_a_run` that a
//! stretch of a filming in which all goes well is a `Run` (`specs/FilmingRuns`): so the newest frames are there after
//! it (`a_filming_holds_the_newest`). No law says that of a stretch in which a frame is refused, a flush fails, or a
//! visit locks or unlocks.
#![tactic(auto)]

ghost use Rattle.loop_laws.specs.FilmingRuns.{FilmingHoldsNewest, FilmingIsRun, UnlockedNeverFull};
ghost use Rattle.loop_laws.specs.Filmings.{FrameIsChoice, TurnIsChoice};
ghost use Rattle.loop_laws.specs.Laws.{StoresGoOn, StoresHoldNewest};

use loop_disk::Disk;

/// Stores in which nothing was recorded at first and nothing is locked hold the newest of all frames that came, each
/// store those that it took, over any groups of frames, starts of a filming, and empty stores that join. Of the frames
/// that came since there have been so many stores, all are held, or at least as many as fill all segments of all these
/// but one, and one more. The frames are counted, fewer than 2^32 of them with those that were lost: no time decides.
pub fn stores_hold_the_newest()
    ensures { StoresHoldNewest }
{}

/// And they go on, where fewer blocks are kept than a store has segments: whatever they tell, one of them takes the
/// next block; and each group is taken that the active store's block has room for, as long as no store's numbers are
/// spent.
pub fn stores_go_on()
    ensures { StoresGoOn }
{}

/// What a filming chooses is chosen by the rule of these laws, of the recordings for which its desks stand: the desk to
/// which it turns, and the one to which a frame is brought between two blocks, where any store has room for a block.
pub fn a_filming_chooses<D: Disk + Drop>(disk: &D)
    ensures turns { TurnIsChoice D.medium }
    ensures frames { FrameIsChoice D.medium }
{
    let _any = disk;
}

/// A stretch of a filming in which all goes well is a run of the long ring: several desks at which nothing waits at
/// first accept each frame and do each flush, turns lead from one to another, visits change nothing, empty stores join,
/// and one store always has room for a block. Then the stores took, group by group, each by the rule, just the frames
/// that the desks accepted, in order and each in the store of its desk, but for those that still wait at the active
/// one.
pub fn a_filming_is_a_run<D: Disk + Drop>(disk: &D)
    ensures { FilmingIsRun D.medium }
{
    let _any = disk;
}

/// A store in which nothing is locked always has room for a block, where fewer blocks are kept than it has segments.
pub fn an_unlocked_store_never_fills()
    ensures { UnlockedNeverFull }
{}

/// So after such a stretch the stores hold the newest of all frames that came to them, each store those that it took:
/// where they were empty at first, and runs, starts and stores that joined led to what the desks stood for before it.
/// What still waits isn't among them.
pub fn a_filming_holds_the_newest<D: Disk + Drop>(disk: &D)
    ensures { FilmingHoldsNewest D.medium }
{
    let _any = disk;
}
