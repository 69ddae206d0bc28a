//! How a clip is unlocked, by leave, and what says that it was.

ghost use Rattle.std.specs.Prelude.{◌≡◌};

use crate::leave::DeskLeave;
use crate::reading::place_in;
use crate::state::CameraState;
use loop_disk::Disk;
use loop_pipeline::Desks;
use loop_station_core::MayUnlock;
use loop_store::StoreFault;
use std::sync::Wait;

/// A clip that was unlocked: the line that tells it is told from this.
#[derive(Drop)]
pub(crate) struct Unlocked {
    id: u32,
}

impl Unlocked {
    /// The id by which users know it.
    pub fn id(&self) -> u32 {
        self.id
    }
}

/// Unlocks a clip in the store that has it, by leave. Once the leave is used, it is gone, whatever the disk answers.
pub(crate) fn unlock<R: Wait, D: Disk + Drop>(
    rt: &R,
    state: &CameraState,
    desks: &mut Desks<D, CameraState>,
    leave: MayUnlock,
) -> Result<Unlocked, StoreFault>
    ensures { desks.new.lent ≡ desks.old.lent }
{
    let id = leave.clip().id;
    let Some(place) = place_in(rt, state, desks, id) else {
        return Err(StoreFault::NoSuchClip);
    };
    desks.unlock_clip(place, DeskLeave::of(leave))?;
    state.remove_clip(rt, id);
    Ok(Unlocked { id })
}
