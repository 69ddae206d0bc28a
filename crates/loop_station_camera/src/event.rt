//! The clips of an event, which one save writes as one text: all that have its tag, in whichever stores.

ghost use Rattle.std.specs.Prelude.{◌≡◌, ◌<◌, ◌++◌, IfOk, List, OnOk, length};
ghost use Rattle.std.specs.List.Sorted.{IsNonDecreasingBy, IsPermutation};
ghost use Rattle.loop_clips.specs.Table.{clip_list};
ghost use Rattle.loop_pipeline.specs.Backs.{GoesAt, IsSoAt};
ghost use Rattle.loop_station_shared.specs.declared.found.FoundClip.{FoundClip};
ghost use Rattle.loop_station_camera.specs.Events.{AreEnds, FindsTag, having_tag};
ghost use Rattle.loop_station_camera.specs.Keeping.{AreOnlyRead, IsOnlyRead};

use crate::reading::found_of;
use crate::state::CameraState;
use loop_disk::Disk;
use loop_pipeline::Desks;
use loop_station_core::clip_id;
use loop_station_shared::FoundClip;
use loop_store::{Clip, StoreFault};
use std::alloc::Global;
use std::sync::Wait;

/// The clips with a tag, by rising times, each with the ids that users know. Where two of one store overlap, the later
/// one begins after the earlier one here.
pub(crate) fn find_event<R: Wait, D: Disk + Drop>(
    rt: &R,
    alloc: Global,
    state: &CameraState,
    desks: &mut Desks<D, CameraState>,
    tag: u64,
) -> Result<Vec<FoundClip>, StoreFault>
    ensures finds { IfOk result (λ found. FindsTag tag desks.old.desks found.items) }
    ensures reads { AreOnlyRead D.medium desks.old.desks desks.new.desks }
    ensures lent { desks.new.lent ≡ desks.old.lent }
{
    let mut found = Vec::new(alloc);
    let count = desks.count();
    'places: for place in 0..count {
        let number = state.stored.number_at(rt, place);
        let clips = clips_tagged(alloc, desks, place, tag)?;
        add_clips(desks, place, number, &clips, &mut found)?;
    }
    found.sort_unstable_by_key(|clip: &FoundClip| clip.first);
    Ok(found)
}

// The clips of the store at a place that have a tag, by rising numbers.
fn clips_tagged<D: Disk + Drop>(
    alloc: Global,
    desks: &Desks<D, CameraState>,
    place: usize,
    tag: u64,
) -> Result<Vec<Clip>, StoreFault>
    requires { place < length desks.now.desks }
    ensures same { IfOk result (λ clips. IsSoAt place desks.now.desks
        (λ desk. IsPermutation (having_tag tag (clip_list 0 desk.store.clips)) clips.items)) }
    ensures sorted { IfOk result (λ clips. IsNonDecreasingBy (λ c. c.from) clips.items) }
{
    let outline = desks.outline(alloc, place)?;
    let mut clips = Vec::new(alloc);
    for clip in outline.clips.as_slice() {
        if clip.tag == tag && clips.push(*clip).is_err() {
            return Err(StoreFault::NoMemory);
        }
    }
    clips.sort_unstable_by_key(|clip: &Clip| clip.from);
    Ok(clips)
}

// Adds clips of the store at a place, which has a number: of each what those before it don't have.
fn add_clips<D: Disk + Drop>(
    desks: &mut Desks<D, CameraState>,
    place: usize,
    number: u32,
    clips: &[Clip],
    found: &mut Vec<FoundClip>,
) -> Result<(), StoreFault>
    requires place { place < length desks.old.desks }
    requires sorted { IsNonDecreasingBy (λ c. c.from) clips.now }
    ensures found { OnOk result ((part : List FoundClip) × (found.new.items ≡ found.old.items ++ part)
        × AreEnds number clips.now part) }
    ensures reads { GoesAt place desks.old.desks desks.new.desks (IsOnlyRead D.medium) }
    ensures lent { desks.new.lent ≡ desks.old.lent }
    ensures still { length desks.new.desks ≡ length desks.old.desks }
{
    // The first number past those of the clips before: it may be one that no clip can have.
    let mut next = 0u128;
    'clips: for clip in clips {
        if u128::from(clip.to) < next {
            continue;
        }
        let rest = Clip {
            id: clip_id(number, clip.id),
            from: clip.from.max(next as u64),
            ..*clip
        };
        next = u128::from(clip.to) + 1;
        let with_times = found_of(desks, place, rest)?;
        if found.push(with_times).is_err() {
            return Err(StoreFault::NoMemory);
        }
    }
    Ok(())
}
