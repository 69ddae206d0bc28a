// The upgrade of a store's layout to version 2, in which clips have tags. docs/layout.md says why it is so.
ghost use Rattle.std.specs.Prelude.{◌≡◌, ◌+◌, ◌≤◌, ◌<◌, ℕ, IfErr, None, OnOk, length, replicate, slice_index_or, true};
ghost use Rattle.loop_clips.specs.Upgrade.{AreOpen, IsUpgraded};
ghost use Rattle.loop_disk.specs.Calls.{Called, Writes, failed_call, is_write_or_sync};
ghost use Rattle.loop_disk.specs.Medium.{IsSettled, LeavesOnly};
ghost use Rattle.loop_disk.specs.Steps.{Changes};
ghost use Rattle.loop_record.specs.Change.{HasNoTags, KeepsClips, SameButTags};
ghost use Rattle.loop_record.specs.Geometry.{clip_at};
ghost use Rattle.loop_record.specs.Layout.{clip_in, version_in};

use crate::ClipTable;
use crate::table::entry_place;
use loop_disk::{Disk, DiskFault, store};
use loop_record::{OPEN, Span, VERSION_GATE};

// Where the tag lies in an entry.
const TAG: u64 = 24;

// Overwrites the tag of an id with zeros.
fn clear_tag<D: Disk>(disk: &mut D, id: u32) -> Result<(), DiskFault>
    requires extent { 2560 ≤ (D.medium disk.old).size }
    requires id { id < 64 }
    ensures disk { (D.medium disk.old).honest
        → Writes (clip_at id + 24) (replicate 8 0) (D.medium disk.old) (D.medium disk.new) result }
    ensures fault { IfErr result (λ fault. is_write_or_sync fault ≡ true) }
    ensures called { Called (D.medium disk.old) (D.medium disk.new) (failed_call result) }
{
    disk.write_at(entry_place(id) + TAG, &[0; 8])
}

// Overwrites the tag of each clip with zeros.
fn clear_tags<D: Disk>(disk: &mut D, clips: &[Option<Span>]) -> Result<(), DiskFault>
    requires extent { 2560 ≤ (D.medium disk.old).size }
    requires count { length clips.now ≡ 64 }
    requires settled { (D.medium disk.old).honest → IsSettled (D.medium disk.old) }
    requires known { (D.medium disk.old).honest → AreOpen clips.now (D.medium disk.old).bytes }
    ensures moments { (D.medium disk.old).honest
        → LeavesOnly (D.medium disk.old) (D.medium disk.new) (SameButTags (D.medium disk.old).bytes) }
    ensures none { (D.medium disk.old).honest → OnOk result (HasNoTags 64 (D.medium disk.new).bytes) }
    ensures fault { IfErr result (λ fault. is_write_or_sync fault ≡ true) }
    ensures called { Called (D.medium disk.old) (D.medium disk.new) (failed_call result) }
{
    for id in 0..64u32 {
        if clips[id as usize].is_some() {
            clear_tag(disk, id)?;
        }
    }
    Ok(())
}

// Does the same between two syncs.
fn settle_tags<D: Disk>(disk: &mut D, clips: &[Option<Span>]) -> Result<(), DiskFault>
    requires extent { 2560 ≤ (D.medium disk.old).size }
    requires count { length clips.now ≡ 64 }
    requires settled { (D.medium disk.old).honest → IsSettled (D.medium disk.old) }
    requires known { (D.medium disk.old).honest → AreOpen clips.now (D.medium disk.old).bytes }
    ensures { let old = D.medium disk.old in
        Changes (SameButTags old.bytes) (HasNoTags 64) old (D.medium disk.new) result }
{
    disk.sync()?;
    clear_tags(disk, clips)?;
    disk.sync()
}

impl ClipTable {
    /// Makes version 2 of the layout from version 1: a sync, zeros over the tag of each clip, one write each, a sync,
    /// the version's gate, a sync. At Ok the layout has version 2, and the entries without a clip are as they were.
    /// After a failure, as at each moment before, it has version 1 or 2, and the same clips without tags.
    pub fn upgrade<D: Disk>(&self, disk: &mut D) -> Result<(), DiskFault>
        requires extent { 2560 ≤ (D.medium disk.old).size }
        requires settled { (D.medium disk.old).honest → IsSettled (D.medium disk.old) }
        requires version { (D.medium disk.old).honest → version_in (D.medium disk.old).bytes ≡ 1 }
        requires clips { (D.medium disk.old).honest
            → (id : ℕ) → id < 64 → clip_in (D.medium disk.old).bytes id ≡ slice_index_or self.now id None }
        ensures { let old = D.medium disk.old in
            Changes (KeepsClips old.bytes) (IsUpgraded old.bytes) old (D.medium disk.new) result }
    {
        settle_tags(disk, self.as_slice())?;
        store(disk, VERSION_GATE as u64, &[OPEN])
    }
}
