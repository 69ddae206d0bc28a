//! Finds the recording on a disk again.

ghost use Rattle.std.specs.Prelude.{◌≡◌, ℕ, List, Err, IfErr, IfOk, false, not, true};
ghost use Rattle.loop_disk.specs.Calls.{Called, Stays};
ghost use Rattle.loop_disk.specs.Medium.{IsSettled, LeavesOnly, MayBe};
ghost use Rattle.loop_record.specs.Reading.{reading};
ghost use Rattle.loop_store.specs.Faults.{is_disk, failed_in};
ghost use Rattle.loop_store.specs.Make.{WasOr};
ghost use Rattle.loop_store.specs.Reopen.{IsRefusedOpen, ReadsAlike, OpensKeeping, is_bad_keep};
ghost use Rattle.loop_store.specs.Grow.{Brings};
ghost use Rattle.loop_store.specs.Found.{Finds};
ghost use Rattle.loop_store.specs.Index.{IsFitting, IsRecoveredIn, SaysRecording, keeping};
ghost use Rattle.loop_store.specs.Store.{IsLookedUp, IsPresent};

use crate::index::Index;
use crate::recover::recover;
use crate::{OpenRefused, Store, StoreFault};
use loop_disk::{Disk, DiskFault};
use loop_record::Geometry;
use std::alloc::Allocator;

// Syncs, so that a stop leaves what a read gives, and finds what the disk's image reads as.
fn reread<D: Disk, A: Allocator + Copy>(alloc: A, disk: &mut D) -> Result<Index<A>, StoreFault>
    ensures known { IfOk result (λ index. IsFitting index (D.medium disk.old).size × SaysRecording index) }
    ensures settled { (D.medium disk.old).honest → IfOk result (λ index. IsSettled (D.medium disk.new)) }
    ensures finds { Finds (λ image index. IsRecoveredIn index image) (λ image fault. reading image ≡ Err fault)
        (D.medium disk.old) (D.medium disk.new) result }
{
    disk.sync()?;
    recover(alloc, disk)
}

// Closes the stray gates that a stop may have left in the block of the next number. The other segments have all their
// frames, so none of their gates can be stray.
fn clear_newest<D: Disk, A: Allocator>(disk: &mut D, index: &Index<A>) -> Result<(), DiskFault>
    requires fits { IsFitting index.now (D.medium disk.old).size }
    requires settled { (D.medium disk.old).honest → IsSettled (D.medium disk.old) }
    requires told { (D.medium disk.old).honest → IsRecoveredIn index.now (D.medium disk.old).bytes }
    ensures { let old = D.medium disk.old in
        Brings (ReadsAlike old.bytes) (IsPresent index.now) old (D.medium disk.new) result }
{
    let slots = u64::from(index.ring.geometry.slots);
    match index.find(index.next / slots) {
        Some(segment) => index
            .ring
            .clear_stray(disk, segment, (index.next % slots) as u32),
        None => Ok(()),
    }
}

/// Whether this many of the newest blocks can be kept in a ring of this geometry: at least one, and fewer than there
/// are segments.
pub fn can_keep(geometry: &Geometry, keep: u32) -> bool
    ensures { result ≡ not (is_bad_keep geometry.now.segments keep) }
{
    0 < keep && keep < geometry.segments
}

// Keeps this many of the newest blocks. `BadKeep` where they can't be kept.
fn keep_newest<A: Allocator>(index: &mut Index<A>, keep: u32) -> Result<(), StoreFault>
    ensures kept { IfOk result (λ done. (index.new ≡ keeping keep index.old)
        × (is_bad_keep index.old.ring.geometry.segments keep ≡ false)) }
    ensures bad { IfErr result (λ fault. (fault ≡ StoreFault.BadKeep)
        × (is_bad_keep index.old.ring.geometry.segments keep ≡ true)) }
{
    if !can_keep(&index.ring.geometry, keep) {
        return Err(StoreFault::BadKeep);
    }
    index.table.keep_newest(keep);
    Ok(())
}

// Syncs, finds what the disk's image reads as, and keeps this many of the newest blocks. It writes nothing.
fn find<D: Disk, A: Allocator + Copy>(
    alloc: A,
    disk: &mut D,
    keep: u32,
) -> Result<Index<A>, StoreFault>
    ensures known { IfOk result (λ index. IsFitting index (D.medium disk.old).size × SaysRecording index) }
    ensures kept { IfOk result (λ index. (index.table.keep ≡ keep)
        × (is_bad_keep index.ring.geometry.segments keep ≡ false)) }
    ensures settled { (D.medium disk.old).honest → IfOk result (λ index. IsSettled (D.medium disk.new)) }
    ensures found { (image : List ℕ) → MayBe (D.medium disk.new) image
        → IfOk result (λ index. IsRecoveredIn index image) }
    ensures gives { (image : List ℕ) → MayBe (D.medium disk.new) image → MayBe (D.medium disk.old) image }
    ensures refused { (image : List ℕ) → MayBe (D.medium disk.new) image → IfErr result (IsRefusedOpen keep image) }
    ensures stays { (D.medium disk.old).honest → Stays (D.medium disk.old) (D.medium disk.new) }
    ensures called { Called (D.medium disk.old) (D.medium disk.new) (failed_in result) }
{
    let mut index = reread(alloc, disk)?;
    keep_newest(&mut index, keep)?;
    Ok(index)
}

// Finds the recording on a disk again, and prepares the disk for a store.
fn reopen<D: Disk, A: Allocator + Copy>(
    alloc: A,
    disk: &mut D,
    keep: u32,
) -> Result<Index<A>, StoreFault>
    ensures known { IfOk result (λ found. IsFitting found (D.medium disk.new).size × SaysRecording found) }
    ensures kept { IfOk result (λ found. (found.table.keep ≡ keep)
        × (is_bad_keep found.ring.geometry.segments keep ≡ false)) }
    ensures looked { IfOk result (IsLookedUp D.medium disk.old) }
    ensures present { (D.medium disk.old).honest → IfOk result (λ found. IsPresent found (D.medium disk.new)) }
    ensures refused { (image : List ℕ) → MayBe (D.medium disk.new) image → IfErr result (IsRefusedOpen keep image) }
    ensures moments { (D.medium disk.old).honest
        → LeavesOnly (D.medium disk.old) (D.medium disk.new)
        (WasOr (D.medium disk.old) (ReadsAlike (D.medium disk.old).bytes)) }
    ensures alike { (D.medium disk.old).honest → ReadsAlike (D.medium disk.old).bytes (D.medium disk.new).bytes }
    ensures stays { (D.medium disk.old).honest
        → IfErr result (λ fault. is_disk fault ≡ false → Stays (D.medium disk.old) (D.medium disk.new)) }
    ensures called { Called (D.medium disk.old) (D.medium disk.new) (failed_in result) }
{
    let index = find(alloc, disk, keep)?;
    clear_newest(disk, &index)?;
    Ok(index)
}

impl<D: Disk + Drop, A: Allocator + Copy> Store<D, A> {
    /// Finds the recording on a disk again, and returns its store, which keeps the newest block.
    ///
    /// First it syncs, so that a stop leaves what a read gives. Then it reads the superblock, each header, the first
    /// `HEAD_SIZE` bytes of each slot before the first closed gate of an open segment, and the clip table. It takes
    /// all memory on the way. Last it closes the frame gates of the newest segment that a stop left open after the
    /// first closed one. That is one read where there is a gate after it, and a write and a sync where one of them is
    /// open.
    ///
    /// `NotFormatted` where the disk has no open superblock; `Damaged` with the first damage in the layout's order;
    /// `NoMemory`, before the first write; `Disk` where a call failed. Each hands the disk back, and its image reads
    /// as before. So does each image that a stop within the call leaves, unless a stop before the call could have left
    /// it.
    pub fn open(alloc: A, disk: D) -> Result<Store<D, A>, OpenRefused<D>>
        ensures { OpensKeeping D.medium 1 disk result }
    {
        Store::open_keeping(alloc, disk, 1)
    }

    /// Does the same, and from then on the `keep` newest blocks of held frames never go: where every other block is
    /// locked by a clip, an append is refused as `AllLocked`. The disk doesn't record how many are kept: each store
    /// has its own count.
    ///
    /// `BadKeep`, after `NotFormatted` and `Damaged`, where `keep` is 0 or above the number of segments less one. It
    /// hands the disk back, with nothing written to it.
    pub fn open_keeping(alloc: A, disk: D, keep: u32) -> Result<Store<D, A>, OpenRefused<D>>
        ensures { OpensKeeping D.medium keep disk result }
    {
        let mut disk = disk;
        match reopen(alloc, &mut disk, keep) {
            Ok(index) => Ok(Store {
                disk,
                index,
                must_reopen: false,
            }),
            Err(fault) => Err(OpenRefused { fault, disk }),
        }
    }
}
