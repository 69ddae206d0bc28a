// The clips of a store in memory: the place of a clip is its id.
ghost use Rattle.std.specs.Prelude.{◌≡◌, ◌≢◌, ◌≤◌, ◌<◌, IfOk, IfSome, IsTrue, List, None, Option, Some, is_some, length, not, position, replicate, slice_index_or, slice_set};
ghost use Rattle.std.specs.List.{list_any};
ghost use Rattle.loop_clips.specs.Table.{IsFirstFree, ShowsClipOrNot, clip_list};
ghost use Rattle.loop_disk.specs.Medium.{IsSettled};
ghost use Rattle.loop_disk.specs.Steps.{Changes};
ghost use Rattle.loop_record.specs.Change.{ShowsClip};
ghost use Rattle.loop_record.specs.declared.clip.Span.{Span};
ghost use Rattle.loop_record.specs.Geometry.{clip_at, is_good};
ghost use Rattle.loop_record.specs.Layout.{clip_in, has_tag_place, version_in};
ghost use Rattle.loop_record.specs.Recording.{meets, ring_of};

use crate::Clip;
use loop_disk::{Disk, DiskFault, store, store_in_turn};
use loop_record::{CLIP_SIZE, Geometry, SUPER_SIZE, Span, encode_clip, is_locked};
use std::alloc::{AllocError, Allocator};
use std::marker::Model;

/// The most clips that a store has.
pub const CLIPS: usize = 64;

/// The clips of a store. In contracts it is a list: the clip of each id, from 0 to 63, or none.
#[derive(Drop)]
pub struct ClipTable {
    clips: [Option<Span>; CLIPS],
}

impl Model for ClipTable {
    ghost Value = { List (Option Span) };

    ghost view = { λ table. table.clips };

    ghost invariant = { λ table. length table.clips ≡ 64 };
}

impl ClipTable {
    /// A table without a clip.
    pub fn empty() -> ClipTable
        ensures { result ≡ replicate 64 None }
    {
        ClipTable {
            clips: [None; CLIPS],
        }
    }

    /// A table of clips that were read before: the place of each is its id.
    pub fn of(clips: [Option<Span>; CLIPS]) -> ClipTable
        ensures { result ≡ clips }
    {
        ClipTable { clips }
    }

    /// The clip of each id, or none.
    pub fn as_slice(&self) -> &[Option<Span>]
        ensures clips { result.now ≡ self.now }
        ensures count { length result.now ≡ 64 }
    {
        &self.clips
    }

    /// The clip of an id, if it has one.
    pub fn get(&self, id: u32) -> Option<Span>
        ensures clip { result ≡ slice_index_or self.now id None }
        ensures within { IfSome result (λ span. id < 64) }
    {
        if (id as usize) < CLIPS {
            self.clips[id as usize]
        } else {
            None
        }
    }

    /// The least id that has no clip, if there is one.
    pub fn free_id(&self) -> Option<u32>
        ensures { IsFirstFree self.now result }
    {
        match free_place(&self.clips) {
            Some(place) => Some(place as u32),
            None => None,
        }
    }

    /// Writes a clip under an id that has none, with a tag other than 0 only in version 2 of the layout: the entry
    /// without its gate, a sync, the gate, a sync. At Ok the clip is on the disk; after a failure, as at each moment
    /// before, it is there or it isn't. It doesn't change the table in memory: that is what `set` is for.
    pub fn lock<D: Disk>(&self, disk: &mut D, id: u32, span: Span) -> Result<(), DiskFault>
        requires extent { 2560 ≤ (D.medium disk.old).size }
        requires id { id < 64 }
        requires settled { (D.medium disk.old).honest → IsSettled (D.medium disk.old) }
        requires closed { (D.medium disk.old).honest → clip_in (D.medium disk.old).bytes id ≡ None }
        requires tag { (D.medium disk.old).honest
            → IsTrue (has_tag_place (version_in (D.medium disk.old).bytes) span) }
        ensures { let old = D.medium disk.old in
            Changes (ShowsClipOrNot id (Some span) old.bytes) (ShowsClip id (Some span) old.bytes) old
            (D.medium disk.new) result }
    {
        let mut entry = [0; CLIP_SIZE];
        encode_clip(span, &mut entry);
        let at = entry_place(id);
        store_in_turn(disk, at + 1, &entry[1..], at, &entry[..1])
    }

    /// Removes the clip of an id: closes the entry's gate, and syncs. At Ok the clip is gone; after a failure, as at
    /// each moment before, it is on the disk or it isn't.
    pub fn unlock<D: Disk>(&self, disk: &mut D, id: u32) -> Result<(), DiskFault>
        requires extent { 2560 ≤ (D.medium disk.old).size }
        requires id { id < 64 }
        requires settled { (D.medium disk.old).honest → IsSettled (D.medium disk.old) }
        requires there { (D.medium disk.old).honest → clip_in (D.medium disk.old).bytes id ≢ None }
        ensures { let old = D.medium disk.old in
            Changes (ShowsClipOrNot id None old.bytes) (ShowsClip id None old.bytes) old (D.medium disk.new) result }
    {
        store(disk, entry_place(id), &[0])
    }

    /// Notes the clip of an id, or that it has none. It takes no memory.
    pub fn set(&mut self, id: u32, clip: Option<Span>)
        requires { id < 64 }
        ensures { self.new ≡ slice_set self.old id clip }
    {
        self.clips[id as usize] = clip;
    }

    /// Whether some clip has a number of this block.
    pub fn meets(&self, geometry: &Geometry, block: u64) -> bool
        requires { IsTrue (is_good geometry.now) }
        ensures { result ≡ list_any (meets (ring_of geometry.now) block) self.now }
    {
        is_locked(geometry, block, &self.clips)
    }

    /// The clips, by rising id. Its only error is want of memory.
    pub fn list<A: Allocator>(&self, alloc: A) -> Result<Vec<Clip, A>, AllocError>
        ensures { IfOk result (λ list. list.items ≡ clip_list 0 self.now) }
    {
        let mut list = Vec::with_capacity(alloc, CLIPS)?;
        for (id, clip) in self.clips.iter().enumerate() {
            if let Some(span) = clip {
                list.push_reserved(Clip {
                    id: id as u32,
                    from: span.from,
                    to: span.to,
                    tag: span.tag,
                });
            }
        }
        Ok(list)
    }
}

// The first place without a clip.
fn free_place(clips: &[Option<Span>]) -> Option<usize>
    ensures { result ≡ position (λ clip. not (is_some clip)) clips.now }
{
    clips.iter().position(|clip| clip.is_none())
}

/// Where the entry of an id lies on a disk.
pub(crate) fn entry_place(id: u32) -> u64
    requires { id < 64 }
    ensures { result ≡ clip_at id }
{
    SUPER_SIZE as u64 + u64::from(id) * CLIP_SIZE as u64
}
