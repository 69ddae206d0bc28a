//! The held frames of a store, written as a text. docs/export.md says why it is so.

ghost use Rattle.std.specs.Prelude.{◌≡◌, ◌+◌, ◌<◌, ◌≤◌, ◌^◌, IfSome, Some, false, length, true};
ghost use Rattle.loop_disk.specs.Medium.{piece};
ghost use Rattle.loop_record.specs.Geometry.{frame_bytes};
ghost use Rattle.loop_record.specs.Recording.{Picture, Recording, frame_under, holds};
ghost use Rattle.loop_store.specs.Seen.{StandsFor};
ghost use Rattle.loop_y4m.specs.Export.{IsExport, OnlyRead, failed_export, frames_between};
ghost use Rattle.loop_y4m.specs.Steps.{IsFirstBetween, Moved, MovedAll};
ghost use Rattle.loop_y4m.specs.Text.{frame};

use crate::ExportFault;
use crate::text::{write_frame_line, write_header, write_pixels};
use loop_disk::Disk;
use loop_store::{Store, StoreFault};
use std::alloc::Allocator;
use std::io::Write;

// The most bytes of a frame that are copied at once.
const MAX_PIECE: u32 = 65_536;

/// Writes a header and then the held frames whose numbers are from `from` to `to`, in rising order, and returns how
/// many they are.
///
/// `MustReopen` where a call of the store that writes has failed; otherwise `NotHeld` where no frame has such a number;
/// then `NoMemory`. After each of these nothing was written, whatever the disk. Later `Disk` where a read fails,
/// `Damaged` where a slot holds something else, which never happens on an honest disk, and `Write` where the writer
/// fails. After these, where the disk is honest, a prefix of the text was written. Nothing is flushed.
///
/// Frames are copied in pieces of at most 65,536 bytes. Memory is taken for one piece, before anything is written.
pub fn export<D: Disk + Drop, A: Allocator + Copy, W: Write>(
    alloc: A,
    store: &mut Store<D, A>,
    from: u64,
    to: u64,
    out: &mut W,
) -> Result<u64, ExportFault>
    ensures exported { (r : Recording) → StandsFor D.medium store.old r
        → IsExport (D.medium store.old.disk).honest store.old.geometry store.old.must_reopen
        (frames_between from to r.frames) (W.contents out.old) (W.contents out.new) result }
    ensures store { OnlyRead D.medium store.old store.new (failed_export result) }
{
    if store.must_reopen() {
        return Err(ExportFault::Store(StoreFault::MustReopen));
    }
    let first = held_between(store, from, to).ok_or(StoreFault::NotHeld)?;
    let geometry = store.geometry();
    let size = geometry.frame_bytes().min(MAX_PIECE);
    let mut piece = vec![in alloc; 0; size as usize]?;
    write_header(&geometry, out)?;
    write_frames(store, first, to, &mut piece, out)
}

// The least number from `from` to `to` that a frame has.
fn held_between<D: Disk + Drop, A: Allocator>(
    store: &Store<D, A>,
    from: u64,
    to: u64,
) -> Option<u64>
    ensures within { IfSome result (λ n. (from ≤ n) × ((n ≤ to) × (n < 2 ^ 62))) }
    ensures frames { (r : Recording) → StandsFor D.medium store.now r → IsFirstBetween r from to result }
{
    match store.next_held(from) {
        Some(number) if number <= to => Some(number),
        _ => None,
    }
}

// Writes the held frames from `first`, which is held, to `to`, and returns how many they are.
fn write_frames<D: Disk + Drop, A: Allocator, W: Write>(
    store: &mut Store<D, A>,
    first: u64,
    to: u64,
    piece: &mut [u8],
    out: &mut W,
) -> Result<u64, ExportFault>
    requires open { store.old.must_reopen ≡ false }
    requires some { 1 ≤ length piece.old }
    requires first { (first ≤ to) × (first < 2 ^ 62) }
    ensures moved { (r : Recording) → StandsFor D.medium store.old r → holds r first ≡ true
        → MovedAll (D.medium store.old.disk).honest (W.contents out.old) (W.contents out.new) result
        (frames_between first to r.frames) }
    ensures store { OnlyRead D.medium store.old store.new (failed_export result) }
{
    let mut next = Some(first);
    let mut count = 0;
    while let Some(number) = next {
        write_held(store, number, piece, out)?;
        count += 1;
        next = held_between(store, number + 1, to);
    }
    Ok(count)
}

// Writes a frame of the store, piece by piece.
fn write_held<D: Disk + Drop, A: Allocator, W: Write>(
    store: &mut Store<D, A>,
    number: u64,
    piece: &mut [u8],
    out: &mut W,
) -> Result<(), ExportFault>
    requires open { store.old.must_reopen ≡ false }
    requires some { 1 ≤ length piece.old }
    ensures moved { (r : Recording) (p : Picture) → StandsFor D.medium store.old r
        → frame_under r.frames number ≡ Some p
        → Moved (D.medium store.old.disk).honest (W.contents out.old) (W.contents out.new) result (frame p.bytes) }
    ensures store { OnlyRead D.medium store.old store.new (failed_export result) }
{
    write_frame_line(out)?;
    let size = store.geometry().frame_bytes();
    let mut at = 0;
    while at < size {
        let count = piece.len().min((size - at) as usize);
        move_part(store, number, at, &mut piece[..count], out)?;
        at += count as u32;
    }
    Ok(())
}

// Writes a part of a frame of the store, from byte `at` on: as many bytes as `part` has.
fn move_part<D: Disk + Drop, A: Allocator, W: Write>(
    store: &mut Store<D, A>,
    number: u64,
    at: u32,
    part: &mut [u8],
    out: &mut W,
) -> Result<(), ExportFault>
    requires open { store.old.must_reopen ≡ false }
    requires within { at + length part.old ≤ frame_bytes store.old.geometry }
    ensures moved { (r : Recording) (p : Picture) → StandsFor D.medium store.old r
        → frame_under r.frames number ≡ Some p
        → Moved (D.medium store.old.disk).honest (W.contents out.old) (W.contents out.new) result
        (piece at (length part.old) p.bytes) }
    ensures store { OnlyRead D.medium store.old store.new (failed_export result) }
{
    store.read_part(number, at, part)?;
    write_pixels(part, out)?;
    Ok(())
}
