//! Formats a disk: makes a store on it.

ghost use Rattle.std.specs.Prelude.{◌≡◌, ◌&&◌, ◌==◌};
ghost use Rattle.loop_record.specs.Geometry.{disk_size, is_good};
ghost use Rattle.loop_record.specs.Layout.{IsVersion};
ghost use Rattle.loop_store.specs.Make.{Formats};

use crate::fresh::lay_out;
use crate::index::{Index, stamps_for};
use crate::{OpenRefused, Store, StoreFault};
use loop_clips::ClipTable;
use loop_disk::Disk;
use loop_record::{Geometry, SuperHead, TAGGED};
use loop_ring::{Ring, SegmentIndex};
use std::alloc::Allocator;

// Whether a geometry is good and the disk has its size.
fn fits<D: Disk>(disk: &D, geometry: &Geometry) -> bool
    ensures { result ≡ (is_good geometry.now && ((D.medium disk.now).size == disk_size geometry.now)) }
{
    match geometry.check() {
        Ok(()) => disk.size() == geometry.disk_size(),
        Err(_) => false,
    }
}

// Writes an empty recording, in a version of the layout, over the contents of a disk, and returns its store.
fn format_as<D: Disk + Drop, A: Allocator + Copy>(
    alloc: A,
    disk: D,
    head: SuperHead,
) -> Result<Store<D, A>, OpenRefused<D>>
    requires { IsVersion head.version }
    ensures { Formats D.medium head disk result }
{
    let mut disk = disk;
    if !fits(&disk, &head.geometry) {
        return Err(OpenRefused {
            fault: StoreFault::BadGeometry,
            disk,
        });
    }
    let Ok(table) = SegmentIndex::new(alloc, head.geometry.segments) else {
        return Err(OpenRefused {
            fault: StoreFault::NoMemory,
            disk,
        });
    };
    let Ok(stamps) = stamps_for(alloc, &head.geometry) else {
        return Err(OpenRefused {
            fault: StoreFault::NoMemory,
            disk,
        });
    };
    match lay_out(&mut disk, &head) {
        Ok(()) => Ok(Store {
            disk,
            index: Index {
                ring: Ring::new(head.geometry),
                version: head.version,
                table,
                clips: ClipTable::empty(),
                next: 0,
                stamps,
            },
            must_reopen: false,
        }),
        Err(fault) => Err(OpenRefused {
            fault: StoreFault::Disk(fault),
            disk,
        }),
    }
}

/// Writes an empty recording over the contents of a disk, and returns its store. The layout has version 2.
///
/// `BadGeometry` where a limit of the geometry is broken or the disk's size isn't the geometry's; otherwise `NoMemory`
/// or `Disk`. A refusal hands the disk back; the first two haven't called it. A stop at any moment leaves an image
/// that reads as before the call, or isn't formatted, or is the empty recording. It makes one read, and another write
/// and sync where the disk was formatted; then 4 calls and one for each segment.
pub fn format<D: Disk + Drop, A: Allocator + Copy>(
    alloc: A,
    disk: D,
    geometry: Geometry,
) -> Result<Store<D, A>, OpenRefused<D>>
    ensures { Formats D.medium (record { geometry = geometry; version = 2 }) disk result }
{
    format_as(
        alloc,
        disk,
        SuperHead {
            geometry,
            version: TAGGED,
        },
    )
}

/// Does the same in version 1 of the layout, in which clips have no tags. It is for old data.
pub fn format_v1<D: Disk + Drop, A: Allocator + Copy>(
    alloc: A,
    disk: D,
    geometry: Geometry,
) -> Result<Store<D, A>, OpenRefused<D>>
    ensures { Formats D.medium (record { geometry = geometry; version = 1 }) disk result }
{
    format_as(
        alloc,
        disk,
        SuperHead {
            geometry,
            version: 1,
        },
    )
}
