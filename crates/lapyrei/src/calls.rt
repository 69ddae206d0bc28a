// The exported calls. Each is given the bytes of the file as far as they are there (`present` has a mark a page), and a
// log to fill; those that open the store say how many of the newest blocks it keeps.
ghost use Rattle.std.specs.Prelude.{◌≡◌, length};
ghost use Rattle.loop_record.specs.Geometry.{disk_size, frame_bytes};
ghost use Rattle.lapyrei.specs.Does.{Knows, Locks, Looks, PutsClips, PutsSought, Reads, ReadsHead, StoresGroup, Unlocks, Upgrades};
ghost use Rattle.lapyrei.specs.Shown.{bytes_of_good, shaped};
ghost use Rattle.lapyrei.specs.Told.{Serves, ServesNew, given};

use crate::answer::{Answer, Head, Known, Run, Shape};
use crate::memory::GroupMemory;
use crate::on_store;
use crate::open::{finish, make, open, refuse, refuse_unopened};
use loop_overlay::LogDisk;
use loop_record::Times;
use loop_store::StoreFault;
use std::alloc::Global;

// Opens the store, makes a call of it, whose outcome is a number, and answers.
macro_rules! on_store {
    ($alloc:expr, $image:expr, $present:expr, $log:expr, $keep:expr, |$store:ident| $call:expr) => {
        match open($alloc, $image, $present, $keep) {
            Ok(opened) => {
                let mut $store = opened;
                let outcome = $call;
                finish($store.into_disk(), outcome, $image, $present, $log)
            }
            Err(refused) => refuse(refused, $image, $present, $log),
        }
    };
}

/// How many bytes a store of a shape has; 0 where its geometry isn't good.
#[unsafe(no_mangle)]
pub extern "C" fn lapyrei_rt_size(shape: &Shape) -> u64
    ensures { result ≡ bytes_of_good disk_size (shaped shape.now) }
{
    match shape.geometry() {
        Some(geometry) if geometry.check().is_ok() => geometry.disk_size(),
        _ => 0,
    }
}

/// How many bytes a frame of a shape has; 0 where its geometry isn't good.
#[unsafe(no_mangle)]
pub extern "C" fn lapyrei_rt_frame_bytes(shape: &Shape) -> u64
    ensures { result ≡ bytes_of_good frame_bytes (shaped shape.now) }
{
    match shape.geometry() {
        Some(geometry) if geometry.check().is_ok() => u64::from(geometry.frame_bytes()),
        _ => 0,
    }
}

/// Makes a store: `BadGeometry` where the geometry isn't good, or the bytes are more or fewer.
#[unsafe(no_mangle)]
pub extern "C" fn lapyrei_rt_format(
    alloc: Global,
    image: &[u8],
    present: &[u8],
    log: &mut [u8],
    shape: &Shape,
) -> Answer
    ensures { ServesNew (given image.now present.now log.old) shape.now log.new result }
{
    let disk = LogDisk::new(alloc, image, present);
    let Some(geometry) = shape.geometry() else {
        return finish(disk, Err(StoreFault::BadGeometry), image, present, log);
    };
    match make(alloc, disk, geometry, shape.version) {
        Ok(store) => finish(store.into_disk(), Ok(0), image, present, log),
        Err(refused) => refuse(refused, image, present, log),
    }
}

/// Opens the store, and answers its next number and its shape.
#[unsafe(no_mangle)]
pub extern "C" fn lapyrei_rt_look(
    alloc: Global,
    image: &[u8],
    present: &[u8],
    log: &mut [u8],
    keep: u32,
    shape: &mut Shape,
) -> Answer
    ensures { Serves (given image.now present.now log.old) keep (Looks shape.new) log.new result }
{
    on_store!(
        alloc,
        image,
        present,
        log,
        keep,
        |store| on_store::look(&store, shape)
    )
}

/// Opens the store, and answers what it knows in memory.
#[unsafe(no_mangle)]
pub extern "C" fn lapyrei_rt_known(
    alloc: Global,
    image: &[u8],
    present: &[u8],
    log: &mut [u8],
    keep: u32,
    from: u64,
    out: &mut Known,
) -> Answer
    ensures { Serves (given image.now present.now log.old) keep
        (Knows from out.new) log.new result }
{
    on_store!(
        alloc,
        image,
        present,
        log,
        keep,
        |store| on_store::know(&store, from, out)
    )
}

/// Appends a group of frames, whose bytes follow one another, and answers the number of the first. Where memory for
/// them is refused, the store isn't opened.
#[unsafe(no_mangle)]
pub extern "C" fn lapyrei_rt_append(
    alloc: Global,
    image: &[u8],
    present: &[u8],
    log: &mut [u8],
    keep: u32,
    heads: &[Head],
    bytes: &[u8],
) -> Answer
    ensures { Serves (given image.now present.now log.old) keep
        (StoresGroup heads.now bytes.now) log.new result }
{
    let Ok(memory) = GroupMemory::new(alloc, heads.len(), bytes.len()) else {
        return refuse_unopened(alloc, image, present, log);
    };
    on_store!(
        alloc,
        image,
        present,
        log,
        keep,
        |store| on_store::append(memory, &mut store, heads, bytes)
    )
}

/// Reads the frame of a number.
#[unsafe(no_mangle)]
pub extern "C" fn lapyrei_rt_read(
    alloc: Global,
    image: &[u8],
    present: &[u8],
    log: &mut [u8],
    keep: u32,
    number: u64,
    out: &mut [u8],
    head: &mut Head,
) -> Answer
    ensures { Serves (given image.now present.now log.old) keep
        (Reads number (length out.old) out.new head.new) log.new result }
{
    on_store!(
        alloc,
        image,
        present,
        log,
        keep,
        |store| on_store::read(&mut store, number, out, head)
    )
}

/// Reads the head of the frame of a number.
#[unsafe(no_mangle)]
pub extern "C" fn lapyrei_rt_read_head(
    alloc: Global,
    image: &[u8],
    present: &[u8],
    log: &mut [u8],
    keep: u32,
    number: u64,
    head: &mut Head,
) -> Answer
    ensures { Serves (given image.now present.now log.old) keep
        (ReadsHead number head.new) log.new result }
{
    on_store!(
        alloc,
        image,
        present,
        log,
        keep,
        |store| on_store::read_head(&mut store, number, head)
    )
}

/// Locks the frames of a range of numbers, and answers the clip's id.
#[unsafe(no_mangle)]
pub extern "C" fn lapyrei_rt_lock(
    alloc: Global,
    image: &[u8],
    present: &[u8],
    log: &mut [u8],
    keep: u32,
    clip: &Run,
) -> Answer
    ensures { Serves (given image.now present.now log.old) keep (Locks clip.now) log.new result }
{
    on_store!(
        alloc,
        image,
        present,
        log,
        keep,
        |store| on_store::lock(&mut store, clip)
    )
}

/// Unlocks the clip of an id.
#[unsafe(no_mangle)]
pub extern "C" fn lapyrei_rt_unlock(
    alloc: Global,
    image: &[u8],
    present: &[u8],
    log: &mut [u8],
    keep: u32,
    id: u32,
) -> Answer
    ensures { Serves (given image.now present.now log.old) keep (Unlocks id) log.new result }
{
    on_store!(
        alloc,
        image,
        present,
        log,
        keep,
        |store| on_store::unlock(&mut store, id)
    )
}

/// Makes version 2 of the layout from version 1, and answers 1 where it did, 0 where it was so.
#[unsafe(no_mangle)]
pub extern "C" fn lapyrei_rt_upgrade(
    alloc: Global,
    image: &[u8],
    present: &[u8],
    log: &mut [u8],
    keep: u32,
) -> Answer
    ensures { Serves (given image.now present.now log.old) keep Upgrades log.new result }
{
    on_store!(
        alloc,
        image,
        present,
        log,
        keep,
        |store| on_store::upgrade(&mut store)
    )
}

/// The clips by rising id, as many as `out` has room for, and answers how many there are.
#[unsafe(no_mangle)]
pub extern "C" fn lapyrei_rt_clips(
    alloc: Global,
    image: &[u8],
    present: &[u8],
    log: &mut [u8],
    keep: u32,
    out: &mut [Run],
) -> Answer
    ensures { Serves (given image.now present.now log.old) keep
        (PutsClips out.old out.new) log.new result }
{
    on_store!(
        alloc,
        image,
        present,
        log,
        keep,
        |store| on_store::clips(alloc, &store, out)
    )
}

/// The runs of held frames whose times lie from one moment to another, as many as `out` has room for, and answers how
/// many there are.
#[unsafe(no_mangle)]
pub extern "C" fn lapyrei_rt_sought(
    alloc: Global,
    image: &[u8],
    present: &[u8],
    log: &mut [u8],
    keep: u32,
    since: u64,
    until: u64,
    out: &mut [Run],
) -> Answer
    ensures { Serves (given image.now present.now log.old) keep
        (PutsSought (record { since = since; until = until }) out.old out.new) log.new result }
{
    on_store!(
        alloc,
        image,
        present,
        log,
        keep,
        |store| on_store::sought(alloc, &store, Times { since, until }, out)
    )
}
