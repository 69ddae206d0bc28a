// The calls on an open store, whose outcomes are numbers.
ghost use Rattle.std.specs.Prelude.{◌≡◌, ◌*◌, All, length, map};
ghost use Rattle.loop_record.specs.Plain.{pictures};
ghost use Rattle.loop_record.specs.declared.times.Times.{Times};
ghost use Rattle.lapyrei.specs.Does.{ShowsKnown, Knows, Locks, Looks, PutsClips, PutsSought, Reads, ReadsHead, StoresGroup, Unlocks, Upgrades, pictures_in, takes};
ghost use Rattle.lapyrei.specs.Memory.{HasGroupRoom, IsEnough};
ghost use Rattle.lapyrei.specs.Shown.{clip_run, put_over, span_run};

use crate::answer::{Head, Known, Run, Shape};
use crate::memory::{GroupMemory, frame_in};
use loop_overlay::LogDisk;
use loop_record::{Frame, Span, Times};
use loop_ring::MAX_GROUP;
use loop_store::{Clip, Store, StoreFault};
use std::alloc::Global;

/// The number that stands for none.
const NONE: u64 = u64::MAX;

// Frames of these heads, whose bytes follow one another.
fn frames_of(memory: GroupMemory, heads: &[Head], bytes: &[u8], size: usize) -> Vec<Frame>
    requires bytes { length bytes.now ≡ length heads.now * size }
    requires room { HasGroupRoom (length heads.now) size memory }
    ensures frames { pictures result.items ≡ pictures_in size heads.now bytes.now }
    ensures sizes { All (λ frame. length frame.bytes.items ≡ size) result.items }
    ensures count { length result.items ≡ length heads.now }
{
    let GroupMemory {
        mut frames,
        mut spare,
    } = memory;
    let mut rest = bytes;
    for head in heads {
        let (own, others) = rest.split_at(size);
        rest = others;
        frames.push_reserved(frame_in(spare.pop().unwrap(), head, own));
    }
    frames
}

// Whether a store takes so many frames of so many bytes in one append.
fn takes<'a>(store: &Store<LogDisk<'a>>, frames: usize, bytes: usize) -> bool
    ensures { result ≡ takes store.now.geometry store.now.next frames bytes }
{
    let size = store.geometry().frame_bytes() as usize;
    1 <= frames && frames <= MAX_GROUP && frames <= store.room() as usize && bytes == frames * size
}

/// Appends a group of 1 to as many frames as fit, or answers `WrongSize`. No memory is refused to it: it has that of
/// the group.
pub(crate) fn append<'a>(
    memory: GroupMemory,
    store: &mut Store<LogDisk<'a>>,
    heads: &[Head],
    bytes: &[u8],
) -> Result<u64, StoreFault>
    requires { IsEnough (length heads.now) (length bytes.now) memory }
    ensures { StoresGroup heads.now bytes.now store.old store.new result }
{
    if !takes(store, heads.len(), bytes.len()) {
        return Err(StoreFault::WrongSize);
    }
    let size = store.geometry().frame_bytes() as usize;
    let frames = frames_of(memory, heads, bytes, size);
    store.append(&frames)
}

/// Locks the frames of a range of numbers.
pub(crate) fn lock<'a>(store: &mut Store<LogDisk<'a>>, clip: &Run) -> Result<u64, StoreFault>
    ensures { Locks clip.now store.old store.new result }
{
    Ok(u64::from(store.lock(clip.from, clip.to, clip.tag)?))
}

/// Unlocks the clip of an id.
pub(crate) fn unlock<'a>(store: &mut Store<LogDisk<'a>>, id: u32) -> Result<u64, StoreFault>
    ensures { Unlocks id store.old store.new result }
{
    store.unlock(id)?;
    Ok(0)
}

/// Makes version 2 of the layout.
pub(crate) fn upgrade<'a>(store: &mut Store<LogDisk<'a>>) -> Result<u64, StoreFault>
    ensures { Upgrades store.old store.new result }
{
    Ok(u64::from(store.upgrade()?))
}

/// Reads a frame: `WrongSize` where `out` hasn't a frame's size.
pub(crate) fn read<'a>(
    store: &mut Store<LogDisk<'a>>,
    number: u64,
    out: &mut [u8],
    head: &mut Head,
) -> Result<u64, StoreFault>
    ensures { Reads number (length out.old) out.new head.new store.old store.new result }
{
    if out.len() != store.geometry().frame_bytes() as usize {
        return Err(StoreFault::WrongSize);
    }
    let found = store.read(number, out)?;
    *head = Head::of(found);
    Ok(found.number)
}

/// Reads the head of a frame.
pub(crate) fn read_head<'a>(
    store: &mut Store<LogDisk<'a>>,
    number: u64,
    head: &mut Head,
) -> Result<u64, StoreFault>
    ensures { ReadsHead number head.new store.old store.new result }
{
    let found = store.read_head(number)?;
    *head = Head::of(found);
    Ok(found.number)
}

/// Answers the next number, and shows the shape.
pub(crate) fn look<'a>(store: &Store<LogDisk<'a>>, shape: &mut Shape) -> Result<u64, StoreFault>
    ensures { Looks shape.new store.now store.now result }
{
    *shape = Shape::of(store.geometry(), store.version());
    Ok(store.next())
}

// What a store knows in memory.
fn known_of<'a>(store: &Store<LogDisk<'a>>, from: u64) -> Known
    ensures { ShowsKnown from store.now result }
{
    Known {
        next: store.next(),
        held: store.held(),
        from: store.next_held(from).unwrap_or(NONE),
        victim: store.victim().unwrap_or(NONE),
        room: u64::from(store.room()),
        group: MAX_GROUP as u64,
    }
}

/// Shows what the store knows in memory.
pub(crate) fn know<'a>(
    store: &Store<LogDisk<'a>>,
    from: u64,
    out: &mut Known,
) -> Result<u64, StoreFault>
    ensures { Knows from out.new store.now store.now result }
{
    *out = known_of(store, from);
    Ok(0)
}

// Puts as many clips as there is room for.
fn put_clips(out: &mut [Run], clips: &[Clip])
    ensures { out.new ≡ put_over (map clip_run clips.now) out.old }
{
    for i in 0..out.len().min(clips.len()) {
        out[i] = Run::of_clip(clips[i]);
    }
}

// Puts as many runs as there is room for.
fn put_spans(out: &mut [Run], spans: &[Span])
    ensures { out.new ≡ put_over (map span_run spans.now) out.old }
{
    for i in 0..out.len().min(spans.len()) {
        out[i] = Run::of_span(spans[i]);
    }
}

/// Shows the clips, as many as there is room for, and answers how many there are.
pub(crate) fn clips<'a>(
    alloc: Global,
    store: &Store<LogDisk<'a>>,
    out: &mut [Run],
) -> Result<u64, StoreFault>
    ensures { PutsClips out.old out.new store.now store.now result }
{
    match store.clips(alloc) {
        Ok(clips) => {
            put_clips(out, &clips);
            Ok(clips.len() as u64)
        }
        Err(fault) => Err(fault),
    }
}

/// Shows the runs of the held frames of a time, as many as there is room for, and answers how many there are.
pub(crate) fn sought<'a>(
    alloc: Global,
    store: &Store<LogDisk<'a>>,
    times: Times,
    out: &mut [Run],
) -> Result<u64, StoreFault>
    ensures { PutsSought times out.old out.new store.now store.now result }
{
    let spans = store.sought(alloc, times)?;
    put_spans(out, &spans);
    Ok(spans.len() as u64)
}
