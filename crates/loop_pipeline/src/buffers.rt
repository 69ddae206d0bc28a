//! The memory of a queue's buffers.

ghost use Rattle.std.specs.Prelude.{IfOk};
ghost use Rattle.std.specs.Arc.{arc_value};
ghost use Rattle.loop_pages.specs.Place.{IsIdle};

use loop_ioctl::BufferType;
use loop_pages::{MOST_PAGES, PageFault, PageLedger, PageSeat};
use loop_plane::{HeapPlane, Memory, MmapPlane, PAGE_BYTES};
use loop_vb2::{PlaneSet, Planes, Queue, Shape};
use std::alloc::{AllocError, Global};
use std::sync::Arc;

// The buffers of a queue of mapped memory.
const MAPPED_BUFFERS: u32 = 4;

// The most bytes of a plane: as many as a frame may have.
const MOST_BYTES: u32 = 16_777_216;

/// Memory for the buffers of a queue.
pub(crate) type Supply<P> = Vec<PlaneSet<P>>;

// A plane of `bytes` bytes, in whole pages of a ledger, and a seat for the next plane.
fn plane(
    alloc: Global,
    ledger: &Arc<PageLedger>,
    seat: PageSeat,
    bytes: u32,
) -> Result<(MmapPlane, PageSeat), PageFault>
    requires { IsIdle (arc_value ledger.now) seat }
    ensures { IfOk result (λ made. IsIdle (arc_value ledger.now) made.1) }
{
    let (seat, next) = ledger.split(seat);
    match PageLedger::claim(alloc, ledger, seat, bytes.div_ceil(PAGE_BYTES)) {
        Err((fault, _)) => Err(fault),
        Ok(hold) => match MmapPlane::new(alloc, hold) {
            Err(_) => Err(PageFault::NoMemory),
            Ok(plane) => Ok((plane, next)),
        },
    }
}

// The planes of one buffer, and a seat for those of the next.
fn buffer(
    alloc: Global,
    ledger: &Arc<PageLedger>,
    seat: PageSeat,
    shape: &Shape,
) -> Result<(PlaneSet<MmapPlane>, PageSeat), PageFault>
    requires { IsIdle (arc_value ledger.now) seat }
    ensures { IfOk result (λ made. IsIdle (arc_value ledger.now) made.1) }
{
    let [y, cb, cr] = shape.sizes;
    let (y, seat) = plane(alloc, ledger, seat, y)?;
    if shape.count == 1 {
        return Ok((set_of(y, None, None), seat));
    }
    let (cb, seat) = plane(alloc, ledger, seat, cb)?;
    let (cr, seat) = plane(alloc, ledger, seat, cr)?;
    Ok((set_of(y, Some(cb), Some(cr)), seat))
}

// The set of one plane, or of three.
fn set_of<P>(y: P, cb: Option<P>, cr: Option<P>) -> PlaneSet<P> {
    PlaneSet {
        count: if cb.is_some() { 3 } else { 1 },
        planes: Planes { y: Some(y), cb, cr },
        fds: [0; 3],
    }
}

// Memory for the buffers of a queue, from a ledger of its own. BadCount or NoPages if they need more pages than the
// ledger has.
fn supply_for(alloc: Global, shape: &Shape) -> Result<Supply<MmapPlane>, PageFault> {
    let (ledger, mut seat) = PageLedger::new(alloc, MOST_PAGES)?;
    let mut supply = Vec::new(alloc);
    for _ in 0..MAPPED_BUFFERS {
        let (set, next) = buffer(alloc, &ledger, seat, shape)?;
        if supply.push(set).is_err() {
            return Err(PageFault::NoMemory);
        }
        seat = next;
    }
    Ok(supply)
}

// A plane of `bytes` bytes in a row of its own. No queue asks for more than `MOST_BYTES`, since no frame has more.
fn heap_plane(alloc: Global, bytes: u32) -> Result<HeapPlane, AllocError> {
    if bytes > MOST_BYTES {
        return Err(AllocError);
    }
    HeapPlane::new(alloc, bytes)
}

// The planes of one buffer, each in a row of its own.
fn heap_buffer(alloc: Global, shape: &Shape) -> Result<PlaneSet<HeapPlane>, AllocError> {
    let [y, cb, cr] = shape.sizes;
    let y = heap_plane(alloc, y)?;
    if shape.count == 1 {
        return Ok(set_of(y, None, None));
    }
    let cb = heap_plane(alloc, cb)?;
    let cr = heap_plane(alloc, cr)?;
    Ok(set_of(y, Some(cb), Some(cr)))
}

// Memory for `count` buffers of a queue, each plane in a row of its own.
fn heap_supply(alloc: Global, shape: &Shape, count: u32) -> Result<Supply<HeapPlane>, AllocError> {
    let mut supply = Vec::new(alloc);
    for _ in 0..count {
        supply.push(heap_buffer(alloc, shape)?)?;
    }
    Ok(supply)
}

/// What a queue is started with: its buffer type, how many buffers it gets, the kind of their memory, and the memory
/// itself. REQBUFS brings the memory that becomes the queue's own, and each QBUF the memory that stays the
/// application's.
#[derive(Drop)]
pub struct Start<P> {
    pub(crate) buf_type: BufferType,
    pub(crate) count: u32,
    pub(crate) memory: Memory,
    pub(crate) supply: Supply<P>,
    pub(crate) brought: Supply<P>,
}

/// Four buffers of mapped memory, from a ledger of their own, for a queue. `BadCount` or `NoPages` if they need more
/// than 1,024 pages; `NoMemory`.
pub fn mapped_start(
    alloc: Global,
    queue: &Queue<MmapPlane>,
) -> Result<Start<MmapPlane>, PageFault> {
    Ok(Start {
        buf_type: BufferType::of(queue.format()),
        count: MAPPED_BUFFERS,
        memory: Memory::Mmap,
        supply: supply_for(alloc, &queue.shape())?,
        brought: Vec::new(alloc),
    })
}

/// `count` buffers of the application's memory (USERPTR), each plane in a row of its own, for a queue with frames of
/// any size. A queue has at most 32 buffers.
pub fn heap_start(
    alloc: Global,
    queue: &Queue<HeapPlane>,
    count: u32,
) -> Result<Start<HeapPlane>, AllocError> {
    Ok(Start {
        buf_type: BufferType::of(queue.format()),
        count,
        memory: Memory::UserPtr,
        supply: Vec::new(alloc),
        brought: heap_supply(alloc, &queue.shape(), count)?,
    })
}
