// One ioctl.
ghost use Rattle.std.specs.Prelude.{◌≡◌, None, [], option_to_list, IfOk, IfErr, OnErr};
ghost use Rattle.std.specs.Result.{result_err};
ghost use Rattle.slab.specs.Slab.{SameValues};
ghost use Rattle.loop_vb2.specs.Errnos.{errno};
ghost use Rattle.loop_vb2.specs.Events.{refusal_in};
ghost use Rattle.loop_ioctl.specs.Types.{same_type, named_type, type_of};
ghost use Rattle.loop_ioctl.specs.Calls.{HandsBack, planes_of, planes_given, supply_given, handed_out, Applies};
ghost use Rattle.loop_ioctl.specs.declared.call.IoctlReply.TheVariants.{Done};
ghost use Rattle.loop_ioctl.specs.declared.call.Ioctl.TheVariants.{DqBuf, ReqBufs};
ghost use Rattle.loop_ioctl.specs.Parts.{LetsOut, AppliesTyped, AppliesOfAny};

use crate::call::{BufferMemory, BufferType, Ioctl, IoctlReply};
use crate::fds::{give_all, give_set};
use crate::put::{Use, refuse, use_buffer};
use loop_plane::{FdTable, Memory, PlaneMemory};
use loop_record::PixelFormat;
use loop_vb2::{Dequeued, Errno, Granted, PlaneSet, Queue, Reason, Refused};
use std::alloc::Allocator;

// The reply to a call of the queue that returns nothing but a refusal.
fn done_unless<P, A: Allocator>(
    alloc: A,
    told: Result<(), Errno>,
) -> Result<IoctlReply<P, A>, Refused<P, A>>
    ensures refusal { refusal_in result ≡ result_err told }
    ensures done { IfOk result (λ reply. reply ≡ Done) }
    ensures back { IfErr result (λ refused. HandsBack None [] refused) }
{
    match told {
        Ok(()) => Ok(IoctlReply::Done),
        Err(errno) => Err(refuse(alloc, errno, None)),
    }
}

// What DQBUF hands out of a buffer's planes: those of DMA-BUF go back to the table.
fn let_out<P: Drop, A: Allocator + Copy>(
    table: &mut FdTable<P, A>,
    kind: Memory,
    planes: Option<PlaneSet<P>>,
) -> Option<PlaneSet<P>>
    ensures kept { result ≡ handed_out None kind planes }
    ensures given { LetsOut kind (option_to_list planes) table.old table.new }
{
    match kind {
        Memory::Mmap => None,
        Memory::UserPtr => planes,
        Memory::DmaBuf => match planes {
            Some(set) => {
                give_set(table, set);
                None
            }
            None => None,
        },
    }
}

// The same of the planes that REQBUFS leaves.
fn let_all_out<P: Drop, A: Allocator + Copy>(
    table: &mut FdTable<P, A>,
    alloc: A,
    kind: Memory,
    left: Vec<PlaneSet<P>, A>,
) -> Vec<PlaneSet<P>, A>
    ensures kept { result.items ≡ handed_out [] kind left.items }
    ensures given { LetsOut kind left.items table.old table.new }
{
    match kind {
        Memory::Mmap => Vec::new(alloc),
        Memory::UserPtr => left,
        Memory::DmaBuf => {
            give_all(table, left);
            Vec::new(alloc)
        }
    }
}

// DQBUF. DMA-BUF planes go back to the table.
fn dequeue<P: PlaneMemory, A: Allocator + Copy>(
    queue: &mut Queue<P, A>,
    table: &mut FdTable<P, A>,
) -> Result<IoctlReply<P, A>, Refused<P, A>>
    ensures step { AppliesOfAny P.plane DqBuf result queue.old table.old queue.new table.new }
    ensures same { OnErr result (queue.new ≡ queue.old) }
    ensures still { OnErr result (table.new ≡ table.old) }
    ensures shape { queue.new.body.shape ≡ queue.old.body.shape }
{
    let kind = queue.kind();
    match queue.dequeue() {
        Ok(answer) => {
            let planes = let_out(table, kind, answer.planes);
            Ok(IoctlReply::Dequeued(Dequeued { planes, ..answer }))
        }
        Err(errno) => Err(refuse(queue.allocator(), errno, None)),
    }
}

// REQBUFS. DMA-BUF planes that lay in old buffers go back to the table.
fn request<P: PlaneMemory, A: Allocator + Copy>(
    queue: &mut Queue<P, A>,
    table: &mut FdTable<P, A>,
    count: u32,
    memory: Memory,
    supply: Vec<PlaneSet<P>, A>,
) -> Result<IoctlReply<P, A>, Refused<P, A>>
    ensures step { AppliesOfAny P.plane (λ type. ReqBufs type count memory supply) result
        queue.old table.old queue.new table.new }
    ensures same { OnErr result (queue.new ≡ queue.old) }
    ensures still { OnErr result (table.new ≡ table.old) }
    ensures shape { queue.new.body.shape ≡ queue.old.body.shape }
{
    let kind = queue.kind();
    match queue.request(count, memory, supply) {
        Ok(granted) => {
            let left = let_all_out(table, queue.allocator(), kind, granted.left);
            Ok(IoctlReply::Granted(Granted {
                count: granted.count,
                left,
            }))
        }
        Err(refused) => Err(Refused {
            errno: refused.errno,
            planes: None,
            supply: refused.supply,
        }),
    }
}

// The planes that QBUF and PREPARE_BUF bring by value.
fn planes_of<P: Drop>(memory: BufferMemory<P>) -> Option<PlaneSet<P>>
    ensures { result ≡ planes_of memory }
{
    match memory {
        BufferMemory::UserPtr(planes) => planes,
        BufferMemory::Mmap => None,
        BufferMemory::DmaBuf(_) => None,
    }
}

/// A refusal of a call for this reason, with all planes that it was given.
pub fn hand_back<P: PlaneMemory, A: Allocator + Copy>(
    alloc: A,
    reason: Reason,
    call: Ioctl<P, A>,
) -> Refused<P, A>
    ensures errno { result.errno ≡ errno reason }
    ensures back { HandsBack (planes_given call) (supply_given call) result }
{
    let errno = Errno::of(reason);
    match call {
        Ioctl::ReqBufs { supply, .. } => Refused {
            errno,
            planes: None,
            supply,
        },
        Ioctl::PrepareBuf { memory, .. } => refuse(alloc, errno, planes_of(memory)),
        Ioctl::QBuf { memory, .. } => refuse(alloc, errno, planes_of(memory)),
        Ioctl::QueryBuf { .. } => refuse(alloc, errno, None),
        Ioctl::DqBuf { .. } => refuse(alloc, errno, None),
        Ioctl::StreamOn { .. } => refuse(alloc, errno, None),
        Ioctl::StreamOff { .. } => refuse(alloc, errno, None),
        Ioctl::Mmap { .. } => refuse(alloc, errno, None),
        Ioctl::Munmap { .. } => refuse(alloc, errno, None),
    }
}

// Whether a call's buffer type is that of a queue for this format.
fn is_type_of(buf_type: BufferType, format: PixelFormat) -> bool
    ensures { result ≡ same_type buf_type (type_of format) }
{
    buf_type == BufferType::of(format)
}

// An ioctl whose buffer type is the queue's.
fn dispatch<P: PlaneMemory, A: Allocator + Copy>(
    queue: &mut Queue<P, A>,
    table: &mut FdTable<P, A>,
    call: Ioctl<P, A>,
) -> Result<IoctlReply<P, A>, Refused<P, A>>
    ensures step { AppliesTyped P.plane call result queue.old table.old queue.new table.new }
    ensures same { OnErr result (queue.new ≡ queue.old) }
    ensures still { OnErr result (SameValues table.old table.new) }
    ensures shape { queue.new.body.shape ≡ queue.old.body.shape }
{
    let alloc = queue.allocator();
    match call {
        Ioctl::ReqBufs {
            count,
            memory,
            supply,
            ..
        } => { request(queue, table, count, memory, supply) }
        Ioctl::QueryBuf { index, .. } => match queue.query(index) {
            Ok(info) => Ok(IoctlReply::Info(info)),
            Err(errno) => Err(refuse(alloc, errno, None)),
        },
        Ioctl::PrepareBuf { index, memory, .. } => {
            use_buffer(queue, table, Use::Prepare, index, memory)
        }
        Ioctl::QBuf { index, memory, .. } => use_buffer(queue, table, Use::Queue, index, memory),
        Ioctl::DqBuf { .. } => dequeue(queue, table),
        Ioctl::StreamOn { .. } => done_unless(alloc, queue.stream_on()),
        Ioctl::StreamOff { .. } => {
            queue.stream_off();
            Ok(IoctlReply::Done)
        }
        Ioctl::Mmap { index, .. } => done_unless(alloc, queue.map(index)),
        Ioctl::Munmap { index, .. } => done_unless(alloc, queue.unmap(index)),
    }
}

/// One ioctl. BadType is judged before all else; then come the checks of each call in their order. With planes
/// by fd, BadIndex and BadMemory come before the fds are attached, and the first fd that fails (NoSuchFd,
/// FdAttached) before the other checks. A refusal changes neither queue nor table, and hands back all planes
/// that came by value.
pub fn apply<P: PlaneMemory, A: Allocator + Copy>(
    queue: &mut Queue<P, A>,
    table: &mut FdTable<P, A>,
    call: Ioctl<P, A>,
) -> Result<IoctlReply<P, A>, Refused<P, A>>
    ensures step { Applies P.plane call result queue.old table.old queue.new table.new }
    ensures same { OnErr result (queue.new ≡ queue.old) }
    ensures still { OnErr result (SameValues table.old table.new) }
    ensures shape { queue.new.body.shape ≡ queue.old.body.shape }
{
    if is_type_of(call.buf_type(), queue.format()) {
        dispatch(queue, table, call)
    } else {
        Err(hand_back(queue.allocator(), Reason::BadType, call))
    }
}
