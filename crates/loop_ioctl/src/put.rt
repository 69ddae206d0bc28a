// QBUF and PREPARE_BUF, which are given memory.
ghost use Rattle.std.specs.Prelude.{◌≡◌, Some, None, [], IfOk, IfErr, OnErr};
ghost use Rattle.slab.specs.Slab.{SameValues};
ghost use Rattle.loop_plane.specs.declared.memory.Memory.TheVariants.{DmaBuf};
ghost use Rattle.loop_vb2.specs.Planes.{read_set, read_given};
ghost use Rattle.loop_vb2.specs.Events.{Happens, refusal_in};
ghost use Rattle.loop_ioctl.specs.declared.call.IoctlReply.TheVariants.{Done};
ghost use Rattle.loop_ioctl.specs.Names.{values_in, GivesIfRefused};
ghost use Rattle.loop_ioctl.specs.declared.call.BufferMemory.TheVariants as memory;
ghost use Rattle.loop_ioctl.specs.Calls.{HandsBack, early_refusal};
ghost use Rattle.loop_ioctl.specs.Parts.{use_event, use_call, AppliesOfAny};

use crate::call::{BufferMemory, IoctlReply, PlaneFds};
use crate::fds::{give_set, take_set};
use loop_plane::{FdTable, Memory, PlaneMemory};
use loop_vb2::{Errno, PlaneSet, Queue, Reason, Refused};
use std::alloc::Allocator;

/// The two calls that are given memory.
#[derive(Clone, Copy, PartialEq, Eq)]
pub(crate) enum Use {
    Prepare,
    Queue,
}

/// A refusal with these planes to hand back.
pub(crate) fn refuse<P, A: Allocator>(
    alloc: A,
    errno: Errno,
    planes: Option<PlaneSet<P>>,
) -> Refused<P, A>
    ensures errno { result.errno ≡ errno }
    ensures back { HandsBack planes [] result }
{
    Refused {
        errno,
        planes,
        supply: Vec::new(alloc),
    }
}

// Prepares or queues a buffer with these planes.
fn put<P: PlaneMemory, A: Allocator + Copy>(
    queue: &mut Queue<P, A>,
    way: Use,
    index: u32,
    kind: Memory,
    planes: Option<PlaneSet<P>>,
) -> Result<IoctlReply<P, A>, Refused<P, A>>
    ensures step { Happens P.plane queue.old queue.new
        (use_event way index kind (read_given P.plane planes) (refusal_in result)) }
    ensures done { IfOk result (λ reply. reply ≡ Done) }
    ensures back { IfErr result (λ refused. HandsBack planes [] refused) }
    ensures same { OnErr result (queue.new ≡ queue.old) }
    ensures shape { queue.new.body.shape ≡ queue.old.body.shape }
{
    let used = match way {
        Use::Prepare => queue.prepare(index, kind, planes),
        Use::Queue => queue.queue(index, kind, planes),
    };
    match used {
        Ok(()) => Ok(IoctlReply::Done),
        Err(Refused { errno, planes, .. }) => Err(refuse(queue.allocator(), errno, planes)),
    }
}

// The checks before an fd is looked at: the buffer, then the kind of memory.
fn early_refusal<P: PlaneMemory, A: Allocator + Copy>(
    queue: &Queue<P, A>,
    index: u32,
) -> Option<Reason>
    ensures { result ≡ early_refusal index queue.now.body }
{
    if queue.count() <= index as usize {
        return Some(Reason::BadIndex);
    }
    if queue.kind() != Memory::DmaBuf {
        return Some(Reason::BadMemory);
    }
    None
}

// Prepares or queues a buffer with planes taken from the table, to which they go back at a refusal.
fn put_taken<P: PlaneMemory, A: Allocator + Copy>(
    queue: &mut Queue<P, A>,
    table: &mut FdTable<P, A>,
    way: Use,
    index: u32,
    set: PlaneSet<P>,
) -> Result<IoctlReply<P, A>, Refused<P, A>>
    ensures step { Happens P.plane queue.old queue.new
        (use_event way index DmaBuf (Some (read_set P.plane set)) (refusal_in result)) }
    ensures done { IfOk result (λ reply. reply ≡ Done) }
    ensures back { IfErr result (λ refused. HandsBack None [] refused) }
    ensures gives { GivesIfRefused (values_in set) result table.old table.new }
    ensures same { OnErr result (queue.new ≡ queue.old) }
    ensures shape { queue.new.body.shape ≡ queue.old.body.shape }
{
    match put(queue, way, index, Memory::DmaBuf, Some(set)) {
        Ok(reply) => Ok(reply),
        Err(Refused { errno, planes, .. }) => {
            if let Some(set) = planes {
                give_set(table, set);
            }
            Err(refuse(queue.allocator(), errno, None))
        }
    }
}

// Prepares or queues a buffer with the planes that fds name.
fn put_named<P: PlaneMemory, A: Allocator + Copy>(
    queue: &mut Queue<P, A>,
    table: &mut FdTable<P, A>,
    way: Use,
    index: u32,
    named: PlaneFds,
) -> Result<IoctlReply<P, A>, Refused<P, A>>
    ensures step { AppliesOfAny P.plane (use_call way index (memory.DmaBuf (Some named))) result
        queue.old table.old queue.new table.new }
    ensures same { OnErr result (queue.new ≡ queue.old) }
    ensures still { OnErr result (SameValues table.old table.new) }
    ensures shape { queue.new.body.shape ≡ queue.old.body.shape }
{
    match early_refusal(queue, index) {
        Some(reason) => Err(refuse(queue.allocator(), Errno::of(reason), None)),
        None => match take_set(table, named) {
            Ok(set) => put_taken(queue, table, way, index, set),
            Err(reason) => Err(refuse(queue.allocator(), Errno::of(reason), None)),
        },
    }
}

/// QBUF or PREPARE_BUF, with whatever buffer type: planes by fd are attached first. A refusal hands planes by value
/// back, and leaves queue and table as they were.
pub(crate) fn use_buffer<P: PlaneMemory, A: Allocator + Copy>(
    queue: &mut Queue<P, A>,
    table: &mut FdTable<P, A>,
    way: Use,
    index: u32,
    memory: BufferMemory<P>,
) -> Result<IoctlReply<P, A>, Refused<P, A>>
    ensures step { AppliesOfAny P.plane (use_call way index memory) result queue.old table.old queue.new table.new }
    ensures same { OnErr result (queue.new ≡ queue.old) }
    ensures still { OnErr result (SameValues table.old table.new) }
    ensures shape { queue.new.body.shape ≡ queue.old.body.shape }
{
    match memory {
        BufferMemory::Mmap => put(queue, way, index, Memory::Mmap, None),
        BufferMemory::UserPtr(planes) => put(queue, way, index, Memory::UserPtr, planes),
        BufferMemory::DmaBuf(given) => match given {
            None => put(queue, way, index, Memory::DmaBuf, None),
            Some(named) => put_named(queue, table, way, index, named),
        },
    }
}
