//! A queue that a front may begin with, and how it is started.

ghost use Rattle.std.specs.Prelude.{◌≡◌, IsTrue, true, OnOk};
ghost use Rattle.loop_record.specs.Geometry.{is_good};
ghost use Rattle.loop_vb2.specs.First.{shape_of};
ghost use Rattle.loop_ioctl.specs.declared.call.BufferType.{BufferType};
ghost use Rattle.loop_ioctl.specs.declared.call.Ioctl.TheVariants.{StreamOn};
ghost use Rattle.loop_pipeline.specs.Fronts.{IsOpen};

use crate::Start;
use loop_desk::laws::queues_stay_sound;
use loop_ioctl::laws::{new_queues_stand, turns_are_events};
use loop_ioctl::{BufferMemory, Ioctl, apply};
use loop_plane::{FdTable, Memory, PlaneMemory};
use loop_record::Geometry;
use loop_vb2::Queue;
use std::alloc::{AllocError, Global};

// How many buffers of a queue have to be queued before its device starts.
const MIN_QUEUED: u32 = 1;

/// A queue without buffers for frames of this geometry, and a table in which no fd names a plane.
pub fn new_queue<P: PlaneMemory>(alloc: Global, geometry: &Geometry) -> (Queue<P>, FdTable<P>)
    requires { IsTrue (is_good geometry.now) }
    ensures ready { IsOpen P.plane result.0 result.1 }
    ensures shape { result.0.body.shape ≡ shape_of geometry.now.format geometry.now.width geometry.now.height }
{
    new_queues_stand::<P>();
    queues_stay_sound::<P>();
    let queue = Queue::new(
        alloc,
        geometry.format,
        geometry.width,
        geometry.height,
        MIN_QUEUED,
    );
    (queue, FdTable::new(alloc))
}

// One ioctl, by its success alone. Planes that a reply or a refusal hands back are dropped.
fn ask<P: PlaneMemory>(
    queue: &mut Queue<P>,
    table: &mut FdTable<P>,
    call: Ioctl<P>,
) -> Result<(), AllocError>
    requires { IsOpen P.plane queue.old table.old }
    ensures ready { IsOpen P.plane queue.new table.new }
    ensures streams { (type : BufferType) → call ≡ StreamOn type
        → OnOk result (queue.new.body.streaming ≡ true) }
{
    turns_are_events::<P, Global>();
    queues_stay_sound::<P>();
    match apply(queue, table, call) {
        Ok(_) => Ok(()),
        Err(_) => Err(AllocError),
    }
}

/// Gives a new queue its buffers, queues them and turns streaming on. If the start was made for this queue, only want
/// of memory refuses it. Refused or not, a front may begin with the queue.
pub fn start_queue<P: PlaneMemory>(
    queue: &mut Queue<P>,
    table: &mut FdTable<P>,
    start: Start<P>,
) -> Result<(), AllocError>
    requires { IsOpen P.plane queue.old table.old }
    ensures ready { IsOpen P.plane queue.new table.new }
    ensures streams { OnOk result (queue.new.body.streaming ≡ true) }
{
    let Start {
        buf_type,
        count,
        memory,
        supply,
        mut brought,
    } = start;
    let request = Ioctl::ReqBufs {
        buf_type,
        count,
        memory,
        supply,
    };
    ask(queue, table, request)?;
    'buffers: for index in 0..count {
        let memory = match memory {
            Memory::Mmap => BufferMemory::Mmap,
            Memory::UserPtr | Memory::DmaBuf => BufferMemory::UserPtr(brought.pop()),
        };
        let queued = Ioctl::QBuf {
            buf_type,
            index,
            memory,
        };
        ask(queue, table, queued)?;
    }
    ask(queue, table, Ioctl::StreamOn { buf_type })
}
