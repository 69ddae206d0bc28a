//! A recorder of one camera: each of its calls, and a recording.
ghost use Rattle.std.specs.Prelude.{◌≡◌, IfSome, length, vec_len};
ghost use Rattle.loop_recorder.specs.Opened.{IsReady};

use crate::SMALL;
use loop_capture::{Device, FrameSource, Pattern};
use loop_desk::{Desk, DeskLimits};
use loop_disk::MemDisk;
use loop_ioctl::{BufferType, Ioctl};
use loop_pipeline::new_queue;
use loop_plane::{MmapPlane, PlaneMemory};
use loop_record::Frame;
use loop_recorder::{CameraParts, Pace, Pass, Recorder, Step, record};
use loop_store::chain::format_and_append;
use loop_store::{Store, format};
use std::alloc::Global;
use std::sync::Wait;
use std::thread::Threads;
use std::time::Clock;

// The bytes of a disk of such a store.
const BYTES: u64 = 4360;

// Four frames may wait, and are stored at once; a hundred calls are noted.
const LIMITS: DeskLimits = DeskLimits {
    pending: 4,
    group: 4,
    calls: 100,
};

// Waits at no step.
#[derive(Clone, Copy)]
struct AtOnce;

impl Pace for AtOnce {
    fn reached(&self, _camera: u32, _step: Step) {}
}

/// A frame of the store's size is the first of a fresh store.
pub fn a_first_frame_is_stored(alloc: Global, frame: Frame) -> Option<Store<MemDisk>> {
    if frame.bytes.len() != 12 {
        return None;
    }
    let Ok(disk) = MemDisk::new(alloc, BYTES) else {
        return None;
    };
    match format_and_append(alloc, disk, SMALL, &[frame]) {
        Ok(store) => Some(store),
        Err(_) => None,
    }
}

// A camera with a fresh store, and a queue without buffers.
fn a_camera(alloc: Global) -> Option<CameraParts<MemDisk, MmapPlane>>
    ensures { IfSome result (IsReady ⟦<MmapPlane as PlaneMemory>⟧.plane) }
{
    let Ok(disk) = MemDisk::new(alloc, BYTES) else {
        return None;
    };
    let Ok(store) = format(alloc, disk, SMALL) else {
        return None;
    };
    if store.must_reopen() {
        return None;
    }
    let Ok(desk) = Desk::new(alloc, store, LIMITS) else {
        return None;
    };
    let (queue, table) = new_queue(alloc, &SMALL);
    Some((desk, queue, table))
}

// A recorder of one camera, and its three passes.
fn a_recorder(alloc: Global) -> Option<(Recorder<MemDisk, MmapPlane>, Vec<Pass>)>
    ensures { IfSome result (λ made. (length made.0.outlines ≡ 1) × (vec_len made.1 ≡ 3)) }
{
    let camera = a_camera(alloc)?;
    let Ok(mut cameras) = Vec::with_capacity(alloc, 1) else {
        return None;
    };
    cameras.push_reserved(camera);
    match Recorder::new(alloc, cameras, 3) {
        Ok(made) => Some(made),
        Err(_) => None,
    }
}

/// Each call of the desk's can be made of a recorder's only camera.
pub fn a_desk_is_asked<R: Wait>(rt: &R, alloc: Global, frame: Frame) -> Option<u32> {
    let (recorder, mut passes) = a_recorder(alloc)?;
    let mut pass = passes.pop()?;
    let number = recorder.submit(rt, 0, &mut pass, frame).unwrap_or(0);
    let _stored = recorder.flush(rt, 0, &mut pass, &AtOnce);
    if let Ok(id) = recorder.lock_clip(rt, 0, &mut pass, number, number, 7) {
        let _unlocked = recorder.unlock_clip(rt, 0, &mut pass, id);
    }
    let _frame = recorder.read_frame(rt, alloc, 0, &mut pass, number);
    let _status = recorder.status(rt, 0, &mut pass);
    let _memory = recorder.spare_memory(rt, 0);
    Some(recorder.pending(rt, 0))
}

/// Each call of the queue's can be.
pub fn a_queue_is_asked<R: Wait>(rt: &R, alloc: Global, now: u64) -> Option<bool> {
    let (recorder, _passes) = a_recorder(alloc)?;
    let Ok(mut device) = Device::new(alloc, Pattern::new(), 12) else {
        return None;
    };
    let buf_type = BufferType::VideoCapture;
    let _streams = recorder.ioctl(rt, 0, Ioctl::StreamOn { buf_type });
    let _tick = recorder.tick(rt, 0, &mut device, now);
    let mut out = [0; 4];
    Some(recorder.copy_plane(rt, 0, 0, 0, 0, &mut out).is_ok())
}

// A device of a source.
fn a_device(alloc: Global, source: Box<dyn FrameSource + Send>) -> Option<Device> {
    match Device::new(alloc, source, 12) {
        Ok(device) => Some(device),
        Err(_) => None,
    }
}

/// A recording of one camera, from the pattern.
pub fn a_recorder_records<R: Threads + Wait + Clock + Sync>(
    rt: &R,
    alloc: Global,
    frames: u32,
) -> Option<bool> {
    let (recorder, passes) = a_recorder(alloc)?;
    let Ok(source) = Box::new(alloc, Pattern::new()) else {
        return None;
    };
    let mut devices = [a_device(alloc, source)?];
    Some(record(rt, alloc, recorder, passes, &mut devices, frames, &AtOnce).is_ok())
}
