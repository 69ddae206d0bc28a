//! A sequence of calls of a store, across a crash. What these functions promise follows from the calls' own contracts
//! alone.

ghost use Rattle.std.specs.Prelude.{◌≡◌, ◌≤◌, All, IfOk, [], false, length, true, unwrap_or};
ghost use Rattle.loop_record.specs.Geometry.{frame_bytes};
ghost use Rattle.loop_record.specs.Plain.{pictures};
ghost use Rattle.loop_record.specs.Recording.{empty, holds, plain, ring_of, steps};
ghost use Rattle.loop_store.specs.Calls.{StoreState};
ghost use Rattle.loop_store.specs.Goes.{Stands};
ghost use Rattle.loop_store.specs.Chain.{ReadsFrame};

use crate::{OpenRefused, Store, StoreFault, format};
use loop_disk::Disk;
use loop_record::{Frame, FrameHead, Geometry};
use std::alloc::Allocator;

/// Formats a disk and appends a first group of frames; the store then stands for the recording that has them.
pub fn format_and_append<D: Disk + Drop, A: Allocator + Copy>(
    alloc: A,
    disk: D,
    geometry: Geometry,
    frames: &[Frame<A>],
) -> Result<Store<D, A>, StoreFault>
    requires some { 1 ≤ length frames.now }
    requires few { length frames.now ≤ 64 }
    requires room { length frames.now ≤ geometry.slots }
    requires sizes { All (λ frame. length frame.bytes.items ≡ frame_bytes geometry) frames.now }
    ensures { IfOk result (λ store. Stands D.medium store (record {
      recording = let ring = ring_of geometry in
          plain ring empty (unwrap_or (steps ring 1 empty (pictures frames.now)) []);
      version = 2;
      keep = 1;
      must_reopen = false;
    })) }
{
    match format(alloc, disk, geometry) {
        Err(OpenRefused { fault, disk: _ }) => Err(fault),
        Ok(mut store) => {
            store.append(frames)?;
            Ok(store)
        }
    }
}

/// Reads a frame of a store after a crash: `crashed` is a disk that holds what a crash now may leave of the store's
/// disk. A frame that the store held is read byte for byte, unless memory is refused or a call of `crashed` fails.
///
/// A disk that holds no store is refused as `Store::open` refuses it. One whose frames have another size is refused as
/// `BadGeometry`.
pub fn read_after_crash<D: Disk + Drop, E: Disk + Drop, A: Allocator + Copy>(
    alloc: A,
    store: &Store<D, A>,
    crashed: E,
    number: u64,
    out: &mut [u8],
) -> Result<FrameHead, StoreFault>
    requires size { length out.old ≡ frame_bytes store.now.geometry }
    requires left { (D.medium store.now.disk).may_leave (E.medium crashed).bytes }
    ensures { (s : StoreState) → Stands D.medium store.now s → s.must_reopen ≡ false
        → (D.medium store.now.disk).honest → (E.medium crashed).honest
        → holds s.recording number ≡ true → ReadsFrame s.recording number result out.new }
{
    match Store::open(alloc, crashed) {
        Err(OpenRefused { fault, disk: _ }) => Err(fault),
        Ok(mut opened) => {
            if out.len() != opened.geometry().frame_bytes() as usize {
                return Err(StoreFault::BadGeometry);
            }
            opened.read(number, out)
        }
    }
}
