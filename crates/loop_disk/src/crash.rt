// A disk in memory that remembers its calls, so that a test can look at the disk after a crash at each moment.
ghost use Rattle.std.specs.Prelude.{⊤, ◌≡◌, ◌≤◌, ◌<◌, ◌+◌, ◌*◌, ◌%◌, ◌^◌, ◌++◌, [], ◌∷◌, ℕ, List, length, map, take, get_or, IfOk, OnOk, OnErr, IfErr, replicate};
ghost use Rattle.std.specs.List.{All};
ghost use Rattle.loop_disk.specs.declared.fault.DiskFault.TheVariants.{Read, Write, Sync};
ghost use Rattle.loop_disk.specs.declared.crash.DeviceCall.TheVariants as call;
ghost use Rattle.loop_disk.specs.Rows.{joined};
ghost use Rattle.loop_disk.specs.Medium.{MayBe, with_bytes_at, piece, IsSettled, LeavesEach, LeavesEachTorn};
ghost use Rattle.loop_disk.specs.Calls.{Called, Stays, Writes, Syncs, failed_call, no_failures, with_failed};
ghost use Rattle.loop_disk.specs.History.{Moment, at_rest};
ghost use Rattle.loop_disk.specs.Sound.{sound_of};
ghost use Rattle.loop_disk.specs.Crashing.{Tape, call_of, after_call, moment_after, moments_from, medium_after, IsWithin, IsSpoiled, spoiled_byte};
ghost use Rattle.loop_disk.specs.Replay.{IsReplayed, PutsSpoiled};

use crate::rows::{join_rows, put};
use crate::{Disk, DiskFault, Failures, MemDisk};
use std::alloc::{AllocError, Allocator, Global};
use std::marker::Model;

/// A call that a crash disk has made. `B` is what was written.
#[derive(Drop)]
pub enum DeviceCall<B> {
    /// Bytes were read.
    Read,
    /// These bytes were written from this place on.
    Write(u64, B),
    /// What was written before was put on the disk.
    Sync,
}

/// What a crash leaves in the places that were written since the last sync that succeeded.
#[derive(Clone, Copy, Debug, PartialEq, Eq)]
pub enum Spoil {
    /// The present bytes.
    Keep,
    /// The bytes at the last sync, or those at the start if there was none.
    Old,
    /// 0x00.
    Zero,
    /// 0xFF.
    Ones,
    /// 0xA5, an open gate.
    Gate,
    /// At address i the byte `(167 * i + m) mod 256`.
    Mix(u8),
}

/// A disk in memory, honest, that remembers its calls: each read, write and sync. `size` isn't one of them.
///
/// A call for which its record can't grow fails, as a device's call may. It changes nothing, and isn't remembered.
#[derive(Drop)]
pub struct CrashDisk<A: Allocator = Global> {
    alloc: A,
    start: Vec<u8, A>,
    bytes: Vec<u8, A>,
    calls: Vec<DeviceCall<Vec<u8, A>>, A>,
    failures: Failures,
}

impl<A: Allocator> Model for CrashDisk<A> {
    ghost use Rattle.std.specs.Prelude.{map};
    ghost use Rattle.loop_disk.specs.Crashing.{Tape, call_of};
    ghost use Rattle.loop_disk.specs.Replay.{IsRecorded};

    ghost Value = { Tape };

    ghost view = { λ disk.
        record {
          start = disk.start.items;
          calls = map (call_of (λ v.
              v.items)) disk.calls.items;
          failures = disk.failures;
        } };

    ghost invariant = { λ disk.
        IsRecorded disk.start.items (map (call_of (λ v. v.items)) disk.calls.items) disk.bytes.items };
}

impl<A: Allocator + Copy> CrashDisk<A> {
    /// A disk of so many bytes of zero. Its only error is want of memory.
    pub fn new(alloc: A, size: u64) -> Result<Self, AllocError>
        ensures { IfOk result (λ disk. disk ≡ record { start = replicate size 0; calls = []; failures = no_failures }) }
    {
        CrashDisk::of(alloc, vec![in alloc; 0; size as usize]?)
    }

    /// A disk that holds an image, all of it synced. It keeps a second copy of the image. Its only error is want of
    /// memory.
    pub fn of(alloc: A, bytes: Vec<u8, A>) -> Result<Self, AllocError>
        ensures { IfOk result (λ disk. disk ≡ record { start = bytes.items; calls = []; failures = no_failures }) }
    {
        let start = Vec::from_slice(alloc, &bytes)?;
        Ok(CrashDisk {
            alloc,
            start,
            bytes,
            calls: Vec::new(alloc),
            failures: Failures::none(),
        })
    }

    /// How many calls it has made.
    pub fn calls(&self) -> usize
        ensures { result ≡ length self.now.calls }
    {
        self.calls.len()
    }

    /// What a read gives now, all of it.
    pub fn bytes(&self) -> &[u8]
        ensures { result.now ≡ (medium_after self.now).bytes }
    {
        &self.bytes
    }

    /// The disk after a crash that came once the first so many calls were made. Its only error is want of memory.
    pub fn crash(&self, calls: usize, spoil: Spoil) -> Result<MemDisk<A>, AllocError>
        requires { calls ≤ length self.now.calls }
        ensures left { IfOk result (λ disk.
            (medium_after self.now).left_since calls (⟦<MemDisk<A> as Disk>⟧.medium disk).bytes) }
        ensures image { IfOk result (λ disk.
            IsSpoiled spoil (moment_after self.now.start (take calls self.now.calls))
            (⟦<MemDisk<A> as Disk>⟧.medium disk).bytes) }
        ensures settled { IfOk result (λ disk. IsSettled (⟦<MemDisk<A> as Disk>⟧.medium disk)) }
    {
        let mut bytes = Vec::from_slice(self.alloc, &self.start)?;
        let mut image = Vec::from_slice(self.alloc, &self.start)?;
        replay(&mut bytes, &mut image, &self.calls[..calls], spoil);
        Ok(MemDisk::of(image))
    }
}

impl<A: Allocator + Copy> Disk for CrashDisk<A> {
    ghost medium = { medium_after };

    ghost harsh = { λ tape. ⊤ };

    ghost sound = { λ tape honest.
        sound_of tape.failures (moment_after tape.start tape.calls) (moments_from (at_rest tape.start) [] tape.calls) };

    fn size(&self) -> u64 {
        self.bytes.len() as u64
    }

    fn read(&mut self, at: u64, buf: &mut [u8]) -> Result<(), DiskFault>
        requires { at + length buf.old ≤ (medium_after self.old).size }
        ensures gives { (image : List ℕ) → MayBe (medium_after self.new) image → MayBe (medium_after self.old) image
            × OnOk result (buf.new ≡ piece at (length buf.old) image) }
        ensures disk { (medium_after self.old).honest → Stays (medium_after self.old) (medium_after self.new) }
        ensures done { OnOk result (self.new ≡ record self.old { calls = self.old.calls ++ call.Read ∷ [] }) }
        ensures failed { OnErr result (self.new
            ≡ record self.old { failures = with_failed (failed_call result) self.old.failures }) }
        ensures each { ⟦<CrashDisk<A> as Disk>⟧.harsh self.old → ⟦<CrashDisk<A> as Disk>⟧.harsh self.new
            × LeavesEach (medium_after self.old) (medium_after self.new) }
        ensures fault { IfErr result (λ fault. fault ≡ Read) }
        ensures called { Called (medium_after self.old) (medium_after self.new) (failed_call result) }
    {
        match remember(&mut self.calls, DeviceCall::Read) {
            Ok(()) => {
                let at = at as usize;
                let end = at + buf.len();
                buf.copy_from_slice(&self.bytes[at..end]);
                Ok(())
            }
            Err(_) => {
                self.failures.count(DiskFault::Read);
                Err(DiskFault::Read)
            }
        }
    }

    /// At Ok a crash may leave any bytes in the range.
    fn write_at(&mut self, at: u64, bytes: &[u8]) -> Result<(), DiskFault>
        requires { at + length bytes.now ≤ (medium_after self.old).size }
        ensures disk { (medium_after self.old).honest
            → Writes at bytes.now (medium_after self.old) (medium_after self.new) result }
        ensures done { OnOk result (self.new
            ≡ record self.old { calls = self.old.calls ++ call.Write at bytes.now ∷ [] }) }
        ensures failed { OnErr result (self.new
            ≡ record self.old { failures = with_failed (failed_call result) self.old.failures }) }
        ensures each { ⟦<CrashDisk<A> as Disk>⟧.harsh self.old
            → ⟦<CrashDisk<A> as Disk>⟧.harsh self.new
            × OnOk result (LeavesEachTorn at (length bytes.now) (medium_after self.old) (medium_after self.new)) }
        ensures fault { IfErr result (λ fault. fault ≡ Write) }
        ensures called { Called (medium_after self.old) (medium_after self.new) (failed_call result) }
    {
        match remember_write(self.alloc, &mut self.calls, &mut self.bytes, at, bytes) {
            Ok(()) => Ok(()),
            Err(_) => {
                self.failures.count(DiskFault::Write);
                Err(DiskFault::Write)
            }
        }
    }

    /// It takes memory for the joined bytes too.
    fn write_rows(&mut self, at: u64, rows: &[&[u8]]) -> Result<(), DiskFault>
        requires { at + length (joined rows.now) ≤ (medium_after self.old).size }
        ensures disk { (medium_after self.old).honest
            → Writes at (joined rows.now) (medium_after self.old) (medium_after self.new) result }
        ensures done { OnOk result (self.new
            ≡ record self.old { calls = self.old.calls ++ call.Write at (joined rows.now) ∷ [] }) }
        ensures failed { OnErr result (self.new
            ≡ record self.old { failures = with_failed (failed_call result) self.old.failures }) }
        ensures each { ⟦<CrashDisk<A> as Disk>⟧.harsh self.old
            → ⟦<CrashDisk<A> as Disk>⟧.harsh self.new × OnOk result
            (LeavesEachTorn at (length (joined rows.now)) (medium_after self.old) (medium_after self.new)) }
        ensures fault { IfErr result (λ fault. fault ≡ Write) }
        ensures called { Called (medium_after self.old) (medium_after self.new) (failed_call result) }
    {
        match join_rows(self.alloc, rows) {
            Ok(bytes) => self.write_at(at, &bytes),
            Err(_) => {
                self.failures.count(DiskFault::Write);
                Err(DiskFault::Write)
            }
        }
    }

    fn sync(&mut self) -> Result<(), DiskFault>
        ensures disk { (medium_after self.old).honest → Syncs (medium_after self.old) (medium_after self.new) result }
        ensures gives { (image : List ℕ) → MayBe (medium_after self.new) image → MayBe (medium_after self.old) image }
        ensures done { OnOk result (self.new ≡ record self.old { calls = self.old.calls ++ call.Sync ∷ [] }) }
        ensures failed { OnErr result (self.new
            ≡ record self.old { failures = with_failed (failed_call result) self.old.failures }) }
        ensures each { ⟦<CrashDisk<A> as Disk>⟧.harsh self.old → ⟦<CrashDisk<A> as Disk>⟧.harsh self.new }
        ensures fault { IfErr result (λ fault. fault ≡ Sync) }
        ensures called { Called (medium_after self.old) (medium_after self.new) (failed_call result) }
    {
        match remember(&mut self.calls, DeviceCall::Sync) {
            Ok(()) => Ok(()),
            Err(_) => {
                self.failures.count(DiskFault::Sync);
                Err(DiskFault::Sync)
            }
        }
    }
}

// Adds a call after the others, or changes nothing where memory is refused.
fn remember<A: Allocator>(
    calls: &mut Vec<DeviceCall<Vec<u8, A>>, A>,
    call: DeviceCall<Vec<u8, A>>,
) -> Result<(), AllocError>
    ensures call { OnOk result (map (call_of (λ v. v.items)) calls.new.items ≡ map (call_of (λ v.
        v.items)) calls.old.items ++ call_of (λ v. v.items) call ∷ []) }
    ensures no_call { OnErr result (calls.new.items ≡ calls.old.items) }
{
    calls.reserve(1)?;
    calls.push_reserved(call);
    Ok(())
}

// Remembers a write, and makes it; or changes nothing where memory is refused.
fn remember_write<A: Allocator>(
    alloc: A,
    calls: &mut Vec<DeviceCall<Vec<u8, A>>, A>,
    image: &mut Vec<u8, A>,
    at: u64,
    bytes: &[u8],
) -> Result<(), AllocError>
    requires { at + length bytes.now ≤ length image.old.items }
    ensures call { OnOk result (map (call_of (λ v. v.items)) calls.new.items ≡ map (call_of (λ v.
        v.items)) calls.old.items ++ call.Write at bytes.now ∷ []) }
    ensures image { OnOk result (image.new.items ≡ with_bytes_at at bytes.now image.old.items) }
    ensures no_call { OnErr result (calls.new.items ≡ calls.old.items) }
    ensures same { OnErr result (image.new.items ≡ image.old.items) }
{
    let kept = Vec::from_slice(alloc, bytes)?;
    remember(calls, DeviceCall::Write(at, kept))?;
    put(image, at, bytes);
    Ok(())
}

// Makes the calls again on two images. On the first they are whole; on the second what was written since the last sync
// is as a crash leaves it.
fn replay<A: Allocator>(
    bytes: &mut Vec<u8, A>,
    image: &mut Vec<u8, A>,
    calls: &[DeviceCall<Vec<u8, A>>],
    spoil: Spoil,
)
    requires same { image.old.items ≡ bytes.old.items }
    requires within { All (IsWithin (length bytes.old.items)) (map (call_of (λ v. v.items)) calls.now) }
    ensures { IsReplayed spoil (moment_after bytes.old.items (map (call_of (λ v.
        v.items)) calls.now)) bytes.new.items image.new.items }
{
    for call in calls {
        replay_call(bytes, image, call, spoil);
    }
}

fn replay_call<A: Allocator>(
    bytes: &mut Vec<u8, A>,
    image: &mut Vec<u8, A>,
    call: &DeviceCall<Vec<u8, A>>,
    spoil: Spoil,
)
    requires same { length image.old.items ≡ length bytes.old.items }
    requires within { IsWithin (length bytes.old.items) (call_of (λ v. v.items) call.now) }
    ensures replayed { (m : Moment) → IsReplayed spoil m bytes.old.items image.old.items
        → IsReplayed spoil (after_call m (call_of (λ v. v.items) call.now)) bytes.new.items image.new.items }
    ensures size { length bytes.new.items ≡ length bytes.old.items }
    ensures image_size { length image.new.items ≡ length image.old.items }
{
    match call {
        DeviceCall::Read => (),
        DeviceCall::Write(at, written) => {
            put(bytes, *at, written);
            put_spoiled(image, *at, written, spoil);
        }
        DeviceCall::Sync => image.copy_from_slice(bytes),
    }
}

// Puts what a crash leaves of bytes in their place.
fn put_spoiled<A: Allocator>(image: &mut Vec<u8, A>, at: u64, bytes: &[u8], spoil: Spoil)
    requires { at + length bytes.now ≤ length image.old.items }
    ensures { PutsSpoiled spoil at bytes.now image.old.items image.new.items }
{
    let start = at as usize;
    let end = start + bytes.len();
    spoil_range(&mut image[start..end], start, bytes, spoil);
}

// The same on the range itself, which begins at this place of the disk.
fn spoil_range(range: &mut [u8], start: usize, bytes: &[u8], spoil: Spoil)
    requires same { length range.old ≡ length bytes.now }
    requires fits { start + length bytes.now < 2 ^ 64 }
    ensures size { length range.new ≡ length range.old }
    ensures there { (i : ℕ) → i < length bytes.now
        → get_or range.new i 0 ≡ spoiled_byte spoil (start + i) (get_or range.old i 0) (get_or bytes.now i 0) }
{
    match spoil {
        Spoil::Keep => range.copy_from_slice(bytes),
        Spoil::Old => (),
        Spoil::Zero => range.fill(0),
        Spoil::Ones => range.fill(0xFF),
        Spoil::Gate => range.fill(0xA5),
        Spoil::Mix(m) => mix(range, start, m),
    }
}

fn mix(range: &mut [u8], start: usize, m: u8)
    requires { start + length range.old < 2 ^ 64 }
    ensures size { length range.new ≡ length range.old }
    ensures there { (i : ℕ) → i < length range.old → get_or range.new i 0 ≡ (167 * (start + i) + m) % 256 }
{
    for i in 0..range.len() {
        range[i] = ((167 * (start + i) as u128 + m as u128) % 256) as u8;
    }
}
