// A disk over bytes that stay as they are: what is to be done to them is written down.
ghost use Rattle.std.specs.Prelude.{⊤, ◌≡◌, ◌+◌, ◌≤◌, ◌++◌, [], ◌∷◌, ℕ, List, All, IfErr, None, OnErr, OnOk, length, map};
ghost use Rattle.loop_disk.specs.declared.fault.DiskFault.TheVariants.{Read, Write, Sync};
ghost use Rattle.loop_disk.specs.declared.crash.DeviceCall.TheVariants as call;
ghost use Rattle.loop_disk.specs.Rows.{joined};
ghost use Rattle.loop_disk.specs.Medium.{LeavesEach, LeavesEachTorn, MayBe, piece};
ghost use Rattle.loop_disk.specs.Calls.{Called, Stays, Syncs, Writes, failed_call, no_failures, with_failed};
ghost use Rattle.loop_disk.specs.History.{Moment, at_rest};
ghost use Rattle.loop_disk.specs.Sound.{sound_of};
ghost use Rattle.loop_disk.specs.Crashing.{IsWithin, after_call, call_of, moment_after, moments_from};
ghost use Rattle.loop_overlay.specs.Pages.{AllAreThere, Awaits, Lacks, logged, refused_read, with_calls, with_failures};
ghost use Rattle.loop_overlay.specs.Parts.{IsBufferOf};

use crate::overlaid_write::lay;
use crate::pages::{Wanted, are_present};
use loop_disk::{DeviceCall, Disk, DiskFault, Failures, join_rows};
use std::alloc::{AllocError, Allocator, Global};
use std::marker::Model;

/// A disk over bytes that it never changes. It writes down each write, with its bytes, and each sync, in their order,
/// and a read gives the bytes with these writes over them. So whoever has the bytes in a file makes these writes and
/// syncs there afterwards. By its contracts that is right at every moment: `carry_out` says what a crash leaves.
///
/// Only some of the bytes may be there: each page of `PAGE` bytes has a mark, 1 where its bytes are. A read fails
/// exactly where one of its pages isn't there, and `wanted` says which read it was. Nothing is merged: each write takes
/// the memory of its bytes, and a read passes over all of them.
#[derive(Drop)]
pub struct LogDisk<'a, A: Allocator = Global> {
    alloc: A,
    start: &'a [u8],
    present: &'a [u8],
    calls: Vec<DeviceCall<Vec<u8, A>>, A>,
    failures: Failures,
    wanted: Option<Wanted>,
}

impl<'a, A: Allocator> Model for LogDisk<'a, A> {
    ghost use Rattle.std.specs.Prelude.{map};
    ghost use Rattle.loop_disk.specs.Crashing.{call_of};
    ghost use Rattle.loop_overlay.specs.Pages.{IsSoundLog, Logged};

    ghost Value = { Logged };

    ghost view = { λ log.
        record {
          tape = record {
            start = log.start.now;
            calls = map (call_of (λ v.
                v.items)) log.calls.items;
            failures = log.failures;
          };
          present = log.present.now;
          wanted = log.wanted;
        } };

    ghost invariant = { λ log.
        IsSoundLog log.start.now (map (call_of (λ v. v.items)) log.calls.items) log.present.now log.failures.reads
        log.wanted };
}

impl<'a, A: Allocator + Copy> LogDisk<'a, A> {
    /// A disk over these bytes, with nothing written down. A mark that is missing counts as 0.
    pub fn new(alloc: A, start: &'a [u8], present: &'a [u8]) -> Self
        ensures { result ≡ record {
          tape = record { start = start.now; calls = []; failures = no_failures };
          present = present.now;
          wanted = None;
        } }
    {
        LogDisk {
            alloc,
            start,
            present,
            calls: Vec::new(alloc),
            failures: Failures::none(),
            wanted: None,
        }
    }

    /// What was written down, the oldest first. There is no `DeviceCall::Read` among it.
    pub fn calls(&self) -> &[DeviceCall<Vec<u8, A>>]
        ensures { map (call_of (λ v. v.items)) result.now ≡ self.now.tape.calls }
    {
        &self.calls
    }

    /// The last read that failed, one of whose pages isn't there; nothing where no read failed.
    pub fn wanted(&self) -> Option<Wanted>
        ensures wanted { result ≡ self.now.wanted }
        ensures awaits { Awaits self.now.tape.start self.now.present self.now.tape.failures.reads result }
    {
        self.wanted
    }

    /// How many of its calls have failed. A read fails where its bytes aren't there, the others where memory is
    /// refused.
    pub fn failures(&self) -> Failures
        ensures { result ≡ self.now.tape.failures }
    {
        self.failures
    }
}

impl<'a, A: Allocator + Copy> Disk for LogDisk<'a, A> {
    ghost medium = { logged };

    ghost harsh = { λ log. ⊤ };

    ghost sound = { λ log honest.
        sound_of log.tape.failures (moment_after log.tape.start log.tape.calls)
        (moments_from (at_rest log.tape.start) [] log.tape.calls) };

    fn size(&self) -> u64 {
        self.start.len() as u64
    }

    /// It fails exactly where a page of the bytes isn't there.
    fn read(&mut self, at: u64, buf: &mut [u8]) -> Result<(), DiskFault>
        requires { at + length buf.old ≤ (logged self.old).size }
        ensures gives { (image : List ℕ) → MayBe (logged self.new) image → MayBe (logged self.old) image
            × OnOk result (buf.new ≡ piece at (length buf.old) image) }
        ensures disk { (logged self.old).honest → Stays (logged self.old) (logged self.new) }
        ensures done { OnOk result (self.new ≡ self.old) }
        ensures failed { OnErr result (self.new ≡ refused_read at (length buf.old)
            (with_failures (with_failed (failed_call result) self.old.tape.failures) self.old)) }
        ensures there { OnOk result (AllAreThere self.old.present at (length buf.old)) }
        ensures lacks { OnErr result (Lacks self.old.tape.start self.old.present at (length buf.old)) }
        ensures each { ⟦<LogDisk<'a, A> as Disk>⟧.harsh self.old → ⟦<LogDisk<'a, A> as Disk>⟧.harsh self.new
            × LeavesEach (logged self.old) (logged self.new) }
        ensures fault { IfErr result (λ fault. fault ≡ Read) }
        ensures called { Called (logged self.old) (logged self.new) (failed_call result) }
    {
        let count = buf.len() as u64;
        if !are_present(self.start, self.present, at, count) {
            self.wanted = Some(Wanted { at, count });
            return self.failures.note(Err(DiskFault::Read));
        }
        copy_part(self.start, at, buf);
        lay_calls(&self.calls, at, buf);
        Ok(())
    }

    /// It fails where memory for the write is refused. Then nothing has changed but the count of failed calls.
    fn write_at(&mut self, at: u64, bytes: &[u8]) -> Result<(), DiskFault>
        requires { at + length bytes.now ≤ (logged self.old).size }
        ensures disk { (logged self.old).honest
            → Writes at bytes.now (logged self.old) (logged self.new) result }
        ensures done { OnOk result (self.new
            ≡ with_calls (self.old.tape.calls ++ call.Write at bytes.now ∷ []) self.old) }
        ensures failed { OnErr result (self.new
            ≡ with_failures (with_failed (failed_call result) self.old.tape.failures) self.old) }
        ensures each { ⟦<LogDisk<'a, A> as Disk>⟧.harsh self.old
            → ⟦<LogDisk<'a, A> as Disk>⟧.harsh self.new
            × OnOk result (LeavesEachTorn at (length bytes.now) (logged self.old) (logged self.new)) }
        ensures fault { IfErr result (λ fault. fault ≡ Write) }
        ensures called { Called (logged self.old) (logged self.new) (failed_call result) }
    {
        match note_write(self.alloc, &mut self.calls, at, bytes) {
            Ok(()) => Ok(()),
            Err(_) => self.failures.note(Err(DiskFault::Write)),
        }
    }

    /// It writes down the joined bytes as one write. It fails where memory for them is refused.
    fn write_rows(&mut self, at: u64, rows: &[&[u8]]) -> Result<(), DiskFault>
        requires { at + length (joined rows.now) ≤ (logged self.old).size }
        ensures disk { (logged self.old).honest
            → Writes at (joined rows.now) (logged self.old) (logged self.new) result }
        ensures done { OnOk result (self.new
            ≡ with_calls (self.old.tape.calls ++ call.Write at (joined rows.now) ∷ []) self.old) }
        ensures failed { OnErr result (self.new
            ≡ with_failures (with_failed (failed_call result) self.old.tape.failures) self.old) }
        ensures each { ⟦<LogDisk<'a, A> as Disk>⟧.harsh self.old
            → ⟦<LogDisk<'a, A> as Disk>⟧.harsh self.new × OnOk result
            (LeavesEachTorn at (length (joined rows.now)) (logged self.old) (logged self.new)) }
        ensures fault { IfErr result (λ fault. fault ≡ Write) }
        ensures called { Called (logged self.old) (logged self.new) (failed_call result) }
    {
        match join_rows(self.alloc, rows) {
            Ok(bytes) => self.write_at(at, &bytes),
            Err(_) => self.failures.note(Err(DiskFault::Write)),
        }
    }

    /// It fails where memory for its mark is refused.
    fn sync(&mut self) -> Result<(), DiskFault>
        ensures disk { (logged self.old).honest → Syncs (logged self.old) (logged self.new) result }
        ensures gives { (image : List ℕ) → MayBe (logged self.new) image → MayBe (logged self.old) image }
        ensures done { OnOk result (self.new ≡ with_calls (self.old.tape.calls ++ call.Sync ∷ []) self.old) }
        ensures failed { OnErr result (self.new
            ≡ with_failures (with_failed (failed_call result) self.old.tape.failures) self.old) }
        ensures each { ⟦<LogDisk<'a, A> as Disk>⟧.harsh self.old → ⟦<LogDisk<'a, A> as Disk>⟧.harsh self.new }
        ensures fault { IfErr result (λ fault. fault ≡ Sync) }
        ensures called { Called (logged self.old) (logged self.new) (failed_call result) }
    {
        match note_call(&mut self.calls, DeviceCall::Sync) {
            Ok(()) => Ok(()),
            Err(_) => self.failures.note(Err(DiskFault::Sync)),
        }
    }
}

// Copies a part of an image.
fn copy_part(image: &[u8], at: u64, buf: &mut [u8])
    requires { at + length buf.old ≤ length image.now }
    ensures { IsBufferOf at image.now buf.new × (length buf.new ≡ length buf.old) }
{
    let at = at as usize;
    buf.copy_from_slice(&image[at..at + buf.len()]);
}

// Writes down a call after the others, or changes nothing where memory is refused.
fn note_call<A: Allocator>(
    calls: &mut Vec<DeviceCall<Vec<u8, A>>, A>,
    call: DeviceCall<Vec<u8, A>>,
) -> Result<(), AllocError>
    ensures call { OnOk result (map (call_of (λ v. v.items)) calls.new.items
        ≡ map (call_of (λ v. v.items)) calls.old.items ++ call_of (λ v. v.items) call ∷ []) }
    ensures no_call { OnErr result (calls.new.items ≡ calls.old.items) }
{
    calls.reserve(1)?;
    calls.push_reserved(call);
    Ok(())
}

// Writes down a write, with its bytes.
fn note_write<A: Allocator>(
    alloc: A,
    calls: &mut Vec<DeviceCall<Vec<u8, A>>, A>,
    at: u64,
    bytes: &[u8],
) -> Result<(), AllocError>
    ensures call { OnOk result (map (call_of (λ v. v.items)) calls.new.items
        ≡ map (call_of (λ v. v.items)) calls.old.items ++ call.Write at bytes.now ∷ []) }
    ensures no_call { OnErr result (calls.new.items ≡ calls.old.items) }
{
    let kept = Vec::from_slice(alloc, bytes)?;
    note_call(calls, DeviceCall::Write(at, kept))
}

// Lays what a call wrote over a buffer that holds a disk's bytes from `at` on.
fn lay_call<A: Allocator>(call: &DeviceCall<Vec<u8, A>>, at: u64, buf: &mut [u8])
    ensures laid { (m : Moment) → IsWithin (length m.bytes) (call_of (λ v. v.items) call.now)
        → IsBufferOf at m.bytes buf.old
        → IsBufferOf at (after_call m (call_of (λ v. v.items) call.now)).bytes buf.new }
    ensures size { length buf.new ≡ length buf.old }
{
    match call {
        DeviceCall::Write(from, bytes) => lay(*from, bytes, at, buf),
        DeviceCall::Read | DeviceCall::Sync => (),
    }
}

// Lays what calls wrote over a buffer that holds a disk's bytes from `at` on, as they were before the first one.
fn lay_calls<A: Allocator>(calls: &[DeviceCall<Vec<u8, A>>], at: u64, buf: &mut [u8])
    ensures laid { (start : List ℕ) → All (IsWithin (length start)) (map (call_of (λ v. v.items)) calls.now)
        → IsBufferOf at start buf.old
        → IsBufferOf at (moment_after start (map (call_of (λ v. v.items)) calls.now)).bytes buf.new }
    ensures size { length buf.new ≡ length buf.old }
{
    for call in calls {
        lay_call(call, at, buf);
    }
}
