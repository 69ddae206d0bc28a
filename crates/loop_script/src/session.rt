// A desk with a formatted store, and the frames that a script makes for it.
ghost use Rattle.std.specs.Prelude.{◌≡◌, ◌⊎◌, ◌↔◌, ◌∷◌, ◌==◌, [], Ok, Err, IfErr, IfOk, IsTrue, OnErr, false, length, not};
ghost use Rattle.loop_desk.specs.Desk.{clip_locked, clip_unlocked, flushed, frame_read, layout_upgraded};
ghost use Rattle.loop_desk.specs.Seen.{DeskGoes, TellsOutline};
ghost use Rattle.loop_record.specs.declared.damage.Damage.TheVariants.{SlotHead};
ghost use Rattle.loop_record.specs.Geometry.{disk_size, frame_bytes, is_good};
ghost use Rattle.loop_record.specs.Recording.{Recording, picture};
ghost use Rattle.loop_store.specs.Faults.{is_disk};
ghost use Rattle.loop_store.specs.Reopen.{IsOpened, IsRefusedOpen, is_bad_keep};
ghost use Rattle.loop_store.specs.Runs.{read_of};
ghost use Rattle.loop_store.specs.Seen.{StandsFor};
ghost use Rattle.loop_script.specs.Pattern.{pattern_picture};
ghost use Rattle.loop_script.specs.Sessions.{IsFreshSession, IsNewDesk, RefusesFrame, accepted_after, calls_of_store, calls_of_submit, script_limits};

use crate::pattern::pattern_frame;
use loop_desk::{Desk, DeskLimits, Flushed, Outline};
use loop_disk::{Disk, MemDisk};
use loop_record::{Frame, Geometry};
use loop_store::{OpenRefused, ReadFrame, Store, StoreFault, can_keep};
use std::alloc::{AllocError, Allocator, Global};
use std::marker::Model;

/// How much the desk of a script accepts, and that of a camera that is recorded.
pub const LIMITS: DeskLimits = DeskLimits {
    pending: 64,
    group: 8,
    calls: 1_000_000,
};

/// A desk over a store on a disk in memory, and a source of pattern frames for it. Contracts see the desk, and how
/// many frames were accepted since the store was formatted.
#[derive(Drop)]
pub struct ScriptDesk<A: Allocator + Copy = Global> {
    desk: Desk<MemDisk<A>, A>,
    /// Frames accepted since the store was formatted, with those that were lost at a reopen.
    accepted: u64,
}

impl<A: Allocator + Copy> Model for ScriptDesk<A> {
    ghost use Rattle.loop_disk.specs.declared.memory.MemDisk.{MemDisk};
    ghost use Rattle.loop_script.specs.Sessions.{IsSession, Shown};

    ghost Value = { Shown (MemDisk A) };

    ghost view = { λ s. record { desk = s.desk; accepted = s.accepted } };

    ghost invariant = { λ s. IsSession s.desk };
}

impl<A: Allocator + Copy> ScriptDesk<A> {
    /// Formats a fresh disk of the right size, and makes a desk for its store. It answers BadGeometry or NoMemory; then
    /// nothing is left of it.
    pub fn format(alloc: A, geometry: Geometry) -> Result<Self, StoreFault>
        ensures bad { (result ≡ Err StoreFault.BadGeometry) ↔ (is_good geometry ≡ false) }
        ensures refusals { IfErr result (λ fault. (fault ≡ StoreFault.BadGeometry)
            ⊎ (fault ≡ StoreFault.NoMemory)) }
        ensures fresh { IfOk result (IsFreshSession ⟦<MemDisk<A> as Disk>⟧.medium
            (record { geometry = geometry; version = 2 })) }
    {
        let disk = disk_for(alloc, &geometry)?;
        match loop_store::format(alloc, disk, geometry) {
            Err(OpenRefused { fault, disk: _ }) => Err(fault),
            Ok(store) => session_before(alloc, store, 0),
        }
    }

    /// As `format`, in version 1 of the layout.
    pub fn format_v1(alloc: A, geometry: Geometry) -> Result<Self, StoreFault>
        ensures bad { (result ≡ Err StoreFault.BadGeometry) ↔ (is_good geometry ≡ false) }
        ensures refusals { IfErr result (λ fault. (fault ≡ StoreFault.BadGeometry)
            ⊎ (fault ≡ StoreFault.NoMemory)) }
        ensures fresh { IfOk result (IsFreshSession ⟦<MemDisk<A> as Disk>⟧.medium
            (record { geometry = geometry; version = 1 })) }
    {
        let disk = disk_for(alloc, &geometry)?;
        match loop_store::format_v1(alloc, disk, geometry) {
            Err(OpenRefused { fault, disk: _ }) => Err(fault),
            Ok(store) => session_before(alloc, store, 0),
        }
    }

    /// Makes the next frame of the pattern, in memory that the desk kept or in new memory, and submits it; returns the
    /// number that it will have. It answers NoMemory, PendingFull or NumbersSpent; then nothing is changed, and the
    /// frame isn't accepted, so the next call makes it again.
    pub fn submit_next(&mut self, alloc: A) -> Result<u64, StoreFault>
        ensures goes { DeskGoes ⟦<MemDisk<A> as Disk>⟧.medium self.old.desk self.new.desk
            (calls_of_submit self.old.desk.store.geometry self.old.accepted result) }
        ensures refusals { IfErr result RefusesFrame }
        ensures unchanged { OnErr result (self.new ≡ self.old) }
        ensures accepted { self.new.accepted ≡ accepted_after self.old.accepted result }
    {
        self.desk.opens();
        let frame = match next_frame(alloc, &mut self.desk, self.accepted) {
            Ok(frame) => frame,
            Err(_) => return Err(StoreFault::NoMemory),
        };
        match self.desk.submit(frame) {
            Ok(number) => {
                self.accepted = self.accepted.saturating_add(1);
                Ok(number)
            }
            Err((fault, _)) => Err(fault),
        }
    }

    /// Stores the first of the frames that wait, as `Desk::flush`. It answers AllLocked; then nothing is changed, and
    /// they continue to wait.
    pub fn flush(&mut self) -> Result<Flushed, StoreFault>
        ensures goes { DeskGoes ⟦<MemDisk<A> as Disk>⟧.medium self.old.desk self.new.desk
            (flushed result ∷ []) }
        ensures refusals { IfErr result (λ fault. fault ≡ StoreFault.AllLocked) }
        ensures unchanged { OnErr result (self.new ≡ self.old) }
        ensures accepted { self.new.accepted ≡ self.old.accepted }
    {
        self.desk.flush()
    }

    /// Submits the next frame of the pattern, and if it was accepted, flushes. It answers the refusals of the two;
    /// after AllLocked, which is the flush's, the frame waits, and the next call makes the one after it.
    pub fn store_next(&mut self, alloc: A) -> Result<Flushed, StoreFault>
        ensures goes { DeskGoes ⟦<MemDisk<A> as Disk>⟧.medium self.old.desk self.new.desk
            (calls_of_store self.old.desk self.old.accepted result) }
        ensures refusals { IfErr result (λ fault. RefusesFrame fault ⊎ (fault ≡ StoreFault.AllLocked)) }
        ensures unchanged { IfErr result (λ fault. RefusesFrame fault → self.new ≡ self.old) }
        ensures accepted { self.new.accepted ≡ accepted_after self.old.accepted result }
    {
        match self.submit_next(alloc) {
            Ok(_) => self.flush(),
            Err(fault) => Err(fault),
        }
    }

    /// Locks the frames from a number to another, with a tag; returns the clip's id. It answers ClipEmpty, ClipNotHeld,
    /// ClipTableFull or OldLayout, and then nothing has changed. A frame that waits isn't held yet.
    pub fn lock(&mut self, from: u64, to: u64, tag: u64) -> Result<u32, StoreFault>
        ensures goes { DeskGoes ⟦<MemDisk<A> as Disk>⟧.medium self.old.desk self.new.desk
            (clip_locked (record { from = from; to = to; tag = tag }) result ∷ []) }
        ensures fine { IfErr result (λ fault. is_disk fault ≡ false) }
        ensures unchanged { OnErr result (self.new ≡ self.old) }
        ensures accepted { self.new.accepted ≡ self.old.accepted }
    {
        self.desk.lock_clip(from, to, tag)
    }

    /// Unlocks the clip of an id. It answers NoSuchClip, and then nothing has changed.
    pub fn unlock(&mut self, id: u32) -> Result<(), StoreFault>
        ensures goes { DeskGoes ⟦<MemDisk<A> as Disk>⟧.medium self.old.desk self.new.desk
            (clip_unlocked id result ∷ []) }
        ensures fine { IfErr result (λ fault. is_disk fault ≡ false) }
        ensures unchanged { OnErr result (self.new ≡ self.old) }
        ensures accepted { self.new.accepted ≡ self.old.accepted }
    {
        self.desk.unlock_clip(id)
    }

    /// Makes version 2 of a layout of version 1, as `Store::upgrade`, and returns whether it did so. It is never
    /// refused.
    pub fn upgrade(&mut self) -> Result<bool, StoreFault>
        ensures goes { DeskGoes ⟦<MemDisk<A> as Disk>⟧.medium self.old.desk self.new.desk
            (layout_upgraded result ∷ []) }
        ensures answer { result ≡ Ok (not (self.old.desk.store.version == 2)) }
        ensures accepted { self.new.accepted ≡ self.old.accepted }
    {
        self.desk.upgrade()
    }

    /// Whether the session's store can keep so many of its newest blocks.
    pub fn can_keep(&self, keep: u32) -> bool
        ensures { result ≡ not (is_bad_keep self.now.desk.store.geometry.segments keep) }
    {
        can_keep(&self.desk.geometry(), keep)
    }

    /// Takes the disk out of the desk and opens the store on it again, which then keeps so many of the newest blocks,
    /// as `can_keep` allows. Frames that waited are lost, but still count as accepted. It answers NoMemory, and then
    /// nothing is left of the session. The same holds of a disk that has no store of this geometry, which is refused as
    /// NotFormatted, Damaged, BadKeep or BadGeometry. A store that stands for a recording is refused only for want of
    /// memory.
    #[tactic(auto, using(crate::proofs::Reopenings::refused_for_memory, crate::proofs::Reopenings::same_geometry))]
    pub fn reopen(self, alloc: A, keep: u32) -> Result<Self, StoreFault>
        requires { is_bad_keep self.desk.store.geometry.segments keep ≡ false }
        ensures opened { IfOk result (λ s. IsOpened ⟦<MemDisk<A> as Disk>⟧.medium
            (⟦<MemDisk<A> as Disk>⟧.medium self.desk.store.disk).bytes s.desk.store) }
        ensures same { IfOk result (λ s. (s.desk.store.geometry ≡ self.desk.store.geometry)
            × (s.accepted ≡ self.accepted)) }
        ensures kept { IfOk result (λ s. (s.desk.store.keep ≡ keep) × (s.desk.store.must_reopen ≡ false)) }
        ensures desk { IfOk result (λ s. IsNewDesk s.desk) }
        ensures refused { IfErr result (λ fault. (fault ≡ StoreFault.BadGeometry)
            ⊎ IsRefusedOpen keep (⟦<MemDisk<A> as Disk>⟧.medium self.desk.store.disk).bytes fault) }
        ensures refusals { IfErr result (λ fault. is_disk fault ≡ false) }
        ensures sound { (r : Recording) → StandsFor ⟦<MemDisk<A> as Disk>⟧.medium self.desk.store r
            → IfErr result (λ fault. fault ≡ StoreFault.NoMemory) }
    {
        let ScriptDesk { desk, accepted } = self;
        let geometry = desk.geometry();
        match Store::open_keeping(alloc, desk.into_disk(), keep) {
            Err(OpenRefused { fault, disk: _ }) => Err(fault),
            Ok(store) => {
                // Later frames are made for this geometry.
                if !is_same(store.geometry(), geometry) {
                    return Err(StoreFault::BadGeometry);
                }
                session_before(alloc, store, accepted)
            }
        }
    }

    /// Reads a stored frame into memory of its own. It answers NotHeld where there is no such frame; or NoMemory; or
    /// Damaged, which never happens on an honest disk.
    pub fn read(&mut self, alloc: A, number: u64) -> Result<ReadFrame<A>, StoreFault>
        ensures goes { DeskGoes ⟦<MemDisk<A> as Disk>⟧.medium self.old.desk self.new.desk
            (frame_read number (read_of result) ∷ []) }
        ensures refusals { IfErr result (λ fault. (fault ≡ StoreFault.NotHeld)
            ⊎ ((fault ≡ StoreFault.NoMemory) ⊎ (fault ≡ StoreFault.Damaged SlotHead))) }
        ensures accepted { self.new.accepted ≡ self.old.accepted }
    {
        self.desk.read_frame(alloc, number)
    }

    /// What the desk holds. It answers NoMemory.
    pub fn outline(&self, alloc: A) -> Result<Outline<A>, StoreFault>
        ensures outline { IfOk result (TellsOutline ⟦<MemDisk<A> as Disk>⟧.medium self.now.desk) }
        ensures refused { IfErr result (λ fault. fault ≡ StoreFault.NoMemory) }
    {
        self.desk.outline(alloc)
    }

    /// The number that the next stored frame gets.
    pub fn next(&self) -> u64
        ensures { result ≡ self.now.desk.store.next }
    {
        self.desk.status().next
    }
}

// Frame `n` of the pattern for a desk's store, in memory that the desk kept or in new memory.
fn next_frame<A: Allocator + Copy>(
    alloc: A,
    desk: &mut Desk<MemDisk<A>, A>,
    n: u64,
) -> Result<Frame<A>, AllocError>
    requires { IsTrue (is_good desk.old.store.geometry) }
    ensures same { desk.new ≡ desk.old }
    ensures picture { IfOk result (λ frame. picture frame ≡ pattern_picture desk.old.store.geometry n) }
    ensures size { IfOk result (λ frame. length frame.bytes.items ≡ frame_bytes desk.old.store.geometry) }
{
    let geometry = desk.geometry();
    let spare = desk.spare_memory();
    pattern_frame(alloc, spare, &geometry, n)
}

// A fresh disk of the right size for a geometry. It answers BadGeometry or NoMemory.
fn disk_for<A: Allocator>(alloc: A, geometry: &Geometry) -> Result<MemDisk<A>, StoreFault>
    ensures bad { (result ≡ Err StoreFault.BadGeometry) ↔ (is_good geometry.now ≡ false) }
    ensures refusals { IfErr result (λ fault. (fault ≡ StoreFault.BadGeometry) ⊎ (fault ≡ StoreFault.NoMemory)) }
    ensures good { IfOk result (λ _. IsTrue (is_good geometry.now)) }
    ensures size { IfOk result (λ disk. (⟦<MemDisk<A> as Disk>⟧.medium disk).size ≡ disk_size geometry.now) }
{
    match geometry.check() {
        Ok(()) => (),
        Err(_) => return Err(StoreFault::BadGeometry),
    }
    let disk = MemDisk::new(alloc, geometry.disk_size())?;
    Ok(disk)
}

// Whether two geometries are the same.
fn is_same(one: Geometry, other: Geometry) -> bool
    ensures { IsTrue result ↔ one ≡ other }
{
    one == other
}

// A session with a store, and so many accepted frames. It answers NoMemory.
fn session_before<A: Allocator + Copy>(
    alloc: A,
    store: Store<MemDisk<A>, A>,
    accepted: u64,
) -> Result<ScriptDesk<A>, StoreFault>
    requires good { IsTrue (is_good store.geometry) }
    requires fine { store.must_reopen ≡ false }
    ensures made { IfOk result (λ s. s ≡ record {
      desk = record { store = store; pending = []; limits = script_limits };
      accepted = accepted;
    }) }
    ensures refused { IfErr result (λ fault. fault ≡ StoreFault.NoMemory) }
{
    match Desk::new(alloc, store, LIMITS) {
        Ok(desk) => Ok(ScriptDesk { desk, accepted }),
        Err(_) => Err(StoreFault::NoMemory),
    }
}
