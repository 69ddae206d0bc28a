//! Refusals.

ghost use Rattle.std.specs.Prelude.{◌≡◌};
ghost use Rattle.loop_store.specs.Faults.{fault_name, fault_number, slot_refusal};
ghost use Rattle.loop_store.specs.declared.fault.StoreFault.TheVariants.{NoMemory, Disk, Damaged};

use loop_disk::DiskFault;
use loop_record::Damage;
use loop_ring::SlotFault;
use std::alloc::AllocError;
use std::fmt;
use std::fmt::{Debug, Display, Formatter};
use thiserror::Error;

/// Why a call of a store is refused. The names and numbers are this project's own. A refusal changes nothing, except
/// `Disk` in a call that writes.
#[derive(Clone, Copy, Debug, PartialEq, Eq, Error)]
pub enum StoreFault {
    /// Memory was refused.
    #[error("no memory")]
    NoMemory,
    /// A call of the disk failed.
    #[error("the disk failed: {0}")]
    Disk(DiskFault),
    /// A call that writes returned `Disk` before: take out the disk and open it again.
    #[error("the store has to be opened again")]
    MustReopen,
    /// The disk has no open superblock.
    #[error("the disk isn't formatted")]
    NotFormatted,
    /// The contents of the disk aren't valid.
    #[error("the image is damaged: {0}")]
    Damaged(Damage),
    /// No frame has this number.
    #[error("no frame has this number")]
    NotHeld,
    /// A limit of the geometry is broken, or the disk's size isn't the geometry's.
    #[error("the geometry isn't good, or the disk has another size")]
    BadGeometry,
    /// The next number is the first of a block whose frames would reach 2^62.
    #[error("no number is left")]
    NumbersSpent,
    /// A block has to be recycled first, and no block may go: each is locked by a clip or among the newest that are
    /// kept.
    #[error("no block may go")]
    AllLocked,
    /// The clip's first number is above its last one.
    #[error("the clip is empty")]
    ClipEmpty,
    /// No frame has this number, the least such number of the clip.
    #[error("the clip has number {0}, of which no frame is held")]
    ClipNotHeld(u64),
    /// Each of the 64 ids has a clip.
    #[error("as many clips stand as there may be")]
    ClipTableFull,
    /// No clip has this id.
    #[error("no clip has this id")]
    NoSuchClip,
    /// As many frames wait at a desk as are allowed.
    #[error("as many frames wait as may")]
    PendingFull,
    /// The frame has another size than the geometry's.
    #[error("the frame has another size")]
    WrongSize,
    /// A lane's hand holds a buffer already.
    #[error("the hand holds a buffer")]
    HandFull,
    /// A lane's hand holds no frame, or no buffer, where one is asked for.
    #[error("the hand is empty")]
    HandEmpty,
    /// A clip with a tag other than 0 in version 1 of the layout, which has no place for it.
    #[error("the layout has no tags: it is to be upgraded first")]
    OldLayout,
    /// This many of the newest blocks can't be kept: none, or as many as there are segments or more.
    #[error("so many blocks can't be kept")]
    BadKeep,
}

impl StoreFault {
    /// The number with which a refusal is printed.
    pub fn number(self) -> u8
        ensures { result ≡ fault_number self }
    {
        match self {
            StoreFault::NoMemory => 1,
            StoreFault::Disk(_) => 2,
            StoreFault::MustReopen => 3,
            StoreFault::NotFormatted => 4,
            StoreFault::Damaged(_) => 5,
            StoreFault::AllLocked => 6,
            StoreFault::PendingFull => 7,
            StoreFault::WrongSize => 8,
            StoreFault::ClipEmpty => 9,
            StoreFault::ClipNotHeld(_) => 10,
            StoreFault::ClipTableFull => 11,
            StoreFault::NoSuchClip => 12,
            StoreFault::NotHeld => 13,
            StoreFault::NumbersSpent => 14,
            StoreFault::BadGeometry => 16,
            StoreFault::HandFull => 18,
            StoreFault::HandEmpty => 19,
            StoreFault::OldLayout => 21,
            StoreFault::BadKeep => 22,
        }
    }

    /// The name with which a refusal is printed.
    pub fn name(self) -> &'static str
        ensures { result.now ≡ fault_name self }
    {
        match self {
            StoreFault::NoMemory => "NoMemory",
            StoreFault::Disk(_) => "Disk",
            StoreFault::MustReopen => "MustReopen",
            StoreFault::NotFormatted => "NotFormatted",
            StoreFault::Damaged(_) => "Damaged",
            StoreFault::AllLocked => "AllLocked",
            StoreFault::PendingFull => "PendingFull",
            StoreFault::WrongSize => "WrongSize",
            StoreFault::ClipEmpty => "ClipEmpty",
            StoreFault::ClipNotHeld(_) => "ClipNotHeld",
            StoreFault::ClipTableFull => "ClipTableFull",
            StoreFault::NoSuchClip => "NoSuchClip",
            StoreFault::NotHeld => "NotHeld",
            StoreFault::NumbersSpent => "NumbersSpent",
            StoreFault::BadGeometry => "BadGeometry",
            StoreFault::HandFull => "HandFull",
            StoreFault::HandEmpty => "HandEmpty",
            StoreFault::OldLayout => "OldLayout",
            StoreFault::BadKeep => "BadKeep",
        }
    }
}

impl From<DiskFault> for StoreFault {
    ghost from_gives = { λ fault made. made ≡ Disk fault };

    fn from(fault: DiskFault) -> StoreFault {
        StoreFault::Disk(fault)
    }
}

impl From<Damage> for StoreFault {
    ghost from_gives = { λ damage made. made ≡ Damaged damage };

    fn from(damage: Damage) -> StoreFault {
        StoreFault::Damaged(damage)
    }
}

impl From<SlotFault> for StoreFault {
    ghost from_gives = { λ fault made. made ≡ slot_refusal fault };

    fn from(fault: SlotFault) -> StoreFault {
        match fault {
            SlotFault::Disk(fault) => StoreFault::Disk(fault),
            SlotFault::Damaged(damage) => StoreFault::Damaged(damage),
        }
    }
}

impl From<AllocError> for StoreFault {
    ghost from_gives = { λ refused made. made ≡ NoMemory };

    fn from(_refused: AllocError) -> StoreFault {
        StoreFault::NoMemory
    }
}

/// A disk that gives no store, and why. As an error it shows its fault alone, and nothing of the disk.
#[derive(Drop)]
pub struct OpenRefused<D> {
    /// Why.
    pub fault: StoreFault,
    /// The disk, handed back.
    pub disk: D,
}

impl<D> Debug for OpenRefused<D> {
    /// Only the fault: the disk may hold gigabytes, and needn't be `Debug`.
    fn fmt<W: fmt::Write>(&self, f: &mut Formatter<W>) -> fmt::Result {
        write!(f, "OpenRefused {{ fault: {:?}, .. }}", self.fault)
    }
}

impl<D> Display for OpenRefused<D> {
    /// The fault's sentence.
    fn fmt<W: fmt::Write>(&self, f: &mut Formatter<W>) -> fmt::Result {
        write!(f, "{}", self.fault)
    }
}

impl<D: Drop> std::error::Error for OpenRefused<D> {}
