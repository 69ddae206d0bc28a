ghost use Rattle.std.specs.Prelude.{◌≡◌};
ghost use Rattle.loop_ring.specs.declared.fault.SlotFault.TheVariants.{Damaged, Disk};

use loop_disk::DiskFault;
use loop_record::Damage;
use thiserror::Error;

/// Why a read of a slot gives no frame.
#[derive(Clone, Copy, Debug, PartialEq, Eq, Error)]
pub enum SlotFault {
    /// A call of the disk failed.
    #[error("the disk failed")]
    Disk(DiskFault),
    /// The slot names another frame than its place says, or another count of bytes: `Damage::SlotHead`.
    #[error("the slot is damaged")]
    Damaged(Damage),
}

impl From<DiskFault> for SlotFault {
    ghost from_gives = { λ fault made. made ≡ Disk fault };

    fn from(fault: DiskFault) -> SlotFault {
        SlotFault::Disk(fault)
    }
}

impl From<Damage> for SlotFault {
    ghost from_gives = { λ damage made. made ≡ Damaged damage };

    fn from(damage: Damage) -> SlotFault {
        SlotFault::Damaged(damage)
    }
}
