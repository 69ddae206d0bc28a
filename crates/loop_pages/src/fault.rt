// Why a call of the ledger was refused.
use thiserror::Error;

/// Why a call of the ledger was refused, in the order in which the reasons are checked: BadCount, NoMemory, NoPages.
#[derive(Debug, Clone, Copy, PartialEq, Eq, Error)]
pub enum PageFault {
    /// Each page was tried once, and fewer than were asked for were free.
    #[error("too few pages are free")]
    NoPages,
    /// A growth was refused. Nothing has changed.
    #[error("out of memory")]
    NoMemory,
    /// No page was asked for, or more than there can be.
    #[error("no such count of pages")]
    BadCount,
}
