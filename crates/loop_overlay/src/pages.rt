// Pages of bytes of which only some may be there.
ghost use Rattle.std.specs.Prelude.{◌+◌, ◌≤◌, IsFalse, IsTrue, length};
ghost use Rattle.loop_overlay.specs.Pages.{AllAreThere, IsThere, Lacks, LacksPage};

/// How many bytes one mark of `present` stands for.
pub const PAGE: u64 = 4096;

/// A read of bytes that weren't there.
#[derive(Clone, Copy, Debug, PartialEq, Eq)]
pub struct Wanted {
    /// The place of the first byte.
    pub at: u64,
    /// How many bytes.
    pub count: u64,
}

/// Whether the bytes of a page aren't there. A mark that is missing counts as 0.
pub fn is_gone(present: &[u8], page: u64) -> bool
    ensures gone { IsTrue result → IsThere present.now page → ⊥ }
    ensures there { IsFalse result → IsThere present.now page }
{
    present.get(page as usize) != Some(&1)
}

/// Whether all pages of a part of the bytes are there.
pub(crate) fn are_present(start: &[u8], present: &[u8], at: u64, count: u64) -> bool
    requires { at + count ≤ length start.now }
    ensures there { IsTrue result → AllAreThere present.now at count }
    ensures gone { IsFalse result → LacksPage present.now at count }
{
    if count == 0 {
        return true;
    }
    let last = (at + count - 1) / PAGE;
    for page in at / PAGE..last + 1 {
        if is_gone(present, page) {
            return false;
        }
    }
    true
}

/// Whether a read is one of these bytes, and one of its pages isn't there.
pub fn is_lacking(start: &[u8], present: &[u8], read: Wanted) -> bool
    ensures lacking { IsTrue result → Lacks start.now present.now read.at read.count }
    ensures other { IsFalse result → Lacks start.now present.now read.at read.count → ⊥ }
{
    let size = start.len() as u64;
    if size < read.count || size - read.count < read.at {
        return false;
    }
    !are_present(start, present, read.at, read.count)
}
