//! An allocator for tests: it grants a number of blocks of the allocator below it, and refuses every one after them. A
//! test that allows a call 0, 1, 2, .. blocks refuses each growth of that call in turn, and sees what is left after
//! it.
//!
//! A `&Budget` is `Allocator + Copy`, and can be passed to whatever is generic in its allocator. It is proved that
//! each block handed out is one of the allocator below, of the size and the alignment asked for, and that a block is
//! handed back there with the same two (`allocate` and `deallocate`, by hand in `proofs/BudgetAllocator`). It is also
//! proved how a block is counted (`take_one`). The count itself lies in a `Cell`, so that a `&` can change it, and no
//! contract can look into a cell. So tests in test_queue show that `allocate` refuses where the count is 0, and what
//! `left` and `allow` do. Only tests use this crate.
#![tactic(auto)]

ghost use Rattle.std.specs.Prelude.{◌≡◌, ◌-◌, ◌<◌, ◌↔◌, IsTrue};

use std::alloc::{AllocError, Allocator, Global};
use std::cell::Cell;
use std::marker::Model;

/// Takes one of the `left` blocks, and returns whether there was one. Where none is left, none is left after it.
///
/// This is the rule by which a `Budget` counts.
pub fn take_one(left: &mut u64) -> bool
    ensures granted { IsTrue result ↔ (0 < left.old) }

    // Subtraction stops at 0.
    ensures counted { left.new ≡ left.old - 1 }
{
    let granted = *left > 0;
    *left = left.saturating_sub(1);
    granted
}

/// An allocator that hands out the blocks of the one below it, `A`, as long as its budget lasts. It is for tests of
/// what a call does where memory is refused. In contracts it is the allocator below it.
///
/// One block is one allocation of any size: a `Box`, or each capacity to which a `Vec` grows or shrinks, since both
/// take a new block before they free the old one. A block that is freed gives nothing back to the budget. A `Vec`
/// grows to more than it needs at once, so not every `push` takes a block: a test says how many blocks it expects. A
/// `&Budget` is an allocator that is copied. It stays in its thread.
#[derive(Drop)]
pub struct Budget<A = Global> {
    inner: A,
    left: Cell<u64>,
}

impl<A> Model for Budget<A> {
    ghost Value = { A };

    ghost view = { λ budget. budget.inner };
}

impl<A> Budget<A> {
    /// A budget over `inner`, of `u64::MAX` blocks until the first `allow`: more than any test takes.
    pub fn new(inner: A) -> Budget<A>
        ensures { result ≡ inner }
    {
        Budget {
            inner,
            left: Cell::new(u64::MAX),
        }
    }

    /// The allocator below.
    pub fn inner(&self) -> &A
        ensures { result.now ≡ self.now }
    {
        &self.inner
    }

    /// From now on grants this many blocks and refuses every one after them, whatever was left before.
    pub fn allow(&self, blocks: u64) {
        self.left.set(blocks);
    }

    /// How many more blocks are granted before the first refusal.
    pub fn left(&self) -> u64 {
        self.left.get()
    }

    // `take_one` on the count in the cell.
    fn takes_block(&self) -> bool {
        let mut left = self.left.get();
        let granted = take_one(&mut left);
        self.left.set(left);
        granted
    }
}

unsafe impl<A: Allocator> Allocator for Budget<A> {
    // The right to free a block is that of the allocator below.
    ghost dealloc_token = { λ budget. A.dealloc_token budget };

    /// A block of the allocator below. `AllocError` where the budget is spent, which doesn't ask the one below, or
    /// where that one refuses, which counts as a block too.
    fn allocate(&self, size: usize, align: usize) -> Result<*mut u8, AllocError> {
        if self.takes_block() {
            self.inner().allocate(size, align)
        } else {
            Err(AllocError)
        }
    }

    /// Gives the block back to the allocator below, and nothing to the budget.
    unsafe fn deallocate(&self, ptr: *mut u8, size: usize, align: usize) {
        unsafe { self.inner().deallocate(ptr, size, align) }
    }
}
