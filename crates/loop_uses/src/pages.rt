//! Pages of a ledger.
ghost use Rattle.std.specs.Prelude.{◌≡◌, ◌<◌, IfSome, slice_index};
ghost use Rattle.std.specs.List.{All};

use loop_pages::{PageHold, PageLedger};
use std::alloc::Allocator;

/// Of a ledger of four pages two claims hold three and one. The pages of the first rise.
pub fn two_claims_of_a_ledger<A: Allocator + Copy>(alloc: A) -> Option<[u32; 3]>
    ensures { IfSome result (λ pages. (slice_index pages 0 < slice_index pages 1) × All (λ page. page < 4) pages) }
{
    let Ok((ledger, seat)) = PageLedger::new(alloc, 4) else {
        return None;
    };
    let (one, two) = ledger.split(seat);
    let Ok(first) = PageLedger::claim(alloc, &ledger, one, 3) else {
        return None;
    };
    let Ok(second) = PageLedger::claim(alloc, &ledger, two, 1) else {
        return None;
    };
    Some([first.page(0), first.page(2), second.page(0)])
}
