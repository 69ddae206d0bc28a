//! Planes: what fills one is copied out.
ghost use Rattle.std.specs.Prelude.{◌≡◌, ◌∷◌, [], ◌≤◌, IfSome, take, length};

use loop_pages::PageLedger;
use loop_plane::{HeapPlane, PlaneMemory, UserPlane};
use std::alloc::{Allocator, Global};

// Fills a plane of any kind with three bytes, and copies the last two out.
fn refilled<P: PlaneMemory>(plane: &mut P) -> [u8; 2]
    requires { 3 ≤ (P.plane plane.old).length }
    ensures { result ≡ 8 ∷ 9 ∷ [] }
{
    plane.fill(&[7, 8, 9]);
    let mut out = [0; 2];
    plane.copy_out(1, &mut out);
    out
}

/// A window of twelve bytes over the border of two pages.
pub fn a_window_is_filled<A: Allocator + Copy>(alloc: A) -> Option<[u8; 2]>
    ensures { IfSome result (λ out. out ≡ 8 ∷ 9 ∷ []) }
{
    let Ok((ledger, seat)) = PageLedger::new(alloc, 2) else {
        return None;
    };
    let Ok(hold) = PageLedger::claim(alloc, &ledger, seat, 2) else {
        return None;
    };
    match UserPlane::new(alloc, hold, 4090, 12) {
        Ok(mut plane) => Some(refilled(&mut plane)),
        Err(_) => None,
    }
}

/// A plane on the heap.
pub fn a_heap_plane_is_filled(alloc: Global) -> Option<[u8; 2]>
    ensures { IfSome result (λ out. out ≡ 8 ∷ 9 ∷ []) }
{
    match HeapPlane::new(alloc, 3) {
        Ok(mut plane) => Some(refilled(&mut plane)),
        Err(_) => None,
    }
}
