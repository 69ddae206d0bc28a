// Pages that are held: a claim, and the way back.
ghost use Rattle.std.specs.Prelude.{◌≡◌, ℕ, ◌<◌, ◌≤◌, [], length, slice_index, IfOk, IfErr, MatchBool, vec_capacity};
ghost use Rattle.std.specs.List.{All};
ghost use Rattle.std.specs.Arc.{arc_value};
ghost use Rattle.loop_pages.specs.Place.{Place, place_code, place, IsIdle};
ghost use Rattle.loop_pages.specs.Claims.{IsCount, IsRising, IsGot, IsShort, FaultOfClaim, IfNoPages, UnlessNoPages};

use crate::fault::PageFault;
use crate::ledger::PageLedger;
use crate::seat::PageSeat;
use std::alloc::{Allocator, Global};
use std::marker::Model;
use std::sync::Arc;

/// Pages of one ledger, which nobody else holds until they are released. Dropping a hold releases it. Contracts
/// see the ledger, the pages, which are those that the view of its seat lists, those that its claim missed, and
/// all that the seat ever tried.
pub struct PageHold<A: Allocator = Global> {
    ledger: Arc<PageLedger<A>, A>,
    seat: PageSeat,
    pages: Vec<u32, A>,
}

impl<A: Allocator> Model for PageHold<A> {
    ghost Value = { Place };

    ghost coded = { place_code };

    ghost view = { λ h. h.seat };

    ghost invariant = { λ h. (h.seat.ledger ≡ arc_value h.ledger) × (h.seat.pages ≡ h.pages.items)
        × All (λ page. page < (arc_value h.ledger).words) h.pages.items × (length h.pages.items ≤ 1024) };
}

// Tries each page once, from page 0 upward, until there are `count`. Returns whether there are.
fn try_each<A: Allocator>(
    ledger: &PageLedger<A>,
    seat: &mut PageSeat,
    pages: &mut Vec<u32, A>,
    count: u32,
) -> bool
    requires seat { IsIdle ledger.now seat.old }
    requires count { 0 < count }
    requires pages { (pages.old.items ≡ []) × (count ≤ vec_capacity pages.old) }
    ensures seat { (seat.new.ledger ≡ ledger.now) × (seat.new.pages ≡ pages.new.items) }
    ensures tried { let got = pages.new.items in let words = ledger.now.words in MatchBool result
        (IsGot words count got seat.new.missed seat.old.tried seat.new.tried)
        (IsShort words count got seat.new.missed seat.old.tried seat.new.tried) }
{
    for page in 0..ledger.count() {
        if ledger.take_page(seat, page) {
            pages.push_reserved(page);
            if pages.len() == count as usize {
                return true;
            }
        }
    }
    false
}

// Stores 0 to the word of each of the pages, the last first.
fn give_back<A: Allocator>(ledger: &PageLedger<A>, seat: &mut PageSeat, pages: &mut Vec<u32, A>)
    requires ledger { seat.old.ledger ≡ ledger.now }
    requires pages { seat.old.pages ≡ pages.old.items }
    requires within { All (λ page. page < ledger.now.words) pages.old.items }
    ensures seat { seat.new ≡ place ledger.now [] seat.old.missed seat.old.tried }
    ensures pages { pages.new.items ≡ [] }
{
    while let Some(page) = pages.pop() {
        ledger.free_page(seat, page);
    }
}

impl<A: Allocator> PageLedger<A> {
    /// Claims `count` free pages: it tries page 0, 1, 2, .. once each until it has as many. The seat is this ledger's
    /// and holds no page; it goes into the hold. The allocator is that of the hold's list of pages.
    ///
    /// BadCount where `count` is 0 or above the ledger's number of pages, NoMemory where a growth was refused, and
    /// NoPages where each page was tried and fewer than `count` were free: those that it got are given back. A refusal
    /// returns the seat.
    pub fn claim(
        alloc: A,
        ledger: &Arc<PageLedger<A>, A>,
        mut seat: PageSeat,
        count: u32,
    ) -> Result<PageHold<A>, (PageFault, PageSeat)>
        requires { IsIdle (arc_value ledger.now) seat }
        ensures count { IfOk result (λ h. IsCount (arc_value ledger.now).words count × (length h.pages ≡ count)) }
        ensures pages { IfOk result (λ h.
            (h.ledger ≡ arc_value ledger.now) × IsRising (arc_value ledger.now).words h.pages) }
        ensures tried { IfOk result (λ h.
            IsGot (arc_value ledger.now).words count h.pages h.missed seat.tried h.tried) }
        ensures fault { IfErr result (λ e. FaultOfClaim e.0 (IsCount (arc_value ledger.now).words count)) }
        ensures short { let words = (arc_value ledger.now).words in IfErr result (λ e. IfNoPages e.0
            ((got : _) × IsShort words count got e.1.missed seat.tried e.1.tried)) }
        ensures idle { IfErr result (λ e. IsIdle (arc_value ledger.now) e.1) }
        ensures same { IfErr result (λ e. UnlessNoPages e.0 (e.1 ≡ seat)) }
    {
        if count == 0 || count > ledger.count() {
            return Err((PageFault::BadCount, seat));
        }
        let Ok(mut pages) = Vec::with_capacity(alloc, count as usize) else {
            return Err((PageFault::NoMemory, seat));
        };
        let Ok(ledger) = Arc::try_clone(ledger) else {
            return Err((PageFault::NoMemory, seat));
        };
        let enough = try_each(&ledger, &mut seat, &mut pages, count);
        let hold = PageHold {
            ledger,
            seat,
            pages,
        };
        if enough {
            Ok(hold)
        } else {
            Err((PageFault::NoPages, hold.into_seat()))
        }
    }
}

impl<A: Allocator> PageHold<A> {
    /// How many pages are held: as many as were claimed, and 0 after `release`.
    pub fn count(&self) -> u32
        ensures count { result ≡ length self.now.pages }
        ensures most { result ≤ 1024 }
    {
        self.pages.len() as u32
    }

    /// The page at a place of the hold, from 0 on. The pages rise.
    pub fn page(&self, i: u32) -> u32
        requires { i < length self.now.pages }
        ensures { result ≡ slice_index self.now.pages i }
    {
        self.pages[i as usize]
    }

    /// Gives all pages back. The hold has none then, and a second call finds none to give back.
    pub fn release(&mut self)
        ensures { self.new ≡ place self.old.ledger [] self.old.missed self.old.tried }
    {
        give_back(&self.ledger, &mut self.seat, &mut self.pages);
    }

    // Gives all pages back, and the seat.
    fn into_seat(self) -> PageSeat
        ensures { result ≡ place self.ledger [] self.missed self.tried }
    {
        let PageHold {
            ledger,
            mut seat,
            mut pages,
        } = self;
        give_back(&ledger, &mut seat, &mut pages);
        seat
    }
}

impl<A: Allocator> Drop for PageHold<A> {
    fn drop(mut self) {
        self.release();
        let PageHold {
            ledger: _,
            seat: _,
            pages: _,
        } = self;
    }
}
