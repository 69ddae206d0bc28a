// The ledger: a table of words and no slot, and the steps on a word.
ghost use Rattle.std.specs.Prelude.{◌≡◌, ◌<◌, ◌≤◌, ◌++◌, ◌∷◌, [], IfOk, IfErr, MatchBool, true};
ghost use Rattle.std.specs.Arc.{arc_value};
ghost use Rattle.atomic_table.specs.Seated.{TableId, table_id_coded};
ghost use Rattle.loop_pages.specs.Claims.{IsCount, FaultOfNew};
ghost use Rattle.loop_pages.specs.Place.{Place, place, IsIdle, EndsWith};
ghost use Rattle.loop_pages.specs.Words.{missed_before};

use crate::fault::PageFault;
use crate::rule::{Frees, Halves, Holding, PageRule, Tries};
use crate::seat::PageSeat;
use atomic_table::Table;
use std::alloc::{AllocError, Allocator, Global};
use std::marker::Model;
use std::sync::Arc;

/// The most pages of one ledger.
pub const MOST_PAGES: u32 = 1024;

/// A word for each page, 0 where the page is free and 1 where it is held. Threads share it in an `Arc`.
/// Contracts see which ledger it is; its `words` is the number of pages, 1 to 1,024.
#[derive(Drop)]
pub struct PageLedger<A: Allocator = Global> {
    table: Table<(), Holding, u32, PageRule, A>,
}

impl<A: Allocator> Model for PageLedger<A> {
    ghost Value = { TableId };

    ghost coded = { table_id_coded };

    ghost view = { λ l. l.table.shared.table_id };

    ghost invariant = { λ l. IsCount 1024 l.table.shared.table_id.words
        × (l.table.shared.key ≡ l.table.shared.table_id.words) };
}

impl<A: Allocator + Copy> PageLedger<A> {
    /// A ledger of `count` free pages, and its first seat, which holds no page. BadCount where `count` is 0 or
    /// above 1,024, and NoMemory where a growth was refused; nothing is left then.
    pub fn new(alloc: A, count: u32) -> Result<(Arc<PageLedger<A>, A>, PageSeat), PageFault>
        ensures count { IfOk result (λ r. IsCount 1024 count × ((arc_value r.0).words ≡ count)) }
        ensures seat { IfOk result (λ r. r.1 ≡ place (arc_value r.0) [] [] []) }
        ensures fault { IfErr result (λ fault. FaultOfNew fault (IsCount 1024 count)) }
    {
        if count == 0 || count > MOST_PAGES {
            return Err(PageFault::BadCount);
        }
        PageLedger::made(alloc, count).map_err(|_| PageFault::NoMemory)
    }

    fn made(alloc: A, count: u32) -> Result<(Arc<PageLedger<A>, A>, PageSeat), AllocError>
        requires { IsCount 1024 count }
        ensures { IfOk result (λ r. ((arc_value r.0).words ≡ count) × (r.1 ≡ place (arc_value r.0) [] [] [])) }
    {
        let words = vec![in alloc; 0u64; count as usize]?;
        let (table, seat) = Table::of_words(alloc, words.as_slice(), &count)?;
        let ledger = Arc::new(alloc, PageLedger { table })?;
        Ok((ledger, PageSeat { seat }))
    }
}

impl<A: Allocator> PageLedger<A> {
    /// How many pages there are, free or held: 1 to 1,024.
    pub fn count(&self) -> u32
        ensures count { result ≡ self.now.words }
        ensures most { IsCount 1024 result }
    {
        self.table.word_count() as u32
    }

    /// Makes two seats of one that holds no page: the same seat, and a new one for another thread or another claim.
    pub fn split(&self, seat: PageSeat) -> (PageSeat, PageSeat)
        requires { IsIdle self.now seat }
        ensures same { result.0 ≡ seat }
        ensures new { result.1 ≡ place self.now [] [] [] }
    {
        let PageSeat { mut seat } = seat;
        let other = self.table.shared.split_seat::<Halves>(&mut seat);
        (PageSeat { seat }, PageSeat { seat: other })
    }

    /// The one step that takes a page: a compare-exchange of its word from 0 to 1. Returns whether the seat got the
    /// page.
    pub(crate) fn take_page(&self, seat: &mut PageSeat, page: u32) -> bool
        requires ledger { seat.old.ledger ≡ self.now }
        requires page { page < self.now.words }
        ensures { MatchBool result
            (seat.new ≡ place self.now (seat.old.pages ++ page ∷ [])
            (missed_before page seat.old.missed) (seat.old.tried ++ page ∷ []))
            (seat.new ≡ place self.now seat.old.pages
            (missed_before page seat.old.missed ++ page ∷ []) (seat.old.tried ++ page ∷ [])) }
    {
        let seat = &mut seat.seat;
        let found = self
            .table
            .shared
            .compare_exchange::<Tries>(seat, page as usize, 0, 1);
        found == 0
    }

    /// The one step that gives a page back: a store of 0 to the word of the page that the seat got last.
    pub(crate) fn free_page(&self, seat: &mut PageSeat, page: u32)
        requires ledger { seat.old.ledger ≡ self.now }
        requires page { page < self.now.words }
        requires last { EndsWith seat.old.pages page }
        ensures place { seat.new ≡ place self.now seat.new.pages seat.old.missed seat.old.tried }
        ensures pages { seat.old.pages ≡ seat.new.pages ++ page ∷ [] }
    {
        let seat = &mut seat.seat;
        self.table.shared.store::<Frees>(seat, page as usize, 0);
    }
}
