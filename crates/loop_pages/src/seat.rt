// The right to make steps on the words of a ledger.
use crate::rule::Holding;
use atomic_table::Seat;
use std::marker::Model;

/// The right to make steps on the words of one ledger. It takes no bytes, and can be given to another thread. Contracts
/// see the ledger that it belongs to, the pages that its view lists, those that its last claim missed, and all that it
/// ever tried.
#[derive(Drop)]
pub struct PageSeat {
    pub(crate) seat: Seat<(), Holding>,
}

impl Model for PageSeat {
    ghost use Rattle.loop_pages.specs.Place.{Place, place_code, place};

    ghost Value = { Place };

    ghost coded = { place_code };

    ghost view = { λ s. place s.seat.table_id s.seat.me.0.pages s.seat.me.0.missed s.seat.me.0.tried };
}
