//! The orders that wait for a camera: how many, whether one is being done, and whether somebody does them.

ghost use Rattle.std.specs.Prelude.{◌≡◌};
ghost use Rattle.loop_station_core.specs.Orders.{after_one, are_done, no_orders, opened, order_added, order_handed, unattended};

/// How many orders of a camera may wait.
pub const MOST_ORDERS: usize = 256;

/// Whether somebody does the orders of a camera.
#[derive(Clone, Copy, PartialEq, Eq)]
pub enum Attended {
    /// Somebody is still to come: until then they wait.
    NotYet,
    /// Somebody does.
    Now,
    /// Nobody does: none is taken in.
    Gone,
}

/// What becomes of an order that comes.
#[derive(Clone, Copy, PartialEq, Eq)]
pub enum AddedOrder {
    /// It waits after the others.
    Waits,
    /// It isn't taken in, since nobody does orders.
    Absent,
    /// It isn't, since too many wait.
    TooMany,
}

/// The orders of a camera, which are done one after the other, in the order in which they came.
#[derive(Clone, Copy)]
pub struct Orders {
    /// How many wait.
    pub waiting: usize,
    /// One was handed out, and isn't done yet.
    pub busy: bool,
    /// Whether somebody does them.
    pub attended: Attended,
}

impl Orders {
    /// None. They wait until somebody does them.
    pub fn new() -> Orders
        ensures { result ≡ no_orders }
    {
        Orders {
            waiting: 0,
            busy: false,
            attended: Attended::NotYet,
        }
    }

    /// One more comes.
    pub fn add(self) -> (Orders, AddedOrder)
        ensures { result ≡ order_added self }
    {
        let mut orders = self;
        if orders.attended == Attended::Gone {
            return (orders, AddedOrder::Absent);
        }
        if orders.waiting >= MOST_ORDERS {
            return (orders, AddedOrder::TooMany);
        }
        orders.waiting = orders.waiting + 1;
        (orders, AddedOrder::Waits)
    }

    /// The first one is handed out, if there is one. Whether there is.
    pub fn take(self) -> (Orders, bool)
        ensures { result ≡ order_handed self }
    {
        let mut orders = self;
        orders.busy = orders.waiting > 0;
        orders.waiting = orders.waiting.saturating_sub(1);
        (orders, orders.busy)
    }

    /// The one that was handed out is done. Whether further ones wait.
    pub fn done(self) -> (Orders, bool)
        ensures { result ≡ after_one self }
    {
        let mut orders = self;
        orders.busy = false;
        (orders, orders.waiting > 0)
    }

    /// From now on somebody does them.
    pub fn open(self) -> Orders
        ensures { result ≡ opened self }
    {
        let mut orders = self;
        orders.attended = Attended::Now;
        orders
    }

    /// From now on nobody does. Those that wait have to be handed out, and answered.
    pub fn leave(self) -> Orders
        ensures { result ≡ unattended self }
    {
        let mut orders = self;
        orders.attended = Attended::Gone;
        orders
    }

    /// Whether none waits, and none is being done.
    pub fn is_idle(self) -> bool
        ensures { result ≡ are_done self }
    {
        self.waiting == 0 && !self.busy
    }
}
