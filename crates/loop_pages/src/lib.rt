//! The page ledger: a word for each page, 0 where the page is free and 1 where it is held.
//!
//! A word changes by two kinds of step alone, a compare-exchange of 0 to 1 and a store of 0 to a page of one's
//! own, so no page ever has two holders, and no call takes a lock or waits for another thread.
//!
//! - `ledger` has the ledger and the steps on its words, `seat` the right to make them;
//! - `hold` has the pages that a claim got, until they are released or dropped, and the claim itself;
//! - `rule` says what the words mean and what each step tells; `law` says the same of who holds a page;
//! - `fault` says why a call was refused.
//!
//! docs/memory.md says why it is so.
#![tactic(auto)]

mod fault;
mod hold;
mod law;
mod ledger;
mod rule;
mod seat;

pub use fault::PageFault;
pub use hold::PageHold;
pub use law::each_page_has_one_holder;
pub use ledger::{MOST_PAGES, PageLedger};
pub use rule::{Holding, PageRule};
pub use seat::PageSeat;
