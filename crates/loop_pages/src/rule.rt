// What the page words mean, and what each kind of step tells the seat that makes it.
use atomic_table::{Play, Split, TableRule};
use std::collections::LinkedList;

/// What a seat knows: the pages that it holds, in the order in which it got them, the pages that its last claim tried
/// and missed, since another seat held them, and all pages that it ever tried, one after the other. No value of this
/// type is ever made.
pub struct Holding {
    pub pages: LinkedList<u32>,
    pub missed: LinkedList<u32>,
    pub tried: LinkedList<u32>,
}

/// The rule of the words: each says how often the views of the seats list its page, which is once or not at all.
/// The key is the number of pages.
pub struct PageRule;

impl TableRule<(), Holding, u32> for PageRule {
    ghost use Rattle.loop_pages.specs.Words.{IsLedgerKept, holding};
    ghost use Rattle.std.specs.Prelude.{[]};

    ghost holds = { IsLedgerKept };

    ghost first = { λ _. holding [] [] [] };
}

/// A compare-exchange of 0 to 1.
pub(crate) struct Tries;

impl Play<(), Holding> for Tries {
    ghost use Rattle.loop_pages.specs.Words.{tries};

    ghost then = { tries };
}

/// A store of 0 to a page of one's own.
pub(crate) struct Frees;

impl Play<(), Holding> for Frees {
    ghost use Rattle.loop_pages.specs.Words.{frees};

    ghost then = { frees };
}

/// The seat keeps its view, and the new seat's lists no page.
pub(crate) struct Halves;

impl Split<Holding> for Halves {
    ghost use Rattle.loop_pages.specs.Words.{holding};
    ghost use Rattle.std.specs.Prelude.{[]};

    ghost left = { λ v. v };

    ghost right = { λ _. holding [] [] [] };
}
