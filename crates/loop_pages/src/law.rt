// What the rule of the words means.
ghost use Rattle.std.specs.Prelude.{ℕ};
ghost use Rattle.atomic_table.specs.Table.{State};
ghost use Rattle.loop_pages.specs.declared.rule.Holding.{Holding};
ghost use Rattle.loop_pages.specs.Words.{IsLedgerKept};
ghost use Rattle.loop_pages.specs.Holders.{OneHolder};

/// Between any two steps the word of a page is 1 where exactly one seat's view lists the page, and 0 where none
/// does: no page is in two views. The rule that each step keeps counts, and this is what it says of who holds a
/// page. It does nothing.
#[tactic(auto, using(crate::proofs::HolderCounts::one_holder))]
pub fn each_page_has_one_holder()
    ensures { (count : ℕ) (s : State (Unit {0}) Holding) → IsLedgerKept count s → OneHolder s }
{}
