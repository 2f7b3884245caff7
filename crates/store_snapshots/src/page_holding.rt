// Holding the blocks of pages.
ghost use Rattle.std.specs.Prelude.{◌≡◌, All, length};
ghost use Rattle.std.specs.List.{list_any};
ghost use Rattle.store_facts.specs.Holds.{HasHeld, names_page};
ghost use Rattle.store_facts.specs.Naming.{IsPlace, IsPlaced, is_use};

use crate::shelf::Shelf;
use data_blocks::Ledger;

// Holds each of these blocks, 0 aside.
fn hold_all(ledger: &mut Ledger, blocks: &[u32])
    requires marked { length ledger.old.held ≡ ledger.old.end }
    requires places { All (IsPlace ledger.old.first ledger.old.end) blocks.now }
    ensures { HasHeld (λ n. list_any (is_use n) blocks.now) ledger.old ledger.new }
{
    for block in blocks {
        if *block != 0 {
            ledger.hold(*block);
        }
    }
}

// Holds the blocks of each record's pages.
pub(crate) fn hold_pages(ledger: &mut Ledger, kept: &Shelf)
    requires marked { length ledger.old.held ≡ ledger.old.end }
    requires placed { All (IsPlaced ledger.old.first ledger.old.end) kept.now }
    ensures { HasHeld (λ n. list_any (names_page n) kept.now) ledger.old ledger.new }
{
    for i in 0..kept.len() {
        let table = kept.table(i);
        hold_all(ledger, &table.0);
    }
}
