// What a record that was committed changes in memory.
ghost use Rattle.std.specs.Prelude.{◌≡◌, ◌++◌, ◌∷◌, [], ◌<◌, ◌≤◌, All, false, if◌then◌else◌, filter, length, slice_index};
ghost use Rattle.store_facts.specs.image_facts.Layout.{slot_count};
ghost use Rattle.store_facts.specs.Keeping.{AreKept, AreListed, HasRecounted};
ghost use Rattle.store_facts.specs.Naming.{IsPlaced};
ghost use Rattle.store_facts.specs.Shelves.{is_from};
ghost use Rattle.store_facts.specs.store_books.Books.{logged_recs};

use crate::naming::{name_record, unname_below};
use crate::shelf::Shelf;
use base_types::{Cut, Rec};
use data_blocks::{Ledger, ShadowTable};
use store_facts::raise;

// A record is kept behind the others, and names its blocks.
pub(crate) fn list_record(kept: &mut Shelf, ledger: &mut Ledger, rec: &Rec, table: &ShadowTable)
    requires room { length kept.old < slot_count }
    requires sized { length ledger.old.names ≡ ledger.old.end }
    requires placed { IsPlaced ledger.old.first ledger.old.end (record { rec = rec.now; table = table.now.0 }) }
    requires listed { AreListed ledger.old kept.old }
    ensures kept { kept.new ≡ kept.old ++ record { rec = rec.now; table = table.now.0 } ∷ [] }
    ensures listed { AreListed ledger.new kept.new }
    ensures ledger { HasRecounted ledger.old ledger.new }
{
    name_record(ledger, rec, table);
    kept.push(rec, table);
}

// The records below a choice are kept no more, and name their blocks no more.
fn drop_below(kept: &mut Shelf, ledger: &mut Ledger, cut: &Cut)
    requires sized { length ledger.old.names ≡ ledger.old.end }
    requires listed { AreListed ledger.old kept.old }
    ensures kept { kept.new ≡ filter (is_from (slice_index cut.now.0)) kept.old }
    ensures listed { AreListed ledger.new kept.new }
    ensures ledger { HasRecounted ledger.old ledger.new }
{
    unname_below(ledger, kept, cut);
    kept.keep_from(cut);
}

// Where the log was turned it is the kept records.
fn turn_to(log: &mut Shelf, kept: &Shelf, turned: bool)
    ensures { log.new ≡ (if turned then kept.now else log.old) }
{
    if turned {
        log.copy_from(kept);
    }
}

// The record stands behind the log, or behind the kept records where the log was turned to them, and the choice rises.
pub(crate) fn settle(
    log: &mut Shelf,
    kept: &mut Shelf,
    cut: &mut Cut,
    ledger: &mut Ledger,
    rec: &Rec,
    table: &ShadowTable,
    turned: bool,
)
    requires room { (length kept.old < slot_count) × (turned ≡ false → length log.old < slot_count) }
    requires kept { AreKept log.old kept.old (slice_index cut.old.0) }
    requires newer { All (λ r. r.entity ≡ rec.now.entity → r.version ≤ rec.now.version) (logged_recs log.old) }
    requires components { length rec.now.stamp ≡ 64 }
    requires sized { length ledger.old.names ≡ ledger.old.end }
    requires placed { IsPlaced ledger.old.first ledger.old.end (record { rec = rec.now; table = table.now.0 }) }
    requires listed { AreListed ledger.old kept.old }
    ensures log { log.new ≡ (if turned then kept.old else log.old) ++ record { rec = rec.now; table = table.now.0 } ∷ [] }
    ensures kept { AreKept log.new kept.new (slice_index cut.new.0) }
    ensures listed { AreListed ledger.new kept.new }
    ensures ledger { HasRecounted ledger.old ledger.new }
{
    turn_to(log, kept, turned);
    log.push(rec, table);
    list_record(kept, ledger, rec, table);
    *cut = raise(kept.recs(), cut);
    drop_below(kept, ledger, cut);
}
