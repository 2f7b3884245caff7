// Naming the blocks of records, and taking that back.
ghost use Rattle.std.specs.Prelude.{◌≡◌, ℕ, ◌+◌, ◌≤◌, All, filter, length, slice_index};
ghost use Rattle.store_facts.specs.image_facts.Bodies.{blob_blocks as blocks_of_blob};
ghost use Rattle.store_facts.specs.image_facts.Layout.{most_length};
ghost use Rattle.store_facts.specs.Naming.{HasNamed, IsPlace, IsPlaced, IsRaised, is_below, times, uses, uses_in};

use crate::shelf::Shelf;
use base_types::{Cut, Rec};
use data_blocks::{Ledger, ShadowTable};

// Names each of these blocks once more, 0 aside.
pub(crate) fn name_all(ledger: &mut Ledger, blocks: &[u32])
    requires sized { length ledger.old.names ≡ ledger.old.end }
    requires places { All (IsPlace ledger.old.first ledger.old.end) blocks.now }
    requires few { (n : ℕ) → slice_index ledger.old.names n + length blocks.now ≤ u32.MAX }
    ensures { HasNamed blocks.now ledger.old ledger.new }
{
    for block in blocks {
        if *block != 0 {
            ledger.name(*block);
        }
    }
}

// Names each of these blocks once less, 0 aside. Each is named as often as it stands there.
pub(crate) fn unname_all(ledger: &mut Ledger, blocks: &[u32])
    requires sized { length ledger.old.names ≡ ledger.old.end }
    requires places { All (IsPlace ledger.old.first ledger.old.end) blocks.now }
    requires named { (n : ℕ) → times n blocks.now ≤ slice_index ledger.old.names n }
    ensures { HasNamed blocks.now ledger.new ledger.old }
{
    for block in blocks {
        if *block != 0 {
            ledger.unname(*block);
        }
    }
}

// The blocks of a record's blob.
pub(crate) fn blob_blocks(rec: &Rec) -> &[u32]
    requires { rec.now.length ≤ most_length }
    ensures { result.now ≡ blocks_of_blob rec.now }
{
    &rec.blocks[..(rec.length as usize + 1023) / 1024]
}

// The record names the blocks of its blob and of its pages from now on.
pub(crate) fn name_record(ledger: &mut Ledger, rec: &Rec, table: &ShadowTable)
    requires sized { length ledger.old.names ≡ ledger.old.end }
    requires placed { IsPlaced ledger.old.first ledger.old.end (record { rec = rec.now; table = table.now.0 }) }
    requires few { (n : ℕ) → slice_index ledger.old.names n + 264 ≤ u32.MAX }
    ensures { IsRaised (λ n. uses_in n (record { rec = rec.now; table = table.now.0 })) ledger.old ledger.new }
{
    name_all(ledger, blob_blocks(rec));
    name_all(ledger, &table.0);
}

// The record names its blocks no more.
pub(crate) fn unname_record(ledger: &mut Ledger, rec: &Rec, table: &ShadowTable)
    requires sized { length ledger.old.names ≡ ledger.old.end }
    requires placed { IsPlaced ledger.old.first ledger.old.end (record { rec = rec.now; table = table.now.0 }) }
    requires named { (n : ℕ) → uses_in n (record { rec = rec.now; table = table.now.0 }) ≤ slice_index ledger.old.names n }
    ensures { IsRaised (λ n. uses_in n (record { rec = rec.now; table = table.now.0 })) ledger.new ledger.old }
{
    unname_all(ledger, blob_blocks(rec));
    unname_all(ledger, &table.0);
}

// The records that are below a choice name their blocks no more.
pub(crate) fn unname_below(ledger: &mut Ledger, kept: &Shelf, cut: &Cut)
    requires sized { length ledger.old.names ≡ ledger.old.end }
    requires placed { All (IsPlaced ledger.old.first ledger.old.end) kept.now }
    requires named { (n : ℕ) → uses n kept.now ≤ slice_index ledger.old.names n }
    ensures { IsRaised (λ n. uses n (filter (is_below (slice_index cut.now.0)) kept.now)) ledger.new ledger.old }
{
    for i in 0..kept.len() {
        let rec = kept.rec(i);
        if rec.version < cut.0[rec.entity.number() as usize] {
            unname_record(ledger, &rec, &kept.table(i));
        }
    }
}
