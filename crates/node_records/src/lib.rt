//! What a shipment says of an entity, and that it makes a record of the run, whichever blocks its pages get. The function does nothing: its contract is a
//! law.
#![tactic(auto)]

ghost use Rattle.std.specs.Prelude.{ℕ, List, slice_index};
ghost use Rattle.base_types.specs.declared.histories.Entry.{Entry};
ghost use Rattle.kernel_record_facts.specs.kernel_invariant.Beginnings.{Beginning};
ghost use Rattle.kernel_record_facts.specs.kernel_invariant.image_meaning.Parts.{Part};
ghost use Rattle.node_records.specs.Shipments.{IsShippedOf, SpellsOver};
ghost use Rattle.node_store.specs.Shipping.{IsShipment};
ghost use Rattle.node_store.specs.page_placing.declared.writing.PageWords.{PageWords};

/// A part with its pages' words, as the entity was at a version, is a record of it once its pages stand in blocks of a table, and its commit has this
/// version and stamp: whatever bytes spell the part over each table.
pub fn shipped_record_law()
    ensures { (b : Beginning) (es : List Entry) (entity version : ℕ) (stamp : List ℕ) (part : Part) (pages : List PageWords)
        (bytes : List ℕ → List ℕ) → IsShippedOf b es entity version stamp part pages → SpellsOver part bytes
        → IsShipment b es entity version stamp bytes pages (record { entity = entity; version = version; stamp = slice_index stamp }) }
{}
