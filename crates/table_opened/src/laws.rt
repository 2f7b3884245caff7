// An image without a record.
ghost use Rattle.std.specs.Prelude.{◌≡◌, ℕ, Bool, false, []};
ghost use Rattle.image_chosen.specs.Parts.{ArePartsOf};
ghost use Rattle.image_chosen.specs.declared.parts.ImageParts.{ImageParts as Parts};
ghost use Rattle.image_chosen.specs.log_reading.declared.log.ImageLog.{ImageLog as Log};
ghost use Rattle.image_chosen.specs.image_fits.Chosen.{parts_of};
ghost use Rattle.table_opened.specs.Held.{HoldsNamed};

/// The law: the blocks of an image without a record are exactly none. It does nothing.
pub fn no_blocks_law()
    ensures none_held { (log : Log) (parts : Parts) (held : ℕ → Bool) → ArePartsOf log parts → log.recs.items ≡ [] → HoldsNamed held (parts_of parts.entities.items) → (n : ℕ) → held n ≡ false }
    ensures holds { (log : Log) (parts : Parts) (held : ℕ → Bool) → ArePartsOf log parts → log.recs.items ≡ [] → ((n : ℕ) → held n ≡ false) → HoldsNamed held (parts_of parts.entities.items) }
{}
