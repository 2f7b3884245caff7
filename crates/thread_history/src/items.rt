//! What a chronicle keeps.
use base_types::Entry;

/// An event or record that touches numbered entities and concerns some of those: a share of each touched entity is at hand where
/// it is appended, and it stands in the lists of the shares that it concerns.
pub trait Item: Drop {
    ghost use Rattle.std.specs.Prelude.{◌≡◌, ℕ, Bool, true};

    ghost touches: { Self → ℕ → Bool };

    ghost concerns: { Self → ℕ → Bool };

    /// Whether the item concerns the entity of that number.
    fn concerns(&self, number: u64) -> bool
        ensures { result ≡ concerns self.now number };

    ghost touches_these: { (e : Self) (x : ℕ) → concerns e x ≡ true → touches e x ≡ true };
}

/// An entry of a history concerns the entities that it writes.
impl Item for Entry {
    ghost use Rattle.model_kernel.specs.Histories.{touches, writes};
    ghost use Rattle.thread_history.specs.Entries.{touches_written};

    ghost touches = { touches };

    ghost concerns = { writes };

    ghost touches_these = { touches_written };

    fn concerns(&self, number: u64) -> bool {
        self.touched.as_slice().iter().any(|touch| u64::from(touch.entity.number()) == number
            && touch.wrote)
    }
}
