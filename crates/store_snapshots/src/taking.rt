// Taking free blocks for a blob, and giving them back.
ghost use Rattle.std.specs.Prelude.{◌≡◌, ◌≢◌, ℕ, ◌<◌, ◌≤◌, true, length, slice_index};
ghost use Rattle.data_blocks.specs.Ledger.{is_held, unused_blocks};
ghost use Rattle.store_facts.specs.Taking.{HasReleased, HasTaken};

use data_blocks::Ledger;

// Takes so many free blocks, up to 8. Behind them stands 0.
pub(crate) fn take_blocks(ledger: &mut Ledger, many: usize) -> [u32; 8]
    requires marked { length ledger.old.held ≡ ledger.old.end }
    requires few { many ≤ 8 }
    requires free { many ≤ length (unused_blocks ledger.old) }
    ensures { HasTaken many ledger.old ledger.new result }
{
    let mut blocks = [0; 8];
    for i in 0..many {
        blocks[i] = ledger.take_block().unwrap();
    }
    blocks
}

// Gives back blocks that are held, each of them once.
pub(crate) fn release_blocks(ledger: &mut Ledger, blocks: &[u32])
    requires marked { length ledger.old.held ≡ ledger.old.end }
    requires range { (i : ℕ) → i < length blocks.now → (ledger.old.first ≤ slice_index blocks.now i) × (slice_index blocks.now i < ledger.old.end) }
    requires held { (i : ℕ) → i < length blocks.now → is_held ledger.old (slice_index blocks.now i) ≡ true }
    requires different { (i k : ℕ) → i < length blocks.now → k < i → slice_index blocks.now k ≢ slice_index blocks.now i }
    ensures { HasReleased (length blocks.now) ledger.old ledger.new blocks.now }
{
    for block in blocks {
        ledger.give_back(*block);
    }
}
