ghost use Rattle.std.specs.Prelude.{◌≡◌, ◌≤◌, ℕ, List, length};

use base_bytes::Blob;

/// What an entity is, as a shipment has it: all but the words and the blocks of its pages.
pub trait Spelt {
    // whether it has a spelling
    ghost is_formed: { Self → Type 0 };

    // its bytes, where its pages have these blocks
    ghost bytes: { Self → List ℕ → List ℕ };

    // how many they are, whichever blocks its pages have
    ghost length_of: { Self → ℕ };

    /// Writes its bytes in place of what was in the blob.
    fn spell(&self, table: &[u32; 256], blob: &mut Blob)
        requires { is_formed self.now }
        ensures bytes { blob.new ≡ bytes self.now table.now }
        ensures length { length blob.new ≡ length_of self.now }
        ensures some { 1 ≤ length_of self.now };
}
