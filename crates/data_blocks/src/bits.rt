ghost use Rattle.std.specs.Prelude.{◌≡◌, ℕ, ◌+◌, ◌*◌, ◌/◌, ◌^◌, ◌<◌, ◌≤◌, length, IfSome, IfNone};
ghost use Rattle.data_blocks.specs.Bits.{bit_of, is_set, WritesBit};

/// Sets the bit of a block.
pub(crate) fn set_bit(words: &mut [u64], block: u32)
    requires { block / 64 < length words.old }
    ensures { WritesBit words.old words.new block 1 }
{
    let at = (block / 64) as usize;
    words[at] |= 1 << (block % 64);
}

/// Clears the bit of a block.
pub(crate) fn clear_bit(words: &mut [u64], block: u32)
    requires { block / 64 < length words.old }
    ensures { WritesBit words.old words.new block 0 }
{
    let at = (block / 64) as usize;
    words[at] &= !(1 << (block % 64));
}

/// Whether the bit of a block is set.
pub(crate) fn has_bit(words: &[u64], block: u32) -> bool
    requires { block / 64 < length words.now }
    ensures { result ≡ is_set words.now block }
{
    let word = words[(block / 64) as usize];
    (word >> (block % 64)) & 1 == 1
}

/// The lowest block whose bit is set, where no bit is set before this word.
pub(crate) fn lowest_bit(words: &[u64], from: usize) -> Option<u32>
    requires few { length words.now ≤ 2 ^ 26 }
    requires none_before { (block : ℕ) → block < 64 * from → bit_of words.now block ≡ 0 }
    ensures found { IfSome result (λ block. bit_of words.now block ≡ 1) }
    ensures lowest { IfSome result (λ block. (other : ℕ) → other < block → bit_of words.now other ≡ 0) }
    ensures none { IfNone result ((block : ℕ) → bit_of words.now block ≡ 0) }
{
    for at in from..words.len() {
        let word = words[at];
        if word != 0 {
            return Some(at as u32 * 64 + word.trailing_zeros());
        }
    }
    None
}
