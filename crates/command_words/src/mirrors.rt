//! The words behind `mirror`.
ghost use Rattle.std.specs.Prelude.{◌≡◌, ◌≤◌, ◌<◌, ℕ, IfNone, IfSome, length, map, string_bytes};
ghost use Rattle.command_words.specs.Commands.{AreMirrorWords, IsNumber, IsSeed};

use crate::numbers::{read_loss, read_number};

// A seed and a loss.
fn read_both(seed: &str, loss: &str) -> Option<(u64, u8)>
    ensures some { IfSome result (λ r. (IsNumber seed.now r.0 × IsSeed r.0) × (IsNumber loss.now r.1 × (r.1 ≤ 90))) }
    ensures none { IfNone result ((s l : ℕ) → IsNumber seed.now s → IsSeed s → IsNumber loss.now l → l ≤ 90 → ⊥) }
{
    match (read_number(seed), read_loss(loss)) {
        (Some(seed), Some(loss)) => Some((seed, loss)),
        _ => None,
    }
}

/// The seed, and how many packets and counts of a hundred are lost, of the words behind `mirror`: the path of the standby's file, which isn't empty, the
/// seed from 0 to 2^64 - 1, and the loss from 0 to 90. None exactly where they are not three of this form. It takes no memory.
pub fn mirror_words(words: &[String]) -> Option<(u64, u8)>
    ensures some { IfSome result (λ r. AreMirrorWords (map string_bytes words.now) r.0 r.1) }
    ensures none { IfNone result ((seed loss : ℕ) → AreMirrorWords (map string_bytes words.now) seed loss → ⊥) }
{
    if words.len() != 3 || words[0].is_empty() {
        return None;
    }
    read_both(words[1].as_str(), words[2].as_str())
}
