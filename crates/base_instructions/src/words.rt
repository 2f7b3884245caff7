//! Reading an instruction's word.
ghost use Rattle.std.specs.Prelude.{◌≡◌, ℕ, ◌+◌, ◌<◌, ◌≤◌, ◌≢◌, length, take, IfSome, IfNone};
ghost use Rattle.base_instructions.specs.Fronts.{Reads};
ghost use Rattle.base_instructions.specs.Forms.{word_at};

use crate::forms::{CODES, form_at};

/// The length of the longest front that both have.
fn common_length(a: &[u8], b: &[u8]) -> usize
    ensures in_a { result ≤ length a.now }
    ensures in_b { result ≤ length b.now }
    ensures same { take result a.now ≡ take result b.now }
    ensures longest { (n : ℕ) → n ≤ length a.now → n ≤ length b.now → take n a.now ≡ take n b.now → n ≤ result }
{
    let mut length = 0;
    while length < a.len() && length < b.len() && a[length] == b[length] {
        length += 1;
    }
    length
}

/// The code of the instructions with this word.
fn code_of_word(word: &[u8]) -> Option<usize>
    ensures some { IfSome result (λ code. (code < CODES) × (word_at code ≡ word.now)) }
    ensures none { IfNone result ((code : ℕ) → code < CODES → word_at code ≢ word.now) }
{
    for code in 0..CODES {
        if form_at(code).word.as_bytes() == word {
            return Some(code);
        }
    }
    None
}

/// The longest front of the bytes that begins an instruction's word, and the code of the instructions with that word.
pub(crate) fn read_word(bytes: &[u8]) -> (usize, Option<usize>)
    ensures { Reads (λ code. code < CODES) word_at bytes.now result.0 result.1 }
{
    let mut longest = 0;
    for code in 0..CODES {
        longest = longest.max(common_length(form_at(code).word.as_bytes(), bytes));
    }
    (longest, code_of_word(&bytes[..longest]))
}
