//! Reading decimal numbers.
ghost use Rattle.std.specs.Prelude.{◌≡◌, ℕ, ◌+◌, ◌<◌, ◌≤◌, List, [], ◌∷◌, ◌++◌, IfSome, IfNone};
ghost use Rattle.std.specs.Fmt.{decimal};
ghost use Rattle.base_instructions.specs.Fronts.{Reads, digits_read};

/// The number that was found so far, with one more digit behind it, if that is one up to the greatest.
fn with_digit(found: Option<u64>, byte: u8, greatest: u64) -> Option<u64>
    requires { IfSome found (λ n. n ≤ greatest) }
    ensures some { IfSome result (λ m. (m ≤ greatest) × (decimal m ≡ digits_read found ++ byte ∷ [])) }
    ensures none { IfNone result
        ((m : ℕ) (rest : List ℕ) → m ≤ greatest → decimal m ≡ digits_read found ++ byte ∷ rest → ⊥) }
{
    if !byte.is_ascii_digit() {
        return None;
    }
    if found == Some(0) {
        return None;
    }
    let digit = u128::from(byte - b'0');
    let tens = u128::from(found.unwrap_or(0)) * 10;
    let next = tens + digit;
    if next <= u128::from(greatest) {
        Some(next as u64)
    } else {
        None
    }
}

/// The longest front of the bytes that begins a number up to the greatest, and the number.
pub(crate) fn read_number(bytes: &[u8], greatest: u64) -> (usize, Option<u64>)
    ensures { Reads (λ n. n ≤ greatest) decimal bytes.now result.0 result.1 }
{
    let mut found = None;
    for (length, byte) in bytes.iter().enumerate() {
        match with_digit(found, *byte, greatest) {
            None => return (length, found),
            next => found = next,
        }
    }
    (bytes.len(), found)
}
