//! The numbers that commands take.
ghost use Rattle.std.specs.Prelude.{ℕ, ◌≤◌, IfNone, IfSome};
ghost use Rattle.command_words.specs.Commands.{IsNumber, IsSeed, IsSize, IsWorkers};

/// Blocks of the smallest image.
const LEAST: u32 = 2600;

/// Blocks of the largest image.
const LARGEST_IMAGE: u32 = 65_536;

/// Of a hundred so many may be lost at most.
const MOST_LOST: u8 = 90;

/// Workers of a run on threads at most.
const MOST_WORKERS: u8 = 16;

/// Digits of a number at most, with those zeros that lead.
const LONGEST: usize = 20;

/// The number that the text spells, where 64 bits hold it.
pub(crate) fn read_number(text: &str) -> Option<u64>
    ensures some { IfSome result (λ n. IsNumber text.now n × IsSeed n) }
    ensures none { IfNone result ((n : ℕ) → IsNumber text.now n → IsSeed n → ⊥) }
{
    // `parse` would take a leading plus.
    if text.len() > LONGEST || text.starts_with('+') {
        return None;
    }
    text.parse::<u64>().ok()
}

/// The number of blocks that the text spells, where an image may have so many.
pub(crate) fn read_size(text: &str) -> Option<u32>
    ensures some { IfSome result (λ n. IsNumber text.now n × IsSize n) }
    ensures none { IfNone result ((n : ℕ) → IsNumber text.now n → IsSize n → ⊥) }
{
    let blocks = u32::try_from(read_number(text)?).ok()?;
    (LEAST..=LARGEST_IMAGE).contains(&blocks).then_some(blocks)
}

/// How many of a hundred are to be lost, as the text spells it.
pub(crate) fn read_loss(text: &str) -> Option<u8>
    ensures some { IfSome result (λ n. IsNumber text.now n × (n ≤ 90)) }
    ensures none { IfNone result ((n : ℕ) → IsNumber text.now n → n ≤ 90 → ⊥) }
{
    let loss = u8::try_from(read_number(text)?).ok()?;
    (loss <= MOST_LOST).then_some(loss)
}

/// How many workers a run on threads is to have, as the text spells it.
pub(crate) fn read_workers(text: &str) -> Option<u8>
    ensures some { IfSome result (λ n. IsNumber text.now n × IsWorkers n) }
    ensures none { IfNone result ((n : ℕ) → IsNumber text.now n → IsWorkers n → ⊥) }
{
    let workers = u8::try_from(read_number(text)?).ok()?;
    (1..=MOST_WORKERS).contains(&workers).then_some(workers)
}
