//! The words of a container, of which those are kept that differ from the supplier's.
ghost use Rattle.std.specs.Prelude.{◌≡◌, ◌<◌, ◌+◌, ◌*◌, ◌^◌, ℕ, OnOk, slice_index};
ghost use Rattle.plain_states.specs.model_kernel.State.{Supply};
ghost use Rattle.image_shown_facts.specs.image_plain.Words.{words_with};
ghost use Rattle.image_shown_facts.specs.Words.{IsSparse};

use base_types::PAGE_WORDS;
use std::alloc::AllocFailed;
use std::collections::BTreeMap;

// Keeps the word at an address behind all that are kept, if it differs from the supplier's.
fn keep_word<S: Fn(u64, u32, u16) -> u64>(
    words: &mut BTreeMap<u64, u64>,
    tag: u64,
    address: u64,
    word: u64,
    supply: &S,
) -> Result<(), AllocFailed<(u64, u64)>>
    ghost s: { Supply }
    requires callable { (t p a : ℕ) → t < 2 ^ 64 → p < 256 → a < 128 → S.pre supply.now t p a }
    requires answers { (t p a r : ℕ) → t < 2 ^ 64 → p < 256 → a < 128 → S.post supply.now t p a r → r ≡ s t p a }
    requires address { address < 128 * 256 }
    requires sparse { IsSparse s tag address words.old }
    ensures sparse { OnOk result (IsSparse s tag (address + 1) words.new) }
    ensures here { OnOk result (words_with s tag words.new address ≡ word) }
    ensures before { OnOk result ((a : ℕ) → a < address → words_with s tag words.new a ≡ words_with s tag words.old a) }
{
    let supplied = supply(
        tag,
        (address / PAGE_WORDS) as u32,
        (address % PAGE_WORDS) as u16,
    );
    if word != supplied {
        words.insert(address, word)?;
    }
    Ok(())
}

// Keeps the words of a page behind all that are kept, where they differ from the supplier's.
pub(crate) fn keep_page<S: Fn(u64, u32, u16) -> u64>(
    words: &mut BTreeMap<u64, u64>,
    tag: u64,
    page: u64,
    page_words: &[u64; 128],
    supply: &S,
) -> Result<(), AllocFailed<(u64, u64)>>
    ghost s: { Supply }
    requires callable { (t p a : ℕ) → t < 2 ^ 64 → p < 256 → a < 128 → S.pre supply.now t p a }
    requires answers { (t p a r : ℕ) → t < 2 ^ 64 → p < 256 → a < 128 → S.post supply.now t p a r → r ≡ s t p a }
    requires page { page < 256 }
    requires sparse { IsSparse s tag (128 * page) words.old }
    ensures sparse { OnOk result (IsSparse s tag (128 * page + 128) words.new) }
    ensures here { OnOk result ((k : ℕ) → k < 128 → words_with s tag words.new (128 * page + k) ≡ slice_index page_words.now k) }
    ensures before { OnOk result ((a : ℕ) → a < 128 * page → words_with s tag words.new a ≡ words_with s tag words.old a) }
{
    for place in 0..128 {
        keep_word(
            words,
            tag,
            PAGE_WORDS * page + place as u64,
            page_words[place],
            supply,
        )?;
    }
    Ok(())
}
