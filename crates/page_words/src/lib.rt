//! The 128 words of a page as they stand in a block: eight bytes each, one behind the other, the lowest byte first.
#![tactic(auto)]

ghost use Rattle.std.specs.Prelude.{◌≡◌, ◌≢◌, ◌*◌, ◌<◌, ℕ, replicate, []};
ghost use Rattle.base_bytes.specs.Fields.{number_at};
ghost use Rattle.store_books.specs.Books.{words_of_bytes};

use base_bytes::{get_u64, put_u64};
pub use store_books::{Areas, LogFault};

// The word at a place of the block.
fn word_at(block: &[u8; 1024], place: usize) -> u64
    requires { place < 128 }
    ensures { result ≡ number_at (8 * place) 8 block.now }
{
    get_u64(block, 8 * place).unwrap()
}

// Writes the word at a place of the block.
fn put_word(block: &mut [u8; 1024], place: usize, word: u64)
    requires { place < 128 }
    ensures here { number_at (8 * place) 8 block.new ≡ word }
    ensures others { (k : ℕ) → k ≢ place → number_at (8 * k) 8 block.new ≡ number_at (8 * k) 8 block.old }
{
    put_u64(block, 8 * place, word).unwrap();
}

/// The words of the page in a block.
pub fn words_in(block: &[u8; 1024]) -> [u64; 128]
    ensures { result ≡ words_of_bytes block.now }
{
    let mut words = [0; 128];
    for i in 0..128 {
        words[i] = word_at(block, i);
    }
    words
}

/// The block of a page of these words, from which they are read back.
pub fn block_with(words: &[u64; 128]) -> [u8; 1024]
    ensures { words_of_bytes result ≡ words.now }
{
    let mut block = [0; 1024];
    for i in 0..128 {
        put_word(&mut block, i, words[i]);
    }
    block
}

/// Where there is no block, the words are zeros. The function does nothing: its contract is the law.
pub fn no_words_law()
    ensures { words_of_bytes [] ≡ replicate 128 0 }
{}
