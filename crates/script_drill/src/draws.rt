//! Words that are drawn, and names with numbers.
ghost use Rattle.std.specs.Prelude.{◌≡◌, ◌+◌, ◌%◌, ◌<◌, ◌++◌, IfOk, decimal, string_bytes};
ghost use Rattle.script_drill.specs.Draws.{rest, words_of};

use itoa::Buffer;
use rand_core::utils::NextWord;
use rand_pcg::Lcg64Xsh32;
use std::alloc::{AllocError, Global};

/// The next word modulo a number.
pub fn draw(words: &mut Lcg64Xsh32, below: u32) -> u32
    requires { 0 < below }
    ensures value { result ≡ words_of words.old 0 % below }
    ensures small { result < below }
    ensures left { words_of words.new ≡ rest (words_of words.old) }
{
    words.next_word() % below
}

/// Two words, each modulo a number.
pub fn draw_two(words: &mut Lcg64Xsh32, first: u32, second: u32) -> (u32, u32)
    requires first { 0 < first }
    requires second { 0 < second }
    ensures first { result.0 ≡ words_of words.old 0 % first }
    ensures second { result.1 ≡ words_of words.old 1 % second }
    ensures first_small { result.0 < first }
    ensures second_small { result.1 < second }
    ensures left { words_of words.new ≡ rest (rest (words_of words.old)) }
{
    let a = draw(words, first);
    let b = draw(words, second);
    (a, b)
}

/// A name: a letter and a number.
pub fn numbered(alloc: Global, letter: &str, number: u32) -> Result<String, AllocError>
    ensures { IfOk result (λ name. string_bytes name ≡ letter.now ++ decimal number) }
{
    let mut digits = Buffer::new();
    let mut name = String::from_str(alloc, letter)?;
    name.push_str(digits.format(number))?;
    Ok(name)
}
