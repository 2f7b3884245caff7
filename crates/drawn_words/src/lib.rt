//! Numbers drawn from the words of a PCG generator (XSH RR 64/32; O'Neill, "PCG: a family of simple fast space-efficient statistically good
//! algorithms for random number generation").
#![tactic(auto)]

ghost use Rattle.std.specs.Prelude.{◌≡◌, ◌%◌, ◌<◌};
ghost use Rattle.drawn_words.specs.Words.{rest, words_of};

use rand_core::utils::NextWord;
use rand_pcg::Lcg64Xsh32;

/// The next word of the generator, modulo a number.
pub fn draw(words: &mut Lcg64Xsh32, below: u32) -> u32
    requires { 0 < below }
    ensures value { result ≡ words_of words.old 0 % below }
    ensures small { result < below }
    ensures left { words_of words.new ≡ rest (words_of words.old) }
{
    words.next_word() % below
}
