//! What is drawn for the rounds of a sender and a receiver, and what so many rounds come to, in numbers alone.
#![tactic(auto)]

ghost use Rattle.std.specs.Prelude.{◌≡◌, ◌<◌, List};
ghost use Rattle.drawn_words.specs.Words.{rest, words_numbered, words_of};
ghost use Rattle.node_draws.specs.Courses.{AllMadeLaw, LosslessLaw, OrderLaw, tally_behind, tally_of};
ghost use Rattle.node_draws.specs.Drawing.{draws_in, drawn, is_lost as lost_by, left};
ghost use Rattle.node_world.specs.Rounds.{Draws, drawn_round};
ghost use Rattle.node_world.specs.Worlds.{Holds, World, after_events, offered};

use drawn_words::draw;
use rand_pcg::Lcg64Xsh32;

/// The generator's stream.
const STREAM: u64 = 55;

/// What is drawn for a round.
#[derive(Clone, Copy, Debug, PartialEq, Eq)]
pub struct RoundDraws {
    pub packet_lost: bool,
    /// The packet comes a second time, where it comes.
    pub comes_twice: bool,
    pub count_lost: bool,
}

/// The generator of this number, from which rounds are drawn.
pub fn round_words(seed: u64) -> Lcg64Xsh32
    ensures { words_of result ≡ words_numbered seed 55 }
{
    Lcg64Xsh32::new(seed, STREAM)
}

// Of a hundred as many as the loss tells are lost.
fn is_lost(words: &mut Lcg64Xsh32, loss: u8) -> bool
    ensures lost { result ≡ lost_by loss (words_of words.old 0) }
    ensures left { words_of words.new ≡ rest (words_of words.old) }
{
    draw(words, 100) < u32::from(loss)
}

/// Draws for a round: whether its packet is lost, with a chance of so many in a hundred; where it isn't, whether it comes a second time, one time in
/// eight; and whether the count is lost. That takes two words where the packet is lost, and else three.
pub fn draw_round(words: &mut Lcg64Xsh32, loss: u8) -> RoundDraws
    ensures drawn { draws_in result ≡ drawn loss (words_of words.old) }
    ensures left { words_of words.new ≡ left loss (words_of words.old) }
{
    let packet_lost = is_lost(words, loss);
    let comes_twice = !packet_lost && draw(words, 8) == 0;
    let count_lost = is_lost(words, loss);
    RoundDraws {
        packet_lost,
        comes_twice,
        count_lost,
    }
}

/// The counts of a world behind a round with these draws are those that are told in numbers alone.
pub fn tally_law<T>()
    ensures { (made : List T) (w : World T) (d : Draws) → Holds made w → w.sender.acked < offered w.sender
        → tally_of (after_events (drawn_round w.sender d) w) ≡ tally_behind d (tally_of w) }
{}

/// Rounds by their draws, in numbers: what is acknowledged is at most what is kept, and that at most what is offered, which doesn't fall (`order`); neither falls (`rises`);
/// where nothing can be lost as many rounds as are lacking acknowledge all (`lossless`); and where something isn't acknowledged in the end, so it was before each round (`all_made`).
pub fn course_law()
    ensures order { OrderLaw }
    ensures lossless { LosslessLaw }
    ensures all_made { AllMadeLaw }
{}
