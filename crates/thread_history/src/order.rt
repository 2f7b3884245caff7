//! Things that come back in any order are put into the order of their numbers.
ghost use Rattle.std.specs.Prelude.{◌≡◌, ◌<◌, ◌==◌, ℕ, true, length, map, slice_index_or, IsPermutation};
ghost use Rattle.std.specs.List.{list_any};
ghost use Rattle.thread_history.specs.Rules.{is_among};

/// A thing with a number.
pub trait Numbered {
    ghost use Rattle.std.specs.Prelude.{◌≡◌, ℕ};

    ghost number: { Self → ℕ };

    fn number(&self) -> u64
        ensures { result ≡ number self.now };
}

/// The first place of a thing of that number.
fn place_of<T: Numbered>(things: &[T], number: u64) -> usize
    requires { list_any (λ t. T.number t == number) things.now ≡ true }
    ensures bound { result < length things.now }
    ensures number { (d : T) → T.number (slice_index_or things.now result d) ≡ number }
{
    for place in 0..things.len() {
        if things[place].number() == number {
            return place;
        }
    }
    unreachable!()
}

/// Puts things, whose numbers are all numbers below their count, into the order of their numbers. It takes no memory, and a time
/// that grows with the square of their count.
pub fn put_in_order<T: Numbered>(things: &mut [T])
    requires { (x : ℕ) → x < length things.old → is_among x (map T.number things.old) ≡ true }
    ensures permutation { IsPermutation things.old things.new }
    ensures order { (k : ℕ) (d : T) → k < length things.new → T.number (slice_index_or things.new k d) ≡ k }
{
    for number in 0..things.len() {
        let place = place_of(things, number as u64);
        things.swap(number, place);
    }
}
