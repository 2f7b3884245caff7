// What is noted behind a history, told to it by the shares of those that it may write.
ghost use Rattle.std.specs.Prelude.{◌≡◌, ◌++◌, ◌∷◌, [], length};
ghost use Rattle.thread_looks.specs.thread_commits.Snapping.{AddsAmong};
ghost use Rattle.thread_history.specs.Rules.{AllDiffer};

use base_types::Entry;
use thread_history::{HistoryAuthority, Run, Share};
use thread_looks::Notes;

/// Tells the history all that is noted from the place on, which writes one entity at most, by its share.
pub(crate) fn tell_one<B: Run<Entry>>(
    annals: &mut HistoryAuthority<Entry, B>,
    notes: &Notes,
    place: usize,
    one: &mut Share<Entry, B>,
)
    requires place { place ≡ length (B.kept ++ annals.old) }
    requires among { AddsAmong (one.old.number ∷ []) (B.kept ++ annals.old) notes.now.entries }
    ensures told { notes.now.entries ≡ B.kept ++ annals.new }
    ensures one { one.new.number ≡ one.old.number }
{
    let entries = notes.entries();
    for i in place..entries.len() {
        annals.append_with_one(&entries[i], one);
    }
}

/// The same by the shares of two.
pub(crate) fn tell_two<B: Run<Entry>>(
    annals: &mut HistoryAuthority<Entry, B>,
    notes: &Notes,
    place: usize,
    one: &mut Share<Entry, B>,
    two: &mut Share<Entry, B>,
)
    requires place { place ≡ length (B.kept ++ annals.old) }
    requires apart { AllDiffer (one.old.number ∷ two.old.number ∷ []) }
    requires among { AddsAmong (one.old.number ∷ two.old.number ∷ []) (B.kept ++ annals.old) notes.now.entries }
    ensures told { notes.now.entries ≡ B.kept ++ annals.new }
    ensures one { one.new.number ≡ one.old.number }
    ensures two { two.new.number ≡ two.old.number }
{
    let entries = notes.entries();
    for i in place..entries.len() {
        annals.append_with_two(&entries[i], one, two);
    }
}

/// The same by the shares of three.
pub(crate) fn tell_three<B: Run<Entry>>(
    annals: &mut HistoryAuthority<Entry, B>,
    notes: &Notes,
    place: usize,
    one: &mut Share<Entry, B>,
    two: &mut Share<Entry, B>,
    three: &mut Share<Entry, B>,
)
    requires place { place ≡ length (B.kept ++ annals.old) }
    requires apart { AllDiffer (one.old.number ∷ two.old.number ∷ three.old.number ∷ []) }
    requires among { AddsAmong (one.old.number ∷ two.old.number ∷ three.old.number ∷ []) (B.kept ++ annals.old) notes.now.entries }
    ensures told { notes.now.entries ≡ B.kept ++ annals.new }
    ensures one { one.new.number ≡ one.old.number }
    ensures two { two.new.number ≡ two.old.number }
    ensures three { three.new.number ≡ three.old.number }
{
    let entries = notes.entries();
    for i in place..entries.len() {
        annals.append_with_three(&entries[i], one, two, three);
    }
}
