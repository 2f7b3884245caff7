// What is noted behind a history, told to it.
ghost use Rattle.std.specs.Prelude.{◌≡◌, ◌++◌, ◌∷◌, [], length};
ghost use Rattle.thread_stables.specs.thread_commits.Snapping.{AddsAmong};
ghost use Rattle.thread_stables.specs.thread_looks.Looking.{NotesLook};

use base_types::Entry;
use thread_history::{HistoryAuthority, Run, Share};
use thread_stables::Notes;

/// Tells the history all that is noted from the place on, which writes no entity.
pub(crate) fn tell_alone<B: Run<Entry>>(
    annals: &mut HistoryAuthority<Entry, B>,
    notes: &Notes,
    place: usize,
)
    requires place { place ≡ length (B.kept ++ annals.old) }
    requires among { AddsAmong [] (B.kept ++ annals.old) notes.now.entries }
    ensures told { notes.now.entries ≡ B.kept ++ annals.new }
{
    let entries = notes.entries();
    for i in place..entries.len() {
        annals.append_alone(&entries[i]);
    }
}

/// Tells the history what a look noted from the place on: its step, if it made one, by the share of the locus, and what comes behind it by none.
pub(crate) fn tell_look<B: Run<Entry>>(
    annals: &mut HistoryAuthority<Entry, B>,
    notes: &Notes,
    place: usize,
    locus: &mut Share<Entry, B>,
)
    requires place { place ≡ length (B.kept ++ annals.old) }
    requires notes { NotesLook locus.old.number (locus.old.number ∷ []) (B.kept ++ annals.old) notes.now.entries }
    ensures told { notes.now.entries ≡ B.kept ++ annals.new }
    ensures locus { locus.new.number ≡ locus.old.number }
{
    let entries = notes.entries();
    if place < entries.len() {
        annals.append_with_one(&entries[place], locus);
        tell_alone(annals, notes, place + 1);
    }
}
