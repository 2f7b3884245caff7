//! Laws. The functions do nothing: the contract of each is a law.
ghost use Rattle.std.specs.Prelude.{◌≡◌, ◌<◌, ◌≤◌, ◌++◌, ℕ, List, length, true};
ghost use mathlib.Core.Option.{some};
ghost use mathlib.Core.List.{IsPrefix};
ghost use lib.ListN.{get_elem?};
ghost use Rattle.atomic_table.specs.Table.{State};
ghost use Rattle.base_types.specs.declared.histories.Entry.{Entry as Line};
ghost use Rattle.model_kernel.specs.State.{Supply, KernelState};
ghost use Rattle.model_kernel.specs.Scripts.{Script};
ghost use Rattle.model_kernel.specs.Parts.{after};
ghost use Rattle.model_kernel.specs.Histories.{Policy, IsLegalRun, event_of, writes};
ghost use Rattle.thread_history.specs.declared.views.View.{View};
ghost use Rattle.thread_history.specs.declared.views.Role.TheVariants.{Chronicler};
ghost use Rattle.thread_history.specs.Numbers.{AllBelow};
ghost use Rattle.thread_history.specs.Quiet.{AreKnown, AreShares, AreTold, IsOneChronicle, IsQuiet};
ghost use Rattle.thread_history.specs.Rules.{AllDiffer, IsKept, concerning, is_among};
ghost use Rattle.thread_history.specs.Seats.{IsShareOf};

use crate::items::Item;
use base_types::Entry;
use model_kernel::locality_law;

/// In every state of the table: one view is the chronicle's, and no other. Its history has the length of the first word, and what each
/// view knows begins it. A number that was drawn has at most one share; of any other there is no share and no note of one, and nothing
/// was told. What was appended and concerns a number begins what the chronicle was told of it, and that begins the list of its share.
/// What a share knows whose list is just the items that it knows and that concern it is followed by no item that concerns it.
pub fn rule_law<T: Item>()
    ensures one_chronicle { IsOneChronicle T.concerns }
    ensures known { AreKnown T.concerns }
    ensures shares { AreShares T.concerns }
    ensures told { AreTold T.concerns }
    ensures no_later_item { IsQuiet T.concerns }
{}

/// What an entity is after the history that its share knows, it is after the whole of a legal history: its state, version and stamp.
/// The first clause has the premises that `Chronicle::note` ensures, the second is of every state of the table.
pub fn known_state_law()
    ensures known { (s : Supply) (policy : Policy) (script : Script) (w : KernelState) (kept es hs : List Line) (x : ℕ)
        → IsPrefix es hs → concerning writes x es ≡ concerning writes x hs
        → IsLegalRun s policy w script (kept ++ hs)
        → after (event_of s script) w (kept ++ hs) x ≡ after (event_of s script) w (kept ++ es) x }
    ensures in_each_state { (s : Supply) (policy : Policy) (script : Script) (w : KernelState) (kept : List Line)
        (t : State (Unit {0}) (View Line)) → IsKept writes kept t → (x seat other : ℕ) (v u : View Line)
        → get_elem? t.views seat ≡ some v → IsShareOf writes x v
        → get_elem? t.views other ≡ some u → u.role ≡ Chronicler
        → IsLegalRun s policy w script (kept ++ u.since)
        → after (event_of s script) w (kept ++ u.since) x ≡ after (event_of s script) w (kept ++ v.since) x }
{
    locality_law();
    rule_law::<Entry>();
}

/// As many different numbers below n as n are all of them.
pub fn all_numbers_law()
    ensures { (n : ℕ) (xs : List ℕ) → AllDiffer xs → AllBelow n xs → n ≤ length xs
        → (x : ℕ) → x < n → is_among x xs ≡ true }
{}
