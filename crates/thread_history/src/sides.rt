//! What the chronicle and a share tell each other.
ghost use Rattle.std.specs.Prelude.{◌≡◌, ◌+◌, ◌<◌, ◌^◌, ℕ, true, [], Some};
ghost use mathlib.Core.List.{IsPrefix};
ghost use Rattle.thread_history.specs.declared.views.Role.TheVariants.{Chronicler, Share};
ghost use Rattle.thread_history.specs.Rules.{told_of, concerning};
ghost use Rattle.thread_history.specs.Seats.{Announced, Heard, IsAt, IsChronicle, IsShare, IsShareOf};

use crate::items::Item;
use crate::seats::{announce, cut_note, enrol, look, take_in};
use crate::views::{HistorySeat, HistoryTable, Next};

/// Tells a share the present history. Its list stays, as it has all items there that concern it.
pub(crate) fn hear<T: Item>(
    table: &HistoryTable<T>,
    chronicle: &mut HistorySeat<T>,
    share: &mut HistorySeat<T>,
)
    requires seats { IsAt table.now chronicle.old × IsAt table.now share.old }
    requires chronicle { IsChronicle T.concerns chronicle.old.me.0 }
    requires share { IsShare T.concerns share.old.me.0 }
    ensures seats { (chronicle.new.table_id ≡ chronicle.old.table_id) × (share.new.table_id ≡ share.old.table_id) × (chronicle.new.me.1 ≡ chronicle.old.me.1) × (share.new.me.1 ≡ share.old.me.1) }
    ensures chronicle { IsChronicle T.concerns chronicle.new.me.0 × (chronicle.new.me.0.since ≡ chronicle.old.me.0.since) }
    ensures share { Heard T.concerns chronicle.old.me.0.since share.old.me.0 share.new.me.0 }
{
    let of_share = cut_note(table, share);
    take_in(table, chronicle, of_share);
    look(table, chronicle);
    let of_chronicle = cut_note(table, chronicle);
    take_in(table, share, of_chronicle);
    look(table, share);
}

/// A share announces the item, and the chronicle is told so.
pub(crate) fn announce_to<T: Item, E: Next<T>>(
    table: &HistoryTable<T>,
    chronicle: &mut HistorySeat<T>,
    share: &mut HistorySeat<T>,
    item: &T,
)
    requires seats { IsAt table.now chronicle.old × IsAt table.now share.old }
    requires item { E.item ≡ Some item.now }
    requires chronicle { chronicle.old.me.0.role ≡ Chronicler }
    requires share { (x : ℕ) × (share.old.me.0.role ≡ Share x) }
    requires told { (x : ℕ) → share.old.me.0.role ≡ Share x → IsShareOf T.concerns x share.old.me.0 × (told_of chronicle.old.me.0.told x ≡ concerning T.concerns x chronicle.old.me.0.since) }
    requires same { share.old.me.0.since ≡ chronicle.old.me.0.since }
    ensures seats { (chronicle.new.table_id ≡ chronicle.old.table_id) × (share.new.table_id ≡ share.old.table_id) × (chronicle.new.me.1 ≡ chronicle.old.me.1) × (share.new.me.1 ≡ share.old.me.1) }
    ensures told { (x : ℕ) → share.old.me.0.role ≡ Share x → Announced T.concerns x item.now chronicle.old.me.0 share.old.me.0 chronicle.new.me.0 share.new.me.0 }
{
    announce::<T, E>(table, share, item);
    let of_share = cut_note(table, share);
    take_in(table, chronicle, of_share);
}

/// Tells a share that knows a beginning of the history, and all that there is of its number, the history.
pub(crate) fn catch_up<T: Item>(
    table: &HistoryTable<T>,
    chronicle: &mut HistorySeat<T>,
    share: &mut HistorySeat<T>,
)
    requires seats { IsAt table.now chronicle.old × IsAt table.now share.old }
    requires chronicle { IsChronicle T.concerns chronicle.old.me.0 }
    requires share { (x : ℕ) × (share.old.me.0.role ≡ Share x) × (share.old.me.0.list ≡ concerning T.concerns x chronicle.old.me.0.since) }
    requires begins { IsPrefix share.old.me.0.since chronicle.old.me.0.since }
    ensures seats { (chronicle.new.table_id ≡ chronicle.old.table_id) × (share.new.table_id ≡ share.old.table_id) × (chronicle.new.me.1 ≡ chronicle.old.me.1) × (share.new.me.1 ≡ share.old.me.1) }
    ensures chronicle { IsChronicle T.concerns chronicle.new.me.0 × (chronicle.new.me.0.since ≡ chronicle.old.me.0.since) }
    ensures share { (share.new.me.0.role ≡ share.old.me.0.role) × (share.new.me.0.since ≡ chronicle.old.me.0.since) × (share.new.me.0.list ≡ share.old.me.0.list) }
{
    let note = cut_note(table, chronicle);
    take_in(table, share, note);
}

/// Makes the share of the next number, where nothing was appended.
pub(crate) fn enrol_next<T: Item>(
    table: &HistoryTable<T>,
    chronicle: &mut HistorySeat<T>,
) -> HistorySeat<T>
    requires seat { IsAt table.now chronicle.old }
    requires chronicle { IsChronicle T.concerns chronicle.old.me.0 × (chronicle.old.me.0.since ≡ []) }
    requires right { (chronicle.old.me.0.enrols ≡ true) × (chronicle.old.me.0.shares < 2 ^ 62) }
    ensures seats { (chronicle.new.table_id ≡ chronicle.old.table_id) × (result.table_id ≡ chronicle.old.table_id) × (chronicle.new.me.1 ≡ chronicle.old.me.1) × (result.me.1 ≡ []) }
    ensures chronicle { IsChronicle T.concerns chronicle.new.me.0 × (chronicle.new.me.0.since ≡ []) }
    ensures right { (chronicle.new.me.0.enrols ≡ true) × (chronicle.new.me.0.shares ≡ chronicle.old.me.0.shares + 1) }
    ensures share { IsShareOf T.concerns chronicle.old.me.0.shares result.me.0 × (result.me.0.since ≡ []) }
{
    let mut share = cut_note(table, chronicle);
    enrol(table, &mut share);
    let right = cut_note(table, &mut share);
    take_in(table, chronicle, right);
    share
}
