//! How an item is announced by the shares that are given, and appended.
ghost use Rattle.std.specs.Prelude.{◌≡◌, ◌≢◌, ◌+◌, ◌<◌, ◌^◌, ◌++◌, ◌∷◌, ℕ, [], Some, length};
ghost use Rattle.thread_history.specs.declared.views.Role.TheVariants.{Chronicler};
ghost use Rattle.thread_history.specs.Rules.{AllDiffer, concerning, told_of};
ghost use Rattle.thread_history.specs.Seats.{IsAt, IsChronicle, IsReady, IsShareOf};
ghost use Rattle.thread_history.specs.Given.{AllKnow, knowing, numbers};

use crate::items::Item;
use crate::seats::append;
use crate::shares::{Run, Share};
use crate::sides::{announce_to, catch_up};
use crate::views::{HistorySeat, HistoryTable, Next};

/// The share announces the item where it concerns its number.
fn tell_next<T: Item, E: Next<T>>(
    table: &HistoryTable<T>,
    chronicle: &mut HistorySeat<T>,
    item: &T,
    number: u64,
    share: &mut HistorySeat<T>,
)
    requires seats { IsAt table.now chronicle.old × IsAt table.now share.old }
    requires item { E.item ≡ Some item.now }
    requires chronicle { (chronicle.old.me.0.role ≡ Chronicler) × (told_of chronicle.old.me.0.told number ≡ concerning T.concerns number chronicle.old.me.0.since) }
    requires share { IsShareOf T.concerns number share.old.me.0 × (share.old.me.0.since ≡ chronicle.old.me.0.since) }
    ensures seats { (chronicle.new.table_id ≡ chronicle.old.table_id) × (share.new.table_id ≡ share.old.table_id) × (chronicle.new.me.1 ≡ chronicle.old.me.1) × (share.new.me.1 ≡ share.old.me.1) }
    ensures chronicle { (chronicle.new.me.0.role ≡ Chronicler) × (chronicle.new.me.0.since ≡ chronicle.old.me.0.since) × (chronicle.new.me.0.back ≡ chronicle.old.me.0.back) }
    ensures others { (y : ℕ) → y ≢ number → told_of chronicle.new.me.0.told y ≡ told_of chronicle.old.me.0.told y }
    ensures told { told_of chronicle.new.me.0.told number ≡ concerning T.concerns number (chronicle.old.me.0.since ++ item.now ∷ []) }
    ensures share { (share.new.me.0.role ≡ share.old.me.0.role) × (share.new.me.0.since ≡ share.old.me.0.since) × (share.new.me.0.list ≡ concerning T.concerns number (chronicle.old.me.0.since ++ item.now ∷ [])) }
{
    if item.concerns(number) {
        announce_to::<T, E>(table, chronicle, share, item);
    }
}

/// Appends an item of which all were told whom it concerns.
pub(crate) fn append_told<T: Item, E: Next<T>>(
    table: &HistoryTable<T>,
    chronicle: &mut HistorySeat<T>,
    item: &T,
)
    requires seat { IsAt table.now chronicle.old }
    requires room { length table.now.shared.key.value.items + length chronicle.old.me.0.since < 2 ^ 62 }
    requires item { E.item ≡ Some item.now }
    requires ready { IsReady T.concerns item.now [] chronicle.old.me.0 }
    ensures seat { (chronicle.new.table_id ≡ chronicle.old.table_id) × (chronicle.new.me.1 ≡ chronicle.old.me.1) }
    ensures chronicle { IsChronicle T.concerns chronicle.new.me.0 × (chronicle.new.me.0.since ≡ chronicle.old.me.0.since ++ item.now ∷ []) }
{
    append::<T, E>(table, chronicle, item);
}

/// Appends an item of which the given share still has to tell.
pub(crate) fn append_one<T: Item, B: Run<T>, E: Next<T>>(
    table: &HistoryTable<T>,
    chronicle: &mut HistorySeat<T>,
    item: &T,
    a: &mut Share<T, B>,
)
    requires seat { IsAt table.now chronicle.old × (table.now.shared.table_id ≡ B.table) }
    requires room { length table.now.shared.key.value.items + length chronicle.old.me.0.since < 2 ^ 62 }
    requires item { E.item ≡ Some item.now }
    requires ready { IsReady T.concerns item.now (numbers (a.old ∷ [])) chronicle.old.me.0 }
    requires shares { AllKnow chronicle.old.me.0.since (a.old ∷ []) }
    ensures seat { (chronicle.new.table_id ≡ chronicle.old.table_id) × (chronicle.new.me.1 ≡ chronicle.old.me.1) }
    ensures chronicle { IsChronicle T.concerns chronicle.new.me.0 × (chronicle.new.me.0.since ≡ chronicle.old.me.0.since ++ item.now ∷ []) }
    ensures a { a.new ≡ knowing (chronicle.old.me.0.since ++ item.now ∷ []) a.old }
{
    tell_next::<T, E>(table, chronicle, item, a.number, &mut a.seat);
    append_told::<T, E>(table, chronicle, item);
    catch_up(table, chronicle, &mut a.seat);
}

/// The same with two shares.
pub(crate) fn append_two<T: Item, B: Run<T>, E: Next<T>>(
    table: &HistoryTable<T>,
    chronicle: &mut HistorySeat<T>,
    item: &T,
    a: &mut Share<T, B>,
    b: &mut Share<T, B>,
)
    requires seat { IsAt table.now chronicle.old × (table.now.shared.table_id ≡ B.table) }
    requires room { length table.now.shared.key.value.items + length chronicle.old.me.0.since < 2 ^ 62 }
    requires item { E.item ≡ Some item.now }
    requires ready { IsReady T.concerns item.now (numbers (a.old ∷ b.old ∷ [])) chronicle.old.me.0 }
    requires differ { AllDiffer (numbers (a.old ∷ b.old ∷ [])) }
    requires shares { AllKnow chronicle.old.me.0.since (a.old ∷ b.old ∷ []) }
    ensures seat { (chronicle.new.table_id ≡ chronicle.old.table_id) × (chronicle.new.me.1 ≡ chronicle.old.me.1) }
    ensures chronicle { IsChronicle T.concerns chronicle.new.me.0 × (chronicle.new.me.0.since ≡ chronicle.old.me.0.since ++ item.now ∷ []) }
    ensures a { a.new ≡ knowing (chronicle.old.me.0.since ++ item.now ∷ []) a.old }
    ensures b { b.new ≡ knowing (chronicle.old.me.0.since ++ item.now ∷ []) b.old }
{
    tell_next::<T, E>(table, chronicle, item, a.number, &mut a.seat);
    append_one::<T, B, E>(table, chronicle, item, b);
    catch_up(table, chronicle, &mut a.seat);
}

/// The same with three.
pub(crate) fn append_three<T: Item, B: Run<T>, E: Next<T>>(
    table: &HistoryTable<T>,
    chronicle: &mut HistorySeat<T>,
    item: &T,
    a: &mut Share<T, B>,
    b: &mut Share<T, B>,
    c: &mut Share<T, B>,
)
    requires seat { IsAt table.now chronicle.old × (table.now.shared.table_id ≡ B.table) }
    requires room { length table.now.shared.key.value.items + length chronicle.old.me.0.since < 2 ^ 62 }
    requires item { E.item ≡ Some item.now }
    requires ready { IsReady T.concerns item.now (numbers (a.old ∷ b.old ∷ c.old ∷ [])) chronicle.old.me.0 }
    requires differ { AllDiffer (numbers (a.old ∷ b.old ∷ c.old ∷ [])) }
    requires shares { AllKnow chronicle.old.me.0.since (a.old ∷ b.old ∷ c.old ∷ []) }
    ensures seat { (chronicle.new.table_id ≡ chronicle.old.table_id) × (chronicle.new.me.1 ≡ chronicle.old.me.1) }
    ensures chronicle { IsChronicle T.concerns chronicle.new.me.0 × (chronicle.new.me.0.since ≡ chronicle.old.me.0.since ++ item.now ∷ []) }
    ensures a { a.new ≡ knowing (chronicle.old.me.0.since ++ item.now ∷ []) a.old }
    ensures b { b.new ≡ knowing (chronicle.old.me.0.since ++ item.now ∷ []) b.old }
    ensures c { c.new ≡ knowing (chronicle.old.me.0.since ++ item.now ∷ []) c.old }
{
    tell_next::<T, E>(table, chronicle, item, a.number, &mut a.seat);
    append_two::<T, B, E>(table, chronicle, item, b, c);
    catch_up(table, chronicle, &mut a.seat);
}
