//! A history without a list of its own, for whoever keeps the items elsewhere.
ghost use Rattle.std.specs.Prelude.{◌≡◌, ◌+◌, ◌<◌, ◌^◌, ◌++◌, ◌∷◌, [], length};
ghost use mathlib.Core.List.{IsPrefix};
ghost use Rattle.thread_history.specs.Rules.{concerning};
ghost use Rattle.thread_history.specs.Given.{AllGrew, AllHave, AreAmong, knowing};
ghost use Rattle.thread_history.specs.Seats.{IsAt, IsChronicle};

use crate::appending::{append_one, append_three, append_told, append_two};
use crate::closing::ClosingAuthority;
use crate::items::Item;
use crate::shares::{Run, Share};
use crate::sides::hear;
use crate::views::{HistorySeat, HistoryTable};
use std::marker::{Brand, Model, PhantomData};

/// The one side that appends to a history. It keeps no item: whoever has it keeps them. Contracts see the items after the kept ones.
#[derive(Drop)]
pub struct HistoryAuthority<T: Item, B: Run<T>> {
    table: HistoryTable<T>,
    seat: HistorySeat<T>,
    of: PhantomData<B>,
}

impl<T: Item, B: Run<T>> Model for HistoryAuthority<T, B> {
    ghost use Rattle.std.specs.Prelude.{◌≡◌, List, []};
    ghost use Rattle.thread_history.specs.Seats.{IsAt, IsChronicle};

    ghost Value = { List T };

    ghost view = { λ a. a.seat.me.0.since };

    ghost invariant = { λ a. IsAt a.table a.seat × (a.table.shared.table_id ≡ B.table) × (a.table.shared.key.value.items ≡ B.kept) × (a.seat.me.1 ≡ []) × IsChronicle T.concerns a.seat.me.0 };
}

impl<T: Item, B: Run<T>> HistoryAuthority<T, B> {
    pub(crate) fn of(table: HistoryTable<T>, seat: HistorySeat<T>) -> HistoryAuthority<T, B>
        requires table { IsAt table seat × (table.shared.table_id ≡ B.table) × (table.shared.key.value.items ≡ B.kept) }
        requires seat { (seat.me.1 ≡ []) × IsChronicle T.concerns seat.me.0 }
        ensures { result ≡ seat.me.0.since }
    {
        HistoryAuthority {
            table,
            seat,
            of: PhantomData,
        }
    }

    /// Tells the share the present history. No item after those that it knew concerns it. Six steps at the table.
    pub fn note(&mut self, share: &mut Share<T, B>)
        ensures authority { self.new ≡ self.old }
        ensures share { share.new ≡ knowing self.old share.old }
        ensures begins { IsPrefix share.old.since self.old }
        ensures quiet { concerning T.concerns share.old.number share.old.since ≡ concerning T.concerns share.old.number self.old }
    {
        hear(&self.table, &mut self.seat, &mut share.seat);
    }

    /// Appends an item that concerns no number. One step at the table.
    #[tactic(auto, using(crate::proofs::Ready::ready_among))]
    pub fn append_alone(&mut self, item: &T)
        requires room { length B.kept + length self.old < 2 ^ 62 }
        requires shares { AreAmong T.concerns item.now [] }
        ensures authority { self.new ≡ self.old ++ item.now ∷ [] }
    {
        append_told::<T, Brand>(&self.table, &mut self.seat, item);
    }

    /// Appends an item that concerns at most the number whose share is given. Afterwards the share knows the history with the item, and
    /// its list grew by it where the item concerns it. At most twelve steps at the table.
    #[tactic(auto, using(crate::proofs::Ready::ready_among))]
    pub fn append_with_one(&mut self, item: &T, a: &mut Share<T, B>)
        requires room { length B.kept + length self.old < 2 ^ 62 }
        requires shares { AreAmong T.concerns item.now (a.old ∷ []) }
        ensures authority { self.new ≡ self.old ++ item.now ∷ [] }
        ensures a { a.new ≡ knowing self.new a.old }
        ensures quiet { AllHave T.concerns self.old (a.old ∷ []) }
        ensures lists { AllGrew T.concerns item.now self.new (a.old ∷ []) }
    {
        self.note(a);
        append_one::<T, B, Brand>(&self.table, &mut self.seat, item, a);
    }

    /// The same with two shares.
    #[tactic(auto, using(crate::proofs::Ready::ready_among))]
    pub fn append_with_two(&mut self, item: &T, a: &mut Share<T, B>, b: &mut Share<T, B>)
        requires room { length B.kept + length self.old < 2 ^ 62 }
        requires shares { AreAmong T.concerns item.now (a.old ∷ b.old ∷ []) }
        ensures authority { self.new ≡ self.old ++ item.now ∷ [] }
        ensures a { a.new ≡ knowing self.new a.old }
        ensures b { b.new ≡ knowing self.new b.old }
        ensures quiet { AllHave T.concerns self.old (a.old ∷ b.old ∷ []) }
        ensures lists { AllGrew T.concerns item.now self.new (a.old ∷ b.old ∷ []) }
    {
        self.note(a);
        self.note(b);
        append_two::<T, B, Brand>(&self.table, &mut self.seat, item, a, b);
    }

    /// The same with three.
    #[tactic(auto, using(crate::proofs::Ready::ready_among))]
    pub fn append_with_three(
        &mut self,
        item: &T,
        a: &mut Share<T, B>,
        b: &mut Share<T, B>,
        c: &mut Share<T, B>,
    )
        requires room { length B.kept + length self.old < 2 ^ 62 }
        requires shares { AreAmong T.concerns item.now (a.old ∷ b.old ∷ c.old ∷ []) }
        ensures authority { self.new ≡ self.old ++ item.now ∷ [] }
        ensures a { a.new ≡ knowing self.new a.old }
        ensures b { b.new ≡ knowing self.new b.old }
        ensures c { c.new ≡ knowing self.new c.old }
        ensures quiet { AllHave T.concerns self.old (a.old ∷ b.old ∷ c.old ∷ []) }
        ensures lists { AllGrew T.concerns item.now self.new (a.old ∷ b.old ∷ c.old ∷ []) }
    {
        self.note(a);
        self.note(b);
        self.note(c);
        append_three::<T, B, Brand>(&self.table, &mut self.seat, item, a, b, c);
    }

    /// The authority, to which the shares come back.
    pub fn closing(self) -> ClosingAuthority<T, B>
        ensures { (result.since ≡ self) × (result.back ≡ []) }
    {
        let HistoryAuthority { table, seat, of: _ } = self;
        ClosingAuthority::of(table, seat)
    }
}
