//! A history with its items.
ghost use Rattle.std.specs.Prelude.{◌≡◌, ◌+◌, ◌<◌, ◌≤◌, ◌^◌, ◌++◌, ◌∷◌, [], length, vec_len, vec_capacity};
ghost use mathlib.Core.List.{IsPrefix};
ghost use Rattle.thread_history.specs.Rules.{concerning};
ghost use Rattle.thread_history.specs.Given.{AllGrew, AllHave, AreThoseOf, knowing};

use crate::authorities::HistoryAuthority;
use crate::closing::Closing;
use crate::items::Item;
use crate::shares::{Run, Share};
use std::marker::Model;

/// The history of a run. Contracts see the items after the kept ones, and how many more have room.
#[derive(Drop)]
pub struct Chronicle<T: Item, B: Run<T>> {
    history: Vec<T>,
    room: usize,
    authority: HistoryAuthority<T, B>,
}

impl<T: Item, B: Run<T>> Model for Chronicle<T, B> {
    ghost use Rattle.std.specs.Prelude.{◌≡◌, ◌+◌, ◌<◌, ◌≤◌, ◌^◌, ◌++◌, vec_len, vec_capacity};
    ghost use Rattle.thread_history.specs.Sides.{Log};

    ghost Value = { Log T };

    ghost view = { λ c. record { since = c.authority; room = c.room } };

    ghost invariant = { λ c. (c.history.items ≡ B.kept ++ c.authority) × (vec_len c.history + c.room ≤ vec_capacity c.history) × (vec_len c.history + c.room < 2 ^ 62) };
}

/// Puts the item last where there is room, and answers its place.
fn put_last<T: Item>(history: &mut Vec<T>, room: &mut usize, item: T) -> u64
    requires { (0 < room.old) × (vec_len history.old + room.old ≤ vec_capacity history.old) }
    ensures place { result ≡ vec_len history.old }
    ensures history { history.new.items ≡ history.old.items ++ item ∷ [] }
    ensures room { (room.new + 1 ≡ room.old) × (vec_capacity history.new ≡ vec_capacity history.old) }
{
    let place = history.len() as u64;
    history.push_reserved(item);
    *room -= 1;
    place
}

impl<T: Item, B: Run<T>> Chronicle<T, B> {
    pub(crate) fn of(
        history: Vec<T>,
        room: usize,
        authority: HistoryAuthority<T, B>,
    ) -> Chronicle<T, B>
        requires { (history.items ≡ B.kept ++ authority) × (vec_len history + room ≤ vec_capacity history) × (vec_len history + room < 2 ^ 62) }
        ensures { result ≡ record { since = authority; room = room } }
    {
        Chronicle {
            history,
            room,
            authority,
        }
    }

    /// How many items have room.
    pub fn room(&self) -> usize
        ensures { result ≡ self.now.room }
    {
        self.room
    }

    /// Tells the share the present history. No item after those that it knew concerns it. Six steps at the table.
    pub fn note(&mut self, share: &mut Share<T, B>)
        ensures chronicle { self.new ≡ self.old }
        ensures share { share.new ≡ knowing self.old.since share.old }
        ensures begins { IsPrefix share.old.since self.old.since }
        ensures quiet { concerning T.concerns share.old.number share.old.since ≡ concerning T.concerns share.old.number self.old.since }
    {
        self.authority.note(share);
    }

    /// Appends an item that touches no entity, and answers its place in the whole history. One step at the table.
    #[tactic(auto, using(crate::proofs::Ready::among_those))]
    pub fn append_alone(&mut self, item: T) -> u64
        requires room { 0 < self.old.room }
        requires shares { AreThoseOf T.touches item [] }
        ensures place { result ≡ length B.kept + length self.old.since }
        ensures chronicle { (self.new.since ≡ self.old.since ++ item ∷ []) × (self.new.room + 1 ≡ self.old.room) }
    {
        self.authority.append_alone(&item);
        put_last(&mut self.history, &mut self.room, item)
    }

    /// Appends an item that touches one number, whose share is given, and answers its place in the whole history. Afterwards the share
    /// knows the history with the item, and its list grew by it where the item concerns it. At most twelve steps at the table.
    #[tactic(auto, using(crate::proofs::Ready::among_those))]
    pub fn append_with_one(&mut self, item: T, a: &mut Share<T, B>) -> u64
        requires room { 0 < self.old.room }
        requires shares { AreThoseOf T.touches item (a.old ∷ []) }
        ensures place { result ≡ length B.kept + length self.old.since }
        ensures chronicle { (self.new.since ≡ self.old.since ++ item ∷ []) × (self.new.room + 1 ≡ self.old.room) }
        ensures a { a.new ≡ knowing self.new.since a.old }
        ensures quiet { AllHave T.concerns self.old.since (a.old ∷ []) }
        ensures lists { AllGrew T.concerns item self.new.since (a.old ∷ []) }
    {
        self.authority.append_with_one(&item, a);
        put_last(&mut self.history, &mut self.room, item)
    }

    /// The same with two numbers.
    #[tactic(auto, using(crate::proofs::Ready::among_those))]
    pub fn append_with_two(&mut self, item: T, a: &mut Share<T, B>, b: &mut Share<T, B>) -> u64
        requires room { 0 < self.old.room }
        requires shares { AreThoseOf T.touches item (a.old ∷ b.old ∷ []) }
        ensures place { result ≡ length B.kept + length self.old.since }
        ensures chronicle { (self.new.since ≡ self.old.since ++ item ∷ []) × (self.new.room + 1 ≡ self.old.room) }
        ensures a { a.new ≡ knowing self.new.since a.old }
        ensures b { b.new ≡ knowing self.new.since b.old }
        ensures quiet { AllHave T.concerns self.old.since (a.old ∷ b.old ∷ []) }
        ensures lists { AllGrew T.concerns item self.new.since (a.old ∷ b.old ∷ []) }
    {
        self.authority.append_with_two(&item, a, b);
        put_last(&mut self.history, &mut self.room, item)
    }

    /// The same with three.
    #[tactic(auto, using(crate::proofs::Ready::among_those))]
    pub fn append_with_three(
        &mut self,
        item: T,
        a: &mut Share<T, B>,
        b: &mut Share<T, B>,
        c: &mut Share<T, B>,
    ) -> u64
        requires room { 0 < self.old.room }
        requires shares { AreThoseOf T.touches item (a.old ∷ b.old ∷ c.old ∷ []) }
        ensures place { result ≡ length B.kept + length self.old.since }
        ensures chronicle { (self.new.since ≡ self.old.since ++ item ∷ []) × (self.new.room + 1 ≡ self.old.room) }
        ensures a { a.new ≡ knowing self.new.since a.old }
        ensures b { b.new ≡ knowing self.new.since b.old }
        ensures c { c.new ≡ knowing self.new.since c.old }
        ensures quiet { AllHave T.concerns self.old.since (a.old ∷ b.old ∷ c.old ∷ []) }
        ensures lists { AllGrew T.concerns item self.new.since (a.old ∷ b.old ∷ c.old ∷ []) }
    {
        self.authority.append_with_three(&item, a, b, c);
        put_last(&mut self.history, &mut self.room, item)
    }

    /// The chronicle, to which the shares come back.
    pub fn closing(self) -> Closing<T, B>
        ensures { (result.since ≡ self.since) × (result.back ≡ []) }
    {
        let Chronicle {
            history,
            room: _,
            authority,
        } = self;
        Closing::of(history, authority.closing())
    }

    /// The whole history, the kept items included. The shares are given up.
    pub fn close(self, shares: Vec<Share<T, B>>) -> Vec<T>
        ensures { result.items ≡ B.kept ++ self.since }
    {
        let Chronicle {
            history,
            room: _,
            authority: _,
        } = self;
        drop(shares);
        history
    }
}
