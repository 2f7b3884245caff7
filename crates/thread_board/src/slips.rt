//! The side that stands beside a chronicle: it writes all items, and has the ledger's book.
ghost use Rattle.std.specs.Prelude.{◌≡◌, ◌↔◌, ◌<◌, ◌≤◌, ◌^◌, ◌++◌, ◌∷◌, [], false, true, length, MatchBool};
ghost use Rattle.thread_board.specs.Items.{AllOf, Each, IsRising, IsWithin};
ghost use Rattle.thread_board.specs.Lines.{has_stop};
ghost use Rattle.thread_history.specs.Rules.{AllDiffer};

use crate::lines::{Line, Placed};
use crate::notices::StopNote;
use crate::passes::{Fresh, MOST_COUNT, Pass};
use crate::seats::{ITEMS, add_item, cut_note, look};
use crate::sides::{show_items, take_pass, tell_items};
use crate::slates::{Bench, Slate};
use crate::views::{BoardSeat, PassItem};
use std::marker::{Brand, Model, PhantomData};
use std::sync::ledger::Book;

/// The side that writes items. Contracts see all items, the lines of the store that it knows, and the numbers of the passes that
/// came back. Each item ends before each later one starts.
#[derive(Drop)]
pub struct Slip<C: Line, T: Placed, B: Bench> {
    pub(crate) stopped: bool,
    pub(crate) seat: BoardSeat<C, T>,
    pub(crate) book: Book<B>,
    pub(crate) of: PhantomData<B>,
}

impl<C: Line, T: Placed, B: Bench> Model for Slip<C, T, B> {
    ghost use Rattle.std.specs.Prelude.{◌≡◌, [], length};
    ghost use Rattle.thread_board.specs.declared.views.Role.TheVariants.{Items};
    ghost use Rattle.thread_board.specs.Items.{IsRising};
    ghost use Rattle.thread_board.specs.Lines.{has_stop};
    ghost use Rattle.thread_board.specs.Sides.{Noting};

    ghost Value = { Noting C T };

    ghost view = { λ s. record { items = s.seat.me.0.items; commits = s.seat.me.0.commits; back = s.seat.me.0.back } };

    ghost invariant = { λ s. (s.seat.table_id ≡ B.slate) × (s.seat.me.1 ≡ []) × (s.seat.me.0.role ≡ Items) × IsRising T.starts T.ends s.seat.me.0.items
        × (s.stopped ≡ has_stop C.stops s.seat.me.0.commits) × (s.book.total ≡ length s.seat.me.0.commits) };
}

impl<C: Line, T: Placed, B: Bench> Slip<C, T, B> {
    /// Whether a stop is among the lines that it knows.
    pub fn is_stopped(&self) -> bool
        ensures { result ≡ has_stop C.stops self.now.commits }
    {
        self.stopped
    }

    /// Something that may draw a pass. One step at the table.
    pub fn fresh(&mut self, slate: &Slate<C, T, B>) -> Fresh<C, T, B>
        ensures { self.new ≡ self.old }
    {
        Fresh::of(cut_note(&slate.table, &mut self.seat))
    }

    /// Tells the pass all items, of which each ends before each later one starts. Its own stand among them, and are of its number. Five steps at the table.
    pub fn tell(&mut self, slate: &Slate<C, T, B>, pass: &mut Pass<C, T, B>)
        ensures slip { self.new ≡ self.old }
        ensures pass { pass.new ≡ pass.old }
        ensures within { IsWithin pass.old.items self.old.items }
        ensures number { AllOf pass.old.number pass.old.items }
        ensures rising { IsRising T.starts T.ends self.old.items }
    {
        show_items(&slate.table, &mut self.seat, &mut pass.seat);
        tell_items(&slate.table, &mut self.seat, &mut pass.seat);
    }

    /// Whether there are 2^62 items, and no more can be noted. One step at the table.
    pub fn is_full(&mut self, slate: &Slate<C, T, B>) -> bool
        ensures slip { self.new ≡ self.old }
        ensures full { (result ≡ true) ↔ (2 ^ 62 ≤ length self.old.items) }
    {
        look(&slate.table, &mut self.seat, ITEMS) >= MOST_COUNT
    }

    /// Notes an item of the pass, after all others. False where there are 2^62 items, and then nothing is noted. Six steps at the
    /// table.
    pub fn put(&mut self, slate: &Slate<C, T, B>, pass: &mut Pass<C, T, B>, item: T) -> bool
        requires room { 0 < pass.old.room }
        requires later { Each (λ x. T.ends x.item ≤ T.starts item) self.old.items }
        ensures items { MatchBool result (self.new.items ≡ self.old.items ++ record { pass = pass.old.number; item = item } ∷ []) (self.new.items ≡ self.old.items) }
        ensures pass { MatchBool result (pass.new.items ≡ pass.old.items ++ record { pass = pass.old.number; item = item } ∷ []) (pass.new.items ≡ pass.old.items) }
        ensures number { pass.new.number ≡ pass.old.number }
        ensures others { (self.new.commits ≡ self.old.commits) × (self.new.back ≡ self.old.back) }
        ensures full { result ≡ false → 2 ^ 62 ≤ length self.old.items }
    {
        if show_items(&slate.table, &mut self.seat, &mut pass.seat) >= MOST_COUNT {
            return false;
        }
        let line = PassItem {
            pass: pass.number,
            item,
        };
        add_item::<C, T, Brand>(&slate.table, &mut self.seat, &line);
        tell_items(&slate.table, &mut self.seat, &mut pass.seat);
        pass.items.push_reserved(line);
        true
    }

    /// A pass comes back, and its items, which stand among all as at `tell`. No pass of its number came back before. Three steps at the table.
    pub fn take_back(&mut self, slate: &Slate<C, T, B>, pass: Pass<C, T, B>) -> Vec<PassItem<T>>
        ensures result { result.items ≡ pass.items }
        ensures back { self.new.back ≡ pass.number ∷ self.old.back }
        ensures once { AllDiffer self.new.back }
        ensures within { IsWithin pass.items self.old.items }
        ensures number { AllOf pass.number pass.items }
        ensures rising { IsRising T.starts T.ends self.old.items }
        ensures others { (self.new.items ≡ self.old.items) × (self.new.commits ≡ self.old.commits) }
    {
        let Pass {
            number,
            items,
            seat,
            of: _,
        } = pass;
        take_pass(&slate.table, &mut self.seat, seat, number);
        items
    }

    /// A note of the stop, for a cell that it leaves with an open wish. One step at the table.
    pub fn stop_note(&mut self, slate: &Slate<C, T, B>) -> StopNote<C, T, B>
        requires { has_stop C.stops self.old.commits ≡ true }
        ensures slip { self.new ≡ self.old }
        ensures note { result ≡ self.old.commits }
    {
        StopNote::of(cut_note(&slate.table, &mut self.seat))
    }
}
