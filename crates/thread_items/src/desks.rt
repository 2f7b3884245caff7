// The desk with the items of all passes.
ghost use Rattle.std.specs.Prelude.{◌≡◌, ◌+◌, ◌∷◌, [], None, Some, slice_get};
ghost use Rattle.thread_board.specs.Items.{AllOf, IsRising, IsWithin};
ghost use Rattle.thread_history.specs.Rules.{AllDiffer};
ghost use Rattle.thread_board.specs.declared.views.PassItem.{PassItem as AnItem};
ghost use Rattle.thread_items.specs.Items.{AreTrueItems, IsTrueItem};
ghost use Rattle.thread_items.specs.Places.{entry_in, steps_in};
ghost use Rattle.thread_items.specs.declared.items.LookItem.{LookItem as ALook};

use crate::items::{Came, LookItem};
use base_types::Entry;
use edge_disk::Disk;
use std::marker::Model;
use thread_board::{Bench, Fresh, Line, Pass, PassItem, Slate, Slip};
use thread_desk_stables::{Board, Desk};

/// What lies under the history's lock of a board: the desk, with the side that writes the items of all passes. Each item is true of the desk's
/// history and of its stop.
#[derive(Drop)]
pub struct ItemDesk<D: Disk, C: Line, B: Board<D> + Bench> {
    pub desk: Desk<D, B>,
    pub slip: Slip<C, LookItem, B>,
}

impl<D: Disk, C: Line, B: Board<D> + Bench> Model for ItemDesk<D, C, B> {
    ghost use Rattle.thread_items.specs.Items.{AreTrueItems, Itemized};

    ghost Value = { Itemized D C };

    ghost view = { λ d. record { desk = d.desk; noting = d.slip } };

    ghost invariant = { λ d. AreTrueItems B.terms.told B.begin d.desk.noted.entries d.desk.stop d.slip.items };
}

/// The entry of the step that an item tells, which is true of the desk's history; none where it tells none.
fn entry_at<D: Disk, B: Board<D>>(desk: &Desk<D, B>, item: &LookItem) -> Option<Entry>
    ensures { IsTrueItem B.terms.told B.begin desk.now.noted.entries desk.now.stop item.now → result ≡ entry_in item.now.came }
{
    match &item.came {
        Came::Idle(_) | Came::Stopped(_) => None,
        Came::Made(_) | Came::StoppedBehind(_, _) => {
            let entry = desk.notes.entries().get(item.place as usize)?;
            Some(*entry)
        }
    }
}

impl<D: Disk, C: Line, B: Board<D> + Bench> ItemDesk<D, C, B> {
    /// A desk in which no item is noted.
    pub fn open(desk: Desk<D, B>, slip: Slip<C, LookItem, B>) -> ItemDesk<D, C, B>
        requires { slip.items ≡ [] }
        ensures { result ≡ record { desk = desk; noting = slip } }
    {
        ItemDesk { desk, slip }
    }

    /// Something that may draw a pass. One step at the table.
    pub fn fresh(&mut self, slate: &Slate<C, LookItem, B>) -> Fresh<C, LookItem, B>
        ensures { self.new ≡ self.old }
    {
        self.slip.fresh(slate)
    }

    /// The entry of the step that this item of a pass tells, by its place; none where it tells none, or the pass has fewer items. Five steps at the table.
    pub fn entry_of(
        &mut self,
        slate: &Slate<C, LookItem, B>,
        pass: &mut Pass<C, LookItem, B>,
        at: usize,
    ) -> Option<Entry>
        ensures desk { self.new ≡ self.old }
        ensures pass { pass.new ≡ pass.old }
        ensures entry { (x : AnItem ALook) → slice_get pass.old.items at ≡ Some x → result ≡ entry_in x.item.came }
        ensures none { slice_get pass.old.items at ≡ None → result ≡ None }
    {
        self.slip.tell(slate, pass);
        let noted = pass.items().get(at)?;
        entry_at(&self.desk, &noted.item)
    }

    /// A pass comes back. Each of its items is true of the desk's history and of its stop; they are of its number, and stand among all items, in
    /// which each ends before each later one starts. No pass of its number came back before.
    pub fn take_back(
        &mut self,
        slate: &Slate<C, LookItem, B>,
        pass: Pass<C, LookItem, B>,
    ) -> Vec<PassItem<LookItem>>
        ensures items { result.items ≡ pass.items }
        ensures are_true { AreTrueItems B.terms.told B.begin self.old.desk.noted.entries self.old.desk.stop pass.items }
        ensures number { AllOf pass.number pass.items }
        ensures within { IsWithin pass.items self.old.noting.items }
        ensures rising { IsRising (λ i. i.place) (λ i. i.place + steps_in i.came) self.old.noting.items }
        ensures back { self.new.noting.back ≡ pass.number ∷ self.old.noting.back }
        ensures once { AllDiffer self.new.noting.back }
        ensures others { (self.new.desk ≡ self.old.desk) × (self.new.noting.items ≡ self.old.noting.items) × (self.new.noting.commits ≡ self.old.noting.commits) }
    {
        self.slip.take_back(slate, pass)
    }

    /// The desk, and the side that wrote the items.
    pub fn close(self) -> (Desk<D, B>, Slip<C, LookItem, B>)
        ensures parts { (result.0 ≡ self.desk) × (result.1 ≡ self.noting) }
        ensures are_true { AreTrueItems B.terms.told B.begin self.desk.noted.entries self.desk.stop self.noting.items }
    {
        let ItemDesk { desk, slip } = self;
        (desk, slip)
    }
}
