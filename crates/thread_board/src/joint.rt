//! A list of records under one lock and a history under another, and what whoever holds both knows of them.
ghost use Rattle.std.specs.Prelude.{◌≡◌, ◌+◌, ◌<◌, ◌^◌, ◌++◌, ◌∷◌, [], true, false, length, OnErr, IfOk};
ghost use Rattle.thread_board.specs.Lines.{has_stop};
ghost use Rattle.thread_history.specs.Given.{AreThoseOf, knowing};

use crate::lines::{Line, Placed};
use crate::slates::{Bench, Slate};
use crate::slips::Slip;
use crate::tills::Till;
use std::alloc::AllocError;
use std::marker::{Brand, Model, PhantomData};
use thread_history::items::Item;
use thread_history::{Chronicle, Run, Share};

/// Names what a history records, and what was recorded before the table was made.
pub trait Recorded<H, C>: Run<H> + Bench {
    ghost use Rattle.std.specs.Prelude.{List};

    ghost commits: { List H → List C };

    ghost recorded: { List C };
}

impl<H, C> Recorded<H, C> for Brand {
    ghost use Rattle.std.specs.Prelude.{[]};

    ghost commits = { λ es. [] };

    ghost recorded = { [] };
}

/// A list of records, as a small store, with the side that writes commits. It lies under a lock.
#[derive(Drop)]
pub struct Shelf<C: Line + Drop, T: Placed, H: Item, B: Recorded<H, C>> {
    records: Vec<C>,
    till: Till<C, T, B>,
    of: PhantomData<H>,
}

impl<C: Line + Drop, T: Placed, H: Item, B: Recorded<H, C>> Model for Shelf<C, T, H, B> {
    ghost use Rattle.std.specs.Prelude.{◌≡◌, ◌++◌};
    ghost use Rattle.thread_board.specs.Lines.{commits_of};
    ghost use Rattle.thread_board.specs.Sides.{Kept};

    ghost Value = { Kept C };

    ghost view = { λ s. record { records = s.records.items; lines = s.till } };

    ghost invariant = { λ s. s.records.items ≡ B.recorded ++ commits_of C.stops s.till };
}

/// A history with the side that writes items. It lies under a lock of its own.
#[derive(Drop)]
pub struct Desk<C: Line, T: Placed, H: Item, B: Recorded<H, C>> {
    chronicle: Chronicle<H, B>,
    slip: Slip<C, T, B>,
}

impl<C: Line, T: Placed, H: Item, B: Recorded<H, C>> Model for Desk<C, T, H, B> {
    ghost use Rattle.std.specs.Prelude.{◌≡◌, ◌++◌};
    ghost use Rattle.thread_board.specs.Lines.{commits_of};
    ghost use Rattle.thread_board.specs.Sides.{Written};

    ghost Value = { Written C T H };

    ghost view = { λ d. record { log = d.chronicle; noting = d.slip } };

    ghost invariant = { λ d. B.commits (B.kept ++ d.chronicle.since) ≡ B.recorded ++ commits_of C.stops d.slip.commits };
}

impl<C: Line + Drop, T: Placed, H: Item, B: Recorded<H, C>> Shelf<C, T, H, B> {
    /// The records of before, with a side that has no line.
    pub fn new(records: Vec<C>, till: Till<C, T, B>) -> Shelf<C, T, H, B>
        requires { (records.items ≡ B.recorded) × (till ≡ []) }
        ensures { result ≡ record { records = records.items; lines = [] } }
    {
        Shelf {
            records,
            till,
            of: PhantomData,
        }
    }

    /// Whether a stop was noted.
    pub fn is_stopped(&self) -> bool
        ensures { result ≡ has_stop C.stops self.now.lines }
    {
        self.till.is_stopped()
    }

    /// How many lines there are since the table was made.
    pub fn count(&mut self, slate: &Slate<C, T, B>) -> u64
        ensures shelf { self.new ≡ self.old }
        ensures count { result ≡ length self.old.lines }
    {
        self.till.count(slate)
    }

    /// Shows whoever holds both that the records are those of the history.
    pub fn audit(&mut self, slate: &Slate<C, T, B>, desk: &mut Desk<C, T, H, B>)
        ensures shelf { self.new ≡ self.old }
        ensures desk { desk.new ≡ desk.old }
        ensures records { self.old.records ≡ B.commits (B.kept ++ desk.old.log.since) }
        ensures lines { desk.old.noting.commits ≡ self.old.lines }
    {
        self.till.audit(slate, &mut desk.slip);
    }

    /// A record more, and the item of the history that tells of it. For want of memory nothing is done.
    pub fn commit(
        &mut self,
        slate: &Slate<C, T, B>,
        desk: &mut Desk<C, T, H, B>,
        item: H,
        line: C,
    ) -> Result<u64, AllocError>
        requires goes_on { (has_stop C.stops self.old.lines ≡ false) × (C.stops line ≡ false) }
        requires room { (length self.old.lines < 2 ^ 62) × (0 < desk.old.log.room) }
        requires alone { AreThoseOf H.touches item [] }
        requires tells { B.commits (B.kept ++ (desk.old.log.since ++ item ∷ [])) ≡ B.commits (B.kept ++ desk.old.log.since) ++ line ∷ [] }
        ensures records { IfOk result (λ place. self.new ≡ record { records = self.old.records ++ line ∷ []; lines = self.old.lines ++ line ∷ [] }) }
        ensures history { IfOk result (λ place. desk.new.log.since ≡ desk.old.log.since ++ item ∷ []) }
        ensures err { OnErr result ((self.new ≡ self.old) × (desk.new ≡ desk.old)) }
    {
        self.records.reserve(1)?;
        self.till.commit(slate, &mut desk.slip, &line);
        self.records.push_reserved(line);
        Ok(desk.chronicle.append_alone(item))
    }

    /// Notes the stop, after which there is no commit.
    pub fn stop(&mut self, slate: &Slate<C, T, B>, desk: &mut Desk<C, T, H, B>, line: &C)
        requires goes_on { (has_stop C.stops self.old.lines ≡ false) × (C.stops line.now ≡ true) }
        requires room { length self.old.lines < 2 ^ 62 }
        ensures shelf { self.new ≡ record { records = self.old.records; lines = self.old.lines ++ line.now ∷ [] } }
        ensures desk { (desk.new.log ≡ desk.old.log) × (desk.new.noting.commits ≡ self.new.lines) }
    {
        self.till.commit(slate, &mut desk.slip, line);
    }

    /// The records and the history that tells of them.
    pub fn close(self, slate: &Slate<C, T, B>, desk: Desk<C, T, H, B>) -> (Vec<C>, Vec<H>)
        ensures history { result.1.items ≡ B.kept ++ desk.log.since }
        ensures records { result.0.items ≡ B.commits result.1.items }
    {
        let mut shelf = self;
        let mut desk = desk;
        shelf.audit(slate, &mut desk);
        let Shelf {
            records,
            till: _,
            of: _,
        } = shelf;
        let Desk { chronicle, slip: _ } = desk;
        (records, chronicle.closing().into_history())
    }
}

impl<C: Line, T: Placed, H: Item, B: Recorded<H, C>> Desk<C, T, H, B> {
    /// A history to which nothing was added yet, with a side that knows no line.
    pub fn new(chronicle: Chronicle<H, B>, slip: Slip<C, T, B>) -> Desk<C, T, H, B>
        requires history { (chronicle.since ≡ []) × (B.commits B.kept ≡ B.recorded) }
        requires side { slip.commits ≡ [] }
        ensures { result ≡ record { log = chronicle; noting = slip } }
    {
        Desk { chronicle, slip }
    }

    /// An item of the history that tells of no record and touches one number, whose share is given. Answers its place.
    pub fn append(&mut self, item: H, share: &mut Share<H, B>) -> u64
        requires room { 0 < self.old.log.room }
        requires shares { AreThoseOf H.touches item (share.old ∷ []) }
        requires tells { B.commits (B.kept ++ (self.old.log.since ++ item ∷ [])) ≡ B.commits (B.kept ++ self.old.log.since) }
        ensures place { result ≡ length B.kept + length self.old.log.since }
        ensures history { self.new.log.since ≡ self.old.log.since ++ item ∷ [] }
        ensures share { share.new ≡ knowing self.new.log.since share.old }
        ensures noting { self.new.noting ≡ self.old.noting }
    {
        self.chronicle.append_with_one(item, share)
    }

    /// How many items of the history have room.
    pub fn room(&self) -> usize
        ensures { result ≡ self.now.log.room }
    {
        self.chronicle.room()
    }
}
