ghost use Rattle.std.specs.Prelude.{◌≡◌, ◌+◌, ◌<◌, [], List, IfSome};
ghost use Rattle.thread_board.specs.declared.tests.Mark.{Mark as MarkSeen};
ghost use Rattle.thread_board.specs.Items.{AreApart, IsRising};

use crate::joint::{Desk, Recorded, Shelf};
use crate::lines::{Line, Placed};
use crate::opened::Opened;
use crate::passes::{Fresh, MOST_COUNT, Pass};
use crate::passes_law;
use crate::slates::{Bench, Slate};
use crate::slips::Slip;
use crate::views::PassItem;
use std::alloc::Global;
use std::marker::{Brand, Model};
use std::sync::{Mutex, Wait};
use std::test::*;
use std::thread;
use std::thread::Threads;
use thread_history::items::Item;

/// An item that covers one place.
#[derive(Clone, Copy, PartialEq, Eq, Debug)]
struct Spot {
    place: u64,
}

impl Placed for Spot {
    ghost use Rattle.std.specs.Prelude.{◌+◌};

    ghost starts = { λ s. s.place };

    ghost ends = { λ s. s.place + 1 };
}

/// A record of an entity, or the stop.
#[derive(Clone, Copy, PartialEq, Eq, Debug)]
struct Mark {
    stops: bool,
    entity: u64,
}

impl Line for Mark {
    ghost stops = { λ m. m.stops };

    fn stops(&self) -> bool {
        self.stops
    }
}

/// The side that writes items, and the place after all of them. Contracts see that place.
#[derive(Drop)]
struct Journal<B: Bench> {
    next: u64,
    slip: Slip<Mark, Spot, B>,
}

impl<B: Bench> Model for Journal<B> {
    ghost use Rattle.std.specs.Prelude.{ℕ, ◌+◌, ◌≤◌};
    ghost use Rattle.thread_board.specs.Items.{Each};

    ghost Value = { ℕ };

    ghost view = { λ j. j.next };

    ghost invariant = { λ j. Each (λ x. x.item.place + 1 ≤ j.next) j.slip.items };
}

impl<B: Bench> Journal<B> {
    /// An item of the pass at the next place.
    fn put(&mut self, slate: &Slate<Mark, Spot, B>, pass: &mut Pass<Mark, Spot, B>) -> bool
        requires { 0 < pass.old.room }
    {
        if self.next == u64::MAX {
            return false;
        }
        let spot = Spot { place: self.next };
        if !self.slip.put(slate, pass, spot) {
            return false;
        }
        self.next += 1;
        true
    }

    /// Something that may draw a pass.
    fn fresh(&mut self, slate: &Slate<Mark, Spot, B>) -> Fresh<Mark, Spot, B> {
        self.slip.fresh(slate)
    }

    /// Two passes come back. Their items ascend, and are apart.
    fn finish(
        self,
        slate: &Slate<Mark, Spot, B>,
        a: Pass<Mark, Spot, B>,
        b: Pass<Mark, Spot, B>,
    ) -> (Vec<PassItem<Spot>>, Vec<PassItem<Spot>>)
        ensures ascend { IsRising (λ s. s.place) (λ s. s.place + 1) result.0.items × IsRising (λ s. s.place) (λ s. s.place + 1) result.1.items }
        ensures apart { AreApart (λ s. s.place) (λ s. s.place + 1) result.0.items result.1.items }
    {
        let Journal { next: _, mut slip } = self;
        let first = slip.take_back(slate, a);
        let second = slip.take_back(slate, b);
        passes_law::<Spot>();
        (first, second)
    }
}

/// A worker: it draws a pass and notes a hundred items. Where memory runs out, fewer.
fn work<B: Bench, R: Wait>(
    rt: &R,
    alloc: Global,
    slate: &Slate<Mark, Spot, B>,
    journal: &Mutex<Journal<B>>,
) -> Pass<Mark, Spot, B> {
    let fresh = journal.lock(rt).fresh(slate);
    let mut pass = fresh.into_pass(rt, alloc, slate);
    for _ in 0..100_u64 {
        if pass.reserve().is_ok() {
            journal.lock(rt).put(slate, &mut pass);
        }
    }
    pass
}

/// Two threads, each with a pass of its own. After the join the items of each ascend, and no place stands in both.
fn two_workers<B: Bench + Sync + Send, R: Threads + Wait + Sync>(
    rt: &R,
    alloc: Global,
    opened: Opened<Mark, Spot>,
) -> Option<(Vec<PassItem<Spot>>, Vec<PassItem<Spot>>)>
    requires name { (opened.slate ≡ B.slate) × (opened.ledger ≡ B.name) }
    requires whole { (B.all ≡ 1) × (B.parts ≡ 1) }
    ensures ascend { IfSome result (λ r. IsRising (λ s. s.place) (λ s. s.place + 1) r.0.items × IsRising (λ s. s.place) (λ s. s.place + 1) r.1.items) }
    ensures apart { IfSome result (λ r. AreApart (λ s. s.place) (λ s. s.place + 1) r.0.items r.1.items) }
{
    let (slate, _till, slip) = opened.named::<B>()?;
    let journal = Mutex::new(Journal { next: 0, slip });
    let (shared, table) = (&journal, &slate);
    let (a, b) = thread::join(
        rt,
        move || work(rt, alloc, table, shared),
        move || work(rt, alloc, table, shared),
    );
    Some(journal.into_inner().finish(&slate, a, b))
}

#[test]
fn items_of_two_threads_ascend_and_are_apart(rt: HostRuntime) -> Result<(), Fail> {
    let Ok(opened) = Opened::new(rt.alloc()) else {
        return Err(Fail::from("memory"));
    };
    let Some((a, b)) = two_workers::<Brand, HostRuntime>(&rt, rt.alloc(), opened) else {
        return Err(Fail::from("memory"));
    };
    assert!(rt; a.len() == 100 && b.len() == 100);
    assert!(rt; a[0].pass != b[0].pass && a[0].pass > 1 && b[0].pass > 1);
    let (mut i, mut j) = (0_usize, 0_usize);
    for place in 0..200_u64 {
        let of_a = i < 100 && a[i].item.place == place;
        let of_b = j < 100 && b[j].item.place == place;
        assert!(rt; of_a != of_b);
        if of_a { i += 1 } else { j += 1 }
    }
    Ok(())
}

/// A record as an item of a history. It touches no share.
impl Item for Mark {
    ghost use Rattle.std.specs.Prelude.{false};

    ghost touches = { λ m x. false };

    ghost concerns = { λ m x. false };

    ghost touches_these = { λ m x is. is };

    fn concerns(&self, _number: u64) -> bool {
        false
    }
}

/// Records under one lock, and a history of them under another.
#[derive(Drop)]
struct Board<B: Recorded<Mark, Mark>> {
    slate: Slate<Mark, Spot, B>,
    shelf: Mutex<Shelf<Mark, Spot, Mark, B>>,
    desk: Mutex<Desk<Mark, Spot, Mark, B>>,
}

/// A record more, in both. Not after a stop, and not where there is no room.
fn commit_both<B: Recorded<Mark, Mark>>(
    slate: &Slate<Mark, Spot, B>,
    shelf: &mut Shelf<Mark, Spot, Mark, B>,
    desk: &mut Desk<Mark, Spot, Mark, B>,
    entity: u64,
) -> bool
    requires each { (es : List MarkSeen) → B.commits es ≡ es }
{
    if shelf.is_stopped() || shelf.count(slate) >= MOST_COUNT || desk.room() == 0 {
        return false;
    }
    let mark = Mark {
        stops: false,
        entity,
    };
    shelf.commit(slate, desk, mark, mark).is_ok()
}

/// A stop, unless there was one.
fn stop_both<B: Recorded<Mark, Mark>>(
    slate: &Slate<Mark, Spot, B>,
    shelf: &mut Shelf<Mark, Spot, Mark, B>,
    desk: &mut Desk<Mark, Spot, Mark, B>,
) {
    if !shelf.is_stopped() && shelf.count(slate) < MOST_COUNT {
        let mark = Mark {
            stops: true,
            entity: 0,
        };
        shelf.stop(slate, desk, &mark);
    }
}

impl<B: Recorded<Mark, Mark>> Board<B> {
    /// A worker: it commits fifty records of an entity under both locks. Answers how many it did.
    fn record_some<R: Wait>(&self, rt: &R, entity: u64) -> u64
        requires each { (es : List MarkSeen) → B.commits es ≡ es }
    {
        let mut done = 0_u64;
        for _ in 0..50_u64 {
            let mut shelf = self.shelf.lock(rt);
            let mut desk = self.desk.lock(rt);
            if commit_both(&self.slate, &mut shelf, &mut desk, entity) {
                done = done.wrapping_add(1);
            }
        }
        done
    }

    /// A stop, after which no record is made.
    fn stop<R: Wait>(&self, rt: &R) {
        let mut shelf = self.shelf.lock(rt);
        let mut desk = self.desk.lock(rt);
        stop_both(&self.slate, &mut shelf, &mut desk);
    }

    /// The records, and the history that tells of just these.
    fn close(self) -> (Vec<Mark>, Vec<Mark>)
        ensures { result.0.items ≡ B.commits result.1.items }
    {
        let Board { slate, shelf, desk } = self;
        shelf.into_inner().close(&slate, desk.into_inner())
    }
}

/// Two threads commit, and then there is a stop. The records are those of the history, and how many each thread made.
fn two_recorders<B: Recorded<Mark, Mark> + Send + Sync, R: Threads + Wait + Sync>(
    rt: &R,
    alloc: Global,
    opened: Opened<Mark, Spot>,
    history: thread_history::Opened<Mark>,
) -> Option<(u64, u64, (Vec<Mark>, Vec<Mark>))>
    requires name { (opened.slate ≡ B.slate) × (opened.ledger ≡ B.name) }
    requires whole { (B.all ≡ 1) × (B.parts ≡ 1) }
    requires history { (history.table ≡ B.table) × (history.kept ≡ B.kept) }
    requires empty { (B.kept ≡ []) × (B.recorded ≡ []) }
    requires each { (es : List MarkSeen) → B.commits es ≡ es }
    ensures { IfSome result (λ r. r.2.0.items ≡ r.2.1.items) }
{
    let (slate, till, slip) = opened.named::<B>()?;
    let (chronicle, shares) = history.named::<B>(alloc).ok()?;
    drop(shares);
    let board = Board {
        slate,
        shelf: Mutex::new(Shelf::new(Vec::new(alloc), till)),
        desk: Mutex::new(Desk::new(chronicle, slip)),
    };
    let shared = &board;
    let (a, b) = thread::join(
        rt,
        move ||
            requires { (es : List MarkSeen) → B.commits es ≡ es }
        { shared.record_some(rt, 1) },
        move ||
            requires { (es : List MarkSeen) → B.commits es ≡ es }
        { shared.record_some(rt, 2) },
    );
    board.stop(rt);
    let late = board.record_some(rt, 3);
    Some((a, b.max(late), board.close()))
}

#[test]
fn records_of_two_threads_are_those_of_the_history(rt: HostRuntime) -> Result<(), Fail> {
    let (Ok(opened), Ok(history)) = (
        Opened::new(rt.alloc()),
        thread_history::Opened::new(rt.alloc(), Vec::new(rt.alloc()), 120),
    ) else {
        return Err(Fail::from("memory"));
    };
    let Some((a, b, (records, history))) = two_recorders::<Brand, HostRuntime>(
        &rt,
        rt.alloc(),
        opened,
        history,
    ) else {
        return Err(Fail::from("memory"));
    };
    assert!(rt; a == 50 && b == 50 && records.len() == 100 && history.len() == 100);
    let mut ones = 0_u64;
    for i in 0..100_usize {
        assert!(rt; records[i] == history[i] && !records[i].stops && records[i].entity < 3);
        if records[i].entity == 1 {
            ones = ones.wrapping_add(1);
        }
    }
    assert!(rt; ones == 50);
    Ok(())
}
