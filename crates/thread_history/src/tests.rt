ghost use Rattle.std.specs.Prelude.{◌≡◌, ◌<◌, ◌++◌, [], ◌∷◌, IfSome, length};

use crate::closing::ClosingAuthority;
use crate::examples::two_entries;
use crate::items::Item;
use crate::opened::{Opened, OpenedHistory};
use crate::order::{Numbered, put_in_order};
use crate::shares::Run;
use std::alloc::Global;
use std::marker::Brand;
use std::test::*;

#[test]
fn two_entries_stand_in_their_order(rt: HostRuntime) -> Result<(), Fail> {
    let Ok(opened) = Opened::new(rt.alloc(), Vec::new(rt.alloc()), 10) else {
        return Err(Fail::from("memory"));
    };
    let Some((p, q, history)) = two_entries::<Brand>(rt.alloc(), opened) else {
        return Err(Fail::from("memory"));
    };
    assert!(rt; p == 0 && q == 1 && history.len() == 2);
    Ok(())
}

/// A snapshot record of an entity, as a second kind of item.
#[derive(Clone, Copy)]
struct Record {
    entity: u64,
    version: u64,
}

impl Item for Record {
    ghost use Rattle.std.specs.Prelude.{◌==◌};

    ghost touches = { λ r x. r.entity == x };

    ghost concerns = { λ r x. r.entity == x };

    ghost touches_these = { λ r x is. is };

    fn concerns(&self, number: u64) -> bool {
        self.entity == number
    }
}

/// A record of 3 after a kept one, and then a record of 5. The share of 3 hears of it, and both come back.
fn two_records<B: Run<Record>>(
    alloc: Global,
    opened: Opened<Record>,
) -> Option<(u64, u64, Vec<Record>)>
    requires name { (opened.table ≡ B.table) × (opened.kept ≡ B.kept) }
    requires one { (length opened.kept ≡ 1) × (1 < opened.room) }
    ensures places { IfSome result (λ r. (r.0 ≡ 1) × (r.1 ≡ 2)) }
    ensures history { IfSome result (λ r. r.2.items ≡ B.kept ++ record { entity = 3; version = 7 } ∷ record { entity = 5; version = 2 } ∷ []) }
{
    let Ok((mut chronicle, mut shares)) = opened.named::<B>(alloc) else {
        return None;
    };
    let mut five = shares.remove(5);
    let mut three = shares.remove(3);
    let record = Record {
        entity: 3,
        version: 7,
    };
    let p = chronicle.append_with_one(record, &mut three);
    let record = Record {
        entity: 5,
        version: 2,
    };
    let q = chronicle.append_with_one(record, &mut five);
    chronicle.note(&mut three);
    let mut closing = chronicle.closing();
    closing.take_back(three);
    closing.take_back(five);
    drop(shares);
    Some((p, q, closing.into_history()))
}

#[test]
fn records_go_through_the_same_calls(rt: HostRuntime) -> Result<(), Fail> {
    let kept = vec![in rt.alloc();
        Record {
            entity: 3,
            version: 6
        },
    ]?;
    let Ok(opened) = Opened::new(rt.alloc(), kept, 2) else {
        return Err(Fail::from("memory"));
    };
    let Some((p, q, history)) = two_records::<Brand>(rt.alloc(), opened) else {
        return Err(Fail::from("memory"));
    };
    assert!(rt; p == 1 && q == 2 && history.len() == 3);
    assert!(rt; history[0].version == 6 && history[1].version == 7 && history[2].version == 2);
    Ok(())
}

/// A record of 3, of which the caller keeps no list, with the shares of 3 and 5 given. Both come back.
fn told_with_two<B: Run<Record>>(
    alloc: Global,
    opened: OpenedHistory<Record>,
) -> Option<ClosingAuthority<Record, B>>
    requires name { (opened.table ≡ B.table) × (opened.kept ≡ B.kept) }
    requires one { length opened.kept ≡ 1 }
    ensures { IfSome result (λ c. (c.since ≡ record { entity = 3; version = 7 } ∷ []) × (c.back ≡ 5 ∷ 3 ∷ [])) }
{
    let Ok((mut authority, mut shares)) = opened.named::<B>(alloc) else {
        return None;
    };
    let mut five = shares.remove(5);
    let mut three = shares.remove(3);
    let record = Record {
        entity: 3,
        version: 7,
    };
    authority.append_with_two(&record, &mut three, &mut five);
    let mut closing = authority.closing();
    closing.take_back(three);
    closing.take_back(five);
    Some(closing)
}

/// Whether there was memory for that.
fn told_and_closed<B: Run<Record>>(alloc: Global, opened: OpenedHistory<Record>) -> bool
    requires name { (opened.table ≡ B.table) × (opened.kept ≡ B.kept) }
    requires one { length opened.kept ≡ 1 }
{
    told_with_two::<B>(alloc, opened).is_some()
}

#[test]
fn whoever_keeps_the_items_can_do_without_a_chronicle(rt: HostRuntime) -> Result<(), Fail> {
    let kept = vec![in rt.alloc();
        Record {
            entity: 3,
            version: 6
        },
    ]?;
    let Ok(opened) = OpenedHistory::new(rt.alloc(), &kept) else {
        return Err(Fail::from("memory"));
    };
    assert!(rt; told_and_closed::<Brand>(rt.alloc(), opened) && kept.len() == 1);
    Ok(())
}

impl Numbered for Record {
    ghost number = { λ r. r.entity };

    fn number(&self) -> u64 {
        self.entity
    }
}

#[test]
fn things_come_into_the_order_of_their_numbers(rt: HostRuntime) -> Result<(), Fail> {
    let mut things = [
        Record {
            entity: 2,
            version: 7,
        },
        Record {
            entity: 0,
            version: 8,
        },
        Record {
            entity: 1,
            version: 9,
        },
    ];
    put_in_order(&mut things);
    assert!(rt; things[0].version == 8 && things[1].version == 9 && things[2].version == 7);
    Ok(())
}
