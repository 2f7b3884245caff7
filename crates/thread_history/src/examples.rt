//! Callers of these calls: what they learn by the contracts alone.
ghost use Rattle.std.specs.Prelude.{◌≡◌, ◌<◌, [], ◌∷◌, true, IfSome};
ghost use Rattle.model_kernel.specs.Histories.{writes};
ghost use Rattle.thread_history.specs.Examples.{first_entry, second_entry};
ghost use Rattle.thread_history.specs.Given.{list_of};

use crate::chronicles::Chronicle;
use crate::opened::Opened;
use crate::shares::{Run, Share};
use base_types::{Answer, Entity, Entry, Event, Touch, Touched};
use std::alloc::Global;

fn wrote(entity: Entity, version: u64) -> Touch
    ensures { result ≡ record { version = version; entity = entity; wrote = true } }
{
    Touch {
        version,
        entity,
        wrote: true,
    }
}

fn first(one: Entity, other: Entity) -> Entry
    requires { (one ≡ 1) × (other ≡ 41) }
    ensures { result ≡ first_entry }
{
    Entry {
        event: Event::Step,
        actor: other,
        touched: Touched::two(wrote(one, 1), wrote(other, 1)),
        version: 0,
        answer: Answer::Quiet,
    }
}

fn second(other: Entity) -> Entry
    requires { other ≡ 41 }
    ensures { result ≡ second_entry }
{
    Entry {
        event: Event::Step,
        actor: other,
        touched: Touched::one(wrote(other, 2)),
        version: 0,
        answer: Answer::Quiet,
    }
}

/// Appends the first entry by both shares and the second by that of 41, and then tells the share of 1.
pub fn append_both<B: Run<Entry>>(
    chronicle: &mut Chronicle<Entry, B>,
    one: Entity,
    other: Entity,
    a: &mut Share<Entry, B>,
    b: &mut Share<Entry, B>,
) -> (u64, u64)
    requires entities { (one ≡ 1) × (other ≡ 41) }
    requires empty { (B.kept ≡ []) × (chronicle.old.since ≡ []) × (1 < chronicle.old.room) }
    requires shares { (a.old ≡ record { number = 1; since = [] }) × (b.old ≡ record { number = 41; since = [] }) }
    ensures places { (result.0 ≡ 0) × (result.1 ≡ 1) }
    ensures history { chronicle.new.since ≡ first_entry ∷ second_entry ∷ [] }
    ensures list_of_1 { list_of writes a.new ≡ first_entry ∷ [] }
    ensures list_of_41 { list_of writes b.new ≡ first_entry ∷ second_entry ∷ [] }
{
    let p = chronicle.append(first(one, other), Some(&mut *a), Some(&mut *b), None);
    let q = chronicle.append(second(other), None, Some(&mut *b), None);
    chronicle.note(a);
    (p, q)
}

/// The same on a chronicle that just came to be, up to its close. None for want of memory.
pub fn two_entries<B: Run<Entry>>(
    alloc: Global,
    opened: Opened<Entry>,
) -> Option<(u64, u64, Vec<Entry>)>
    requires name { (opened.table ≡ B.table) × (opened.kept ≡ B.kept) }
    requires empty { (opened.kept ≡ []) × (1 < opened.room) }
    ensures { IfSome result (λ r. (r.0 ≡ 0) × (r.1 ≡ 1) × (r.2.items ≡ first_entry ∷ second_entry ∷ [])) }
{
    let (Some(one), Some(other)) = (Entity::new(1), Entity::new(41)) else {
        return None;
    };
    let Ok((mut chronicle, mut shares)) = opened.named::<B>(alloc) else {
        return None;
    };
    let mut b = shares.remove(41);
    let mut a = shares.remove(1);
    let (p, q) = append_both(&mut chronicle, one, other, &mut a, &mut b);
    Some((p, q, chronicle.close(shares)))
}
