ghost use Rattle.std.specs.Prelude.{◌≤◌, length};
ghost use Rattle.model_cut_laws.specs.model_kernel.Choices.{IsGreatest};
ghost use Rattle.model_cut_laws.specs.Agreeing.{nothing};
ghost use Rattle.model_cut_laws.specs.Records.{commits_of};
ghost use Rattle.data_cuts.specs.data_cut_facts.Records.{choice, IsAscending};

use base_types::{Cut, Entity, Rec};
use data_cuts::{MOST_RECORDS, greatest, is_ascending, raise};
use std::test::Fail;

/// Puts the versions of entities 1, 2 and 3.
pub(crate) fn put_three(all: &mut [u64; 64], versions: [u64; 3]) {
    all[1] = versions[0];
    all[2] = versions[1];
    all[3] = versions[2];
}

/// A record of entity `number`, whose stamp tells these versions of entities 1, 2 and 3.
fn record(number: u8, version: u64, stamp: [u64; 3]) -> Rec {
    let mut all = [0; 64];
    put_three(&mut all, stamp);
    Rec {
        entity: Entity::new(number).unwrap_or(Entity::ATLAS),
        version,
        stamp: all,
        length: 0,
        blocks: [0; 8],
    }
}

/// A cut that is 0 but for entities 1, 2 and 3.
fn cut(versions: [u64; 3]) -> Cut {
    Cut(record(1, 0, versions).stamp)
}

#[test]
fn small_lists_have_their_greatest_cut(rt: HostRuntime) {
    let none = greatest(&[]);
    assert!(rt; none == cut([0, 0, 0]));
    let a_version_that_no_record_reaches = [record(1, 2, [2, 9, 0])];
    let two_that_need_each_other = [
        record(1, 1, [1, 0, 0]),
        record(1, 2, [2, 1, 0]),
        record(2, 1, [2, 1, 0]),
    ];
    let a_fall_that_makes_another_fall = [record(1, 2, [2, 2, 0]), record(2, 1, [2, 1, 0])];
    let five_of_three_entities = [
        record(1, 2, [2, 0, 0]),
        record(1, 4, [4, 5, 0]),
        record(2, 2, [1, 2, 0]),
        record(2, 4, [3, 4, 0]),
        record(3, 4, [1, 2, 4]),
    ];
    for &(recs, versions) in &[
        (a_version_that_no_record_reaches.as_slice(), [0, 0, 0]),
        (two_that_need_each_other.as_slice(), [2, 1, 0]),
        (a_fall_that_makes_another_fall.as_slice(), [0, 0, 0]),
        (&five_of_three_entities[..4], [2, 2, 0]),
        (five_of_three_entities.as_slice(), [2, 2, 4]),
    ] {
        assert!(rt; recs.len() <= MOST_RECORDS && is_ascending(recs));
        assert!(rt; greatest(recs) == cut(versions));
        assert!(rt; raised(recs) == cut(versions));
    }
}

/// The cut, raised as the records come one by one.
fn raised(recs: &[Rec]) -> Cut
    requires few { length recs.now ≤ MOST_RECORDS }
    requires ascending { IsAscending recs.now }
    ensures { IsGreatest nothing (commits_of recs.now) (choice result) }
{
    let mut cut = Cut([0; 64]);
    for i in 0..recs.len() {
        cut = raise(&recs[..=i], &cut);
    }
    cut
}

#[test]
fn lists_that_fall_are_told(rt: HostRuntime) {
    let falling = [
        record(1, 2, [2, 0, 0]),
        record(2, 1, [0, 1, 0]),
        record(1, 1, [1, 0, 0]),
    ];
    assert!(rt; !is_ascending(&falling));
}

/// What the two records of each of entities 1 and 2, at versions 1 and 2, need of the other entity.
type Needs = [[u64; 2]; 2];

fn is_met(needs: [u64; 2], version: u64, other: u64) -> bool {
    match version {
        0 => true,
        1 => needs[0] <= other,
        _ => needs[1] <= other,
    }
}

/// The greatest closed choice, by a search through all choices.
fn by_all_choices(needs: Needs) -> Cut {
    let mut best = [0; 3];
    for one in 0..3 {
        for two in 0..3 {
            if is_met(needs[0], one, two) && is_met(needs[1], two, one) {
                best[0] = one.max(best[0]);
                best[1] = two.max(best[1]);
            }
        }
    }
    cut(best)
}

fn records_of(needs: Needs) -> [Rec; 4] {
    let [one, two] = needs;
    [
        record(1, 1, [1, one[0], 0]),
        record(2, 1, [two[0], 1, 0]),
        record(2, 2, [two[1], 2, 0]),
        record(1, 2, [2, one[1], 0]),
    ]
}

#[test]
fn lowering_finds_what_all_choices_give(rt: HostRuntime) {
    for n in 0..256 {
        let needs = [[n % 4, n / 4 % 4], [n / 16 % 4, n / 64]];
        let recs = records_of(needs);
        assert!(rt; is_ascending(&recs));
        let best = by_all_choices(needs);
        assert!(rt; greatest(&recs) == best, "at {n}");
        assert!(rt; raised(&recs) == best, "at {n}");
    }
}
