ghost use Rattle.std.specs.Prelude.{◌≡◌, ◌<◌, ◌≤◌};

use super::*;
use act_alone::{Head, Locus};
use base_types::{Answer, Cap, Entity, Instr, PAGE_WORDS, Region, Reply, Right, Rights};
use edge_disk::NoBlocks;
use page_store::PageFault;
use rand_core::utils::NextWord;
use rand_pcg::Pcg32;
use std::alloc::{AllocError, Global};
use std::collections::BTreeMap;
use std::process::Abort;
use std::test::Fail;

#[test]
fn a_changed_page_stays_where_no_block_is_left(rt: HostRuntime) -> Result<(), Fail> {
    let mut own = OwnPages::new(rt.alloc(), 1, 0, Vec::new(rt.alloc()))?;
    assert!(rt; own.store(0, 7) == Ok(()));
    let wanting = PageFault::NoBlocks(NoBlocks { need: 1, free: 0 });
    assert!(rt; own.load(128) == Err(wanting));
    assert!(rt; own.load(0) == Ok(7));
    assert!(rt; own.flush() == None);
    Ok(())
}

#[test]
fn a_store_whose_first_call_failed_is_shut(rt: HostRuntime) -> Result<(), Fail> {
    let mut own = OwnPages::new(rt.alloc(), 1, 1, vec![in rt.alloc(); 1u64]?)?;
    assert!(rt; own.store(0, 7) == Ok(()));
    assert!(rt; own.load(128) == Err(PageFault::WriteFault));
    assert!(rt; own.load(128) == Err(PageFault::Shut));
    assert!(rt; own.load(0) == Ok(7));
    Ok(())
}

#[test]
fn pages_without_blocks_are_filled_after_a_read_failed(rt: HostRuntime) -> Result<(), Fail> {
    let mut own = OwnPages::new(rt.alloc(), 1, 1, vec![in rt.alloc(); 2u64]?)?;
    assert!(rt; own.store(0, 7) == Ok(()));
    assert!(rt; own.load(128) == Ok(1128));
    assert!(rt; own.load(0) == Err(PageFault::ReadFault));
    assert!(rt; own.load(128) == Ok(1128));
    assert!(rt; own.load(0) == Err(PageFault::Shut));
    Ok(())
}

// How many loads and stores are drawn.
const DRAWS: u64 = 80;

// A drawn load or store makes a write and a read at most, a flush a write for each page, and the loads of all words a write
// and a read for each page.
const MOST_CALLS: u64 = 2 * DRAWS + 3 * PAGES as u64;

// The word that a map has at an address, or else the supplier's.
fn word_of(words: &BTreeMap<u64, u64>, address: u64) -> u64 {
    match words.get(&address) {
        Some(word) => *word,
        None => TAG.wrapping_add(address),
    }
}

// Loads and stores that are drawn, beside a map of the same words. Whether one failed.
fn draw(
    rt: &impl Abort,
    own: &mut OwnPages,
    words: &mut BTreeMap<u64, u64>,
) -> Result<bool, AllocError> {
    let mut draws = Pcg32::new(42, 54);
    let mut failed = false;
    for _made in 0..DRAWS {
        let address = u64::from(draws.next_word()) % 640;
        let word = u64::from(draws.next_word());
        if word % 2 == 0 {
            match own.load(address) {
                Ok(loaded) => assert!(rt; loaded == word_of(words, address)),
                Err(_) => failed = true,
            }
        } else {
            match own.store(address, word) {
                Ok(()) => {
                    let _before = words.insert(address, word)?;
                }
                Err(_) => failed = true,
            }
        }
    }
    Ok(failed)
}

// Each word that can be loaded is the map's. Whether a load failed.
fn compare(rt: &impl Abort, own: &mut OwnPages, words: &BTreeMap<u64, u64>) -> bool {
    let mut failed = false;
    for address in 0..u64::from(PAGES) * PAGE_WORDS {
        match own.load(address) {
            Ok(loaded) => assert!(rt; loaded == word_of(words, address)),
            Err(_) => failed = true,
        }
    }
    failed
}

// The drawn loads and stores, a flush and a load of every word, where the call with this number fails. Whether one did.
fn drawn(rt: &impl Abort, alloc: Global, frames: u16, failing: u64) -> Result<bool, AllocError>
    requires some { 0 < frames }
    requires few { frames ≤ 256 }
{
    let mut own = OwnPages::new(alloc, frames, 5, vec![in alloc; failing]?)?;
    let mut words = BTreeMap::new(alloc);
    let drawing = draw(rt, &mut own, &mut words)?;
    let flushing = own.flush() != Some(Ok(()));
    let loading = compare(rt, &mut own, &words);
    Ok(drawing || flushing || loading)
}

// The same with no call failing, and with each call failing in turn, up to the last.
fn each_fails(rt: &impl Abort, alloc: Global, frames: u16) -> Result<(), AllocError>
    requires some { 0 < frames }
    requires few { frames ≤ 256 }
{
    assert!(rt; !drawn(rt, alloc, frames, 0)?);
    let mut failed = true;
    for failing in 1..MOST_CALLS + 2 {
        let now = drawn(rt, alloc, frames, failing)?;
        assert!(rt; failed || !now);
        failed = now;
    }
    assert!(rt; !failed);
    Ok(())
}

#[test]
fn drawn_loads_and_stores_are_those_of_a_map(rt: HostRuntime) -> Result<(), Fail> {
    each_fails(&rt, rt.alloc(), 1)?;
    each_fails(&rt, rt.alloc(), 2)?;
    each_fails(&rt, rt.alloc(), 4)?;
    each_fails(&rt, rt.alloc(), 256)?;
    Ok(())
}

#[test]
fn words_stand_where_a_flush_fails(rt: HostRuntime) -> Result<(), Fail> {
    let mut own = OwnPages::new(rt.alloc(), 256, 5, vec![in rt.alloc(); 2u64]?)?;
    let mut words = BTreeMap::new(rt.alloc());
    assert!(rt; !draw(&rt, &mut own, &mut words)?);
    assert!(rt; own.flush() == Some(Err(PageFault::WriteFault)));
    assert!(rt; !compare(&rt, &mut own, &words));
    assert!(rt; own.flush() == Some(Err(PageFault::Shut)));
    assert!(rt; !compare(&rt, &mut own, &words));
    Ok(())
}

// A region of one page.
fn region(at: u8, target: Entity, from: u8, rights: Rights) -> Region
    ensures at { result.at ≡ at }
    ensures count { result.count ≡ 1 }
    ensures from { result.from ≡ from }
{
    Region {
        at,
        count: 1,
        target,
        from,
        rights,
    }
}

// What is stepped: a locus with this code, two containers, the first of which shows a page of the second and one of its own.
#[derive(Drop)]
struct Scene {
    looker: Looker,
    head: Head,
    plain: Head,
    here: OwnPages,
    there: OwnPages,
}

fn make_scene(
    rt: &impl Abort,
    alloc: Global,
    looker: Looker,
    host: Entity,
    other: Entity,
) -> Result<Scene, AllocError> {
    let mut head = Head::new(PAGES, TAG, 0, None, &[]);
    assert!(rt; head.regions.add(region(1, other, 3, Rights(1))).is_ok());
    assert!(rt; head.regions.add(region(4, host, 4, Rights(3))).is_ok());
    Ok(Scene {
        looker,
        head,
        plain: Head::new(PAGES, TAG, 0, None, &[]),
        here: OwnPages::new(alloc, 1, 5, Vec::new(alloc))?,
        there: OwnPages::new(alloc, 1, 5, Vec::new(alloc))?,
    })
}

// A step at the first container, and its answer.
fn step_here(rt: &impl Abort, scene: &mut Scene, host: Entity, want: Answer) {
    let at = scene.looker.at();
    assert!(rt; at == None || at == Some(host));
    let made = scene.looker.step(&mut scene.here, &scene.head);
    assert!(rt; made == Some(Ok(want)));
}

// A step at the second one.
fn step_there(rt: &impl Abort, scene: &mut Scene, other: Entity, want: Answer) {
    assert!(rt; scene.looker.at() == Some(other));
    let made = scene.looker.step(&mut scene.there, &scene.plain);
    assert!(rt; made == Some(Ok(want)));
}

#[test]
fn a_private_region_comes_before_a_region_of_the_host(rt: HostRuntime) -> Result<(), Fail> {
    let host = Entity::new(1).ok_or("a host")?;
    let other = Entity::new(2).ok_or("a container")?;
    let code = [
        Instr::Lmap(1, 0, 3, 2, Rights(3)),
        Instr::Store(4, 5),
        Instr::Load(6, 4),
    ];
    let mut locus = Locus::new(host, 0, 0, &code);
    locus.registers = [0, 4, 1, 2, 519, 77, 0, 0];
    let rights = Rights(255);
    assert!(rt;
        locus.caps.put(Cap {
            entity: other,
            rights
        }) == Ok(0)
    );
    let mut scene = make_scene(&rt, rt.alloc(), Looker::new(locus), host, other)?;
    step_here(&rt, &mut scene, host, Answer::Reply(Reply::Ok));
    step_there(&rt, &mut scene, other, Answer::Reply(Reply::Ok));
    step_there(&rt, &mut scene, other, Answer::Read(77));
    assert!(rt; scene.there.load(263) == Ok(77));
    Ok(())
}

#[test]
fn a_look_goes_on_at_a_regions_target(rt: HostRuntime) -> Result<(), Fail> {
    let host = Entity::new(1).ok_or("a host")?;
    let other = Entity::new(2).ok_or("a container")?;
    let code = [Instr::Load(6, 4), Instr::Store(4, 5), Instr::Load(6, 3)];
    let mut locus = Locus::new(host, 0, 0, &code);
    locus.registers = [0, 0, 0, 640, 135, 77, 0, 0];
    let mut scene = make_scene(&rt, rt.alloc(), Looker::new(locus), host, other)?;
    step_here(&rt, &mut scene, host, Answer::Hop);
    step_there(&rt, &mut scene, other, Answer::Read(1391));
    let denied = Reply::Denied(Right::Write);
    step_here(&rt, &mut scene, host, Answer::Reply(denied));
    step_here(&rt, &mut scene, host, Answer::Reply(Reply::NoPage));
    Ok(())
}

#[test]
fn the_64th_hop_is_refused(rt: HostRuntime) -> Result<(), Fail> {
    let host = Entity::new(1).ok_or("a host")?;
    let mut locus = Locus::new(host, 0, 0, &[Instr::Load(0, 1), Instr::Print(7)]);
    locus.registers[1] = 519;
    let mut scene = make_scene(&rt, rt.alloc(), Looker::new(locus), host, host)?;
    for _hop in 0..63 {
        step_here(&rt, &mut scene, host, Answer::Hop);
    }
    step_here(&rt, &mut scene, host, Answer::Reply(Reply::Deep));
    step_here(&rt, &mut scene, host, Answer::Print(9));
    Ok(())
}
