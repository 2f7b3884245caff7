//! Drawn programs, stepped by the kernel and by the plain kernel side by side.
ghost use Rattle.script_types.specs.Rules.{IsScript};
ghost use Rattle.script_types.specs.Scripts.{tables_of};

use crate::calls::{formatted, opened};
use crate::own::OwnKernel;
use act_alone::Locus;
use base_types::{Entity, Entry};
use cell_states::{Cell, Part};
use edge_disk::MemoryDisk;
use kernel_core::Kernel;
use plain_states::PlainLocus;
use script_drill::drill_script;
use script_types::Script;
use std::alloc::Global;
use std::process::Abort;
use std::test::Fail;
use test_replays::{Clocks, Replay, commits_of, front_of, is_played, means_one_of};

/// Plain states and clocks beside a kernel.
#[derive(Drop)]
struct Beside {
    replay: Replay,
    clocks: Clocks,
}

impl Beside {
    fn new(alloc: Global) -> Result<Beside, Fail> {
        Ok(Beside {
            replay: Replay::new(alloc),
            clocks: Clocks::new(alloc)?,
        })
    }

    // Whether the entry's event is the one that comes here too.
    fn follows(&mut self, alloc: Global, script: &Script, entry: &Entry) -> Result<bool, Fail>
        requires script { IsScript (tables_of script.now) }
    {
        self.clocks.follow(entry);
        if !is_played(entry) {
            return Ok(true);
        }
        Ok(self.replay.follow(alloc, script, entry)? == Some(*entry))
    }

    // Whether a cell has the version and the vector clock that are here.
    fn has_clock_of(&self, cell: &Cell) -> bool {
        let entity = cell.clock.entity;
        let version = self.clocks.version_of(entity);
        let replayed = self.replay.versions[entity.number() as usize];
        version == cell.clock.version
            && replayed == version
            && self.clocks.stamp_of(entity) == cell.clock.stamp
    }

    // Whether each cell has.
    fn has_clocks_of(&self, cells: &[Cell]) -> bool {
        for cell in cells {
            if !self.has_clock_of(cell) {
                return false;
            }
        }
        true
    }
}

// Whether both are the same.
fn is_same_locus(locus: &Locus, plain: &PlainLocus) -> bool {
    let (a, b) = (locus.view(), plain.view());
    let machine = (a.place, a.host, a.walk, a.condition, a.every, a.printed)
        == (b.place, b.host, b.walk, b.condition, b.every, b.printed);
    let lists = a.chain == b.chain && a.privates == b.privates && a.caps == b.caps;
    machine && lists && a.registers == b.registers && a.code == b.code
}

// Whether the cell has this locus.
fn has_locus(cell: &Cell, plain: &PlainLocus) -> bool {
    match &cell.part {
        Part::Locus(Some(locus)) => is_same_locus(locus, plain),
        _ => false,
    }
}

// Whether the loci among the cells are these.
fn has_loci(cells: &[Cell], loci: &[PlainLocus]) -> bool {
    for (cell, locus) in cells.iter().skip(41).zip(loci) {
        if !has_locus(cell, locus) {
            return false;
        }
    }
    true
}

// Beside the kernel the same entries are made that it made behind so many, and then versions, clocks and loci are the same.
fn goes_beside(
    rt: &impl Abort,
    alloc: Global,
    kernel: &Kernel<MemoryDisk>,
    script: &Script,
    beside: &mut Beside,
    since: usize,
) -> Result<(), Fail>
    requires script { IsScript (tables_of script.now) }
{
    for entry in kernel.history().iter().skip(since) {
        assert!(rt; beside.follows(alloc, script, entry)?);
    }
    assert!(rt; beside.has_clocks_of(kernel.cells()));
    assert!(rt; has_loci(kernel.cells(), &beside.replay.state.loci));
    Ok(())
}

// Looks at the six loci in turn, so many.
fn step_beside(
    rt: &impl Abort,
    alloc: Global,
    own: &mut OwnKernel<MemoryDisk>,
    script: &Script,
    looks: u32,
) -> Result<(), Fail>
    requires script { IsScript (tables_of script.now) }
{
    let mut beside = Beside::new(alloc)?;
    assert!(rt; own.births(alloc, script).is_ok());
    goes_beside(rt, alloc, own.kernel(), script, &mut beside, 0)?;
    for look in 0..looks {
        let since = own.kernel().history().len();
        assert!(rt; own.step(Entity::of(41 + (look % 6) as u8)).is_ok());
        goes_beside(rt, alloc, own.kernel(), script, &mut beside, since)?;
    }
    Ok(())
}

// The drawn program of a number beside the plain kernel. And what is left is the state of the part that all commits make, with all words.
fn drawn_beside(rt: &impl Abort, alloc: Global, number: u64) -> Result<(), Fail> {
    let script = drill_script(alloc, number)?;
    let mut own = opened(alloc, formatted(alloc, 8192, 20_000, &[])?, &script)?;
    step_beside(rt, alloc, &mut own, &script, 360)?;
    let ended = own.into_ended();
    let commits = commits_of(alloc, &ended.history)?;
    let front = front_of(alloc, &script, &ended.history, &commits.recs)?;
    let fronts = vec![in alloc; front]?;
    let mut disk = ended.disk;
    means_one_of(alloc, &mut disk, &fronts, &commits.recs)
}

#[test]
fn drawn_programs_go_beside_the_plain_kernel(rt: HostRuntime) -> Result<(), Fail> {
    for &number in &[1, 2, 3] {
        drawn_beside(&rt, rt.alloc(), number)?;
    }
    Ok(())
}
