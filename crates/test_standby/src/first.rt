// The first node: a run of a script, what its commits mean, and the shipments of its records.
ghost use Rattle.std.specs.Prelude.{IfOk};
ghost use Rattle.script_types.specs.Rules.{IsScript};
ghost use Rattle.script_types.specs.Scripts.{tables_of};

use crate::images::{FORMAT_CALLS, formatted};
use base_bytes::Blob;
use base_types::Rec;
use edge_disk::{MemoryDisk, Torn};
use kernel_core::Ended;
use node_pages::read_blocks;
use node_shipments::{Shipped, read_shipment};
use script_reading::read_script;
use script_types::Script;
use std::alloc::Global;
use std::test::Fail;
use store_snapshots::Store;
use test_kernel::OwnKernel;
use test_replays::{Front, commits_of, fronts_from};

// The script of a text.
fn script_of(alloc: Global, text: &str) -> Result<Script, Fail>
    ensures { IfOk result (λ script. IsScript (tables_of script)) }
{
    let read = read_script(alloc, text.as_bytes())?;
    Ok(read.script)
}

// A kernel over the image that a disk holds, for a script.
fn kernel_for(
    alloc: Global,
    disk: MemoryDisk,
    script: &Script,
) -> Result<OwnKernel<MemoryDisk>, Fail> {
    let (frames, steps) = (script.frames, script.steps);
    if frames == 0 || frames > 256 || steps > 40_000 {
        return Err("a script".into());
    }
    match OwnKernel::open(alloc, disk, frames, steps) {
        Ok(own) => Ok(own),
        Err(_) => Err("a kernel".into()),
    }
}

// A whole run of a script over the image that a disk holds.
fn run_over(alloc: Global, disk: MemoryDisk, script: &Script) -> Result<Ended<MemoryDisk>, Fail>
    requires script { IsScript (tables_of script.now) }
{
    let mut own = kernel_for(alloc, disk, script)?;
    if own.births(alloc, script).is_err() || own.play(script).is_err() || own.finish().is_err() {
        return Err("a whole run".into());
    }
    Ok(own.into_ended())
}

/// Whether a script runs to its end over the image that a disk holds.
pub(crate) fn runs_over(alloc: Global, disk: MemoryDisk, text: &str) -> Result<bool, Fail> {
    let script = script_of(alloc, text)?;
    let ended = run_over(alloc, disk, &script)?;
    Ok(ended.stopped.is_none())
}

/// A run from the empty image on: its disk, what its history commits, in that order, what each number of them means by the plain kernel, and the
/// shipments of its records.
#[derive(Drop)]
pub(crate) struct First {
    pub(crate) disk: MemoryDisk,
    pub(crate) recs: Vec<Rec>,
    pub(crate) fronts: Vec<Front>,
    pub(crate) made: Vec<Shipped>,
}

impl First {
    /// Runs a script of this text.
    pub(crate) fn run(alloc: Global, text: &str) -> Result<First, Fail> {
        let script = script_of(alloc, text)?;
        let ended = run_over(alloc, formatted(alloc, &[])?, &script)?;
        let recs = commits_of(alloc, &ended.history)?.recs;
        let fronts = fronts_from(alloc, &script, &ended.history, &recs, 0)?;
        let made = shipments_of(alloc, &ended.disk)?;
        Ok(First {
            disk: ended.disk,
            recs,
            fronts,
            made,
        })
    }

    /// Whether the shipments are those of what the history commits, in its order.
    pub(crate) fn are_commits(&self) -> bool {
        self.made.len() == self.recs.len()
            && self.made.iter().zip(&self.recs).all(|(shipped, rec)| {
                shipped.entity() == rec.entity
                    && shipped.version() == rec.version
                    && *shipped.stamp() == rec.stamp
            })
    }
}

// The shipment of the newest record of a store.
fn newest_of(
    alloc: Global,
    store: &mut Store<MemoryDisk>,
    blob: &mut Blob,
) -> Result<Shipped, Fail> {
    if store.is_shut() {
        return Err("a store that works".into());
    }
    let rec = *store.recs().last().ok_or("a record")?;
    let pages = read_blocks(store, blob, alloc, &rec).ok().ok_or("pages")?;
    let bytes = blob.as_slice();
    Ok(read_shipment(rec.entity, rec.version, &rec.stamp, bytes, pages).ok_or("a shipment")?)
}

// The shipments of a run from the empty image on, each read where a stop leaves its record as the newest one.
fn shipments_of(alloc: Global, disk: &MemoryDisk) -> Result<Vec<Shipped>, Fail> {
    let mut blob = Blob::new(alloc)?;
    let mut made = Vec::new(alloc);
    for moment in FORMAT_CALLS..=disk.moments() {
        let left = disk.crash(moment, Torn::New)?;
        let mut store = Store::open(alloc, left).ok().ok_or("a store")?;
        if store.recs().len() > made.len() {
            made.push(newest_of(alloc, &mut store, &mut blob)?)?;
        }
    }
    Ok(made)
}
