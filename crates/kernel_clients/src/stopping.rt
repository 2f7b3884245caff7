//! A machine that stops, and what is found of its objects.
ghost use Rattle.std.specs.Prelude.{◌≡◌, ◌≤◌, ◌+◌, IfOk, min};
ghost use Rattle.command_open.specs.command_promises.Openings.{HasOpened};
ghost use Rattle.kernel_core.specs.kernel_core_facts.Kernels.{Lives};
ghost use Rattle.kernel_core.specs.kernel_invariant.Beginnings.{Beginning};
ghost use Rattle.edge_disk.specs.MemoryDisk.{memory_disks, moments_of, reading_of};
ghost use Rattle.edge_managers.specs.Managers.{counted_word};
ghost use Rattle.kernel_clients.specs.Keeping.{FindsCut, managers};
ghost use Rattle.script_types.specs.Rules.{IsScript};
ghost use Rattle.script_types.specs.Scripts.{tables_of};

use crate::serving::{let_run, open_objects};
use base_types::{Entity, Entry};
use command_open::{Ended, Kernel, Unopened};
use command_outcomes::Fault;
use edge_disk::{MemoryDisk, Torn};
use edge_managers::{CountedWords, EveryVersions, Gate, Supplier};
use image_reading::{ImageFacts, read_image};
use log_reading::ReadingFault;
use script_types::Script;
use std::alloc::{AllocError, Global};

/// What is found behind a stop.
#[derive(Drop)]
pub struct Found {
    /// The entries of the kernel's history in order, and for each Snap and Stable its mark.
    pub history: Vec<Entry>,
    pub marks: Vec<u64>,
    /// The disk as the kernel left it, and the moment at which the machine stopped, by this disk's clock.
    pub disk: MemoryDisk,
    pub stopped: u64,
    /// The disk that the stop left, and what its image says, or why that could not be read.
    pub left: MemoryDisk,
    pub facts: Result<ImageFacts, ReadingFault>,
}

/// Why nothing was kept.
#[derive(Debug, Drop)]
pub enum Lost {
    /// The image was not opened for the script.
    Unopened(Fault),
    /// Memory for the disk behind the stop ran out.
    Memory,
}

/// Lets the machine stop at this moment, or now where that is later, and reads the image that the stop leaves. `torn` says what becomes of
/// blocks that were pending then.
///
/// It takes memory for another disk, and what `read_image` takes.
pub fn stop_and_find(
    alloc: Global,
    kernel: Kernel<MemoryDisk>,
    moment: u64,
    torn: Torn,
) -> Result<Found, AllocError>
    ensures stopped { IfOk result (λ f. f.stopped ≡ min moment (moments_of kernel.parts.store.disk)) }
    ensures disk { IfOk result (λ f. f.disk ≡ kernel.parts.store.disk) }
    ensures noted { IfOk result (λ f. (f.history.items ≡ kernel.parts.noted.entries) × (f.marks.items ≡ kernel.parts.noted.marks)) }
    ensures found { (b : Beginning) → b.supply ≡ counted_word → Lives memory_disks b kernel
        → IfOk result (λ f. b.first ≤ f.stopped → FindsCut b f) }
{
    let Ended {
        disk,
        history,
        marks,
        ..
    } = kernel.into_ended();
    let stopped = moment.min(disk.moments());
    let mut left = disk.crash(stopped, torn)?;
    let facts = read_image(
        alloc,
        &mut left,
        &|tag, page, place| { CountedWords.word(tag, page, place) },
    );
    Ok(Found {
        history,
        marks,
        disk,
        stopped,
        left,
        facts,
    })
}

/// Opens the image on a disk for a script, makes the births that it lacks, looks at these loci in this order, and lets the machine stop once
/// `after` writes and syncs were begun since the disk was handed in, or behind the last look where that is earlier.
///
/// A stop from the end of the opening's sync on, at whatever moment, leaves each entity as it was at its version in one consistent cut, which
/// holds all records that were acknowledged by then.
pub fn keep_and_stop(
    alloc: Global,
    script: &Script,
    disk: MemoryDisk,
    turns: &[Entity],
    after: u64,
    torn: Torn,
) -> Result<Found, Lost>
    requires allowed { IsScript (tables_of script.now) }
    requires frames { (1 ≤ script.now.frames) × (script.now.frames ≤ 256) }
    ensures stopped { IfOk result (λ f. f.stopped ≡ min (min (moments_of disk + after) 18446744073709551615) (moments_of f.disk)) }
    ensures found { IfOk result (λ f. HasOpened managers (tables_of script.now) (reading_of disk) (moments_of disk) (λ b. b.first ≤ f.stopped → FindsCut b f)) }
{
    let moment = disk.moments().saturating_add(after);
    match open_objects(alloc, script, disk) {
        Ok(mut kernel) => {
            let_run(&mut kernel, turns, &Gate::new(CountedWords, EveryVersions));
            match stop_and_find(alloc, kernel, moment, torn) {
                Ok(found) => Ok(found),
                Err(_) => Err(Lost::Memory),
            }
        }
        Err(Unopened { fault, .. }) => Err(Lost::Unopened(fault)),
    }
}
