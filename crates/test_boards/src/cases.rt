//! Scripts, and kernels behind their births over disks in memory.
ghost use Rattle.std.specs.Prelude.{◌≡◌, ◌≤◌, [], IfOk, IfSome, None, true};
ghost use Rattle.edge_disk.specs.MemoryDisk.{faults_of};
ghost use Rattle.image_blocks.specs.image_facts.Layout.{least_blocks, most_blocks};
ghost use Rattle.kernel_core.specs.table_births.Births.{atlas_state_in};
ghost use Rattle.script_fits.specs.model_births.Fitting.{Fits};
ghost use Rattle.script_types.specs.Rules.{IsScript};
ghost use Rattle.script_types.specs.Scripts.{tables_of};
ghost use Rattle.test_boards.specs.Caused.{HasCause};

use crate::quiet_disk::QuietDisk;
use edge_disk::{Disk, DiskFault, MemoryDisk};
use image_format::format;
use kernel_core::Kernel;
use open_kernel::open_image;
use script_fits::against;
use script_reading::read_script;
use script_types::Script;
use std::alloc::Global;
use std::marker::Model;
use std::test::Fail;

/// A script with its text, and of how many blocks the disk is on which it runs, as many as an image may have. Contracts see the number.
#[derive(Drop)]
pub(crate) struct Case {
    text: Vec<u8>,
    script: Script,
    blocks: u32,
}

impl Model for Case {
    ghost use Rattle.std.specs.Prelude.{ℕ, ◌≤◌};
    ghost use Rattle.image_blocks.specs.image_facts.Layout.{least_blocks, most_blocks};
    ghost use Rattle.script_types.specs.Rules.{IsScript};
    ghost use Rattle.script_types.specs.Scripts.{tables_of};

    ghost Value = { ℕ };

    ghost view = { λ c. c.blocks };

    ghost invariant = { λ c. IsScript (tables_of c.script) × ((least_blocks ≤ c.blocks) × (c.blocks ≤ most_blocks)) };
}

/// A disk with an empty image of so many blocks, where these calls fail.
fn formatted(alloc: Global, blocks: u32, fails: &[u64]) -> Result<QuietDisk, Fail>
    requires { (least_blocks ≤ blocks) × (blocks ≤ most_blocks) }
{
    let memory = MemoryDisk::new(alloc, blocks, 4000, fails.to_vec(alloc)?)?;
    match format(memory, blocks) {
        Ok(memory) => Ok(QuietDisk { memory }),
        Err(_) => Err(DiskFault.into()),
    }
}

/// Whether the births of a script may be made: no entry was, and the script fits the names that are born.
fn may_bear<D: Disk>(alloc: Global, kernel: &Kernel<D>, script: &Script) -> bool
    ensures first { result ≡ true → kernel.now.parts.noted.entries ≡ [] }
    ensures fits { result ≡ true → Fits (atlas_state_in kernel.now.parts.cells) (tables_of script.now) }
{
    if !kernel.history().is_empty() || kernel.cells().is_empty() {
        return false;
    }
    against(alloc, script, kernel.atlas()).is_ok()
}

/// The kernel of the image on a disk, where it is opened.
fn opened(alloc: Global, disk: QuietDisk, script: &Script) -> Option<Kernel<QuietDisk>>
    ensures { IfSome result (λ k. k.stop ≡ None) }
{
    if script.frames == 0 || script.frames > 256 || script.steps > 40_000 {
        return None;
    }
    open_image(alloc, disk, script.frames, script.steps).ok()
}

/// The births of a script by a kernel that goes on, which they may stop.
fn bear(kernel: &mut Kernel<QuietDisk>, script: &Script)
    requires going { kernel.old.stop ≡ None }
    requires first { kernel.old.parts.noted.entries ≡ [] }
    requires allowed { IsScript (tables_of script.now) }
    requires fits { Fits (atlas_state_in kernel.old.parts.cells) (tables_of script.now) }
    ensures { HasCause kernel.new (λ d. faults_of d.memory) }
{
    let _ = kernel.births(script);
}

/// The kernel of the image on a disk, behind the births of a script, which may have stopped it.
fn born(alloc: Global, disk: QuietDisk, script: &Script) -> Option<Kernel<QuietDisk>>
    requires { IsScript (tables_of script.now) }
    ensures { IfSome result (λ k. HasCause k (λ d. faults_of d.memory)) }
{
    let mut kernel = opened(alloc, disk, script)?;
    if !may_bear(alloc, &kernel, script) {
        return None;
    }
    bear(&mut kernel, script);
    Some(kernel)
}

impl Case {
    /// The case of a script's text.
    pub(crate) fn read(alloc: Global, text: &[u8], blocks: u32) -> Result<Case, Fail>
        requires { (least_blocks ≤ blocks) × (blocks ≤ most_blocks) }
    {
        let script = read_script(alloc, text)?.script;
        let text = text.to_vec(alloc)?;
        Ok(Case {
            text,
            script,
            blocks,
        })
    }

    /// The script's text.
    pub(crate) fn text(&self) -> &[u8] {
        self.text.as_slice()
    }

    /// The script.
    pub(crate) fn script(&self) -> &Script
        ensures { IsScript (tables_of result.now) }
    {
        &self.script
    }

    /// A disk with an empty image.
    pub(crate) fn empty(&self, alloc: Global) -> Result<QuietDisk, Fail> {
        formatted(alloc, self.blocks, &[])
    }

    /// The kernel of an empty image, of which nothing is born.
    #[tactic(auto, using(crate::proofs::Counts::goes_uncaused))]
    pub(crate) fn opened(&self, alloc: Global) -> Result<Kernel<QuietDisk>, Fail>
        ensures { IfOk result (λ k. HasCause k (λ d. faults_of d.memory)) }
    {
        let disk = self.empty(alloc)?;
        Ok(opened(alloc, disk, &self.script).ok_or("a kernel")?)
    }

    /// The kernel behind the births, on an empty image where these calls of the disk fail. It has stopped where one of the births' fails.
    pub(crate) fn kernel(&self, alloc: Global, fails: &[u64]) -> Result<Kernel<QuietDisk>, Fail>
        ensures { IfOk result (λ k. HasCause k (λ d. faults_of d.memory)) }
    {
        let disk = formatted(alloc, self.blocks, fails)?;
        Ok(born(alloc, disk, &self.script).ok_or("a kernel")?)
    }

    /// How many calls the disk has had behind the births.
    pub(crate) fn calls(&self, alloc: Global) -> Result<u64, Fail> {
        Ok(self.kernel(alloc, &[])?.into_ended().disk.memory.calls())
    }
}
