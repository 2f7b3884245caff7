// A kernel with managers of its own.
ghost use Rattle.std.specs.Prelude.{◌≡◌, ◌<◌, ◌≤◌, [], true, None, Err, IfSome, OnOk};
ghost use Rattle.script_fits.specs.model_births.Fitting.{Fits};
ghost use Rattle.kernel_core.specs.kernel_commits.Telling.{Tells, told_again};
ghost use Rattle.kernel_core.specs.kernel_core_facts.Bearing.{HasOpened};
ghost use Rattle.script_types.specs.Rules.{IsScript};
ghost use Rattle.script_types.specs.Scripts.{tables_of};
ghost use Rattle.kernel_core.specs.table_births.Births.{atlas_state_in};

use base_types::{Entity, Entry};
use edge_disk::Disk;
use edge_managers::{CountedWords, EveryVersions, Gate};
use kernel_core::{Ended, Kernel};
use kernel_watchers::{Halt, finish, play, run_steps};
use open_kernel::{Stop, open_image};
use script_fits::against;
use script_types::Script;
use std::alloc::Global;
use std::marker::Model;
use store_snapshots::OpenFault;

/// Why the births of a script were not made, or not all.
#[derive(Clone, Copy, Debug, PartialEq, Eq)]
pub enum Unborn {
    /// Entries were made before, or the script doesn't fit the names that are born.
    Unfit,
    /// The kernel stopped.
    Stopped(Stop),
}

// Whether no entry was made.
fn is_unused<D: Disk>(kernel: &Kernel<D>) -> bool
    ensures { result ≡ true → kernel.now.parts.noted.entries ≡ [] }
{
    kernel.history().is_empty()
}

// Whether a script fits the names that are born.
fn is_fit<D: Disk>(alloc: Global, kernel: &Kernel<D>, script: &Script) -> bool
    ensures { result ≡ true → Fits (atlas_state_in kernel.now.parts.cells) (tables_of script.now) }
{
    if kernel.cells().is_empty() {
        return false;
    }
    match against(alloc, script, kernel.atlas()) {
        Ok(()) => true,
        Err(_) => false,
    }
}

// Whether the births of a script may be made.
fn may_bear<D: Disk>(alloc: Global, kernel: &Kernel<D>, script: &Script) -> bool
    ensures first { result ≡ true → kernel.now.parts.noted.entries ≡ [] }
    ensures fits { result ≡ true → Fits (atlas_state_in kernel.now.parts.cells) (tables_of script.now) }
{
    if !is_unused(kernel) {
        return false;
    }
    is_fit(alloc, kernel, script)
}

/// A kernel over an image, with a supplier whose words count up from the tag, and a policy that wishes a snapshot after so many versions
/// as `every` says. What the kernel's calls ask of it holds before and after every call.
#[derive(Drop)]
pub struct OwnKernel<D: Disk> {
    kernel: Kernel<D>,
}

impl<D: Disk> Model for OwnKernel<D> {
    ghost use Rattle.kernel_core.specs.kernel_core_facts.Kernels.{Held, StaysClean};
    ghost use Rattle.edge_managers.specs.Managers.{counted_word};

    ghost Value = { Held D };

    ghost view = { λ own. own.kernel };

    ghost invariant = { λ own. StaysClean D.Disk counted_word own.kernel };
}

impl<D: Disk> OwnKernel<D> {
    /// Opens the image that a disk holds.
    pub fn open(
        alloc: Global,
        disk: D,
        frames: u16,
        steps: u32,
    ) -> Result<OwnKernel<D>, OpenFault<D>>
        requires some { 0 < frames }
        requires few { frames ≤ 256 }
        requires steps_few { steps ≤ 40000 }
    {
        match open_image(alloc, disk, frames, steps) {
            Ok(kernel) => Ok(OwnKernel { kernel }),
            Err(fault) => Err(fault),
        }
    }

    /// The kernel.
    pub fn kernel(&self) -> &Kernel<D>
        ensures { result.now ≡ self.now }
    {
        &self.kernel
    }

    /// The same kernel, taken apart and put together.
    pub fn rejoined(self) -> OwnKernel<D>
        ensures { result ≡ self }
    {
        let OwnKernel { kernel } = self;
        OwnKernel {
            kernel: Kernel::together(kernel.apart()),
        }
    }

    /// The disk, the history and the marks.
    pub fn into_ended(self) -> Ended<D>
        ensures { result.disk ≡ self.parts.store.disk }
    {
        let OwnKernel { kernel } = self;
        kernel.into_ended()
    }

    /// The births of a script, and the Stable behind them.
    pub fn births(&mut self, alloc: Global, script: &Script) -> Result<(), Unborn>
        requires script { IsScript (tables_of script.now) }
        ensures unfit { result ≡ Err Unborn.Unfit → self.new ≡ self.old }
        ensures made { self.old.stop ≡ None → OnOk result (HasOpened (tables_of script.now) self.old.parts self.new.parts) }
    {
        if !may_bear(alloc, &self.kernel, script) {
            return Err(Unborn::Unfit);
        }
        match self.kernel.births(script) {
            Ok(()) => Ok(()),
            Err(stop) => Err(Unborn::Stopped(stop)),
        }
    }

    /// One look at a locus.
    pub fn step(&mut self, me: Entity) -> Result<Entry, Stop>
        ensures was_stopped { IfSome self.old.stop (λ why. (result ≡ Err (told_again why)) × (self.new ≡ self.old)) }
        ensures ends { self.old.stop ≡ None → Tells result self.new.stop }
    {
        let gate = Gate::new(CountedWords, EveryVersions);
        self.kernel.step(me, &gate)
    }

    /// A record of an entity where one is wished.
    pub fn snap(&mut self, entity: Entity) -> Result<bool, Stop>
        ensures was_stopped { IfSome self.old.stop (λ why. (result ≡ Err (told_again why)) × (self.new ≡ self.old)) }
        ensures ends { self.old.stop ≡ None → Tells result self.new.stop }
    {
        let gate = Gate::new(CountedWords, EveryVersions);
        self.kernel.snap(entity, &gate)
    }

    /// The picks of a script's order.
    pub fn play(&mut self, script: &Script) -> Result<(), Stop>
        ensures was_stopped { IfSome self.old.stop (λ why. (result ≡ Err (told_again why)) × (self.new ≡ self.old)) }
        ensures ends { self.old.stop ≡ None → Tells result self.new.stop }
    {
        let gate = Gate::new(CountedWords, EveryVersions);
        play(&mut self.kernel, &script.order, &gate)
    }

    /// A run of a script until so many steps are made, and how it ended; none where its births can't be made.
    pub fn run_steps(
        &mut self,
        alloc: Global,
        script: &Script,
        steps: u64,
    ) -> Option<Result<(), Halt>>
        requires script { IsScript (tables_of script.now) }
        requires some { 0 < steps }
        ensures unfit { result ≡ None → self.new ≡ self.old }
    {
        if !may_bear(alloc, &self.kernel, script) {
            return None;
        }
        let gate = Gate::new(CountedWords, EveryVersions);
        Some(run_steps(&mut self.kernel, script, &gate, steps))
    }

    /// Rounds over all loci, until none can step.
    pub fn finish(&mut self) -> Result<(), Stop>
        ensures was_stopped { IfSome self.old.stop (λ why. (result ≡ Err (told_again why)) × (self.new ≡ self.old)) }
        ensures ends { self.old.stop ≡ None → Tells result self.new.stop }
    {
        let gate = Gate::new(CountedWords, EveryVersions);
        finish(&mut self.kernel, &gate)
    }
}
