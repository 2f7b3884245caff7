// An image opened for a script.
ghost use Rattle.std.specs.Prelude.{◌≡◌, ◌⊎◌, ◌≤◌, [], None, IfOk, IfErr, OnOk, MatchResult, length};
ghost use Rattle.edge_disk.specs.Disks.{HasFailedSince};
ghost use Rattle.command_outcomes.specs.Seen.{seen_disk};
ghost use Rattle.command_outcomes.specs.declared.faults.Fault.{Fault as AFault};
ghost use Rattle.edge_tally.specs.Counts.{Begins, shown};
ghost use Rattle.script_fits.specs.model_births.Fitting.{Fits};
ghost use Rattle.script_types.specs.model_kernel.State.{KernelState, Supply};
ghost use Rattle.script_types.specs.model_kernel.Steps.{atlas_in};
ghost use Rattle.command_promises.specs.image_meaning.Meaning.{Means};
ghost use Rattle.command_promises.specs.open_facts.Images.{HasBegun, IsOpenedTable};
ghost use Rattle.command_promises.specs.kernel_core_facts.Kernels.{StaysClean};
ghost use Rattle.command_promises.specs.Ready.{IsFitFault, IsReady, StopsOpening, fault_of_opening as fault_by};
ghost use Rattle.script_fits.specs.model_births.Misfits.{IsMisfit};
ghost use Rattle.script_types.specs.Rules.{IsScript};
ghost use Rattle.script_types.specs.Scripts.{tables_of};
ghost use Rattle.command_promises.specs.store_facts.State.{books};
ghost use Rattle.command_promises.specs.table_births.Births.{atlas_state_in};

use command_outcomes::Fault;
use command_promises::{Kernel, OpenFault, OpenWhy, open_image};
use edge_disk::Disk;
use script_fits::against;
use script_types::{Script, ScriptFault};
use std::alloc::Global;

/// Why an image was not opened for a script, and the disk.
#[derive(Drop)]
pub struct Unopened<D> {
    pub fault: Fault,
    pub disk: D,
}

// The fault of an image that isn't opened.
fn fault_of_opening(why: OpenWhy) -> Fault
    ensures { result ≡ fault_by why }
{
    match why {
        OpenWhy::Foreign(bad) => Fault::Foreign {
            block: bad.block,
            place: bad.place,
        },
        OpenWhy::ReadFault | OpenWhy::WriteFault => Fault::DiskFault,
        OpenWhy::Memory => Fault::Memory,
    }
}

// Refuses a script that doesn't fit the atlas of a kernel.
fn against_kernel<D: Disk>(
    alloc: Global,
    script: &Script,
    kernel: &Kernel<D>,
) -> Result<(), ScriptFault>
    requires whole { length kernel.now.parts.cells ≡ 64 }
    ensures ok { OnOk result (Fits (atlas_state_in kernel.now.parts.cells) (tables_of script.now)) }
    ensures refused { IfErr result (IsMisfit (atlas_state_in kernel.now.parts.cells) (tables_of script.now)) }
{
    against(alloc, script, kernel.atlas())
}

// Keeps a kernel whose atlas the script fits, and lets the others go.
fn fit<D: Disk>(alloc: Global, script: &Script, kernel: Kernel<D>) -> Result<Kernel<D>, Unopened<D>>
    requires whole { length kernel.parts.cells ≡ 64 }
    ensures same { IfOk result (λ k. k ≡ kernel) }
    ensures fits { IfOk result (λ k. Fits (atlas_state_in k.parts.cells) (tables_of script.now)) }
    ensures refused { IfErr result (λ stopped. IsFitFault (atlas_state_in kernel.parts.cells) (tables_of script.now) stopped.fault) }
    ensures disk { IfErr result (λ stopped. stopped.disk ≡ kernel.parts.store.disk) }
{
    match against_kernel(alloc, script, &kernel) {
        Ok(()) => Ok(kernel),
        Err(fault) => Err(Unopened {
            fault: Fault::from(fault),
            disk: kernel.into_ended().disk,
        }),
    }
}

/// Opens the image that a disk holds for a script: the kernel has the script's frames for each container and its steps for each locus, and
/// nothing of the script was run. Where it isn't opened for the script, the image means what it meant, if its epoch leaves room for a turn.
///
/// `Foreign` comes only where the image isn't accepted, with its first bad place, and then nothing was written. `Script` comes with the
/// first reason why the script doesn't fit, `DiskFault` only where the disk's count of faults rose, and `Memory` where memory ran out; the others
/// never. The disk comes back with each.
///
/// It costs what `open_image` and `against` do: 138 writes and syncs at most.
pub fn open_for<D: Disk>(alloc: Global, script: &Script, disk: D) -> Result<Kernel<D>, Unopened<D>>
    requires allowed { IsScript (tables_of script.now) }
    requires frames { (1 ≤ script.now.frames) × (script.now.frames ≤ 256) }
    ensures table { IfOk result (λ k. IsOpenedTable script.now.frames script.now.steps k.parts.store k.parts.cells) }
    ensures ready { D.tells → IfOk result (IsReady D.Disk (tables_of script.now) disk) }
    ensures fits { IfOk result (λ k. Fits (atlas_state_in k.parts.cells) (tables_of script.now)) }
    ensures nothing { IfOk result (λ k. (k.parts.noted.entries ≡ []) × (k.parts.noted.marks ≡ []) × (k.stop ≡ None)) }
    ensures clean { (s : Supply) → IfOk result (StaysClean D.Disk s) }
    ensures stops { IfErr result (λ stopped. StopsOpening (tables_of script.now)
        (seen_disk D.Disk disk stopped.disk) stopped.fault) }
    // An image that the script fits is opened, unless the disk fails or memory runs out.
    ensures complete { D.tells → (s : Supply) (w : KernelState) → Means s (D.reading disk) w → Fits (atlas_in (w 0).cell) (tables_of script.now)
        → IfErr result (λ stopped. HasFailedSince D.Disk disk stopped.disk ⊎ (stopped.fault ≡ AFault.Memory)) }
    ensures begins { MatchResult result
        (λ k. Begins 138 (shown D.Disk disk 0) (shown D.Disk k.parts.store.disk (books k.parts.store).begun))
        (λ stopped. HasBegun D.Disk 138 0 disk stopped.disk) }
{
    match open_image(alloc, disk, script.frames, script.steps) {
        Ok(kernel) => fit(alloc, script, kernel),
        Err(OpenFault { why, disk }) => Err(Unopened {
            fault: fault_of_opening(why),
            disk,
        }),
    }
}
