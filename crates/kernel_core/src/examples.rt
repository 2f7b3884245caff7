//! A client that takes kernels apart: what it learns by the contracts alone.
ghost use Rattle.std.specs.Prelude.{◌≡◌, Err, IfSome};
ghost use Rattle.kernel_core_facts.specs.Kernels.{StaysClean};
ghost use Rattle.kernel_core_facts.specs.kernel_commits.Telling.{told_again};

use crate::kernels::Kernel;
use base_types::{Entity, Entry};
use edge_disk::Disk;
use edge_managers::{Gate, Policy, Supplier};
use kernel_core_facts::Stop;

/// Whatever a kernel has stopped for, it is the same kernel after it was taken apart and put together.
pub fn taken_apart<D: Disk>(kernel: Kernel<D>) -> Kernel<D>
    ensures { result ≡ kernel }
{
    Kernel::together(kernel.apart())
}

/// So one that has stopped does nothing afterwards, whatever the locus, and tells why as it would have.
pub fn step_behind<D: Disk, S: Supplier, P: Policy>(
    kernel: Kernel<D>,
    me: Entity,
    gate: &Gate<S, P>,
) -> (Kernel<D>, Result<Entry, Stop>)
    requires keeps { S.keeps gate.now.supply }
    requires wishes { P.keeps gate.now.policy }
    requires clean { StaysClean D.Disk (S.word gate.now.supply) kernel }
    ensures { IfSome kernel.stop (λ why. (result.1 ≡ Err (told_again why)) × (result.0 ≡ kernel)) }
{
    let mut kernel = taken_apart(kernel);
    let answer = kernel.step(me, gate);
    (kernel, answer)
}
