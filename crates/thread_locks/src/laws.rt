//! A law. The function does nothing: its contract is the law.
ghost use Rattle.std.specs.Prelude.{◌≡◌, []};
ghost use Rattle.kernel_run_facts.specs.kernel_core_facts.Kernels.{Held, NotesAlong};
ghost use Rattle.kernel_run_facts.specs.kernel_core_facts.kernel_invariant.Beginnings.{Beginning};
ghost use Rattle.kernel_run_facts.specs.kernel_core_facts.model_serial.Serial.{opening};
ghost use Rattle.kernel_run_facts.specs.Alongs.{IsAlong};

use edge_disk::Disk;

/// A kernel behind its births (`notes` of `Kernel::births`) is behind looks at no locus, or was stopped in them: so it may be put under locks.

pub fn births_law<D: Disk>()
    ensures { (b : Beginning) (old new : Held D) → old.parts.noted.entries ≡ [] → NotesAlong D.Disk b (opening b.supply b.script b.state) old new → IsAlong D.Disk b new }
{}
