// A running kernel goes on by a birth over its cells. The function does nothing: its contract is the law.
ghost use Rattle.kernel_core_facts.specs.Births.{BirthLaw};

use edge_disk::Disk;

/// A kernel whose run is in its births goes on by the next one over its cells. The store stays as it is.
pub fn birth_law<D: Disk>()
    ensures { BirthLaw D.Disk }
{}
