// Why a mirrored run was halted.
use kernel_run_facts::Stop;
use node_rounds::RoundStop;

/// Why a mirrored run was halted.
#[derive(Clone, Copy, Debug, PartialEq, Eq)]
pub enum MirrorHalt {
    /// The kernel of the first node has stopped, in a call of the run or in a read of a record that was to be shipped.
    Kernel(Stop),
    /// Memory ran out for a shipment.
    Memory,
    /// A shipment that came was not taken.
    Round(RoundStop),
}

/// Why the new commits of a kernel were not offered, or a round was broken off.
#[derive(Clone, Copy, Debug, PartialEq, Eq)]
pub(crate) enum MirrorStop {
    /// A read failed, which has stopped the kernel.
    Reading,
    /// Memory ran out for a shipment.
    Memory,
    /// A shipment that came was not taken.
    Round(RoundStop),
}
