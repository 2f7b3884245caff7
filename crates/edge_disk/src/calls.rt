// What a disk in memory keeps of its calls.
ghost use Rattle.edge_disk.specs.Disk.{Ticks};

/// What becomes of a pending block, one that was written since the last sync, where the machine stops.
#[derive(Clone, Copy, Debug, PartialEq, Eq)]
pub enum Torn {
    /// It is as the last sync left it.
    Old,
    /// It is as it reads.
    New,
    /// All its bytes are this one.
    Fill(u8),
}

// A write or a sync.
#[derive(Drop)]
pub(crate) enum Call {
    Write { at: u32, block: [u8; 1024] },
    FailedWrite { at: u32 },
    Sync,
    FailedSync,
}

// Adds one to a count, which stands still at its end.
pub(crate) fn count_up(count: &mut u64)
    ensures { Ticks count.old count.new }
{
    *count = count.saturating_add(1);
}
