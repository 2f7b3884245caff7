/// Why the newest record of an entity was not read.
#[derive(Clone, Copy, Debug, PartialEq, Eq)]
pub enum ShipFault {
    /// A read failed.
    ReadFault,
    /// An earlier call failed at the disk.
    Shut,
    /// Memory ran out, or a disk that doesn't tell its bytes gave some that spell nothing.
    Memory,
}
