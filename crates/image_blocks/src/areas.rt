// The two areas of an image, and where their blocks are.
ghost use Rattle.std.specs.Prelude.{◌≡◌, ◌<◌, ◌+◌};
ghost use Rattle.image_blocks.specs.Layout.{other, header_at, gate_at, body_at};
ghost use Rattle.image_facts.specs.Layout.{pool_at, slot_count};

// The first block of the slots of area A, and of those of area B.
const SLOTS_OF_A: u32 = 5;

const SLOTS_OF_B: u32 = 1285;

/// An area of the log.
#[derive(Clone, Copy, Debug, PartialEq, Eq)]
pub enum Area {
    A,
    B,
}

/// The other area.
pub fn other_area(area: Area) -> Area
    ensures { result ≡ other area }
{
    match area {
        Area::A => Area::B,
        Area::B => Area::A,
    }
}

/// The block of an area's header.
pub fn header_of(area: Area) -> u32
    ensures at { result ≡ header_at area }
    ensures low { result < pool_at }
{
    match area {
        Area::A => 1,
        Area::B => 3,
    }
}

/// The block of an area's gate.
pub fn gate_of(area: Area) -> u32
    ensures at { result ≡ gate_at area }
    ensures low { result < pool_at }
{
    match area {
        Area::A => 2,
        Area::B => 4,
    }
}

/// The block of a slot's body. The next one is the slot's gate.
pub fn body_of(area: Area, slot: u16) -> u32
    requires { slot < slot_count }
    ensures at { result ≡ body_at area slot }
    ensures low { result + 1 < pool_at }
{
    match area {
        Area::A => SLOTS_OF_A + 2 * slot as u32,
        Area::B => SLOTS_OF_B + 2 * slot as u32,
    }
}
