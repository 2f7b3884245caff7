// Bad places, and the first of several.
ghost use Rattle.std.specs.Prelude.{◌≡◌, ◌≤◌};
ghost use Rattle.image_facts.specs.model_kernel.Words.{first};
ghost use Rattle.image_facts.specs.Checks.{unless_at as place_unless, zeros_from};

use edge_disk::BLOCK_BYTES;

/// A bad place of an image: a block, and a byte of it from 0 to 1,023.
#[derive(Clone, Copy, Debug, PartialEq, Eq)]
pub struct Bad {
    pub block: u32,
    pub place: u16,
}

// The place, where the test fails.
pub(crate) fn unless_at(test: bool, place: u16) -> Option<u16>
    ensures { result ≡ place_unless test place }
{
    if test { None } else { Some(place) }
}

// The first place that is there.
pub(crate) fn first_place(places: &[Option<u16>]) -> Option<u16>
    ensures { result ≡ first places.now }
{
    for place in places {
        if place.is_some() {
            return *place;
        }
    }
    None
}

// The first byte from a place on that isn't 0.
pub(crate) fn nonzero_from(block: &[u8; 1024], place: u16) -> Option<u16>
    requires { place ≤ BLOCK_BYTES }
    ensures { result ≡ zeros_from place block.now }
{
    for i in place..1024 {
        if block[i as usize] != 0 {
            return Some(i);
        }
    }
    None
}
