ghost use Rattle.std.specs.Prelude.{⊤};
ghost use Rattle.edge_managers.specs.Managers.{counted_word, is_due};

use crate::{Policy, Supplier};

/// The supplier whose words count up from the tag, page by page, and wrap at 64 bits. Tag 0 has only zeros.
#[derive(Clone, Copy)]
pub struct CountedWords;

impl Supplier for CountedWords {
    ghost word = { λ _. counted_word };

    ghost keeps = { λ _. ⊤ };

    fn word(&self, tag: u64, page: u32, place: u16) -> u64 {
        if tag == 0 {
            0
        } else {
            tag.wrapping_add((page * 128 + place as u32) as u64)
        }
    }
}

/// The policy that wishes a snapshot after `every` versions, and none where `every` is 0.
#[derive(Clone, Copy)]
pub struct EveryVersions;

impl Policy for EveryVersions {
    ghost wish = { λ _. is_due };

    ghost keeps = { λ _. ⊤ };

    fn wish(&self, every: u32, since: u64) -> bool {
        every != 0 && since >= every as u64
    }
}
