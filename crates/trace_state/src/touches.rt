//! What an event writes.
ghost use Rattle.std.specs.Prelude.{◌≡◌};
ghost use Rattle.trace_state.specs.Flags.{wrote_in};

use base_types::Touch;

/// Whether the touches write the entity with this number.
pub fn writes(touched: &[Touch], x: usize) -> bool
    ensures { result ≡ wrote_in touched.now x }
{
    touched
        .iter()
        .any(|t| t.entity.number() as usize == x && t.wrote)
}
