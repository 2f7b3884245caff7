// What an event tells of the entities that it touches, and clocks that take it in.
ghost use Rattle.std.specs.Prelude.{◌≡◌, ◌==◌, ◌+◌, ◌<◌, ◌^◌, ℕ, max, if◌then◌else◌, true, false};
ghost use Rattle.data_stamps.specs.Stamps.{component};

use crate::Clock;
use base_types::Touch;
use data_stamps::Stamp;

/// What an event tells of an entity that it writes.
pub(crate) fn step_touch(clock: &Clock) -> Touch
    requires { clock.now.version < 2 ^ 63 }
    ensures { result ≡ record { version = clock.now.version + 1; entity = clock.now.entity; wrote = true } }
{
    Touch {
        version: clock.version + 1,
        entity: clock.entity,
        wrote: true,
    }
}

/// What an event tells of an entity that it only reads.
pub(crate) fn read_touch(clock: &Clock) -> Touch
    ensures { result ≡ record { version = clock.now.version; entity = clock.now.entity; wrote = false } }
{
    Touch {
        version: clock.version,
        entity: clock.entity,
        wrote: false,
    }
}

/// Takes in a touched entity at its version.
pub(crate) fn raise(stamp: &mut Stamp, touch: &Touch)
    ensures { (y : ℕ) → component stamp.new y ≡ max (component stamp.old y) (if touch.now.entity == y then touch.now.version else 0) }
{
    stamp.raise(touch.entity, touch.version);
}

/// Takes in another clock, and two touched entities at their versions.
pub(crate) fn join(stamp: &mut Stamp, other: &Stamp, first: &Touch, second: &Touch)
    ensures { (y : ℕ) → component stamp.new y ≡ max (max (max (component stamp.old y) (component other.now y)) (if first.now.entity == y then first.now.version else 0)) (if second.now.entity == y then second.now.version else 0) }
{
    stamp.meet(other);
    raise(stamp, first);
    raise(stamp, second);
}
