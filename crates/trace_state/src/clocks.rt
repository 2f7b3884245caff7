//! Vector clocks of all entities.
ghost use Rattle.std.specs.Prelude.{◌≡◌, ℕ, ◌<◌, ◌==◌, IfOk, if◌then◌else◌, length, max};
ghost use Rattle.data_stamps.specs.Stamps.{component};

use base_types::{Touch, Touched};
use data_stamps::Stamp;
use std::alloc::{AllocError, Global};

/// The vector clock of each entity.
#[derive(Drop)]
pub struct Clocks {
    /// One for each of the 64 entities.
    pub stamps: Vec<Stamp>,
    ghost all: { length stamps.items ≡ 64 },
}

/// Takes in a touched entity with its clock.
fn join(stamp: &mut Stamp, clock: &Stamp, touch: &Touch)
    ensures { (y : ℕ) → component stamp.new y ≡ max (max (component stamp.old y) (component clock.now y)) (if touch.now.entity == y then touch.now.version else 0) }
{
    stamp.meet(clock);
    stamp.raise(touch.entity, touch.version);
}

impl Clocks {
    ghost use Rattle.trace_state.specs.Clocks.{clock_at, joined_in};
    ghost use Rattle.trace_state.specs.Flags.{wrote_in};

    /// Clocks that tell nothing.
    pub fn new(alloc: Global) -> Result<Clocks, AllocError>
        ensures { IfOk result (λ clocks. (x y : ℕ) → clock_at clocks x y ≡ 0) }
    {
        let stamp = Stamp::new();
        let stamps = Vec::from_array(alloc, [stamp; 64])?;
        Ok(Clocks { stamps })
    }

    /// The clock of the entity with this number.
    pub fn at(&self, x: usize) -> Stamp
        requires { x < 64 }
        ensures { (y : ℕ) → component result y ≡ clock_at self.now x y }
    {
        self.stamps[x]
    }

    /// The clock of what an event with these touches writes.
    fn joined(&self, touched: &[Touch]) -> Stamp
        ensures { (y : ℕ) → component result y ≡ joined_in (clock_at self.now) touched.now y }
    {
        let mut stamp = Stamp::new();
        for touch in touched {
            let other = self.at(touch.entity.number() as usize);
            join(&mut stamp, &other, touch);
        }
        stamp
    }

    /// Gives the entity with this number a clock.
    fn put(&mut self, x: usize, stamp: &Stamp)
        requires { x < 64 }
        ensures { (z y : ℕ) → z < 64 → clock_at self.new z y ≡ (if x == z then component stamp.now y else clock_at self.old z y) }
    {
        self.stamps[x] = *stamp;
    }

    /// Takes in an event: each written entity gets the clock that joins those of all touched ones. What it costs doesn't grow
    /// with the history.
    pub fn take_in(&mut self, touched: Touched)
        ensures { (x y : ℕ) → x < 64 → clock_at self.new x y
            ≡ (if wrote_in touched x then joined_in (clock_at self.old) touched y else clock_at self.old x y) }
    {
        let touches = touched.as_slice();
        let stamp = self.joined(touches);
        for touch in touches {
            if touch.wrote {
                self.put(touch.entity.number() as usize, &stamp);
            }
        }
    }
}
