//! The two managers of a kernel, and the gate through which it asks them.
//!
//! A supplier gives the words that a page has before the first store to it, and a policy says when an
//! entity is due for a snapshot. Each has one answer to each input in range: its ghost member is a function of
//! the input, so that the contracts of all that is built on a gate can name the answers. A second member says
//! that the manager may be asked, and then answers so: of a type that is written as a manager this is always
//! true, and of a closure it is what its caller has shown.
#![tactic(auto)]

ghost use Rattle.std.specs.Prelude.{◌≡◌, ℕ, ◌<◌, Bool, slice_index};

mod asked;
mod managers;

pub use asked::{Answers, AskedPolicy, AskedSupplier};
pub use managers::{CountedWords, EveryVersions};

/// What gives the first word at each place of each page.
pub trait Supplier {
    // its word for a tag, a page and a place
    ghost word: { Self → ℕ → ℕ → ℕ → ℕ };

    // it may be asked about all input in range, and answers so
    ghost keeps: { Self → Type 0 };

    /// The word at a place, below 128, of a page, below 256, of the tag.
    fn word(&self, tag: u64, page: u32, place: u16) -> u64
        requires keeps { keeps self.now }
        requires page { page < 256 }
        requires place { place < 128 }
        ensures { result ≡ word self.now tag page place };
}

/// What says when an entity is due for a snapshot.
pub trait Policy {
    // its answer for an interval and the number of versions since the last snapshot
    ghost wish: { Self → ℕ → ℕ → Bool };

    // it may be asked about all input in range, and answers so
    ghost keeps: { Self → Type 0 };

    /// Whether an entity with this `every` is due, `since` versions after its last snapshot.
    fn wish(&self, every: u32, since: u64) -> bool
        requires { keeps self.now }
        ensures { result ≡ wish self.now every since };
}

/// A supplier and a policy. Both may be types of their own, references to such, or closures that are wrapped
/// in `AskedSupplier` and `AskedPolicy`.
#[derive(Drop)]
pub struct Gate<S, P> {
    pub supply: S,
    pub policy: P,
}

impl<S: Supplier, P: Policy> Gate<S, P> {
    /// Keeps the two.
    pub fn new(supply: S, policy: P) -> Self
        ensures supply { result.supply ≡ supply }
        ensures policy { result.policy ≡ policy }
    {
        Gate { supply, policy }
    }

    /// Fills `out` with the supplier's words of page `n` of the tag. The supplier is asked 128 times.
    pub fn page(&self, tag: u64, n: u32, out: &mut [u64; 128])
        requires keeps { S.keeps self.now.supply }
        requires page { n < 256 }
        ensures { (k : ℕ) → k < 128 → slice_index out.new k ≡ S.word self.now.supply tag n k }
    {
        for place in 0..128u16 {
            out[place as usize] = self.supply.word(tag, n, place);
        }
    }

    /// Whether the policy wishes a snapshot.
    pub fn wishes(&self, every: u32, since: u64) -> bool
        requires { P.keeps self.now.policy }
        ensures { result ≡ P.wish self.now.policy every since }
    {
        self.policy.wish(every, since)
    }
}
