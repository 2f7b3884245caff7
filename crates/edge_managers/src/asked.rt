//! References and closures as managers.
ghost use Rattle.std.specs.Prelude.{◌≡◌, ℕ, ◌<◌, ◌^◌, Bool, false};

use crate::{Policy, Supplier};
use std::marker::{Brand, PhantomData};

/// The answers of two managers that are closures, as a type: what asks them is generic in it, and whoever hands
/// the closures in picks the answers at `Brand`.
pub trait Answers {
    // the supplier's word for a tag, a page and a place
    ghost word: { ℕ → ℕ → ℕ → ℕ };

    // the policy's answer for an interval and a number of versions
    ghost wish: { ℕ → ℕ → Bool };
}

impl Answers for Brand {
    ghost word = { λ _ _ _. 0 };

    ghost wish = { λ _ _. false };
}

/// A closure as a supplier. It keeps its word where it may be called on everything in range, and gives there the
/// words that `N` names.
#[derive(Drop)]
pub struct AskedSupplier<'a, F, N> {
    pub ask: &'a F,
    pub of: PhantomData<N>,
}

impl<'a, F: Fn(u64, u32, u16) -> u64, N: Answers> Supplier for AskedSupplier<'a, F, N> {
    ghost word = { λ _. N.word };

    ghost keeps = { λ asked. ((tag page place : ℕ) → tag < 2 ^ 64 → page < 256 → place < 128 → F.pre asked.ask.now tag page place)
        × ((tag page place word : ℕ) → tag < 2 ^ 64 → page < 256 → place < 128 → F.post asked.ask.now tag page place word → word ≡ N.word tag page place) };

    fn word(&self, tag: u64, page: u32, place: u16) -> u64 {
        (self.ask)(tag, page, place)
    }
}

/// A closure as a policy. It keeps its word where it may be called on everything in range, and gives there the
/// answers that `N` names.
#[derive(Drop)]
pub struct AskedPolicy<'a, F, N> {
    pub ask: &'a F,
    pub of: PhantomData<N>,
}

impl<'a, F: Fn(u32, u64) -> bool, N: Answers> Policy for AskedPolicy<'a, F, N> {
    ghost wish = { λ _. N.wish };

    ghost keeps = { λ asked. ((every since : ℕ) → every < 2 ^ 32 → since < 2 ^ 64 → F.pre asked.ask.now every since)
        × ((every since : ℕ) (answer : Bool) → every < 2 ^ 32 → since < 2 ^ 64 → F.post asked.ask.now every since answer → answer ≡ N.wish every since) };

    fn wish(&self, every: u32, since: u64) -> bool {
        (self.ask)(every, since)
    }
}

impl<S: Supplier> Supplier for &S {
    ghost word = { λ shared. S.word shared.now };

    ghost keeps = { λ shared. S.keeps shared.now };

    fn word(&self, tag: u64, page: u32, place: u16) -> u64 {
        (**self).word(tag, page, place)
    }
}

impl<P: Policy> Policy for &P {
    ghost wish = { λ shared. P.wish shared.now };

    ghost keeps = { λ shared. P.keeps shared.now };

    fn wish(&self, every: u32, since: u64) -> bool {
        (**self).wish(every, since)
    }
}
