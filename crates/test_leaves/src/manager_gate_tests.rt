ghost use Rattle.std.specs.Prelude.{◌≡◌, ℕ, ◌<◌, ◌^◌, ◌==◌, ⊤, Bool};
ghost use Rattle.edge_managers.specs.Managers.{counted_word, is_due};

use edge_managers::{
    Answers, AskedPolicy, AskedSupplier, CountedWords, EveryVersions, Gate, Policy, Supplier,
};
use std::marker::{Brand, PhantomData};

// The word at a place, by a caller that is generic in the managers.
fn word_at<S: Supplier, P: Policy>(gate: &Gate<S, P>, tag: u64, n: u32, k: u16) -> u64
    requires keeps { S.keeps gate.now.supply }
    requires page { n < 256 }
    requires place { k < 128 }
    ensures { result ≡ S.word gate.now.supply tag n k }
{
    let mut words = [0; 128];
    gate.page(tag, n, &mut words);
    words[k as usize]
}

#[test]
fn the_default_managers_answer_by_tag_page_and_interval(rt: HostRuntime) {
    let gate = Gate::new(CountedWords, EveryVersions);
    for &(tag, n, k, want) in &[
        (0, 255, 127, 0),
        (7, 1, 2, 137),
        (1000, 0, 0, 1000),
        (u64::MAX, 0, 1, 0),
        (1, 255, 127, 32768),
    ] {
        assert!(rt; n < 256 && k < 128);
        assert!(rt;
            word_at(&gate, tag, n, k) == want,
            "tag {tag}, page {n}, place {k}"
        );
    }
    for &(every, since, want) in &[
        (0, 5, false),
        (1, 0, false),
        (1, 1, true),
        (2, 1, false),
        (2, 2, true),
        (3, u64::MAX, true),
    ] {
        assert!(rt;
            gate.wishes(every, since) == want,
            "every {every}, since {since}"
        );
    }
}

// A supplier with a state: all words are its number.
struct Constant(u64);

impl Supplier for Constant {
    ghost word = { λ c _ _ _. c.0 };

    ghost keeps = { λ _. ⊤ };

    fn word(&self, _tag: u64, _page: u32, _place: u16) -> u64 {
        self.0
    }
}

// A policy with a state: the one version at which a snapshot is due.
struct Once(u64);

impl Policy for Once {
    ghost wish = { λ o _ since. since == o.0 };

    ghost keeps = { λ _. ⊤ };

    fn wish(&self, _every: u32, since: u64) -> bool {
        since == self.0
    }
}

#[test]
fn managers_may_keep_a_value(rt: HostRuntime) {
    let gate = Gate::new(Constant(9), Once(3));
    assert!(rt; word_at(&gate, 4, 0, 0) == 9);
    assert!(rt; gate.wishes(0, 3));
    assert!(rt; !gate.wishes(1, 4));
    let Gate {
        supply: Constant(_),
        policy: Once(_),
    } = gate;
}

// The word at a place, asked of closures through a gate.
fn word_by<F: Fn(u64, u32, u16) -> u64, G: Fn(u32, u64) -> bool, N: Answers>(
    ask: &F,
    wish: &G,
    tag: u64,
    n: u32,
    k: u16,
) -> (u64, bool)
    requires callable { (t p a : ℕ) → t < 2 ^ 64 → p < 256 → a < 128 → F.pre ask.now t p a }
    requires answers { (t p a r : ℕ) → t < 2 ^ 64 → p < 256 → a < 128 → F.post ask.now t p a r → r ≡ N.word t p a }
    requires wished { (e v : ℕ) → e < 2 ^ 32 → v < 2 ^ 64 → G.pre wish.now e v }
    requires wishes { (e v : ℕ) (r : Bool) → e < 2 ^ 32 → v < 2 ^ 64 → G.post wish.now e v r → r ≡ N.wish e v }
    requires page { n < 256 }
    requires place { k < 128 }
    ensures word { result.0 ≡ N.word tag n k }
    ensures wish { result.1 ≡ N.wish n tag }
{
    let supply = AskedSupplier::<'_, F, N> {
        ask,
        of: PhantomData,
    };
    let policy = AskedPolicy::<'_, G, N> {
        ask: wish,
        of: PhantomData,
    };
    let gate = Gate::new(&supply, &policy);
    (word_at(&gate, tag, n, k), gate.wishes(n, tag))
}

// The same, where the caller names the answers.
fn top_word<F: Fn(u64, u32, u16) -> u64, G: Fn(u32, u64) -> bool>(
    ask: &F,
    wish: &G,
    tag: u64,
    n: u32,
    k: u16,
) -> (u64, bool)
    ghost s: { (ℕ → ℕ → ℕ → ℕ) × (ℕ → ℕ → Bool) }
    requires callable { (t p a : ℕ) → t < 2 ^ 64 → p < 256 → a < 128 → F.pre ask.now t p a }
    requires answers { (t p a r : ℕ) → t < 2 ^ 64 → p < 256 → a < 128 → F.post ask.now t p a r → r ≡ s.0 t p a }
    requires wished { (e v : ℕ) → e < 2 ^ 32 → v < 2 ^ 64 → G.pre wish.now e v }
    requires wishes { (e v : ℕ) (r : Bool) → e < 2 ^ 32 → v < 2 ^ 64 → G.post wish.now e v r → r ≡ s.1 e v }
    requires page { n < 256 }
    requires place { k < 128 }
    ensures word { result.0 ≡ s.0 tag n k }
    ensures wish { result.1 ≡ s.1 n tag }
{
    word_by::<F, G, Brand>(ask, wish, tag, n, k)
}

// The default managers, each behind a closure.
fn through_closures(tag: u64, n: u32, k: u16) -> (u64, bool)
    requires page { n < 256 }
    requires place { k < 128 }
    ensures word { result.0 ≡ counted_word tag n k }
    ensures wish { result.1 ≡ is_due n tag }
{
    let ask = |tag, page, place| CountedWords.word(tag, page, place);
    let wish = |every, since| EveryVersions.wish(every, since);
    top_word(&ask, &wish, tag, n, k)
}

#[test]
fn closures_stand_in_a_gate(rt: HostRuntime) {
    assert!(rt; through_closures(7, 1, 2) == (137, true));
    assert!(rt; through_closures(0, 255, 127) == (0, false));
}
