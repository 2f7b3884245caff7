ghost use Rattle.std.specs.Prelude.{◌≡◌, ℕ, ◌+◌, ◌<◌, ◌≤◌, ◌⊎◌, IfSome, IfNone, None};
ghost use Rattle.slab.specs.Slab.{get, ContainsKey};
ghost use Rattle.data_frames.specs.Held.{SameButUsed, Spares, is_unused, PassesTo, AllCleared, IsFirstKey, IsChosen};

use slab::Slab;

/// A frame with a page in it.
#[derive(Drop)]
pub(crate) struct Frame {
    pub(crate) page: u8,
    pub(crate) words: [u64; 128],
    pub(crate) used: bool,
    pub(crate) changed: bool,
}

/// Whether the frame under the key is there and has no mark of use. If it has one, it loses it.
fn stops_at(held: &mut Slab<Frame>, key: usize) -> bool
    ensures value { result ≡ is_unused (get held.old key) }
    ensures spares { Spares key held.old held.new }
{
    let Some(frame) = held.get_mut(key) else {
        return false;
    };
    let used = frame.used;
    frame.used = false;
    !used
}

/// The key so many steps on from the start, where the last key is followed by the first.
fn key_after(start: usize, keys: usize, step: usize) -> usize
    requires start { start ≤ keys }
    requires step { step < keys }
    ensures within { result < keys }
    ensures turn { (result ≡ start + step) ⊎ (result + keys ≡ start + step) }
{
    if step < keys - start {
        start + step
    } else {
        step - (keys - start)
    }
}

/// The key of the first unused frame from the hand on, if there is one. The frames before it lose their marks.
fn first_unused(held: &mut Slab<Frame>, hand: usize) -> Option<usize>
    ensures kept { SameButUsed held.old held.new }
    ensures found { IfSome result (λ key. ContainsKey held.old key) }
    ensures within { IfSome result (λ key. key < usize.MAX) }
    ensures passes { IfSome result (λ key. PassesTo hand key held.old held.new) }
    ensures none { IfNone result (AllCleared held.old held.new) }
{
    let keys = held.capacity();
    let start = hand.min(keys);
    for step in 0..keys {
        let key = key_after(start, keys, step);
        if stops_at(held, key) {
            return Some(key);
        }
    }
    None
}

/// The key of the first frame from the hand on, if there is one.
fn first_frame(held: &Slab<Frame>, hand: usize) -> Option<usize>
    ensures found { IfSome result (λ key. ContainsKey held.now key) }
    ensures within { IfSome result (λ key. key < usize.MAX) }
    ensures first { IfSome result (λ key. IsFirstKey hand key held.now) }
    ensures none { IfNone result ((key : ℕ) → get held.now key ≡ None) }
{
    let keys = held.capacity();
    let start = hand.min(keys);
    for step in 0..keys {
        let key = key_after(start, keys, step);
        if held.contains(key) {
            return Some(key);
        }
    }
    None
}

/// The key of the frame to evict next, where the hand stands at this key: the first from there on that isn't
/// marked as used, or else the first. The frames that the hand passes lose their marks. It looks at each key once,
/// and where all frames are used at some of them once more.
pub(crate) fn next_victim(held: &mut Slab<Frame>, hand: usize) -> Option<usize>
    ensures kept { SameButUsed held.old held.new }
    ensures found { IfSome result (λ key. ContainsKey held.old key) }
    ensures within { IfSome result (λ key. key < usize.MAX) }
    ensures chosen { IfSome result (λ key. IsChosen hand key held.old held.new) }
    ensures none { IfNone result ((key : ℕ) → get held.old key ≡ None) }
{
    match first_unused(held, hand) {
        Some(key) => Some(key),
        None => first_frame(held, hand),
    }
}
