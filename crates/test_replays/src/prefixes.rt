//! How far a run came that was stopped, and what was acknowledged until then.
ghost use Rattle.std.specs.Prelude.{◌≤◌, length};

use base_types::{Entry, Event};

/// How many entries both begin with.
pub fn common(whole: &[Entry], part: &[Entry]) -> usize
    ensures { result ≤ length part.now }
{
    let least = whole.len().min(part.len());
    for place in 0..least {
        if whole[place] != part[place] {
            return place;
        }
    }
    least
}

/// What a kernel that a fault stopped has made: a front of the whole run, then, if a Stable was next, Snaps in its place, and at most one
/// Tried at the end.
pub fn is_cut_off(whole: &[Entry], part: &[Entry]) -> bool {
    let len = common(whole, part);
    let stable = match whole.get(len) {
        Some(entry) => entry.event == Event::Stable,
        None => false,
    };
    for place in len..part.len() {
        let event = part[place].event;
        let snap = stable && event == Event::Snap;
        let tried = event == Event::Tried && place == part.len() - 1;
        if !snap && !tried {
            return false;
        }
    }
    true
}

/// How many commits are acknowledged by a moment, which counts from the opening's start.
pub fn acknowledged(behind: &[usize], marks: &[u64], moment: u64) -> usize {
    let mut count = 0;
    for (mark, made) in marks.iter().zip(behind) {
        if *mark <= moment {
            count = *made;
        }
    }
    count
}

/// Each mark is at least the one before and at most the end.
pub fn are_rising(marks: &[u64], end: u64) -> bool {
    let mut last = 0;
    for mark in marks {
        if *mark < last || end < *mark {
            return false;
        }
        last = *mark;
    }
    true
}
