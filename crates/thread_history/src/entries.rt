//! Entries of a kernel's history in a chronicle: an entry touches at most three entities, whose shares are lent one by one.
ghost use Rattle.std.specs.Prelude.{◌≡◌, ◌+◌, ◌<◌, ◌++◌, ◌∷◌, [], length, map};
ghost use Rattle.model_kernel.specs.Histories.{touches, writes};
ghost use Rattle.thread_history.specs.Given.{AllGrew, AllHave, AreThoseOf, came, knowing, left};

use crate::chronicles::Chronicle;
use crate::shares::{Run, Share};
use base_types::Entry;

impl<B: Run<Entry>> Chronicle<Entry, B> {
    /// Appends the entry, and answers its place in the whole history. The shares of all entities that it touches are given, each once,
    /// and no others. Afterwards each knows the history with the entry. The list of each share whose entity it writes grew by it, and
    /// that of a share whose entity it only reads stayed. At most 34 steps at the table.
    pub fn append<'s>(
        &mut self,
        entry: Entry,
        a: Option<&'s mut Share<Entry, B>>,
        b: Option<&'s mut Share<Entry, B>>,
        c: Option<&'s mut Share<Entry, B>>,
    ) -> u64
        requires room { 0 < self.old.room }
        requires shares { AreThoseOf touches entry (came a ++ came b ++ came c) }
        ensures place { result ≡ length B.kept + length self.old.since }
        ensures chronicle { (self.new.since ≡ self.old.since ++ entry ∷ []) × (self.new.room + 1 ≡ self.old.room) }
        ensures a { left a.exit ≡ map (knowing self.new.since) (came a.entry) }
        ensures b { left b.exit ≡ map (knowing self.new.since) (came b.entry) }
        ensures c { left c.exit ≡ map (knowing self.new.since) (came c.entry) }
        ensures quiet { AllHave writes self.old.since (came a.entry ++ came b.entry ++ came c.entry) }
        ensures lists { AllGrew writes entry self.new.since (came a.entry ++ came b.entry ++ came c.entry) }
    {
        match a {
            Some(a) => match b {
                Some(b) => match c {
                    Some(c) => return self.append_with_three(entry, a, b, c),
                    None => return self.append_with_two(entry, a, b),
                },
                None => match c {
                    Some(c) => return self.append_with_two(entry, a, c),
                    None => return self.append_with_one(entry, a),
                },
            },
            None => match b {
                Some(b) => match c {
                    Some(c) => return self.append_with_two(entry, b, c),
                    None => return self.append_with_one(entry, b),
                },
                None => match c {
                    Some(c) => return self.append_with_one(entry, c),
                    None => return self.append_alone(entry),
                },
            },
        }
    }
}
