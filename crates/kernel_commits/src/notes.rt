// The history of a run with its marks, in room that is taken once.
ghost use Rattle.std.specs.Prelude.{◌≡◌, ◌+◌, ◌<◌, ◌≤◌, ◌++◌, ◌∷◌, [], IfOk, length, take};

use base_types::Entry;
use std::alloc::{AllocError, Global};
use std::marker::Model;

/// The entries of a run and the marks of its commits, in room for so many of each.
#[derive(Drop)]
pub struct Notes {
    entries: Vec<Entry>,
    marks: Vec<u64>,
    room: usize,
}

impl Model for Notes {
    ghost use Rattle.std.specs.Prelude.{◌≤◌, vec_capacity};
    ghost use Rattle.kernel_commit_facts.specs.Parts.{Noted};

    ghost Value = { Noted };

    ghost view = { λ n. record { entries = n.entries.items; marks = n.marks.items; room = n.room } };

    ghost invariant = { λ n. (n.room ≤ vec_capacity n.entries) × (n.room ≤ vec_capacity n.marks) };
}

impl Notes {
    /// Takes room for so many entries and marks.
    pub fn new(alloc: Global, room: usize) -> Result<Notes, AllocError>
        ensures { IfOk result (λ n. (n.entries ≡ []) × (n.marks ≡ []) × (n.room ≡ room)) }
    {
        Ok(Notes {
            entries: Vec::with_capacity(alloc, room)?,
            marks: Vec::with_capacity(alloc, room)?,
            room,
        })
    }

    pub fn entries(&self) -> &[Entry]
        ensures { result.now ≡ self.now.entries }
    {
        &self.entries
    }

    pub fn marks(&self) -> &[u64]
        ensures { result.now ≡ self.now.marks }
    {
        &self.marks
    }

    /// The entries and the marks.
    pub fn into_lists(self) -> (Vec<Entry>, Vec<u64>)
        ensures { (result.0.items ≡ self.entries) × (result.1.items ≡ self.marks) }
    {
        (self.entries, self.marks)
    }

    /// Adds an entry at the end. It takes no memory.
    pub fn push_entry(&mut self, entry: &Entry)
        requires room { length self.old.entries < self.old.room }
        ensures { self.new ≡ record self.old { entries = self.old.entries ++ entry.now ∷ [] } }
    {
        self.entries.push_reserved(*entry);
    }

    /// Adds a mark at the end. It takes no memory.
    pub fn push_mark(&mut self, mark: u64)
        requires room { length self.old.marks < self.old.room }
        ensures { self.new ≡ record self.old { marks = self.old.marks ++ mark ∷ [] } }
    {
        self.marks.push_reserved(mark);
    }

    /// Takes out what came behind so many entries and so many marks.
    pub fn cut_back(&mut self, entries: usize, marks: usize)
        ensures { self.new ≡ record self.old { entries = take entries self.old.entries; marks = take marks self.old.marks } }
    {
        self.entries.truncate(entries);
        self.marks.truncate(marks);
    }
}
