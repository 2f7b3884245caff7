//! The frames of a container's memory: which pages are resident, with their words, and which to evict next.
//!
//! Eviction is by second chance, on a clock (F. J. Corbató, A Paging Experiment with the Multics System, 1968): a
//! hand goes round the frames, and a page that was used since the hand last passed it is spared once. A table with
//! an entry for each page finds its frame in one step. All memory is taken when the frames are made.
#![tactic(auto)]

ghost use Rattle.std.specs.Prelude.{◌≡◌, ◌<◌, ◌≤◌, ◌↔◌, true, false, IsNone, IfSome, IfNone, OnSome, IfOk, Some, None, slice_set, is_some};
ghost use Rattle.data_frames.specs.FrameTable.{FrameTable, empty_table, page_at, page_in, IsResident, HasEmptyFrame, words_at, changed_at, used_at, word_at, page_taken, with_resident, IsBounded, Places, Removes, IsVictim};

mod clock;

use clock::{Frame, next_victim};
use slab::Slab;
use std::alloc::{AllocError as Memory, Global};
use std::marker::Model;

/// A fixed number of frames of 128 words each, and the pages that are resident in them.
#[derive(Drop)]
pub struct Frames {
    frames: u16,
    // the key of each page's frame
    table: [Option<usize>; 256],
    held: Slab<Frame>,
    // the key at which the clock's hand stands
    hand: usize,
}

impl Model for Frames {
    ghost use Rattle.data_frames.specs.FrameTable.{FrameTable};
    ghost use Rattle.data_frames.specs.Held.{table_of, IsSound};

    ghost Value = { FrameTable };

    ghost view = { λ f. table_of f.frames f.table f.held f.hand };

    ghost invariant = { λ f. IsSound f.frames f.table f.held };
}

impl Frames {
    /// So many empty frames, and the memory for their pages.
    pub fn new(alloc: Global, frames: u16) -> Result<Frames, Memory>
        requires some { 0 < frames }
        requires few { frames ≤ 256 }
        ensures { IfOk result (λ t. t ≡ empty_table frames) }
    {
        Ok(Frames {
            frames,
            table: [None; 256],
            held: Slab::with_capacity(alloc, frames as usize)?,
            hand: 0,
        })
    }

    /// How many frames there are.
    pub fn frames(&self) -> u16
        ensures value { result ≡ self.now.frames }
        ensures bounded { IsBounded self.now }
    {
        self.frames
    }

    /// The number of the frame that the page is in, if it is resident, in one step. No call takes such a number:
    /// two pages that are resident have different ones.
    pub fn find(&self, page: u8) -> Option<usize>
        ensures resident { is_some result ≡ is_some (page_at self.now page) }
        ensures frame { IfSome result (λ frame. page_in self.now frame ≡ Some page) }
    {
        let at = page as usize;
        self.table[at]
    }

    /// The page to evict next, or `None` where a frame is empty: the first unused page from the hand on, or the
    /// first where all are used. The pages that the hand passes lose their marks of use; nothing else changes. It
    /// looks at each frame twice at most.
    pub fn victim(&mut self) -> Option<u8>
        ensures none { IsNone result ↔ HasEmptyFrame self.old }
        ensures resident { IfSome result (λ page. IsResident self.old page) }
        ensures victim { IfSome result (λ page. IsVictim page self.old self.new) }
        ensures same { IfNone result (self.new ≡ self.old) }
    {
        if self.held.len() < self.frames as usize {
            return None;
        }
        let Some(key) = next_victim(&mut self.held, self.hand) else {
            unreachable!()
        };
        self.hand = key + 1;
        Some(self.held[key].page)
    }

    /// Makes the page resident with these words, in an empty frame. It is marked as used, and not as changed.
    pub fn place(&mut self, page: u8, words: &[u64; 128])
        requires room { HasEmptyFrame self.old }
        requires absent { page_at self.old page ≡ None }
        ensures bounded { IsBounded self.old }
        ensures places { Places page words.now self.old self.new }
    {
        let key = self.held.insert_reserved(Frame {
            page,
            words: *words,
            used: true,
            changed: false,
        });
        self.table[page as usize] = Some(key);
    }

    /// Takes the page out of its frame, if it is resident, and gives its words and its changed mark.
    pub fn remove(&mut self, page: u8) -> Option<([u64; 128], bool)>
        ensures value { result ≡ page_taken (page_at self.old page) }
        ensures absent { IfNone result (self.new ≡ self.old) }
        ensures gone { OnSome result (Removes page self.old self.new) }
    {
        let key = self.table[page as usize]?;
        let frame = self.held.remove(key);
        self.table[page as usize] = None;
        let words = frame.words;
        Some((words, frame.changed))
    }

    /// Reads a word of a resident page, and marks the page as used.
    pub fn word(&mut self, page: u8, place: u8) -> u64
        requires resident { IsResident self.old page }
        requires in_page { place < 128 }
        ensures value { result ≡ word_at self.old page place }
        ensures marked { self.new ≡ with_resident self.old page (words_at self.old page) (changed_at self.old page) true }
    {
        let Some(key) = self.table[page as usize] else {
            unreachable!()
        };
        let read = &mut self.held[key];
        read.used = true;
        read.words[place as usize]
    }

    /// Writes a word of a resident page, and marks the page as used and changed.
    pub fn set(&mut self, page: u8, place: u8, word: u64)
        requires resident { IsResident self.old page }
        requires in_page { place < 128 }
        ensures bounded { IsBounded self.old }
        ensures written { self.new ≡ with_resident self.old page (slice_set (words_at self.old page) place word) true true }
    {
        let Some(key) = self.table[page as usize] else {
            unreachable!()
        };
        let frame = &mut self.held[key];
        frame.used = true;
        frame.changed = true;
        frame.words[place as usize] = word;
    }

    /// The words and the changed mark of a resident page.
    pub fn copy_out(&self, page: u8) -> ([u64; 128], bool)
        requires { IsResident self.now page }
        ensures { result ≡ (words_at self.now page, changed_at self.now page) }
    {
        let Some(key) = self.table[page as usize] else {
            unreachable!()
        };
        let frame = &self.held[key];
        let words = frame.words;
        (words, frame.changed)
    }

    /// Whether the page is resident and marked as changed.
    pub fn is_changed(&self, page: u8) -> bool
        ensures { result ≡ changed_at self.now page }
    {
        match self.table[page as usize] {
            Some(key) => self.held[key].changed,
            None => false,
        }
    }

    /// Takes the changed mark from a resident page.
    pub fn clean(&mut self, page: u8)
        requires { IsResident self.old page }
        ensures { self.new ≡ with_resident self.old page (words_at self.old page) false (used_at self.old page) }
    {
        let Some(key) = self.table[page as usize] else {
            unreachable!()
        };
        self.held[key].changed = false;
    }

    /// Empties all frames. The memory stays reserved.
    pub fn clear(&mut self)
        ensures { self.new ≡ empty_table self.old.frames }
    {
        self.held.clear();
        let table = [None; 256];
        self.table = table;
        self.hand = 0;
    }
}
