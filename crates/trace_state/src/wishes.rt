//! Wishes for snapshot records.
ghost use Rattle.std.specs.Prelude.{◌≡◌, ℕ, ◌<◌, ◌&&◌, ◌||◌, ◌-◌, ◌^◌, Bool, not, false, true, slice_index};
ghost use Rattle.data_cuts.specs.model_kernel.Histories.{with_asked};
ghost use Rattle.data_cuts.specs.model_kernel.Words.{put};
ghost use Rattle.data_cuts.specs.data_cut_facts.Searches.{mark_at};
ghost use Rattle.trace_state.specs.Flags.{wrote_in};

use crate::touches::writes;
use base_types::{Entity, Touch, Touched};

/// What the wishes of each entity rest on.
#[derive(Clone, Copy)]
pub struct Wishes {
    /// The version of its newest commit, 0 for none.
    pub newest: [u64; 64],
    /// A step wrote it last, and it has no commit since.
    pub by_step: [bool; 64],
    /// A `snap` named it after its newest commit.
    pub asked: [bool; 64],
    /// It was full since the last step that writes it.
    pub was_full: [bool; 64],
    /// It is full: four commits or more are at or above the cut.
    pub full: [bool; 64],
}

/// Unmarks what the touches write.
fn unmark(marks: &mut [bool; 64], touched: &[Touch])
    ensures { (x : ℕ) → mark_at marks.new x ≡ (not (wrote_in touched.now x) && mark_at marks.old x) }
{
    for (x, mark) in marks.iter_mut().enumerate() {
        *mark = !writes(touched, x) && *mark;
    }
}

/// Marks what the touches write.
fn mark(marks: &mut [bool; 64], touched: &[Touch])
    ensures { (x : ℕ) → x < 64 → mark_at marks.new x ≡ (wrote_in touched.now x || mark_at marks.old x) }
{
    for (x, mark) in marks.iter_mut().enumerate() {
        *mark = writes(touched, x) || *mark;
    }
}

/// Marks what is marked in the other list.
fn add(marks: &mut [bool; 64], others: &[bool; 64])
    ensures { (x : ℕ) → mark_at marks.new x ≡ (mark_at marks.old x || mark_at others.now x) }
{
    for (x, mark) in marks.iter_mut().enumerate() {
        *mark = *mark || others[x];
    }
}

/// Gives the mark of one entity.
fn set(marks: &mut [bool; 64], x: usize, mark: bool)
    requires { x < 64 }
    ensures { (y : ℕ) → mark_at marks.new y ≡ put (mark_at marks.old) x mark y }
{
    marks[x] = mark;
}

impl Wishes {
    /// The wishes at the start, where each entity's version is that of its newest commit. None is open.
    pub fn new(versions: &[u64; 64]) -> Wishes
        ensures newest { result.newest ≡ versions.now }
        ensures by_step { (x : ℕ) → mark_at result.by_step x ≡ false }
        ensures asked { (x : ℕ) → mark_at result.asked x ≡ false }
        ensures was_full { (x : ℕ) → mark_at result.was_full x ≡ false }
        ensures full { (x : ℕ) → mark_at result.full x ≡ false }
    {
        Wishes {
            newest: *versions,
            by_step: [false; 64],
            asked: [false; 64],
            was_full: [false; 64],
            full: [false; 64],
        }
    }

    /// Takes in a birth.
    pub fn take_birth(&mut self, touched: Touched)
        ensures by_step { (x : ℕ) → mark_at self.new.by_step x ≡ (not (wrote_in touched x) && mark_at self.old.by_step x) }
        ensures was_full { (x : ℕ) → mark_at self.new.was_full x ≡ (mark_at self.old.was_full x || mark_at self.old.full x) }
        ensures newest { self.new.newest ≡ self.old.newest }
        ensures asked { self.new.asked ≡ self.old.asked }
        ensures full { self.new.full ≡ self.old.full }
    {
        unmark(&mut self.by_step, touched.as_slice());
        add(&mut self.was_full, &self.full);
    }

    /// Takes in a step, which may have asked for a record of an entity.
    pub fn take_step(&mut self, touched: Touched, asked: Option<Entity>)
        ensures by_step { (x : ℕ) → x < 64 → mark_at self.new.by_step x ≡ (wrote_in touched x || mark_at self.old.by_step x) }
        ensures asked { (x : ℕ) → mark_at self.new.asked x ≡ with_asked asked (mark_at self.old.asked) x }
        ensures was_full { (x : ℕ) → mark_at self.new.was_full x ≡ (not (wrote_in touched x) && mark_at self.old.was_full x || mark_at self.old.full x) }
        ensures newest { self.new.newest ≡ self.old.newest }
        ensures full { self.new.full ≡ self.old.full }
    {
        let touches = touched.as_slice();
        mark(&mut self.by_step, touches);
        unmark(&mut self.was_full, touches);
        add(&mut self.was_full, &self.full);
        if let Some(x) = asked {
            set(&mut self.asked, x.number() as usize, true);
        }
    }

    /// Takes in a record of one entity at its version, behind which these are full.
    pub fn take_record(&mut self, entity: Entity, version: u64, full: &[bool; 64])
        ensures newest { (x : ℕ) → slice_index self.new.newest x ≡ put (slice_index self.old.newest) entity version x }
        ensures by_step { (x : ℕ) → mark_at self.new.by_step x ≡ put (mark_at self.old.by_step) entity false x }
        ensures asked { (x : ℕ) → mark_at self.new.asked x ≡ put (mark_at self.old.asked) entity false x }
        ensures was_full { (x : ℕ) → mark_at self.new.was_full x ≡ (mark_at self.old.was_full x || mark_at full.now x) }
        ensures full { self.new.full ≡ full.now }
    {
        let x = entity.number() as usize;
        self.newest[x] = version;
        set(&mut self.by_step, x, false);
        set(&mut self.asked, x, false);
        self.full = *full;
        add(&mut self.was_full, full);
    }

    /// Takes in records of all that has changed: each entity's newest one has its version.
    pub fn take_records(&mut self, versions: &[u64; 64], full: &[bool; 64])
        ensures newest { self.new.newest ≡ versions.now }
        ensures by_step { (x : ℕ) → mark_at self.new.by_step x ≡ false }
        ensures asked { (x : ℕ) → mark_at self.new.asked x ≡ false }
        ensures was_full { (x : ℕ) → mark_at self.new.was_full x ≡ (mark_at self.old.was_full x || mark_at full.now x) }
        ensures full { self.new.full ≡ full.now }
    {
        self.newest = *versions;
        self.by_step = [false; 64];
        self.asked = [false; 64];
        self.full = *full;
        add(&mut self.was_full, full);
    }

    /// Whether a wish for the entity with this number is open, at this interval and version. The policy is asked at most once.
    pub fn is_open<P: Fn(u32, u64) -> bool>(
        &self,
        x: usize,
        every: u32,
        version: u64,
        policy: &P,
    ) -> bool
        ghost p: { ℕ → ℕ → Bool }
        requires callable { (every since : ℕ) → every < 2 ^ 32 → since < 2 ^ 64 → P.pre policy.now every since }
        requires answers { (every since : ℕ) (r : Bool) → every < 2 ^ 32 → since < 2 ^ 64 → P.post policy.now every since r → r ≡ p every since }
        requires entity { x < 64 }
        ensures { result ≡ (mark_at self.now.by_step x && p every (version - slice_index self.now.newest x) || mark_at self.now.asked x) }
    {
        let since = version.saturating_sub(self.newest[x]);
        self.by_step[x] && policy(every, since) || self.asked[x]
    }
}
