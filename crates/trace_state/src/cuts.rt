//! The cut over all commits, and those at or above it.
ghost use Rattle.std.specs.Prelude.{◌≡◌, ℕ, ◌≤◌, ◌<◌, ◌++◌, ◌∷◌, [], OnOk, OnErr, length, nat_le};
ghost use Rattle.data_cuts.specs.model_kernel.Choices.{IsGreatest};
ghost use Rattle.data_cuts.specs.model_cut_laws.Records.{commits_of, recs_from};
ghost use Rattle.data_cuts.specs.data_cut_facts.Records.{choice, IsAscending};
ghost use Rattle.trace_state.specs.Cuts.{records_of};
ghost use Rattle.data_cuts.specs.data_cut_facts.Searches.{mark_at};

use base_types::{Cut, Rec};
use data_cuts::{MOST_RECORDS, greatest_from};
use std::alloc::AllocError;

/// The greatest closed choice over commits from a start, and the commits at or above it.
#[derive(Drop)]
pub struct Cuts {
    pub start: Cut,
    pub cut: Cut,
    pub recs: Vec<Rec>,
}

impl Cuts {
    /// Appends a commit. The cut stays as it was until it is raised.
    pub fn append(&mut self, rec: Rec) -> Result<(), AllocError>
        ensures recs { OnOk result (self.new.recs.items ≡ self.old.recs.items ++ rec ∷ []) }
        ensures err { OnErr result (self.new.recs.items ≡ self.old.recs.items) }
        ensures start { self.new.start ≡ self.old.start }
        ensures cut { self.new.cut ≡ self.old.cut }
    {
        self.recs.push(rec)?;
        Ok(())
    }

    /// Raises the cut to the greatest closed choice over the commits that are kept, and drops those below it.
    pub fn raise(&mut self)
        requires few { length self.old.recs.items ≤ MOST_RECORDS }
        requires ascending { IsAscending self.old.recs.items }
        ensures start { self.new.start ≡ self.old.start }
        ensures greatest { IsGreatest (choice self.old.start) (commits_of self.old.recs.items) (choice self.new.cut) }
        ensures kept { self.new.recs.items ≡ recs_from (choice self.new.cut) self.old.recs.items }
    {
        let cut = greatest_from(&self.start, &self.recs);
        self.cut = cut;
        self.recs
            .retain(|rec| cut.0[rec.entity.number() as usize] <= rec.version);
    }

    /// How many commits of the entity with this number are kept.
    fn count(&self, x: usize) -> usize
        ensures { result ≡ records_of self.now.recs.items x }
    {
        self.recs
            .iter()
            .filter(|rec| rec.entity.number() as usize == x)
            .count()
    }

    /// Which entities are full: four commits or more are at or above the cut.
    pub fn full(&self) -> [bool; 64]
        ensures { (x : ℕ) → x < 64 → mark_at result x ≡ nat_le 4 (records_of self.now.recs.items x) }
    {
        let mut full = [false; 64];
        for (x, mark) in full.iter_mut().enumerate() {
            *mark = self.count(x) >= 4;
        }
        full
    }
}
