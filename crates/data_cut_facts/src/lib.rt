//! The search for the greatest closed choice, as a walk over lists: no closed choice is lost, and where nothing lacks, the
//! choice is the greatest (Johnson and Zwaenepoel, 1990). The function does nothing: its contract is the law.
#![tactic(auto)]

ghost use Rattle.model_cut_laws.specs.Records.{commits_of};
ghost use Rattle.model_cut_laws.specs.model_kernel.Choices.{IsGreatest};
ghost use Rattle.data_cut_facts.specs.Searches.{IsSearch};
ghost use Rattle.base_types.specs.declared.records.Rec.{Rec};
ghost use Rattle.std.specs.Prelude.{Bool, List, Option, false, ℕ, ◌≡◌};

/// A search that finds nothing lacking stands at the greatest closed choice.
pub fn search_law()
    ensures { (low : ℕ → ℕ) (recs : List Rec) (chosen : ℕ → Option ℕ) (p : ℕ → ℕ) (lacking : ℕ → Bool)
        → IsSearch low recs chosen p lacking → ((x : ℕ) → lacking x ≡ false) → IsGreatest low (commits_of recs) p }
{}
