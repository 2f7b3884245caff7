//! Laws of greatest closed choices over records that are dropped and added. The functions do nothing: the contract of
//! each is a law.
#![tactic(auto)]

ghost use Rattle.std.specs.Prelude.{◌≡◌, ◌++◌, ℕ, List};
ghost use Rattle.model_kernel.specs.Choices.{Commit, IsBelow, IsClosedChoice, IsGreatest};
ghost use Rattle.model_cut_laws.specs.Agreeing.{HoldsStart, from_cut, nothing};

/// What stands below the greatest closed choice of a list never matters again: a list that agrees with it from that choice
/// on has the same greatest closed choice, whatever follows both; and what stands at or above the choice is such a list.
pub fn from_cut_law()
    ensures same { (start cut : ℕ → ℕ) (cs ds : List Commit) → IsGreatest start cs cut → from_cut cut cs ≡ from_cut cut ds
        → IsGreatest start ds cut }
    ensures more { (cut p : ℕ → ℕ) (cs ds es : List Commit) → IsBelow cut p → from_cut cut cs ≡ from_cut cut ds
        → from_cut p (cs ++ es) ≡ from_cut p (ds ++ es) }
    ensures kept { (cut : ℕ → ℕ) (cs : List Commit) → from_cut cut cs ≡ from_cut cut (from_cut cut cs) }
{}

/// Where a list has the records of a start, choices that begin with nothing have the same greatest one as choices that
/// begin with the start.
pub fn start_law()
    ensures up { (start : ℕ → ℕ) (cs : List Commit) (p : ℕ → ℕ) → HoldsStart start cs → IsGreatest nothing cs p
        → IsGreatest start cs p }
    ensures down { (start : ℕ → ℕ) (cs : List Commit) (p : ℕ → ℕ) → HoldsStart start cs → IsGreatest start cs p
        → IsGreatest nothing cs p }
{}

/// As commits follow a list, its greatest closed choice stays closed, and a closed choice serves as the start from which the
/// greatest one of all is found; of the list itself only what stands at or above its own greatest one is asked for.
pub fn raise_law()
    ensures closed { (start cut : ℕ → ℕ) (cs ds : List Commit) → IsGreatest start cs cut → IsClosedChoice start (cs ++ ds) cut }
    ensures raised { (cut p : ℕ → ℕ) (cs : List Commit) → IsClosedChoice nothing cs cut → IsGreatest cut cs p
        → IsGreatest nothing cs p }
    ensures kept { (start cut p : ℕ → ℕ) (cs ds : List Commit) → IsGreatest start cs cut
        → IsGreatest start (from_cut cut cs ++ ds) p → IsGreatest start (cs ++ ds) p }
{}
