//! Laws. The functions do nothing: the contract of each is a law.
ghost use Rattle.std.specs.Prelude.{◌≡◌, ℕ, List, Some, slice_get};
ghost use Rattle.thread_ties.specs.Laws.{AreSame, IsOneAuthority, IsOneEach};
ghost use Rattle.thread_ties.specs.Sides.{fragments_of};

/// In every state of the table: one view is the authority's, and no other. The fragment of a number is in no other seat's hands. Its
/// value is the authority's value of its number.
pub fn rule_law<V>()
    ensures one_authority { IsOneAuthority V }
    ensures one_each { IsOneEach V }
    ensures same { AreSame V }
{}

/// The fragments of a list of values stand by their numbers.
pub fn fragments_law<V>()
    ensures { (vs : List V) (k : ℕ) (v : V) → slice_get vs k ≡ Some v → slice_get (fragments_of vs) k ≡ Some (record { number = k; value = Some v }) }
{}
