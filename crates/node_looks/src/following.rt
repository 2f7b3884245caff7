// How many commits were completed behind each step. The function does nothing: its contract is a law.
ghost use Rattle.std.specs.Prelude.{◌≡◌, []};
ghost use Rattle.kernel_runs.specs.kernel_invariant.Beginnings.{Beginning};
ghost use Rattle.node_looks.specs.Looks.{NextPieceLaw, commits_behind};

/// The numbers of commits behind the steps of a history: none before the run, and one more behind each piece of it that has a step.
pub fn commits_behind_law()
    ensures start { (b : Beginning) → commits_behind b [] ≡ [] }
    ensures next { NextPieceLaw }
{}
