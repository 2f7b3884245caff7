//! How a kernel's calls make the serial history of a run on one thread, piece by piece: the births one by one, a look at each locus of
//! the course, a Snap at a time, and what stands where a call was stopped. The functions do nothing: the contract of each is a law.
#![tactic(auto)]

ghost use Rattle.std.specs.Prelude.{◌≡◌, ◌≤◌, ◌<◌, ◌+◌, ◌*◌, ◌++◌, ◌∷◌, [], ◌&&◌, ◌⊎◌, not, true, false, ℕ, List, length, drop, filter, slice_get, if◌then◌else◌, None, Some};
ghost use Rattle.base_types.specs.Edges.{upto};
ghost use Rattle.base_types.specs.declared.histories.Entry.{Entry};
ghost use Rattle.base_types.specs.declared.histories.Event.TheVariants.{Snap, Stable, Tried};
ghost use Rattle.base_types.specs.declared.histories.Touch.{Touch};
ghost use Rattle.model_serial.specs.model_kernel.Births.{next_birth};
ghost use Rattle.model_serial.specs.model_kernel.Histories.{May, Policy, Run, births_owed, commits_of, has_changed, has_wish, is_full, mark, next_changed, run_after, start_run, version_of};
ghost use Rattle.model_serial.specs.model_kernel.Scripts.{Script, locus_named};
ghost use Rattle.model_serial.specs.model_kernel.Serial.{all_loci, can_step, looks_of};
ghost use Rattle.model_serial.specs.model_kernel.Soundness.{IsSound};
ghost use Rattle.model_serial.specs.model_kernel.State.{KernelState, Supply, Text};
ghost use Rattle.model_serial.specs.model_kernel.Steps.{atlas_in, step};
ghost use Rattle.model_serial.specs.script_types.Rules.{IsScript};
ghost use Rattle.model_serial.specs.model_births.Fitting.{Fits};
ghost use Rattle.model_serial.specs.Serial.{IsBehind, IsCalm, IsFront, IsStopped, IsWhole, first_snaps, look, looks, opening, serial_history, steps_left, wished_snap, wished_snaps, written_in};
ghost use Rattle.model_serial_turns.specs.Rising.{MakesRising, Rises, entities_of};
ghost use Rattle.model_serial_turns.specs.Turns.{ComeFirst, HasLooked, IsAtRest, IsBearing, IsStoppedIn, before_locus, before_pick, opened};

/// The births, one after another. The run begins in the middle of them, with none made. Each birth is one more, as long as a name is still
/// owed behind it; behind the last a Stable of the atlas is owed, with which the opening is complete. Where no name is owed at the start,
/// the opening is empty.
pub fn births_law()
    ensures begins { (s : Supply) (script : Script) (w : KernelState) → IsBearing s script w [] }
    ensures may { (s : Supply) (policy : Policy) (script : Script) (w : KernelState) (es : List Entry) (e : Entry) (v : KernelState)
        → IsBearing s script w es → next_birth s script (run_after s script (start_run w) es).state ≡ Some (e, v)
        → May s policy script (run_after s script (start_run w) es) e }
    ensures calm { (s : Supply) (policy : Policy) (script : Script) (w : KernelState) (es : List Entry)
        → IsBearing s script w es → IsCalm policy (run_after s script (start_run w) es) }
    ensures more { (s : Supply) (script : Script) (w : KernelState) (es : List Entry) (e : Entry) (v : KernelState)
        → IsScript script → Fits (atlas_in (w 0).cell) script → IsSound (λ x. (w x).cell)
        → IsBearing s script w es → next_birth s script (run_after s script (start_run w) es).state ≡ Some (e, v)
        → births_owed script (run_after s script (start_run w) (es ++ e ∷ [])) ≡ true → IsBearing s script w (es ++ e ∷ []) }
    ensures last { (s : Supply) (script : Script) (w : KernelState) (es : List Entry) (e : Entry) (v : KernelState)
        → IsScript script → Fits (atlas_in (w 0).cell) script → IsSound (λ x. (w x).cell)
        → IsBearing s script w es → next_birth s script (run_after s script (start_run w) es).state ≡ Some (e, v)
        → births_owed script (run_after s script (start_run w) (es ++ e ∷ [])) ≡ false
        → ((run_after s script (start_run w) (es ++ e ∷ [])).owed ≡ Some 0) × ((es ++ e ∷ []) ++ mark Stable 0 0 ∷ [] ≡ opening s script w) }
    ensures behind { (s : Supply) (policy : Policy) (script : Script) (w : KernelState) (es : List Entry) (e : Entry) (v : KernelState)
        → IsBearing s script w es → next_birth s script (run_after s script (start_run w) es).state ≡ Some (e, v)
        → IsBehind policy (run_after s script (start_run w) (es ++ e ∷ [])) [] }
    ensures over { (s : Supply) (script : Script) (w : KernelState) (es : List Entry)
        → IsBearing s script w es → births_owed script (run_after s script (start_run w) es) ≡ false → es ≡ opening s script w }
    ensures front { (s : Supply) (policy : Policy) (script : Script) (w : KernelState) (es : List Entry)
        → IsBearing s script w es → IsFront s policy script w es }
{}

/// One look at a locus: nothing where it can't step; else its step, which is defined, with the Stable that it owes, or else the Snaps
/// that are wished for behind it. `es` are the entries before it, with its step the Stable or the Snaps complete the look.
pub fn look_law()
    ensures idle { (s : Supply) (policy : Policy) (script : Script) (r : Run) (l : ℕ)
        → can_step script r l ≡ false → look s policy script r l ≡ [] }
    ensures steps { (s : Supply) (script : Script) (r : Run) (l : ℕ)
        → can_step script r l ≡ true → (made : Entry × KernelState) × (step s l r.state ≡ Some made) }
    ensures stable { (s : Supply) (policy : Policy) (script : Script) (r : Run) (es : List Entry) (l actor : ℕ) (e : Entry) (v : KernelState)
        → can_step script (run_after s script r es) l ≡ true → step s l (run_after s script r es).state ≡ Some (e, v)
        → (run_after s script r (es ++ e ∷ [])).owed ≡ Some actor
        → (es ++ e ∷ []) ++ mark Stable actor 0 ∷ [] ≡ es ++ look s policy script (run_after s script r es) l }
    ensures snaps { (s : Supply) (policy : Policy) (script : Script) (r : Run) (es : List Entry) (l : ℕ) (e : Entry) (v : KernelState)
        → can_step script (run_after s script r es) l ≡ true → step s l (run_after s script r es).state ≡ Some (e, v)
        → (run_after s script r (es ++ e ∷ [])).owed ≡ None
        → (es ++ e ∷ []) ++ wished_snaps s policy script (run_after s script r (es ++ e ∷ [])) (written_in e.touched)
        ≡ es ++ look s policy script (run_after s script r es) l }
{}

/// The Snaps behind a step, one after another: those made so far, and those that are wished for of the rest, looked at behind them, are
/// together the Snaps of all. So a loop over what the step touches keeps one equation.
pub fn snaps_law()
    ensures one { (s : Supply) (policy : Policy) (script : Script) (r : Run) (all made : List Entry) (x : ℕ) (xs : List ℕ)
        → made ++ wished_snaps s policy script (run_after s script r made) (x ∷ xs) ≡ all
        → (made ++ wished_snap policy (run_after s script r made) x)
        ++ wished_snaps s policy script (run_after s script r (made ++ wished_snap policy (run_after s script r made) x)) xs ≡ all }
    ensures snap { (s : Supply) (policy : Policy) (script : Script) (r : Run) (all made : List Entry) (x : ℕ) (xs : List ℕ)
        → made ++ wished_snaps s policy script (run_after s script r made) (x ∷ xs) ≡ all
        → (has_wish policy (run_after s script r made) x && not (is_full (run_after s script r made) x)) ≡ true
        → (made ++ mark Snap x (version_of (run_after s script r made) x) ∷ [])
        ++ wished_snaps s policy script (run_after s script r (made ++ mark Snap x (version_of (run_after s script r made) x) ∷ [])) xs ≡ all }
    ensures without { (s : Supply) (policy : Policy) (script : Script) (r : Run) (all made : List Entry) (x : ℕ) (xs : List ℕ)
        → made ++ wished_snaps s policy script (run_after s script r made) (x ∷ xs) ≡ all
        → (has_wish policy (run_after s script r made) x && not (is_full (run_after s script r made) x)) ≡ false
        → made ++ wished_snaps s policy script (run_after s script r made) xs ≡ all }
    ensures over { (s : Supply) (policy : Policy) (script : Script) (r : Run) (all made : List Entry)
        → made ++ wished_snaps s policy script (run_after s script r made) [] ≡ all → made ≡ all }
    ensures written { (touched : List Touch) (i : ℕ) (t : Touch) → slice_get touched i ≡ Some t
        → written_in (drop i touched) ≡ (if t.wrote then t.entity ∷ written_in (drop (i + 1) touched) else written_in (drop (i + 1) touched)) }
    ensures last { (touched : List Touch) → written_in (drop (length touched) touched) ≡ [] }
{}

/// The commits that a look adds ascend by entity, one of each at most; and so do those of a Stable, as at the end of the births. So who follows
/// a run finds its new commits, in their order, by asking each entity in turn for its newest.
pub fn look_commits_law()
    ensures look { (s : Supply) (policy : Policy) (script : Script) (r : Run) (l : ℕ) → MakesRising s script r (look s policy script r l) }
    ensures stable { (r : Run) → Rises (entities_of (commits_of r (filter (has_changed r) (upto 64)))) }
{}

/// The course of looks: the picks of the order, one after another, and then the loci by number, 41 to 63, round after round.
pub fn course_law()
    ensures first { (script : Script) (r : Run) → before_pick script r 0 ≡ [] }
    ensures pick { (script : Script) (r : Run) (i l : ℕ) (name : Text)
        → slice_get script.order i ≡ Some name → locus_named (atlas_in (r.state 0).cell) name ≡ Some l
        → before_pick script r (i + 1) ≡ before_pick script r i ++ l ∷ [] }
    ensures passed { (script : Script) (r : Run) (i : ℕ) (name : Text)
        → slice_get script.order i ≡ Some name → locus_named (atlas_in (r.state 0).cell) name ≡ None
        → before_pick script r (i + 1) ≡ before_pick script r i }
    ensures picked { (script : Script) (r : Run) → before_pick script r (length script.order) ≡ looks_of script r 0 }
    ensures round { (script : Script) (r : Run) (made : ℕ) → before_locus script r made 41 ≡ looks_of script r made }
    ensures locus { (script : Script) (r : Run) (made l : ℕ) → 41 ≤ l → l < 64
        → before_locus script r made (l + 1) ≡ before_locus script r made l ++ l ∷ [] }
    ensures rounded { (script : Script) (r : Run) (made : ℕ) → before_locus script r made 64 ≡ looks_of script r (made + 1) }
    ensures picks_first { (script : Script) (r : Run) (i : ℕ) → ComeFirst script r (before_pick script r i) }
    ensures loci_first { (script : Script) (r : Run) (made l : ℕ) → ComeFirst script r (before_locus script r made l) }
{}

/// A run goes on by one look after another. Behind each it is at rest, and where the loci come first in the course it is at a front of the
/// serial history, also with a part of the last look still to come.
pub fn looked_law()
    ensures opened { (s : Supply) (policy : Policy) (script : Script) (w : KernelState) → HasLooked s policy script w [] (opening s script w) }
    ensures look { (s : Supply) (policy : Policy) (script : Script) (w : KernelState) (looked : List ℕ) (es : List Entry) (l : ℕ)
        → HasLooked s policy script w looked es
        → HasLooked s policy script w (looked ++ l ∷ []) (es ++ look s policy script (run_after s script (start_run w) es) l) }
    ensures idle { (s : Supply) (policy : Policy) (script : Script) (w : KernelState) (looked : List ℕ) (es : List Entry) (l : ℕ)
        → HasLooked s policy script w looked es → can_step script (run_after s script (start_run w) es) l ≡ false
        → HasLooked s policy script w (looked ++ l ∷ []) es }
    ensures rest { (s : Supply) (policy : Policy) (script : Script) (w : KernelState) (looked : List ℕ) (es : List Entry)
        → IsScript script → Fits (atlas_in (w 0).cell) script → IsSound (λ x. (w x).cell)
        → HasLooked s policy script w looked es → IsAtRest s policy script w es }
    ensures front { (s : Supply) (policy : Policy) (script : Script) (w : KernelState) (looked : List ℕ) (es to_come : List Entry)
        → HasLooked s policy script w looked (es ++ to_come) → ComeFirst script (opened s script w) looked → IsFront s policy script w es }
    ensures serial { (s : Supply) (policy : Policy) (script : Script) (w : KernelState) (es : List Entry) (n : ℕ)
        → HasLooked s policy script w (looks_of script (opened s script w) n) es → es ≡ serial_history s policy script w n }
{}

/// Each name of the order is a locus's at every place of the run behind the opening, and has the number there that it had at first: so the next
/// pick may be looked up in the atlas as it is.
pub fn picks_law()
    ensures { (s : Supply) (policy : Policy) (script : Script) (w : KernelState) (looked : List ℕ) (es : List Entry) (i : ℕ) (name : Text)
        → IsScript script → Fits (atlas_in (w 0).cell) script → IsSound (λ x. (w x).cell)
        → HasLooked s policy script w looked es → slice_get script.order i ≡ Some name
        → (l : ℕ) × (locus_named (atlas_in ((run_after s script (start_run w) es).state 0).cell) name ≡ Some l)
        × (before_pick script (opened s script w) (i + 1) ≡ before_pick script (opened s script w) i ++ l ∷ []) }
{}

/// Behind whole rounds, where no locus can step any more, the run is the whole serial history. A round that makes no entry tells it.
pub fn finish_law()
    ensures whole { (s : Supply) (policy : Policy) (script : Script) (w : KernelState) (es : List Entry) (n : ℕ)
        → IsScript script → Fits (atlas_in (w 0).cell) script → IsSound (λ x. (w x).cell)
        → HasLooked s policy script w (looks_of script (opened s script w) n) es
        → ((l : ℕ) → 41 ≤ l → l < 64 → can_step script (run_after s script (start_run w) es) l ≡ false)
        → IsWhole s policy script w es }
    ensures round { (s : Supply) (policy : Policy) (script : Script) (r : Run)
        → looks s policy script r all_loci ≡ [] → (l : ℕ) → 41 ≤ l → l < 64 → can_step script r l ≡ false }
{}

/// How many rounds there are at most: a look that isn't idle takes one of the steps that the loci have left, and at first they have at most 23
/// times the script's steps.
pub fn steps_left_law()
    ensures look { (s : Supply) (policy : Policy) (script : Script) (r : Run) (es : List Entry) (l : ℕ)
        → 41 ≤ l → l < 64 → can_step script (run_after s script r es) l ≡ true
        → steps_left script (run_after s script r (es ++ look s policy script (run_after s script r es) l)) + 1
        ≡ steps_left script (run_after s script r es) }
    ensures round { (s : Supply) (policy : Policy) (script : Script) (r : Run)
        → (looks s policy script r all_loci ≡ []) ⊎ (steps_left script (run_after s script r (looks s policy script r all_loci)) + 1 ≤ steps_left script r) }
    ensures most { (script : Script) (r : Run) → steps_left script r ≤ 23 * script.steps }
{}

/// What stands in place of a piece of the history where the kernel was stopped in it: what it made so far; with one record that was tried in
/// place of the next Snap; or, in place of a Stable, the Snaps of the records that it completed, perhaps with one that was tried.
pub fn stopped_piece_law()
    ensures made { (s : Supply) (script : Script) (r : Run) (all made rest : List Entry)
        → made ++ rest ≡ all → IsStoppedIn s script r all made }
    ensures tried { (s : Supply) (script : Script) (r : Run) (all made rest : List Entry) (x version : ℕ)
        → (made ++ mark Snap x version ∷ []) ++ rest ≡ all → IsStoppedIn s script r all (made ++ mark Tried x version ∷ []) }
    ensures in_stable { (s : Supply) (script : Script) (r : Run) (all made rest es : List Entry) (actor n : ℕ)
        → made ++ mark Stable actor 0 ∷ rest ≡ all
        → es ≡ made ++ first_snaps n s script (run_after s script r made) → IsStoppedIn s script r all es }
    ensures tried_in_stable { (s : Supply) (script : Script) (r : Run) (all made rest es : List Entry) (actor n x : ℕ)
        → made ++ mark Stable actor 0 ∷ rest ≡ all
        → es ≡ made ++ first_snaps n s script (run_after s script r made) → next_changed (run_after s script r es) ≡ Some x
        → IsStoppedIn s script r all (es ++ mark Tried x (version_of (run_after s script r es) x) ∷ []) }
    ensures one_more { (s : Supply) (script : Script) (r : Run) (made es : List Entry) (n x : ℕ)
        → es ≡ made ++ first_snaps n s script (run_after s script r made) → next_changed (run_after s script r es) ≡ Some x
        → es ++ mark Snap x (version_of (run_after s script r es) x) ∷ [] ≡ made ++ first_snaps (n + 1) s script (run_after s script r made) }
    ensures longer { (s : Supply) (script : Script) (r : Run) (all part more : List Entry)
        → IsStoppedIn s script r all part → IsStoppedIn s script r (all ++ more) part }
    ensures behind { (s : Supply) (script : Script) (r : Run) (all made rest part : List Entry)
        → made ++ rest ≡ all → IsStoppedIn s script (run_after s script r made) rest part → IsStoppedIn s script r all (made ++ part) }
{}

/// A serial history that was stopped in a piece of it: in the opening, or in looks that come next in the course.
pub fn stopped_law()
    ensures opening { (s : Supply) (policy : Policy) (script : Script) (w : KernelState) (part : List Entry)
        → IsStoppedIn s script (start_run w) (opening s script w) part → IsStopped s policy script w part }
    ensures looks { (s : Supply) (policy : Policy) (script : Script) (w : KernelState) (looked : List ℕ) (es all part : List Entry)
        → HasLooked s policy script w looked (es ++ all) → ComeFirst script (opened s script w) looked
        → IsStoppedIn s script (run_after s script (start_run w) es) all part → IsStopped s policy script w (es ++ part) }
{}
