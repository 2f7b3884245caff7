//! The laws of steps, parts, cuts and stamps. The functions do nothing: the contract of each is the law.
ghost use Rattle.std.specs.Prelude.{◌≡◌, ◌≤◌, ◌↔◌, ◌+◌, ◌^◌, ◌++◌, [], ◌∷◌, ℕ, List, filter, count_by, min, false};
ghost use Rattle.std.specs.List.{list_any};
ghost use Rattle.base_types.specs.declared.histories.Entry.{Entry as Line};
ghost use Rattle.base_types.specs.declared.histories.Event.TheVariants.{Stable};
ghost use Rattle.model_kernel.specs.State.{Supply, Text, KernelState};
ghost use Rattle.model_kernel.specs.Steps.{step};
ghost use Rattle.model_kernel.specs.Scripts.{Script};
ghost use Rattle.model_kernel.specs.Births.{birth, next_birth};
ghost use Rattle.model_kernel.specs.LocalEvents.{IsLocal};
ghost use Rattle.model_kernel.specs.Parts.{IsClosed, IsPlayed, is_event, part_of, after, thing_at};
ghost use Rattle.model_kernel.specs.Vectors.{StampsBelow};
ghost use Rattle.model_kernel.specs.Pasts.{past_vector};
ghost use Rattle.model_kernel.specs.Fronts.{version_vector, tried_commits, IsChoice};
ghost use Rattle.model_kernel.specs.Choices.{Commit, IsBelow, IsClosedChoice, IsNarrow, IsGreatest, greatest};
ghost use Rattle.model_kernel.specs.Printing.{printed_in, prints, NamesLoci};
ghost use Rattle.model_kernel.specs.Soundness.{IsSound};
ghost use Rattle.model_kernel.specs.Histories.{Policy, IsLegalRun, AllBelow64, commits_in, event_of, writes};

/// Locality: a step reads and writes the entities that its entry names, and no other, and so does a birth. What no later
/// entry writes is as it was, with its version and stamp.
pub fn locality_law()
    ensures step { (s : Supply) (l : ℕ) → IsLocal (λ b. b.version) (step s l) }
    ensures birth { (s : Supply) (script : Script) (name : Text)
        → IsLocal (λ b. b.version) (birth s script name) }
    ensures next_birth { (s : Supply) (script : Script) → IsLocal (λ b. b.version) (next_birth s script) }
    ensures unwritten { (s : Supply) (policy : Policy) (script : Script) (w : KernelState) (es fs : List Line) (x : ℕ)
        → IsLegalRun s policy w script (es ++ fs) → list_any (λ e. writes e x) fs ≡ false
        → after (event_of s script) w (es ++ fs) x ≡ after (event_of s script) w es x }
{}

/// Replay: each entry within a closed part of a legal run is again the event's entry, with the same answer and
/// versions, and after them each entity is as it was at its chosen version.
pub fn replay_law()
    ensures entries { (s : Supply) (policy : Policy) (script : Script) (w : KernelState) (es : List Line) (p : ℕ → ℕ)
        → IsLegalRun s policy w script es → IsClosed p es
        → IsPlayed (event_of s script) w (part_of p es) }
    ensures state { (s : Supply) (policy : Policy) (script : Script) (w : KernelState) (es : List Line) (p : ℕ → ℕ)
        → IsLegalRun s policy w script es → IsClosed p es → ((x : ℕ) → (w x).version ≤ p x)
        → (x : ℕ) → after (event_of s script) w (part_of p es) x
        ≡ thing_at (event_of s script) (λ b. b.version) w es x (p x) }
{}

/// There is exactly one greatest closed choice, and it does not fall when commits are added.
pub fn greatest_choice_law()
    ensures exists { (start : ℕ → ℕ) (cs : List Commit) → IsNarrow cs → IsGreatest start cs (greatest start cs) }
    ensures one { (start : ℕ → ℕ) (cs : List Commit) (p q : ℕ → ℕ)
        → IsGreatest start cs p → IsGreatest start cs q → p ≡ q }
    ensures rising { (start : ℕ → ℕ) (cs ds : List Commit) (p q : ℕ → ℕ)
        → IsGreatest start cs p → IsGreatest start (cs ++ ds) q → IsBelow p q }
{}

/// Vectors: a part is closed exactly where the vector of each chosen version is at most the choice in each component. The
/// stamps that events join are those vectors.
pub fn vector_law()
    ensures closed { (s : Supply) (policy : Policy) (script : Script) (w : KernelState) (es : List Line) (p : ℕ → ℕ)
        → IsLegalRun s policy w script es → StampsBelow w → ((x : ℕ) → (w x).version ≤ p x)
        → IsClosed p es ↔ ((x y : ℕ) → version_vector (event_of s script) w es x (p x) y ≤ p y) }
    ensures stamps { (s : Supply) (policy : Policy) (script : Script) (w : KernelState) (es : List Line) (x y : ℕ)
        → IsLegalRun s policy w script es → (after (event_of s script) w es x).stamp y ≡ past_vector w es x y }
{}

/// Cuts: over the first commits of a legal run, a choice is closed by their stamps exactly where it is closed as a part. So
/// the greatest closed choice is a closed part, which contains each other that a choice over these commits makes.
pub fn cut_law()
    ensures closed { (s : Supply) (policy : Policy) (script : Script) (w : KernelState) (es : List Line)
        (cs later : List Commit) (p : ℕ → ℕ) → IsLegalRun s policy w script es → StampsBelow w
        → tried_commits s script w es ≡ cs ++ later → IsChoice (λ x. (w x).version) cs p
        → IsClosedChoice (λ x. (w x).version) cs p ↔ IsClosed p es }
    ensures greatest { (s : Supply) (policy : Policy) (script : Script) (w : KernelState) (es : List Line)
        (cs later : List Commit) (q : ℕ → ℕ) → IsLegalRun s policy w script es → StampsBelow w
        → tried_commits s script w es ≡ cs ++ later → IsGreatest (λ x. (w x).version) cs q
        → IsClosed q es
        × ((p : ℕ → ℕ) → IsChoice (λ x. (w x).version) cs p → IsClosed p es → IsBelow p q) }
{}

/// What is stable stays: whatever commits follow those of a Stable entry, each event before it is within the part that the
/// greatest closed choice makes.
pub fn stable_law()
    ensures versions { (s : Supply) (policy : Policy) (script : Script) (w : KernelState) (es : List Line) (e : Line)
        (later : List Commit) (q : ℕ → ℕ) → StampsBelow w → AllBelow64 (es ++ e ∷ [])
        → IsLegalRun s policy w script (es ++ e ∷ []) → e.event ≡ Stable
        → IsGreatest (λ x. (w x).version) (commits_in s script w (es ++ e ∷ []) ++ later) q
        → (x : ℕ) → (after (event_of s script) w es x).version ≤ q x }
    ensures events { (s : Supply) (policy : Policy) (script : Script) (w : KernelState) (es : List Line) (e : Line)
        (later : List Commit) (q : ℕ → ℕ) → StampsBelow w → AllBelow64 (es ++ e ∷ [])
        → IsLegalRun s policy w script (es ++ e ∷ []) → e.event ≡ Stable
        → IsGreatest (λ x. (w x).version) (commits_in s script w (es ++ e ∷ []) ++ later) q
        → part_of q es ≡ filter (λ f. is_event f.event) es }
    ensures commits_follow { (s : Supply) (script : Script) (w : KernelState) (es fs : List Line)
        → (later : List Commit) × (commits_in s script w (es ++ fs) ≡ commits_in s script w es ++ later) }
{}

/// Printed counts: after the part, a locus counts what it counted at the start and each value that it prints within the
/// part, or 2^62 where that is more. One that is born in the part counts from 0.
pub fn printed_law()
    ensures printed { (s : Supply) (policy : Policy) (script : Script) (w : KernelState) (es : List Line) (p : ℕ → ℕ) (x : ℕ)
        → IsLegalRun s policy w script es → IsClosed p es → NamesLoci w
        → printed_in (after (event_of s script) w (part_of p es) x).cell
        ≡ min (2 ^ 62) (printed_in (w x).cell + count_by (prints x) (part_of p es)) }
    ensures sound_states_name_loci { (w : KernelState) → IsSound (λ x. (w x).cell) → NamesLoci w }
{}
