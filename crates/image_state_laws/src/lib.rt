//! The state that an image means is one that a legal run may begin from. The functions do nothing: the contract of each is a law.
#![tactic(auto)]

ghost use Rattle.std.specs.Prelude.{ℕ, List, Option};
ghost use Rattle.image_meaning.specs.model_cut_laws.Agreeing.{nothing};
ghost use Rattle.image_meaning.specs.model_cut_laws.Records.{commits_of};
ghost use Rattle.edge_disk.specs.Image.{Image};
ghost use Rattle.base_types.specs.declared.records.Rec.{Rec};
ghost use Rattle.image_meaning.specs.model_kernel.Choices.{IsGreatest};
ghost use Rattle.image_meaning.specs.model_kernel.State.{KernelState, Supply};
ghost use Rattle.image_meaning.specs.image_facts.Checks.{count_in};
ghost use Rattle.image_meaning.specs.Meaning.{Accepted, Means, state_of};
ghost use Rattle.image_meaning.specs.Parts.{Part};
ghost use Rattle.image_state_laws.specs.Restoring.{MakeUpState};
ghost use Rattle.image_state_laws.specs.Versions.{AreCutVersions};
ghost use Rattle.model_sound_states.specs.States.{IsSoundState};

/// What an image means is a sound state: its cells, its versions, its clocks, and the words past a container's pages.
pub fn meant_state_law()
    ensures { (s : Supply) (image : Image) (v : KernelState) → Means s image v → IsSoundState s v }
{}

/// The same without an image: records and parts that make up a state make a sound one, with the versions of the greatest closed choice,
/// whatever bytes the blocks of pages hold.
pub fn restored_state_law()
    ensures sound { (s : Supply) (bytes : ℕ → List ℕ) (count : ℕ) (recs : List Rec) (parts : ℕ → Option Part) → MakeUpState count recs parts
        → IsSoundState s (state_of s bytes recs parts) }
    ensures versions { (s : Supply) (bytes : ℕ → List ℕ) (count : ℕ) (recs : List Rec) (parts : ℕ → Option Part) → MakeUpState count recs parts
        → AreCutVersions recs (state_of s bytes recs parts) }
    ensures accepted { (image : Image) (a : Accepted image) → MakeUpState (count_in image) a.recs a.parts }
{}

/// Each entity has the version that the greatest closed choice over the image's records takes, which is the computed one; 0 for none.
pub fn meant_versions_law()
    ensures computed { (s : Supply) (image : Image) (v : KernelState) (m : Means s image v) → AreCutVersions m.accepted.recs v }
    ensures greatest { (s : Supply) (image : Image) (v : KernelState) (m : Means s image v)
        → IsGreatest nothing (commits_of m.accepted.recs) (λ x. (v x).version) }
{}
