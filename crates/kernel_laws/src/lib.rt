//! The laws by which a running kernel's record goes on from one entry of its history to the next, whatever its calls are. The
//! functions do nothing: the contract of each is a law.
#![tactic(auto)]

ghost use Rattle.std.specs.Prelude.{[], ◌++◌, ◌≡◌, ◌≤◌, ◌<◌, ◌+◌, ◌^◌, ℕ, List, length};
ghost use Rattle.edge_disk.specs.Image.{Image};
ghost use Rattle.base_types.specs.declared.histories.Entry.{Entry};
ghost use Rattle.image_state_laws.specs.model_kernel.Choices.{Commit};
ghost use Rattle.image_state_laws.specs.model_kernel.Scripts.{Script};
ghost use Rattle.image_state_laws.specs.model_kernel.State.{KernelState};
ghost use Rattle.image_state_laws.specs.script_types.Rules.{IsScript};
ghost use Rattle.image_state_laws.specs.model_sound_runs.Kinds.{NamesNoLocus};
ghost use Rattle.image_state_laws.specs.image_facts.Layout.{last_number};
ghost use Rattle.image_state_laws.specs.image_meaning.Meaning.{Means};
ghost use Rattle.kernel_invariant.specs.store_books.Books.{Books, kept_of};
ghost use Rattle.kernel_invariant.specs.Beginnings.{Beginning, BeginsRight, IsLegal, completed, state_after, with_tried};
ghost use Rattle.kernel_invariant.specs.Left.{HoldAcknowledged, IsCutImage};
ghost use Rattle.kernel_invariant.specs.Live.{IsLive, IsRunning, KernelView};
ghost use Rattle.kernel_invariant.specs.Records.{AreKeptRecords, StoresSome};
ghost use Rattle.kernel_laws.specs.Going.{MadeEvent, MadeSnap, MadeStable, OnlyReads, StoppedAtCommit, StoppedBetween};
ghost use Rattle.kernel_laws.specs.Opening.{HasNoBirths, KeepsChosen, StandsAtStart, empty_script, with_script};

use edge_disk::Disk;
use image_state_laws::meant_state_law;

/// A kernel's record goes on: over a birth or a step; over a commit with its Snap; over a Stable, in the place of the Snaps of its
/// records; and over reads of what is stored. A kernel that stops, between entries or at a commit that failed, is live.
pub fn going_law<D: Disk>()
    ensures event { (b : Beginning) (old new : KernelView) (disk after : D) (e : Entry)
        → IsRunning b D.Disk old disk
        → MadeEvent b D.Disk old new disk after e
        → IsRunning b D.Disk new after }
    ensures snap { (b : Beginning) (old new : KernelView) (disk after : D) (e : Entry)
        → IsRunning b D.Disk old disk
        → MadeSnap b D.Disk old new disk after e
        → IsRunning b D.Disk new after }
    ensures stable { (b : Beginning) (old new : KernelView) (disk : D) (e : Entry)
        → IsRunning b D.Disk old disk → MadeStable b old new e
        → IsRunning b D.Disk new disk }
    ensures stop { (b : Beginning) (old new : KernelView) (disk after : D)
        → IsRunning b D.Disk old disk
        → StoppedBetween b D.Disk old new disk after
        → IsLive b D.Disk new after }
    ensures reads { (b : Beginning) (old new : KernelView) (disk after : D)
        → IsLive b D.Disk old disk
        → OnlyReads b D.Disk old new disk after
        → IsLive b D.Disk new after }
    ensures tried { (b : Beginning) (old new : KernelView) (disk after : D) (e : Entry)
        → IsRunning b D.Disk old disk
        → StoppedAtCommit b D.Disk old new disk after e
        → IsLive b D.Disk new after }
{}

/// A run may begin from the state that an image means, with each script that keeps its rules and none of whose containers has a
/// locus's name there. So does the script of nobody, which has no births.
pub fn begins_law()
    ensures meant { (b : Beginning) (image : Image) → Means b.supply image b.state → IsScript b.script → NamesNoLocus b.script b.state
        → ((x : ℕ) → (b.state x).version ≤ 2 ^ 61) → BeginsRight b }
    ensures empty { (steps : ℕ) (w : KernelState) → 1 ≤ steps → steps ≤ 40000
        → IsScript (empty_script steps) × NamesNoLocus (empty_script steps) w }
    ensures no_births { (b : Beginning) (steps : ℕ) → HasNoBirths (with_script b (empty_script steps)) }
{
    meant_state_law();
}

/// Where a store keeps the chosen records of an image that means the opened state, its kept records are those of the run that
/// begins there.
pub fn opened_records_law()
    ensures { (b : Beginning) (image : Image) (m : Means b.supply image b.state) (bk : Books) → KeepsChosen image m.accepted bk
        → AreKeptRecords b [] (completed b []) (kept_of image bk) }
{}

/// An image that means the opened state is a cut of no entries; a kernel that stands at the start is live; and before any entry
/// it goes on with another script.
pub fn start_law<D: Disk>()
    ensures image { (b : Beginning) (marks : List ℕ) (now t : ℕ) (c : Image) → Means b.supply c b.state → IsCutImage b [] marks now t c }
    ensures live { (b : Beginning) (k : KernelView) (disk : D) → BeginsRight b → HasNoBirths b
        → StandsAtStart b D.Disk k disk
        → IsLive b D.Disk k disk }
    ensures script { (b : Beginning) (script : Script) (k : KernelView) (disk : D) → BeginsRight (with_script b script)
        → script.steps ≡ b.script.steps → k.history ≡ [] → IsRunning b D.Disk k disk
        → IsRunning (with_script b script) D.Disk k disk }
{}

/// An image that stores some of the commits that entries made or tried behind a history is a cut of the longer one, where those of
/// before hold all acknowledged ones. So it is at the end of a Stable whose records were made in one stretch, and where it was cut short.
pub fn some_commits_law()
    ensures { (b : Beginning) (es fs : List Entry) (count n : ℕ) (more : List Commit) (marks : List ℕ) (now t : ℕ) (c : Image)
        → BeginsRight b → IsLegal b (es ++ fs) → with_tried b (es ++ fs) ≡ completed b es ++ more → n ≤ length more
        → HoldAcknowledged b (es ++ fs) marks now t (length (completed b es)) → StoresSome b es count (completed b es) more n c
        → IsCutImage b (es ++ fs) marks now t c }
{}

/// No version, clock or epoch of a run is too large for an image.
pub fn small_numbers_law()
    ensures versions { (b : Beginning) (es : List Entry) (x : ℕ) → BeginsRight b → IsLegal b es
        → (state_after b es x).version ≤ last_number }
    ensures stamps { (b : Beginning) (es : List Entry) (x y : ℕ) → BeginsRight b → IsLegal b es
        → (state_after b es x).stamp y ≤ last_number }
    ensures epoch { (b : Beginning) (es : List Entry) (n : ℕ) → BeginsRight b → IsLegal b es
        → n ≤ 2 ^ 61 + 1 + length (completed b es) → n < last_number }
{}
