// Letting a locus stop, or go on.
ghost use Rattle.std.specs.Prelude.{◌≡◌, ◌≢◌, ℕ, Some, None};
ghost use Rattle.act_invoke.specs.model_kernel.Acts.{wanted};
ghost use Rattle.act_invoke.specs.model_kernel.Outcomes.{outcome, stopped, going};
ghost use Rattle.act_invoke.specs.model_kernel.State.{Supply, AtlasState, Cell, LocusCell};
ghost use Rattle.act_invoke.specs.model_acts.Views.{IsReadyLocus};
ghost use Rattle.act_invoke.specs.act_alone.Loci.{locus_of};
ghost use Rattle.act_invoke.specs.Entries.{WantsBeside};
ghost use Rattle.act_calls.specs.Calls.{is_stop, is_go, CallMade};

use crate::replies::reply_with;
use act_invoke::Locus;
use base_types::{Condition, Reply};

fn stopped_from(condition: Condition) -> Condition
    ensures { result ≡ stopped condition }
{
    match condition {
        Condition::Running => Condition::Stopped,
        Condition::Stopped => Condition::Stopped,
        Condition::Halted => Condition::Halted,
    }
}

fn going_from(condition: Condition) -> Condition
    ensures { result ≡ going condition }
{
    match condition {
        Condition::Stopped => Condition::Running,
        Condition::Running => Condition::Running,
        Condition::Halted => Condition::Halted,
    }
}

/// Stops another locus, which the capability names, where it runs.
pub fn stop(locus: &mut Locus, other: &mut Locus) -> Reply
    requires ready { IsReadyLocus (locus_of locus.old) }
    requires wants { (x : ℕ) × WantsBeside is_stop (locus_of locus.old) x }
    ensures { (me x : ℕ) → (wanted 64 (locus_of locus.old)).other ≡ Some x → me ≢ x → (s : Supply) → (a : AtlasState)
        → CallMade (outcome s (locus_of locus.old) (wanted me (locus_of locus.old)) a (LocusCell (locus_of other.old)))
        (locus_of locus.new) result (Some (LocusCell (locus_of other.new))) }
{
    other.condition = stopped_from(other.condition);
    reply_with(locus, Reply::Ok)
}

/// Stops the locus itself, which its own capability names. Its place is past the stop.
pub fn stop_itself(locus: &mut Locus) -> Reply
    requires ready { IsReadyLocus (locus_of locus.old) }
    requires wants { (x : ℕ) × WantsBeside is_stop (locus_of locus.old) x }
    ensures { (me : ℕ) → (wanted 64 (locus_of locus.old)).other ≡ Some me → (s : Supply) → (a : AtlasState) → (cell : Cell)
        → CallMade (outcome s (locus_of locus.old) (wanted me (locus_of locus.old)) a cell)
        (locus_of locus.new) result None }
{
    locus.condition = Condition::Stopped;
    reply_with(locus, Reply::Ok)
}

/// Lets another locus, which the capability names, go on where it is stopped.
pub fn go(locus: &mut Locus, other: &mut Locus) -> Reply
    requires ready { IsReadyLocus (locus_of locus.old) }
    requires wants { (x : ℕ) × WantsBeside is_go (locus_of locus.old) x }
    ensures { (me x : ℕ) → (wanted 64 (locus_of locus.old)).other ≡ Some x → me ≢ x → (s : Supply) → (a : AtlasState)
        → CallMade (outcome s (locus_of locus.old) (wanted me (locus_of locus.old)) a (LocusCell (locus_of other.old)))
        (locus_of locus.new) result (Some (LocusCell (locus_of other.new))) }
{
    other.condition = going_from(other.condition);
    reply_with(locus, Reply::Ok)
}

/// Lets the locus itself go on, which it does already.
pub fn go_itself(locus: &mut Locus) -> Reply
    requires ready { IsReadyLocus (locus_of locus.old) }
    requires wants { (x : ℕ) × WantsBeside is_go (locus_of locus.old) x }
    ensures { (me : ℕ) → (wanted 64 (locus_of locus.old)).other ≡ Some me → (s : Supply) → (a : AtlasState) → (cell : Cell)
        → CallMade (outcome s (locus_of locus.old) (wanted me (locus_of locus.old)) a cell)
        (locus_of locus.new) result None }
{
    reply_with(locus, Reply::Ok)
}
