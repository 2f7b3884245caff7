ghost use Rattle.std.specs.Prelude.{◌≡◌, ◌<◌, ℕ};
ghost use Rattle.act_invoke.specs.model_kernel.Acts.{wanted};
ghost use Rattle.act_invoke.specs.model_kernel.Outcomes.{looked, outcome};
ghost use Rattle.act_invoke.specs.model_kernel.Refusals.{instr_at};
ghost use Rattle.act_invoke.specs.model_kernel.State.{AtlasState, ContainerCell, ContainerState, Supply};
ghost use Rattle.act_invoke.specs.model_acts.Views.{IsReadyLocus};
ghost use Rattle.act_invoke.specs.act_alone.Loci.{locus_of};
ghost use Rattle.act_invoke.specs.Entries.{WantsBeside};
ghost use Rattle.act_look.specs.Looks.{address_of, done_by, is_look, is_store, needed_by, writes, NamesRegister};

use act_invoke::{Locus, next_address};
use base_types::{Instr, Rights};

/// What is done with a word.
#[derive(Clone, Copy)]
pub(crate) enum Access {
    /// It is read into this register.
    Load(u8),
    /// It gets this value.
    Store(u64),
}

impl Access {
    /// The right that a region must have.
    pub(crate) fn needed(self) -> Rights
        ensures { result.0 ≡ needed_by self }
    {
        match self {
            Access::Load(_) => Rights::READ,
            Access::Store(_) => Rights::WRITE,
        }
    }
}

/// Where a look looks in the container, and what for.
#[derive(Clone, Copy)]
pub(crate) struct Aim {
    pub(crate) address: u64,
    pub(crate) access: Access,
}

/// The aim of the load or the store that the locus wants, which is this instruction.
#[tactic(auto, using(act_invoke::proofs::Entered::operands))]
pub(crate) fn aim_of(locus: &Locus, instr: Instr) -> Aim
    requires ready { IsReadyLocus (locus_of locus.now) }
    requires instr { instr ≡ instr_at (locus_of locus.now) }
    requires wants { (x : ℕ) × WantsBeside is_look (locus_of locus.now) x }
    ensures address { result.address ≡ address_of (locus_of locus.now) }
    ensures register { NamesRegister result.access }
    ensures writes { writes result.access ≡ is_store (instr_at (locus_of locus.now)) }
    ensures place { locus.now.place < 128 }
    ensures makes { (me : ℕ) → (s : Supply) → (a : AtlasState) → (c : ContainerState)
        → outcome s (locus_of locus.now) (wanted me (locus_of locus.now)) a (ContainerCell c)
        ≡ looked (locus_of locus.now) c result.address (needed_by result.access) (done_by (locus_of locus.now) c result.address result.access) }
{
    let (at, access) = match instr {
        Instr::Load(d, a) => (a, Access::Load(d)),
        Instr::Store(a, v) => (a, Access::Store(locus.register(v))),
        _ => unreachable!(),
    };
    Aim {
        address: next_address(&locus.view(), locus.register(at)),
        access,
    }
}
