// The acts that touch the locus alone and are not refused.
ghost use Rattle.std.specs.Prelude.{◌≡◌, ℕ, ◌<◌, None, IsTrue};
ghost use Rattle.base_types.specs.Instructions.{IsInstruction};
ghost use Rattle.base_types.specs.declared.instructions.Instr.TheVariants.{Set as SetAct, Copy as CopyAct, Add as AddAct, Sub as SubAct, Jump as JumpAct, Jz as JzAct, Lmap as LmapAct, Lunmap as LunmapAct, Drop as DropAct, Stabilise as StabiliseAct, Print as PrintAct, Halt as HaltAct};
ghost use Rattle.base_types.specs.declared.instructions.Condition.TheVariants.{Running as RunningNow};
ghost use Rattle.model_kernel.specs.Acts.{wanted};
ghost use Rattle.model_kernel.specs.State.{Supply, AtlasState, Cell};
ghost use Rattle.model_kernel.specs.Outcomes.{local_act, outcome};
ghost use Rattle.model_kernel.specs.Refusals.{refusal};
ghost use Rattle.model_acts.specs.Views.{IsReadyLocus};
ghost use Rattle.act_alone.specs.Loci.{WantsAct, locus_of};
ghost use Rattle.model_act_facts.specs.Loci.{touches_alone, IsAlone};

use crate::loci::Locus;
use base_types::{Answer, Condition, Instr, MOST_PRINTED, Private, Reply, Rights};
use model_acts::{Act, new_region};

/// A register gets a value, and the place is the next.
#[tactic(auto, unfolding(model_kernel::specs::Outcomes::local_act))]
fn set(l: &mut Locus, d: u8, value: u64) -> Answer
    requires register { d < 8 }
    requires place { l.old.place < 128 }
    ensures locus { locus_of l.new ≡ (local_act (locus_of l.old) (SetAct d value)).locus }
    ensures answer { result ≡ (local_act (locus_of l.old) (SetAct d value)).answer }
{
    l.registers[d as usize] = value;
    l.place += 1;
    Answer::Quiet
}

#[tactic(auto, unfolding(model_kernel::specs::Outcomes::local_act))]
fn copy(l: &mut Locus, d: u8, s: u8) -> Answer
    requires d { d < 8 }
    requires s { s < 8 }
    requires place { l.old.place < 128 }
    ensures locus { locus_of l.new ≡ (local_act (locus_of l.old) (CopyAct d s)).locus }
    ensures answer { result ≡ (local_act (locus_of l.old) (CopyAct d s)).answer }
{
    set(l, d, l.register(s))
}

#[tactic(auto, unfolding(model_kernel::specs::Outcomes::local_act))]
fn add(l: &mut Locus, d: u8, s: u8) -> Answer
    requires d { d < 8 }
    requires s { s < 8 }
    requires place { l.old.place < 128 }
    ensures locus { locus_of l.new ≡ (local_act (locus_of l.old) (AddAct d s)).locus }
    ensures answer { result ≡ (local_act (locus_of l.old) (AddAct d s)).answer }
{
    let sum = l.register(d).wrapping_add(l.register(s));
    set(l, d, sum)
}

#[tactic(auto, unfolding(model_kernel::specs::Outcomes::local_act))]
fn sub(l: &mut Locus, d: u8, s: u8) -> Answer
    requires d { d < 8 }
    requires s { s < 8 }
    requires place { l.old.place < 128 }
    ensures locus { locus_of l.new ≡ (local_act (locus_of l.old) (SubAct d s)).locus }
    ensures answer { result ≡ (local_act (locus_of l.old) (SubAct d s)).answer }
{
    let difference = l.register(d).wrapping_sub(l.register(s));
    set(l, d, difference)
}

#[tactic(auto, unfolding(model_kernel::specs::Outcomes::local_act))]
fn jump(l: &mut Locus, p: u8) -> Answer
    ensures locus { locus_of l.new ≡ (local_act (locus_of l.old) (JumpAct p)).locus }
    ensures answer { result ≡ (local_act (locus_of l.old) (JumpAct p)).answer }
{
    l.place = p;
    Answer::Quiet
}

#[tactic(auto, unfolding(model_kernel::specs::Outcomes::local_act))]
fn jump_at_zero(l: &mut Locus, s: u8, p: u8) -> Answer
    requires register { s < 8 }
    requires place { l.old.place < 128 }
    ensures locus { locus_of l.new ≡ (local_act (locus_of l.old) (JzAct s p)).locus }
    ensures answer { result ≡ (local_act (locus_of l.old) (JzAct s p)).answer }
{
    if l.register(s) == 0 {
        l.place = p;
    } else {
        l.place += 1;
    }
    Answer::Quiet
}

#[tactic(auto, unfolding(model_kernel::specs::Outcomes::local_act))]
fn map_private(l: &mut Locus, a: u8, c: u8, b: u8, n: u8, rights: Rights) -> Answer
    requires instruction { IsInstruction (LmapAct a c b n rights) }
    requires place { l.old.place < 128 }
    requires allowed { refusal (locus_of l.old) (LmapAct a c b n rights) ≡ None }
    ensures locus { locus_of l.new ≡ (local_act (locus_of l.old) (LmapAct a c b n rights)).locus }
    ensures answer { result ≡ (local_act (locus_of l.old) (LmapAct a c b n rights)).answer }
{
    let region = new_region(&l.view(), a, c, b, n, rights);
    let made = l.host;
    l.privates.add(Private { made, region });
    l.finish(Reply::Ok)
}

#[tactic(auto, unfolding(model_kernel::specs::Outcomes::local_act))]
fn unmap_private(l: &mut Locus, a: u8) -> Answer
    requires register { a < 8 }
    requires place { l.old.place < 128 }
    ensures locus { locus_of l.new ≡ (local_act (locus_of l.old) (LunmapAct a)).locus }
    ensures answer { result ≡ (local_act (locus_of l.old) (LunmapAct a)).answer }
{
    let page = l.register(a);
    let host = l.host;
    l.privates.remove(host, page);
    l.finish(Reply::Ok)
}

#[tactic(auto, unfolding(model_kernel::specs::Outcomes::local_act))]
fn drop_cap(l: &mut Locus, s: u8) -> Answer
    requires register { s < 8 }
    requires place { l.old.place < 128 }
    requires allowed { refusal (locus_of l.old) (DropAct s) ≡ None }
    ensures locus { locus_of l.new ≡ (local_act (locus_of l.old) (DropAct s)).locus }
    ensures answer { result ≡ (local_act (locus_of l.old) (DropAct s)).answer }
{
    let slot = l.register(s);
    let _dropped = l.caps.clear(slot);
    l.finish(Reply::Ok)
}

#[tactic(auto, unfolding(model_kernel::specs::Outcomes::local_act))]
fn stabilise(l: &mut Locus, c: u8) -> Answer
    requires { l.old.place < 128 }
    ensures locus { locus_of l.new ≡ (local_act (locus_of l.old) (StabiliseAct c)).locus }
    ensures answer { result ≡ (local_act (locus_of l.old) (StabiliseAct c)).answer }
{
    l.finish(Reply::Ok)
}

#[tactic(auto, unfolding(model_kernel::specs::Outcomes::local_act))]
fn print(l: &mut Locus, s: u8) -> Answer
    requires register { s < 8 }
    requires place { l.old.place < 128 }
    ensures locus { locus_of l.new ≡ (local_act (locus_of l.old) (PrintAct s)).locus }
    ensures answer { result ≡ (local_act (locus_of l.old) (PrintAct s)).answer }
{
    if l.printed < MOST_PRINTED {
        l.printed += 1;
    }
    l.place += 1;
    Answer::Print(l.register(s))
}

#[tactic(auto, unfolding(model_kernel::specs::Outcomes::local_act))]
fn halt(l: &mut Locus) -> Answer
    ensures locus { locus_of l.new ≡ (local_act (locus_of l.old) HaltAct).locus }
    ensures answer { result ≡ (local_act (locus_of l.old) HaltAct).answer }
{
    l.condition = Condition::Halted;
    Answer::Quiet
}

/// An instruction that touches the locus alone, where the locus doesn't refuse it.
pub(crate) fn carry_out(l: &mut Locus, instr: Instr) -> Answer
    requires alone { IsTrue (touches_alone instr) }
    requires instruction { IsInstruction instr }
    requires place { (instr ≡ HaltAct → ⊥) → l.old.place < 128 }
    requires allowed { refusal (locus_of l.old) instr ≡ None }
    ensures locus { locus_of l.new ≡ (local_act (locus_of l.old) instr).locus }
    ensures answer { result ≡ (local_act (locus_of l.old) instr).answer }
{
    match instr {
        Instr::Set(d, n) => set(l, d, n),
        Instr::Copy(d, s) => copy(l, d, s),
        Instr::Add(d, s) => add(l, d, s),
        Instr::Sub(d, s) => sub(l, d, s),
        Instr::Jump(p) => jump(l, p),
        Instr::Jz(s, p) => jump_at_zero(l, s, p),
        Instr::Lmap(a, c, b, n, rights) => map_private(l, a, c, b, n, rights),
        Instr::Lunmap(a) => unmap_private(l, a),
        Instr::Drop(s) => drop_cap(l, s),
        Instr::Stabilise(c) => stabilise(l, c),
        Instr::Print(s) => print(l, s),
        Instr::Halt => halt(l),
        _ => unreachable!(),
    }
}

impl Locus {
    /// Carries out the act that it wants, which this is, and which touches the locus alone; a refused one included.
    pub fn perform(&mut self, act: Act) -> Answer
        requires ready { IsReadyLocus (locus_of self.old) }
        requires wants { WantsAct (locus_of self.old) act }
        requires alone { IsAlone (wanted 64 (locus_of self.old)) }
        ensures locus { (me : ℕ) → (s : Supply) → (a : AtlasState) → (cell : Cell)
            → locus_of self.new ≡ (outcome s (locus_of self.old) (wanted me (locus_of self.old)) a cell).locus }
        ensures answer { (me : ℕ) → (s : Supply) → (a : AtlasState) → (cell : Cell)
            → result ≡ (outcome s (locus_of self.old) (wanted me (locus_of self.old)) a cell).answer }
        ensures ready { IsReadyLocus (locus_of self.new) }
    {
        match act.refused {
            Some(reply) => self.finish(reply),
            None => carry_out(self, act.instr),
        }
    }

    /// Chooses its act, which touches the locus alone, and carries it out.
    pub fn local(&mut self) -> Answer
        requires running { self.old.condition ≡ RunningNow }
        requires ready { IsReadyLocus (locus_of self.old) }
        requires alone { IsAlone (wanted 64 (locus_of self.old)) }
        ensures locus { (me : ℕ) → (s : Supply) → (a : AtlasState) → (cell : Cell)
            → locus_of self.new ≡ (outcome s (locus_of self.old) (wanted me (locus_of self.old)) a cell).locus }
        ensures answer { (me : ℕ) → (s : Supply) → (a : AtlasState) → (cell : Cell)
            → result ≡ (outcome s (locus_of self.old) (wanted me (locus_of self.old)) a cell).answer }
        ensures ready { IsReadyLocus (locus_of self.new) }
    {
        let act = self.wants();
        self.perform(act)
    }
}
