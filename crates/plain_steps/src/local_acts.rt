ghost use Rattle.std.specs.Prelude.{◌≡◌, ◌+◌, ◌<◌, ◌≤◌, IfOk, OnOk, OnErr, None, not, ◌&&◌, ◌==◌, filter, length};
ghost use Rattle.std.specs.List.{position_or_len};
ghost use Rattle.base_types.specs.Instructions.{IsInstruction};
ghost use Rattle.base_types.specs.declared.instructions.Instr.TheVariants.{Set as SetAct, Copy as CopyAct, Add as AddAct, Sub as SubAct, Jump as JumpAct, Jz as JzAct, Lunmap as LunmapAct, Drop as DropAct, Stop as StopAct, Print as PrintAct, Halt as HaltAct};
ghost use Rattle.base_types.specs.declared.instructions.Reply.TheVariants.{Ok as OkReply};
ghost use Rattle.model_kernel.specs.Outcomes.{finish as finished, insert_private as inserted, local_act, next as gone_on, own_reply, with_private};
ghost use Rattle.model_kernel.specs.Refusals.{refusal};
ghost use Rattle.model_acts.specs.Views.{IsReadyLocus};
ghost use Rattle.plain_states.specs.Plains.{locus_of};
ghost use Rattle.plain_facts.specs.Acts.{stands_before as is_before};

use base_types::{Answer, Condition, Entity, Instr, MOST_PRINTED, Private, Region, Reply, Rights};
use plain_states::PlainLocus;
use plain_states::reads::{new_region, register};
use std::alloc::AllocError;

/// The next place, and nothing to tell.
fn go_on(l: &mut PlainLocus) -> Answer
    requires place { l.old.place ≤ 128 }
    ensures locus { locus_of l.new ≡ gone_on (locus_of l.old) }
    ensures answer { result ≡ Answer.Quiet }
{
    l.place += 1;
    Answer::Quiet
}

/// The reply in register 7 and the next place, the walk ended.
pub fn finish(l: &mut PlainLocus, reply: Reply) -> Answer
    requires place { l.old.place ≤ 128 }
    ensures locus { locus_of l.new ≡ finished (locus_of l.old) reply }
    ensures answer { result ≡ Answer.Reply reply }
{
    l.registers[7] = reply.number();
    l.place += 1;
    l.walk = None;
    Answer::Reply(reply)
}

// REGISTERS AND PLACES

#[tactic(auto, unfolding(model_kernel::specs::Outcomes::local_act))]
fn set(l: &mut PlainLocus, d: u8, n: u64) -> Answer
    requires register { d < 8 }
    requires place { l.old.place ≤ 128 }
    ensures locus { locus_of l.new ≡ (local_act (locus_of l.old) (SetAct d n)).locus }
    ensures answer { result ≡ (local_act (locus_of l.old) (SetAct d n)).answer }
{
    l.registers[d as usize] = n;
    go_on(l)
}

#[tactic(auto, unfolding(model_kernel::specs::Outcomes::local_act))]
fn copy(l: &mut PlainLocus, d: u8, s: u8) -> Answer
    requires register { d < 8 }
    requires source { s < 8 }
    requires place { l.old.place ≤ 128 }
    ensures locus { locus_of l.new ≡ (local_act (locus_of l.old) (CopyAct d s)).locus }
    ensures answer { result ≡ (local_act (locus_of l.old) (CopyAct d s)).answer }
{
    l.registers[d as usize] = register(l, s);
    go_on(l)
}

#[tactic(auto, unfolding(model_kernel::specs::Outcomes::local_act))]
fn add(l: &mut PlainLocus, d: u8, s: u8) -> Answer
    requires register { d < 8 }
    requires source { s < 8 }
    requires place { l.old.place ≤ 128 }
    ensures locus { locus_of l.new ≡ (local_act (locus_of l.old) (AddAct d s)).locus }
    ensures answer { result ≡ (local_act (locus_of l.old) (AddAct d s)).answer }
{
    l.registers[d as usize] = register(l, d).wrapping_add(register(l, s));
    go_on(l)
}

#[tactic(auto, unfolding(model_kernel::specs::Outcomes::local_act))]
fn sub(l: &mut PlainLocus, d: u8, s: u8) -> Answer
    requires register { d < 8 }
    requires source { s < 8 }
    requires place { l.old.place ≤ 128 }
    ensures locus { locus_of l.new ≡ (local_act (locus_of l.old) (SubAct d s)).locus }
    ensures answer { result ≡ (local_act (locus_of l.old) (SubAct d s)).answer }
{
    l.registers[d as usize] = register(l, d).wrapping_sub(register(l, s));
    go_on(l)
}

#[tactic(auto, unfolding(model_kernel::specs::Outcomes::local_act))]
fn jump(l: &mut PlainLocus, place: u8) -> Answer
    ensures locus { locus_of l.new ≡ (local_act (locus_of l.old) (JumpAct place)).locus }
    ensures answer { result ≡ (local_act (locus_of l.old) (JumpAct place)).answer }
{
    l.place = place;
    Answer::Quiet
}

#[tactic(auto, unfolding(model_kernel::specs::Outcomes::local_act))]
fn jump_if_zero(l: &mut PlainLocus, s: u8, place: u8) -> Answer
    requires source { s < 8 }
    requires place { l.old.place ≤ 128 }
    ensures locus { locus_of l.new ≡ (local_act (locus_of l.old) (JzAct s place)).locus }
    ensures answer { result ≡ (local_act (locus_of l.old) (JzAct s place)).answer }
{
    if register(l, s) == 0 {
        return jump(l, place);
    }
    go_on(l)
}

#[tactic(auto, unfolding(model_kernel::specs::Outcomes::local_act))]
fn print(l: &mut PlainLocus, r: u8) -> Answer
    requires register { r < 8 }
    requires place { l.old.place ≤ 128 }
    ensures locus { locus_of l.new ≡ (local_act (locus_of l.old) (PrintAct r)).locus }
    ensures answer { result ≡ (local_act (locus_of l.old) (PrintAct r)).answer }
{
    if l.printed < MOST_PRINTED {
        l.printed += 1;
    }
    l.place += 1;
    Answer::Print(register(l, r))
}

#[tactic(auto, unfolding(model_kernel::specs::Outcomes::local_act))]
fn halt(l: &mut PlainLocus) -> Answer
    ensures locus { locus_of l.new ≡ (local_act (locus_of l.old) HaltAct).locus }
    ensures answer { result ≡ (local_act (locus_of l.old) HaltAct).answer }
{
    l.condition = Condition::Halted;
    Answer::Quiet
}

// PRIVATE REGIONS

/// Whether the private region stands before the other: by the hosts where they were made, and then by page.
fn stands_before(p: &Private, q: &Private) -> bool
    ensures { result ≡ is_before p.now q.now }
{
    let made = p.made.number();
    let other = q.made.number();
    made < other || made == other && p.region.at < q.region.at
}

/// Where the first private region stands that comes after this one, or the end.
fn place_of_private(privates: &[Private], p: &Private) -> usize
    ensures place { result ≡ position_or_len (is_before p.now) privates.now }
    ensures within { result ≤ length privates.now }
{
    for (place, other) in privates.iter().enumerate() {
        if stands_before(p, other) {
            return place;
        }
    }
    privates.len()
}

/// Puts a private region into its place. On want of memory nothing is changed.
fn insert_private(privates: &mut Vec<Private>, p: Private) -> Result<(), AllocError>
    ensures ok { OnOk result (privates.new.items ≡ inserted p privates.old.items) }
    ensures err { OnErr result (privates.new.items ≡ privates.old.items) }
{
    let place = place_of_private(privates, &p);
    privates.insert(place, p)?;
    Ok(())
}

/// A private region, made in the host. On want of memory nothing is changed.
fn lmap(l: &mut PlainLocus, region: Region) -> Result<Answer, AllocError>
    requires place { l.old.place ≤ 128 }
    ensures locus { OnOk result (locus_of l.new ≡ (own_reply (with_private (locus_of l.old) region) OkReply).locus) }
    ensures answer { IfOk result (λ answer. answer ≡ (own_reply (with_private (locus_of l.old) region) OkReply).answer) }
    ensures err { OnErr result (locus_of l.new ≡ locus_of l.old) }
{
    let made = l.host;
    insert_private(&mut l.privates, Private { made, region })?;
    Ok(finish(l, Reply::Ok))
}

/// The private region made in the host that begins at the page is gone.
fn remove_private(privates: &mut Vec<Private>, host: Entity, page: u64)
    ensures { privates.new.items ≡ filter (λ p. not (p.made == host && p.region.at == page)) privates.old.items }
{
    privates.retain(|p| !(p.made == host && p.region.at as u64 == page));
}

#[tactic(auto, unfolding(model_kernel::specs::Outcomes::local_act))]
fn lunmap(l: &mut PlainLocus, a: u8) -> Answer
    requires register { a < 8 }
    requires place { l.old.place ≤ 128 }
    ensures locus { locus_of l.new ≡ (local_act (locus_of l.old) (LunmapAct a)).locus }
    ensures answer { result ≡ (local_act (locus_of l.old) (LunmapAct a)).answer }
{
    let host = l.host;
    let page = register(l, a);
    remove_private(&mut l.privates, host, page);
    finish(l, Reply::Ok)
}

// SLOTS AND CONTROL

#[tactic(auto, unfolding(model_kernel::specs::Outcomes::local_act))]
fn drop_cap(l: &mut PlainLocus, s: u8) -> Answer
    requires register { s < 8 }
    requires place { l.old.place ≤ 128 }
    ensures locus { locus_of l.new ≡ (local_act (locus_of l.old) (DropAct s)).locus }
    ensures answer { result ≡ (local_act (locus_of l.old) (DropAct s)).answer }
{
    let slot = register(l, s) as usize;
    if slot < l.caps.len() {
        l.caps[slot] = None;
    }
    finish(l, Reply::Ok)
}

#[tactic(auto, unfolding(model_kernel::specs::Outcomes::local_act))]
fn stop_itself(l: &mut PlainLocus, c: u8) -> Answer
    requires place { l.old.place ≤ 128 }
    ensures locus { locus_of l.new ≡ (local_act (locus_of l.old) (StopAct c)).locus }
    ensures answer { result ≡ (local_act (locus_of l.old) (StopAct c)).answer }
{
    l.condition = Condition::Stopped;
    finish(l, Reply::Ok)
}

// ALL OF THEM

/// What an act that touches the locus alone makes of it. On want of memory nothing is changed.
pub fn local(l: &mut PlainLocus, instr: Instr) -> Result<Answer, AllocError>
    requires ready { IsReadyLocus (locus_of l.old) }
    requires instruction { IsInstruction instr }
    requires allowed { refusal (locus_of l.old) instr ≡ None }
    ensures locus { OnOk result (locus_of l.new ≡ (local_act (locus_of l.old) instr).locus) }
    ensures answer { IfOk result (λ answer. answer ≡ (local_act (locus_of l.old) instr).answer) }
    ensures err { OnErr result (locus_of l.new ≡ locus_of l.old) }
{
    match instr {
        Instr::Set(d, n) => Ok(set(l, d, n)),
        Instr::Copy(d, s) => Ok(copy(l, d, s)),
        Instr::Add(d, s) => Ok(add(l, d, s)),
        Instr::Sub(d, s) => Ok(sub(l, d, s)),
        Instr::Jump(place) => Ok(jump(l, place)),
        Instr::Jz(s, place) => Ok(jump_if_zero(l, s, place)),
        Instr::Lmap(a, c, b, n, rights) => {
            let region = new_region(l, a, c, b, n, rights);
            lmap(l, region)
        }
        Instr::Lunmap(a) => Ok(lunmap(l, a)),
        Instr::Drop(s) => Ok(drop_cap(l, s)),
        Instr::Stop(c) => Ok(stop_itself(l, c)),
        Instr::Go(_) => Ok(finish(l, Reply::Ok)),
        Instr::Snap(_) => Ok(finish(l, Reply::Ok)),
        Instr::Stabilise(_) => Ok(finish(l, Reply::Ok)),
        Instr::Print(r) => Ok(print(l, r)),
        _ => Ok(halt(l)),
    }
}
