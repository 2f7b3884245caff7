// Births by a program.
ghost use Rattle.std.specs.Prelude.{◌≡◌, ℕ, ◌<◌, ◌≤◌, is_some, replicate, [], None, true};
ghost use Rattle.std.specs.Option.{ForSome};
ghost use Rattle.base_types.specs.Instructions.{IsPlace};
ghost use Rattle.act_invoke.specs.model_kernel.Acts.{wanted};
ghost use Rattle.act_invoke.specs.model_kernel.Outcomes.{outcome, holding, code_for, spawned, make as making, spawn as spawning};
ghost use Rattle.act_invoke.specs.model_kernel.Refusals.{instr_at, reg};
ghost use Rattle.act_invoke.specs.model_kernel.State.{Supply, Cell};
ghost use Rattle.act_invoke.specs.model_kernel.Words.{free_slot};
ghost use Rattle.act_invoke.specs.model_acts.Views.{IsReadyLocus};
ghost use Rattle.act_invoke.specs.act_alone.Loci.{locus_of, container_with};
ghost use Rattle.act_calls.specs.Calls.{is_make, is_spawn, atlas_state, born_head, born_locus, WantsBirth, AtlasCallMade};

use crate::replies::reply_with;
use act_invoke::{Chain, Code, Head, Locus, Privates};
use base_types::{Cap, Condition, Entity, Instr, Kind, Reply, Rights};
use data_atlas::Atlas;

/// The lowest empty slot gets a capability on the newborn with all rights but Stabilise, and the register the slot.
fn hold(locus: &mut Locus, d: u8, newborn: Entity)
    requires register { d < 8 }
    requires free { is_some (free_slot locus.old.caps) ≡ true }
    ensures { locus_of locus.new ≡ holding (locus_of locus.old) d newborn }
{
    let cap = Cap {
        entity: newborn,
        rights: Rights(127),
    };
    if let Ok(slot) = locus.caps.put(cap) {
        locus.registers[d as usize] = slot as u64;
    }
}

/// A container without regions and capabilities, which has the locus's code where it has an entry.
fn new_head(locus: &Locus, pages: u16, tag: u64, entry: Option<u8>) -> Head
    requires some { 1 ≤ pages }
    requires few { pages ≤ 256 }
    requires entry { ForSome entry IsPlace }
    ensures { (words : ℕ → ℕ) → container_with words result ≡ record { pages = pages; tag = tag; every = 0; entry = entry; code = code_for (locus_of locus.now) entry; regions = []; caps = replicate 32 None; words = words } }
{
    match entry {
        Some(_) => Head::new(pages, tag, 0, entry, locus.code.as_slice()),
        None => Head::new(pages, tag, 0, None, &[]),
    }
}

fn make_one(
    locus: &mut Locus,
    atlas: &mut Atlas,
    newborn: &mut Option<Head>,
    d: u8,
    n: u8,
    t: u8,
    entry: Option<u8>,
) -> Reply
    requires d { d < 8 }
    requires n { n < 8 }
    requires t { t < 8 }
    requires entry { ForSome entry IsPlace }
    requires some { 1 ≤ reg (locus_of locus.old) n }
    requires few { reg (locus_of locus.old) n ≤ 256 }
    requires free { is_some (free_slot locus.old.caps) ≡ true }
    requires place { locus.old.place < 128 }
    ensures { (s : Supply) → AtlasCallMade (making s (locus_of locus.old) (atlas_state atlas.old) d (reg (locus_of locus.old) n) (reg (locus_of locus.old) t) entry)
        (locus_of locus.new) result (atlas_state atlas.new) None (born_head s (atlas_state atlas.old) newborn.new) }
{
    *newborn = None;
    let Ok(number) = atlas.birth(None, Kind::Container) else {
        return reply_with(locus, Reply::NoNumber);
    };
    let pages = locus.register(n) as u16;
    let tag = locus.register(t);
    *newborn = Some(new_head(locus, pages, tag, entry));
    hold(locus, d, number);
    reply_with(locus, Reply::Ok)
}

/// Gives birth to a container, and the locus gets a capability on it. NoNumber where no number is free.
#[tactic(auto, using(act_invoke::proofs::Entered::operands))]
pub fn make(locus: &mut Locus, atlas: &mut Atlas, newborn: &mut Option<Head>, instr: Instr) -> Reply
    requires ready { IsReadyLocus (locus_of locus.old) }
    requires instr { instr ≡ instr_at (locus_of locus.old) }
    requires wants { WantsBirth is_make (locus_of locus.old) }
    ensures { (me : ℕ) → (s : Supply) → (cell : Cell)
        → AtlasCallMade (outcome s (locus_of locus.old) (wanted me (locus_of locus.old)) (atlas_state atlas.old) cell)
        (locus_of locus.new) result (atlas_state atlas.new) None (born_head s (atlas_state atlas.old) newborn.new) }
{
    match instr {
        Instr::Make(d, n, t, entry) => make_one(locus, atlas, newborn, d, n, t, entry),
        _ => unreachable!(),
    }
}

/// A running locus like this one at another place, with nothing begun.
fn spawned_from(locus: &Locus, place: u8) -> Locus
    ensures { locus_of result ≡ spawned (locus_of locus.now) place }
{
    Locus {
        registers: locus.registers,
        place,
        code: Code::new(locus.code.as_slice()),
        host: locus.host,
        chain: Chain::new(),
        privates: Privates::new(),
        caps: locus.caps,
        walk: None,
        condition: Condition::Running,
        every: locus.every,
        printed: 0,
    }
}

fn spawn_one(
    locus: &mut Locus,
    atlas: &mut Atlas,
    newborn: &mut Option<Locus>,
    d: u8,
    p: u8,
) -> Reply
    requires d { d < 8 }
    requires free { is_some (free_slot locus.old.caps) ≡ true }
    requires place { locus.old.place < 128 }
    ensures { AtlasCallMade (spawning (locus_of locus.old) (atlas_state atlas.old) d p)
        (locus_of locus.new) result (atlas_state atlas.new) None (born_locus (atlas_state atlas.old) newborn.new) }
{
    *newborn = None;
    let Ok(number) = atlas.birth(None, Kind::Locus) else {
        return reply_with(locus, Reply::NoNumber);
    };
    *newborn = Some(spawned_from(locus, p));
    hold(locus, d, number);
    reply_with(locus, Reply::Ok)
}

/// Gives birth to a locus like this one, and the locus gets a capability on it. NoNumber where no number is free.
#[tactic(auto, using(act_invoke::proofs::Entered::operands))]
pub fn spawn(
    locus: &mut Locus,
    atlas: &mut Atlas,
    newborn: &mut Option<Locus>,
    instr: Instr,
) -> Reply
    requires ready { IsReadyLocus (locus_of locus.old) }
    requires instr { instr ≡ instr_at (locus_of locus.old) }
    requires wants { WantsBirth is_spawn (locus_of locus.old) }
    ensures { (me : ℕ) → (s : Supply) → (cell : Cell)
        → AtlasCallMade (outcome s (locus_of locus.old) (wanted me (locus_of locus.old)) (atlas_state atlas.old) cell)
        (locus_of locus.new) result (atlas_state atlas.new) None (born_locus (atlas_state atlas.old) newborn.new) }
{
    match instr {
        Instr::Spawn(d, p) => spawn_one(locus, atlas, newborn, d, p),
        _ => unreachable!(),
    }
}
