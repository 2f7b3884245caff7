ghost use Rattle.std.specs.Prelude.{◌≤◌, ◌↔◌, IsTrue};
ghost use Rattle.std.specs.Option.{ForSome};
ghost use Rattle.base_types.specs.Instructions.{IsInstruction, IsAccess, IsPlace};
ghost use Rattle.base_types.specs.declared.instructions.Walk.{Walk};
ghost use Rattle.model_acts.specs.Views.{IsReadyLocus, IsInside};
ghost use Rattle.act_alone.specs.Loci.{locus_of};

use act_alone::Locus;
use base_types::{Instr, Region, Rights, Walk};

/// Read, Write or both.
fn is_access(rights: Rights) -> bool
    ensures { IsTrue result ↔ IsAccess rights.0 }
{
    rights.0 >= 1 && rights.0 < 4
}

fn is_entry(entry: Option<u8>) -> bool
    ensures { IsTrue result ↔ ForSome entry IsPlace }
{
    match entry {
        Some(place) => place < 128,
        None => true,
    }
}

/// Whether the operands are in their ranges.
fn is_instruction(instr: Instr) -> bool
    ensures { IsTrue result ↔ IsInstruction instr }
{
    match instr {
        Instr::Set(d, _) => d < 8,
        Instr::Copy(d, s) => d < 8 && s < 8,
        Instr::Add(d, s) => d < 8 && s < 8,
        Instr::Sub(d, s) => d < 8 && s < 8,
        Instr::Jump(p) => p < 128,
        Instr::Jz(s, p) => s < 8 && p < 128,
        Instr::Load(d, a) => d < 8 && a < 8,
        Instr::Store(a, s) => a < 8 && s < 8,
        Instr::Invoke(c) => c < 8,
        Instr::Leave(c) => c < 8,
        Instr::Return => true,
        Instr::Map(d, a, c, b, n, rights) => {
            d < 8 && a < 8 && c < 8 && b < 8 && n < 8 && is_access(rights)
        }
        Instr::Unmap(d, a) => d < 8 && a < 8,
        Instr::Lmap(a, c, b, n, rights) => a < 8 && c < 8 && b < 8 && n < 8 && is_access(rights),
        Instr::Lunmap(a) => a < 8,
        Instr::Take(d, c, y) => d < 8 && c < 8 && y < 8,
        Instr::Give(d, c, s, _) => d < 8 && c < 8 && s < 8,
        Instr::Drop(s) => s < 8,
        Instr::Make(d, n, t, entry) => d < 8 && n < 8 && t < 8 && is_entry(entry),
        Instr::Spawn(d, p) => d < 8 && p < 128,
        Instr::Stop(c) => c < 8,
        Instr::Go(c) => c < 8,
        Instr::Snap(c) => c < 8,
        Instr::Stabilise(c) => c < 8,
        Instr::Print(s) => s < 8,
        Instr::Halt => true,
    }
}

/// Whether both sides of the region are within the greatest size.
fn is_inside(region: Region) -> bool
    ensures { IsTrue result ↔ IsInside region }
{
    let count = region.count as u32;
    region.at as u32 + count <= 256 && region.from as u32 + count <= 256
}

fn is_short(walk: Option<Walk>) -> bool
    ensures { IsTrue result ↔ ForSome walk (λ (w : Walk). w.hops ≤ 63) }
{
    match walk {
        Some(walk) => walk.hops <= 63,
        None => true,
    }
}

/// Whether the choice of an act may be made for the locus.
pub fn is_ready(locus: &Locus) -> bool
    ensures { IsTrue result ↔ IsReadyLocus (locus_of locus.now) }
{
    if locus.place > 128 || !is_short(locus.walk) {
        return false;
    }
    if !locus
        .code
        .as_slice()
        .iter()
        .all(|instr| is_instruction(*instr))
    {
        return false;
    }
    locus
        .privates
        .as_slice()
        .iter()
        .all(|p| is_inside(p.region))
}
