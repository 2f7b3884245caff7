ghost use Rattle.std.specs.Prelude.{◌≡◌, ◌<◌};
ghost use Rattle.base_types.specs.Instructions.{IsInstruction};
ghost use Rattle.base_types.specs.declared.instructions.Instr.TheVariants.{Load as LoadAct, Store as StoreAct, Invoke as InvokeAct, Leave as LeaveAct, Return as ReturnAct, Map as MapAct, Unmap as UnmapAct, Lmap as LmapAct, Lunmap as LunmapAct, Take as TakeAct, Give as GiveAct, Drop as DropAct, Make as MakeAct, Spawn as SpawnAct, Stop as StopAct, Go as GoAct, Snap as SnapAct, Stabilise as StabiliseAct};
ghost use Rattle.model_kernel.specs.Refusals.{refusal as refused};
ghost use Rattle.model_acts.specs.Views.{view_of};

use crate::checks::{
    begins_private, first_look_denied, first_of, lacks, no_container, no_free_slot, no_locus,
    no_page, no_slot, overlaps_private, unless,
};
use crate::reads::{named_entity, register};
use crate::view::LocusView;
use base_types::{Entity, Instr, MOST_PRIVATES, Reply, Rights};

#[tactic(auto, unfolding(model_kernel::specs::Refusals::refusal))]
fn load_refused(l: &LocusView, d: u8, a: u8) -> Option<Reply>
    requires { a < 8 }
    ensures { result ≡ refused (view_of l.now) (LoadAct d a) }
{
    first_look_denied(l, register(l, a), Rights::READ)
}

#[tactic(auto, unfolding(model_kernel::specs::Refusals::refusal))]
fn store_refused(l: &LocusView, a: u8, s: u8) -> Option<Reply>
    requires { a < 8 }
    ensures { result ≡ refused (view_of l.now) (StoreAct a s) }
{
    first_look_denied(l, register(l, a), Rights::WRITE)
}

/// An invocation, which keeps the caller or not.
#[tactic(auto, unfolding(model_kernel::specs::Refusals::refusal))]
fn entry_refused(l: &LocusView, c: u8) -> Option<Reply>
    requires { c < 8 }
    ensures invoke { result ≡ refused (view_of l.now) (InvokeAct c) }
    ensures leave { result ≡ refused (view_of l.now) (LeaveAct c) }
{
    first_of(&[
        no_slot(l, c),
        no_container(l, c),
        lacks(l, c, Rights::INVOKE),
    ])
}

#[tactic(auto, unfolding(model_kernel::specs::Refusals::refusal))]
fn return_refused(l: &LocusView) -> Option<Reply>
    ensures { result ≡ refused (view_of l.now) ReturnAct }
{
    unless(!l.chain.is_empty(), Reply::NoCaller)
}

#[tactic(auto, unfolding(model_kernel::specs::Refusals::refusal))]
fn map_refused(l: &LocusView, d: u8, a: u8, c: u8, b: u8, n: u8, rights: Rights) -> Option<Reply>
    requires { IsInstruction (MapAct d a c b n rights) }
    ensures { result ≡ refused (view_of l.now) (MapAct d a c b n rights) }
{
    first_of(&[
        no_slot(l, d),
        no_slot(l, c),
        no_container(l, d),
        no_container(l, c),
        lacks(l, d, Rights::MAP),
        lacks(l, c, rights),
        no_page(l, a, b, n),
    ])
}

#[tactic(auto, unfolding(model_kernel::specs::Refusals::refusal))]
fn unmap_refused(l: &LocusView, d: u8, a: u8) -> Option<Reply>
    requires { d < 8 }
    ensures { result ≡ refused (view_of l.now) (UnmapAct d a) }
{
    first_of(&[no_slot(l, d), no_container(l, d), lacks(l, d, Rights::MAP)])
}

#[tactic(auto, unfolding(model_kernel::specs::Refusals::refusal))]
fn lmap_refused(l: &LocusView, a: u8, c: u8, b: u8, n: u8, rights: Rights) -> Option<Reply>
    requires { IsInstruction (LmapAct a c b n rights) }
    ensures { result ≡ refused (view_of l.now) (LmapAct a c b n rights) }
{
    let overlaps = overlaps_private(l, register(l, a), register(l, n));
    first_of(&[
        no_slot(l, c),
        no_container(l, c),
        lacks(l, c, rights),
        no_page(l, a, b, n),
        unless(!overlaps, Reply::Overlap),
        unless(l.privates.len() < MOST_PRIVATES, Reply::ListFull),
    ])
}

#[tactic(auto, unfolding(model_kernel::specs::Refusals::refusal))]
fn lunmap_refused(l: &LocusView, a: u8) -> Option<Reply>
    requires { a < 8 }
    ensures { result ≡ refused (view_of l.now) (LunmapAct a) }
{
    unless(begins_private(l, register(l, a)), Reply::NoRegion)
}

#[tactic(auto, unfolding(model_kernel::specs::Refusals::refusal))]
fn take_refused(l: &LocusView, d: u8, c: u8, y: u8) -> Option<Reply>
    requires { c < 8 }
    ensures { result ≡ refused (view_of l.now) (TakeAct d c y) }
{
    first_of(&[no_slot(l, c), no_container(l, c), lacks(l, c, Rights::COPY)])
}

#[tactic(auto, unfolding(model_kernel::specs::Refusals::refusal))]
fn give_refused(l: &LocusView, d: u8, c: u8, s: u8, rights: Rights) -> Option<Reply>
    requires c { c < 8 }
    requires s { s < 8 }
    ensures { result ≡ refused (view_of l.now) (GiveAct d c s rights) }
{
    first_of(&[
        no_slot(l, c),
        no_slot(l, s),
        no_container(l, c),
        lacks(l, c, Rights::COPY),
    ])
}

#[tactic(auto, unfolding(model_kernel::specs::Refusals::refusal))]
fn drop_refused(l: &LocusView, s: u8) -> Option<Reply>
    requires { s < 8 }
    ensures { result ≡ refused (view_of l.now) (DropAct s) }
{
    no_slot(l, s)
}

#[tactic(auto, unfolding(model_kernel::specs::Refusals::refusal))]
fn make_refused(l: &LocusView, d: u8, n: u8, t: u8, entry: Option<u8>) -> Option<Reply>
    requires { n < 8 }
    ensures { result ≡ refused (view_of l.now) (MakeAct d n t entry) }
{
    let pages = register(l, n);
    first_of(&[
        unless(pages > 0 && pages <= 256, Reply::NoPage),
        no_free_slot(l),
    ])
}

#[tactic(auto, unfolding(model_kernel::specs::Refusals::refusal))]
fn spawn_refused(l: &LocusView, d: u8, p: u8) -> Option<Reply>
    ensures { result ≡ refused (view_of l.now) (SpawnAct d p) }
{
    no_free_slot(l)
}

/// Letting another locus stop, or go on.
#[tactic(auto, unfolding(model_kernel::specs::Refusals::refusal))]
fn control_refused(l: &LocusView, c: u8) -> Option<Reply>
    requires { c < 8 }
    ensures stop { result ≡ refused (view_of l.now) (StopAct c) }
    ensures go { result ≡ refused (view_of l.now) (GoAct c) }
{
    first_of(&[no_slot(l, c), no_locus(l, c), lacks(l, c, Rights::CONTROL)])
}

#[tactic(auto, unfolding(model_kernel::specs::Refusals::refusal))]
fn snap_refused(l: &LocusView, c: u8) -> Option<Reply>
    requires { c < 8 }
    ensures { result ≡ refused (view_of l.now) (SnapAct c) }
{
    first_of(&[no_slot(l, c), lacks(l, c, Rights::SNAPSHOT)])
}

#[tactic(auto, unfolding(model_kernel::specs::Refusals::refusal))]
fn stabilise_refused(l: &LocusView, c: u8) -> Option<Reply>
    requires { c < 8 }
    ensures { result ≡ refused (view_of l.now) (StabiliseAct c) }
{
    let is_atlas = named_entity(l, c) == Entity::ATLAS;
    first_of(&[
        no_slot(l, c),
        unless(is_atlas, Reply::WrongKind),
        lacks(l, c, Rights::STABILISE),
    ])
}

/// The refusal that the locus alone decides: the first of the checks that fails.
#[tactic(auto, unfolding(model_kernel::specs::Refusals::refusal))]
pub(crate) fn refusal(l: &LocusView, instr: Instr) -> Option<Reply>
    requires { IsInstruction instr }
    ensures { result ≡ refused (view_of l.now) instr }
{
    match instr {
        Instr::Load(d, a) => load_refused(l, d, a),
        Instr::Store(a, s) => store_refused(l, a, s),
        Instr::Invoke(c) => entry_refused(l, c),
        Instr::Leave(c) => entry_refused(l, c),
        Instr::Return => return_refused(l),
        Instr::Map(d, a, c, b, n, rights) => map_refused(l, d, a, c, b, n, rights),
        Instr::Unmap(d, a) => unmap_refused(l, d, a),
        Instr::Lmap(a, c, b, n, rights) => lmap_refused(l, a, c, b, n, rights),
        Instr::Lunmap(a) => lunmap_refused(l, a),
        Instr::Take(d, c, y) => take_refused(l, d, c, y),
        Instr::Give(d, c, s, rights) => give_refused(l, d, c, s, rights),
        Instr::Drop(s) => drop_refused(l, s),
        Instr::Make(d, n, t, entry) => make_refused(l, d, n, t, entry),
        Instr::Spawn(d, p) => spawn_refused(l, d, p),
        Instr::Stop(c) => control_refused(l, c),
        Instr::Go(c) => control_refused(l, c),
        Instr::Snap(c) => snap_refused(l, c),
        Instr::Stabilise(c) => stabilise_refused(l, c),
        Instr::Set(..) | Instr::Copy(..) | Instr::Add(..) | Instr::Sub(..) => None,
        Instr::Jump(_) | Instr::Jz(..) | Instr::Print(_) | Instr::Halt => None,
    }
}
