//! Code without `snap`.
ghost use Rattle.std.specs.Prelude.{◌≡◌, IsTrue};
ghost use Rattle.std.specs.List.{list_all};
ghost use Rattle.plain_steps.specs.plain_facts.Snaps.{HasNoSnapTables, has_no_snap, is_no_snap};
ghost use Rattle.script_types.specs.Scripts.{tables_of};

use base_types::Instr;
use script_types::{Script, ScriptContainer};

fn is_no_snap(instr: &Instr) -> bool
    ensures { result ≡ is_no_snap instr.now }
{
    !matches!(instr, Instr::Snap(_))
}

fn has_no_snap(code: &[Instr]) -> bool
    ensures { result ≡ has_no_snap code.now }
{
    code.iter().all(|instr| is_no_snap(instr))
}

fn have_no_snaps(containers: &[ScriptContainer]) -> bool
    ensures { result ≡ list_all (λ container. has_no_snap container.code.items) containers.now }
{
    containers
        .iter()
        .all(|container| has_no_snap(&container.code))
}

/// Whether no container's code has a `snap`: then a plain run, which makes no snapshots, can play the script.
pub fn has_no_snaps(script: &Script) -> bool
    ensures { IsTrue result → HasNoSnapTables (tables_of script.now) }
{
    have_no_snaps(&script.containers)
}
