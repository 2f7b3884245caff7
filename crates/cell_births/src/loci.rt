// The birth of a locus from its table, on the parts of three cells.
ghost use Rattle.std.specs.Prelude.{◌≡◌, ◌≤◌, ◌<◌, ◌++◌, ◌∷◌, [], ℕ, List, IsTrue, length, None, string_bytes};
ghost use Rattle.script_types.specs.model_kernel.Births.{code_in, locus_from as locus_by, with_locus_name};
ghost use Rattle.script_types.specs.model_kernel.Scripts.{number_in, number_of};
ghost use Rattle.script_types.specs.model_kernel.Soundness.{is_given_name};
ghost use Rattle.script_types.specs.model_kernel.State.{AtlasState, AtlasCell, LocusCell, Supply};
ghost use Rattle.script_types.specs.Scripts.{locus_of as table_of};
ghost use Rattle.data_atlas.specs.data_atlas_facts.Directory.{Directory};
ghost use Rattle.act_alone.specs.Loci.{locus_of};
ghost use Rattle.script_fits.specs.act_calls.Calls.{atlas_state};
ghost use Rattle.cell_wish_laws.specs.cell_states.Cells.{part_of};
ghost use Rattle.cell_births.specs.Bearing.{MayBearLocus};

use crate::tables::caps_from;
use act_alone::Locus;
use base_types::{Entity, Instr, Kind};
use cell_wish_laws::{Part, Storage};
use data_atlas::Atlas;
use script_types::ScriptLocus;

/// The code of a container that is born, and else none.
fn code_of(part: &Part) -> &[Instr]
    ensures code { (s : Supply) → (words : ℕ → List ℕ) → result.now ≡ code_in (part_of s words part.now) }
    ensures few { length result.now ≤ 128 }
{
    match part {
        Part::Container(
            Storage {
                head: Some(head),
                ..
            },
        ) => head.code.as_slice(),
        _ => &[],
    }
}

/// The locus of a table, in a host with this code.
fn locus_from(
    atlas: &Atlas,
    newborn: Entity,
    host: Entity,
    code: &[Instr],
    table: &ScriptLocus,
) -> Locus
    requires code { length code.now ≤ 128 }
    requires place { table.now.at ≤ 128 }
    requires slots { length table.now.caps.items ≤ 32 }
    ensures { locus_of result ≡ locus_by (number_in (atlas_state atlas.now) (string_bytes table.now.name) newborn) (table_of table.now) host code.now }
{
    let mut locus = Locus::new(host, table.at, table.every, code);
    locus.caps = caps_from(atlas, &table.name, newborn, &table.caps);
    locus
}

/// Gives the newborn its name.
fn name_locus(atlas: &mut Atlas, name: &str)
    requires given { IsTrue (is_given_name name.now) }
    requires fresh { number_of (atlas_state atlas.old) name.now ≡ None }
    requires free { length atlas.old.loci < 23 }
    ensures { atlas.new ≡ record atlas.old { loci = atlas.old.loci ++ name.now ∷ [] } }
{
    let _ = atlas.birth(Some(name), Kind::Locus);
}

fn bear_with(
    atlas: &mut Atlas,
    newborn: Entity,
    host: Entity,
    code: &[Instr],
    table: &ScriptLocus,
) -> Locus
    requires may { MayBearLocus atlas.old (table_of table.now) host newborn }
    requires code { length code.now ≤ 128 }
    ensures atlas { atlas_state atlas.new ≡ with_locus_name (atlas_state atlas.old) (string_bytes table.now.name) }
    ensures locus { locus_of result ≡ locus_by (number_in (atlas_state atlas.old) (string_bytes table.now.name) newborn) (table_of table.now) host code.now }
{
    let locus = locus_from(atlas, newborn, host, code, table);
    name_locus(atlas, &table.name);
    locus
}

/// What the birth of a locus makes of the parts of the atlas and the newborn.
pub(crate) fn bear_in_parts(
    atlas: &mut Part,
    host: &Part,
    part: &mut Part,
    numbers: (Entity, Entity),
    table: &ScriptLocus,
)
    requires { (d : Directory) × (atlas.old ≡ Part.Atlas d) × MayBearLocus d (table_of table.now) numbers.0 numbers.1 }
    ensures atlas { (s : Supply) → (words : ℕ → List ℕ) → (a : AtlasState) → part_of s words atlas.old ≡ AtlasCell a
        → part_of s words atlas.new ≡ AtlasCell (with_locus_name a (string_bytes table.now.name)) }
    ensures cell { (s : Supply) → (words : ℕ → List ℕ) → (a : AtlasState) → part_of s words atlas.old ≡ AtlasCell a
        → part_of s words part.new ≡ LocusCell (locus_by (number_in a (string_bytes table.now.name) numbers.1) (table_of table.now) numbers.0 (code_in (part_of s words host.now))) }
{
    let code = code_of(host);
    match atlas {
        Part::Atlas(directory) => {
            let locus = bear_with(directory, numbers.1, numbers.0, code, table);
            *part = Part::Locus(Some(locus));
        }
        _ => unreachable!(),
    }
}
