// The next birth of a script over the table.
ghost use Rattle.std.specs.Prelude.{◌≡◌, ◌+◌, ℕ, Bool, List, IfNone, IfSome};
ghost use Rattle.script_types.specs.model_kernel.Scripts.{Script as Tables};
ghost use Rattle.script_types.specs.model_kernel.State.{Supply};
ghost use Rattle.script_types.specs.Rules.{IsScript};
ghost use Rattle.script_types.specs.Scripts.{tables_of};
ghost use Rattle.cell_births.specs.model_births.Fitting.{Fits};
ghost use Rattle.cell_births.specs.script_fits.NextTables.{IsNextTable};
ghost use Rattle.table_steps.specs.table_laws.Steps.{IsInOrder};
ghost use Rattle.table_steps.specs.table_laws.Tables.{AreFewWrites, IsOrderly};
ghost use Rattle.table_births.specs.Births.{AreUnderWay, BearsOn, BearsQuietly, EntersBirth, NoBirthLeft, atlas_state_in, count_born};

use crate::lending::{atlas_of, free_container, go_container, go_locus, locus_numbers};
use base_types::Entry;
use cell_births::{NextTable, Progress, next_table};
use script_types::Script;
use table_steps::Cell;

/// The birth of the table that is next.
fn bear_table(cells: &mut [Cell], next: NextTable) -> Entry
    requires order { IsInOrder cells.old }
    requires few { AreFewWrites cells.old }
    requires next { (script : Tables) × IsScript script × Fits (atlas_state_in cells.old) script × IsNextTable (atlas_state_in cells.old) script next }
    ensures { (script : Tables) → IsScript script → Fits (atlas_state_in cells.old) script
        → IsNextTable (atlas_state_in cells.old) script next.entry → BearsQuietly script cells.old cells.new result }
{
    match next {
        NextTable::Container(table) => {
            let newborn = free_container(atlas_of(cells));
            go_container(cells, newborn, table)
        }
        NextTable::Locus(table) => {
            let (host, newborn) = locus_numbers(atlas_of(cells), table);
            go_locus(cells, host, newborn, table)
        }
    }
}

/// The next birth of a script, over the cells that it touches: the atlas, the newborn, and a locus's host.
///
/// None comes exactly where each name of the script is in the atlas; then nothing is changed. It looks for the next table from where
/// the last search ended, so all births of a script cost one pass over its tables, and for each table a pass over the names of the atlas.
/// Each birth makes one entity more, so at most 63 follow each other. It takes no memory.
pub fn bear_next(cells: &mut [Cell], script: &Script, progress: &mut Progress) -> Option<Entry>
    requires order { IsInOrder cells.old }
    requires few { AreFewWrites cells.old }
    requires allowed { IsScript (tables_of script.now) }
    requires under_way { AreUnderWay (tables_of script.now) progress.old cells.old }
    ensures birth { (s : Supply) → (words : ℕ → List ℕ) → IfSome result (BearsOn s words (tables_of script.now) cells.old cells.new) }
    ensures none { IfNone result (NoBirthLeft (tables_of script.now) cells.old) }
    ensures still { IfNone result (cells.new ≡ cells.old) }
    ensures orderly { (held : ℕ → Bool) → IsOrderly held cells.old → IsOrderly held cells.new }
    ensures enters { IfSome result (EntersBirth cells.old cells.new) }
    ensures more { IfSome result (λ _. count_born (atlas_state_in cells.new) ≡ count_born (atlas_state_in cells.old) + 1) }
    ensures under_way { AreUnderWay (tables_of script.now) progress.new cells.new }
{
    let next = next_table(atlas_of(cells), script, progress)?;
    Some(bear_table(cells, next))
}
