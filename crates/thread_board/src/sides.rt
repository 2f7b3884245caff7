//! What the seats tell each other.
ghost use Rattle.std.specs.Prelude.{◌≡◌, ◌∷◌, ℕ, [], length};
ghost use mathlib.Core.List.{IsPrefix};
ghost use Rattle.thread_board.specs.Lines.{StopsLast};
ghost use Rattle.thread_board.specs.declared.views.Role.TheVariants.{Commits, Items, Pass};
ghost use Rattle.thread_history.specs.Rules.{AllDiffer};
ghost use Rattle.thread_history.specs.Seats.{IsAt};

use crate::lines::Line;
use crate::seats::{COMMITS, ITEMS, cut_note, look, take_in};
use crate::views::{BoardSeat, BoardTable};

/// Shows the store's side what another seat knows: its commits begin the store's.
pub(crate) fn show_commits<C: Line, T>(
    table: &BoardTable<C, T>,
    till: &mut BoardSeat<C, T>,
    other: &mut BoardSeat<C, T>,
) -> u64
    requires seats { IsAt table.now till.old × IsAt table.now other.old }
    requires writer { till.old.me.0.role ≡ Commits }
    ensures seats { (till.new.table_id ≡ till.old.table_id) × (other.new.table_id ≡ other.old.table_id) × (till.new.me.1 ≡ till.old.me.1) }
    ensures till { (till.new.me.0.role ≡ Commits) × (till.new.me.0.commits ≡ till.old.me.0.commits) }
    ensures other { other.new.me ≡ other.old.me }
    ensures begins { IsPrefix other.old.me.0.commits till.old.me.0.commits }
    ensures last { StopsLast C.stops till.old.me.0.commits }
    ensures count { result ≡ length till.old.me.0.commits }
{
    let note = cut_note(table, other);
    take_in(table, till, note);
    look(table, till, COMMITS)
}

/// Tells the chronicle's side the store's commits.
pub(crate) fn tell_commits<C: Line, T>(
    table: &BoardTable<C, T>,
    till: &mut BoardSeat<C, T>,
    slip: &mut BoardSeat<C, T>,
)
    requires seats { IsAt table.now till.old × IsAt table.now slip.old }
    requires writer { slip.old.me.0.role ≡ Items }
    requires begins { IsPrefix slip.old.me.0.commits till.old.me.0.commits }
    ensures seats { (till.new.table_id ≡ till.old.table_id) × (slip.new.table_id ≡ slip.old.table_id) × (slip.new.me.1 ≡ slip.old.me.1) }
    ensures till { till.new.me ≡ till.old.me }
    ensures slip { (slip.new.me.0.role ≡ Items) × (slip.new.me.0.items ≡ slip.old.me.0.items) × (slip.new.me.0.back ≡ slip.old.me.0.back) × (slip.new.me.0.commits ≡ till.old.me.0.commits) }
{
    let note = cut_note(table, till);
    take_in(table, slip, note);
}

/// Shows the chronicle's side what a pass knows: its items begin all items. Answers how many there are.
pub(crate) fn show_items<C: Line, T>(
    table: &BoardTable<C, T>,
    slip: &mut BoardSeat<C, T>,
    pass: &mut BoardSeat<C, T>,
) -> u64
    requires seats { IsAt table.now slip.old × IsAt table.now pass.old }
    requires writer { slip.old.me.0.role ≡ Items }
    requires pass { pass.old.me.0.commits ≡ [] }
    ensures seats { (slip.new.table_id ≡ slip.old.table_id) × (pass.new.table_id ≡ pass.old.table_id) × (slip.new.me.1 ≡ slip.old.me.1) }
    ensures slip { (slip.new.me.0.role ≡ Items) × (slip.new.me.0.items ≡ slip.old.me.0.items) × (slip.new.me.0.back ≡ slip.old.me.0.back) × (slip.new.me.0.commits ≡ slip.old.me.0.commits) }
    ensures pass { pass.new.me ≡ pass.old.me }
    ensures begins { IsPrefix pass.old.me.0.items slip.old.me.0.items }
    ensures count { result ≡ length slip.old.me.0.items }
{
    let note = cut_note(table, pass);
    take_in(table, slip, note);
    look(table, slip, ITEMS)
}

/// Tells a pass all items.
pub(crate) fn tell_items<C: Line, T>(
    table: &BoardTable<C, T>,
    slip: &mut BoardSeat<C, T>,
    pass: &mut BoardSeat<C, T>,
)
    requires seats { IsAt table.now slip.old × IsAt table.now pass.old }
    requires pass { (n : ℕ) × (pass.old.me.0.role ≡ Pass n) }
    requires begins { IsPrefix pass.old.me.0.items slip.old.me.0.items }
    ensures seats { (slip.new.table_id ≡ slip.old.table_id) × (pass.new.table_id ≡ pass.old.table_id) × (pass.new.me.1 ≡ pass.old.me.1) }
    ensures slip { slip.new.me ≡ slip.old.me }
    ensures pass { (pass.new.me.0.role ≡ pass.old.me.0.role) × (pass.new.me.0.commits ≡ pass.old.me.0.commits) × (pass.new.me.0.items ≡ slip.old.me.0.items) }
{
    let note = cut_note(table, slip);
    take_in(table, pass, note);
}

/// A pass comes back to the chronicle's side for good.
pub(crate) fn take_pass<C: Line, T>(
    table: &BoardTable<C, T>,
    slip: &mut BoardSeat<C, T>,
    pass: BoardSeat<C, T>,
    number: u64,
)
    requires seats { IsAt table.now slip.old × (pass.table_id ≡ slip.old.table_id) × (pass.me.1 ≡ []) }
    requires writer { slip.old.me.0.role ≡ Items }
    requires pass { (pass.me.0.role ≡ Pass number) × (pass.me.0.commits ≡ []) }
    ensures seats { (slip.new.table_id ≡ slip.old.table_id) × (slip.new.me.1 ≡ slip.old.me.1) }
    ensures slip { (slip.new.me.0.role ≡ Items) × (slip.new.me.0.items ≡ slip.old.me.0.items) × (slip.new.me.0.commits ≡ slip.old.me.0.commits) }
    ensures back { slip.new.me.0.back ≡ number ∷ slip.old.me.0.back }
    ensures once { AllDiffer slip.new.me.0.back }
    ensures begins { IsPrefix pass.me.0.items slip.old.me.0.items }
{
    let _ = number;
    take_in(table, slip, pass);
    look(table, slip, ITEMS);
}
