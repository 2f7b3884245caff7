//! The side that stands beside a store: it writes commits, and has the ledger's share.
ghost use Rattle.std.specs.Prelude.{◌≡◌, ◌<◌, ◌^◌, ◌++◌, ◌∷◌, [], false, length};
ghost use Rattle.thread_board.specs.Lines.{StopsLast, has_stop};

use crate::lines::{Line, Placed};
use crate::notices::StopNote;
use crate::seats::{COMMITS, commit, look};
use crate::sides::{show_commits, tell_commits};
use crate::slates::{Bench, Slate};
use crate::slips::Slip;
use crate::views::BoardSeat;
use std::marker::{Brand, Model, PhantomData};
use std::sync::ledger::Share;

/// The side that writes commits. Contracts see the lines since the table was made: commits, and at the end perhaps a stop. It has all
/// parts of the ledger, whose amount is the number of lines.
#[derive(Drop)]
pub struct Till<C: Line, T: Placed, B: Bench> {
    pub(crate) stopped: bool,
    pub(crate) seat: BoardSeat<C, T>,
    pub(crate) mark: Share<B>,
    pub(crate) of: PhantomData<B>,
}

impl<C: Line, T: Placed, B: Bench> Model for Till<C, T, B> {
    ghost use Rattle.std.specs.Prelude.{◌≡◌, List, [], length};
    ghost use Rattle.thread_board.specs.declared.views.Role.TheVariants.{Commits};
    ghost use Rattle.thread_board.specs.Lines.{has_stop};

    ghost Value = { List C };

    ghost view = { λ t. t.seat.me.0.commits };

    ghost invariant = { λ t. (t.seat.table_id ≡ B.slate) × (t.seat.me.1 ≡ []) × (t.seat.me.0.role ≡ Commits)
        × (t.stopped ≡ has_stop C.stops t.seat.me.0.commits) × (t.mark.parts ≡ B.all) × (t.mark.amount ≡ length t.seat.me.0.commits) };
}

impl<C: Line, T: Placed, B: Bench> Till<C, T, B> {
    /// Whether a stop was noted.
    pub fn is_stopped(&self) -> bool
        ensures { result ≡ has_stop C.stops self.now }
    {
        self.stopped
    }

    /// How many lines there are. One step at the table.
    pub fn count(&mut self, slate: &Slate<C, T, B>) -> u64
        ensures till { self.new ≡ self.old }
        ensures count { result ≡ length self.old }
    {
        look(&slate.table, &mut self.seat, COMMITS)
    }

    /// Shows that both sides know the same lines, of which only the last can be a stop. Three steps at the table.
    pub fn audit(&mut self, slate: &Slate<C, T, B>, slip: &mut Slip<C, T, B>)
        ensures till { self.new ≡ self.old }
        ensures slip { slip.new ≡ slip.old }
        ensures same { slip.old.commits ≡ self.old }
        ensures last { StopsLast C.stops self.old }
    {
        show_commits(&slate.table, &mut self.seat, &mut slip.seat);
        slip.book.audit(&mut self.mark);
    }

    /// Both sides have a line more. Where it is a stop, none follows. Six steps at the table.
    pub fn commit(&mut self, slate: &Slate<C, T, B>, slip: &mut Slip<C, T, B>, line: &C)
        requires goes_on { has_stop C.stops self.old ≡ false }
        requires room { length self.old < 2 ^ 62 }
        ensures till { self.new ≡ self.old ++ line.now ∷ [] }
        ensures slip { slip.new ≡ record { items = slip.old.items; commits = self.new; back = slip.old.back } }
        ensures same { slip.old.commits ≡ self.old }
    {
        self.audit(slate, slip);
        commit::<C, T, Brand>(&slate.table, &mut self.seat, line);
        slip.book.add(&mut self.mark, 1);
        tell_commits(&slate.table, &mut self.seat, &mut slip.seat);
        self.stopped = line.stops();
        slip.stopped = self.stopped;
    }

    /// Shows that a note of a stop has all lines: none came after the stop. Three steps at the table.
    pub fn hear(&mut self, slate: &Slate<C, T, B>, note: &mut StopNote<C, T, B>)
        ensures till { self.new ≡ self.old }
        ensures note { note.new ≡ note.old }
        ensures same { note.old ≡ self.old }
    {
        show_commits(&slate.table, &mut self.seat, &mut note.seat);
    }
}
