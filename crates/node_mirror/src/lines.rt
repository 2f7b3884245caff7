// The line between the two nodes.
ghost use Rattle.std.specs.Prelude.{◌≡◌, ◌+◌, ◌*◌, ◌∷◌, [], List, IfErr, OnOk, if◌then◌else◌, replicate};
ghost use Rattle.base_types.specs.declared.histories.Entry.{Entry as AnEntry};
ghost use Rattle.drawn_words.specs.Words.{words_numbered, words_of};
ghost use Rattle.node_mirror.specs.Lines.{Runs};
ghost use Rattle.node_rounds.specs.Going.{AllShip, AreInStep, GoesBy, StopsRound, StopsRounds};
ghost use Rattle.node_rounds.specs.node_standby.Following.{Follows};
ghost use Rattle.node_rounds.specs.node_standby.Standing.{KeepsCount};
ghost use Rattle.node_rounds.specs.node_standby.node_shipments.kernel_invariant.Beginnings.{Beginning as ABeginning};
ghost use Rattle.node_world.specs.Worlds.{offered};

use edge_disk::Disk;
use node_rounds::{RoundStop, Shipped, Standby, last_rounds, round, round_words};
use node_world::Sender;
use rand_pcg::Lcg64Xsh32;
use std::alloc::Global;

/// What is drawn in a mirrored run.
#[derive(Clone, Copy, Debug, PartialEq, Eq)]
pub struct Losing {
    /// The generator's number.
    pub seed: u64,
    /// So many packets and counts in a hundred are lost.
    pub loss: u8,
}

/// The sender with what may be lacking yet, the standby, and the words from which rounds between them are drawn.
#[derive(Drop)]
pub(crate) struct Line<E: Disk> {
    pub(crate) sender: Sender<Shipped>,
    pub(crate) standby: Standby<E>,
    pub(crate) words: Lcg64Xsh32,
    pub(crate) loss: u8,
}

impl<E: Disk> Line<E> {
    /// Nothing was offered yet.
    pub(crate) fn new(alloc: Global, losing: Losing, standby: Standby<E>) -> Line<E>
        ensures sender { result.sender ≡ record { acked = 0; waiting = [] } }
        ensures standby { result.standby ≡ standby }
        ensures words { words_of result.words ≡ words_numbered losing.seed 55 }
        ensures loss { result.loss ≡ losing.loss }
    {
        Line {
            sender: Sender::new(alloc),
            standby,
            words: round_words(losing.seed),
            loss: losing.loss,
        }
    }

    /// A round, where one is due.
    pub(crate) fn go(&mut self, due: bool) -> Result<(), RoundStop>
        requires step { AreInStep self.old.sender self.old.standby }
        ensures step { AreInStep self.new.sender self.new.standby }
        ensures loss { self.new.loss ≡ self.old.loss }
        ensures goes { OnOk result (Runs (if due then offered self.old.sender ∷ [] else []) self.old self.new) }
        ensures stops { IfErr result (StopsRound E.Disk self.old.sender self.old.standby self.new.standby) }
        ensures counts { KeepsCount E.Disk self.old.standby self.new.standby }
        ensures follows { (b : ABeginning) (es : List AnEntry) → Follows b es E.Disk self.old.standby → AllShip b es self.old.sender → Follows b es E.Disk self.new.standby }
    {
        if !due {
            return Ok(());
        }
        round(
            &mut self.words,
            self.loss,
            &mut self.sender,
            &mut self.standby,
        )
    }

    // So many rounds.
    fn rounds(&mut self, most: u64) -> Result<(), RoundStop>
        requires step { AreInStep self.old.sender self.old.standby }
        ensures step { AreInStep self.new.sender self.new.standby }
        ensures loss { self.new.loss ≡ self.old.loss }
        ensures goes { OnOk result (Runs (replicate most (offered self.old.sender)) self.old self.new) }
        ensures stops { IfErr result (StopsRounds E.Disk self.old.sender self.old.standby self.new.standby) }
        ensures counts { KeepsCount E.Disk self.old.standby self.new.standby }
        ensures follows { (b : ABeginning) (es : List AnEntry) → Follows b es E.Disk self.old.standby → AllShip b es self.old.sender → Follows b es E.Disk self.new.standby }
    {
        last_rounds(
            &mut self.words,
            self.loss,
            most,
            &mut self.sender,
            &mut self.standby,
        )
    }

    /// The last rounds: four for each commit that was offered, and a thousand.
    pub(crate) fn finish(&mut self) -> Result<(), RoundStop>
        requires step { AreInStep self.old.sender self.old.standby }
        ensures step { AreInStep self.new.sender self.new.standby }
        ensures loss { self.new.loss ≡ self.old.loss }
        ensures goes { OnOk result (Runs (replicate (4 * offered self.old.sender + 1000) (offered self.old.sender)) self.old self.new) }
        ensures stops { IfErr result (StopsRounds E.Disk self.old.sender self.old.standby self.new.standby) }
        ensures counts { KeepsCount E.Disk self.old.standby self.new.standby }
        ensures follows { (b : ABeginning) (es : List AnEntry) → Follows b es E.Disk self.old.standby → AllShip b es self.old.sender → Follows b es E.Disk self.new.standby }
    {
        let made = self.sender.offered();
        for _ in 0..4u8 {
            if let Err(stop) = self.rounds(made) {
                return Err(stop);
            }
        }
        self.rounds(1000)
    }
}
