// Rounds.
ghost use Rattle.std.specs.Prelude.{◌≡◌, ◌≤◌, ◌<◌, ◌+◌, ◌-◌, ◌^◌, ◌∷◌, [], List, IfErr, IfNone, IfSome, OnErr, OnOk, Ok, Some, false, true, if◌then◌else◌, replicate, ⊤};
ghost use Rattle.base_types.specs.declared.histories.Entry.{Entry as AnEntry};
ghost use Rattle.drawn_words.specs.Words.{words_of};
ghost use Rattle.node_draws.specs.Courses.{kept_behind};
ghost use Rattle.node_draws.specs.Drawing.{draws_in};
ghost use Rattle.node_rounds.specs.Going.{AllShip, AreInStep, GoesBy, ShipmentStops, StopsRound, StopsRounds};
ghost use Rattle.node_standby.specs.Following.{Follows};
ghost use Rattle.node_standby.specs.Standing.{KeepsCount};
ghost use Rattle.node_standby.specs.node_shipments.Runs.{IsShipmentAt};
ghost use Rattle.node_standby.specs.node_shipments.kernel_invariant.Beginnings.{Beginning as ABeginning};
ghost use Rattle.node_world.specs.Worlds.{after_heard, is_next, offered, packet_in};

use edge_disk::Disk;
use node_draws::{RoundDraws, draw_round};
use node_standby::{Shipped, Standby, StoreFault};
use node_world::Sender;
use rand_pcg::Lcg64Xsh32;

/// Why a shipment that came was not taken.
#[derive(Clone, Copy, Debug, PartialEq, Eq, Drop)]
pub enum RoundStop {
    /// The standby's store can't keep it.
    Store(StoreFault),
    /// The standby may not take it (`Standby::may_take`): it is no next shipment of a run that the standby follows.
    Refused,
}

// A packet comes to the standby: it is taken where its number is next, and else changes nothing.
fn come<D: Disk>(standby: &mut Standby<D>, number: u64, shipped: &Shipped) -> Result<(), RoundStop>
    ensures other { is_next standby.old.count number ≡ false → (result ≡ Ok tt) × (standby.new ≡ standby.old) }
    ensures taken { is_next standby.old.count number ≡ true → OnOk result (standby.new.count ≡ number) }
    ensures err { OnErr result (standby.new.count ≡ standby.old.count) }
    ensures stops { IfErr result (λ why. (is_next standby.old.count number ≡ true) × ShipmentStops D.Disk shipped.now standby.old standby.new why) }
    ensures counts { KeepsCount D.Disk standby.old standby.new }
    ensures follows { (b : ABeginning) (es : List AnEntry) → Follows b es D.Disk standby.old
        → (is_next standby.old.count number ≡ true → IsShipmentAt b es standby.old.count shipped.now) → Follows b es D.Disk standby.new }
{
    if !standby.is_next(number) {
        let _ = standby.deliver(number, shipped);
        return Ok(());
    }
    if !standby.may_take(shipped) {
        return Err(RoundStop::Refused);
    }
    match standby.deliver(number, shipped) {
        Ok(_) => Ok(()),
        Err(fault) => Err(RoundStop::Store(fault)),
    }
}

// It comes as is drawn: not at all, once, or a second time, which changes nothing.
fn come_as_drawn<D: Disk>(
    standby: &mut Standby<D>,
    number: u64,
    shipped: &Shipped,
    draws: RoundDraws,
) -> Result<(), RoundStop>
    requires some { 0 < number }
    ensures kept { OnOk result (standby.new.count ≡ kept_behind (draws_in draws) (record { acked = number - 1; kept = standby.old.count })) }
    ensures err { OnErr result (standby.new.count ≡ standby.old.count) }
    ensures stops { IfErr result (λ why. (is_next standby.old.count number ≡ true) × ShipmentStops D.Disk shipped.now standby.old standby.new why) }
    ensures counts { KeepsCount D.Disk standby.old standby.new }
    ensures follows { (b : ABeginning) (es : List AnEntry) → Follows b es D.Disk standby.old
        → (is_next standby.old.count number ≡ true → IsShipmentAt b es standby.old.count shipped.now) → Follows b es D.Disk standby.new }
{
    if draws.packet_lost {
        return Ok(());
    }
    come(standby, number, shipped)?;
    if draws.comes_twice {
        let _ = come(standby, number, shipped);
    }
    Ok(())
}

// The count is heard, unless it is lost.
fn hear_as_drawn(sender: &mut Sender<Shipped>, count: u64, lost: bool)
    requires { count ≤ offered sender.old }
    ensures { sender.new ≡ (if lost then sender.old else after_heard sender.old count) }
{
    if !lost {
        sender.heard(count);
    }
}

// The first shipment that isn't acknowledged.
fn first_waiting(sender: &Sender<Shipped>) -> Option<&Shipped>
    requires few { offered sender.now < 2 ^ 64 }
    ensures some { IfSome result (λ shipped. (packet_in sender.now (sender.now.acked + 1) ≡ Some shipped.now) × (sender.now.acked < offered sender.now)) }
    ensures none { IfNone result (offered sender.now ≤ sender.now.acked) }
{
    let number = sender.acked().saturating_add(1);
    sender.packet(number)
}

/// One round: the first shipment that isn't acknowledged is sent, and comes unless its packet is lost, a second time where that is drawn; then the
/// standby's count is told, and heard unless it is lost. Where all that was offered is acknowledged nothing is drawn and nothing sent.
///
/// So many packets and counts in a hundred are lost. Where the standby doesn't take the shipment the round ends there, and nothing was heard. It takes no
/// memory, and costs what two deliveries do.
pub fn round<D: Disk>(
    words: &mut Lcg64Xsh32,
    loss: u8,
    sender: &mut Sender<Shipped>,
    standby: &mut Standby<D>,
) -> Result<(), RoundStop>
    requires step { AreInStep sender.old standby.old }
    ensures step { AreInStep sender.new standby.new }
    ensures round { OnOk result (GoesBy loss (offered sender.old ∷ []) (words_of words.old) (words_of words.new) sender.old sender.new standby.old standby.new) }
    ensures err { OnErr result ((sender.new ≡ sender.old) × (standby.new.count ≡ standby.old.count)) }
    ensures stops { IfErr result (StopsRound D.Disk sender.old standby.old standby.new) }
    ensures counts { KeepsCount D.Disk standby.old standby.new }
    ensures follows { (b : ABeginning) (es : List AnEntry) → Follows b es D.Disk standby.old → AllShip b es sender.old → Follows b es D.Disk standby.new }
{
    let Some(shipped) = first_waiting(sender) else {
        return Ok(());
    };
    let number = sender.acked() + 1;
    let draws = draw_round(words, loss);
    if let Err(stop) = come_as_drawn(standby, number, shipped, draws) {
        return Err(stop);
    }
    hear_as_drawn(sender, standby.count(), draws.count_lost);
    Ok(())
}

/// So many rounds, which do nothing once all that was offered is acknowledged.
///
/// Where the standby doesn't take a shipment they end there.
pub fn last_rounds<D: Disk>(
    words: &mut Lcg64Xsh32,
    loss: u8,
    most: u64,
    sender: &mut Sender<Shipped>,
    standby: &mut Standby<D>,
) -> Result<(), RoundStop>
    requires step { AreInStep sender.old standby.old }
    ensures step { AreInStep sender.new standby.new }
    ensures rounds { OnOk result (GoesBy loss (replicate most (offered sender.old)) (words_of words.old) (words_of words.new) sender.old sender.new standby.old standby.new) }
    ensures stops { IfErr result (StopsRounds D.Disk sender.old standby.old standby.new) }
    ensures counts { KeepsCount D.Disk standby.old standby.new }
    ensures follows { (b : ABeginning) (es : List AnEntry) → Follows b es D.Disk standby.old → AllShip b es sender.old → Follows b es D.Disk standby.new }
{
    for _ in 0..most {
        if let Err(stop) = round(words, loss, sender, standby) {
            return Err(stop);
        }
    }
    Ok(())
}
