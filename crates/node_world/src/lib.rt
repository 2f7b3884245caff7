//! Shipments that are numbered from 1 on, sent over a network that loses, repeats and reorders: what a sender keeps, and what a receiver
//! has after any list of events.
#![tactic(auto)]

ghost use Rattle.std.specs.Prelude.{◌≡◌, ◌≤◌, ◌<◌, ◌+◌, ◌++◌, true, List, count_by, length};
ghost use Rattle.node_world.specs.Rounds.{Draws, after_rounds, drawn_round, nothing_lost};
ghost use Rattle.node_world.specs.Worlds.{Event, Holds, IsFront, World, after_events, happens, offered, start, with_made};

mod senders;

pub use senders::Sender;

/// Whatever the network loses, repeats or reorders: what the receiver has is the first of what was to be offered, in its order; what is
/// acknowledged is at most that, and that at most what was offered.
pub fn world_law<T>()
    ensures front { (made : List T) (events : List Event) → IsFront (after_events events (start made)).kept made }
    ensures acked { (made : List T) (events : List Event) → (after_events events (start made)).sender.acked ≤ length (after_events events (start made)).kept }
    ensures offered { (made : List T) (events : List Event) → length (after_events events (start made)).kept ≤ offered (after_events events (start made)).sender }
    ensures made { (made : List T) (events : List Event) → offered (after_events events (start made)).sender ≤ length made }
{}

/// Rounds by their draws, behind whatever happened: each raises what is acknowledged where nothing is lost and not all that was offered is (`raises`),
/// also where its packet comes twice. The world stays as it was (`holds`), what is acknowledged never falls (`falls`), and nothing is offered
/// (`offered`). So as many rounds without a loss as there are shipments that aren't acknowledged, with whatever rounds between them, acknowledge
/// all (`all`).
pub fn round_law<T>()
    ensures raises { (made : List T) (w : World T) (d : Draws) → Holds made w → w.sender.acked < offered w.sender → nothing_lost d ≡ true
        → w.sender.acked < (after_events (drawn_round w.sender d) w).sender.acked }
    ensures holds { (made : List T) (w : World T) (ds : List Draws) → Holds made w → Holds made (after_rounds ds w) }
    ensures falls { (made : List T) (w : World T) (ds : List Draws) → Holds made w → w.sender.acked ≤ (after_rounds ds w).sender.acked }
    ensures offered { (made : List T) (w : World T) (ds : List Draws) → Holds made w → offered (after_rounds ds w).sender ≡ offered w.sender }
    ensures all { (made : List T) (w : World T) (ds : List Draws) → Holds made w
        → offered w.sender ≤ w.sender.acked + count_by nothing_lost ds → (after_rounds ds w).sender.acked ≡ offered w.sender }
{}

/// What stays true of the world holds at the start, goes on over each event, and stays where more is made.
pub fn holds_law<T>()
    ensures start { (made : List T) → Holds made (start made) }
    ensures next { (made : List T) (w : World T) (e : Event) → Holds made w → Holds made (happens w e) }
    ensures more { (made more : List T) (w : World T) → Holds made w → Holds (made ++ more) (with_made w more) }
{}
