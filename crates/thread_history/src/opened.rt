//! How a history is made: first its table, and then, under the run's name, its authority or chronicle, and the shares.
ghost use Rattle.std.specs.Prelude.{◌≡◌, ◌+◌, ◌<◌, ◌≤◌, ◌^◌, [], IfErr, IfOk, vec_len, vec_capacity};
ghost use Rattle.thread_history.specs.Rules.{opening_view};
ghost use Rattle.thread_history.specs.Seats.{IsAt};
ghost use Rattle.thread_history.specs.Sides.{sides_upto};

use crate::authorities::HistoryAuthority;
use crate::chronicles::Chronicle;
use crate::items::Item;
use crate::shares::{Run, Share};
use crate::sides::enrol_next;
use crate::views::{HistorySeat, HistoryTable};
use std::alloc::{AllocError, Global};
use std::marker::Model;
use std::snapshot::Snapshot;

/// How many entities have a share.
const ENTITIES: u64 = 64;

/// Kept items and room are fewer than this each, so that no count of items comes near the end of its word.
const MOST_ITEMS: usize = 1 << 61;

/// A history that has no name yet, without its items. Contracts see the name of its table, and the kept items.
#[derive(Drop)]
pub struct OpenedHistory<T: Item> {
    table: HistoryTable<T>,
    seat: HistorySeat<T>,
}

impl<T: Item> Model for OpenedHistory<T> {
    ghost use Rattle.std.specs.Prelude.{◌≡◌, []};
    ghost use Rattle.thread_history.specs.Rules.{opening_view};
    ghost use Rattle.thread_history.specs.Seats.{IsAt};
    ghost use Rattle.thread_history.specs.Sides.{Beginning};

    ghost Value = { Beginning T };

    ghost view = { λ o. record { table = o.table.shared.table_id; kept = o.table.shared.key.value.items } };

    ghost invariant = { λ o. IsAt o.table o.seat × (o.seat.me ≡ (opening_view, [])) };
}

impl<T: Item> OpenedHistory<T> {
    /// A table over the kept items, which are read for their number alone.
    pub fn new(alloc: Global, kept: &Vec<T>) -> Result<OpenedHistory<T>, AllocError>
        ensures { IfOk result (λ o. o.kept ≡ kept.now.items) }
    {
        let words = [kept.len() as u64, 0, 0];
        let (table, seat) = HistoryTable::of_words(alloc, &words, &Snapshot::of(kept))?;
        Ok(OpenedHistory { table, seat })
    }

    /// The authority under the run's name, with the share of each entity, in the order of their numbers.
    pub fn named<B: Run<T>>(
        self,
        alloc: Global,
    ) -> Result<(HistoryAuthority<T, B>, Vec<Share<T, B>>), AllocError>
        requires name { (self.table ≡ B.table) × (self.kept ≡ B.kept) }
        ensures authority { IfOk result (λ r. r.0 ≡ []) }
        ensures shares { IfOk result (λ r. r.1.items ≡ sides_upto ENTITIES) }
    {
        let OpenedHistory { table, mut seat } = self;
        let mut shares = Vec::with_capacity(alloc, ENTITIES as usize)?;
        for number in 0..ENTITIES {
            let place = enrol_next(&table, &mut seat);
            shares.push_reserved(Share::of(number, place));
        }
        Ok((HistoryAuthority::of(table, seat), shares))
    }
}

/// There was no memory, or the kept items or the room are 2^61 or more. The kept items come back.
#[derive(Drop)]
pub struct ChronicleFault<T: Item> {
    pub kept: Vec<T>,
}

/// A chronicle that has no name yet. Contracts see the name of its table, the kept items, and how many more have room.
#[derive(Drop)]
pub struct Opened<T: Item> {
    history: Vec<T>,
    room: usize,
    opened: OpenedHistory<T>,
}

impl<T: Item> Model for Opened<T> {
    ghost use Rattle.std.specs.Prelude.{◌≡◌, ◌+◌, ◌<◌, ◌≤◌, ◌^◌, vec_len, vec_capacity};
    ghost use Rattle.thread_history.specs.Sides.{Opening};

    ghost Value = { Opening T };

    ghost view = { λ o. record { table = o.opened.table; kept = o.history.items; room = o.room } };

    ghost invariant = { λ o. (o.opened.kept ≡ o.history.items) × (vec_len o.history + o.room ≤ vec_capacity o.history) × (vec_len o.history + o.room < 2 ^ 62) };
}

impl<T: Item> Opened<T> {
    /// A table over the kept items, with room for this many more.
    pub fn new(alloc: Global, mut kept: Vec<T>, room: usize) -> Result<Opened<T>, ChronicleFault<T>>
        ensures ok { IfOk result (λ o. (o.kept ≡ kept.items) × (o.room ≡ room)) }
        ensures err { IfErr result (λ f. f.kept.items ≡ kept.items) }
    {
        if kept.len() >= MOST_ITEMS || room >= MOST_ITEMS || kept.reserve(room).is_err() {
            return Err(ChronicleFault { kept });
        }
        let Ok(opened) = OpenedHistory::new(alloc, &kept) else {
            return Err(ChronicleFault { kept });
        };
        Ok(Opened {
            history: kept,
            room,
            opened,
        })
    }

    /// The chronicle under the run's name, with the share of each entity, in the order of their numbers.
    pub fn named<B: Run<T>>(
        self,
        alloc: Global,
    ) -> Result<(Chronicle<T, B>, Vec<Share<T, B>>), ChronicleFault<T>>
        requires name { (self.table ≡ B.table) × (self.kept ≡ B.kept) }
        ensures ok { IfOk result (λ r. (r.0.since ≡ []) × (r.0.room ≡ self.room) × (r.1.items ≡ sides_upto ENTITIES)) }
        ensures err { IfErr result (λ f. f.kept.items ≡ B.kept) }
    {
        let Opened {
            history,
            room,
            opened,
        } = self;
        let Ok((authority, shares)) = opened.named::<B>(alloc) else {
            return Err(ChronicleFault { kept: history });
        };
        Ok((Chronicle::of(history, room, authority), shares))
    }
}
