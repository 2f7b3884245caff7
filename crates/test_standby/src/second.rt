// The second node: deliveries, and what a stop leaves of them.
ghost use Rattle.std.specs.Prelude.{◌≤◌};
ghost use Rattle.edge_disk.specs.MemoryDisk.{moments_of};

use crate::first::First;
use crate::images::{FORMAT_CALLS, answer, formatted, standby};
use base_types::Rec;
use edge_disk::{Disk, MemoryDisk, Torn};
use node_exchange::Happening;
use node_shipments::Shipped;
use std::alloc::Global;
use std::test::Fail;
use test_replays::{Front, means_one_of};

// Delivers the first so many shipments, one behind another, and gives the disk back.
fn delivered_on<D: Disk + Drop>(
    alloc: Global,
    disk: D,
    made: &[Shipped],
    many: usize,
) -> Result<(u64, D), Fail> {
    let mut second = standby(alloc, disk)?;
    for shipped in made.iter().take(many) {
        let number = second.count().saturating_add(1);
        let _taken = answer(&mut second, number, shipped);
    }
    Ok((second.count(), second.into_disk()))
}

/// The second disk behind so many deliveries.
pub(crate) fn delivered(alloc: Global, first: &First, many: usize) -> Result<MemoryDisk, Fail> {
    let (count, disk) = delivered_on(alloc, formatted(alloc, &[])?, &first.made, many)?;
    if count != many as u64 {
        return Err("shipments that are taken".into());
    }
    Ok(disk)
}

/// Those from a place to another one.
pub(crate) fn part(fronts: &[Front], first: usize, last: usize) -> &[Front] {
    let end = fronts.len().min(last.saturating_add(1));
    &fronts[first.min(end)..end]
}

// A stop at a moment, torn in three ways, leaves one of these.
fn leaves(
    alloc: Global,
    disk: &MemoryDisk,
    moment: u64,
    fronts: &[Front],
    recs: &[Rec],
) -> Result<(), Fail>
    requires { moment ≤ moments_of disk.now }
{
    for &torn in &[Torn::Old, Torn::New, Torn::Fill(255)] {
        let mut left = disk.crash(moment, torn)?;
        means_one_of(alloc, &mut left, fronts, recs)?;
    }
    Ok(())
}

// How many moments the second disk has behind each number of deliveries, one at least.
fn moments_behind(alloc: Global, first: &First) -> Result<Vec<u64>, Fail> {
    let mut ends = Vec::new(alloc);
    for before in 0..first.made.len() {
        ends.push(delivered(alloc, first, before + 1)?.moments())?;
    }
    Ok(ends)
}

// Those that a stop at a moment may leave: so many of the first commits as were taken by then, and within a delivery perhaps one more. The opening ended at the first
// moment of these, and each delivery at one of the others.
fn fronts_at<'a>(fronts: &'a [Front], opened: u64, ends: &[u64], moment: u64) -> &'a [Front] {
    let taken = ends.iter().filter(|end| **end <= moment).count();
    let begun = usize::from(moment > opened && !ends.contains(&moment));
    part(fronts, taken, taken.saturating_add(begun))
}

/// A stop at each moment of the deliveries, or at one of so many, leaves what so many of the first commits mean as were taken by then, and within a delivery
/// perhaps one more.
pub(crate) fn stops_leave(alloc: Global, first: &First, one_of: u64) -> Result<(), Fail> {
    let disk = delivered(alloc, first, first.made.len())?;
    let ends = moments_behind(alloc, first)?;
    let last = disk.moments();
    // the opening begins a sync
    let opened = FORMAT_CALLS + 1;
    for moment in opened..=last {
        if moment % one_of.max(1) == 0 {
            let fronts = fronts_at(&first.fronts, opened, &ends, moment);
            leaves(alloc, &disk, moment, fronts, &first.recs)?;
        }
    }
    Ok(())
}

/// The number of the call of the second disk that ends its opening, and that of the last call of the deliveries.
pub(crate) fn calls_of(alloc: Global, first: &First) -> Result<(u64, u64), Fail> {
    let opened = delivered(alloc, first, 0)?.calls();
    let last = delivered(alloc, first, first.made.len())?.calls();
    Ok((opened, last))
}

/// Where the call with this number fails, the last stop leaves what the shipments mean that were taken, or with the one that failed. It tells how many were taken.
pub(crate) fn left_where(alloc: Global, first: &First, failing: u64) -> Result<u64, Fail> {
    let disk = formatted(alloc, &[failing])?;
    let (count, disk) = delivered_on(alloc, disk, &first.made, first.made.len())?;
    let taken = count as usize;
    let fronts = part(&first.fronts, taken, taken.saturating_add(1));
    leaves(alloc, &disk, disk.moments(), fronts, &first.recs)?;
    Ok(count)
}

/// All is offered and sent, and comes in the turned order as often as there are packets, so that one is taken each time; then the count is told and heard.
pub(crate) fn turned(alloc: Global, many: u64) -> Result<Vec<Happening>, Fail> {
    let mut events = Vec::new(alloc);
    for before in 0..many {
        events.push(Happening::Offer)?;
        events.push(Happening::Send { number: before + 1 })?;
    }
    for place in 0..many.saturating_mul(many) {
        let which = (place % many.max(1)) as usize;
        events.push(Happening::Comes { which })?;
    }
    events.push(Happening::Tell)?;
    events.push(Happening::Heard { which: 0 })?;
    Ok(events)
}
