// The cell of an entity.
ghost use Rattle.std.specs.Prelude.{◌≡◌, ◌≤◌, ◌<◌, IfOk, None, Some, false};
ghost use Rattle.image_state_laws.specs.image_meaning.Parts.{IsFormed, table_in};
ghost use Rattle.image_chosen.specs.image_chosen_facts.Tables.{IsTableOf};
ghost use Rattle.image_chosen.specs.image_fits.Chosen.{part_of};
ghost use Rattle.table_opened.specs.Opened.{IsChosenCell, IsFormedEntity};

use crate::parts::{chosen_part, unborn_part};
use base_types::Entity;
use cell_clocks::Clock;
use data_blocks::ShadowTable;
use data_stamps::Stamp;
use image_chosen::{ChosenEntity, table_for};
use kernel_record_facts::{Cell, Part, Wish};
use std::alloc::{AllocError, Global};

// A cell whose newest record is of its version, which no step and no snap has touched since.
fn fresh_cell(clock: Clock, part: Part, steps: u32) -> Cell
    ensures { result ≡ record { clock = clock; part = part; wish = record { by_step = false; asked = false; newest = clock.version }; left = steps } }
{
    Cell {
        clock,
        part,
        wish: Wish {
            by_step: false,
            asked: false,
            newest: clock.version,
        },
        left: steps,
    }
}

// The cell of an entity of which nothing is chosen.
fn unborn_cell(alloc: Global, x: Entity, frames: u16, steps: u32) -> Result<Cell, AllocError>
    requires some { 0 < frames }
    requires few { frames ≤ 256 }
    ensures { IfOk result (IsChosenCell frames steps x None) }
{
    let part = unborn_part(alloc, x, frames)?;
    Ok(fresh_cell(Clock::new(x), part, steps))
}

// The cell of a chosen entity.
fn chosen_cell(
    alloc: Global,
    x: Entity,
    entity: ChosenEntity,
    table: &ShadowTable,
    frames: u16,
    steps: u32,
) -> Result<Cell, AllocError>
    requires some { 0 < frames }
    requires few { frames ≤ 256 }
    requires formed { IsFormed x (part_of entity.part) }
    requires table { IsTableOf (table_in (part_of entity.part)) table.now.0 }
    ensures { IfOk result (IsChosenCell frames steps x (Some entity)) }
{
    let clock = Clock {
        entity: x,
        version: entity.rec.version,
        stamp: Stamp(entity.rec.stamp),
    };
    let part = chosen_part(alloc, x, entity, table, frames)?;
    Ok(fresh_cell(clock, part, steps))
}

// The cell of an entity, by what is chosen of it.
pub(crate) fn cell_for(
    alloc: Global,
    x: Entity,
    entity: Option<ChosenEntity>,
    frames: u16,
    steps: u32,
) -> Result<Cell, AllocError>
    requires some { 0 < frames }
    requires few { frames ≤ 256 }
    requires formed { IsFormedEntity x entity }
    ensures { IfOk result (IsChosenCell frames steps x entity) }
{
    let table = table_for(&entity);
    match entity {
        Some(entity) => chosen_cell(alloc, x, entity, &table, frames, steps),
        None => unborn_cell(alloc, x, frames, steps),
    }
}
