//! The rewrite of one table as another.

ghost use Rattle.std.specs.Prelude.{◌≡◌, ◌∷◌, ◌&&◌, [], IfOk, IfSome};
ghost use Rattle.lsm_levels.specs.Tables.{at_most};
ghost use Rattle.lsm_levels.specs.Pick.{Merge, is_bottom};
ghost use Rattle.lsm_levels.specs.Held.{HasItsTables};

use crate::slots::Slots;
use lsm_levels::laws::chosen_jobs_have_free_tables;
use lsm_levels::{Choice, Levels, Pick, PlacedTable, share_all};
use std::alloc::{AllocError, Global};

/// Whether a table lies within another.
fn lies_within(outer: &PlacedTable, table: &PlacedTable) -> bool
    ensures { result
        ≡ (at_most table.now.first table.now.last
        && (at_most outer.now.first table.now.first && at_most table.now.last outer.now.last)) }
{
    table.first().cmp(table.last()).is_le()
        && (outer.first().cmp(table.first()).is_le() && table.last().cmp(outer.last()).is_le())
}

/// Handles of the tables that a rewrite of the one of this number takes in, with the level above theirs.
fn taken(alloc: Global, levels: &Levels, number: u64) -> Option<(usize, Vec<PlacedTable>)>
    ensures { IfSome result
        (λ t. HasItsTables levels.now (is_bottom levels.now (Merge t.0 [] t.1.items)) t.0 []
        t.1.items) }
{
    let _runs = levels.runs();
    let choice = Choice::Rewrite {
        first: number,
        last: number,
    };
    chosen_jobs_have_free_tables();
    match levels.choose(choice, &Slots::Free) {
        Some(Pick::Rewrite { above, tables }) => match share_all(alloc, tables) {
            Ok(tables) => Some((above, tables)),
            Err(_) => None,
        },
        _ => None,
    }
}

/// A table alone.
fn alone(alloc: Global, table: PlacedTable) -> Result<Vec<PlacedTable>, AllocError>
    ensures { IfOk result (λ tables. tables.items ≡ table ∷ []) }
{
    let mut tables = Vec::new(alloc);
    tables.push(table)?;
    Ok(tables)
}

/// Rewrites the table of a number as another that lies within it, and tells whether that was done.
pub fn rewrite(alloc: Global, levels: &mut Levels, number: u64, table: PlacedTable) -> bool {
    let Some((above, tables)) = taken(alloc, levels, number) else {
        return false;
    };
    let [old] = &tables[..] else {
        return false;
    };
    if !lies_within(old, &table) {
        return false;
    }
    let Ok(mut outputs) = alone(alloc, table) else {
        return false;
    };
    levels.replace(above, &[], &tables, &mut outputs).is_ok()
}
