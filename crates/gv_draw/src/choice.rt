//! Chooses the rows that a picture shows.

use crate::boxes::PastMapping;
use crate::row::Row;
use gv_types::OutOfMemory;
use std::alloc::Global;

/// How many rows a picture has at most.
pub const SHOWN: usize = 200;

/// A row that changed nothing.
pub const IDLE_RANK: u8 = 0;

/// A row that changed something.
pub const PLAIN_RANK: u8 = 1;

/// A row that took back, freed or was refused.
pub const SPECIAL_RANK: u8 = 2;

/// A row that changed the page of the address.
pub const PAGE_RANK: u8 = 3;

/// At how many rows those that matter are chosen anew.
pub const CHOOSE_AT: usize = 2048;

/// How many rows that are no plain change come before newer plain ones.
const SPECIAL: u64 = 50;

/// Keeps the rows that matter most, at most as many as are shown, the newer before the older, and the mappings that stood at
/// one of them.
pub fn choose(
    alloc: Global,
    rows: &mut Vec<Row>,
    stood: &mut Vec<PastMapping>,
) -> Result<(), OutOfMemory> {
    if rows.len() <= SHOWN {
        return Ok(());
    }
    demote(rows);
    let least = least_shown(alloc, rows)?;
    rows.retain(|row| (row.rank, row.serial) >= least);
    let shown = rows.as_slice();
    stood.retain(|stood| rows_before(shown, stood.from) < rows_before(shown, stood.to));
    Ok(())
}

/// The rank and the serial number of the row that matters least of those that are shown.
fn least_shown(alloc: Global, rows: &[Row]) -> Result<(u8, u64), OutOfMemory> {
    let mut keys = Vec::new(alloc);
    for row in rows {
        keys.push((row.rank, row.serial))?;
    }
    keys.sort_unstable();
    let index = keys.len().saturating_sub(SHOWN);
    Ok(keys.get(index).copied().unwrap_or((0, 0)))
}

/// Has all but the newest special rows matter as plain ones do.
fn demote(rows: &mut Vec<Row>) {
    let mut specials: u64 = 0;
    for row in rows.iter_mut().rev() {
        if row.rank == SPECIAL_RANK {
            specials = specials.saturating_add(1);
            if specials > SPECIAL {
                row.rank = PLAIN_RANK;
            }
        }
    }
}

/// How many of ascending rows come before a serial number.
pub fn rows_before(rows: &[Row], serial: u64) -> usize {
    rows.partition_point(|row| row.serial < serial)
}
