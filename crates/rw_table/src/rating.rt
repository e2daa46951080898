//! Holds a valid elevation-volume table, and returns volumes and elevations from it.
ghost use Rattle.std.specs.Prelude.{◌≡◌, ◌≤◌, ◌≤ℤ◌, ◌<ℤ◌, length, OnOk, IsOk, IfOk, IsErrOf, is_some};
ghost use Rattle.std.specs.List.Sorted.{IsPartitionPoint};
ghost use Rattle.std.specs.Option.{ForSome};
ghost use Rattle.rw_base.specs.Answers.{Answers};
ghost use Rattle.rw_table.specs.Table.{IsTable, Row, rows_refusal_of, table_of};
ghost use Rattle.rw_table.specs.Curve.{vol_of, elev_of, first_row, IsElevationInside};

use crate::fault::{TableFault, judge};
use crate::lookup::{elevation_at, elevation_near, has_elevation, volume_at, volume_near};
use crate::search::rows_up_to_volume;
use std::alloc::Global;
use std::marker::Model;

/// A table of 2 to 200 rows, each an elevation from 0 to 10^7 mm and the volume from 0 to 10^13 m3 up to it, with both
/// columns strictly rising. `docs/DEFINITIONS.md` has it under "Numbers".
#[derive(Debug, Drop)]
pub struct Rating {
    rows: Vec<(i64, i64)>,
}

impl Model for Rating {
    ghost use Rattle.std.specs.Prelude.{List, ℤ};
    ghost use Rattle.rw_table.specs.Table.{IsTable};

    ghost Value = { List (ℤ × ℤ) };

    ghost view = { λ r. r.rows.items };

    ghost invariant = { λ r. IsTable r.rows.items };
}

impl Rating {
    /// Returns the table of these rows, lowest first, each an elevation in mm and a volume in m3.
    ///
    /// Rows with a fault are refused for the first that is found: their number, and then, row by row from 1 on, the bounds of the
    /// row and that it is above the row before it. `NoMemory` comes only for rows that are a table.
    pub fn of(alloc: Global, rows: &[(i64, i64)]) -> Result<Rating, TableFault>
        ensures rows { IfOk result (λ rating. rating ≡ rows.now) }
        ensures table { OnOk result (IsTable rows.now) }
        ensures answers { Answers TableFault.NoMemory rows_refusal_of (λ rating. rating) result
            (table_of rows.now) }
        ensures memory { IsErrOf result TableFault.NoMemory → IsOk (table_of rows.now) }
    {
        if let Some(fault) = judge(rows) {
            return Err(fault);
        }
        match rows.to_vec(alloc) {
            Ok(rows) => Ok(Rating { rows }),
            Err(_) => Err(TableFault::NoMemory),
        }
    }

    /// Returns the volume in m3 at an elevation of e mm, on the line between the two rows around it, rounded down. `None` exactly
    /// outside the table's elevations.
    pub fn vol(&self, e: i64) -> Option<i64>
        ensures volume { result ≡ vol_of self.now e }
        ensures table { IsTable self.now }
    {
        volume_at(&self.rows, e)
    }

    /// Returns the greatest whole elevation in mm whose volume is at most s m3. `None` exactly outside the table's volumes.
    pub fn elev(&self, s: i64) -> Option<i64>
        ensures elevation { result ≡ elev_of self.now s }
        ensures inside { ForSome result (IsElevationInside self.now) }
        ensures table { IsTable self.now }
    {
        elevation_at(&self.rows, s)
    }

    /// Returns whether the table has an elevation for s m3. It is quicker than `elev`, since it looks at the first and the last
    /// row alone.
    pub fn has_elev(&self, s: i64) -> bool
        ensures { result ≡ is_some (elev_of self.now s) }
    {
        has_elevation(&self.rows, s)
    }

    /// Returns how many rows have a volume of at most s m3: where `elev_near` and `vol_near` look first.
    pub fn rows_up_to(&self, s: i64) -> usize
        ensures bound { result ≤ length self.now }
        ensures place { IsPartitionPoint
            (λ (row : Row). row.1 ≤ℤ s) (λ (row : Row). s <ℤ row.1) self.now result }
    {
        rows_up_to_volume(&self.rows, s)
    }

    /// Returns what `vol` returns, and is quicker where e is between the elevations of the row before a place and of the row
    /// there.
    pub fn vol_near(&self, place: usize, e: i64) -> Option<i64>
        ensures volume { result ≡ vol_of self.now e }
        ensures table { IsTable self.now }
    {
        volume_near(&self.rows, place, e)
    }

    /// Returns what `elev` returns, and is quicker where s is between the volumes of the row before a place and of the row there.
    pub fn elev_near(&self, place: usize, s: i64) -> Option<i64>
        ensures elevation { result ≡ elev_of self.now s }
        ensures inside { ForSome result (IsElevationInside self.now) }
        ensures table { IsTable self.now }
    {
        elevation_near(&self.rows, place, s)
    }

    /// Returns the lowest elevation of the table, in mm.
    pub fn lowest(&self) -> i64
        ensures lowest { result ≡ (first_row self.now).0 }
        ensures table { IsTable self.now }
    {
        self.rows[0].0
    }
}
