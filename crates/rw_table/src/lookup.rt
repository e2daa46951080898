//! Looks up the volume at an elevation, and the elevation at a volume, in the rows of a table.
ghost use Rattle.std.specs.Prelude.{◌≡◌, is_some};
ghost use Rattle.rw_table.specs.Table.{IsTable};
ghost use Rattle.rw_table.specs.Curve.{vol_of, elev_of};

use crate::interval::{elevation_between, volume_between};
use crate::search::{rows_up_to_elevation, rows_up_to_volume};

/// Returns the volume in m3 at an elevation of e mm, in the rows of a table.
pub(crate) fn volume_at(rows: &[(i64, i64)], e: i64) -> Option<i64>
    requires { IsTable rows.now }
    ensures { result ≡ vol_of rows.now e }
{
    let place = rows_up_to_elevation(rows, e);
    if place == 0 {
        return None;
    }
    let low = rows[place - 1];
    if place < rows.len() {
        return Some(volume_between(low, rows[place], e));
    }
    if low.0 == e {
        return Some(low.1);
    }
    None
}

/// Returns the greatest whole elevation in mm whose volume is at most s m3, in the rows of a table.
pub(crate) fn elevation_at(rows: &[(i64, i64)], s: i64) -> Option<i64>
    requires { IsTable rows.now }
    ensures { result ≡ elev_of rows.now s }
{
    let place = rows_up_to_volume(rows, s);
    if place == 0 {
        return None;
    }
    let low = rows[place - 1];
    if place < rows.len() {
        return Some(elevation_between(low, rows[place], s));
    }
    if low.1 == s {
        return Some(low.0);
    }
    None
}

/// Returns whether the rows of a table have an elevation for a volume of s m3.
pub(crate) fn has_elevation(rows: &[(i64, i64)], s: i64) -> bool
    requires { IsTable rows.now }
    ensures { result ≡ is_some (elev_of rows.now s) }
{
    rows[0].1 <= s && s <= rows[rows.len() - 1].1
}

/// Returns what `volume_at` returns, without a search where e is between the elevations of the row before a place and of the row
/// there.
pub(crate) fn volume_near(rows: &[(i64, i64)], place: usize, e: i64) -> Option<i64>
    requires { IsTable rows.now }
    ensures { result ≡ vol_of rows.now e }
{
    if 0 < place && place < rows.len() && rows[place - 1].0 <= e && e < rows[place].0 {
        return Some(volume_between(rows[place - 1], rows[place], e));
    }
    volume_at(rows, e)
}

/// Returns what `elevation_at` returns, without a search where s is between the volumes of the row before a place and of the row
/// there.
pub(crate) fn elevation_near(rows: &[(i64, i64)], place: usize, s: i64) -> Option<i64>
    requires { IsTable rows.now }
    ensures { result ≡ elev_of rows.now s }
{
    if 0 < place && place < rows.len() && rows[place - 1].1 <= s && s < rows[place].1 {
        return Some(elevation_between(rows[place - 1], rows[place], s));
    }
    elevation_at(rows, s)
}
