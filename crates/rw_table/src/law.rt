//! Proves what holds of every table. Each law is the `ensures` of a function that does nothing; its proof has the same name in
//! `proofs/Laws.antt`.
ghost use Rattle.std.specs.Prelude.{◌≡◌, ℕ, ◌+◌, ◌<◌, ℤ, ◌≤ℤ◌, ◌<ℤ◌, ◌↔◌, List, length, None, Some, IsSome, IsSomeAnd, MatchOption};
ghost use Rattle.rw_table.specs.Table.{Row, row_at, IsTable, table_refusal};
ghost use Rattle.rw_table.specs.Line.{between};
ghost use Rattle.rw_table.specs.Curve.{vol_of, elev_of, IsElevationInside, IsVolumeInside, IsGreatest};
ghost use Rattle.rw_table.specs.declared.fault.TheConstants.{ELEVATION_MAX, ROWS_MAX, VOLUME_MAX};
ghost use Rattle.std.specs.Prelude.{pos};

/// Nothing is wrong with rows exactly where they are a table.
#[tactic(auto, using(crate::proofs::Judgement::table_iff))]
pub fn faultless_rows()
    ensures { (rows : List Row) → (table_refusal rows ≡ None) ↔ IsTable rows }
{}

/// A table has a volume exactly from its first elevation to its last.
#[tactic(auto, using(crate::proofs::Laws::volume_where))]
pub fn volume_where()
    ensures { (rows : List Row) (e : ℤ) → IsTable rows
        → IsSome (vol_of rows e) ↔ IsElevationInside rows e }
{}

/// From one row to the next, the volume is on the line between them.
#[tactic(auto, using(crate::proofs::Laws::volume_between_rows))]
pub fn volume_between_rows()
    ensures { (rows : List Row) (k : ℕ) (e : ℤ) → IsTable rows → k + 1 < length rows
        → (row_at rows k).0 ≤ℤ e → e <ℤ (row_at rows (k + 1)).0
        → vol_of rows e ≡ Some (between (row_at rows k) (row_at rows (k + 1)) e) }
{}

/// At a row's elevation the volume is that row's.
#[tactic(auto, using(crate::proofs::Laws::volume_at_row))]
pub fn volume_at_row()
    ensures { (rows : List Row) (k : ℕ) → IsTable rows → k < length rows
        → vol_of rows (row_at rows k).0 ≡ Some (row_at rows k).1 }
{}

/// The volume never falls as the elevation rises.
#[tactic(auto, using(crate::proofs::Laws::volume_never_falls))]
pub fn volume_never_falls()
    ensures { (rows : List Row) (e later v w : ℤ) → IsTable rows → e ≤ℤ later
        → vol_of rows e ≡ Some v → vol_of rows later ≡ Some w → v ≤ℤ w }
{}

/// Each volume is from the first to the last.
pub fn volume_inside()
    ensures { (rows : List Row) (e v : ℤ) → IsTable rows
        → vol_of rows e ≡ Some v → IsVolumeInside rows v }
{}

/// The elevation at a volume is the greatest whole elevation whose volume is at most that. There is none exactly
/// outside the first volume to the last.
#[tactic(auto, using(crate::proofs::Laws::elevation_is_greatest))]
pub fn elevation_is_greatest()
    ensures { (rows : List Row) (s : ℤ) → IsTable rows
        → MatchOption (elev_of rows s) (¬ IsVolumeInside rows s) (IsGreatest rows s) }
{}

/// The elevation never falls as the volume rises.
#[tactic(auto, using(crate::proofs::Laws::elevation_never_falls))]
pub fn elevation_never_falls()
    ensures { (rows : List Row) (s more e f : ℤ) → IsTable rows → s ≤ℤ more
        → elev_of rows s ≡ Some e → elev_of rows more ≡ Some f → e ≤ℤ f }
{}

/// The volume at the elevation of s is at most s.
#[tactic(auto, using(crate::proofs::Laws::volume_after_elevation))]
pub fn volume_after_elevation()
    ensures { (rows : List Row) (s e : ℤ) → IsTable rows → elev_of rows s ≡ Some e
        → IsSomeAnd (vol_of rows e) (λ v. v ≤ℤ s) }
{}

/// The elevation at the volume of e is at least e.
#[tactic(auto, using(crate::proofs::Laws::elevation_after_volume))]
pub fn elevation_after_volume()
    ensures { (rows : List Row) (e v : ℤ) → IsTable rows → vol_of rows e ≡ Some v
        → IsSomeAnd (elev_of rows v) (λ back. e ≤ℤ back) }
{}

/// Says how large a table that is read and its numbers may be, as numbers: definitions have them by these names.
pub fn limits_of_tables()
    ensures rows { ROWS_MAX ≡ 200 }
    ensures elevation { ELEVATION_MAX ≡ pos 10000000 }
    ensures volume { VOLUME_MAX ≡ pos 10000000000000 }
{}
