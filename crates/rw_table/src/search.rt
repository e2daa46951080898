//! Counts the rows of a table up to an elevation or a volume, by binary search.
ghost use Rattle.std.specs.Prelude.{◌≤◌, ◌≤ℤ◌, ◌<ℤ◌, length};
ghost use Rattle.std.specs.List.Sorted.{IsPartitionPoint};
ghost use Rattle.rw_table.specs.Table.{Row, IsTable};

/// Counts the rows of a table at or below an elevation of e mm.
pub(crate) fn rows_up_to_elevation(rows: &[(i64, i64)], e: i64) -> usize
    requires { IsTable rows.now }
    ensures bound { result ≤ length rows.now }
    ensures place { IsPartitionPoint
        (λ (row : Row). row.0 ≤ℤ e) (λ (row : Row). e <ℤ row.0) rows.now result }
{
    rows.partition_point(|row| row.0 <= e)
}

/// Counts the rows of a table with a volume of at most s m3.
pub(crate) fn rows_up_to_volume(rows: &[(i64, i64)], s: i64) -> usize
    requires { IsTable rows.now }
    ensures bound { result ≤ length rows.now }
    ensures place { IsPartitionPoint
        (λ (row : Row). row.1 ≤ℤ s) (λ (row : Row). s <ℤ row.1) rows.now result }
{
    rows.partition_point(|row| row.1 <= s)
}
